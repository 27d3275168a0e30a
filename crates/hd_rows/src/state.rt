// What a collection takes, as a test has it.
ghost use Rattle.std.specs.Prelude.{◌≡◌, ◌*◌, ◌<◌, ◌≤◌, true, length, IfOk};
ghost use Rattle.std.specs.FinMap.{len};
ghost use Rattle.hd_plan.specs.Plan.{HasNoEmptyRegion};
ghost use Rattle.hd_gc.specs.Ready.{IsReady, parts};

use crate::checks::{are_alone, are_plain, is_bare, is_object_at, roots_are_objects};
use hd_ages::AgeMap;
use hd_final::Final;
use hd_gc::collect;
use hd_heap::Heap;
use hd_model::limits::{CLUMP, CLUMPS, FIELDS, OLDEST, ROWS};
use hd_model::{Addr, Grown, Id, Kind, Memory, Report, Slot, Steps};
use hd_seg::{BlockKind, Extra, Row, Seg};
use std::alloc::Global;
use std::marker::Brand;
use std::process::Abort;
use std::sync::ledger::{Blank, Ledger};

// The blocks of the table.
const TABLE: u32 = 4;

/// A heap, a table with its ages, a queue, and what registers reference.
#[derive(Drop)]
pub(crate) struct State {
    pub(crate) heap: Heap,
    pub(crate) seg: Seg,
    pub(crate) ages: AgeMap,
    pub(crate) fin: Final,
    pub(crate) roots: Vec<Option<Addr>>,
}

// A heap without objects.
fn empty(alloc: Global) -> Result<Heap, Memory>
    ensures { IfOk result (λ h. HasNoEmptyRegion h) }
{
    let heap = Heap::open(alloc, 100_000)?;
    // Read for the proof alone: a heap without objects has no region in use.
    let _regions = heap.regions();
    Ok(heap)
}

/// A state in which nothing is made yet.
pub(crate) fn open(alloc: Global) -> Result<State, Memory>
    ensures full { IfOk result (λ s. HasNoEmptyRegion s.heap) }
    ensures clumps { IfOk result (λ s. length s.ages ≡ CLUMPS * s.seg.blocks) }
{
    Ok(State {
        heap: empty(alloc)?,
        seg: Seg::open(alloc, TABLE)?,
        ages: AgeMap::open(alloc, TABLE)?,
        fin: Final::open(alloc)?,
        roots: Vec::new(alloc),
    })
}

// Makes an object of null fields.
fn make(rt: &impl Abort, heap: &mut Heap, id: u64, fields: u32) -> Addr
    requires full { HasNoEmptyRegion heap.old }
    ensures full { HasNoEmptyRegion heap.new }
{
    assert!(rt; id > 0);
    assert!(rt; fields <= FIELDS);
    match heap.new_object(Id(id), fields, false) {
        Ok(at) => at,
        Err(_) => panic!(rt; "no object is made"),
    }
}

/// The same for a state. The object is a root if it is said to be one.
pub(crate) fn new(rt: &impl Abort, s: &mut State, id: u64, fields: u32, root: bool) -> Addr
    requires full { HasNoEmptyRegion s.old.heap }
    requires clumps { length s.old.ages ≡ CLUMPS * s.old.seg.blocks }
    ensures full { HasNoEmptyRegion s.new.heap }
    ensures clumps { length s.new.ages ≡ CLUMPS * s.new.seg.blocks }
{
    let at = make(rt, &mut s.heap, id, fields);
    let pushed = s.roots.push(if root { Some(at) } else { None });
    assert!(rt; pushed.is_ok());
    at
}

/// Makes a handle of a kind without extra, in a block of its own, and returns its slot.
pub(crate) fn handle(rt: &impl Abort, s: &mut State, kind: Kind, target: Option<Addr>) -> Slot
    requires full { HasNoEmptyRegion s.old.heap }
    requires clumps { length s.old.ages ≡ CLUMPS * s.old.seg.blocks }
    ensures full { HasNoEmptyRegion s.new.heap }
    ensures clumps { length s.new.ages ≡ CLUMPS * s.new.seg.blocks }
{
    let Ok(Grown::One(block)) = s.seg.give_block(kind) else {
        panic!(rt; "no block is left");
    };
    assert!(rt; 1 <= block && block <= TABLE);
    let slot = Slot(ROWS * block);
    assert!(rt; s.seg.row(slot).is_none());
    assert!(rt; s.seg.block_kind(block) == BlockKind::Rows(kind));
    assert!(rt; !kind.paired());
    let extra = Extra::Nothing;
    s.seg.put_row(slot, Row { target, extra });
    lower(rt, s, slot, target);
    slot
}

/// Gives a handle another target.
pub(crate) fn set(rt: &impl Abort, s: &mut State, slot: Slot, target: Option<Addr>)
    requires full { HasNoEmptyRegion s.old.heap }
    requires clumps { length s.old.ages ≡ CLUMPS * s.old.seg.blocks }
    ensures full { HasNoEmptyRegion s.new.heap }
    ensures clumps { length s.new.ages ≡ CLUMPS * s.new.seg.blocks }
{
    assert!(rt; s.seg.row(slot).is_some());
    s.seg.set_row(slot, target);
    lower(rt, s, slot, target);
}

// Lowers the age of a slot's clump to the generation of a target.
fn lower(rt: &impl Abort, s: &mut State, slot: Slot, target: Option<Addr>)
    requires full { HasNoEmptyRegion s.old.heap }
    requires clumps { length s.old.ages ≡ CLUMPS * s.old.seg.blocks }
    ensures full { HasNoEmptyRegion s.new.heap }
    ensures clumps { length s.new.ages ≡ CLUMPS * s.new.seg.blocks }
{
    let Some(at) = target else {
        return;
    };
    assert!(rt; is_object_at(&s.heap, at));
    let block = slot.0 / ROWS;
    assert!(rt; 1 <= block && block <= s.ages.blocks());
    let generation = s.heap.generation(at);
    s.ages.lower(block, slot.0 % ROWS / CLUMP, generation);
}

// Whether the state meets what a collection asks of it.
fn is_ready(s: &State) -> bool
    requires full { HasNoEmptyRegion s.now.heap }
    requires clumps { length s.now.ages ≡ CLUMPS * s.now.seg.blocks }
    requires room { len s.now.heap.objects ≤ s.now.fin.room }
    ensures { result ≡ true →
        IsReady (parts s.now.heap s.now.seg s.now.ages s.now.fin s.now.roots.items) }
{
    if !is_bare(&s.heap) {
        return false;
    }
    if !are_alone(&s.heap) {
        return false;
    }
    if !are_plain(&s.heap, &s.seg, &s.ages) {
        return false;
    }
    if !roots_are_objects(&s.heap, &s.roots) {
        return false;
    }
    s.fin.len() == 0
}

// Collects, with a counter that nothing reads.
fn collect_by<L: Ledger>(
    rt: &impl Abort,
    alloc: Global,
    s: &mut State,
    n: u8,
    blank: Blank,
) -> Result<Report, Memory>
    requires blank { (L.name ≡ blank.name) × (L.parts ≡ blank.parts) × (0 < blank.parts) }
    requires full { HasNoEmptyRegion s.old.heap }
    requires clumps { length s.old.ages ≡ CLUMPS * s.old.seg.blocks }
    ensures full { IfOk result (λ _. HasNoEmptyRegion s.new.heap) }
    ensures clumps { IfOk result (λ _. length s.new.ages ≡ CLUMPS * s.new.seg.blocks) }
{
    let mut steps = Steps::<L>::open(blank);
    let objects = s.heap.count();
    s.fin.reserve(objects)?;
    assert!(rt; n <= OLDEST);
    assert!(rt; is_ready(s));
    collect(
        alloc,
        &mut s.heap,
        &mut s.seg,
        &mut s.ages,
        &mut s.fin,
        &mut s.roots,
        n,
        &mut steps,
    )
}

/// Collects a generation and all younger ones.
pub(crate) fn collected(
    rt: &impl Abort,
    alloc: Global,
    s: &mut State,
    n: u8,
) -> Result<Report, Memory>
    requires full { HasNoEmptyRegion s.old.heap }
    requires clumps { length s.old.ages ≡ CLUMPS * s.old.seg.blocks }
    ensures full { IfOk result (λ _. HasNoEmptyRegion s.new.heap) }
    ensures clumps { IfOk result (λ _. length s.new.ages ≡ CLUMPS * s.new.seg.blocks) }
{
    collect_by::<Brand>(rt, alloc, s, n, Blank::new(1))
}

/// The clumps that a collection visits in the one block of a kind.
pub(crate) fn due(rt: &impl Abort, s: &State, kind: Kind, n: u8) -> u32 {
    match s.seg.first(kind) {
        Some(block) => {
            assert!(rt; block <= s.ages.blocks());
            u32::from(s.ages.due(block, n)).count_ones()
        }
        None => 0,
    }
}

/// What the first register references.
pub(crate) fn first_root(rt: &impl Abort, s: &State) -> Option<Addr> {
    assert!(rt; s.roots.len() > 0);
    s.roots[0]
}
