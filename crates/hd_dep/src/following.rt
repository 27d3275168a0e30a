ghost use Rattle.std.specs.Prelude.{◌≡◌, ◌⊎◌, ◌+◌, ◌*◌, ◌^◌, ◌<◌, ◌≤◌, ℕ, [], true, length, take, Some};
ghost use Rattle.std.specs.Prelude.{IsSome, IfOk, vec_capacity, slice_get};
ghost use Rattle.std.specs.{List.Sorted.IsNonDecreasingBy, FinMap.get};
ghost use Rattle.hd_model.specs.{declared.data.Addr.Addr, Heap.objects_of, Leads.IsClosed, Leads.IsClosure, Scene.IsField, Reach.IsEdge, Table.live_at, Table.row_at, Names.NamesObjects};
ghost use Rattle.hd_model.specs.declared.data.Kind.TheVariants as kind;
ghost use Rattle.hd_model.specs.Visits.{MayVisit, MayVisitDue, visits_of};
ghost use Rattle.hd_ages.specs.Clumps.{CoversTable};
ghost use Rattle.hd_dep.specs.Inside.{Spreads, IsWaitingEdge, Waits};
ghost use Rattle.hd_dep.specs.Inside.{AreObjects, HasJoined, IsGathered, IsVisited, target_of};

use crate::rescanning::parts;
use crate::waiting::{Waiting, promote_for, sort};
use hd_ages::{AgeMap, DueRows, count_due};
use hd_model::limits::CLUMP;
use hd_model::{Kind, Memory, PromotionLog, Slot, Steps};
use hd_seg::Seg;
use std::alloc::Global;
use std::marker::Model;
use std::sync::ledger::Ledger;

/// Room for the dependent handles that wait until their targets are promoted. Its value is the
/// number of handles that it has room for.
#[derive(Drop)]
pub struct DependentIndex {
    rows: Vec<Waiting>,
}

impl Model for DependentIndex {
    ghost use Rattle.std.specs.Prelude.{ℕ, vec_capacity};

    ghost Value = { ℕ };

    ghost view = { λ i. vec_capacity i.rows };
}

impl DependentIndex {
    /// Room for all dependent handles that a collection of generation `n` visits. It takes all
    /// memory that `follow` needs, by the due clumps, and looks at no row. It takes none where no
    /// clump is due, and `follow` then ends at once.
    pub fn open(alloc: Global, seg: &Seg, ages: &AgeMap, n: u8) -> Result<DependentIndex, Memory>
        requires blocks { CoversTable ages.now seg.now }
        ensures { IfOk result (λ index.
            index ≡ CLUMP * visits_of seg.now ages.now n kind.Dependent) }
    {
        let clumps = count_due(seg, ages, Kind::Dependent, n);
        match Vec::with_capacity(alloc, (CLUMP * clumps) as usize) {
            Ok(rows) => Ok(DependentIndex { rows }),
            Err(_) => Err(Memory),
        }
    }

    // Whether it has room for no handle.
    fn is_bare(&self) -> bool
        ensures { result ≡ true → self.now ≡ 0 }
    {
        self.rows.capacity() == 0
    }
}

/// Promotes what `rescan` promotes, in one pass over the due clumps: it promotes the secondary of
/// each dependent handle whose target is promoted, and the others wait, sorted by their targets.
/// Each object that was promoted since the pass began is then looked up once among them, by a
/// binary search. The order of the handles does not matter. Each visit is one step, and a look-up
/// is none.
/// Out of line, since its loops are faster where their registers are their own.
#[inline(never)]
pub fn follow<M: PromotionLog, L: Ledger>(
    seg: &Seg,
    ages: &AgeMap,
    index: &mut DependentIndex,
    marker: &mut M,
    n: u8,
    steps: &mut Steps<L>,
)
    requires settled { M.settled marker.old }
    requires due { MayVisitDue (M.basis marker.old) seg.now ages.now n }
    requires fields { IsClosed (IsField (objects_of (M.basis marker.old))) (M.promoted marker.old) }
    requires room { CLUMP * visits_of seg.now ages.now n kind.Dependent ≤ index.old }
    ensures settled { M.settled marker.new }
    ensures basis { M.basis marker.new ≡ M.basis marker.old }
    ensures pinned { M.pinned marker.new ≡ M.pinned marker.old }
    ensures closure { IsClosure (IsEdge (objects_of (M.basis marker.old)) (row_at seg.now))
        (M.promoted marker.old) (M.promoted marker.new) }
    ensures room { index.new ≡ index.old }
    ensures steps { steps.new ≡ steps.old + visits_of seg.now ages.now n kind.Dependent }
{
    if index.is_bare() {
        // This read gives the proof the table's invariant.
        let _live = seg.live();
        return;
    }
    let start = marker.logged();
    index.rows.clear();
    collect_waiting(seg, ages, &mut index.rows, marker, n, steps);
    sort(&mut index.rows);
    promote_since(&index.rows, marker, start);
}

/// One pass over the due clumps, which leaves the handles waiting whose targets are not promoted.
fn collect_waiting<M: PromotionLog, L: Ledger>(
    seg: &Seg,
    ages: &AgeMap,
    waiting: &mut Vec<Waiting>,
    marker: &mut M,
    n: u8,
    steps: &mut Steps<L>,
)
    requires settled { M.settled marker.old }
    requires visit { MayVisit (M.basis marker.old) seg.now ages.now n }
    requires none { waiting.old.items ≡ [] }
    requires room { CLUMP * visits_of seg.now ages.now n kind.Dependent
        ≤ vec_capacity waiting.old }
    ensures settled { M.settled marker.new }
    ensures basis { M.basis marker.new ≡ M.basis marker.old }
    ensures pinned { M.pinned marker.new ≡ M.pinned marker.old }
    ensures log { take (length (M.log marker.old)) (M.log marker.new) ≡ M.log marker.old }
    ensures spreads { Spreads (IsEdge (objects_of (M.basis marker.old)) (row_at seg.now))
        (M.promoted marker.old) (M.promoted marker.new) }
    ensures gathered { IsGathered seg.now ages.now n (M.promoted marker.old)
        waiting.new.items (M.promoted marker.new) }
    ensures room { vec_capacity waiting.new ≡ vec_capacity waiting.old }
    ensures steps { steps.new ≡ steps.old + visits_of seg.now ages.now n kind.Dependent }
{
    let mut rows = DueRows::start(seg, ages, Kind::Dependent, n);
    while let Some(slot) = rows.next(seg, ages, steps) {
        visit_row(seg, slot, waiting, marker);
    }
}

/// Promotes the secondary of a dependent handle, if its target is promoted. Otherwise the pair is
/// kept with the waiting rows.
fn visit_row<M: PromotionLog>(seg: &Seg, slot: Slot, waiting: &mut Vec<Waiting>, marker: &mut M)
    requires live { IsSome (get seg.now.rows slot.0) }
    requires of_kind { (live_at seg.now slot.0).kind ≡ kind.Dependent }
    requires settled { M.settled marker.old }
    requires names { NamesObjects (objects_of (M.basis marker.old)) (row_at seg.now) }
    requires room { length waiting.old.items < vec_capacity waiting.old }
    ensures settled { M.settled marker.new }
    ensures basis { M.basis marker.new ≡ M.basis marker.old }
    ensures pinned { M.pinned marker.new ≡ M.pinned marker.old }
    ensures log { take (length (M.log marker.old)) (M.log marker.new) ≡ M.log marker.old }
    ensures spreads { Spreads (IsEdge (objects_of (M.basis marker.old)) (row_at seg.now))
        (M.promoted marker.old) (M.promoted marker.new) }
    ensures rows { (waiting.new.items ≡ waiting.old.items)
        ⊎ HasJoined (live_at seg.now slot.0) (M.promoted marker.old)
        waiting.old.items waiting.new.items }
    ensures visited { IsVisited (live_at seg.now slot.0) waiting.new.items
        (M.promoted marker.new) }
    ensures room { vec_capacity waiting.new ≡ vec_capacity waiting.old }
{
    let Some((target, secondary)) = parts(seg, slot) else {
        return;
    };
    if marker.promoted(target) {
        marker.promote_logged(secondary);
        return;
    }
    waiting.push_reserved(Waiting { target, secondary });
}

/// Promotes the secondaries of the waiting handles whose targets come in the log from `start` on,
/// which it lengthens.
fn promote_since<M: PromotionLog>(rows: &[Waiting], marker: &mut M, start: usize)
    requires rising { IsNonDecreasingBy target_of rows.now }
    requires settled { M.settled marker.old }
    requires objects { AreObjects (objects_of (M.basis marker.old)) rows.now }
    requires start { start ≤ length (M.log marker.old) }
    ensures settled { M.settled marker.new }
    ensures basis { M.basis marker.new ≡ M.basis marker.old }
    ensures pinned { M.pinned marker.new ≡ M.pinned marker.old }
    ensures log { take (length (M.log marker.old)) (M.log marker.new) ≡ M.log marker.old }
    ensures spreads { let basis = M.basis marker.old in
        Spreads (IsWaitingEdge (objects_of basis) basis.condemned rows.now)
        (M.promoted marker.old) (M.promoted marker.new) }
    ensures followed { (k : ℕ) (x y : Addr) → start ≤ k → slice_get (M.log marker.new) k ≡ Some x →
        Waits rows.now x y → M.promoted marker.new y ≡ true }
{
    let mut next = start;
    while next < marker.logged() {
        promote_for(rows, marker.logged_at(next), marker);
        next += 1;
    }
}
