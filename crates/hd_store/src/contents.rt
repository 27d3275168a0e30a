ghost use Rattle.std.specs.Prelude.{◌≡◌, ◌+◌, ◌*◌, ◌^◌, ◌<◌, ◌≤◌, [], length, replicate, true, None, IfOk, IfSome, MatchOption};
ghost use Rattle.std.specs.FinMap.{len, empty};
ghost use Rattle.hd_model.specs.State.{Numbers, given_of, last_serial, total_size};
ghost use Rattle.hd_model.specs.Heap.{has_object, object_at};
ghost use Rattle.hd_model.specs.Table.{empty_table};
ghost use Rattle.hd_heap.specs.Calls.{empty_heap};
ghost use Rattle.hd_model.specs.{Scene.IsField, declared.data.Addr.Addr};
ghost use Rattle.hd_plan.specs.Plan.{HasNoEmptyRegion};
ghost use Rattle.hd_seg.specs.Given.{HasNoneGiven, IsNextGiven};
ghost use Rattle.hd_store.specs.{Inside.HasWeakRoom, Inside.IsFirst, Store.IsOverHeap, Store.without_free, Visited.buckets_of};

use hd_ages::AgeMap;
use hd_cwt::Cwt;
use hd_final::Final;
use hd_heap::Heap;
use hd_model::limits::{
    BLOCKS, CALLERS, CLUMPS, HOST_BLOCKS, HOST_CONTEXTS, HOST_HEAP, OLDEST, REGISTERS,
};
use hd_model::{Addr, Memory, Slot, filled};
use hd_seg::Seg;
use std::alloc::Global;
use std::marker::Model;

// A caller's registers of either sort, and as many statics and entries of the board.
pub(crate) const INDEXES: usize = REGISTERS as usize;

/// The contents of a store: the state of the machine, with the ages of the clumps. Objects are
/// referenced by address.
pub struct Contents {
    pub(crate) alloc: Global,
    pub(crate) heap: Heap,
    pub(crate) table: Seg,
    pub(crate) ages: AgeMap,
    pub(crate) weak: Cwt,
    pub(crate) queue: Final,
    // What the object registers of each caller in turn reference, and then the statics.
    pub(crate) roots: Vec<Option<Addr>>,
    pub(crate) handle_registers: Vec<[Option<Slot>; INDEXES]>,
    pub(crate) board: [Option<Slot>; INDEXES],
    pub(crate) serials: Vec<u32>,
}

impl Model for Contents {
    ghost use Rattle.hd_store.specs.Store.{Machine, machine_of, machine_code};
    ghost use Rattle.hd_store.specs.{Inside.IsStored, StoreParts.parts};

    ghost Value = { Machine };

    ghost coded = { machine_code };

    ghost view = { λ s. machine_of (parts s) };

    ghost invariant = { λ s. IsStored (parts s) };
}

// Not derived: what a derived one does is proved again wherever a store is dropped.
impl Drop for Contents {
    fn drop(self) {
        let Contents {
            alloc: _,
            heap: _heap,
            table: _table,
            ages: _ages,
            weak: _weak,
            queue: _queue,
            roots: _roots,
            handle_registers: _handle_registers,
            board: _,
            serials: _serials,
        } = self;
    }
}

// The parts that grow with the objects: the heap and the queue.
#[inline(always)]
fn open_objects(alloc: Global, limit: u32) -> Result<(Heap, Final), Memory>
    ensures { IfOk result (λ made. (made.0 ≡ empty_heap limit)
        × (made.1 ≡ record { queued = []; room = 0 })) }
{
    let heap = Heap::open(alloc, limit)?;
    let queue = Final::open(alloc)?;
    Ok((heap, queue))
}

// The parts whose size goes by the blocks: the table, the ages of its clumps and the weak table.
#[inline(always)]
fn open_tables(alloc: Global, blocks: u32, callers: u32) -> Result<(Seg, AgeMap, Cwt), Memory>
    requires { blocks ≤ HOST_BLOCKS }
    ensures { IfOk result (λ made. (made.0 ≡ empty_table blocks)
        × (made.1 ≡ replicate (CLUMPS * blocks) OLDEST)
        × (made.2.held ≡ empty) × HasWeakRoom blocks callers made.2) }
{
    let ages = AgeMap::open(alloc, blocks)?;
    let table = Seg::open(alloc, blocks)?;
    let weak = open_weak(alloc, blocks, callers)?;
    Ok((table, ages, weak))
}

/// The weak table without a slot. With more blocks than a script's it takes its memory with its
/// first entry.
pub(crate) fn open_weak(alloc: Global, blocks: u32, callers: u32) -> Result<Cwt, Memory>
    requires { blocks ≤ HOST_BLOCKS }
    ensures held { IfOk result (λ w. w.held ≡ empty) }
    ensures room { IfOk result (HasWeakRoom blocks callers) }
{
    if blocks > BLOCKS {
        Cwt::open_with(alloc, 0, 1)
    } else {
        Cwt::open_with(alloc, blocks, buckets_for(blocks, callers))
    }
}

/// The number of buckets of the weak table.
pub(crate) fn buckets_for(blocks: u32, callers: u32) -> u32
    requires { blocks ≤ HOST_BLOCKS }
    ensures value { result ≡ buckets_of blocks callers }
    ensures some { 0 < result }
    ensures few { result < 2 ^ 31 }
{
    if blocks > BLOCKS {
        16 * blocks - 1
    } else if callers > CALLERS {
        16 * BLOCKS - 1
    } else {
        16 * BLOCKS
    }
}

// The parts whose size goes by the callers: what the object registers and statics reference, the
// handle registers, and the serials.
#[inline(always)]
fn open_registers(
    alloc: Global,
    callers: u32,
) -> Result<(Vec<Option<Addr>>, Vec<[Option<Slot>; INDEXES]>, Vec<u32>), Memory>
    requires { callers ≤ HOST_CONTEXTS }
    ensures { IfOk result (λ made. (made.0.items ≡ replicate (REGISTERS * callers + REGISTERS) None)
        × (made.1.items ≡ replicate callers (replicate REGISTERS None))
        × (made.2.items ≡ replicate callers 0)) }
{
    let roots = filled(alloc, None, REGISTERS * callers + REGISTERS)?;
    let handle_registers = filled(alloc, [None; INDEXES], callers)?;
    let serials = filled(alloc, 0, callers)?;
    Ok((roots, handle_registers, serials))
}

impl Contents {
    /// The state in which nothing is made yet.
    pub(crate) fn open(
        alloc: Global,
        heap: u32,
        blocks: u32,
        callers: u32,
    ) -> Result<Contents, Memory>
        requires heap { heap ≤ HOST_HEAP }
        requires blocks { blocks ≤ HOST_BLOCKS }
        requires callers { callers ≤ HOST_CONTEXTS }
        ensures { let n : Numbers = record { heap = heap; blocks = blocks; callers = callers } in
            IfOk result (IsFirst n) }
    {
        let (roots, handle_registers, serials) = open_registers(alloc, callers)?;
        let (heap, queue) = open_objects(alloc, heap)?;
        let (table, ages, weak) = open_tables(alloc, blocks, callers)?;
        Ok(Contents {
            alloc,
            heap,
            table,
            ages,
            weak,
            queue,
            roots,
            handle_registers,
            board: [None; INDEXES],
            serials,
        })
    }

    /// The number of objects, reachable or not.
    pub fn objects(&self) -> u32
        ensures value { result ≡ len self.now.state.objects }
        ensures heap { IsOverHeap self.now }
    {
        self.heap.count()
    }

    /// The cells that all objects take together.
    pub fn cells(&self) -> u32
        ensures { result ≡ total_size self.now.state }
    {
        self.heap.used()
    }

    /// The number of objects that are queued for finalization.
    pub fn queued(&self) -> u32
        ensures { result ≡ length self.now.state.queue }
    {
        self.queue.len()
    }

    /// The serial of the last object that a caller made, 0 where it made none.
    pub fn last_serial(&self, caller: u32) -> u32
        requires { caller < self.now.numbers.callers }
        ensures { result ≡ last_serial self.now.state caller }
    {
        self.serials[caller as usize]
    }

    /// The cells that all objects may take together.
    pub fn limit(&self) -> u32
        ensures { result ≡ self.now.numbers.heap }
    {
        self.heap.limit()
    }

    /// The number of callers.
    pub(crate) fn callers(&self) -> u32
        requires { self.now.numbers.callers ≤ HOST_CONTEXTS }
        ensures { result ≡ self.now.numbers.callers }
    {
        self.handle_registers.len() as u32
    }

    /// The number of blocks that have a use.
    pub fn given(&self) -> u32
        ensures { result ≡ given_of self.now.state }
    {
        self.table.given()
    }

    /// The least block from one on that has a use, if there is one. It passes over blocks without
    /// a use 64 at once.
    #[inline(always)]
    pub fn next_given(&self, from: u32) -> Option<u32>
        requires { 1 ≤ from }
        ensures next { let uses = self.now.state.blocks in
            MatchOption result (HasNoneGiven uses from) (IsNextGiven uses from) }
        ensures within { IfSome result (λ block. block ≤ self.now.numbers.blocks) }
        ensures table { IfSome result (λ block. block ≤ self.now.table.blocks) }
    {
        self.table.next_given(from)
    }

    /// The number of blocks that the table has at most.
    pub fn blocks(&self) -> u32
        ensures value { result ≡ self.now.numbers.blocks }
        ensures table { result ≡ self.now.table.blocks }
    {
        self.ages.blocks()
    }

    /// The table.
    pub fn table(&self) -> &Seg
        ensures { result.now ≡ self.now.table }
    {
        &self.table
    }

    /// The heap, of which the contents' value leaves out the free regions. Each of its references
    /// is to an object, and each region in use has one.
    pub fn heap(&self) -> &Heap
        ensures value { without_free result.now ≡ self.now.heap }
        ensures whole { (x y : Addr) → IsField (object_at result.now) x y
            → has_object result.now y ≡ true }
        ensures full { HasNoEmptyRegion result.now }
    {
        &self.heap
    }

    /// The ages of the clumps.
    pub fn ages(&self) -> &AgeMap
        ensures value { result.now ≡ self.now.ages }
        ensures clumps { CLUMPS * self.now.numbers.blocks ≡ length self.now.ages }
    {
        &self.ages
    }

    /// The number of live handles, without the slots that the weak table holds.
    pub fn live(&self) -> u32
        ensures { result ≡ len self.now.state.handles }
    {
        self.table.live() - self.weak.held_count()
    }
}
