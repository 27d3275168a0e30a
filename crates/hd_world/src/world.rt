ghost use Rattle.std.specs.Prelude.{◌≡◌, ◌+◌, ◌<◌, ◌≤◌, ◌^◌, [], length, IsTrue, IfOk, OnErr, MatchResult};
ghost use Rattle.std.specs.FinMap.{len};
ghost use Rattle.hd_model.specs.State.{Numbers, start_of, use_of, block_of};
ghost use Rattle.hd_model.specs.{PinnedAddresses.with_pinned, Run.Run, Valid.IsValid, Valid.takes_memory, RootText.roots_of, Text.collections_of, Text.is_collect};
ghost use Rattle.hd_store.specs.{Growth.kind_in_use, Visited.TakesSteps};
ghost use Rattle.hd_store.specs.Offers.{IsOffer, needs_slot, FitsHeap};
ghost use Rattle.hd_world.specs.{TrueRuns.Placed, TrueRuns.Placed-prop, Applied.Applied, StateHeap.IsOfJournal, Stepped.Stepped, Stepped.WantsMemory, World.HasRunLimits, World.MayApply};

use hd_model::limits::{BLOCKS, CALLERS, HEAP};
use hd_model::{Class, Cmd, Entry, Held, Journal, Kind, Memory, RootId, Slot, Steps};
use hd_scan::gather;
use hd_store::Store;
use std::alloc::Global;
use std::marker::{Brand, Model};
use std::sync::ledger::{Blank, Ledger};
use std::thread::Threads;

/// A world of objects and handles, seen as its numbers, its state, the ages of its clumps, its
/// heap, its table, its journal, and for how many more entries there is room. The journal is a run
/// of the machine that leads to the state and leaves the ages. A world is made by `open` alone, and
/// its journal grows by `apply` alone.
#[derive(Drop)]
pub struct World {
    store: Store,
    journal: Journal,
    // The pinned addresses of the journal, which the program keeps nowhere.
    ghost placed: { Placed store journal.entries } by { Placed-prop store journal.entries },
}

impl Model for World {
    ghost use Rattle.hd_model.specs.PinnedAddresses.{with_pinned};
    ghost use Rattle.hd_world.specs.{TrueRuns.IsTrueRun, World.WorldView, World.world_view_code};

    ghost Value = { WorldView };

    ghost coded = { world_view_code };

    ghost view = { λ w. record {
      numbers = w.store.numbers;
      state = with_pinned w.store.state w.placed.0;
      ages = w.store.ages;
      heap = w.store.heap;
      table = w.store.table;
      journal = w.journal.entries;
      spare = w.journal.spare;
    } };

    ghost invariant = { λ w. IsTrueRun w.store w.journal.entries w.placed.0 };
}

impl Held for World {
    ghost use Rattle.std.specs.Prelude.{is_some, ◌||◌};
    ghost use Rattle.std.specs.FinMap.{get};
    ghost use Rattle.hd_model.specs.{State.use_of, Table.kind_word};
    ghost use Rattle.hd_world.specs.StateHeap.{IsOfJournal};

    ghost numbers = { λ w. w.numbers };

    ghost journal = { λ w. w.journal };

    ghost spare = { λ w. w.spare };

    ghost live = { λ w slot.
        is_some (get w.state.handles slot) || is_some (get w.state.weak slot) };

    ghost kind = { λ w block. kind_word (use_of w.state block) };

    ghost sound = { λ w. IsOfJournal w };
}

impl World {
    /// An empty world over a heap of at most `heap` cells and `blocks` blocks, for `callers`
    /// callers, with room in its journal for `lines` entries.
    pub fn open(
        alloc: Global,
        heap: u32,
        blocks: u32,
        callers: u32,
        lines: u32,
    ) -> Result<World, Memory>
        requires heap { (3 ≤ heap) × (heap ≤ HEAP) }
        requires blocks { (1 ≤ blocks) × (blocks ≤ BLOCKS) }
        requires callers { (1 ≤ callers) × (callers ≤ CALLERS) }
        ensures numbers { let n : Numbers =
            record { heap = heap; blocks = blocks; callers = callers } in
            IfOk result (λ w. w.numbers ≡ n) }
        ensures empty { IfOk result (λ w. w.journal ≡ []) }
        ensures state { IfOk result (λ w. w.state ≡ start_of w.numbers) }
        ensures room { IfOk result (λ w. w.spare ≡ lines) }
    {
        let store = Store::open(alloc, heap, blocks, callers)?;
        let journal = Journal::open(alloc, lines)?;
        Ok(World { store, journal })
    }

    /// Does a command of a caller and appends its entry to the journal. To `hnew` a free slot of
    /// its kind may be offered, to a `cadd` for which `needs_slot` is true a free slot of kind
    /// dependent, to `trim` the first slot of a block of its kind whose slots are all free, and to
    /// no other command anything. Out of memory changes nothing.
    #[inline(never)]
    pub fn apply<L: Ledger>(
        &mut self,
        caller: u32,
        cmd: Cmd,
        offer: Option<Slot>,
        steps: &mut Steps<L>,
    ) -> Result<Entry, Memory>
        requires room { 1 ≤ self.old.spare }
        requires caller { caller < self.old.numbers.callers }
        requires valid { IsValid cmd }
        requires offer { IsOffer self.old.state caller cmd offer }
        ensures done { IfOk result (Applied self.old caller cmd offer self.new) }
        // Only commands that may take memory run out of it. A full heap is reported first.
        ensures memory { OnErr result (IsTrue (takes_memory cmd)) }
        ensures fits { OnErr result (FitsHeap self.old.numbers self.old.state cmd) }
        ensures unchanged { OnErr result (self.new ≡ self.old) }
        // A collection takes a step for each visit of a due clump, a search of the weak table one
        // for each entry that it looks at; no other command takes one.
        ensures steps { let s = self.old.state in let ages = self.old.ages in
            IfOk result (λ e. TakesSteps s ages e steps.old steps.new) }
        ensures unstepped { OnErr result (steps.new ≡ steps.old) }
    {
        // Read for the proof alone: the journal's length bounds the serials and the counts.
        let _room = self.journal.spare();
        let entry = self.store.apply(caller, cmd, offer, steps)?;
        self.journal.push(entry);
        Ok(entry)
    }

    /// Does the same where nobody asks for the steps.
    pub fn apply_uncounted(
        &mut self,
        caller: u32,
        cmd: Cmd,
        offer: Option<Slot>,
    ) -> Result<Entry, Memory>
        requires { MayApply self.old caller cmd offer }
        ensures { MatchResult result (Stepped self.old self.new caller cmd offer)
            (λ _. WantsMemory self.old self.new cmd) }
    {
        self.apply_on::<Brand>(caller, cmd, offer, Blank::new(1))
    }

    // The same, with a counter that nothing reads.
    fn apply_on<L: Ledger>(
        &mut self,
        caller: u32,
        cmd: Cmd,
        offer: Option<Slot>,
        blank: Blank,
    ) -> Result<Entry, Memory>
        requires may { MayApply self.old caller cmd offer }
        requires blank { (L.name ≡ blank.name) × (L.parts ≡ blank.parts) × (0 < blank.parts) }
        ensures { MatchResult result (Stepped self.old self.new caller cmd offer)
            (λ _. WantsMemory self.old self.new cmd) }
    {
        // The journal states that it is a run to the world's state.
        let _journal = self.journal();
        let mut steps = Steps::<L>::open(blank);
        match self.apply(caller, cmd, offer, &mut steps) {
            Ok(entry) => {
                // And it states that state and heap are those of the journal.
                let _after = self.journal();
                Ok(entry)
            }
            Err(Memory) => Err(Memory),
        }
    }

    /// The journal. Its world has a state that is read from its heap, and numbers within the limits
    /// of a run.
    pub fn journal(&self) -> &Journal
        ensures entries { result.now.entries ≡ self.now.journal }
        ensures spare { result.now.spare ≡ self.now.spare }
        ensures run { Run self.now.numbers self.now.journal self.now.state }
        ensures sound { IsOfJournal self.now }
        ensures limits { HasRunLimits self.now.numbers }
    {
        // Read for the proof alone: the store is one over its heap.
        let _contents = self.store.contents();
        &self.journal
    }

    /// The store. It has the world's state but for the pinned addresses.
    pub fn store(&self) -> &Store
        ensures numbers { result.now.numbers ≡ self.now.numbers }
        ensures state { with_pinned result.now.state self.now.state.pinned ≡ self.now.state }
        ensures ages { result.now.ages ≡ self.now.ages }
        ensures heap { result.now.heap ≡ self.now.heap }
        ensures table { result.now.table ≡ self.now.table }
    {
        &self.store
    }

    /// For how many more entries the journal has room.
    pub fn spare(&self) -> u32
        ensures value { result ≡ self.now.spare }
        ensures small { length self.now.journal + result < 2 ^ 32 }
    {
        self.journal.spare()
    }

    /// Whether a command needs a slot that the weak table has yet to get: so does a `cadd` that
    /// meets neither `Null` nor `Present` while no slot of the table is idle, and no other command.
    pub fn needs_slot(&self, caller: u32, cmd: Cmd) -> bool
        requires caller { caller < self.now.numbers.callers }
        requires valid { IsValid cmd }
        ensures { result ≡ needs_slot self.now.state caller cmd }
    {
        self.store.needs_slot(caller, cmd)
    }

    /// The kind of the block of a slot, if it has handles. The slot may be any number.
    pub fn kind_of(&self, slot: Slot) -> Option<Kind>
        ensures { result ≡ kind_in_use (use_of self.now.state (block_of slot)) }
    {
        self.store.contents().kind_of(slot)
    }

    /// The number of live handles, without the slots that the weak table holds.
    pub fn live(&self) -> u32
        ensures { result ≡ len self.now.state.handles }
    {
        self.store.contents().live()
    }

    /// The number of objects, reachable or not.
    pub fn objects(&self) -> u32
        ensures { result ≡ len self.now.state.objects }
    {
        self.store.contents().objects()
    }

    /// The handles that hold their targets, by rising slot. It takes memory for them.
    pub fn roots(&self, rt: &(impl Threads + Sync), alloc: Global) -> Result<Vec<RootId>, Memory>
        ensures value { IfOk result (λ roots. roots.items ≡ roots_of self.now.state) }
        ensures few { IfOk result (λ roots. length roots.items < 2 ^ 32) }
    {
        let store = self.store.contents();
        // The read gives a bound of the handles, and so of the roots.
        let _live = store.live();
        let roots = gather(rt, alloc, store.table(), store.blocks())?;
        store.named_roots(alloc, &roots)
    }

    /// The number of collections in the journal.
    pub fn collections(&self) -> u32
        ensures { result ≡ collections_of self.now.journal }
    {
        let mut count = 0;
        for i in 0..self.journal.len() {
            if is_collect(self.journal.entry(i).cmd) {
                count += 1;
            }
        }
        count
    }
}

// Whether a command is a collection.
fn is_collect(cmd: Cmd) -> bool
    ensures { result ≡ is_collect cmd }
{
    matches!(cmd.class(), Class::Collects(_))
}
