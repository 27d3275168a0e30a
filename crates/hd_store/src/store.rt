ghost use Rattle.std.specs.Prelude.{◌≡◌, ◌*◌, ◌<◌, ◌≤◌, ◌⊎◌, length, replicate, slice_index_or, true, IfOk, IsSome, None, OnErr, Some, option_map};
ghost use Rattle.std.specs.FinMap.{get};
ghost use Rattle.hd_model.specs.declared.command.Cmd.TheVariants as cmd;
ghost use Rattle.hd_model.specs.Handles.{handle_of};
ghost use Rattle.hd_model.specs.State.{Handle as Held, Numbers, start_of, handle_at, register_of, handle_register_of, static_of, board_of, with_register};
ghost use Rattle.hd_model.specs.{Valid.IsValid, Valid.takes_memory};
ghost use Rattle.hd_model.specs.declared.data.{Id.Id};
ghost use Rattle.hd_store.specs.{Visited.TakesStepsIn, Store.IsOverHeap};
ghost use Rattle.hd_store.specs.Calls.{HasCalled, IsSound, StaysWithin, load_entry, pointed};
ghost use Rattle.hd_store.specs.Offers.{IsOffer, TakesTable, needs_slot, FitsHeap};

use crate::contents::Contents;
use crate::{commands, on_entries};
use hd_commands::{Parts, entry_of};
use hd_model::limits::{CLUMPS, HOST_BLOCKS, HOST_CONTEXTS, HOST_HEAP, OLDEST, REGISTERS};
use hd_model::{Cmd, Entry, Handle, Id, Memory, Slot, Steps};
use std::alloc::Global;
use std::marker::{Brand, Model};
use std::sync::ledger::{Blank, Ledger};

/// A store of objects and handles, seen as its numbers, the state of the machine without pinned
/// addresses, the identity at each address that has an object, the ages of its clumps, its heap and
/// its table. Its state is well formed.
#[derive(Drop)]
pub struct Store {
    pub(crate) contents: Contents,
}

impl Model for Store {
    ghost use Rattle.hd_store.specs.Store.{Machine, machine_code};
    ghost use Rattle.hd_store.specs.Calls.{IsSound};

    ghost Value = { Machine };

    ghost coded = { machine_code };

    ghost view = { λ s. s.contents };

    ghost invariant = { λ s. IsSound s.contents };
}

impl Store {
    /// The store in which nothing is made yet, over a heap of at most `heap` cells and `blocks`
    /// blocks, for `callers` callers.
    pub fn open(alloc: Global, heap: u32, blocks: u32, callers: u32) -> Result<Store, Memory>
        requires heap { (3 ≤ heap) × (heap ≤ HOST_HEAP) }
        requires blocks { (1 ≤ blocks) × (blocks ≤ HOST_BLOCKS) }
        requires callers { (1 ≤ callers) × (callers ≤ HOST_CONTEXTS) }
        ensures numbers { let n : Numbers =
            record { heap = heap; blocks = blocks; callers = callers } in
            IfOk result (λ s. s.numbers ≡ n) }
        ensures state { IfOk result (λ s. s.state ≡ start_of s.numbers) }
        ensures ages { IfOk result (λ s. s.ages ≡ replicate (CLUMPS * blocks) OLDEST) }
    {
        let contents = Contents::open(alloc, heap, blocks, callers)?;
        Ok(Store { contents })
    }

    /// Does a command of a caller. To `hnew` a free slot of its kind may be offered, to a `cadd`
    /// for which `needs_slot` is true a free slot of kind dependent, to `trim` the first slot of a
    /// block of its kind whose slots are all free, and to no other command anything. A `new` asks
    /// that its caller's last serial can rise by one, and an `hup` that the count can. Out of
    /// memory changes nothing.
    pub fn apply<L: Ledger>(
        &mut self,
        caller: u32,
        cmd: Cmd,
        offer: Option<Slot>,
        steps: &mut Steps<L>,
    ) -> Result<Entry, Memory>
        requires caller { caller < self.old.numbers.callers }
        requires valid { IsValid cmd }
        requires offer { IsOffer self.old.state caller cmd offer }
        requires within { StaysWithin self.old.state caller cmd }
        ensures done { IfOk result (HasCalled self.old caller cmd offer self.new) }
        // Only commands that may take memory run out of it, and in a store of more blocks than a
        // script's the first entry of the weak table. A full heap is reported first.
        ensures memory { let m = self.old in OnErr result ((takes_memory cmd ≡ true)
            ⊎ TakesTable m.numbers m.state caller cmd offer) }
        ensures fits { OnErr result (FitsHeap self.old.numbers self.old.state cmd) }
        ensures unchanged { OnErr result (self.new ≡ self.old) }
        // A collection takes a step for each visit of a due clump, a search of the weak table one
        // for each entry that it looks at; no other command takes one.
        ensures steps { let s = self.old.state in let ages = self.old.ages in
            IfOk result (λ e. TakesStepsIn self.old.numbers s ages e steps.old steps.new) }
        ensures unstepped { OnErr result (steps.new ≡ steps.old) }
    {
        // Read for the proof alone: the state is one over the heap.
        let _before = self.contents.objects();
        let came = commands::carry_out(&mut self.contents, caller, cmd, offer, steps)?;
        let _after = self.contents.objects();
        Ok(entry_of(caller, cmd, came))
    }

    /// Gives an object register the target of the handle in a live slot, and returns it: what an
    /// `hget` does by a handle register that has the slot.
    #[inline(always)]
    pub fn load_target(&mut self, caller: u32, d: u8, slot: Slot) -> Option<Id>
        requires caller { caller < self.old.numbers.callers }
        requires register { d < REGISTERS }
        requires live { IsSome (handle_at self.old.state slot) }
        ensures found { option_map (λ (h : Held Id). h.target) (handle_at self.old.state slot)
            ≡ Some result }
        ensures loads { let after = with_register self.old.state caller d result in
            self.new ≡ record self.old { state = after } }
        ensures called { let named = Some slot in
            HasCalled (pointed self.old caller named) caller (cmd.HGet d 0) None
            (pointed self.new caller named) (load_entry caller d result) }
    {
        // Read for the proof alone: the state is one over the heap.
        let _before = self.contents.objects();
        let target = self.contents.live_target(slot);
        let id = self.contents.named(target);
        self.contents.set_register(caller, d, target);
        let _after = self.contents.objects();
        id
    }

    /// Whether a command needs a slot that the weak table has yet to get: so does a `cadd` that
    /// meets neither `Null` nor `Present` while no slot of the table is idle, and no other command.
    #[inline(always)]
    pub fn needs_slot(&self, caller: u32, cmd: Cmd) -> bool
        requires caller { caller < self.now.numbers.callers }
        requires valid { IsValid cmd }
        ensures { result ≡ needs_slot self.now.state caller cmd }
    {
        self.needs_slot_on::<Brand>(caller, cmd, Blank::new(1))
    }

    // The same, with a counter that nothing reads.
    #[inline(always)]
    fn needs_slot_on<L: Ledger>(&self, caller: u32, cmd: Cmd, blank: Blank) -> bool
        requires caller { caller < self.now.numbers.callers }
        requires valid { IsValid cmd }
        requires blank { (L.name ≡ blank.name) × (L.parts ≡ blank.parts) × (0 < blank.parts) }
        ensures { result ≡ needs_slot self.now.state caller cmd }
    {
        let mut steps = Steps::<L>::open(blank);
        on_entries::needs_slot(&self.contents, caller, cmd, &mut steps)
    }

    /// What it has. The state is that of the heap and the table, it is well formed, and the numbers
    /// are within the limits.
    pub fn contents(&self) -> &Contents
        ensures value { result.now ≡ self.now }
        ensures heap { IsOverHeap self.now }
        ensures sound { IsSound self.now }
    {
        // Read for the proof alone: the state is one over the heap.
        let _objects = self.contents.objects();
        &self.contents
    }

    /// The handle in a slot, if the slot is live. The slot may be any number.
    pub fn handle(&self, slot: Slot) -> Option<Handle<Id>>
        ensures { handle_at self.now.state slot ≡ option_map handle_of result }
    {
        let handle = self.contents.handle(slot)?;
        Some(self.contents.info(handle))
    }

    /// What an object register references.
    pub fn register(&self, caller: u32, d: u8) -> Option<Id>
        requires caller { caller < self.now.numbers.callers }
        requires register { d < REGISTERS }
        ensures { result ≡ register_of self.now.state caller d }
    {
        let at = self.contents.register(caller, d)?;
        Some(self.contents.id(at))
    }

    /// The slot in a handle register.
    pub fn handle_register(&self, caller: u32, h: u8) -> Option<Slot>
        requires caller { caller < self.now.numbers.callers }
        requires register { h < REGISTERS }
        ensures { result ≡ handle_register_of self.now.state caller h }
    {
        self.contents.handle_register(caller, h)
    }

    /// What a static references.
    pub fn static_at(&self, k: u8) -> Option<Id>
        requires { k < REGISTERS }
        ensures { result ≡ static_of self.now.state k }
    {
        let at = self.contents.static_at(k)?;
        Some(self.contents.id(at))
    }

    /// The slot in an entry of the board.
    pub fn board_at(&self, k: u8) -> Option<Slot>
        requires { k < REGISTERS }
        ensures { result ≡ board_of self.now.state k }
    {
        self.contents.board_at(k)
    }

    /// The number of callers.
    pub fn callers(&self) -> u32
        ensures { result ≡ self.now.numbers.callers }
    {
        self.contents.callers()
    }

    /// The object at position `i` of the finalization queue, from 0.
    pub fn queued_at(&self, i: u32) -> Id
        requires { i < length self.now.state.queue }
        ensures { (d : Id) → result ≡ slice_index_or self.now.state.queue i d }
    {
        self.contents.id(self.contents.queued_at(i))
    }
}
