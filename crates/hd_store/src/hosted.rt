// What a host alone does to a store, beside the commands, and commands with a read in a row.
// What reads the number of objects before and after does so for the proof alone: the state is then
// one over the heap.
ghost use Rattle.std.specs.Prelude.{◌≡◌, ℕ, ◌+◌, ◌<◌, ◌≤◌, ◌^◌, length, slice_index, Some, IsSome, IfOk, MatchResult, Ok, option_map};
ghost use Rattle.hd_model.specs.declared.command.Cmd.TheVariants as cmd;
ghost use Rattle.hd_model.specs.{Command.load_reply, declared.data.Id.Id};
ghost use Rattle.hd_model.specs.State.{Handle as Held, handle_at, last_serial, register_of, with_register};
ghost use Rattle.hd_store.specs.{Calls.HasReturned, Calls.HasReturnedOf, Offers.RanOut, declared.hosted.Loaded.Loaded};
ghost use Rattle.hd_store.specs.Hosted.{object_report, with_cleared, IsReadBy, MakesObject};

use crate::store::Store;
use crate::{filling, loading};
use hd_commands::Parts;
use hd_model::limits::{FIELDS, REGISTERS};
use hd_model::{Id, Memory, Refusal, Slot};

/// What a load found: the object, or null, and its value, 0 of null.
#[derive(Clone, Copy)]
pub struct Loaded {
    pub id: Option<Id>,
    pub value: u64,
}

/// What an object is: its identity, its value, the number of its fields, its generation, and
/// whether it is registered for finalization.
#[derive(Clone, Copy)]
pub struct ObjectInfo {
    pub id: Id,
    pub value: u64,
    pub fields: u32,
    pub generation: u8,
    pub registered: bool,
}

impl Store {
    /// Gives an object register of a caller what one of a caller references, which is returned.
    #[inline(always)]
    pub fn pass(&mut self, to: u32, d: u8, from: u32, s: u8) -> Option<Id>
        requires callers { (to < self.old.numbers.callers) × (from < self.old.numbers.callers) }
        requires registers { (d < REGISTERS) × (s < REGISTERS) }
        ensures value { result ≡ register_of self.old.state from s }
        ensures passed { let after = with_register self.old.state to d
            (register_of self.old.state from s) in
            self.new ≡ record self.old { state = after } }
    {
        let target = self.contents.register(from, s);
        self.contents.set_register(to, d, target);
        self.contents.named(target)
    }

    /// Clears `n` object registers of a caller, from one on.
    #[inline(always)]
    pub fn clear_registers(&mut self, caller: u32, first: u8, n: u8)
        requires caller { caller < self.old.numbers.callers }
        requires registers { first + n ≤ REGISTERS }
        ensures { let after = with_cleared self.old.state caller first n in
            self.new ≡ record self.old { state = after } }
    {
        self.contents.clear_registers(caller, first, n);
    }

    /// Makes an object as `new rD F` does, with a value and with a field for each of some registers
    /// of the caller, which references what the register did before. A full heap is reported before
    /// memory is taken, and out of memory changes nothing.
    #[inline(always)]
    pub fn make_object(
        &mut self,
        caller: u32,
        d: u8,
        value: u64,
        fin: bool,
        src: &[u32],
    ) -> Result<Result<Id, Refusal>, Memory>
        requires caller { caller < self.old.numbers.callers }
        requires register { d < REGISTERS }
        requires sources { (i : ℕ) → i < length src.now → slice_index src.now i < REGISTERS }
        requires few { length src.now ≤ FIELDS }
        requires serial { last_serial self.old.state caller + 1 < 2 ^ 32 }
        ensures { let m = self.old in let c = cmd.New d (length src.now) fin in
            MatchResult result (MakesObject m caller d value fin src.now self.new)
            (λ _. RanOut m.numbers m.state c m self.new) }
    {
        let _before = self.contents.objects();
        let came = filling::make_filled(&mut self.contents, caller, d, value, fin, src)?;
        let _after = self.contents.objects();
        Ok(came)
    }

    /// `get rD rO i`, with the value of what rD then references.
    #[inline(always)]
    pub fn load_field(&mut self, caller: u32, d: u8, o: u8, i: u8) -> Result<Loaded, Refusal>
        requires caller { caller < self.old.numbers.callers }
        requires registers { (d < REGISTERS) × (o < REGISTERS) }
        ensures got { let reply_of = λ (l : Loaded). load_reply l.id in
            HasReturned self.old caller (cmd.Get d o i) reply_of self.new result }
        ensures reads { IfOk result (IsReadBy self.new caller d) }
    {
        let _before = self.contents.objects();
        let came = loading::load_field(&mut self.contents, caller, d, o, i);
        let _after = self.contents.objects();
        came
    }

    /// What an `hget rD hS` does with the handle in a live slot, with the value of what rD then
    /// references.
    #[inline(always)]
    pub fn load_handle(&mut self, caller: u32, d: u8, slot: Slot) -> Loaded
        requires caller { caller < self.old.numbers.callers }
        requires register { d < REGISTERS }
        requires live { IsSome (handle_at self.old.state slot) }
        ensures found { option_map (λ (h : Held Id). h.target) (handle_at self.old.state slot)
            ≡ Some result.id }
        ensures got { let c = cmd.HGet d 0 in
            HasReturnedOf self.old caller slot c load_reply self.new (Ok result.id) }
        ensures reads { IsReadBy self.new caller d result }
    {
        let _before = self.contents.objects();
        let target = self.contents.live_target(slot);
        let loaded = loading::found(&self.contents, target);
        self.contents.set_register(caller, d, target);
        let _after = self.contents.objects();
        loaded
    }

    /// What an object register references is, or none where it is null.
    #[inline(always)]
    pub fn object_info(&self, caller: u32, o: u8) -> Option<ObjectInfo>
        requires caller { caller < self.now.numbers.callers }
        requires register { o < REGISTERS }
        ensures { result ≡
            option_map (object_report self.now.state) (register_of self.now.state caller o) }
    {
        let at = self.contents.register(caller, o)?;
        Some(self.contents.object_info(at))
    }

    /// The target of the handle in a live slot.
    #[inline(always)]
    pub fn target_of(&self, slot: Slot) -> Option<Id>
        requires { IsSome (handle_at self.now.state slot) }
        ensures { option_map (λ (h : Held Id). h.target) (handle_at self.now.state slot)
            ≡ Some result }
    {
        let target = self.contents.live_target(slot);
        self.contents.named(target)
    }
}
