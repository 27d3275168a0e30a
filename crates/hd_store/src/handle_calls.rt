// The commands on handles, each as a call by value that takes the slot of a live handle.
// What reads the number of objects before and after does so for the proof alone: the state is then
// one over the heap.
ghost use Rattle.std.specs.Prelude.{◌≡◌, ◌+◌, ◌<◌, ◌^◌, Ok, None, Some, IsSome, IfSome};
ghost use Rattle.hd_model.specs.declared.command.Cmd.TheVariants as cmd;
ghost use Rattle.hd_model.specs.declared.data.Reply.TheVariants as reply;
ghost use Rattle.hd_model.specs.declared.data.Id.{Id};
ghost use Rattle.hd_model.specs.{Command.load_reply, Kinds.kind_of, Valid.IsValidMake};
ghost use Rattle.hd_model.specs.State.{Handle as Held, IsFree, count_of, handle_at};
ghost use Rattle.hd_commands.specs.Done.{done_freeing, done_making, done_of, entry_by};
ghost use Rattle.hd_store.specs.Calls.{HasCalled, HasReturnedOf, KeepsFirst, pointed, pointed_made};

use crate::store::Store;
use crate::{making, pinned_addresses};
use hd_commands::{Parts, on_handles};
use hd_model::limits::REGISTERS;
use hd_model::{Grown, Id, Make, Refusal, Slot, Strength};

impl Store {
    /// What an `hnew hD KIND rT ..` does, but for the handle register: returns the slot of the
    /// handle and the blocks by which the table grew. An offered slot, which is free, is taken.
    #[inline(always)]
    pub fn make_handle(
        &mut self,
        caller: u32,
        make: Make,
        t: u8,
        offer: Option<Slot>,
    ) -> Result<(Slot, Grown), Refusal>
        requires caller { caller < self.old.numbers.callers }
        requires make { IsValidMake make }
        requires register { t < REGISTERS }
        requires offer { IfSome offer (IsFree self.old.state (kind_of make)) }
        ensures { let c = cmd.HNew 0 make t in
            let e = entry_by caller c (done_of (done_making result)) in
            HasCalled self.old caller c offer (pointed_made self.new caller 0 result) e
            × KeepsFirst self.old caller self.new }
    {
        let _before = self.contents.objects();
        let came = making::make_handle(&mut self.contents, caller, make, t, offer);
        let _after = self.contents.objects();
        came
    }

    /// What an `hfree hS` does with the handle in a live slot, which is freed.
    #[inline(always)]
    pub fn free_handle(&mut self, caller: u32, slot: Slot)
        requires caller { caller < self.old.numbers.callers }
        requires live { IsSome (handle_at self.old.state slot) }
        ensures { let c = cmd.HFree 0 in
            let e = entry_by caller c (done_of (done_freeing (Ok slot))) in
            HasCalled (pointed self.old caller (Some slot)) caller c None
            (pointed self.new caller None) e × KeepsFirst self.old caller self.new }
    {
        let _before = self.contents.objects();
        self.contents.take_handle(slot);
        let _after = self.contents.objects();
    }

    /// What an `hset hS rT` does with the handle in a live slot.
    #[inline(always)]
    pub fn set_target(&mut self, caller: u32, slot: Slot, t: u8) -> Result<(), Refusal>
        requires caller { caller < self.old.numbers.callers }
        requires register { t < REGISTERS }
        requires live { IsSome (handle_at self.old.state slot) }
        ensures { let c = cmd.HSet 0 t in
            HasReturnedOf self.old caller slot c (λ _. reply.Done) self.new result }
    {
        let _before = self.contents.objects();
        let handle = self.contents.live_handle(slot);
        let came = on_handles::set_target_of(&mut self.contents, caller, slot, handle, t);
        let _after = self.contents.objects();
        came
    }

    /// What an `hsec hS rS` does with the handle in a live slot.
    #[inline(always)]
    pub fn set_secondary(&mut self, caller: u32, slot: Slot, s: u8) -> Result<(), Refusal>
        requires caller { caller < self.old.numbers.callers }
        requires register { s < REGISTERS }
        requires live { IsSome (handle_at self.old.state slot) }
        ensures { let c = cmd.HSec 0 s in
            HasReturnedOf self.old caller slot c (λ _. reply.Done) self.new result }
    {
        let _before = self.contents.objects();
        let handle = self.contents.live_handle(slot);
        let came = on_handles::set_secondary_of(&mut self.contents, caller, slot, handle, s);
        let _after = self.contents.objects();
        came
    }

    /// What an `hdep rD hS` does with the handle in a live slot: its secondary is returned.
    #[inline(always)]
    pub fn get_secondary(&mut self, caller: u32, d: u8, slot: Slot) -> Result<Option<Id>, Refusal>
        requires caller { caller < self.old.numbers.callers }
        requires register { d < REGISTERS }
        requires live { IsSome (handle_at self.old.state slot) }
        ensures { HasReturnedOf self.old caller slot (cmd.HDep d 0) load_reply self.new result }
    {
        let _before = self.contents.objects();
        let handle = self.contents.live_handle(slot);
        let came = on_handles::get_secondary_of(&mut self.contents, caller, d, handle);
        let _after = self.contents.objects();
        came
    }

    /// What an `hvar hS STRENGTH` does with the handle in a live slot.
    #[inline(always)]
    pub fn set_strength(&mut self, caller: u32, slot: Slot, to: Strength) -> Result<(), Refusal>
        requires caller { caller < self.old.numbers.callers }
        requires live { IsSome (handle_at self.old.state slot) }
        ensures { let c = cmd.HVar 0 to in
            HasReturnedOf self.old caller slot c (λ _. reply.Done) self.new result }
    {
        let _before = self.contents.objects();
        let handle = self.contents.live_handle(slot);
        let came = on_handles::set_strength_of(&mut self.contents, slot, handle, to);
        let _after = self.contents.objects();
        came
    }

    /// What an `hup hS` does with the handle in a live slot: the count is returned.
    #[inline(always)]
    pub fn raise_count(&mut self, caller: u32, slot: Slot) -> Result<u32, Refusal>
        requires caller { caller < self.old.numbers.callers }
        requires small { (h : Held Id) → handle_at self.old.state slot ≡ Some h
            → count_of h.extra + 1 < 2 ^ 32 }
        requires live { IsSome (handle_at self.old.state slot) }
        ensures { HasReturnedOf self.old caller slot (cmd.HUp 0) reply.Value self.new result }
    {
        let _before = self.contents.objects();
        let handle = self.contents.live_handle(slot);
        let came = on_handles::raise_count_of(&mut self.contents, slot, handle);
        let _after = self.contents.objects();
        came
    }

    /// What an `hdown hS` does with the handle in a live slot: the count is returned.
    #[inline(always)]
    pub fn lower_count(&mut self, caller: u32, slot: Slot) -> Result<u32, Refusal>
        requires caller { caller < self.old.numbers.callers }
        requires live { IsSome (handle_at self.old.state slot) }
        ensures { HasReturnedOf self.old caller slot (cmd.HDown 0) reply.Value self.new result }
    {
        let _before = self.contents.objects();
        let handle = self.contents.live_handle(slot);
        let came = on_handles::lower_count_of(&mut self.contents, slot, handle);
        let _after = self.contents.objects();
        came
    }

    /// What an `addr hS` does with the handle in a live slot: the address of what it pins.
    #[inline(always)]
    pub fn reply_address(&self, caller: u32, slot: Slot) -> Result<u32, Refusal>
        requires caller { caller < self.now.numbers.callers }
        requires live { IsSome (handle_at self.now.state slot) }
        ensures { HasReturnedOf self.now caller slot (cmd.AddrOf 0) reply.Place self.now result }
    {
        let _before = self.contents.objects();
        let handle = self.contents.live_handle(slot);
        pinned_addresses::address_by(&self.contents, handle)
    }
}
