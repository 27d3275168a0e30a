// The calls on handles.
ghost use Rattle.std.specs.Prelude.{◌≡◌, ◌+◌, ◌<◌, ◌^◌, None, Some, IsSome, true, false, MatchResult};
ghost use Rattle.hd_model.specs.declared.command.Cmd.TheVariants as cmd;
ghost use Rattle.hd_model.specs.declared.data.Reply.TheVariants as reply;
ghost use Rattle.hd_model.specs.{declared.data.Id.Id, Command.load_reply, Valid.IsValidMake};
ghost use Rattle.hd_model.specs.State.{Handle as Held, count_of, handle_at};
ghost use Rattle.hd_host.specs.Calls.{FailsOf, FailsBy, MakesHandle, FreesHandle, TriesOf};
ghost use Rattle.hd_model.specs.Handles.{extra_of};
ghost use Rattle.hd_host.specs.{Handles.handle_of, Inside.Settled, View.IsAsItWas};

use crate::fault::Fault;
use crate::growing::make_room;
use crate::handle::Handle;
use crate::host::Host;
use crate::last::{Last, settle};
use crate::stamps::END;
use hd_model::limits::REGISTERS;
use hd_model::{Grown, Id, Make, Memory, Refusal, Slot, Strength};
use hd_slots::{Change as Slots, note_slot, offer};
use hd_store::ExtraInfo;

impl Host {
    /// Makes a handle whose target is what the local references, or null (GCHandle.Alloc). It gets
    /// the least free slot of its kind, and the table grows only where there is none. That the
    /// table is full is reported before memory is taken.
    #[inline(always)]
    pub fn handle_new(&mut self, context: u32, make: Make, target: u8) -> Result<Handle, Fault>
        requires context { context < self.old.machine.numbers.callers }
        requires make { IsValidMake make }
        requires local { target < REGISTERS }
        ensures does { MatchResult result (MakesHandle self.old context make target self.new)
            (λ fault. FailsBy self.old context None (cmd.HNew 0 make target) fault
            × IsAsItWas self.old self.new) }
        ensures contexts { self.new.machine.numbers.callers ≡ self.old.machine.numbers.callers }
    {
        // A kind without extra data has none to write, and that is known where it is asked first.
        match make {
            Make::Short | Make::Long | Make::Strong | Make::Pinned => {
                self.make_any(context, make, target)
            }
            Make::Variable(_) | Make::Counted | Make::Dependent(_) => {
                self.make_paired(context, make, target)
            }
        }
    }

    // The same, out of line.
    #[inline(never)]
    fn make_paired(&mut self, context: u32, make: Make, target: u8) -> Result<Handle, Fault>
        requires context { context < self.old.machine.numbers.callers }
        requires make { IsValidMake make }
        requires local { target < REGISTERS }
        ensures does { MatchResult result (MakesHandle self.old context make target self.new)
            (λ fault. FailsBy self.old context None (cmd.HNew 0 make target) fault
            × IsAsItWas self.old self.new) }
        ensures contexts { self.new.machine.numbers.callers ≡ self.old.machine.numbers.callers }
    {
        self.make_any(context, make, target)
    }

    // The same, of any kind. Where a slot is offered no block is taken, and the pool has nothing to
    // note.
    #[inline(always)]
    fn make_any(&mut self, context: u32, make: Make, target: u8) -> Result<Handle, Fault>
        requires context { context < self.old.machine.numbers.callers }
        requires make { IsValidMake make }
        requires local { target < REGISTERS }
        ensures does { MatchResult result (MakesHandle self.old context make target self.new)
            (λ fault. FailsBy self.old context None (cmd.HNew 0 make target) fault
            × IsAsItWas self.old self.new) }
        ensures contexts { self.new.machine.numbers.callers ≡ self.old.machine.numbers.callers }
    {
        let change = Slots::Takes(make.kind());
        let Some(free) = offer(&mut self.pool, change) else {
            return self.make_grown(context, make, target);
        };
        match self.store.make_handle(context, make, target, Some(free)) {
            Ok((slot, grown)) => {
                self.stamps.make(slot);
                self.last.set(Some(slot), grown);
                Ok(self.handle_in(slot))
            }
            Err(refusal) => Err(Fault::of(refusal)),
        }
    }

    // The same where no slot of the kind is free, so that the table may have to grow. It is out of
    // line: few calls come here.
    #[inline(never)]
    fn make_grown(&mut self, context: u32, make: Make, target: u8) -> Result<Handle, Fault>
        requires context { context < self.old.machine.numbers.callers }
        requires make { IsValidMake make }
        requires local { target < REGISTERS }
        ensures does { MatchResult result (MakesHandle self.old context make target self.new)
            (λ fault. FailsBy self.old context None (cmd.HNew 0 make target) fault
            × IsAsItWas self.old self.new) }
        ensures contexts { self.new.machine.numbers.callers ≡ self.old.machine.numbers.callers }
    {
        let change = Slots::Takes(make.kind());
        let offered = offer(&mut self.pool, change);
        if let Err(Memory) = make_room(
            &mut self.store,
            &mut self.pool,
            &mut self.stamps,
            self.limit,
            change,
            offered,
        ) {
            return Err(Fault::Memory);
        }
        match self.store.make_handle(context, make, target, offered) {
            Ok((slot, grown)) => {
                note_slot(&mut self.pool, change, Some(slot), grown);
                self.stamps.make(slot);
                self.last.set(Some(slot), grown);
                Ok(self.handle_in(slot))
            }
            Err(refusal) => Err(Fault::of(refusal)),
        }
    }

    /// Frees a handle (GCHandle.Free). It is stale from now on. The handle of a slot that was freed
    /// 2^40 - 1 times before stays, and may be set to null.
    #[inline(always)]
    pub fn handle_free(&mut self, handle: Handle) -> Result<(), Fault>
        ensures does { MatchResult result (λ _. FreesHandle self.old handle self.new)
            (λ fault. FailsOf self.old 0 handle (cmd.HFree 0) fault × IsAsItWas self.old self.new) }
        ensures contexts { self.new.machine.numbers.callers ≡ self.old.machine.numbers.callers }
    {
        // Read for the proof alone: there is a context 0, and each live slot has a stamp.
        let _contexts = self.contexts();
        let Some(slot) = self.live_slot(handle) else {
            return Err(Fault::Stale);
        };
        if handle.stamp() == END {
            return Err(Fault::Exhausted);
        }
        self.store.free_handle(0, slot);
        note_slot(&mut self.pool, Slots::Frees, Some(slot), Grown::Zero);
        self.stamps.free(slot);
        self.last.set(Some(slot), Grown::Zero);
        Ok(())
    }

    /// Local `dst` gets the target, which is null where it was never set or is cleared.
    #[inline(always)]
    pub fn handle_get(&mut self, context: u32, handle: Handle, dst: u8) -> Result<Option<Id>, Fault>
        requires context { context < self.old.machine.numbers.callers }
        requires local { dst < REGISTERS }
        ensures does { TriesOf self.old context handle (cmd.HGet dst 0) load_reply self.new result }
        ensures contexts { self.new.machine.numbers.callers ≡ self.old.machine.numbers.callers }
    {
        let Some(slot) = self.live_slot(handle) else {
            return Err(Fault::Stale);
        };
        let target = self.store.load_target(context, dst, slot);
        self.last.clear();
        Ok(target)
    }

    /// The target becomes what the local references. A dependent handle may get null alone, and
    /// then its secondary is null too.
    #[inline(always)]
    pub fn handle_set(&mut self, context: u32, handle: Handle, src: u8) -> Result<(), Fault>
        requires context { context < self.old.machine.numbers.callers }
        requires local { src < REGISTERS }
        ensures does { TriesOf self.old context handle (cmd.HSet 0 src) (λ _. reply.Done) self.new
            result }
        ensures contexts { self.new.machine.numbers.callers ≡ self.old.machine.numbers.callers }
    {
        let Some(slot) = self.live_slot(handle) else {
            return Err(Fault::Stale);
        };
        let came = self.store.set_target(context, slot, src);
        settle(&mut self.last, came)
    }

    /// Local `dst` gets the secondary of a dependent handle.
    pub fn secondary_get(
        &mut self,
        context: u32,
        handle: Handle,
        dst: u8,
    ) -> Result<Option<Id>, Fault>
        requires context { context < self.old.machine.numbers.callers }
        requires local { dst < REGISTERS }
        ensures does { TriesOf self.old context handle (cmd.HDep dst 0) load_reply self.new result }
        ensures contexts { self.new.machine.numbers.callers ≡ self.old.machine.numbers.callers }
    {
        let Some(slot) = self.live_slot(handle) else {
            return Err(Fault::Stale);
        };
        let came = self.store.get_secondary(context, dst, slot);
        settle(&mut self.last, came)
    }

    /// The secondary of a dependent handle, whose target is not null, becomes what the local
    /// references.
    pub fn secondary_set(&mut self, context: u32, handle: Handle, src: u8) -> Result<(), Fault>
        requires context { context < self.old.machine.numbers.callers }
        requires local { src < REGISTERS }
        ensures does { TriesOf self.old context handle (cmd.HSec 0 src) (λ _. reply.Done) self.new
            result }
        ensures contexts { self.new.machine.numbers.callers ≡ self.old.machine.numbers.callers }
    {
        let Some(slot) = self.live_slot(handle) else {
            return Err(Fault::Stale);
        };
        let came = self.store.set_secondary(context, slot, src);
        settle(&mut self.last, came)
    }

    /// A variable handle gets the strength.
    pub fn strength_set(&mut self, handle: Handle, strength: Strength) -> Result<(), Fault>
        ensures does { TriesOf self.old 0 handle (cmd.HVar 0 strength) (λ _. reply.Done) self.new
            result }
        ensures contexts { self.new.machine.numbers.callers ≡ self.old.machine.numbers.callers }
    {
        // Read for the proof alone: there is a context 0.
        let _contexts = self.contexts();
        let Some(slot) = self.live_slot(handle) else {
            return Err(Fault::Stale);
        };
        let came = self.store.set_strength(0, slot, strength);
        settle(&mut self.last, came)
    }

    /// The count of a ref-counted handle rises by one, and is returned.
    pub fn count_up(&mut self, handle: Handle) -> Result<u64, Fault>
        ensures does { TriesOf self.old 0 handle (cmd.HUp 0) reply.Value self.new result }
        ensures contexts { self.new.machine.numbers.callers ≡ self.old.machine.numbers.callers }
    {
        // Read for the proof alone: there is a context 0, and each live slot has a stamp.
        let _contexts = self.contexts();
        let _last = &self.last;
        let Some(slot) = self.live_slot(handle) else {
            return Err(Fault::Stale);
        };
        if self.is_at_end(slot) {
            return Err(Fault::Exhausted);
        }
        let came = self.store.raise_count(0, slot);
        settle_count(&mut self.last, came)
    }

    /// The count of a ref-counted handle falls by one, and is returned.
    pub fn count_down(&mut self, handle: Handle) -> Result<u64, Fault>
        ensures does { TriesOf self.old 0 handle (cmd.HDown 0) reply.Value self.new result }
        ensures contexts { self.new.machine.numbers.callers ≡ self.old.machine.numbers.callers }
    {
        // Read for the proof alone: there is a context 0.
        let _contexts = self.contexts();
        let Some(slot) = self.live_slot(handle) else {
            return Err(Fault::Stale);
        };
        let came = self.store.lower_count(0, slot);
        settle_count(&mut self.last, came)
    }

    /// The address of what a handle pins, which stays while a handle pins the object
    /// (GCHandle.AddrOfPinnedObject).
    pub fn address(&mut self, handle: Handle) -> Result<u32, Fault>
        ensures does { TriesOf self.old 0 handle (cmd.AddrOf 0) reply.Place self.new result }
        ensures contexts { self.new.machine.numbers.callers ≡ self.old.machine.numbers.callers }
    {
        // Read for the proof alone: there is a context 0.
        let _contexts = self.contexts();
        let Some(slot) = self.live_slot(handle) else {
            return Err(Fault::Stale);
        };
        let came = self.store.reply_address(0, slot);
        settle(&mut self.last, came)
    }

    // The handle in a live slot.
    #[inline(always)]
    pub(crate) fn handle_in(&self, slot: Slot) -> Handle
        requires { IsSome (handle_at self.now.machine.state slot) }
        ensures { result ≡ handle_of self.now slot }
    {
        self.stamps.at(slot)
    }

    // Whether the count of the handle in a slot is at its end.
    fn is_at_end(&self, slot: Slot) -> bool
        ensures at_end { result ≡ true → (held : Held Id)
            × (handle_at self.now.machine.state slot ≡ Some held)
            × (count_of held.extra + 1 ≡ 2 ^ 32) }
        ensures below { result ≡ false → (held : Held Id)
            → handle_at self.now.machine.state slot ≡ Some held → count_of held.extra + 1 < 2 ^ 32 }
    {
        match self.store.handle(slot) {
            Some(info) => is_last(count_of(info.extra)),
            None => false,
        }
    }
}

// What a call returns that returns a count.
#[inline(always)]
fn settle_count(last: &mut Last, came: Result<u32, Refusal>) -> Result<u64, Fault>
    ensures { Settled last.old came last.new result }
{
    match settle(last, came) {
        Ok(count) => Ok(u64::from(count)),
        Err(fault) => Err(fault),
    }
}

// The count of a ref-counted handle, and 0 of any other.
fn count_of(extra: ExtraInfo<Id>) -> u32
    ensures { result ≡ count_of (extra_of extra) }
{
    match extra {
        ExtraInfo::Count(count) => count,
        ExtraInfo::Nothing | ExtraInfo::Strength(_) | ExtraInfo::Secondary(_) => 0,
    }
}

/// Whether a count, or a serial, is at its end.
#[inline(always)]
pub(crate) fn is_last(count: u32) -> bool
    ensures last { result ≡ true → count + 1 ≡ 2 ^ 32 }
    ensures below { result ≡ false → count + 1 < 2 ^ 32 }
{
    count == u32::MAX
}
