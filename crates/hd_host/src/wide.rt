// Calls that are more than one command of the machine, or are none: loads with the value of what
// they find, an object that is made with its value and its fields, a reference that is passed
// between contexts, and what a host shows of one object, handle or context.
ghost use Rattle.std.specs.Prelude.{◌≡◌, ℕ, ◌+◌, ◌<◌, ◌≤◌, ◌^◌, [], length, map, slice_index, slice_index_or, None, Some, IfOk, MatchResult, option_map};
ghost use Rattle.hd_model.specs.declared.command.Cmd.TheVariants as cmd;
ghost use Rattle.hd_model.specs.declared.data.Slot.{Slot};
ghost use Rattle.hd_model.specs.{declared.data.Id.Id, Command.load_reply};
ghost use Rattle.hd_model.specs.State.{Handle as Held, handle_at, last_serial, register_of, with_register};
ghost use Rattle.hd_store.specs.Hosted.{object_report, with_cleared};
ghost use Rattle.hd_store.specs.declared.hosted.Loaded.{Loaded};
ghost use Rattle.hd_host.specs.declared.fault.Fault.TheVariants.{Stale};
ghost use Rattle.hd_host.specs.{Calls.FailsBy, Calls.Tries, Calls.TriesOf, Handles.IsOf, Handles.IsStale, View.IsAsItWas};
ghost use Rattle.hd_host.specs.Wide.{id_number, with_state, MakesObject, ReadsLoaded, TriesToSet};

use crate::fault::Fault;
use crate::handle::Handle;
use crate::host::Host;
use crate::last::settle;
use hd_model::limits::{FIELDS, REGISTERS};
use hd_model::{Id, Memory};
use hd_store::{Loaded, ObjectInfo};

// The number of fields of an object whose fields these are.
fn count_of(src: &[u32]) -> u8
    requires { length src.now ≤ FIELDS }
    ensures { result ≡ length src.now }
{
    src.len() as u8
}

// The number of an identity, 0 for null.
fn id_number(id: Option<Id>) -> u64
    ensures { result ≡ id_number id }
{
    match id {
        Some(id) => id.0,
        None => 0,
    }
}

impl Host {
    /// Local `dst` gets what field `i` of the object references, which is returned with its value,
    /// 0 of null.
    #[inline(always)]
    pub fn field_load(&mut self, context: u32, dst: u8, object: u8, i: u8) -> Result<Loaded, Fault>
        requires context { context < self.old.machine.numbers.callers }
        requires locals { (dst < REGISTERS) × (object < REGISTERS) }
        ensures does { let reply_of = λ (l : Loaded). load_reply l.id in
            Tries self.old context (cmd.Get dst object i) reply_of self.new result }
        ensures reads { IfOk result (ReadsLoaded context dst self.new) }
        ensures contexts { self.new.machine.numbers.callers ≡ self.old.machine.numbers.callers }
    {
        let came = self.store.load_field(context, dst, object, i);
        settle(&mut self.last, came)
    }

    /// Local `dst` gets the target of a handle, which is returned with its value, 0 of null.
    #[inline(always)]
    pub fn handle_load(&mut self, context: u32, handle: Handle, dst: u8) -> Result<Loaded, Fault>
        requires context { context < self.old.machine.numbers.callers }
        requires local { dst < REGISTERS }
        ensures does { let reply_of = λ (l : Loaded). load_reply l.id in
            TriesOf self.old context handle (cmd.HGet dst 0) reply_of self.new result }
        ensures reads { IfOk result (ReadsLoaded context dst self.new) }
        ensures contexts { self.new.machine.numbers.callers ≡ self.old.machine.numbers.callers }
    {
        let Some(slot) = self.live_slot(handle) else {
            return Err(Fault::Stale);
        };
        let loaded = self.store.load_handle(context, dst, slot);
        self.last.clear();
        Ok(loaded)
    }

    /// Makes an object as `object_new` does, with a value and with a field for each of some locals,
    /// which references what the local did before the call; `dst` may be among them. It is refused
    /// as `object_new` is, and then nothing is made.
    #[inline(always)]
    pub fn object_make(
        &mut self,
        context: u32,
        dst: u8,
        value: u64,
        fin: bool,
        src: &[u32],
    ) -> Result<Id, Fault>
        requires context { context < self.old.machine.numbers.callers }
        requires local { dst < REGISTERS }
        requires sources { (i : ℕ) → i < length src.now → slice_index src.now i < REGISTERS }
        requires few { length src.now ≤ FIELDS }
        ensures does { let c = cmd.New dst (length src.now) fin in
            MatchResult result (MakesObject self.old context dst value fin src.now self.new)
            (λ fault. FailsBy self.old context None c fault × IsAsItWas self.old self.new) }
        ensures contexts { self.new.machine.numbers.callers ≡ self.old.machine.numbers.callers }
    {
        if self.has_made_all(context) {
            return Err(self.no_serial_left(context, count_of(src)));
        }
        match self.store.make_object(context, dst, value, fin, src) {
            Ok(came) => {
                // Read for the proof alone: the store is sound.
                let _sound = self.store.contents();
                settle(&mut self.last, came)
            }
            Err(Memory) => Err(Fault::Memory),
        }
    }

    /// The entry of a key gets a value: an entry that the key has is taken out, and then one is
    /// added (ConditionalWeakTable.AddOrUpdate), so it is in the least idle slot. Returns whether
    /// one was replaced.
    pub fn table_set(&mut self, context: u32, key: u8, value: u8) -> Result<bool, Fault>
        requires context { context < self.old.machine.numbers.callers }
        requires locals { (key < REGISTERS) × (value < REGISTERS) }
        ensures does { TriesToSet self.old context key value self.new result }
        ensures contexts { self.new.machine.numbers.callers ≡ self.old.machine.numbers.callers }
    {
        let last = self.last.get();
        match self.store.remove_entry(context, key) {
            Ok(replaced) => {
                self.last.clear();
                match self.table_add(context, key, value) {
                    Ok(()) => Ok(replaced),
                    Err(fault) => {
                        self.last.put(last);
                        Err(fault)
                    }
                }
            }
            Err(refusal) => Err(Fault::of(refusal)),
        }
    }

    /// Local `dst` of one context gets what local `src` of another references, which is returned.
    #[inline(always)]
    pub fn local_pass(&mut self, to: u32, dst: u8, from: u32, src: u8) -> Option<Id>
        requires contexts { let n = self.old.machine.numbers in
            (to < n.callers) × (from < n.callers) }
        requires locals { (dst < REGISTERS) × (src < REGISTERS) }
        ensures value { result ≡ register_of self.old.machine.state from src }
        ensures does { let s = self.old.machine.state in
            self.new ≡ with_state self.old (with_register s to dst (register_of s from src)) }
    {
        let id = self.store.pass(to, dst, from, src);
        // Read for the proof alone: the store is sound.
        let _sound = self.store.contents();
        self.last.clear();
        id
    }

    /// `n` locals of a context become null, from one on.
    #[inline(always)]
    pub fn locals_clear(&mut self, context: u32, first: u8, n: u8)
        requires context { context < self.old.machine.numbers.callers }
        requires locals { first + n ≤ REGISTERS }
        ensures { self.new ≡
            with_state self.old (with_cleared self.old.machine.state context first n) }
    {
        self.store.clear_registers(context, first, n);
        // Read for the proof alone: the store is sound.
        let _sound = self.store.contents();
        self.last.clear();
    }

    /// What each local of a context references, by the number of its identity, 0 for null.
    pub fn locals(&self, context: u32, out: &mut [u64])
        requires context { context < self.now.machine.numbers.callers }
        requires room { length out.old ≡ REGISTERS }
        ensures { let s = self.now.machine.state in
            out.new ≡ map id_number (slice_index_or s.registers context []) }
    {
        for i in 0..REGISTERS {
            out[i as usize] = id_number(self.store.register(context, i as u8));
        }
    }

    /// What a local references is, or none where it is null.
    pub fn object_info(&self, context: u32, object: u8) -> Option<ObjectInfo>
        requires context { context < self.now.machine.numbers.callers }
        requires local { object < REGISTERS }
        ensures { let s = self.now.machine.state in
            result ≡ option_map (object_report s) (register_of s context object) }
    {
        self.store.object_info(context, object)
    }

    /// What a handle's target is, or null. It needs no local, and keeps nothing.
    #[inline(always)]
    pub fn handle_id(&self, handle: Handle) -> Result<Option<Id>, Fault>
        ensures { MatchResult result
            (λ id. (slot : Slot) × IsOf self.now handle slot
            × (option_map (λ (h : Held Id). h.target) (handle_at self.now.machine.state slot)
            ≡ Some id))
            (λ fault. (fault ≡ Stale) × IsStale self.now handle) }
    {
        let Some(slot) = self.live_slot(handle) else {
            return Err(Fault::Stale);
        };
        Ok(self.store.target_of(slot))
    }

    /// How many objects a context may make still, of its 2^32 - 1.
    pub fn context_left(&self, context: u32) -> u32
        requires { context < self.now.machine.numbers.callers }
        ensures { last_serial self.now.machine.state context + (result + 1) ≡ 2 ^ 32 }
    {
        u32::MAX - self.store.contents().last_serial(context)
    }
}
