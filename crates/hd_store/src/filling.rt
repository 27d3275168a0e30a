// What a store does with an object that is made with its value and its fields, and with registers
// that are cleared.
ghost use Rattle.std.specs.Prelude.{◌≡◌, ℕ, ◌+◌, ◌<◌, ◌≤◌, ◌^◌, length, map, slice_index, None, IsSome, IfOk, IfErr, MatchOption, OnErr};
ghost use Rattle.std.specs.FinMap.{get};
ghost use Rattle.hd_model.specs.State.{identity_of, last_serial, register_of, total_size, with_object};
ghost use Rattle.hd_store.specs.{Objects.object_named, Reading.name_in, Inside.IsObjectRefused};
ghost use Rattle.hd_store.specs.Hosted.{identity_next, nulled, object_report, with_cleared, Fills, HasAdded};

use crate::contents::{Contents, INDEXES};
use crate::hosted::ObjectInfo;
use crate::objects::identity;
use hd_commands::Parts;
use hd_heap::NewFault;
use hd_model::limits::{FIELDS, REGISTERS};
use hd_model::{Addr, Id, Memory, Refusal};

// The number of fields of an object whose fields these are.
fn count_of(src: &[u32]) -> u8
    requires { length src.now ≤ FIELDS }
    ensures { result ≡ length src.now }
{
    src.len() as u8
}

// Clears `n` roots, from one on.
fn clear_roots(roots: &mut [Option<Addr>], at: usize, n: usize)
    requires { at + n ≤ length roots.old }
    ensures { roots.new ≡ nulled at n roots.old }
{
    for i in 0..n {
        roots[at + i] = None;
    }
}

impl Contents {
    /// What an object is.
    pub(crate) fn object_info(&self, at: Addr) -> ObjectInfo
        requires { IsSome (get self.now.names at.0) }
        ensures { result ≡ object_report self.now.state (name_in self.now.names at) }
    {
        ObjectInfo {
            id: self.heap.id(at),
            value: self.heap.value(at),
            fields: self.heap.fields(at),
            generation: self.heap.generation(at),
            registered: self.heap.registered(at),
        }
    }

    /// Clears `n` registers of a caller, from one on.
    pub(crate) fn clear_registers(&mut self, caller: u32, first: u8, n: u8)
        requires caller { caller < self.old.numbers.callers }
        requires registers { first + n ≤ REGISTERS }
        ensures { let after = with_cleared self.old.state caller first n in
            self.new ≡ record self.old { state = after } }
    {
        let at = INDEXES * caller as usize + first as usize;
        clear_roots(&mut self.roots, at, n as usize);
    }

    // Writes the value of an object.
    fn write_value(&mut self, at: Addr, value: u64)
        requires { IsSome (get self.old.names at.0) }
        ensures { let object = record (object_named self.old at) { value = value } in
            let state = with_object self.old.state (name_in self.old.names at) object in
            self.new ≡ record self.old { state = state; heap = self.new.heap } }
    {
        self.heap.set_value(at, value);
    }

    // Writes the value of an object and its fields, which get what registers of a caller reference.
    fn fill_object(&mut self, at: Addr, value: u64, caller: u32, src: &[u32])
        requires known { IsSome (get self.old.names at.0) }
        requires caller { caller < self.old.numbers.callers }
        requires sources { (i : ℕ) → i < length src.now → slice_index src.now i < REGISTERS }
        requires few { length src.now ≤ FIELDS }
        requires fields { length src.now ≡ length (object_named self.old at).fields }
        ensures { let fields = map (register_of self.old.state caller) src.now in
            let object = record (object_named self.old at) { fields = fields; value = value } in
            let state = with_object self.old.state (name_in self.old.names at) object in
            self.new ≡ record self.old { state = state; heap = self.new.heap } }
    {
        self.write_value(at, value);
        for i in 0..src.len() {
            let index = i as u8;
            let from = src[i] as u8;
            let target = self.register(caller, from);
            self.set_field(at, index, target);
        }
    }

    // Makes an object with the next serial of a caller, with a value, and with fields that get what
    // its registers reference, in the region of the last one, if that is known to have room and the
    // queue has it too. It takes no memory.
    #[inline(always)]
    fn add_in_current(
        &mut self,
        caller: u32,
        value: u64,
        fin: bool,
        src: &[u32],
    ) -> Option<(Addr, Id)>
        requires caller { caller < self.old.numbers.callers }
        requires sources { (i : ℕ) → i < length src.now → slice_index src.now i < REGISTERS }
        requires few { length src.now ≤ FIELDS }
        requires serial { last_serial self.old.state caller + 1 < 2 ^ 32 }
        requires fresh { let serial = last_serial self.old.state caller + 1 in
            get self.old.state.objects (identity_of caller serial).0 ≡ None }
        ensures { MatchOption result (self.new ≡ self.old)
            (λ made. HasAdded self.old caller value fin src.now self.new made.0
            × (made.1 ≡ identity_next self.old caller)) }
    {
        let count = self.heap.count();
        let room = self.queue.room();
        if count >= room {
            return None;
        }
        let serial = self.serials[caller as usize] + 1;
        let id = identity(caller, serial);
        let first = INDEXES * caller as usize;
        match self
            .heap
            .put_filled(id, value, fin, &self.roots, first, src)
        {
            Some(at) => {
                // Counted up in place: no register keeps the serial while the object is put.
                self.serials[caller as usize] += 1;
                Some((at, id))
            }
            None => None,
        }
    }

    // Makes such an object where memory may have to be taken. After a refusal nothing is changed.
    fn add_filled(
        &mut self,
        caller: u32,
        value: u64,
        fin: bool,
        src: &[u32],
    ) -> Result<Addr, NewFault>
        requires caller { caller < self.old.numbers.callers }
        requires sources { (i : ℕ) → i < length src.now → slice_index src.now i < REGISTERS }
        requires few { length src.now ≤ FIELDS }
        requires serial { last_serial self.old.state caller + 1 < 2 ^ 32 }
        requires fresh { let serial = last_serial self.old.state caller + 1 in
            get self.old.state.objects (identity_of caller serial).0 ≡ None }
        ensures made { IfOk result (HasAdded self.old caller value fin src.now self.new) }
        ensures refused { IfErr result (IsObjectRefused self.old self.new (length src.now + 3)) }
    {
        let fields = count_of(src);
        match self.add_object(caller, fields, fin) {
            Ok(at) => {
                // Read for the proof alone: the state is then one over the heap.
                let _added = self.objects();
                self.fill_object(at, value, caller, src);
                Ok(at)
            }
            Err(fault) => Err(fault),
        }
    }
}

// Makes an object as `make_filled` does, where memory may have to be taken. Out of line: a region
// has many objects.
#[cold]
#[inline(never)]
fn make_with_room(
    store: &mut Contents,
    caller: u32,
    d: u8,
    value: u64,
    fin: bool,
    src: &[u32],
) -> Result<Result<Id, Refusal>, Memory>
    requires caller { caller < store.old.numbers.callers }
    requires register { d < REGISTERS }
    requires sources { (i : ℕ) → i < length src.now → slice_index src.now i < REGISTERS }
    requires few { length src.now ≤ FIELDS }
    requires serial { last_serial store.old.state caller + 1 < 2 ^ 32 }
    requires fresh { let serial = last_serial store.old.state caller + 1 in
        get store.old.state.objects (identity_of caller serial).0 ≡ None }
    ensures done { IfOk result (Fills store.old caller d value fin src.now store.new) }
    ensures fits { OnErr result
        (total_size store.old.state + (length src.now + 3) ≤ store.old.numbers.heap) }
    ensures unchanged { OnErr result (store.new ≡ store.old) }
{
    match store.add_filled(caller, value, fin, src) {
        Ok(at) => {
            store.set_register(caller, d, Some(at));
            Ok(Ok(store.id(at)))
        }
        Err(NewFault::Full { used, size }) => Ok(Err(Refusal::HeapFull { used, size })),
        Err(NewFault::Memory) => Err(Memory),
    }
}

/// Makes an object with a value and with fields that get what registers of its caller reference;
/// then rD references it. A full heap is reported before memory is taken.
#[inline(always)]
pub(crate) fn make_filled(
    store: &mut Contents,
    caller: u32,
    d: u8,
    value: u64,
    fin: bool,
    src: &[u32],
) -> Result<Result<Id, Refusal>, Memory>
    requires caller { caller < store.old.numbers.callers }
    requires register { d < REGISTERS }
    requires sources { (i : ℕ) → i < length src.now → slice_index src.now i < REGISTERS }
    requires few { length src.now ≤ FIELDS }
    requires serial { last_serial store.old.state caller + 1 < 2 ^ 32 }
    requires fresh { let serial = last_serial store.old.state caller + 1 in
        get store.old.state.objects (identity_of caller serial).0 ≡ None }
    ensures done { IfOk result (Fills store.old caller d value fin src.now store.new) }
    ensures fits { OnErr result
        (total_size store.old.state + (length src.now + 3) ≤ store.old.numbers.heap) }
    ensures unchanged { OnErr result (store.new ≡ store.old) }
{
    match store.add_in_current(caller, value, fin, src) {
        Some((at, id)) => {
            store.set_register(caller, d, Some(at));
            Ok(Ok(id))
        }
        None => make_with_room(store, caller, d, value, fin, src),
    }
}
