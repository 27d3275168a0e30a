// What a store does with objects.
ghost use Rattle.std.specs.Prelude.{◌≡◌, ◌≢◌, ◌+◌, ◌<◌, ◌≤◌, ◌^◌, length, slice_index_or, None, IsSome, IfOk, IfErr, OnOk, MatchOption, MatchResult};
ghost use Rattle.std.specs.FinMap.{get, insert, len};
ghost use Rattle.hd_heap.specs.Calls.{IsMade, new_object, IsRefused as IsRefusedBy};
ghost use Rattle.hd_model.specs.State.{last_serial, identity_of, total_size, with_object, with_serial};
ghost use Rattle.hd_store.specs.Reading.{name_in};
ghost use Rattle.hd_model.specs.{Command.fresh_object, declared.data.Id.Id};
ghost use Rattle.hd_store.specs.Inside.{IsObjectRefused, IsRoomier, KeepsNames};

use crate::contents::Contents;
use hd_final::Final;
use hd_heap::{Heap, NewFault};
use hd_model::limits::{FIELDS, HEADER, REGION};
use hd_model::{Addr, Id, Memory};

// The objects for which room is taken in the queue at once: as many as a region may have.
const AHEAD: u32 = REGION / HEADER;

/// The identity of a caller's object with a serial.
pub(crate) fn identity(caller: u32, serial: u32) -> Id
    requires { 1 ≤ serial }
    ensures value { result ≡ identity_of caller serial }
    ensures not_zero { result.0 ≢ 0 }
{
    Id(u64::from(caller) * (1 << 32) + u64::from(serial))
}

// Takes room in the queue for one more object than `count`, where it has none, and then for those
// that may follow it in its region too, if there is memory for so many.
fn reserve_after(queue: &mut Final, count: u32) -> Result<(), Memory>
    requires { count + AHEAD < 2 ^ 32 }
    ensures queue { IsRoomier queue.old queue.new }
    ensures room { OnOk result (count + 1 ≤ queue.new.room) }
{
    if count < queue.room() {
        return Ok(());
    }
    match queue.reserve(count + AHEAD) {
        Ok(()) => Ok(()),
        Err(Memory) => queue.reserve(count + 1),
    }
}

// Takes room in the queue for one more object, of `fields` fields. A full heap is reported first.
fn reserve_for(heap: &Heap, queue: &mut Final, fields: u32) -> Result<(), NewFault>
    requires few { len heap.now.objects + AHEAD < 2 ^ 32 }
    requires fields { fields ≤ FIELDS }
    ensures queue { IsRoomier queue.old queue.new }
    ensures room { MatchResult result
        (λ _. len heap.now.objects + 1 ≤ queue.new.room)
        (IsRefusedBy heap.now heap.now (fields + 3)) }
{
    let size = fields + HEADER;
    let used = heap.used();
    if u64::from(used) + u64::from(size) > u64::from(heap.limit()) {
        return Err(NewFault::Full { used, size });
    }
    match reserve_after(queue, heap.count()) {
        Ok(()) => Ok(()),
        Err(Memory) => Err(NewFault::Memory),
    }
}

// Makes an object in the region of the last one, if it is known to have room and the queue has it
// too. It takes no memory.
#[inline(always)]
fn make_in_current(heap: &mut Heap, queue: &Final, id: Id, fields: u32, fin: bool) -> Option<Addr>
    requires identified { id.0 ≢ 0 }
    requires fields { fields ≤ FIELDS }
    ensures { MatchOption result (heap.new ≡ heap.old)
        (λ at. IsMade heap.old heap.new at (new_object id fields fin)
        × (len heap.old.objects + 1 ≤ queue.now.room)) }
{
    if heap.count() >= queue.room() {
        return None;
    }
    match heap.put_in_current(id, fields, fin) {
        Some(at) => Some(at),
        None => None,
    }
}

// Makes an object, with room for it in the queue, where memory may have to be taken.
#[cold]
#[inline(never)]
fn make_with_room(
    heap: &mut Heap,
    queue: &mut Final,
    id: Id,
    fields: u32,
    fin: bool,
) -> Result<Addr, NewFault>
    requires identified { id.0 ≢ 0 }
    requires few { len heap.old.objects + AHEAD < 2 ^ 32 }
    requires fields { fields ≤ FIELDS }
    ensures heap { MatchResult result
        (λ at. IsMade heap.old heap.new at (new_object id fields fin))
        (IsRefusedBy heap.old heap.new (fields + 3)) }
    ensures queue { IsRoomier queue.old queue.new }
    ensures room { OnOk result (len heap.old.objects + 1 ≤ queue.new.room) }
{
    match reserve_for(heap, queue, fields) {
        Ok(()) => heap.new_object(id, fields, fin),
        Err(fault) => Err(fault),
    }
}

// Makes an object, with room for it in the queue.
#[inline(always)]
fn make(
    heap: &mut Heap,
    queue: &mut Final,
    id: Id,
    fields: u32,
    fin: bool,
) -> Result<Addr, NewFault>
    requires identified { id.0 ≢ 0 }
    requires few { len heap.old.objects + AHEAD < 2 ^ 32 }
    requires fields { fields ≤ FIELDS }
    ensures heap { MatchResult result
        (λ at. IsMade heap.old heap.new at (new_object id fields fin))
        (IsRefusedBy heap.old heap.new (fields + 3)) }
    ensures queue { IsRoomier queue.old queue.new }
    ensures room { OnOk result (len heap.old.objects + 1 ≤ queue.new.room) }
{
    match make_in_current(heap, queue, id, fields, fin) {
        Some(at) => Ok(at),
        None => make_with_room(heap, queue, id, fields, fin),
    }
}

impl Contents {
    /// Makes an object with the next serial of a caller. A full heap is reported before memory is
    /// asked for, and after a refusal nothing is changed.
    #[inline(always)]
    pub(crate) fn add_object(
        &mut self,
        caller: u32,
        fields: u8,
        fin: bool,
    ) -> Result<Addr, NewFault>
        requires caller { caller < self.old.numbers.callers }
        requires serial { last_serial self.old.state caller + 1 < 2 ^ 32 }
        requires fields { fields ≤ FIELDS }
        requires fresh { let serial = last_serial self.old.state caller + 1 in
            get self.old.state.objects (identity_of caller serial).0 ≡ None }
        ensures made { let serial = last_serial self.old.state caller + 1 in
            let id = identity_of caller serial in
            let made = with_object self.old.state id (fresh_object fields fin) in
            IfOk result (λ at. self.new ≡ record self.old {
              state = with_serial made caller serial;
              names = insert self.old.names at.0 id;
              heap = self.new.heap;
            }) }
        ensures fits { OnOk result
            (total_size self.old.state + (fields + 3) ≤ self.old.numbers.heap) }
        ensures known { IfOk result (λ at. IsSome (get self.new.names at.0)) }
        ensures kept { OnOk result (KeepsNames self.old.names self.new.names) }
        ensures refused { IfErr result (IsObjectRefused self.old self.new (fields + 3)) }
    {
        let serial = self.serials[caller as usize] + 1;
        let id = identity(caller, serial);
        match make(&mut self.heap, &mut self.queue, id, u32::from(fields), fin) {
            Ok(at) => {
                // Counted up in place: no register keeps the serial while the object is put.
                self.serials[caller as usize] += 1;
                Ok(at)
            }
            Err(fault) => Err(fault),
        }
    }

    /// The object at position `i` of the finalization queue, from 0.
    pub(crate) fn queued_at(&self, i: u32) -> Addr
        requires { i < length self.now.state.queue }
        ensures value { (d : Id) → name_in self.now.names result ≡
            slice_index_or self.now.state.queue i d }
        ensures known { IsSome (get self.now.names result.0) }
    {
        self.queue.at(i)
    }
}
