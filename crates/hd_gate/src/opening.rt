//! How callers are made, and how their seats end.
ghost use Rattle.std.specs.Prelude.{◌≡◌, ℕ, ◌+◌, ◌<◌, ◌≤◌, [], false, length, sum, drop, IfOk, slice_index, slice_index_or};
ghost use Rattle.hd_model.specs.State.{Numbers};
ghost use Rattle.hd_custody.specs.Views.{starting, numbers_of};
ghost use Rattle.hd_gate.specs.Shared.{CallerView, AreAll, Begin};
ghost use Rattle.hd_gate.specs.Inside.{AreNew, IsFirst, HasEnded};

use crate::boxed::Boxed;
use crate::callers::{Caller, Callers};
use crossbeam_utils::CachePadded;
use hd_custody::{Custody, Seat};
use hd_model::Memory;
use hd_model::limits::CALLERS;
use std::alloc::Global;

/// A caller for each room, of which the first has this seat.
pub(crate) fn callers_of(
    alloc: Global,
    custody: &Custody<Boxed>,
    mut first: Seat<Boxed>,
    rooms: &[u32],
) -> Result<Callers, Memory>
    requires seat { first.table ≡ custody.now.table }
    requires starts { first.view ≡ starting first.view.room custody.now.numbers }
    requires callers { (1 ≤ length rooms.now) × (length rooms.now ≤ CALLERS)
        × (length rooms.now ≡ custody.now.numbers.callers) }
    requires rooms { sum rooms.now ≤ first.view.room }
    ensures all { IfOk result (AreAll custody.now) }
    ensures begin { IfOk result (Begin rooms.now) }
{
    let mut list = others(alloc, custody, &mut first, rooms)?;
    let room = CachePadded::new(rooms[0]);
    let caller = Caller {
        seat: first,
        number: 0,
        room,
    };
    match list.insert(0, caller) {
        Ok(()) => Ok(Callers { list }),
        Err(_) => Err(Memory),
    }
}

// The callers from number 1 on.
fn others(
    alloc: Global,
    custody: &Custody<Boxed>,
    first: &mut Seat<Boxed>,
    rooms: &[u32],
) -> Result<Vec<Caller>, Memory>
    requires seat { first.old.table ≡ custody.now.table }
    requires starts { first.old.view ≡ starting first.old.view.room custody.now.numbers }
    requires callers { (1 ≤ length rooms.now) × (length rooms.now ≤ CALLERS)
        × (length rooms.now ≡ custody.now.numbers.callers) }
    requires rooms { sum rooms.now ≤ first.old.view.room }
    ensures table { first.new.table ≡ first.old.table }
    ensures first { IfOk result (λ _. IsFirst first.old.view first.new.view (length rooms.now)
        (slice_index rooms.now 0)) }
    ensures count { IfOk result (λ v. length v.items + 1 ≡ length rooms.now) }
    ensures others { IfOk result (λ v. AreNew custody.now rooms.now v.items) }
{
    let Ok(mut list) = Vec::with_capacity(alloc, rooms.len()) else {
        return Err(Memory);
    };
    for number in 1..rooms.len() {
        let room = rooms[number];
        let seat = custody.split(first, room);
        list.push_reserved(Caller {
            seat,
            number: number as u32,
            room: CachePadded::new(room),
        });
    }
    Ok(list)
}

/// The seat of the first of all callers, in which the seats of the others ended.
pub(crate) fn join_all(custody: &Custody<Boxed>, mut list: Vec<Caller>) -> Seat<Boxed>
    requires all { AreAll custody.now list.items }
    requires callers { 1 ≤ custody.now.numbers.callers }
    ensures table { result.table ≡ custody.now.table }
    ensures gate { result.view.has_gate ≡ false }
    ensures numbers { (result.view.number ≡ 0)
        × (numbers_of result.view.limits ≡ custody.now.numbers) }
    ensures all { (result.view.made ≡ custody.now.numbers.callers)
        × (length result.view.ended + 1 ≡ custody.now.numbers.callers) }
    ensures part { (d : CallerView) → result.view.part ≡ (slice_index_or list.items 0 d).part }
    ensures seen { (d : CallerView) → result.view.seen ≡ (slice_index_or list.items 0 d).seen }
    ensures ended { HasEnded (drop 1 list.items) result.view.ended }
{
    let Caller {
        mut seat,
        number: _,
        room: _,
    } = list.remove(0);
    while let Some(caller) = list.pop() {
        custody.join(&mut seat, caller.seat);
    }
    seat
}
