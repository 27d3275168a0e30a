// The commands on the weak table.
ghost use Rattle.std.specs.Prelude.{◌≡◌, ◌<◌, IsSome, MatchResult, Some};
ghost use Rattle.hd_model.specs.declared.command.Cmd.TheVariants as cmds;
ghost use Rattle.hd_model.specs.{WellFormed.HasHandles, WellFormed.HasWeakTable, Valid.IsValid};
ghost use Rattle.hd_model.specs.State.{register_of};
ghost use Rattle.hd_commands.specs.Done.{done_making, done_of, done_with, entry_by};
ghost use Rattle.hd_store.specs.Inside.{HasNoEntry, HasRun, IsPlainStep, LacksTable};
ghost use Rattle.hd_store.specs.{Reading.name_in, Replies.found_reply, Replies.removed_reply, Visited.TakesStepsIn, Offers.IsOffer, Offers.TakesTable, Offers.needs_slot};
ghost use Rattle.std.specs.FinMap.{get};

use crate::contents::Contents;
use crate::entry_calls::Lookup;
use crate::making::slot_given;
use hd_commands::Parts;
use hd_commands::on_objects::{load, object_in};
use hd_model::limits::REGISTERS;
use hd_model::{Addr, Cmd, Grown, Kind, Memory, Refusal, Slot, Steps};
use std::sync::ledger::Ledger;

// The entry of a key that has none: in the least idle slot or, without one, in the offered slot or
// the first of a new block.
fn put_entry(
    store: &mut Contents,
    caller: u32,
    k: u8,
    v: u8,
    key: Addr,
    offer: Option<Slot>,
) -> Result<Result<(Slot, Grown), Refusal>, Memory>
    requires handles { HasHandles store.old.numbers store.old.state }
    requires weak { HasWeakTable store.old.state }
    requires caller { caller < store.old.numbers.callers }
    requires registers { (k < REGISTERS) × (v < REGISTERS) }
    requires offer { IsOffer store.old.state caller (cmds.CAdd k v) offer }
    requires key { register_of store.old.state caller k ≡ Some (name_in store.old.names key) }
    requires known { IsSome (get store.old.names key.0) }
    requires new { HasNoEntry store.old key }
    ensures { let c = cmds.CAdd k v in MatchResult result
        (λ came. let e = entry_by caller c (done_of (done_making came)) in
        HasRun store.old caller c offer e (IsPlainStep store.old c store.new e))
        (λ _. LacksTable store.old offer × (store.new ≡ store.old)) }
{
    let value = store.register(caller, v);
    if let Some(slot) = store.idle_slot() {
        store.lower_age(slot, 0);
        store.fill_entry(slot, key, value);
        return Ok(Ok((slot, Grown::Zero)));
    }
    let table = store.first_table(offer)?;
    let (slot, grown) = match slot_given(store, Kind::Dependent, offer) {
        Ok(slot_given) => slot_given,
        Err(full) => return Ok(Err(Refusal::TableFull { given: full.given })),
    };
    store.lower_age(slot, 0);
    store.hold_entry(slot, key, value, table);
    Ok(Ok((slot, grown)))
}

/// `cadd rK rV`: where no slot of the weak table is idle, it takes the offered slot or, without
/// one, the first slot of a new block. The first entry of a large table may be out of memory.
pub(crate) fn add_entry<L: Ledger>(
    store: &mut Contents,
    caller: u32,
    k: u8,
    v: u8,
    offer: Option<Slot>,
    steps: &mut Steps<L>,
) -> Result<Result<(Slot, Grown), Refusal>, Memory>
    requires handles { HasHandles store.old.numbers store.old.state }
    requires weak { HasWeakTable store.old.state }
    requires caller { caller < store.old.numbers.callers }
    requires registers { (k < REGISTERS) × (v < REGISTERS) }
    requires offer { IsOffer store.old.state caller (cmds.CAdd k v) offer }
    ensures { let m = store.old in let c = cmds.CAdd k v in MatchResult result
        (λ came. let e = entry_by caller c (done_of (done_making came)) in
        HasRun m caller c offer e (IsPlainStep m c store.new e)
        × TakesStepsIn m.numbers m.state m.ages e steps.old steps.new)
        (λ _. TakesTable m.numbers m.state caller c offer
        × (store.new ≡ m) × (steps.new ≡ steps.old)) }
{
    let key = match object_in(store, caller, k) {
        Ok(key) => key,
        Err(refusal) => return Ok(Err(refusal)),
    };
    if store.slot_of_key(key, steps).is_some() {
        return Ok(Err(Refusal::Present));
    }
    put_entry(store, caller, k, v, key, offer)
}

/// `cfind rD rK`.
#[inline(always)]
pub(crate) fn find_entry<L: Ledger>(
    store: &mut Contents,
    caller: u32,
    d: u8,
    k: u8,
    steps: &mut Steps<L>,
) -> Result<Lookup, Refusal>
    requires caller { caller < store.old.numbers.callers }
    requires registers { (d < REGISTERS) × (k < REGISTERS) }
    ensures done { let c = cmds.CFind d k in
        IsPlainStep store.old c store.new (entry_by caller c (done_of (done_with found_reply result))) }
    ensures steps { let e = entry_by caller (cmds.CFind d k) (done_of (done_with found_reply result)) in
        let m = store.old in
        TakesStepsIn m.numbers m.state m.ages e steps.old steps.new }
{
    let at = object_in(store, caller, k)?;
    match store.slot_of_key(at, steps) {
        Some(slot) => {
            let value = store.entry_value(slot);
            Ok(Lookup::Value(load(store, caller, d, value)))
        }
        None => {
            store.set_register(caller, d, None);
            Ok(Lookup::Absent)
        }
    }
}

/// `cremove rK`, which returns whether there was an entry.
#[inline(always)]
pub(crate) fn remove_entry<L: Ledger>(
    store: &mut Contents,
    caller: u32,
    k: u8,
    steps: &mut Steps<L>,
) -> Result<bool, Refusal>
    requires caller { caller < store.old.numbers.callers }
    requires register { k < REGISTERS }
    ensures done { let c = cmds.CRemove k in
        IsPlainStep store.old c store.new (entry_by caller c (done_of (done_with removed_reply result))) }
    ensures steps { let e = entry_by caller (cmds.CRemove k) (done_of (done_with removed_reply result)) in
        let m = store.old in
        TakesStepsIn m.numbers m.state m.ages e steps.old steps.new }
{
    let at = object_in(store, caller, k)?;
    match store.slot_of_key(at, steps) {
        Some(slot) => {
            store.clear_entry(slot);
            Ok(true)
        }
        None => Ok(false),
    }
}

/// Whether a `cadd` needs a slot that the weak table has yet to get.
#[inline(always)]
pub(crate) fn needs_slot<L: Ledger>(
    store: &Contents,
    caller: u32,
    cmd: Cmd,
    steps: &mut Steps<L>,
) -> bool
    requires caller { caller < store.now.numbers.callers }
    requires valid { IsValid cmd }
    ensures { result ≡ needs_slot store.now.state caller cmd }
{
    let Cmd::CAdd { k, .. } = cmd else {
        return false;
    };
    let Some(key) = store.register(caller, k) else {
        return false;
    };
    // With an idle slot none is needed, and the key is not searched for.
    if store.idle_slot().is_some() {
        return false;
    }
    store.slot_of_key(key, steps).is_none()
}
