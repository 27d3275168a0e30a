// The commands on the weak table.
ghost use Rattle.std.specs.Prelude.{◌≡◌, ◌<◌, IfOk, None, Some};
ghost use Rattle.std.specs.FinMap.{get};
ghost use Rattle.hd_model.specs.Command.{find_entry, idle_slot, remove_entry, slot_of_key, value_at};
ghost use Rattle.hd_model.specs.State.{with_weak};
ghost use Rattle.hd_model.specs.{WellFormed.IsWellFormed, Step.way_of_adding, Command.adding_of};
ghost use Rattle.hd_plain.specs.Commands.{ComesTo, MayUseBoth, MayUse};
ghost use Rattle.hd_plain.specs.ChosenSteps.{WayComesTo};
ghost use Rattle.hd_maps.specs.WeakSlots.{IsUnnamed};
ghost use Rattle.hd_maps.specs.View.{entry_of};

use crate::choice::Choice;
use crate::machine::Machine;
use crate::making::{may_give, table_full, use_blocks};
use hd_commands::on_objects::{load, object_in};
use hd_commands::{Done, Parts, load_reply};
use hd_maps::WeakEntry;
use hd_model::limits::REGISTERS;
use hd_model::{Grown, Id, Kind, Memory, Refusal, Reply, Slot};

/// `cadd rK rV`: in an idle slot where there is one, and else in the slot that the line states.
pub fn add_entry(
    machine: &mut Machine,
    caller: u32,
    k: u8,
    v: u8,
    choice: &Choice,
) -> Result<Option<Result<Done, Refusal>>, Memory>
    requires caller { caller < machine.old.numbers.callers }
    requires registers { (k < REGISTERS) × (v < REGISTERS) }
    requires formed { IsWellFormed machine.old.numbers machine.old.state }
    ensures { let s = machine.old.state in
        let way = way_of_adding s caller v (adding_of s caller k) in
        IfOk result (WayComesTo caller way choice.now machine.old machine.new) }
{
    let Some(key) = machine.register(caller, k) else {
        return Ok(Some(Err(Refusal::Null)));
    };
    let value = machine.register(caller, v);
    let entry = WeakEntry { key, value };
    if machine.slot_of(key).is_some() {
        return Ok(Some(Err(Refusal::Present)));
    }
    if let Some(slot) = machine.idle() {
        machine.put_entry(slot, entry)?;
        return Ok(Some(Ok(Done::in_slot(slot, Grown::Zero))));
    }
    let Some(slot) = choice.slot else {
        return Ok(table_full(machine, Kind::Dependent));
    };
    if !may_give(machine, Kind::Dependent, choice.grown, slot) {
        return Ok(None);
    }
    use_blocks(machine, Kind::Dependent, choice.grown)?;
    machine.put_entry(slot, entry)?;
    Ok(Some(Ok(Done::in_slot(slot, choice.grown))))
}

impl Machine {
    /// `cfind rD rK`.
    pub fn find_entry(&mut self, caller: u32, d: u8, k: u8) -> Result<Done, Refusal>
        requires { MayUseBoth self.old caller d k }
        ensures { ComesTo (find_entry self.old.state caller d k) self.old self.new result }
    {
        let key = object_in(self, caller, k)?;
        let Some(slot) = self.slot_of(key) else {
            return Ok(self.assign(caller, d, None, Reply::Absent));
        };
        let value = self.weak_value(slot);
        Ok(Done::of(load_reply(load(self, caller, d, value))))
    }

    /// `cremove rK`.
    pub fn remove_entry(&mut self, caller: u32, k: u8) -> Result<Result<Done, Refusal>, Memory>
        requires { MayUse self.old caller k }
        ensures { let wanted = remove_entry self.old.state caller k in
            IfOk result (ComesTo wanted self.old self.new) }
    {
        let Some(key) = self.register(caller, k) else {
            return Ok(Err(Refusal::Null));
        };
        let Some(slot) = self.slot_of(key) else {
            return Ok(Ok(Done::of(Reply::Absent)));
        };
        self.clear_entry(slot, key)?;
        Ok(Ok(Done::of(Reply::Done)))
    }

    /// The slot with the entry of a key.
    pub fn slot_of(&self, key: Id) -> Option<Slot>
        ensures { result ≡ slot_of_key self.now.state key }
    {
        self.weak.slot_of(key)
    }

    /// The least idle slot of the weak table.
    pub fn idle(&self) -> Option<Slot>
        ensures { result ≡ idle_slot self.now.state }
    {
        self.weak.idle()
    }

    // The value of the entry in a slot of the weak table, or null.
    fn weak_value(&self, slot: Slot) -> Option<Id>
        ensures { result ≡ value_at self.now.state slot }
    {
        match self.weak.at(u64::from(slot.0)) {
            Some(Some(entry)) => entry.value,
            Some(None) | None => None,
        }
    }

    // An entry in a slot that has none, of a key that has none.
    fn put_entry(&mut self, slot: Slot, entry: WeakEntry) -> Result<(), Memory>
        requires free { IsUnnamed (get self.old.state.weak slot.0) }
        requires fresh { slot_of_key self.old.state entry.key ≡ None }
        ensures { let after = with_weak self.old.state slot (Some (entry_of entry)) in
            IfOk result (λ _. self.new ≡ record self.old { state = after }) }
    {
        self.weak.put(slot, entry)
    }

    // The entry of a key leaves its slot, which is idle then.
    fn clear_entry(&mut self, slot: Slot, key: Id) -> Result<(), Memory>
        requires { slot_of_key self.old.state key ≡ Some slot }
        ensures { let after = with_weak self.old.state slot None in
            IfOk result (λ _. self.new ≡ record self.old { state = after }) }
    {
        self.weak.clear(u64::from(slot.0), key)
    }
}
