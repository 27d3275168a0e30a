// The calls on the weak table.
ghost use Rattle.std.specs.Prelude.{◌≡◌, ◌<◌, None, MatchResult};
ghost use Rattle.hd_model.specs.declared.command.Cmd.TheVariants as cmd;
ghost use Rattle.hd_host.specs.Calls.{AddsEntry, FailsBy, Tries};
ghost use Rattle.hd_slots.specs.Change.{change_in};
ghost use Rattle.hd_store.specs.Replies.{found_reply, removed_reply};
ghost use Rattle.hd_host.specs.View.{IsAsItWas};

use crate::fault::Fault;
use crate::growing::make_room;
use crate::host::Host;
use crate::last::settle;
use hd_model::limits::REGISTERS;
use hd_model::{Cmd, Grown, Kind, Memory};
use hd_slots::{Change as Slots, note_slot, offer};
use hd_store::{Lookup, Store};

impl Host {
    /// Adds the entry of a key with a value (ConditionalWeakTable.Add). Where no slot of the weak
    /// table is idle, it gets the least free slot of kind dependent, and the table grows only where
    /// there is none. In a host of more than 256 blocks the first entry takes the memory of the weak
    /// table. That the table is full is reported before memory is taken.
    pub fn table_add(&mut self, context: u32, key: u8, value: u8) -> Result<(), Fault>
        requires context { context < self.old.machine.numbers.callers }
        requires locals { (key < REGISTERS) × (value < REGISTERS) }
        ensures does { MatchResult result (λ _. AddsEntry self.old context key value self.new)
            (λ fault. FailsBy self.old context None (cmd.CAdd key value) fault
            × IsAsItWas self.old self.new) }
        ensures contexts { self.new.machine.numbers.callers ≡ self.old.machine.numbers.callers }
    {
        let change = change_by_entry(&self.store, context, key, value);
        let offered = offer(&mut self.pool, change);
        if let Err(Memory) = make_room(
            &mut self.store,
            &mut self.pool,
            &mut self.stamps,
            self.limit,
            change,
            offered,
        ) {
            return Err(Fault::Memory);
        }
        match self.store.add_entry(context, key, value, offered) {
            Ok(Ok((slot, grown))) => {
                note_slot(&mut self.pool, change, Some(slot), grown);
                self.last.set(Some(slot), grown);
                Ok(())
            }
            Ok(Err(refusal)) => Err(Fault::of(refusal)),
            Err(Memory) => {
                // The slot that was offered is free again.
                note_slot(&mut self.pool, Slots::Frees, offered, Grown::Zero);
                Err(Fault::Memory)
            }
        }
    }

    /// Local `dst` gets the value of the entry of a key, and becomes null where there is none
    /// (TryGetValue).
    pub fn table_find(&mut self, context: u32, dst: u8, key: u8) -> Result<Lookup, Fault>
        requires context { context < self.old.machine.numbers.callers }
        requires locals { (dst < REGISTERS) × (key < REGISTERS) }
        ensures does { Tries self.old context (cmd.CFind dst key) found_reply self.new result }
        ensures contexts { self.new.machine.numbers.callers ≡ self.old.machine.numbers.callers }
    {
        let came = self.store.find_entry(context, dst, key);
        settle(&mut self.last, came)
    }

    /// Takes the entry of a key out, and returns whether there was one (Remove).
    pub fn table_remove(&mut self, context: u32, key: u8) -> Result<bool, Fault>
        requires context { context < self.old.machine.numbers.callers }
        requires local { key < REGISTERS }
        ensures does { Tries self.old context (cmd.CRemove key) removed_reply self.new result }
        ensures contexts { self.new.machine.numbers.callers ≡ self.old.machine.numbers.callers }
    {
        let came = self.store.remove_entry(context, key);
        settle(&mut self.last, came)
    }
}

// What a new entry of the weak table does to the free slots.
fn change_by_entry(store: &Store, context: u32, key: u8, value: u8) -> Slots
    requires context { context < store.now.numbers.callers }
    requires locals { (key < REGISTERS) × (value < REGISTERS) }
    ensures { result ≡ change_in store.now.state context (cmd.CAdd key value) }
{
    if store.needs_slot(context, Cmd::CAdd { k: key, v: value }) {
        Slots::Takes(Kind::Dependent)
    } else {
        Slots::Adds
    }
}
