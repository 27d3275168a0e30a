// What a store does with the entries of the weak table, which are in rows of dependent handles.
ghost use Rattle.std.specs.Prelude.{◌≡◌, ◌<◌, ◌≤◌, ℕ, true, false, Decides, IfOk, OnErr, Some, None, IsSome, IfSome, option_map};
ghost use Rattle.std.specs.FinMap.{get, insert};
ghost use Rattle.hd_model.specs.declared.data.Kind.TheVariants as kind;
ghost use Rattle.hd_model.specs.State.{with_weak, block_of, IsFree};
ghost use Rattle.hd_model.specs.Command.{slot_of_key, idle_slot, value_at};
ghost use Rattle.hd_store.specs.Reading.{name_in, named_in, IsNamed};
ghost use Rattle.hd_store.specs.Inside.{entry_at, chosen, BringsTable, GetsSlot, HasTable, LacksTable, MayHaveEntry, HasNoEntry};
ghost use Rattle.hd_cwt.specs.WeakTable.{CanTake, HasKey, slots_of};
ghost use Rattle.hd_store.specs.{Info.entry_seen, Visited.SearchSteps, Visited.buckets_of};

use crate::contents::{Contents, buckets_for};
use crate::info::EntryInfo;
use hd_commands::Parts;
use hd_cwt::Cwt;
use hd_model::limits::{BLOCKS, CALLERS};
use hd_model::{Addr, Id, Memory, Slot, Steps};
use hd_seg::{Extra, Row};
use std::sync::ledger::Ledger;

impl Contents {
    /// The slot of the weak table with the entry of a key. Each entry that is looked at is a step.
    #[inline(always)]
    pub(crate) fn slot_of_key<L: Ledger>(&self, key: Addr, steps: &mut Steps<L>) -> Option<Slot>
        requires { IsSome (get self.now.names key.0) }
        ensures value { result ≡ slot_of_key self.now.state (name_in self.now.names key) }
        ensures held { IfSome result (λ slot. IsSome (get self.now.state.weak slot.0)) }
        ensures steps { let id = name_in self.now.names key in
            let n = self.now.numbers in
            SearchSteps (buckets_of n.blocks n.callers) self.now.state id steps.old steps.new }
    {
        self.weak.find(self.id(key), steps)
    }

    /// The least slot of the weak table without an entry.
    pub(crate) fn idle_slot(&self) -> Option<Slot>
        ensures value { result ≡ idle_slot self.now.state }
        ensures idle { IfSome result (λ slot. get self.now.state.weak slot.0 ≡ Some None) }
        ensures within { IfSome result (λ slot.
            (1 ≤ block_of slot) × (block_of slot ≤ self.now.numbers.blocks)) }
    {
        // For the proof: each row is in a block of its kind.
        let _given = self.table.given();
        self.weak.idle()
    }

    /// The value of the entry in a slot of the weak table.
    pub(crate) fn entry_value(&self, slot: Slot) -> Option<Addr>
        requires { IsSome (get self.now.state.weak slot.0) }
        ensures value { named_in self.now.names result ≡ value_at self.now.state slot }
        ensures named { IsNamed self.now.names result }
    {
        let Extra::Secondary(value) = self.table.row(slot).unwrap().extra else {
            return None;
        };
        value
    }

    /// What the weak table has in a slot, if it holds the slot: an entry, or none where the slot is
    /// idle. The slot may be any number.
    pub fn entry(&self, slot: Slot) -> Option<Option<EntryInfo>>
        ensures { get self.now.state.weak slot.0 ≡ option_map (option_map entry_seen) result }
    {
        if !self.weak.held(slot) {
            return None;
        }
        Some(self.held_entry(slot))
    }

    // The entry in a slot that the weak table holds, if the slot is not idle.
    fn held_entry(&self, slot: Slot) -> Option<EntryInfo>
        requires { IsSome (get self.now.state.weak slot.0) }
        ensures { get self.now.state.weak slot.0 ≡ Some (option_map entry_seen result) }
    {
        let row = self.table.row(slot).unwrap();
        let key = row.target?;
        let value = self.entry_value(slot);
        Some(EntryInfo {
            key: self.id(key),
            value: self.named(value),
        })
    }

    /// Puts an entry into a slot of the weak table without one.
    pub(crate) fn fill_entry(&mut self, slot: Slot, key: Addr, value: Option<Addr>)
        requires idle { get self.old.state.weak slot.0 ≡ Some None }
        requires new { HasNoEntry self.old key }
        requires may { MayHaveEntry self.old slot key value }
        ensures { let entry = Some (entry_at self.old.names key value) in
            let after = with_weak self.old.state slot entry in
            self.new ≡ record self.old { state = after; table = self.new.table } }
    {
        let id = self.id(key);
        // For the proof: a slot that is held is one of the blocks'.
        let _held = self.weak.held_count();
        self.table.set_row(slot, Some(key));
        self.table.set_extra(slot, Extra::Secondary(value));
        self.weak.add(id, slot);
    }

    // Whether the weak table may have no room yet: it has no slot, in a table of more blocks than a
    // script's.
    fn lacks_table(&self) -> bool
        ensures lacks { result ≡ true → (BLOCKS < self.now.numbers.blocks)
            × ((slot : ℕ) → get self.now.state.weak slot ≡ None) }
        ensures has { result ≡ false → HasTable self.now }
    {
        self.ages.blocks() > BLOCKS && self.weak.held_count() == 0
    }

    // Whether a new entry gets a slot.
    fn gets_slot(&self, offer: Option<Slot>) -> bool
        ensures { Decides result (GetsSlot self.now offer) }
    {
        offer.is_some() || self.table.given() + 2 <= self.ages.blocks()
    }

    /// A weak table with its room, for the first entry, where that is sure to get a slot.
    pub(crate) fn first_table(&self, offer: Option<Slot>) -> Result<Option<Cwt>, Memory>
        ensures table { IfOk result (λ table.
            GetsSlot self.now offer → BringsTable self.now table) }
        ensures memory { OnErr result (LacksTable self.now offer) }
    {
        if !self.lacks_table() || !self.gets_slot(offer) {
            return Ok(None);
        }
        // Of so many blocks the number of buckets goes by these alone.
        let blocks = self.ages.blocks();
        let table = Cwt::open_with(self.alloc, blocks, buckets_for(blocks, CALLERS))?;
        Ok(Some(table))
    }

    /// Puts an entry into a free slot of a block of dependent handles, which the weak table holds
    /// from then on. The first one brings the table with it.
    pub(crate) fn hold_entry(
        &mut self,
        slot: Slot,
        key: Addr,
        value: Option<Addr>,
        table: Option<Cwt>,
    )
        requires table { BringsTable self.old table }
        requires free { IsFree self.old.state kind.Dependent slot }
        requires new { HasNoEntry self.old key }
        requires may { MayHaveEntry self.old slot key value }
        ensures { let entry = Some (entry_at self.old.names key value) in
            let after = with_weak self.old.state slot entry in
            self.new ≡ record self.old { state = after; table = self.new.table } }
    {
        // For the proof: each row is in a block of its kind.
        let _given = self.table.given();
        let id = self.id(key);
        self.table.put_row(
            slot,
            Row {
                target: Some(key),
                extra: Extra::Secondary(value),
            },
        );
        add_to(&mut self.weak, table, id, slot);
    }

    /// Takes the entry out of its slot, which the weak table holds on.
    pub(crate) fn clear_entry(&mut self, slot: Slot)
        requires { IsSome (get self.old.state.weak slot.0) }
        ensures { let after = with_weak self.old.state slot None in
            self.new ≡ record self.old { state = after; table = self.new.table } }
    {
        self.table.set_row(slot, None);
        self.table.set_extra(slot, Extra::Secondary(None));
        self.weak.clear(slot);
    }
}

// Puts a key into a slot of a weak table, or of another in its place.
fn add_to(weak: &mut Cwt, table: Option<Cwt>, key: Id, slot: Slot)
    requires new { (other : ℕ) → ¬ (HasKey (chosen weak.old table) key other) }
    requires within { slot.0 < slots_of (chosen weak.old table) }
    requires slot { CanTake (chosen weak.old table) slot.0 }
    ensures { let w = chosen weak.old table in
        weak.new ≡ record w { held = insert w.held slot.0 (Some key) } }
{
    if let Some(first) = table {
        *weak = first;
    }
    weak.add(key, slot);
}
