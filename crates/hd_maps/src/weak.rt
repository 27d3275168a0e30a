// The weak table: its slots with their entries, the slot of each key, and the idle slots.
ghost use Rattle.std.specs.Prelude.{◌≡◌, Some, None, IfOk, IfSome, option_map};
ghost use Rattle.std.specs.FinMap as map;
ghost use Rattle.std.specs.FinMap.{get, insert, keys};
ghost use Rattle.hd_maps.specs.View.{entry_of};
ghost use Rattle.hd_maps.specs.WeakSlots.{slot_with, idle_in, slot_at, IsUnnamed, entry_in};

use crate::data::WeakEntry;
use crate::numbered::Numbered;
use hd_model::{Id, Memory, Slot};
use std::alloc::Global;
use std::marker::Model;

/// The weak table: the slots that it holds, each with its entry or idle, the slot of each key, and
/// the idle slots.
#[derive(Drop)]
pub struct Weak {
    slots: Numbered<Option<WeakEntry>>,
    by_key: Numbered<u32>,
    idle: Numbered<()>,
}

impl Model for Weak {
    ghost use Rattle.std.specs.Prelude.{Option};
    ghost use Rattle.std.specs.FinMap as map;
    ghost use Rattle.std.specs.FinMap.{FinMap};
    ghost use Rattle.std.specs.Ordering.{nat_cmp};
    ghost use Rattle.std.specs.Coded.{coded_ℕ, coded_option};
    ghost use Rattle.hd_model.specs.State.{WeakEntry};
    ghost use Rattle.hd_model.specs.{declared.data.Id.Id, Code.weak_code};
    ghost use Rattle.hd_maps.specs.Fields.{held_as};
    ghost use Rattle.hd_maps.specs.Inside.{IsWeak};

    ghost Value = { FinMap nat_cmp (Option (WeakEntry Id)) };

    ghost coded = { map.code coded_ℕ (coded_option weak_code) };

    ghost view = { λ w. held_as w.slots };

    ghost invariant = { λ w. IsWeak w.slots w.by_key w.idle };
}

impl Weak {
    /// No slots.
    pub fn open(alloc: Global) -> Weak
        ensures { result ≡ map.empty }
    {
        let slots = Numbered::new(alloc);
        let by_key = Numbered::new(alloc);
        let idle = Numbered::new(alloc);
        Weak {
            slots,
            by_key,
            idle,
        }
    }

    /// The slots that it holds, in rising order.
    pub fn slots(&self, alloc: Global) -> Result<Vec<u64>, Memory>
        ensures { IfOk result (λ slots. slots.items ≡ keys self.now) }
    {
        self.slots.keys(alloc)
    }

    /// What it holds by a slot, which may be any number.
    pub fn at(&self, slot: u64) -> Option<Option<WeakEntry>>
        ensures { option_map (option_map entry_of) result ≡ get self.now slot }
    {
        self.slots.at(slot)
    }

    /// The entry in a slot, which may be any number.
    pub fn entry(&self, slot: u64) -> Option<WeakEntry>
        ensures value { option_map entry_of result ≡ entry_in self.now slot }
        ensures named { IfSome result (λ e. slot_with self.now e.key ≡ Some (slot_at slot)) }
    {
        // For the proof: an entry is in the slot of its key.
        let _slots = &self.slots;
        match self.at(slot) {
            Some(entry) => entry,
            None => None,
        }
    }

    /// The slot with the entry of a key.
    pub fn slot_of(&self, key: Id) -> Option<Slot>
        ensures { result ≡ slot_with self.now key }
    {
        match self.by_key.get(key.0) {
            Some(slot) => Some(Slot(*slot)),
            None => None,
        }
    }

    /// The least idle slot.
    pub fn idle(&self) -> Option<Slot>
        ensures { result ≡ idle_in self.now }
    {
        match self.idle.least_from(0) {
            Some(slot) => Some(Slot(slot as u32)),
            None => None,
        }
    }

    /// An entry in a slot, which has none, of a key that has none.
    pub fn put(&mut self, slot: Slot, entry: WeakEntry) -> Result<(), Memory>
        requires free { IsUnnamed (get self.old slot.0) }
        requires fresh { slot_with self.old entry.key ≡ None }
        ensures { let held = insert self.old slot.0 (Some (entry_of entry)) in
            IfOk result (λ _. self.new ≡ held) }
    {
        let number = u64::from(slot.0);
        self.by_key.insert(entry.key.0, slot.0)?;
        match self.slots.insert(number, Some(entry)) {
            Ok(()) => {
                let _ = self.idle.remove(number);
                Ok(())
            }
            Err(Memory) => {
                let _ = self.by_key.remove(entry.key.0);
                Err(Memory)
            }
        }
    }

    /// The entry of a key leaves its slot, which is idle then.
    pub fn clear(&mut self, slot: u64, key: Id) -> Result<(), Memory>
        requires { slot_with self.old key ≡ Some (slot_at slot) }
        ensures { IfOk result (λ _. self.new ≡ insert self.old slot None) }
    {
        self.idle.insert(slot, ())?;
        let _ = self.by_key.remove(key.0);
        let Some(held) = self.slots.get_mut(slot) else {
            return Ok(());
        };
        *held = None;
        Ok(())
    }
}
