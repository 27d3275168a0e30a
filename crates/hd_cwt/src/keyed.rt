// The slots with a key, in no order, and for each of them where it is listed.
ghost use Rattle.std.specs.Prelude.{◌≡◌, ◌+◌, ◌-◌, ◌<◌, ◌≤◌, ◌^◌, [], ◌∷◌, ◌++◌, length, slice_set, vec_capacity, IfOk};
ghost use Rattle.hd_cwt.specs.Inside.{node_at};
ghost use Rattle.hd_cwt.specs.Inside.{IsUnlisted};

use hd_model::{Memory, filled};
use std::alloc::Global;

/// The slots with a key, and by the number of a slot its index in that list.
#[derive(Drop)]
pub(crate) struct Keyed {
    pub(crate) slots: Vec<u32>,
    pub(crate) indexes: Vec<u32>,
}

impl Keyed {
    /// No slot is listed. There is room for `room` of `count` slots.
    pub(crate) fn open(alloc: Global, count: u32, room: u32) -> Result<Keyed, Memory>
        ensures slots { IfOk result (λ k. k.slots.items ≡ []) }
        ensures indexes { IfOk result (λ k. length k.indexes.items ≡ count) }
        ensures room { IfOk result (λ k. room ≤ vec_capacity k.slots) }
    {
        let indexes = filled(alloc, 0, count)?;
        match Vec::with_capacity(alloc, room as usize) {
            Ok(slots) => Ok(Keyed { slots, indexes }),
            Err(_) => Err(Memory),
        }
    }

    /// Lists a slot, as the last one.
    pub(crate) fn push(&mut self, slot: u32)
        requires room { length self.old.slots.items < vec_capacity self.old.slots }
        requires few { length self.old.slots.items < 2 ^ 32 }
        requires within { slot < length self.old.indexes.items }
        ensures slots { self.new.slots.items ≡ self.old.slots.items ++ slot ∷ [] }
        ensures indexes { let at = length self.old.slots.items in
            self.new.indexes.items ≡ slice_set self.old.indexes.items slot at }
        ensures capacity { vec_capacity self.new.slots ≡ vec_capacity self.old.slots }
    {
        self.indexes[slot as usize] = self.slots.len() as u32;
        self.slots.push_reserved(slot);
    }

    /// Takes a slot off the list. The last one takes its index.
    pub(crate) fn remove(&mut self, slot: u32)
        requires within { slot < length self.old.indexes.items }
        requires listed { node_at self.old.indexes.items slot < length self.old.slots.items }
        requires last { let slots = self.old.slots.items in
            node_at slots (length slots - 1) < length self.old.indexes.items }
        ensures lists { IsUnlisted self.old.slots.items self.old.indexes.items
            self.new.slots.items self.new.indexes.items slot }
        ensures capacity { vec_capacity self.new.slots ≡ vec_capacity self.old.slots }
    {
        let at = self.indexes[slot as usize];
        let end = self.slots.len() - 1;
        let last = self.slots[end];
        self.indexes[last as usize] = at;
        self.slots.swap_remove(at as usize);
    }
}
