// The stamps of slots: how often the handle in each was freed, each with whether the slot is live.
ghost use Rattle.std.specs.Prelude.{◌≡◌, ◌≢◌, true, false, Some, IfSome, ◌+◌, ◌-◌, ◌*◌, ◌/◌, ◌%◌, ◌<◌, ◌≤◌, ◌^◌, ◌++◌, length, replicate, slice_get, slice_index, slice_set, IfOk, MatchResult};
ghost use Rattle.hd_host.specs.declared.stamps.TheConstants.{END, FREE};

use crate::handle::Handle;
use hd_model::limits::{HOST_BLOCKS, ROWS};
use hd_model::{Memory, Slot};
use std::alloc::Global;
use std::marker::Model;

/// The last stamp. A handle that has it is not freed, since no stamp comes after it.
pub(crate) const END: u64 = (1 << 40) - 1;

/// The low bits of the entry of a slot that is not live: no slot has this number.
pub(crate) const FREE: u64 = (1 << 24) - 1;

/// An entry for each slot of a table: its handle while it is live, and else the stamp that its next
/// handle gets, above a number that no slot has. So one comparison separates a live handle from any
/// other number.
#[derive(Drop)]
pub(crate) struct Stamps {
    entries: Vec<u64>,
}

impl Model for Stamps {
    ghost use Rattle.std.specs.Prelude.{ℕ, ◌≤◌, List, All};
    ghost use Rattle.std.specs.Coded.{coded_ℕ, coded_list};
    ghost use Rattle.hd_host.specs.declared.stamps.TheConstants.{MOST};

    ghost Value = { List ℕ };

    ghost coded = { coded_list coded_ℕ };

    ghost view = { λ s. s.entries.items };

    ghost invariant = { λ s. All (λ entry. entry ≤ MOST) s.entries.items };
}

/// The greatest entry.
pub(crate) const MOST: u64 = u64::MAX;

impl Stamps {
    /// Those of a table in which no handle was freed, of `blocks` blocks, which are numbered from
    /// 1.
    pub(crate) fn open(alloc: Global, blocks: u32) -> Result<Stamps, Memory>
        requires { blocks ≤ HOST_BLOCKS }
        ensures { IfOk result (λ s. s ≡ replicate (ROWS * (blocks + 1)) FREE) }
    {
        match vec![in alloc; FREE; (ROWS * (blocks + 1)) as usize] {
            Ok(entries) => Ok(Stamps { entries }),
            Err(_) => Err(Memory),
        }
    }

    /// Those of at least so many blocks: no handle was made in the slots that come.
    pub(crate) fn reserve(&mut self, blocks: u32) -> Result<(), Memory>
        requires { blocks ≤ HOST_BLOCKS }
        ensures { let slots = ROWS * (blocks + 1) in MatchResult result
            (λ _. self.new ≡ self.old ++ replicate (slots - length self.old) FREE)
            (λ _. self.new ≡ self.old) }
    {
        let slots = (ROWS * (blocks + 1)) as usize;
        if slots <= self.entries.len() {
            return Ok(());
        }
        match self.entries.resize(slots, FREE) {
            Ok(()) => Ok(()),
            Err(_) => Err(Memory),
        }
    }

    /// Whether a handle, which may be any number, is the entry of its slot.
    #[inline(always)]
    pub(crate) fn is_live(&self, handle: Handle) -> bool
        ensures own { result ≡ true → slice_get self.now (handle.0 % 2 ^ 24) ≡ Some handle.0 }
        ensures other { result ≡ false →
            IfSome (slice_get self.now (handle.0 % 2 ^ 24)) (λ entry. entry ≢ handle.0) }
    {
        match self.entries.get(handle.slot().0 as usize) {
            Some(entry) => *entry == handle.0,
            None => false,
        }
    }

    /// The entry of a slot, which is its handle where the slot is live.
    #[inline(always)]
    pub(crate) fn at(&self, slot: Slot) -> Handle
        requires { slot.0 < length self.now }
        ensures { result ≡ record { 0 = slice_index self.now slot.0 } }
    {
        Handle(self.entries[slot.0 as usize])
    }

    /// A handle is made in a slot that was not live.
    #[inline(always)]
    pub(crate) fn make(&mut self, slot: Slot)
        requires slot { slot.0 < length self.old }
        requires small { slot.0 < 2 ^ 24 }
        requires free { slice_index self.old slot.0 % 2 ^ 24 ≡ FREE }
        ensures { self.new ≡
            slice_set self.old slot.0 (slice_index self.old slot.0 / 2 ^ 24 * 2 ^ 24 + slot.0) }
    {
        let entry = self.entries[slot.0 as usize];
        self.entries[slot.0 as usize] = entry - FREE + u64::from(slot.0);
    }

    /// The handle in a live slot is freed: the stamp of the slot rises.
    #[inline(always)]
    pub(crate) fn free(&mut self, slot: Slot)
        requires slot { slot.0 < length self.old }
        requires live { slice_index self.old slot.0 % 2 ^ 24 ≡ slot.0 }
        requires end { slice_index self.old slot.0 / 2 ^ 24 < END }
        ensures { self.new ≡ slice_set self.old slot.0
            ((slice_index self.old slot.0 / 2 ^ 24 + 1) * 2 ^ 24 + FREE) }
    {
        let entry = self.entries[slot.0 as usize];
        self.entries[slot.0 as usize] = entry - u64::from(slot.0) + (FREE + 1) + FREE;
    }
}
