// How much a store has of each generation, and how many slots of its table are free.
ghost use Rattle.std.specs.Prelude.{◌≡◌, ◌↔◌, ℕ, ◌+◌, ◌*◌, ◌^◌, ◌<◌, ◌≤◌, true, Some, None, IsSome};
ghost use Rattle.std.specs.FinMap.{get};
ghost use Rattle.hd_model.specs.Counting.{Counts};
ghost use Rattle.hd_model.specs.{declared.data.Slot.Slot, State.IsFree, State.block_of, State.handles_of};
ghost use Rattle.hd_store.specs.Sizes.{HasSize, IsFreeRow, IsWhole};

use crate::contents::Contents;
use hd_heap::Sizes;
use hd_mask::count;
use hd_model::Kind;
use hd_model::limits::ROWS;
use hd_seg::{BlockKind, Seg};

impl Contents {
    /// How much it has of each generation, by numbers that the heap keeps.
    pub fn sizes(&self) -> Sizes
        ensures youngest { HasSize self.now 0 result.youngest }
        ensures middle { HasSize self.now 1 result.middle }
        ensures oldest { HasSize self.now 2 result.oldest }
        ensures whole { IsWhole self.now result }
    {
        self.heap.sizes()
    }

    /// The number of free slots of a kind. It looks at each block with a use, and reads the masks of
    /// those of the kind.
    pub fn free_slots(&self, kind: Kind) -> u32
        ensures { Counts (IsFree self.now.state kind) result }
    {
        free_slots(&self.table, kind)
    }

    /// The number of slots that the weak table holds without an entry.
    pub fn idle_slots(&self) -> u32
        ensures { Counts (λ (slot : ℕ). get self.now.state.weak slot ≡ Some None) result }
    {
        self.weak.idle_count()
    }
}

// The number of free slots of a kind in a table.
fn free_slots(table: &Seg, kind: Kind) -> u32
    requires few { ROWS * (table.now.blocks + 1) < 2 ^ 32 }
    requires within { (block : ℕ) → IsSome (get table.now.uses block) →
        (1 ≤ block) × (block ≤ table.now.blocks) }
    ensures { Counts (IsFreeRow table.now kind) result }
{
    let mut free = 0;
    let mut before = 0;
    while let Some(block) = table.next_given(before + 1) {
        free += free_in(table, block, kind);
        before = block;
    }
    free
}

// Those of one block.
fn free_in(table: &Seg, block: u32, kind: Kind) -> u32
    requires low { 1 ≤ block }
    requires high { block ≤ table.now.blocks }
    ensures free { Counts (λ (slot : Slot). IsFreeRow table.now kind slot
        × (block_of slot ≡ block)) result }
    ensures few { result ≤ ROWS }
{
    if is_of(table, block, kind) {
        count(!table.live_rows(block))
    } else {
        0
    }
}

// Whether a block has handles of a kind.
fn is_of(table: &Seg, block: u32, kind: Kind) -> bool
    requires low { 1 ≤ block }
    requires high { block ≤ table.now.blocks }
    ensures { (result ≡ true) ↔ (get table.now.uses block ≡ Some (handles_of kind)) }
{
    match table.block_kind(block) {
        BlockKind::Rows(of) => of.number() == kind.number(),
        BlockKind::Unused | BlockKind::Extras => false,
    }
}
