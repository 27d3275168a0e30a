// A table of more blocks: no command does it.
ghost use Rattle.std.specs.Prelude.{◌≡◌, ◌≤◌, ◌⊎◌, ℕ, IfOk, MatchResult, None, max};
ghost use Rattle.std.specs.FinMap.{get};
ghost use Rattle.hd_store.specs.{Growth.with_blocks, Inside.HasWeakRoom};

use crate::contents::{Contents, buckets_for, open_weak};
use crate::store::Store;
use hd_cwt::Cwt;
use hd_model::Memory;
use hd_model::limits::{HOST_BLOCKS, HOST_CONTEXTS};
use std::alloc::Global;

impl Store {
    /// Makes the table one of at least `blocks` blocks. The blocks that come are unused, and the
    /// ages of their clumps are 2. It takes time by all blocks, so a caller doubles.
    pub fn reserve_blocks(&mut self, blocks: u32) -> Result<(), Memory>
        requires { blocks ≤ HOST_BLOCKS }
        ensures { MatchResult result
            (λ _. self.new ≡ with_blocks (max self.old.numbers.blocks blocks) self.old)
            (λ _. self.new ≡ self.old) }
    {
        self.contents.reserve_blocks(blocks)
    }
}

// The weak table of a table of more blocks, made anew.
fn larger_weak(alloc: Global, weak: &Cwt, blocks: u32, callers: u32) -> Result<Cwt, Memory>
    requires few { blocks ≤ HOST_BLOCKS }
    requires within { (weak.now.blocks ≤ blocks) ⊎ ((slot : ℕ) → get weak.now.held slot ≡ None) }
    ensures held { IfOk result (λ w. w.held ≡ weak.now.held) }
    ensures room { IfOk result (HasWeakRoom blocks callers) }
{
    if weak.held_count() == 0 {
        return open_weak(alloc, blocks, callers);
    }
    weak.larger(alloc, blocks, buckets_for(blocks, callers))
}

impl Contents {
    // The same.
    fn reserve_blocks(&mut self, blocks: u32) -> Result<(), Memory>
        requires blocks { blocks ≤ HOST_BLOCKS }
        requires callers { self.old.numbers.callers ≤ HOST_CONTEXTS }
        ensures { MatchResult result
            (λ _. self.new ≡ with_blocks (max self.old.numbers.blocks blocks) self.old)
            (λ _. self.new ≡ self.old) }
    {
        let before = self.ages.blocks();
        let most = blocks.max(before);
        let weak = larger_weak(self.alloc, &self.weak, most, self.callers())?;
        self.ages.reserve(most)?;
        match self.table.reserve(most) {
            Ok(()) => {
                self.weak = weak;
                Ok(())
            }
            Err(_) => {
                self.ages.cut(before);
                Err(Memory)
            }
        }
    }
}
