// A world of two blocks, in which no slot is ever live.
ghost use Rattle.std.specs.Prelude.{◌≡◌, ℕ, ◌<◌, ◌≤◌, ◌==◌, false, cond, IfOk};

use hd_custody::{Custody, Seat};
use hd_model::{Held, Memory};
use std::alloc::Global;

/// Blocks 1 and 2, by their kind words.
#[derive(Drop)]
pub(crate) struct Blocks {
    pub(crate) first: u64,
    pub(crate) second: u64,
}

impl Held for Blocks {
    ghost use Rattle.std.specs.Prelude.{[], false, cond, ◌==◌};

    ghost numbers = { λ _. record { heap = 3; blocks = 2; callers = 2 } };

    ghost journal = { λ _. [] };

    ghost spare = { λ _. 0 };

    ghost live = { λ _ _. false };

    ghost kind = { λ t b. cond (b == 1) t.first (cond (b == 2) t.second 0) };

    ghost sound = { λ _. Unit {0} };
}

impl Blocks {
    pub(crate) fn kind_word(&self, block: u32) -> u64
        requires { (0 < block) × (block < 3) }
        ensures { result ≡ ⟦<Blocks as Held>⟧.kind self.now block }
    {
        if block == 1 { self.first } else { self.second }
    }

    pub(crate) fn with(self, block: u32, word: u64) -> Blocks
        requires { (0 < block) × (block < 3) }
        ensures { (b : ℕ) → ⟦<Blocks as Held>⟧.kind result b ≡ cond (block == b) word
            (⟦<Blocks as Held>⟧.kind self b) }
    {
        if block == 1 {
            Blocks {
                first: word,
                second: self.second,
            }
        } else {
            Blocks {
                first: self.first,
                second: word,
            }
        }
    }
}

pub(crate) fn open(alloc: Global, blocks: u32) -> Result<(Custody<Blocks>, Seat<Blocks>), Memory>
    requires { (1 ≤ blocks) × (blocks ≤ 2) }
    ensures { IfOk result (λ r. (r.1.table ≡ r.0.table) × (r.0.blocks ≡ blocks)
        × (r.1.view.number ≡ 0) × (r.1.view.has_gate ≡ false)) }
{
    let world = Blocks {
        first: 0,
        second: 0,
    };
    Custody::open(alloc, blocks, world)
}
