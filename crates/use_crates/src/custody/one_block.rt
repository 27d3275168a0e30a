// A world of one block, in which no slot is ever live.
ghost use Rattle.std.specs.Prelude.{◌≡◌, ℕ, ◌==◌, cond};

use hd_model::Held;

// The kind word of a block of strong handles.
const STRONG: u64 = 3;

/// Block 1, by its kind word: it has strong handles or no kind.
#[derive(Drop)]
pub(crate) struct OneBlock {
    pub(crate) word: u64,
}

impl Held for OneBlock {
    ghost use Rattle.std.specs.Prelude.{[], false, cond, ◌==◌};

    ghost numbers = { λ _. record { heap = 3; blocks = 1; callers = 2 } };

    ghost journal = { λ _. [] };

    ghost spare = { λ _. 0 };

    ghost live = { λ _ _. false };

    ghost kind = { λ t b. cond (1 == b) t.word 0 };

    ghost sound = { λ _. Unit {0} };
}

impl OneBlock {
    /// The kind word of block 1.
    pub(crate) fn kind_word(&self) -> u64
        ensures { result ≡ ⟦<OneBlock as Held>⟧.kind self.now 1 }
    {
        self.word
    }

    /// The block has strong handles now.
    pub(crate) fn with_strong(self) -> OneBlock
        ensures { (b : ℕ) → ⟦<OneBlock as Held>⟧.kind result b ≡ cond (1 == b) 3
            (⟦<OneBlock as Held>⟧.kind self b) }
    {
        OneBlock { word: STRONG }
    }
}
