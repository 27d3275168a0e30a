//! A world of the blocks that have a kind, in which no slot is ever live.
ghost use Rattle.std.specs.Prelude.{◌≡◌, ℕ, ◌+◌, ◌<◌, ◌==◌, cond};

use hd_model::Held;

// The kind word of a block of strong handles.
const STRONG: u64 = 3;

/// Blocks 1 to `granted` have strong handles, and the others no kind.
#[derive(Drop)]
pub(crate) struct Pages {
    pub(crate) granted: u32,
}

impl Held for Pages {
    ghost use Rattle.std.specs.Prelude.{[], false, cond, ◌==◌, nat_lt};

    ghost numbers = { λ _. record { heap = 3; blocks = 256; callers = 64 } };

    ghost journal = { λ _. [] };

    ghost spare = { λ _. 0 };

    ghost live = { λ _ _. false };

    ghost kind = { λ t b. cond (b == 0) 0 (cond (nat_lt t.granted b) 0 3) };

    ghost sound = { λ _. Unit {0} };
}

impl Pages {
    pub(crate) fn kind_word(&self, block: u32) -> u64
        requires { 0 < block }
        ensures { result ≡ ⟦<Pages as Held>⟧.kind self.now block }
    {
        if self.granted < block { 0 } else { STRONG }
    }

    pub(crate) fn with_next(self) -> Pages
        requires { self.granted < 256 }
        ensures { (b : ℕ) → ⟦<Pages as Held>⟧.kind result b ≡ cond (self.granted + 1 == b) 3
            (⟦<Pages as Held>⟧.kind self b) }
    {
        Pages {
            granted: self.granted + 1,
        }
    }
}
