ghost use Rattle.std.specs.Prelude.{ℕ, Bool, List};
ghost use Rattle.hd_model.specs.State.{Numbers};
ghost use Rattle.hd_model.specs.declared.data.Entry.{Entry};

/// What one caller at a time holds: a table of handles with the journal of what was done. It has no
/// calls: what is declared here is seen by contracts alone.
pub trait Held: Drop {
    /// The numbers of the run, which no call changes.
    ghost numbers: { Self → Numbers };

    /// The entries so far.
    ghost journal: { Self → List Entry };

    /// The number of further entries that there is room for.
    ghost spare: { Self → ℕ };

    /// Whether a slot, by its number, is live.
    ghost live: { Self → ℕ → Bool };

    /// The kind word of a block, by its number: 0 where it has no use, one more than the number of
    /// the kind where it has handles of one, and 8 where it has extra data.
    ghost kind: { Self → ℕ → ℕ };

    /// What is so of it whenever nobody has it. An implementer may set it to what always holds.
    ghost sound: { Self → Type 0 };
}
