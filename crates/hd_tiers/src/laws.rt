// What a block is, as numbers. The function does nothing: its clause is the law.
ghost use Rattle.hd_tiers.specs.Limits.{BlocksAreThese};

/// A block has 64 numbers, and block `b` those from `64 b` on.
pub fn blocks_are_these()
    ensures { BlocksAreThese }
{}
