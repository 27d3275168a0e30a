// The limits of this crate as numbers. The function does nothing: its clause is the law.
ghost use Rattle.hd_mask.specs.Limits.{LimitsAreThese};

/// The bits of a mask are 64.
pub fn limits_are_these()
    ensures { LimitsAreThese }
{}
