// The limits and the layout of this crate as numbers. The function does nothing: its clause is the
// law.
ghost use Rattle.hd_cells.specs.Limits.{LimitsAreThese};

/// The limits and the layout of a region, as numbers.
pub fn limits_are_these()
    ensures { LimitsAreThese }
{}
