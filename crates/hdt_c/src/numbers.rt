// The numbers of `hdt.h`. The function does nothing: its clause is the law.
ghost use Rattle.hdt_c.specs.Numbers.{NumbersAreThese};

/// Every status, kind, strength and flag of `hdt.h`, and the version of the interface, as a
/// numeral. No two statuses, kinds or strengths have one number.
#[tactic(auto, using(crate::proofs::HeaderNumbers::numbers_are_these))]
pub fn numbers_are_these()
    ensures { NumbersAreThese }
{}
