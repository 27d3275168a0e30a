// The limit of this crate as a number. The function does nothing: its clause is the law.
ghost use Rattle.hd_cwt.specs.WeakTable.{BucketsAreThese};

/// The keys are divided into 4,096 buckets.
pub fn buckets_are_these()
    ensures { BucketsAreThese }
{}
