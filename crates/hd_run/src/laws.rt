// What is true of every run, and the limits as numbers. The functions do nothing: their clauses are
// the laws.
ghost use Rattle.hd_run.specs.Laws.{LimitsAreThese, PartsFollowTheTurns};

/// Each caller's list is the commands of its part of the journal, and then those that are left.
pub fn parts_follow_the_turns()
    ensures { PartsFollowTheTurns }
{}

/// The limits and defaults of the words, the most bytes of a script, and the statuses, as numbers.
pub fn limits_are_these()
    ensures { LimitsAreThese }
{}
