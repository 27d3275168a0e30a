ghost use Rattle.hd_model.specs.Laws.{SoloRunsAreOne};
ghost use Rattle.hd_model.specs.UserLaws.{FinalTakesTheFirst};

/// Two runs of the same lists of commands, each of one caller after another and without
/// addresses, are equal.
pub fn solo_runs_are_one()
    ensures { SoloRunsAreOne }
{}

/// `final` returns the first object of the queue and leaves the rest in order.
#[tactic(auto, using(crate::proofs::QueueTurns::final_takes_the_first))]
pub fn final_takes_the_first()
    ensures { FinalTakesTheFirst }
{}
