// What is so of verdicts. These functions do nothing: they are there for their contracts.
ghost use Rattle.hd_audit.specs.Before.{OneStateBefore};
ghost use Rattle.hd_audit.specs.Laws.{RunsHaveNoWrongLine};

/// The full text of a run has no line that is wrong or missing: at most one verdict is right.
#[tactic(auto, using(crate::proofs::RunTexts::runs_have_no_wrong_line))]
pub fn runs_have_no_wrong_line()
    ensures { RunsHaveNoWrongLine }
{}

/// After the same lines there is one state.
#[tactic(auto, using(crate::proofs::LinesBefore::one_state_before))]
pub fn one_state_before()
    ensures { OneStateBefore }
{}
