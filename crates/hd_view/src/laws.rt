// What is so of what is shown. These functions do nothing: they are there for their contracts.
ghost use Rattle.hd_view.specs.Accepted.{NamedLinesMayCome};
ghost use Rattle.hd_view.specs.Stated.{FullLinesStateParts};

/// Where these are all commands that are due, the lines that are named are exactly those that may
/// come.
#[tactic(auto, using(crate::proofs::NamedLines::named_lines_may_come))]
pub fn named_lines_may_come()
    ensures { NamedLinesMayCome }
{}

/// Each full line states something.
#[tactic(auto, using(crate::proofs::StatedLines::full_lines_state_parts))]
pub fn full_lines_state_parts()
    ensures { FullLinesStateParts }
{}
