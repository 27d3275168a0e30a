ghost use Rattle.hd_print.specs.EntryLines.{FullLinesDetermineEntries};
ghost use Rattle.hd_print.specs.VerdictLaws.{RightLinesHaveEnds, OneLineIsWrong};

/// For a given command the full line of an entry determines the entry and its number.
#[tactic(auto, using(crate::proofs::FullLineReadBack::full_lines_determine_entries))]
pub fn full_lines_determine_entries()
    ensures { FullLinesDetermineEntries }
{}

/// A line without its end is not right.
#[tactic(auto, using(crate::proofs::RightLines::right_lines_have_ends))]
pub fn right_lines_have_ends()
    ensures { RightLinesHaveEnds }
{}

/// A text has at most one number of a line that is not right.
#[tactic(auto, using(crate::proofs::RightLines::one_line_is_wrong))]
pub fn one_line_is_wrong()
    ensures { OneLineIsWrong }
{}
