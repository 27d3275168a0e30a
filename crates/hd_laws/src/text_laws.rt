ghost use Rattle.hd_laws.specs.TextLaws.{TextsAreThese, CallersCountTheirLines};
ghost use Rattle.hd_laws.specs.TextLaws.{TextsGiveSlotsAndBlocks, EmptyTextsLackLineOne};
ghost use Rattle.hd_laws.specs.ReadingLaws.{ReadingsAreThese};
ghost use Rattle.hd_laws.specs.LineLaws.{LinesAreThese, WrongLinesAreNumbered};
ghost use Rattle.hd_laws.specs.TableLaws.{LoadsAreThese};

/// The text of a worked journal of three callers, plain and full, the text of each reply, the name
/// of each kind, and the line of a load, are these bytes.
#[tactic(auto, using(crate::proofs::JournalTexts::texts_are_these))]
pub fn texts_are_these()
    ensures { TextsAreThese }
{}

/// Each entry of a journal has one line. The first line of a caller has the number 1, and each next
/// one of that caller one more.
#[tactic(auto, using(crate::proofs::JournalTexts::callers_count_their_lines))]
pub fn callers_count_their_lines()
    ensures { CallersCountTheirLines }
{}

/// An empty text is that of no run for its line 1, which is missing.
#[tactic(auto, using(crate::proofs::JournalTexts::empty_texts_lack_line_one))]
pub fn empty_texts_lack_line_one()
    ensures { EmptyTextsLackLineOne }
{}

/// The end of a full line gives the slot of its entry, and the blocks that came into use or
/// were given back.
pub fn texts_give_slots_and_blocks()
    ensures { TextsGiveSlotsAndBlocks }
{}

/// A line of each command, with the operands at the ends of their ranges, is read as that command;
/// lines past these ends have no reading; and a worked script has its lists.
#[tactic(auto, using(crate::proofs::WorkedLines::readings_are_these))]
pub fn readings_are_these()
    ensures { ReadingsAreThese }
{}

/// The commands of a load: its kinds go round by six, its collections by three after each 16th
/// round, and one round is written out.
#[tactic(auto, using(crate::proofs::WorkedTables::loads_are_these))]
pub fn loads_are_these()
    ensures { LoadsAreThese }
{}

/// The line of one of each command, and of an `hnew` of each kind, and a worked list of roots.
#[tactic(auto, using(crate::proofs::NumberedLines::lines_are_these))]
pub fn lines_are_these()
    ensures { LinesAreThese }
{}

/// Lines are cut after each byte 10. The line that a verdict names has a number from 1 to one more
/// than there are lines, and it is 1 where the first line is not right.
#[tactic(auto, using(crate::proofs::NumberedLines::wrong_lines_are_numbered))]
pub fn wrong_lines_are_numbered()
    ensures { WrongLinesAreNumbered }
{}
