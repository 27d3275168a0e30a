// What is true of every line. The functions do nothing: their clauses are the laws.
ghost use Rattle.hd_faults.specs.Laws.{CausesDecideReadings, WordsHaveColumns};

/// Words have no cause exactly where they have a reading.
pub fn causes_decide_readings()
    ensures { CausesDecideReadings }
{}

/// The words of a line that columns are given are those of the grammar.
pub fn words_have_columns()
    ensures { WordsHaveColumns }
{}
