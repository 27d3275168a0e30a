// What is true of every script. The functions do nothing: their clauses are the laws.
ghost use Rattle.hd_script.specs.Laws.{LinesMakeTheBytes, ListsFollowTheLines, WordsDecide, FaultsComeFirst};

/// The lines and their ends together are the bytes.
pub fn lines_make_the_bytes()
    ensures { LinesMakeTheBytes }
{}

/// Each caller's list is the commands of its lines, in their order.
pub fn lists_follow_the_lines()
    ensures { ListsFollowTheLines }
{}

/// Comments, blanks, empty lines and the form of line ends change no list.
pub fn words_decide()
    ensures { WordsDecide }
{}

/// A script is refused for the first line that has no reading or is a command with 100,000 above
/// it. If there is no such line, it is not refused.
pub fn faults_come_first()
    ensures { FaultsComeFirst }
{}
