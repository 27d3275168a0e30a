ghost use Rattle.hd_show.specs.Laws.{EachObjectIsCountedOnce, GenerationsAlwaysAddUp, HandlesHaveOneLine, KindsAlwaysAddUp, RangesHaveTheNumbers};

/// Each live handle has exactly one line.
pub fn handles_have_one_line()
    ensures { HandlesHaveOneLine }
{}

/// The line of all kinds has the sums of the lines of the kinds.
pub fn kinds_add_up()
    ensures { KindsAlwaysAddUp }
{}

/// The line of all generations has the sums of the lines of the generations.
pub fn generations_add_up()
    ensures { GenerationsAlwaysAddUp }
{}

/// Where each object is in one region in use, the lines of the regions count each once, and so does
/// the line of all generations.
pub fn objects_are_counted_once()
    ensures { EachObjectIsCountedOnce }
{}

/// The ranges of free rows have exactly these rows, each once.
pub fn ranges_have_the_numbers()
    ensures { RangesHaveTheNumbers }
{}
