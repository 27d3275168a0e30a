// What is true of every run of a generated script. The function does nothing: its clause is the
// law.
ghost use Rattle.hd_script.specs.Load.{LoadsHaveTheirLine};

/// Every run of the script of a load, with a heap of 1,000,000 cells and a table of 256 blocks,
/// prints the same line, whatever the order of its callers.
pub fn loads_have_their_line()
    ensures { LoadsHaveTheirLine }
{}
