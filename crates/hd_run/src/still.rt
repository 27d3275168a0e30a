// Runs over a source and a sink that never fail. The function does nothing: its clause is the law.
ghost use Rattle.hd_run.specs.Still.{StillEndsNeverFail};

/// Over a source and a sink whose counts of faults are the constant 0, no status is 4 or 5.
pub fn still_ends_never_fail()
    ensures { StillEndsNeverFail }
{}
