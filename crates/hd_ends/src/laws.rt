// What holds of all ends of a shared host. The function does nothing: its clause is the law.
ghost use Rattle.hd_ends.specs.Ends.{EndsKeepLocals};

/// What an end's locals reference is what it left there, whatever other ends did.
pub fn ends_keep_locals()
    ensures { EndsKeepLocals }
{}
