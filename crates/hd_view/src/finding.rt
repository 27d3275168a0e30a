// What is found in the input of `why`, before it is written.
ghost use Rattle.std.specs.Prelude.{◌≡◌};
ghost use Rattle.hd_view.specs.Findings.{found_status};

use hd_print::Text;
use hd_run::Fault;

/// What is found.
#[derive(Drop)]
pub(crate) enum Finding {
    Refused(Fault),
    /// The text is that of a run.
    Run,
    /// It is not: this is written of it.
    NoRun(Text),
}

impl Finding {
    pub(crate) fn status(&self) -> u8
        ensures { result ≡ found_status self.now }
    {
        match self {
            Finding::Refused(fault) => fault.status(),
            Finding::Run => 0,
            Finding::NoRun(_) => 7,
        }
    }
}
