// Why a dialogue ended early.
ghost use Rattle.std.specs.Prelude.{◌≡◌};
ghost use Rattle.hd_step.specs.Inside.{stop_of};

use hd_io::ReadFault;
use thiserror::Error;

/// Why a dialogue ended before its source did.
#[derive(Clone, Copy, Debug, PartialEq, Eq, Error)]
pub enum Stop {
    #[error("a read failed")]
    Unread,
    #[error("there is more to read than a script may have")]
    TooLong,
    #[error("out of memory")]
    Memory,
    #[error("a write failed")]
    Unwritten,
}

/// Not all was read.
pub(crate) fn unread(fault: ReadFault) -> Stop
    ensures { result ≡ stop_of fault }
{
    match fault {
        ReadFault::Failed => Stop::Unread,
        ReadFault::TooLong => Stop::TooLong,
        ReadFault::Memory => Stop::Memory,
    }
}
