ghost use Rattle.std.specs.Prelude.{◌≡◌};
ghost use Rattle.hd_script.specs.declared.fault.ScriptFault.TheVariants.{Memory};

use std::alloc::AllocError;
use thiserror::Error;

/// Why a script was not read.
#[derive(Clone, Copy, Debug, PartialEq, Eq, Error)]
pub enum ScriptFault {
    /// The first line that has no reading, or that is the 100,001st command. Lines are numbered
    /// from 1.
    #[error("line {0} has no reading, or one command too many")]
    Line(u32),
    /// Out of memory. The script may be right or wrong.
    #[error("out of memory")]
    Memory,
}

impl From<AllocError> for ScriptFault {
    ghost from_gives = { λ _ e. e ≡ Memory };

    fn from(_fault: AllocError) -> ScriptFault {
        ScriptFault::Memory
    }
}
