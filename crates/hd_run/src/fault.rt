// Why nothing was run or judged.
ghost use Rattle.std.specs.Prelude.{◌≡◌};
ghost use Rattle.hd_run.specs.Ending.{unparsed_fault, unread_fault};
ghost use Rattle.hd_run.specs.Report.{fault_status, fault_text};

use crate::report::{MEMORY, line_of, numbered_line};
use hd_io::ReadFault;
use hd_print::Line;
use hd_script::ScriptFault;

const USAGE: &str =
    "usage: hdt solo|run|load|roots|audit [--heap CELLS] [--blocks COUNT] [--rounds N] [--slots]\n";

/// Why nothing was run or judged.
#[derive(Clone, Copy, Debug, PartialEq, Eq)]
pub enum Fault {
    /// The words ask for nothing.
    Usage,
    /// A read failed.
    Unread,
    /// There are more bytes than are taken.
    OverSize,
    /// This line of the input, from 1, is at fault, or is missing.
    BadLine(u32),
    /// Memory ran out.
    NoMemory,
}

impl Fault {
    /// The status that the program returns.
    pub fn status(self) -> u8
        ensures { result ≡ fault_status self }
    {
        match self {
            Fault::Usage => 2,
            Fault::OverSize | Fault::BadLine(_) => 3,
            Fault::Unread => 4,
            Fault::NoMemory => 6,
        }
    }

    /// The line that the program writes.
    pub fn line(self) -> Line
        ensures { result ≡ fault_text self }
    {
        let text = match self {
            Fault::Usage => USAGE,
            Fault::Unread => "fault read\n",
            Fault::OverSize => "fault size\n",
            Fault::NoMemory => MEMORY,
            Fault::BadLine(number) => return numbered_line("fault line ", number),
        };
        line_of(text)
    }
}

/// Not all was read.
pub fn unread(fault: ReadFault) -> Fault
    ensures { result ≡ unread_fault fault }
{
    match fault {
        ReadFault::Failed => Fault::Unread,
        ReadFault::TooLong => Fault::OverSize,
        ReadFault::Memory => Fault::NoMemory,
    }
}

/// The bytes are not what they were to be: a script, or the input of an audit.
pub fn unparsed(fault: ScriptFault) -> Fault
    ensures { result ≡ unparsed_fault fault }
{
    match fault {
        ScriptFault::Line(number) => Fault::BadLine(number),
        ScriptFault::Memory => Fault::NoMemory,
    }
}
