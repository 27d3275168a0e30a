// The statuses of `hdt.h`.
ghost use Rattle.std.specs.Prelude.{◌≡◌, MatchResult};
ghost use Rattle.hdt_c.specs.Status.{status_of};

use hd_host::Fault;

pub(crate) const OK: u32 = 0;

pub(crate) const CLOSED: u32 = 1;

pub(crate) const IS_OPEN: u32 = 2;

pub(crate) const ARGUMENT: u32 = 3;

pub(crate) const NO_MEMORY: u32 = 4;

pub(crate) const EXHAUSTED: u32 = 5;

pub(crate) const STALE: u32 = 6;

pub(crate) const WRONG_KIND: u32 = 7;

pub(crate) const COUNT_ZERO: u32 = 8;

pub(crate) const NULL: u32 = 9;

pub(crate) const NO_FIELD: u32 = 10;

pub(crate) const PRESENT: u32 = 11;

pub(crate) const HEAP_FULL: u32 = 12;

pub(crate) const TABLE_FULL: u32 = 13;

pub(crate) const NONE: u32 = 14;

pub(crate) const BUSY: u32 = 15;

pub(crate) const ROOM: u32 = 16;

/// The status of a fault.
pub(crate) fn status_of(fault: Fault) -> u32
    ensures { result ≡ status_of fault }
{
    match fault {
        Fault::Memory => NO_MEMORY,
        Fault::Exhausted => EXHAUSTED,
        Fault::Stale => STALE,
        Fault::WrongKind => WRONG_KIND,
        Fault::CountZero => COUNT_ZERO,
        Fault::Null => NULL,
        Fault::NoField => NO_FIELD,
        Fault::Present => PRESENT,
        Fault::HeapFull { .. } => HEAP_FULL,
        Fault::TableFull { .. } => TABLE_FULL,
    }
}

/// The status of what is done or refused.
pub(crate) fn status(done: Result<(), Fault>) -> u32
    ensures { MatchResult done (λ _. result ≡ OK) (λ fault. result ≡ status_of fault) }
{
    match done {
        Ok(()) => OK,
        Err(fault) => status_of(fault),
    }
}
