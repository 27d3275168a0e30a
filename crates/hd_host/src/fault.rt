ghost use Rattle.std.specs.Prelude.{◌≡◌};
ghost use Rattle.hd_host.specs.Inside.{fault_of};

use hd_model::Refusal;

/// Why a call of a host was refused. Where several causes hold, the first of these is returned. The
/// host is as it was.
#[derive(Clone, Copy, Debug, PartialEq, Eq)]
pub enum Fault {
    /// No such handle: it was never made, or it was freed.
    Stale,
    /// The handle's kind does not allow the call.
    WrongKind,
    /// The count of the ref-counted handle is 0 already.
    CountZero,
    /// The local, or the handle's target, is null.
    Null,
    /// The object has no such field.
    NoField,
    /// The weak table has an entry with this key.
    Present,
    /// The sizes of all objects, in cells, and the size that was asked for are together over the
    /// limit.
    HeapFull { used: u32, size: u32 },
    /// Too few blocks are unused. `given` is the number of blocks in use.
    TableFull { given: u32 },
    /// The context has made 2^32 - 1 objects, or the count, or the stamp of the handle that is
    /// freed, is at its end.
    Exhausted,
    /// Out of memory.
    Memory,
}

impl Fault {
    // The fault of a refusal of the machine. A call by a handle takes the slot of one that is live,
    // so no register is empty.
    #[inline(always)]
    pub(crate) fn of(refusal: Refusal) -> Fault
        ensures { result ≡ fault_of refusal }
    {
        match refusal {
            Refusal::NotLive | Refusal::EmptyRegister => Fault::Stale,
            Refusal::WrongKind => Fault::WrongKind,
            Refusal::CountZero => Fault::CountZero,
            Refusal::Null => Fault::Null,
            Refusal::BadField => Fault::NoField,
            Refusal::Present => Fault::Present,
            Refusal::HeapFull { used, size } => Fault::HeapFull { used, size },
            Refusal::TableFull { given } => Fault::TableFull { given },
        }
    }
}
