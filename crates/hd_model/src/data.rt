ghost use Rattle.std.specs.Prelude.{◌≡◌, ◌<◌};
ghost use Rattle.hd_model.specs.Kinds.{kind_of, kind_number, is_paired, secondary_register};
ghost use Rattle.hd_model.specs.declared.limits.TheConstants.{KINDS};

use crate::command::Cmd;

/// The identity of an object: its caller's number times 2^32, plus a serial of that caller, from 1.
/// It is never 0, and no object gets one that another had.
#[derive(Clone, Copy, Debug, PartialEq, Eq)]
pub struct Id(pub u64);

/// The address of an object, in cells: its region times 256, plus the offset of its first cell. It
/// is never 0.
#[derive(Clone, Copy, Debug, PartialEq, Eq)]
pub struct Addr(pub u32);

/// The slot of a handle: its block, from 1, times 64, plus its row. It is never 0.
#[derive(Clone, Copy, Debug, PartialEq, Eq)]
pub struct Slot(pub u32);

/// A handle that holds its target, as a root does: its slot, its kind, and the object that it
/// holds.
#[derive(Clone, Copy, Debug, PartialEq, Eq)]
pub struct RootId {
    pub slot: Slot,
    pub kind: Kind,
    pub id: Id,
}

/// Out of memory.
#[derive(Clone, Copy, Debug, PartialEq, Eq)]
pub struct Memory;

/// The kinds of handle, after the handle types of CoreCLR.
#[derive(Clone, Copy, Debug, PartialEq, Eq)]
pub enum Kind {
    /// A weak handle that is cleared when its target is found unreachable, before finalization.
    Short,
    /// A weak handle that keeps its target while finalization keeps the object alive.
    Long,
    /// A handle that keeps its target alive.
    Strong,
    /// A strong handle whose target does not move.
    Pinned,
    /// A handle that carries its strength.
    Variable,
    /// A handle with a count: strong while the count is above 0, and else as a weak long one, after
    /// CoreCLR's ref-counted handles.
    Counted,
    /// A handle whose secondary lives as long as its target, which it does not keep alive.
    Dependent,
}

impl Kind {
    /// All kinds, by their numbers.
    pub const ALL: [Kind; 7] = [
        Kind::Short,
        Kind::Long,
        Kind::Strong,
        Kind::Pinned,
        Kind::Variable,
        Kind::Counted,
        Kind::Dependent,
    ];

    /// The number of the kind. The words and cells of the custody table, and the chains of blocks,
    /// are in this order.
    pub fn number(self) -> u32
        ensures value { result ≡ kind_number self }
        ensures small { result < KINDS }
    {
        match self {
            Kind::Short => 0,
            Kind::Long => 1,
            Kind::Strong => 2,
            Kind::Pinned => 3,
            Kind::Variable => 4,
            Kind::Counted => 5,
            Kind::Dependent => 6,
        }
    }

    /// Whether a handle of this kind has extra data, which is stored in a data block beside its
    /// block.
    pub fn paired(self) -> bool
        ensures { result ≡ is_paired self }
    {
        match self {
            Kind::Short | Kind::Long | Kind::Strong | Kind::Pinned => false,
            Kind::Variable | Kind::Counted | Kind::Dependent => true,
        }
    }
}

/// The strength of a variable handle.
#[derive(Clone, Copy, Debug, PartialEq, Eq)]
pub enum Strength {
    Short,
    Long,
    Strong,
    Pinned,
}

/// What a command makes: a kind of handle with what that kind needs, for a dependent one the
/// register of its secondary.
#[derive(Clone, Copy, Debug, PartialEq, Eq)]
pub enum Make {
    Short,
    Long,
    Strong,
    Pinned,
    Variable(Strength),
    /// Its count is 1 at first.
    Counted,
    Dependent(u8),
}

impl Make {
    /// The kind that is made.
    pub fn kind(self) -> Kind
        ensures { result ≡ kind_of self }
    {
        match self {
            Make::Short => Kind::Short,
            Make::Long => Kind::Long,
            Make::Strong => Kind::Strong,
            Make::Pinned => Kind::Pinned,
            Make::Variable(_) => Kind::Variable,
            Make::Counted => Kind::Counted,
            Make::Dependent(_) => Kind::Dependent,
        }
    }

    /// The register of the secondary, where a dependent handle is made.
    pub fn secondary(self) -> Option<u8>
        ensures { result ≡ secondary_register self }
    {
        match self {
            Make::Dependent(r) => Some(r),
            Make::Short
            | Make::Long
            | Make::Strong
            | Make::Pinned
            | Make::Variable(_)
            | Make::Counted => None,
        }
    }
}

/// How the blocks in use changed: not at all, by a new block of handles, by a new block of handles
/// and its data block, or by a block that was given back.
#[derive(Clone, Copy, Debug, PartialEq, Eq)]
pub enum Grown {
    Zero,
    One(u32),
    Two(u32, u32),
    Back(u32),
}

/// What a collection did, in objects and in handles.
#[derive(Clone, Copy, Debug, PartialEq, Eq)]
pub struct Report {
    /// The objects of the condemned generations that stay.
    pub kept: u32,
    /// The objects that are removed.
    pub removed: u32,
    /// The weak short handles, and the variable ones of that strength, whose target became null.
    pub short: u32,
    /// The weak long handles, the variable ones of that strength, and the ref-counted ones, whose
    /// target became null.
    pub long: u32,
    /// The dependent handles whose two parts became null, and the entries that left the weak table.
    pub dep: u32,
    /// The objects that joined the finalization queue.
    pub revived: u32,
}

/// Why a command was refused. Where several causes hold, the first of these is returned: empty
/// register, slot that is not live, wrong kind, count of 0, null, bad field, key that is present,
/// full heap, full table.
#[derive(Clone, Copy, Debug, PartialEq, Eq)]
pub enum Refusal {
    /// The register, or the handle's target, is null.
    Null,
    /// The object has no such field.
    BadField,
    /// The sizes of all objects, in cells, and the size that was asked for are together over the
    /// limit.
    HeapFull { used: u32, size: u32 },
    /// Too few blocks are unused. `given` is the number of blocks in use.
    TableFull { given: u32 },
    /// The slot holds no handle.
    NotLive,
    /// The handle's kind does not allow the command.
    WrongKind,
    /// The handle register is empty.
    EmptyRegister,
    /// The count of the ref-counted handle is 0 already.
    CountZero,
    /// The weak table has an entry with this key, as `ConditionalWeakTable.Add` throws.
    Present,
}

/// What a command returns.
#[derive(Clone, Copy, Debug, PartialEq, Eq)]
pub enum Reply {
    Done,
    Object(Id),
    Nothing,
    Value(u64),
    Generation(u8),
    Place(u32),
    Report(Report),
    NoneQueued,
    /// The weak table has no entry with this key.
    Absent,
    /// Where a shortest chain from an anchor to the object begins, and its number of edges.
    Chain { from: Id, arrows: u32 },
    /// No chain leads from an anchor to the object.
    Unrooted,
    Refused(Refusal),
}

/// One command of one caller with its reply. `slot` is the slot that was given to a handle or an
/// entry of the weak table, an idle one too, or freed, and `grown` how the blocks in use changed.
#[derive(Clone, Copy)]
pub struct Entry {
    pub caller: u32,
    pub cmd: Cmd,
    pub slot: Option<Slot>,
    pub grown: Grown,
    pub reply: Reply,
}
