ghost use Rattle.std.specs.Prelude.{◌≡◌};
ghost use Rattle.hd_model.specs.Class.{class_of};
ghost use Rattle.hd_model.specs.Valid.{takes_memory};

use crate::class::Class;
use crate::data::{Kind, Make, Strength};

/// A command of a script. The registers and board indexes of a valid one are below 16, its number
/// of fields is at most 61, and its generation at most 2.
#[derive(Clone, Copy)]
pub enum Cmd {
    /// `new rD F` or `new rD F fin`: makes an object with F null fields, with `fin` registered for
    /// finalization.
    New { d: u8, fields: u8, fin: bool },
    /// `set rO i rV`: field i of rO gets rV.
    Set { o: u8, i: u8, v: u8 },
    /// `get rD rO i`: rD gets field i of rO.
    Get { d: u8, o: u8, i: u8 },
    /// `val rO n`: the value of rO becomes n.
    Val { o: u8, n: u64 },
    /// `read rO`: returns the value of rO.
    Read { o: u8 },
    /// `copy rD rS`: rD gets rS.
    Copy { d: u8, s: u8 },
    /// `drop rD`: rD becomes null.
    Clear { d: u8 },
    /// `sput k rS`: static k gets rS.
    SPut { k: u8, s: u8 },
    /// `sget rD k`: rD gets static k.
    SGet { d: u8, k: u8 },
    /// `gen rS`: returns the generation of rS.
    Gen { s: u8 },
    /// `suppress rS`: rS is no longer registered for finalization, as by `GC.SuppressFinalize`.
    Suppress { s: u8 },
    /// `reregister rS`: rS is registered for finalization, as by `GC.ReRegisterForFinalize`.
    Reregister { s: u8 },
    /// `final rD`: moves the first object of the finalization queue to rD.
    Final { d: u8 },
    /// `collect n`: collects the generations 0 to n, as `GC.Collect`.
    Collect { n: u8 },
    /// `hnew hD KIND rT ..`: makes a handle with target rT, as `GCHandle.Alloc`; hD gets its slot.
    HNew { d: u8, make: Make, t: u8 },
    /// `hget rD hS`: rD gets the target.
    HGet { d: u8, s: u8 },
    /// `hset hS rT`: the target becomes rT.
    HSet { s: u8, t: u8 },
    /// `hsec hS rS`: the secondary of a dependent handle becomes rS.
    HSec { h: u8, s: u8 },
    /// `hdep rD hS`: rD gets the secondary of a dependent handle.
    HDep { d: u8, s: u8 },
    /// `hvar hS STRENGTH`: the strength of a variable handle changes.
    HVar { s: u8, strength: Strength },
    /// `hfree hS`: frees the handle, as `GCHandle.Free`; hS becomes empty.
    HFree { s: u8 },
    /// `hput k hS`: board index k gets the slot in hS.
    HPut { k: u8, s: u8 },
    /// `hpick hD k`: hD gets the slot at board index k.
    HPick { d: u8, k: u8 },
    /// `addr hS`: returns the address of the target of a handle that pins it.
    AddrOf { s: u8 },
    /// `hup hS`: the count of a ref-counted handle rises by one; returns the new count.
    HUp { s: u8 },
    /// `hdown hS`: the count of a ref-counted handle falls by one; returns the new count.
    HDown { s: u8 },
    /// `trim KIND`: gives back at most one block of the kind whose 64 slots are all free. The kind
    /// is short, long, strong or pinned.
    Trim { kind: Kind },
    /// `cadd rK rV`: adds the entry of key rK with value rV to the weak table, as
    /// `ConditionalWeakTable.Add`.
    CAdd { k: u8, v: u8 },
    /// `cfind rD rK`: rD gets the value of the entry of key rK, as `TryGetValue`.
    CFind { d: u8, k: u8 },
    /// `cremove rK`: takes the entry of key rK out of the weak table, as `Remove`.
    CRemove { k: u8 },
    /// `gcroot rS`: returns where a shortest chain to rS begins, after the debugger's command.
    GcRoot { s: u8 },
}

impl Cmd {
    /// What the command does, as far as memory, slots, ages, addresses and collections are
    /// concerned.
    pub fn class(self) -> Class
        ensures { result ≡ class_of self }
    {
        match self {
            Cmd::New { fields, .. } => Class::MakesObject(fields),
            Cmd::HNew { make, t, .. } => Class::TakesSlot { make, t },
            Cmd::HSet { s, t } => Class::StoresTarget { h: s, t },
            Cmd::HSec { h, .. } => Class::StoresSecondary { h },
            Cmd::HFree { .. } => Class::Frees,
            Cmd::Trim { kind } => Class::GivesBack(kind),
            Cmd::Collect { n } => Class::Collects(n),
            Cmd::AddrOf { s } => Class::RepliesAddress { h: s },
            Cmd::CAdd { k, v } => Class::AddsEntry { k, v },
            Cmd::CFind { k, .. } | Cmd::CRemove { k } => Class::LooksUp { k },
            Cmd::GcRoot { s } => Class::Searches { s },
            Cmd::Set { .. }
            | Cmd::Get { .. }
            | Cmd::Val { .. }
            | Cmd::Read { .. }
            | Cmd::Copy { .. }
            | Cmd::Clear { .. }
            | Cmd::SPut { .. }
            | Cmd::SGet { .. }
            | Cmd::Gen { .. }
            | Cmd::Suppress { .. }
            | Cmd::Reregister { .. }
            | Cmd::Final { .. }
            | Cmd::HGet { .. }
            | Cmd::HDep { .. }
            | Cmd::HVar { .. }
            | Cmd::HPut { .. }
            | Cmd::HPick { .. }
            | Cmd::HUp { .. }
            | Cmd::HDown { .. } => Class::Plain,
        }
    }

    /// Whether the command may take memory: to make an object, to collect, or to search.
    pub fn takes_memory(&self) -> bool
        ensures { result ≡ takes_memory self.now }
    {
        matches!(
            self.class(),
            Class::MakesObject(_) | Class::Collects(_) | Class::Searches { .. }
        )
    }
}
