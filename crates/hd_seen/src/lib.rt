//! What a debugger sees of a store at one moment, as plain data: objects by identity, handles by
//! slot, and what the heap and the table keep beside them.
#![tactic(auto)]

use hd_model::limits::REGISTERS;
use hd_model::{Addr, Id, Kind, Slot, Strength};

/// A caller's registers of either sort, and as many statics and entries of the board.
pub const INDEXES: usize = REGISTERS as usize;

/// An object, with the address of its first cell.
#[derive(Drop)]
pub struct SeenObject {
    pub id: Id,
    pub at: Addr,
    pub generation: u8,
    pub value: u64,
    /// Whether a finalizer is still to run for it.
    pub registered: bool,
    pub fields: Vec<Option<Id>>,
}

/// A region in use: its number, its generation, the first cell of it that no object was given yet,
/// and how many of its cards are set.
#[derive(Clone, Copy)]
pub struct SeenRegion {
    pub number: u32,
    pub generation: u8,
    pub pointer: u32,
    pub cards: u32,
}

/// What a handle has beside its target: a variable one its strength, a dependent one its secondary,
/// a ref-counted one its count.
#[derive(Clone, Copy)]
pub enum SeenExtra {
    Nothing,
    Strength(Strength),
    Secondary(Option<Id>),
    Count(u32),
}

/// A live handle, with the age of its clump.
#[derive(Clone, Copy)]
pub struct SeenHandle {
    pub slot: Slot,
    pub kind: Kind,
    pub target: Option<Id>,
    pub extra: SeenExtra,
    pub age: u8,
}

/// A slot of the weak table, with the age of its clump. Where it has no key it is idle.
#[derive(Clone, Copy)]
pub struct SeenEntry {
    pub slot: Slot,
    pub key: Option<Id>,
    pub value: Option<Id>,
    pub age: u8,
}

/// A block in use: its number, and the kind of its handles, or none where it has extra data.
#[derive(Clone, Copy)]
pub struct SeenBlock {
    pub number: u32,
    pub kind: Option<Kind>,
}

/// A store as it is at one moment. Objects come by rising identity, regions, handles and entries by
/// rising number, and blocks by kind, those of a kind in the order of its chain, and then those of
/// extra data.
#[derive(Drop)]
pub struct Snapshot {
    pub callers: u32,
    pub objects: Vec<SeenObject>,
    pub regions: Vec<SeenRegion>,
    pub handles: Vec<SeenHandle>,
    pub entries: Vec<SeenEntry>,
    pub blocks: Vec<SeenBlock>,
    pub queue: Vec<Id>,
    pub registers: Vec<[Option<Id>; INDEXES]>,
    pub handle_registers: Vec<[Option<Slot>; INDEXES]>,
    pub statics: [Option<Id>; INDEXES],
    pub board: [Option<Slot>; INDEXES],
    /// The serial of the last object that each caller made, 0 where it made none.
    pub serials: Vec<u32>,
}
