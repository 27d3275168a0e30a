// What the state before a line leaves open: the entries that a command may have.
use hd_model::{Entry, Id, Kind};

/// The entries that a command of a caller may have.
#[derive(Clone, Copy)]
pub enum Entries {
    /// One, which is found by making the step.
    OfTheStep,
    /// This one.
    One(Entry),
    /// Those that give a new row of this kind a slot, and where the table is full the refusal.
    InSlot(Kind),
    /// Those that return an address that is free for this object.
    AtAddress(Id),
    /// Those that give back a block of this kind whose slots are all free, and the one that gives
    /// back none.
    OfBlock(Kind),
}

/// The cells of an object with a pinned address: the first one, and how many.
#[derive(Clone, Copy, Debug, PartialEq, Eq)]
pub struct PinnedCells {
    pub first: u32,
    pub count: u32,
}
