use hd_model::{Addr, Extra, Kind};

/// A live row: the address that its handle references, or null, and its extra.
#[derive(Clone, Copy, Debug, PartialEq, Eq)]
pub struct Row {
    pub target: Option<Addr>,
    pub extra: Extra<Addr>,
}

/// What a block is used for.
#[derive(Clone, Copy, Debug, PartialEq, Eq)]
pub enum BlockKind {
    Unused,
    /// Rows of one kind of handle.
    Rows(Kind),
    /// The extras of the rows of another block.
    Extras,
}

/// Too few blocks are unused. `given` is the number of blocks in use.
#[derive(Clone, Copy, Debug, PartialEq, Eq)]
pub struct Full {
    pub given: u32,
}
