pub use hd_heap::{Fate, Move};

/// One condemned region by its index, its next generation if it stays, and whether it does, since
/// an object in it is pinned.
#[derive(Clone, Copy, Debug, PartialEq, Eq)]
pub struct Condemned {
    pub region: u32,
    pub generation: u8,
    pub pinned: bool,
}
