/// Why there is no new object.
#[derive(Clone, Copy, Debug, PartialEq, Eq)]
pub enum NewFault {
    /// The sizes of all objects and of the new one, in cells, are together over the limit.
    Full { used: u32, size: u32 },
    /// Out of memory.
    Memory,
}
