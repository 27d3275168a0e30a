//! The limits of a run and of a host, each stated once, here.

/// The callers of a script, at most. They are numbered from 0.
pub const CALLERS: u32 = 16;

/// The contexts of a host, at most.
pub const HOST_CONTEXTS: u32 = 65_536;

/// The object registers, and the handle registers, of a caller; and the statics, and the board
/// indexes, that all callers share.
pub const REGISTERS: u32 = 16;

/// The fields of an object, at most.
pub const FIELDS: u32 = 61;

/// The cells of an object beside its fields.
pub const HEADER: u32 = 3;

/// The oldest generation.
pub const OLDEST: u8 = 2;

/// The cells of a region.
pub const REGION: u32 = 256;

/// The regions of a heap have numbers from 1 on, below this one. So each address is below 2 ^ 32.
pub const REGIONS: u32 = 16_777_216;

/// The cells of a card.
pub const CARD: u32 = 32;

/// The cells that are taken at least in a region which a collection leaves for a new one of its
/// generation: one more than all but those of the largest object.
pub const LEFT: u32 = REGION - (FIELDS + HEADER) + 1;

/// The regions that may end with fewer cells taken: one of each generation.
pub const OPEN: u32 = 3;

/// The limit of the sizes of all objects, in cells, where a run gives none; and the highest that it
/// may give.
pub const HEAP: u32 = 1_000_000;

/// The limit of the sizes of all objects of a host, in cells, at most.
pub const HOST_HEAP: u32 = 1_073_741_824;

/// The blocks of a table, where a run gives no number; and the most that it may give.
pub const BLOCKS: u32 = 256;

/// The blocks of a host's table, at most.
pub const HOST_BLOCKS: u32 = 65_536;

/// The kinds of handle.
pub const KINDS: u32 = 7;

/// The slots of a block.
pub const ROWS: u32 = 64;

/// The slots of a clump, which share an age.
pub const CLUMP: u32 = 16;

/// The clumps of a block.
pub const CLUMPS: u32 = 4;

/// The bytes of a script, at most.
pub const MOST_BYTES: u32 = 8_388_608;

/// The commands of a script, at most.
pub const MOST_COMMANDS: u32 = 100_000;

/// The rounds of a load, at most. Its commands are then 96,748.
pub const MOST_ROUNDS: u32 = 3_000;

/// The callers of a load.
pub const LOAD_CALLERS: u32 = 4;

/// The rounds of a load from one collection to the next.
pub const ROUNDS_TO_COLLECTION: u32 = 16;
