// The structs of `hdt.h`.

/// `hdt_limits`.
#[repr(C)]
#[derive(Clone, Copy)]
pub struct Limits {
    pub cells: u32,
    pub blocks: u32,
    pub contexts: u32,
}

/// `hdt_report`.
#[repr(C)]
#[derive(Clone, Copy)]
pub struct Report {
    pub kept: u32,
    pub removed: u32,
    pub cleared_short: u32,
    pub cleared_long: u32,
    pub cleared_dependent: u32,
    pub revived: u32,
}

/// `hdt_stats_out`.
#[repr(C)]
#[derive(Clone, Copy)]
pub struct Stats {
    pub objects: u32,
    pub cells: u32,
    pub handles: u32,
    pub blocks: u32,
    pub queued: u32,
}

/// `hdt_handle_info`.
#[repr(C)]
#[derive(Clone, Copy)]
pub struct Info {
    pub handle: u64,
    pub target: u64,
    pub kind: u32,
    pub extra: u32,
}

/// `hdt_object_out`.
#[repr(C)]
#[derive(Clone, Copy)]
pub struct Object {
    pub id: u64,
    pub value: u64,
    pub fields: u32,
    pub generation: u32,
    pub finalizable: u32,
}

/// `hdt_root`.
#[repr(C)]
#[derive(Clone, Copy)]
pub struct Root {
    pub from: u64,
    pub arrows: u32,
}

/// `hdt_change`.
#[repr(C)]
#[derive(Clone, Copy)]
pub struct Change {
    pub slot: u32,
    pub block: u32,
    pub data_block: u32,
    pub given_back: u32,
    pub turn: u64,
}

/// `hdt_sizes_out`.
#[repr(C)]
#[derive(Clone, Copy)]
pub struct Sizes {
    pub objects: [u32; 3],
    pub cells: [u32; 3],
    pub regions: [u32; 3],
    pub free_slots: [u32; 7],
    pub idle_slots: u32,
}
