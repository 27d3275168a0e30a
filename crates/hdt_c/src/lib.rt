//! The handle table and heap of `hd_host` for C: an export for each function of `hdt.h`.
#![tactic(auto)]

mod arguments;
mod held;
mod numbers;
mod on_blocks;
mod on_ends;
mod on_entries;
mod on_handles;
mod on_host;
mod on_lists;
mod on_locals;
mod on_objects;
mod on_sizes;
mod on_wide;
mod own;
mod parts;
mod status;
mod version;
