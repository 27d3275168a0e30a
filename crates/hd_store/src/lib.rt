//! A store of objects and handles: what the commands of a script do to the heap, the table and the
//! registers. It keeps no journal, so its memory does not grow with the number of commands.
#![tactic(auto)]

mod anchors;
mod collection;
mod collection_calls;
mod commands;
mod contents;
mod entries;
mod entry_calls;
mod filling;
mod growing;
mod handle_calls;
mod handles;
mod hosted;
mod info;
mod listing;
mod loading;
mod making;
mod object_calls;
mod objects;
mod on_entries;
mod parts;
mod pinned_addresses;
mod replies;
mod rooting;
mod sizes;
mod spare;
mod store;

pub use collection_calls::Root;
pub use contents::Contents;
pub use entry_calls::Lookup;
pub use hd_heap::{GenerationSize, Sizes as HeapSizes};
pub use hd_model::{Extra as ExtraInfo, Handle as HandleInfo};
pub use hosted::{Loaded, ObjectInfo};
pub use info::EntryInfo;
pub use store::Store;
