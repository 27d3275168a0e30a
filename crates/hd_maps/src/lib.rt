//! Maps by number, in which a plain machine keeps its state: objects, handles and blocks, the
//! entries of the weak table, and pinned addresses.
#![tactic(auto)]

mod data;
mod numbered;
mod pinned_addresses;
mod store;
mod table;
mod weak;

pub use data::{BlockUse, Edit, Handle, Object, WeakEntry, is_kind, raised};
pub use numbered::{Numbered, copied};
pub use pinned_addresses::PinnedAddresses;
pub use store::Objects;
pub use table::Table;
pub use weak::Weak;
