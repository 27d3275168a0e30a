//! What a command does to the free slots of a table: what is offered to it, and what becomes of
//! slots and blocks when it is done.
#![tactic(auto)]

mod change;

pub use change::{Change, change_of, note, note_slot, offer};
