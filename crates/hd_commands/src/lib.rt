//! The commands that the state decides, each written once over the parts of a machine.
#![tactic(auto)]

mod commands;
mod done;
pub mod on_handles;
pub mod on_objects;
mod parts;

pub use commands::carry_out;
pub use done::{
    CommandResult, Done, addressing, aging, counting, entry_of, freeing, load_reply, loading, made,
    making, plainly, queued_reply, reading,
};
pub use parts::Parts;
