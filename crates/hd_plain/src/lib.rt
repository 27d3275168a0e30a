//! A plain handle machine on maps: it takes one command at a time, with the choice that a line
//! states of what the state leaves open, and has its own collection and search for an object's root.
#![tactic(auto)]

mod choice;
mod collecting;
mod entries;
mod levels;
mod machine;
mod making;
mod marks;
mod objects;
mod parts;
mod rooting;
mod step;

pub use choice::{Choice, leading};
pub use entries::add_entry;
pub use machine::Machine;
pub use making::{is_all_free, is_free, make_handle, may_give, reply_address, trim};
