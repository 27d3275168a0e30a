//! The free slots of a table of handles, for one thread: the lowest free slot of a kind, and the
//! blocks whose slots are all free.
#![tactic(auto)]

mod pool;
mod ready;

pub use pool::Pool;
