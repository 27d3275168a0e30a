//! A dialogue with a run: each line is done, and its reply is written, before the next one is read.
#![tactic(auto)]

mod machine;
mod own;
mod progress;
mod reader;
mod session;
mod stop;

pub use machine::Machine;
pub use own::{Answer, Own, Words};
pub use session::converse;
pub use stop::Stop;
