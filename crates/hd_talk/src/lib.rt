//! A dialogue with a run of one thread: each line is done and answered before the next one is read,
//! and between commands the state is shown.
#![tactic(auto)]

mod answers;
mod dialogue;
mod holders;
mod played;
mod slots;
mod text;
mod words;

pub use answers::Debugger;
pub use dialogue::talk;
pub use played::{Played, seen_in};
pub use slots::slot_text;
