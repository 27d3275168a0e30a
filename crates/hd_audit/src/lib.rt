//! A judge of printed runs: it decides whether a text of full lines is that of a run of a script.
//! It has a machine of its own, on maps and lists, and reads no heap and no table of the runtime.
#![tactic(auto)]

mod before;
mod entry_choice;
mod laws;
mod lines;

pub use before::{Before, state_after};
pub use entry_choice::{Entries, PinnedCells};
pub use hd_plain::{Choice, leading};
pub use laws::{one_state_before, runs_have_no_wrong_line};
pub use lines::{Verdict, audit, cut_line};
