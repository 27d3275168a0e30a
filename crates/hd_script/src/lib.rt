//! Scripts: texts of lines, each with a command of a caller. They are read into one list of
//! commands for each caller.
#![tactic(auto)]

mod audit;
mod fault;
mod generated;
mod laws;
mod load;
mod numbers;
mod parsing;
mod reading;
mod scripts;
mod text;

pub use audit::parse_audit;
pub use fault::ScriptFault;
pub use generated::generate;
pub use laws::{faults_come_first, lines_make_the_bytes, lists_follow_the_lines, words_decide};
pub use load::loads_have_their_line;
pub use parsing::parse;
pub use reading::{Reading, read_line};
pub use scripts::Scripts;
pub use text::next_word;

/// What single words of a script say: none where a word does not say that.
pub mod words {
    pub use crate::numbers::{handle, number, object};
    pub use crate::reading::{fin, make, spells, strength, trimmed_kind};
}
