//! Why a line of a script cannot be read, in words for people: the cause, the column of the word at
//! fault, and what may have been meant.
#![tactic(auto)]

mod explaining;
mod fault;
mod forms;
mod hints;
mod laws;
mod operand;
mod script;
mod words;

pub use explaining::{Unread, push_fault, push_unread};
pub use fault::{Cause, LineFault, fault_of_line};
pub use hd_model::Operand;
pub use laws::{causes_decide_readings, words_have_columns};
pub use script::{find_fault, first_line_fault};
