//! Replies, journal entries and the end of a run as lines of text, and a whole journal to a sink.
//! Nothing here takes memory but a `Text`.
#![tactic(auto)]

mod command;
mod end;
mod entries;
mod laws;
mod line;
mod reply;
mod roots;
mod text;

pub use command::{command_line, kind_name, strength_name};
pub use end::{end_line, load_line};
pub use entries::{Form, entry_line, full_line, write_entries, write_full, write_lines};
pub use laws::{full_lines_determine_entries, one_line_is_wrong, right_lines_have_ends};
pub use line::Line;
pub use reply::reply_line;
pub use roots::{root_line, roots_line};
pub use text::Text;
