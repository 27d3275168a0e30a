//! Why objects live: for each the least of the shortest chains from an anchor to it, as a text.
#![tactic(auto)]

mod chains;
mod laws;
mod names;
mod paths;
mod text;
mod words;

pub use laws::{chains_begin_at_roots, no_chain_is_unrooted};
pub use paths::push_paths;
pub use words::read_id;
