//! What leads from object to object in a snapshot: fields, and what handles and entries of the weak
//! table attach. Beside that, what handles hold and pin, and the anchors of `gcroot`.
//!
//! An object stands for the number of its identity, so a chain of objects is a list of numbers.
#![tactic(auto)]

mod anchors;
mod graph;
mod links;
mod pins;
mod sources;

pub use anchors::{anchors_of, push_all};
pub use graph::{Graph, fields_at, graph_of, has, sort};
pub use links::{Link, handle_again, is};
pub use pins::pinned_objects;
pub use sources::links_from;
