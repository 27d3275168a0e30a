//! Why an object lives: a shortest chain of edges to it from one of the anchors. Where several
//! anchors begin one, it is that of least identity.
//!
//! The walk is breadth first. Anchors enter in rising identity, so that what is found first is
//! found from the least of them. It costs what it reaches, the blocks of dependent handles, and a
//! sort of the anchors.
#![tactic(auto)]

mod anchors;
mod chain;
mod dependents;
mod finding;
mod graph;

pub use chain::Chain;
pub use finding::search;
