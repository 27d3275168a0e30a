//! A walk along the edges of a graph, breadth first.
//!
//! Nodes are numbers. A graph is what implements `Edges`. The nodes that a walk begins with are
//! added to a `Trail`, which has all that is found, in order, each with the index of the one before
//! it: a chain that is read back is a shortest one. Where starts and the targets of each node come
//! in an order, it is the least of the shortest by that order.
#![tactic(auto)]

mod chain;
mod edges;
mod trail;
mod walking;

pub use chain::read_back;
pub use edges::Edges;
pub use trail::{Found, Trail};
pub use walking::walk;
