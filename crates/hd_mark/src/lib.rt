//! The marks of one collection over a heap: what is promoted, what is pinned, and what is still to
//! be scanned.
#![tactic(auto)]

mod bits;
mod indexes;
mod marks;

pub use marks::Marks;
