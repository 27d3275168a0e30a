//! A collection of a generation and all younger ones: it marks what is kept, clears the weak and
//! the dependent handles of what is not, queues the objects that are to be finalized, and moves
//! what is kept, after CoreCLR's collector.
//!
//! A `Tracer` has all memory that the marking takes, before the first change. Its marking makes it
//! `Marked`, whose clearing lays the plan by which objects move. What no step looks at was ruled
//! out by the ages of clumps and by cards.
#![tactic(auto)]

mod clearing;
mod collection;
mod marking;
mod moving;
mod phases;
mod roots;

pub use collection::collect;
