//! A pass of a collection over the handles of one kind: what holds its target promotes it, what is
//! weak loses a target that is not promoted, and a reference to a moved object gets its forwarding
//! address.
//!
//! A pass visits the clumps whose age is at most the collected generation, one step each. All
//! others reference older objects alone, which are kept where they are.
#![tactic(auto)]

mod clearing;
mod gathering;
mod passes;
mod relocation;
mod roots;
mod task;

pub use clearing::clear;
pub use gathering::{Root, gather, gather_alone};
pub use passes::pass;
pub use relocation::relocate;
pub use roots::promote;
pub use task::Task;
