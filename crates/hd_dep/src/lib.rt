//! Dependent handles in a collection: the secondary of each whose target is promoted is promoted
//! too, and each whose target is not is cleared. After .NET's `DependentHandle` and
//! `ConditionalWeakTable`.
//!
//! A pass visits the clumps whose age is at most the collected generation, one step each. All
//! others reference older objects alone, which are kept.
//!
//! `rescan` makes passes until one promotes nothing. `follow` promotes the same in one pass, over a
//! marker that lists what it promoted, with memory that is taken before.
#![tactic(auto)]

mod clearing;
mod following;
mod rescanning;
mod waiting;

pub use clearing::clear;
pub use following::{DependentIndex, follow};
pub use rescanning::rescan;
