//! Sets of small numbers with a least member: masks of numbers, and masks of those masks that have
//! a member, up to three tiers.
#![tactic(auto)]

mod laws;
mod masks;
mod numbers;
mod tier;

pub use laws::blocks_are_these;
pub use masks::{Added, Masks, Taken};
pub use numbers::{Numbers, least_between};
pub use tier::Tier;
