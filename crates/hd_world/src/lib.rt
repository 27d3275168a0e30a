//! The world of objects and handles: a store, with the journal of all that was done.
#![tactic(auto)]

mod world;

pub use world::World;
