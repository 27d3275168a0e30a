//! A garbage-collected heap: objects in regions of 256 cells, each of one generation, with cards
//! that mark where older objects reference younger ones.
#![tactic(auto)]

mod area;
mod condemned;
mod fault;
mod fields;
mod filling;
mod forwarding;
mod heap;
mod moves;
mod notes;
mod sizes;

pub use area::CARDS;
pub use condemned::{Extent, ObjectHeader, RegionInfo, RegionObjects};
pub use fault::NewFault;
pub use fields::ObjectFields;
pub use heap::Heap;
pub use moves::{Fate, Move};
pub use sizes::{GenerationSize, Sizes};
