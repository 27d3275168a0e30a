//! Where the objects that a collection keeps go, and the moving.
#![tactic(auto)]

mod carding;
mod commits;
mod copying;
mod cursors;
mod extent;
mod forwards;
mod lay;
mod moves;
mod plan;
mod releasing;
mod rewriting;

pub use commits::commit;
pub use moves::{Condemned, Fate, Move};
pub use plan::Plan;
