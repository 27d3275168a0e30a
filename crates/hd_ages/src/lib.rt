//! The ages of clumps: sixteen slots of the handle table share an age, after CoreCLR's table.
//!
//! An age is at most the generation of each object that the live rows of its clump reference, so a
//! collection may skip each clump with an age above the generation that it collects. The four ages
//! of a block are one word. `DueRows` walks the live rows of one kind in the other clumps.
//!
//! The map has one age that no clump is below. Where a collection collects only generations below
//! it, no chain is walked and no age is raised.
#![tactic(auto)]

mod age_map;
mod due_rows;
mod word;

pub use age_map::AgeMap;
pub use due_rows::{DueRows, count_due, pass_due};
