//! One region of a garbage-collected heap: 256 cells of 64 bits that hold objects.
//!
//! An object takes three cells and one for each field. Objects and gaps follow one another from
//! offset 0 up to the region's allocation pointer. Nothing here takes memory.
#![tactic(auto)]

mod cells;
mod constants;
mod region;

pub use cells::{CELLS, FIELDS, HEADER};
pub use constants::limits_are_these;
pub use region::{Header, Region};
