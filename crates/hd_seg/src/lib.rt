//! The table of handles: blocks of 64 rows, one kind of handle to a block, and for each kind the
//! chain of its blocks.
//!
//! The extra of a row (its strength, count or secondary) is stored in the block's data block.
//! All memory is taken when a table is opened or made larger.
#![tactic(auto)]

mod block;
mod blocks;
mod chains;
mod change;
mod lists;
mod row;
mod seg;
mod unused;
mod writes;

pub use change::rewrite_row;
pub use hd_model::Extra;
pub use row::{BlockKind, Full, Row};
pub use seg::Seg;
