//! Custody of the slots of a handle table, by many callers and without a lock.
//!
//! A `Custody` keeps a world behind a gate, and beside it shared words that say which slots are
//! free. A caller has a `Seat`. It allocates, releases and gathers slots by single steps on the
//! words; for all else it enters the gate, which gives it the world, and leaves it again. Each slot
//! is in exactly one place, so no slot is given twice and none is lost.
//!
//! ```text
//! gate         0 free, 1 taken. enter: 0 -> 1, takes the world.  leave: stores the world, 1 -> 0
//! world        in the table's slot while the gate is free, else with the caller that has the gate
//! kind   [b]   0 none, kind + 1, or extra data. grant and withdraw store it, all others load it
//! mask   [b]   a bit for each row: a free slot of block b
//! quick  [k]   0 or a free slot ---+
//! reserve[k]   63 cells, each so --+-- the cache of kind k; its slots are in blocks of that kind
//! free   [k]   63 cells, each so --+
//! allocate     quick, reserve and free: exchange with 0, until a slot comes; else each block: load
//!              kind, exchange mask with 0, load kind: one row is kept, others to reserve or back
//! release      exchange into quick, what was there into free[0], free[1], ..; the last: mask
//!
//! beside the table, and in no rule: what a caller who waits for the gate looks at and sleeps on
//! gate         looked at, and tried again once it is free. Nobody sleeps on it
//! nap          0, or 1 where somebody may sleep on it. leave takes the 1 back and wakes one
//! asked        how many who looked for long ask those who newly come to give way
//! ```
#![tactic(auto)]

mod calls;
mod gate;
mod laws;
mod plays;
mod rule;
mod steps;
mod types;
mod view;
mod waiting;
mod words;

pub use laws::{
    a_free_gate_has_the_world, each_slot_is_in_one_place, misses_found_none, numbers_are_these,
};
pub use types::{Custody, Seat};
pub use view::{Limits, View};
