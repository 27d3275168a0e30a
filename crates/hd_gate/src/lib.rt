//! The gate before a world: one caller at a time does a command, and is offered the slot that a new
//! handle takes. `Alone` is for one thread, `Shared` for callers in threads of their own.
#![tactic(auto)]

mod alone;
mod boxed;
mod callers;
mod change;
mod laws;
mod opening;
mod shared;
mod turns;

pub use alone::Alone;
pub use callers::{Caller, Callers};
pub use laws::a_free_gate_has_the_world_of_its_journal;
pub use shared::{Closed, Shared};
