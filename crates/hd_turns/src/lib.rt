//! A value that several ends take in turn, each in a thread of its own, by a gate that is tried and
//! never waited for. All turns of all ends are one history, which exists in the proofs alone.
//!
//! ```text
//! gate    0 while an end has its turn, else the history's length: its first entry is the opening
//! value   in the table's slot while the gate is free, else with the end that has its turn
//!
//! try_enter    looks at the gate; where it is free: n -> 0, if it still is n, and takes the value.
//!              So up to LOOKS times, with pauses that double. An end that has turn number n then
//! leave        stores the value, and then the gate: 0 -> n + 1
//! ```
#![tactic(auto)]

mod end;
mod gate;
mod pauses;
mod rule;

pub use end::End;
pub use gate::LOOKS;
pub use rule::{Turn, View};
