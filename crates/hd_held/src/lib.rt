//! `hdt_host` of `hdt.h`: an end of a host as C holds it.
#![tactic(auto)]

mod held;

pub use held::{Held, put, take};
