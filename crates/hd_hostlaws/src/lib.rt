//! Laws over calls of a host, which a host has in place of runs: what its calls keep, whatever they
//! are and in whatever order.
#![tactic(auto)]

pub mod calls;
pub mod laws;
