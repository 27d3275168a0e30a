//! A box as its pointer, and back.
#![tactic(auto)]

mod loose;

pub use loose::Loose;
