//! Laws of the machine that no crate cites, in a user's words.
#![tactic(auto)]

pub mod anchor_laws;
pub mod collection_laws;
pub mod command_laws;
pub mod laws;
pub mod text_laws;
pub mod weak_laws;
