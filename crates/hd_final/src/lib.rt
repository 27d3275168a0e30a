//! The finalization queue: the objects that are queued for finalization. A collection keeps a
//! registered object that is no longer reached, with all that it leads to, and queues it after the
//! others.
#![tactic(auto)]

mod joiners;
mod queue;

pub use queue::Final;
