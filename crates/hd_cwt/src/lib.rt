//! The weak table that all callers share, after .NET's ConditionalWeakTable: which slots of
//! dependent handles it holds, and which key is in which of them.
#![tactic(auto)]

mod cwt;
mod entries;
mod keyed;
mod laws;
mod rings;

pub use cwt::Cwt;
pub use laws::buckets_are_these;
