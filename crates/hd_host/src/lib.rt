//! A handle table over a collected heap, for a host program: what the commands of a script do, as
//! calls, with handles by value. It keeps no journal, so a host runs as long as it likes.
#![tactic(auto)]

mod change;
mod collecting;
mod fault;
mod growing;
mod handle;
mod handles;
mod host;
mod kinds;
mod last;
mod objects;
mod observing;
mod sizes;
mod stamps;
mod trimming;
mod weak;
mod wide;

pub use change::Change;
pub use fault::Fault;
pub use handle::Handle;
pub use hd_store::{
    ExtraInfo, GenerationSize, HandleInfo, HeapSizes, Loaded, Lookup, ObjectInfo, Root,
};
pub use host::{Host, Limits};
pub use last::Last;
pub use observing::{Listed, Stats};
pub use sizes::Sizes;
