//! One thread's end of a host: of a host of its own, or of one that up to sixteen ends share and
//! take in turn.
//!
//! ```text
//! End::Own       the host itself, with all its contexts
//! End::Shared    a share of a gate, behind which the host is; `each` contexts from
//!                number * each on; and what the end's own last call did
//!
//! a call         enter: the gate's turn, and the host gets the end's own `last`
//!                the call, in a context of the end
//!                leave: the end keeps `last`, and the gate is free
//! ```
#![tactic(auto)]

mod behind;
mod end;
mod laws;
mod opening;
mod sharer;

pub use end::{End, Shared};
pub use laws::ends_keep_locals;
pub use opening::share;
pub use sharer::Sharer;
