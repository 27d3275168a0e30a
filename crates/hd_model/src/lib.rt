//! The plain data of the handle table, and the definitions that the crates above cite.
#![tactic(auto)]

pub mod anchor_laws;
mod class;
pub mod collection_laws;
mod command;
mod data;
mod forward;
mod handle;
mod held;
mod journal;
pub mod laws;
pub mod limits;
mod lists;
mod marker;
mod operand;
mod steps;
pub mod weak_laws;

pub use class::Class;
pub use command::Cmd;
pub use data::{
    Addr, Entry, Grown, Id, Kind, Make, Memory, Refusal, Reply, Report, RootId, Slot, Strength,
};
pub use forward::Forward;
pub use handle::{Extra, Handle, Role, pins_by, role_by};
pub use held::Held;
pub use journal::Journal;
pub use lists::filled;
pub use marker::{Marker, PromotionLog, is_lost};
pub use operand::Operand;
pub use steps::Steps;
