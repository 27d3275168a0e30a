//! Where bytes come from and where they go: sources and sinks that count their faults, the calls
//! that read and write all, sources and sinks in memory, which fail as they are set or never, and
//! over the standard library's readers and writers, and the pace of callers in threads.
#![tactic(auto)]

mod calls;
mod memory_sink;
mod memory_source;
mod pace;
mod sink;
mod source;
mod still_sink;
mod still_source;
mod stream;

pub use memory_sink::MemorySink;
pub use memory_source::MemorySource;
pub use pace::{NoPace, Pace};
pub use sink::{Sink, write_all};
pub use source::{ReadFault, Source, read_all};
pub use still_sink::StillSink;
pub use still_source::StillSource;
pub use stream::{StdSink, StdSource};
use thiserror::Error;

/// A read or a write that failed. The count of faults of the source or the sink has risen.
#[derive(Clone, Copy, Debug, PartialEq, Eq, Error)]
#[error("a read or a write failed")]
pub struct Failed;
