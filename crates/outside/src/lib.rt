//! The outside as traits: where bytes come from and where they go, with forms in memory.
#![tactic(auto)]

mod failed;
mod failing_calls;
mod mem_sink;
mod mem_source;
mod parts;
mod read_fault;
mod sink;
mod source;

pub use failed::Failed;
pub use failing_calls::{FailingCalls, count_call, starve};
pub use mem_sink::MemSink;
pub use mem_source::MemSource;
pub use parts::copy_from;
pub use read_fault::{ReadFault, read_all};
pub use sink::{Sink, write_all};
pub use source::Source;
