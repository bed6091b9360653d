//! Bytes that come in and go out. A source gives bytes and a sink takes them, each counts its own faults,
//! and `read_job` and `write_whole` read and write a whole text over any of them.
#![tactic(auto)]

mod clean;
mod job;
mod laws;
mod memory;
mod standard;
mod stream;
mod whole;

pub use clean::{CleanSink, CleanSource};
pub use job::{JOB_LIMIT, JobFault, PIECE_LIMIT, read_job};
pub use laws::{proper_prefix_after_whole, proper_prefix_of_more, whole_after_whole};
pub use memory::{MemSink, MemSource};
pub use standard::{StdSink, StdSource};
pub use stream::{Failed, Sink, Source};
pub use whole::{WriteFault, write_whole};
