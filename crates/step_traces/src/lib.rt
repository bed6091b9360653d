//! Traces: the steps that machines make in the order of a schedule, one by one.
#![tactic(auto)]

mod trace;
mod tracing;

pub use trace::{Trace, TracedStep};
pub use tracing::{Traced, trace_schedule};
