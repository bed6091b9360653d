//! Evaluators: machines that share one table of answers, side by side on threads where there are any.
#![tactic(auto)]

mod crew;
mod driving;
mod finished;
mod gate;
mod gated;
mod halves;
mod in_turn;
mod schedule;
mod watcher;
mod worker;

pub use crew::{run_prepared, run_workers};
pub use driving::Door;
pub use finished::{Finished, NotedRun, RunNote};
pub use gate::{Gate, LogGate, OpenGate};
pub use gated::Way;
pub use in_turn::run_in_turn;
pub use schedule::{run_schedule, watch_schedule};
pub use watcher::{Unwatched, Watcher};
