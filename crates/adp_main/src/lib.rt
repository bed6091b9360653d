//! The engine's top call: from the words of the command line and the bytes of a job to reports and a status.
#![tactic(auto)]

mod admitting;
mod answering;
mod behind_name;
mod best;
mod big;
mod cert;
mod checking;
mod evaluating;
mod fault;
mod groups;
mod kbest;
mod lex;
mod limits;
mod preparing;
mod replay;
mod reporting;
mod serial;
mod slot;
mod status;
mod top_call;
mod verify;
mod wins;
mod writing;

pub use behind_name::words_behind_name;
pub use checking::{CheckedJob, checked_job};
pub use fault::{reading_fault, status_of};
pub use status::Status;
pub use top_call::run;
