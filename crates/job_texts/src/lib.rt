//! What the text of a job says: its tokens, lines and declarations, the job that it declares or its first fault, and
//! the canonical spelling of a job.
#![tactic(auto)]

pub mod laws;
