//! Makes public calls of the crates, on what no case of `adp_tests` can show, and tells what each gave. The calls
//! stand in `data/calls`, in the form that `data/README.md` describes; each gives a line, and the stored output says
//! what that has to be.
#![tactic(auto)]

mod calls;
mod cells;
mod codes;
mod grammars;
mod lines;
mod machines;
mod made;
mod pairs;
mod plain_texts;
mod schedules;
mod shares;
mod streams;
mod terms;

use adp_io::{StdSink, write_whole};
use anyhow::{Context, Result, bail};
use calls::{JobText, push_line};
use std::fs;

// The jobs that calls name.
const JOBS: [&str; 12] = [
    "pairs.adp",
    "pieces.adp",
    "fewest.adp",
    "length.adp",
    "line.adp",
    "two_letters.adp",
    "walks.adp",
    "doubling.adp",
    "runs.adp",
    "readings.adp",
    "lengths.adp",
    "wide.adp",
];

fn main(rt: HostRuntime) -> Result<()> {
    let mut jobs = Vec::new(rt.alloc());
    for name in JOBS {
        let text = fs::read_to_string(&rt, name).context(name)?;
        jobs.push(JobText { name, text })?;
    }
    let calls = fs::read_to_string(&rt, "calls").context("calls")?;
    let mut out = StdSink::new(rt.stdout());
    for call in calls.lines() {
        let mut line = Vec::new(rt.alloc());
        push_line(&rt, rt.alloc(), &jobs, call, &mut line)?;
        if write_whole(&mut out, &line).is_err() {
            bail!("a line is not written");
        }
    }
    Ok(())
}
