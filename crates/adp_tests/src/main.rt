//! Tries the top call on cases: words and bytes in, bytes and a status out. Before them it runs the top call with a gate
//! and sinks of its own, and tells what stands in no report. Runs and cases stand in `data/`, in the form that
//! `data/README.md` describes; each gives a line, of a run the stored output says what that has to be, and the last line
//! says how many cases pass.
#![tactic(auto)]

mod bytes;
mod case;
mod gates;
mod runs;
mod script;
mod sinks;
mod wins;

use anyhow::{Context, Result};
use runs::JobText;
use std::fs;

// The jobs that runs name.
const JOBS: [&str; 5] = ["pq.adp", "empty.adp", "three.adp", "long.adp", "chain.adp"];

// The files of cases, in order.
const FILES: [&str; 16] = [
    "first.cases",
    "commands.cases",
    "texts.cases",
    "grammars.cases",
    "answers.cases",
    "faults.cases",
    "workers.cases",
    "replay.cases",
    "lex.cases",
    "certificates.cases",
    "lists.cases",
    "wide.cases",
    "sizes.cases",
    "nested.cases",
    "nested_certificates.cases",
    "nested_lists.cases",
];

fn main(rt: HostRuntime) -> Result<()> {
    let mut jobs = Vec::new(rt.alloc());
    for name in JOBS {
        let text = fs::read_to_string(&rt, name).context(name)?;
        jobs.push(JobText { name, text })?;
    }
    let runs = fs::read_to_string(&rt, "runs").context("runs")?;
    for line in runs.lines() {
        if !line.is_empty() && !line.starts_with('#') {
            println!(rt; "{line}:{}", runs::told(&rt, rt.alloc(), &jobs, line)?)?;
        }
    }
    let mut passed = 0u32;
    let mut failed = 0u32;
    for file in FILES {
        let text = fs::read_to_string(&rt, file).context(file)?;
        for outcome in script::outcomes(&rt, rt.alloc(), text.as_str())? {
            if outcome.difference.is_empty() {
                passed = passed.saturating_add(1);
                println!(rt; "ok {}", outcome.name)?;
            } else {
                failed = failed.saturating_add(1);
                println!(rt; "FAILED {}: {}", outcome.name, outcome.difference)?;
            }
        }
    }
    println!(rt; "{passed} passed, {failed} failed")?;
    Ok(())
}
