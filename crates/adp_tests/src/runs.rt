//! Runs of the top call on a job, over streams that never fail: what stands in no report.

use crate::gates::{CountingGate, WordsGate};
use crate::script::command;
use crate::sinks::PieceSink;
use adp_io::CleanSource;
use adp_main::run;
use adp_model::{Answer, push_quoted};
use evaluators::{Gate, NotedRun, RunNote};
use std::alloc::{AllocError, Global};
use std::thread::Threads;

/// A job that runs name.
#[derive(Drop)]
pub(crate) struct JobText {
    pub(crate) name: &'static str,
    pub(crate) text: String,
}

/// What is told of a run, or of one that no line of the file means.
pub(crate) fn told<R: Threads + Sync>(
    rt: &R,
    alloc: Global,
    jobs: &[JobText],
    line: &str,
) -> Result<String, AllocError> {
    let mut out = String::new(alloc);
    let (name, rest) = first_word(line);
    let (file, rest) = first_word(rest);
    match job_of(jobs, file) {
        Some(job) => push_told(rt, alloc, job, name, rest, &mut out)?,
        None => out.push_str(" no run")?,
    }
    Ok(out)
}

/// The first word of a line, and the rest.
fn first_word(line: &str) -> (&str, &str) {
    line.split_once(' ').unwrap_or((line, ""))
}

/// The text of the job of this name.
fn job_of<'j>(jobs: &'j [JobText], name: &str) -> Option<&'j str> {
    for job in jobs {
        if job.name == name {
            return Some(job.text.as_str());
        }
    }
    None
}

fn push_told<R: Threads + Sync>(
    rt: &R,
    alloc: Global,
    job: &str,
    name: &str,
    rest: &str,
    out: &mut String,
) -> Result<(), AllocError> {
    match name {
        "run" => push_run(rt, alloc, job, rest, out),
        "meet" | "in-step" => push_meeting(rt, alloc, job, name, rest, out),
        "side-by-side" => push_side_by_side(rt, alloc, job, rest, out),
        _ => out.push_str(" no run"),
    }
}

/// Appends the status of a run, in how many pieces its output came, how often the gate was passed, and the notes.
fn push_run<R: Threads + Sync>(
    rt: &R,
    alloc: Global,
    job: &str,
    words: &str,
    out: &mut String,
) -> Result<(), AllocError> {
    let mut gate = CountingGate::new(alloc, 0);
    push_gated_run(rt, alloc, job, words, &mut gate, out)?;
    push_passes(alloc, gate.passes(), out)?;
    push_notes(alloc, gate.notes(), out)
}

/// Appends how two words ran whose first workers were to meet at the gate so often: whether they did, and the notes.
fn push_side_by_side<R: Threads + Sync>(
    rt: &R,
    alloc: Global,
    job: &str,
    rest: &str,
    out: &mut String,
) -> Result<(), AllocError> {
    let (meetings, words) = first_word(rest);
    let mut gate = WordsGate::new(alloc, meetings.parse::<u64>().unwrap_or(0));
    push_gated_run(rt, alloc, job, words, &mut gate, out)?;
    push_flag(", met", gate.have_met(), out)?;
    push_notes(alloc, gate.notes(), out)
}

/// Appends how two workers ran that were to meet at the gate so often: whether they did, how often each passed where
/// they ran in step, and whether their moves are as many as so many passes take.
fn push_meeting<R: Threads + Sync>(
    rt: &R,
    alloc: Global,
    job: &str,
    name: &str,
    rest: &str,
    out: &mut String,
) -> Result<(), AllocError> {
    let (meetings, words) = first_word(rest);
    let mut gate = CountingGate::new(alloc, meetings.parse::<u64>().unwrap_or(0));
    push_gated_run(rt, alloc, job, words, &mut gate, out)?;
    push_flag(", met", gate.have_met(), out)?;
    if name == "in-step" {
        push_passes(alloc, gate.passes(), out)?;
    }
    for note in gate.notes() {
        push_flag(", moves fit", moves_fit(&gate.passes(), note.note()), out)?;
    }
    Ok(())
}

/// Whether each worker made as many moves as its passes take. Each pass stands in a look of its own, behind a load of a
/// key. Where m cells are demanded, a look takes at most 2m + 5 steps, and a publication four.
fn moves_fit(passes: &[u64], note: &RunNote) -> bool {
    let most = note.cells.saturating_mul(2).saturating_add(9);
    passes.iter().zip(note.moves.as_slice()).all(|(passes, moves)| {
        passes.saturating_mul(2) <= *moves && *moves <= passes.saturating_mul(most)
    })
}

/// Runs the program, and appends the status and in how many pieces its output came.
fn push_gated_run<R: Threads + Sync, G: Gate>(
    rt: &R,
    alloc: Global,
    job: &str,
    words: &str,
    gate: &mut G,
    out: &mut String,
) -> Result<(), AllocError> {
    let words = command(alloc, words)?;
    let mut input = CleanSource::new(Vec::from_slice(alloc, job.as_bytes())?);
    let mut sink = PieceSink::new(alloc)?;
    let mut error = PieceSink::new(alloc)?;
    let status = run(rt, alloc, &words, &mut input, &mut sink, &mut error, gate).number();
    let (pieces, bytes) = (sink.pieces(), sink.bytes().len());
    let written = format!(in alloc; " status {status}, pieces {pieces} of {bytes} bytes")?;
    out.push_str(written.as_str())?;
    push_number(alloc, " and", error.pieces(), out)
}

fn push_flag(name: &str, flag: bool, out: &mut String) -> Result<(), AllocError> {
    out.push_str(name)?;
    out.push_str(if flag { " yes" } else { " no" })
}

fn push_number(alloc: Global, name: &str, number: u64, out: &mut String) -> Result<(), AllocError> {
    out.push_str(format!(in alloc; "{name} {number}")?.as_str())
}

fn push_passes(alloc: Global, passes: [u64; 2], out: &mut String) -> Result<(), AllocError> {
    let [first, others] = passes;
    out.push_str(format!(in alloc; ", passes {first} {others}")?.as_str())
}

/// Appends the notes of runs.
fn push_notes(alloc: Global, notes: &[NotedRun], out: &mut String) -> Result<(), AllocError> {
    for note in notes {
        push_note(alloc, note.note(), out)?;
    }
    Ok(())
}

/// Appends a note of a run.
fn push_note(alloc: Global, note: &RunNote, out: &mut String) -> Result<(), AllocError> {
    let mut word = Vec::new(alloc);
    push_quoted(&mut word, note.word.bytes())?;
    out.push_str("; ")?;
    for byte in &word {
        out.push(char::from(*byte))?;
    }
    push_number(alloc, " algebra", u64::from(note.algebra), out)?;
    push_number(alloc, " seed", note.seed, out)?;
    push_answer(alloc, note.answer, out)?;
    push_number(alloc, " cells", note.cells, out)?;
    push_numbers(alloc, " wins", note.wins.as_slice(), out)?;
    push_numbers(alloc, " moves", note.moves.as_slice(), out)?;
    for ended in note.ended.as_slice() {
        out.push_str(if *ended { " ended" } else { " stopped" })?;
    }
    Ok(())
}

/// Appends a score and a choice.
fn push_answer(alloc: Global, answer: Answer, out: &mut String) -> Result<(), AllocError> {
    match answer {
        Answer::NoCandidate => out.push_str(" no candidate"),
        Answer::Best { score, choice } => {
            let [one, other, third] = choice.cuts;
            let alt = choice.alt;
            let told = format!(in alloc; " score {score} by {alt} {one} {other} {third}")?;
            out.push_str(told.as_str())
        }
    }
}

fn push_numbers(
    alloc: Global,
    name: &str,
    numbers: &[u64],
    out: &mut String,
) -> Result<(), AllocError> {
    out.push_str(name)?;
    for number in numbers {
        push_number(alloc, "", *number, out)?;
    }
    Ok(())
}
