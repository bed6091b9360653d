//! The program `adp-trace`: the steps of machines that follow a schedule, a line for each.
//!
//! It takes the options of the mode `replay` and a job on its standard input, of which it answers the first word.
#![tactic(auto)]

ghost use Rattle.std.specs.Prelude.{◌≤◌, IfErr, length};
ghost use Rattle.report.specs.Faults.{HasShortName};
ghost use Rattle.verdicts.specs.Command.{ReadsJob};
ghost use Rattle.verdicts.specs.Verdict.{greatest_length};

mod lines;
mod step_lines;
mod words;

use crate::lines::push_trace;
use crate::words::words;
use adp_io::{Sink, Source, StdSink, StdSource, read_job, write_whole};
use adp_main::{CheckedJob, Status, checked_job, reading_fault, status_of};
use adp_model::{Problem, Text};
use command_words::{Usage, read_words, schedule_entries};
use grammar_check::{AdmitError, Checked, admit};
use report::{Fault, fault_line};
use std::alloc::Global;
use std::io;
use std::process::ExitCode;
use step_traces::trace_schedule;
use verdicts::Command;

fn main(rt: HostRuntime) -> ExitCode {
    let status = match answer_streams(&rt) {
        Ok(()) => Status::Done,
        Err(fault) => {
            // A line that cannot be written changes nothing else.
            let _ = write_whole(&mut StdSink::new(rt.stderr()), fault_line(&fault).bytes());
            status_of(&fault)
        }
    };
    ExitCode::from(status.number())
}

/// Reads the job on the standard input and writes the trace to the standard output.
fn answer_streams(rt: &HostRuntime) -> Result<(), Fault>
    ensures { IfErr result HasShortName }
{
    let mut input = StdSource::new(rt.stdin());
    let mut out = StdSink::new(rt.stdout());
    answer(rt, rt.alloc(), &mut input, &mut out)
}

/// Reads the job and writes the trace of its first word.
fn answer<S: Source, K: Sink>(
    rt: &HostRuntime,
    alloc: Global,
    input: &mut S,
    out: &mut K,
) -> Result<(), Fault>
    ensures { IfErr result HasShortName }
{
    let words = match words(rt) {
        Ok(words) => words,
        Err(error) => return Err(words_fault(error)),
    };
    let command = match read_words(&words) {
        Ok(command) => command,
        Err(Usage) => return Err(Fault::Usage),
    };
    answer_command(alloc, &command, input, out)
}

/// Reads the command's job and writes the trace of its first word.
fn answer_command<S: Source, K: Sink>(
    alloc: Global,
    command: &Command<'_>,
    input: &mut S,
    out: &mut K,
) -> Result<(), Fault>
    ensures { IfErr result HasShortName }
{
    if !command.reads_job() {
        return Err(Fault::Usage);
    }
    match read_job(alloc, input) {
        Ok(bytes) => answer_job(alloc, command, &bytes, out),
        Err(fault) => Err(reading_fault(fault)),
    }
}

/// Writes the trace of the first word of the job that these bytes spell.
fn answer_job<K: Sink>(
    alloc: Global,
    command: &Command<'_>,
    bytes: &[u8],
    out: &mut K,
) -> Result<(), Fault>
    requires reads { ReadsJob command.now.mode }
    requires fits { length bytes.now ≤ greatest_length }
    ensures { IfErr result HasShortName }
{
    let job = checked_job(alloc, command, bytes)?;
    let text = trace_text(alloc, command, &job)?;
    match write_whole(out, &text) {
        Ok(()) => Ok(()),
        Err(_) => Err(Fault::Write),
    }
}

/// The trace of the first word; nothing where there is no word.
fn trace_text(alloc: Global, command: &Command<'_>, job: &CheckedJob) -> Result<Vec<u8>, Fault>
    ensures { IfErr result HasShortName }
{
    match job.words.as_slice().first() {
        Some(word) => word_trace(alloc, command, &job.checked, word),
        None => Ok(Vec::new(alloc)),
    }
}

/// The trace of a word, where it keeps the limits.
fn word_trace(
    alloc: Global,
    command: &Command<'_>,
    checked: &Checked,
    word: &Text,
) -> Result<Vec<u8>, Fault>
    ensures { IfErr result HasShortName }
{
    match admit(alloc, checked, word) {
        Ok(problem) => problem_trace(alloc, command, &problem),
        Err(error) => Err(admit_fault(error)),
    }
}

/// The trace of a problem.
fn problem_trace(
    alloc: Global,
    command: &Command<'_>,
    problem: &Problem<'_>,
) -> Result<Vec<u8>, Fault>
    ensures { IfErr result HasShortName }
{
    command.in_range();
    let schedule = schedule_entries(alloc, command)?;
    let traced = trace_schedule(alloc, problem, command.workers, command.seed, &schedule)?;
    let mut text = Vec::new(alloc);
    push_trace(&mut text, command.seed, problem, &traced)?;
    Ok(text)
}

/// The fault of a first word that passes a limit.
fn admit_fault(error: AdmitError) -> Fault
    ensures { HasShortName result }
{
    match error {
        AdmitError::Fault(fault) => Fault::Limit { word: 1, fault },
        AdmitError::Memory => Fault::Memory,
    }
}

/// The fault of words that were not taken: those that are no text are no command.
fn words_fault(error: io::Error) -> Fault
    ensures { HasShortName result }
{
    match error.kind() {
        io::ErrorKind::OutOfMemory => Fault::Memory,
        _ => Fault::Usage,
    }
}
