//! Machines that follow a schedule, and the words of their table afterwards.

use crate::codes::cell_of;
use crate::lines::{push_field, push_flag, push_list, push_no_call, push_signed_field, push_text};
use adp_model::{Answer, Answers, Problem};
use evaluators::{Finished, run_schedule};
use memo_words::Rest;
use std::alloc::{AllocError, Global};

/// Appends how machines ended, where the numbers are that of the machines, a seed, how often, and the entries of a
/// schedule that come so often.
pub(crate) fn push_schedule(
    alloc: Global,
    problem: &Problem<'_>,
    numbers: &[u64],
    out: &mut Vec<u8>,
) -> Result<(), AllocError> {
    match scheduled(alloc, &*problem, numbers)? {
        Some(finished) => push_finished(&finished, out),
        None => push_no_call(out),
    }
}

/// Appends the words of the table when the machines have stopped: the counter, then the keys, the record words, the
/// scores and the choices.
pub(crate) fn push_words(
    alloc: Global,
    problem: &Problem<'_>,
    numbers: &[u64],
    out: &mut Vec<u8>,
) -> Result<(), AllocError> {
    match scheduled(alloc, &*problem, numbers)? {
        Some(finished) => push_rest(finished.closed.words(), out),
        None => push_no_call(out),
    }
}

/// Appends the answer of a cell that the table has when the machines have stopped.
pub(crate) fn push_cell_answer(
    alloc: Global,
    problem: &Problem<'_>,
    numbers: &[u64],
    out: &mut Vec<u8>,
) -> Result<(), AllocError> {
    let [rule, from, to, rest @ ..] = numbers else {
        return push_no_call(out);
    };
    let Some(cell) = cell_of(&[*rule, *from, *to]) else {
        return push_no_call(out);
    };
    match scheduled(alloc, &*problem, rest)? {
        Some(finished) => push_found(finished.closed.answer(cell), out),
        None => push_no_call(out),
    }
}

fn push_found(answer: Option<Answer>, out: &mut Vec<u8>) -> Result<(), AllocError> {
    match answer {
        Some(answer) => push_answer(answer, out),
        None => push_text(out, " no answer"),
    }
}

/// What machines left that followed a schedule.
fn scheduled<'a>(
    alloc: Global,
    problem: &'a Problem<'a>,
    numbers: &[u64],
) -> Result<Option<Finished<'a>>, AllocError> {
    match numbers {
        [machines @ 1..=32, seed, times @ 0..=100, entries @ ..] => {
            let schedule = repeated(alloc, entries, *times)?;
            let machines = *machines as u32;
            Ok(Some(run_schedule(alloc, problem, machines, *seed, &schedule)?))
        }
        _ => Ok(None),
    }
}

fn repeated(alloc: Global, entries: &[u64], times: u64) -> Result<Vec<u8>, AllocError> {
    let mut schedule = Vec::new(alloc);
    for _time in 0..times {
        for entry in entries {
            schedule.push(u8::try_from(*entry).unwrap_or(u8::MAX))?;
        }
    }
    Ok(schedule)
}

/// Appends the answer, the number of cells, and the wins and moves of the machines, and whether each has ended.
fn push_finished(finished: &Finished<'_>, out: &mut Vec<u8>) -> Result<(), AllocError> {
    push_answer(finished.answer, out)?;
    push_field(out, ", cells ", finished.demanded_cells())?;
    push_list(out, ", wins", &finished.wins)?;
    push_text(out, ", moves")?;
    for machine in &finished.machines {
        push_field(out, " ", machine.moves())?;
    }
    push_text(out, ", ended")?;
    for machine in &finished.machines {
        push_flag(out, "", machine.ended())?;
    }
    Ok(())
}

/// Appends a score and a choice.
fn push_answer(answer: Answer, out: &mut Vec<u8>) -> Result<(), AllocError> {
    match answer {
        Answer::NoCandidate => push_text(out, " no candidate"),
        Answer::Best { score, choice } => {
            push_signed_field(out, " score ", score)?;
            push_field(out, " by ", u64::from(choice.alt))?;
            for cut in choice.cuts {
                push_field(out, " ", u64::from(cut))?;
            }
            Ok(())
        }
    }
}

fn push_rest(rest: &Rest, out: &mut Vec<u8>) -> Result<(), AllocError> {
    push_field(out, " ", rest.counter())?;
    push_text(out, ", keys")?;
    for position in 0..rest.slots() {
        push_field(out, " ", rest.key(position))?;
    }
    push_text(out, ", names")?;
    for position in 0..rest.slots() {
        push_field(out, " ", rest.record_word(position))?;
    }
    push_text(out, ", scores")?;
    for number in 0..rest.records() {
        push_field(out, " ", rest.score(number))?;
    }
    push_text(out, ", choices")?;
    for number in 0..rest.records() {
        push_field(out, " ", rest.choice(number))?;
    }
    Ok(())
}
