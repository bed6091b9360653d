//! The lines of a trace: what is traced, the steps, and how the machines ended.

use crate::step_lines::{push_step, push_text};
use adp_model::{Answer, Problem, push_decimal, push_quoted, push_signed};
use report::push_wins;
use std::alloc::AllocError;
use step_traces::Traced;

/// Appends the whole trace.
pub(crate) fn push_trace(
    out: &mut Vec<u8>,
    seed: u64,
    problem: &Problem<'_>,
    traced: &Traced<'_>,
) -> Result<(), AllocError> {
    push_head(out, seed, problem, traced)?;
    for (place, step) in traced.steps.iter().enumerate() {
        push_step(out, place as u64 + 1, step)?;
    }
    push_answer(out, traced)?;
    push_wins(out, &traced.finished.wins)
}

/// Appends the lines of the word, of the machines and their seed, of the table's words, and of the rules by number.
fn push_head(
    out: &mut Vec<u8>,
    seed: u64,
    problem: &Problem<'_>,
    traced: &Traced<'_>,
) -> Result<(), AllocError> {
    let words = traced.finished.closed.words();
    push_text(out, "word ")?;
    push_quoted(out, problem.word.bytes())?;
    push_text(out, "\n")?;
    push_number_line(out, "machines ", traced.finished.machines.len() as u64)?;
    push_number_line(out, "seed ", seed)?;
    push_number_line(out, "positions ", u64::from(words.slots()))?;
    push_number_line(out, "records ", u64::from(words.records()))?;
    for (number, rule) in problem.grammar.rules.as_slice().iter().enumerate() {
        push_text(out, "rule ")?;
        push_decimal(out, number as u64)?;
        push_text(out, " ")?;
        out.extend_from_slice(rule.name.bytes())?;
        push_text(out, "\n")?;
    }
    Ok(())
}

/// Appends the lines of the answer and of the cells.
fn push_answer(out: &mut Vec<u8>, traced: &Traced<'_>) -> Result<(), AllocError> {
    match traced.finished.answer {
        Answer::NoCandidate => push_text(out, "score none")?,
        Answer::Best { score, .. } => {
            push_text(out, "score ")?;
            push_signed(out, score)?;
        }
    }
    push_text(out, "\n")?;
    push_number_line(out, "cells ", traced.finished.demanded_cells())
}

/// Appends a line of a number behind its name.
fn push_number_line(out: &mut Vec<u8>, name: &str, number: u64) -> Result<(), AllocError> {
    push_text(out, name)?;
    push_decimal(out, number)?;
    push_text(out, "\n")
}
