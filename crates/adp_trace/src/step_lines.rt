//! The line of a step: its number, the machine, the word, what was done with it, and what that told.

use adp_model::{push_decimal, push_signed};
use cell_core::Turn;
use memo_words::{Action, NO_CANDIDATE, Part, Place, WordStep};
use std::alloc::AllocError;
use step_traces::TracedStep;

/// Where the numbers of a cell stand in a key word, less 1.
const POSITIONS: u64 = 1 << 12;

/// What a score word has more than the score.
const SCORE_OFFSET: i64 = (1 << 62) + 1;

/// Appends a text.
pub(crate) fn push_text(out: &mut Vec<u8>, text: &str) -> Result<(), AllocError> {
    out.extend_from_slice(text.as_bytes())
}

/// Appends the line of the step of this number, which counts from 1.
pub(crate) fn push_step(
    out: &mut Vec<u8>,
    number: u64,
    traced: &TracedStep,
) -> Result<(), AllocError> {
    push_field(out, "step ", number)?;
    push_field(out, " machine ", u64::from(traced.machine))?;
    if let Some(step) = &traced.step {
        push_place(out, step.place)?;
        push_action(out, step)?;
        push_told(out, step)?;
    }
    push_turn(out, traced.turn)?;
    push_text(out, "\n")
}

/// Appends a name and a number.
fn push_field(out: &mut Vec<u8>, name: &str, number: u64) -> Result<(), AllocError> {
    push_text(out, name)?;
    push_decimal(out, number)
}

/// Appends the word's kind and number.
fn push_place(out: &mut Vec<u8>, place: Place) -> Result<(), AllocError> {
    match place {
        Place::Counter => push_text(out, " counter 0"),
        Place::Key(position) => push_field(out, " key ", u64::from(position)),
        Place::RecordWord(position) => push_field(out, " name ", u64::from(position)),
        Place::Record(Part::Score, number) => push_field(out, " score ", u64::from(number)),
        Place::Record(Part::Choice, number) => push_field(out, " choice ", u64::from(number)),
    }
}

/// Appends what was done with the word.
fn push_action(out: &mut Vec<u8>, step: &WordStep) -> Result<(), AllocError> {
    match step.action {
        Action::Load => push_field(out, " load found ", step.value),
        Action::Add => push_field(out, " add found ", step.value),
        Action::Store => push_field(out, " store put ", step.value),
        Action::Exchange(put) => {
            push_field(out, " exchange found ", step.value)?;
            push_field(out, " put ", put)
        }
    }
}

/// Appends what the step told: the cell of a key, how a publication went, or the score of a record.
fn push_told(out: &mut Vec<u8>, step: &WordStep) -> Result<(), AllocError> {
    match (step.place, step.action) {
        (Place::Key(_), Action::Exchange(put)) if step.value == 0 => push_cell(out, put),
        (Place::Key(_), _) => push_cell(out, step.value),
        (Place::RecordWord(_), Action::Exchange(_)) if step.value == 0 => push_text(out, " won"),
        (Place::RecordWord(_), Action::Exchange(_)) => push_text(out, " lost"),
        (Place::RecordWord(_), _) if step.value == 0 => push_text(out, " unpublished"),
        (Place::Record(Part::Score, _), _) => push_score(out, step.value),
        _ => Ok(()),
    }
}

/// Appends the cell of a key word: its rule, and where it begins and ends; nothing for an empty word.
fn push_cell(out: &mut Vec<u8>, code: u64) -> Result<(), AllocError> {
    let Some(packed) = code.checked_sub(1) else {
        return Ok(());
    };
    push_field(out, " cell ", packed / POSITIONS / POSITIONS)?;
    push_field(out, " ", packed / POSITIONS % POSITIONS)?;
    push_field(out, " ", packed % POSITIONS)
}

/// Appends the score of a score word; nothing for a word that is too great for one.
fn push_score(out: &mut Vec<u8>, code: u64) -> Result<(), AllocError> {
    if code == NO_CANDIDATE {
        return push_text(out, " is none");
    }
    let Ok(above) = i64::try_from(code) else {
        return Ok(());
    };
    push_text(out, " is ")?;
    push_signed(out, above - SCORE_OFFSET)
}

/// Appends the end of a machine that has ended, with the score of the axiom's answer.
fn push_turn(out: &mut Vec<u8>, turn: Turn) -> Result<(), AllocError> {
    match turn {
        Turn::Going => Ok(()),
        Turn::Ended(None) => push_text(out, " ended none"),
        Turn::Ended(Some(score)) => {
            push_text(out, " ended ")?;
            push_signed(out, score)
        }
    }
}
