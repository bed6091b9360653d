//! Calls of `memo_words` that tell the words of cells, scores and choices.

use crate::lines::{numbers, push_field, push_no_call};
use adp_model::{Cell, Choice};
use memo_words::{cell_code, choice_code, home, score_code};
use std::alloc::{AllocError, Global};

/// The greatest score.
const MOST: i64 = (1 << 62) - 1;

/// Appends the number that a call gave.
pub(crate) fn push_code_call(
    alloc: Global,
    name: &str,
    rest: &str,
    out: &mut Vec<u8>,
) -> Result<(), AllocError> {
    let numbers = numbers(alloc, rest)?;
    let code = match name {
        "cell" => code_of_cell(&numbers),
        "score" => code_of_score(rest),
        "choice" => code_of_choice(rest, &numbers),
        _ => home_of(&numbers),
    };
    match code {
        Some(code) => push_field(out, " ", code),
        None => push_no_call(out),
    }
}

/// The cell of a rule, a start and an end.
pub(crate) fn cell_of(numbers: &[u64]) -> Option<Cell> {
    match numbers {
        [rule, from, to] => Some(Cell {
            rule: u32::try_from(*rule).ok()?,
            from: u16::try_from(*from).ok()?,
            to: u16::try_from(*to).ok()?,
        }),
        _ => None,
    }
}

fn code_of_cell(numbers: &[u64]) -> Option<u64> {
    let cell = cell_of(numbers)?;
    if cell.rule < 128 && cell.from <= 4000 && cell.to <= 4000 {
        Some(cell_code(cell))
    } else {
        None
    }
}

fn code_of_score(score: &str) -> Option<u64> {
    if score == "none" {
        return Some(score_code(None));
    }
    match score.parse::<i64>() {
        Ok(score) if -MOST <= score && score <= MOST => Some(score_code(Some(score))),
        _ => None,
    }
}

fn code_of_choice(choice: &str, numbers: &[u64]) -> Option<u64> {
    if choice == "none" {
        return Some(choice_code(None));
    }
    match numbers {
        [
            alt @ 0..64,
            first @ 0..=4000,
            second @ 0..=4000,
            third @ 0..=4000,
        ] => {
            Some(choice_code(Some(Choice {
                alt: *alt as u8,
                cuts: [*first as u16, *second as u16, *third as u16],
            })))
        }
        _ => None,
    }
}

fn home_of(numbers: &[u64]) -> Option<u64> {
    match numbers {
        [code, bits @ 1..=22] => Some(u64::from(home(*code, *bits as u32))),
        _ => None,
    }
}
