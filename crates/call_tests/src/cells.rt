//! Calls on the problem of a word: where its cells are kept, and its machines.

ghost use Rattle.std.specs.Prelude.{◌≡◌};

use crate::codes::cell_of;
use crate::lines::{numbers, push_field, push_flag, push_no_call, push_text};
use crate::machines::{push_plain, push_turns};
use crate::schedules::{push_cell_answer, push_schedule, push_words};
use adp_model::{Cell, Problem};
use cell_layouts::{Places, places};
use cell_tables::{Layout, Noted};
use memo_words::Words;
use std::alloc::{AllocError, Global};

/// Appends what a call on a problem gave.
pub(crate) fn push_problem_call(
    alloc: Global,
    problem: &Problem<'_>,
    name: &str,
    rest: &str,
    out: &mut Vec<u8>,
) -> Result<(), AllocError> {
    let numbers = numbers(alloc, rest)?;
    match name {
        "bits" => push_bits(alloc, problem, out),
        "place" => push_place(alloc, problem, &numbers, out),
        "note" => push_noted(alloc, problem, &numbers, out),
        "plain" => push_plain(alloc, problem, &numbers, out),
        "turns" => push_turns(alloc, problem, &numbers, out),
        "schedule" => push_schedule(alloc, problem, &numbers, out),
        "answer" => push_cell_answer(alloc, problem, &numbers, out),
        "words" => push_words(alloc, problem, &numbers, out),
        _ => push_no_call(out),
    }
}

/// Appends the number of bits in a position of the word's table: it has two positions for each cell that is counted.
fn push_bits(alloc: Global, problem: &Problem<'_>, out: &mut Vec<u8>) -> Result<(), AllocError> {
    let (words, _pass) = Words::new(alloc, problem, 32)?;
    push_field(out, " ", u64::from(words.bits()))
}

/// Appends the place of a cell, as the layout of tables and the count of cells alone tell it.
fn push_place(
    alloc: Global,
    problem: &Problem<'_>,
    numbers: &[u64],
    out: &mut Vec<u8>,
) -> Result<(), AllocError> {
    let Some(cell) = cell_of(numbers) else {
        return push_no_call(out);
    };
    let layout = Layout::new(alloc, problem)?;
    push_place_in(&layout, &Places::of(&layout)?, cell, out)?;
    push_place_in(&layout, &places(alloc, problem)?, cell, out)
}

fn push_place_in(
    layout: &Layout<'_>,
    places: &Places<'_>,
    cell: Cell,
    out: &mut Vec<u8>,
) -> Result<(), AllocError>
    requires { places.now ≡ layout.now }
{
    if layout.counts(cell) {
        push_field(out, " ", u64::from(places.place(cell)))
    } else {
        push_text(out, " nowhere")
    }
}

/// Appends whether two cells are noted, before and after the first of them is.
fn push_noted(
    alloc: Global,
    problem: &Problem<'_>,
    numbers: &[u64],
    out: &mut Vec<u8>,
) -> Result<(), AllocError> {
    let [rule, from, to, other_to] = numbers else {
        return push_no_call(out);
    };
    let cell = cell_of(&[*rule, *from, *to]);
    let other = cell_of(&[*rule, *from, *other_to]);
    match (cell, other) {
        (Some(cell), Some(other)) => push_noted_beside(alloc, problem, cell, other, out),
        _ => push_no_call(out),
    }
}

fn push_noted_beside(
    alloc: Global,
    problem: &Problem<'_>,
    cell: Cell,
    other: Cell,
    out: &mut Vec<u8>,
) -> Result<(), AllocError> {
    let layout = Layout::new(alloc, problem)?;
    let mut noted = Noted::new(alloc, &layout)?;
    if !layout.counts(cell) {
        return push_no_call(out);
    }
    push_flag(out, "", noted.has(cell))?;
    push_flag(out, "", noted.has(other))?;
    noted.note(cell);
    push_flag(out, ", then", noted.has(cell))?;
    push_flag(out, "", noted.has(other))
}
