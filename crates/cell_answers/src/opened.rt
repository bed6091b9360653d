//! Lines whose boundary has a position, with the entries on both sides of it.

ghost use Rattle.std.specs.Prelude.{◌≡◌, ℕ, ℤ, ◌∷◌, ◌++◌, MatchOption, length};
ghost use Rattle.adp_model.specs.declared.cell.Cell.{Cell};
ghost use Rattle.adp_model.specs.PosedProblem.{IsSpan};
ghost use Rattle.adp_model.specs.Bellman.{HasBestScore};
ghost use Rattle.split_lines.specs.Laid.{Demands};
ghost use Rattle.split_lines.specs.Lines.{HasLine, IsLine, parts_by};
ghost use Rattle.cell_answers.specs.Entries.{HasEntry};
ghost use Rattle.cell_answers.specs.Opened.{IsOpenedOn};
ghost use Rattle.cell_answers.specs.Totals.{AreLow, AreWeighted, HasTotal};

use crate::argument_values::Entries;
use crate::scores::Scores;
use adp_model::Arg;
use cell_tables::Side;
use split_lines::{Boundary, Line, Lines};

/// The arguments of a line with their factors: the two of open length, and the tokens between them and behind them.
#[derive(Clone, Copy)]
pub struct LineArguments<'s> {
    pub first: &'s Arg,
    pub first_factor: i64,
    pub middle: &'s [Arg],
    pub middle_factors: &'s [i64],
    pub second: &'s Arg,
    pub second_factor: i64,
    pub tail: &'s [Arg],
    pub tail_factors: &'s [i64],
}

/// A line on a span, where its boundary has a position: its arguments, the boundary, where the first argument begins,
/// and the entries of the two of open length, for all positions of the boundary.
#[derive(Clone, Copy)]
pub struct OpenedLine<'s> {
    pub arguments: LineArguments<'s>,
    pub boundary: Boundary<'s>,
    pub from: u16,
    /// Of the first one, by where it ends.
    pub row: Entries<'s>,
    /// Of the second one, by where it begins.
    pub column: Entries<'s>,
}

/// The arguments of a line, where so many tokens stand between the two of open length.
#[inline(always)]
pub fn line_arguments<'s>(
    arguments: &'s [Arg],
    factors: &'s [i64],
    between: usize,
) -> LineArguments<'s>
    requires line { HasLine arguments.now between }
    requires each { length factors.now ≡ length arguments.now }
    ensures first { result.first.now ≡ (parts_by arguments.now between).first }
    ensures middle { result.middle.now ≡ (parts_by arguments.now between).middle }
    ensures second { result.second.now ≡ (parts_by arguments.now between).second }
    ensures tail { result.tail.now ≡ (parts_by arguments.now between).tail }
    ensures factors { factors.now ≡ result.first_factor ∷ (result.middle_factors.now
        ++ result.second_factor ∷ result.tail_factors.now) }
    ensures middle_each { length result.middle_factors.now ≡ length result.middle.now }
{
    let second = between + 1;
    LineArguments {
        first: &arguments[0],
        first_factor: factors[0],
        middle: &arguments[1..second],
        middle_factors: &factors[1..second],
        second: &arguments[second],
        second_factor: factors[second],
        tail: &arguments[second + 1..],
        tail_factors: &factors[second + 1..],
    }
}

/// Opens the line of arguments, which begin with its first one, on the span from `from` to `to`; `None` where its
/// boundary has no position there.
#[inline(always)]
pub fn open_line<'s>(
    lines: &'s Lines<'_>,
    scores: &'s Scores<'_>,
    line: Line<'s>,
    arguments: &'s [Arg],
    factors: &'s [i64],
    from: u16,
    to: u16,
) -> Option<OpenedLine<'s>>
    requires same_problem { scores.now.problem ≡ lines.now }
    requires line { IsLine lines.now arguments.now line }
    requires weighted { AreWeighted lines.now arguments.now factors.now }
    requires span { IsSpan lines.now.word from to }
    requires scored { (cell : Cell) → Demands lines.now arguments.now from to cell → HasEntry scores.now cell }
    requires low { AreLow lines.now arguments.now factors.now from to }
    ensures { MatchOption result
        ((total : ℤ) → HasTotal lines.now (HasBestScore lines.now) arguments.now factors.now from to total → ⊥)
        (IsOpenedOn lines.now arguments.now factors.now from to) }
{
    lines.problem().admissible();
    let boundary = lines.boundary(line, arguments, from, to);
    let Boundary {
        positions,
        letters,
        last,
        ..
    } = boundary;
    let arguments = line_arguments(arguments, factors, line.between as usize);
    if positions.is_empty() {
        return None;
    }
    let (low, high) = (positions[0], positions[positions.len() - 1]);
    let row = scores.entries(Side::Rows, arguments.first, from, low, high);
    let column = scores.entries(
        Side::Columns,
        arguments.second,
        last,
        low + letters,
        high + letters,
    );
    Some(OpenedLine {
        arguments,
        boundary,
        from,
        row,
        column,
    })
}
