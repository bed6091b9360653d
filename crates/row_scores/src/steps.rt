//! One argument more: from each position that is reached to each end that it may have there.

ghost use Rattle.std.specs.Prelude.{◌≡◌, ℕ, ℤ, ◌+◌, ◌<◌, ◌≤◌, ◌*ℤ◌, IsTrue, length};
ghost use Rattle.adp_model.specs.declared.grammar.Arg.TheVariants.{Rule};
ghost use Rattle.adp_model.specs.WellFormed.{IsKnown};
ghost use Rattle.score_numbers.specs.Turned.{turned};
ghost use Rattle.score_rows.specs.Raised.{AreHighest};
ghost use Rattle.row_scores.specs.Known.{AreKnown};
ghost use Rattle.row_scores.specs.RowNumbers.{IsInRow};
ghost use Rattle.row_scores.specs.Steps.{AreLowSteps, AreLowStepsFrom, HasStep, HasStepFrom, IsLowToken};

use adp_model::{Arg, Goal};
use cell_answers::token_value;
use cell_layouts::Layout;
use cell_tables::{Side, Table};
use score_rows::{RowNumber, Totals, product, with};
use split_lines::Lines;
use viable_splits::argument_ends;

/// What the totals of arguments are found from.
#[derive(Clone, Copy)]
pub struct Known<'s, 'a, N> {
    pub lines: &'s Lines<'a>,
    pub layout: &'s Layout<'a>,
    pub table: &'s Table<'a, N>,
}

/// Whether a score times the factor is the number that stands for it.
#[inline(always)]
fn is_plain(goal: Goal, factor: i64) -> bool
    ensures { IsTrue result → (number : ℤ) → (factor *ℤ turned goal number) ≡ number }
{
    match goal {
        Goal::Least => factor == -1,
        Goal::Greatest => factor == 1,
    }
}

/// Goes on from a position by a rule, to all ends of its row at once.
#[inline(always)]
fn step_by_rule<N: RowNumber>(
    known: &Known<'_, '_, N>,
    rule: u32,
    factor: i64,
    position: u16,
    number: N,
    next: &mut Totals<N>,
)
    requires known { AreKnown N.width N.value known.now }
    requires rule { rule < length known.now.lines.now.grammar.rules }
    requires position { position ≤ length known.now.lines.now.word }
    requires long { length next.old ≡ length known.now.lines.now.word + 1 }
    ensures { AreHighest N.width
        (HasStep known.now.lines.now N.width (IsInRow N.value known.now.table.now) (Rule rule) factor position
        (N.value number))
        (AreLowSteps known.now.lines.now N.width (IsInRow N.value known.now.table.now) (Rule rule) factor position
        (N.value number)) next.old next.new }
{
    let goal = known.lines.problem().goal();
    let ends = known.layout.ends(rule, position);
    known.table.cells();
    if ends.start >= ends.end {
        return;
    }
    let row = known
        .table
        .grid(Side::Rows)
        .between(rule, position, ends.start, ends.end);
    if is_plain(goal, factor) {
        next.raise(ends.start, row, number);
    } else {
        next.raise_scaled(ends.start, row, number, goal, factor);
    }
}

/// Goes on from a position by a token, end by end.
fn step_by_token<N: RowNumber>(
    known: &Known<'_, '_, N>,
    token: &Arg,
    factor: i64,
    position: u16,
    number: N,
    next: &mut Totals<N>,
)
    requires token { (rule : ℕ) → token.now ≡ Rule rule → ⊥ }
    requires known { IsKnown known.now.lines.now.grammar token.now }
    requires low { IsLowToken known.now.lines.now token.now }
    requires position { position ≤ length known.now.lines.now.word }
    requires long { length next.old ≡ length known.now.lines.now.word + 1 }
    ensures { AreHighest N.width
        (HasStep known.now.lines.now N.width (IsInRow N.value known.now.table.now) token.now factor position
        (N.value number))
        (AreLowSteps known.now.lines.now N.width (IsInRow N.value known.now.table.now) token.now factor position
        (N.value number)) next.old next.new }
{
    N::is_narrow();
    let last = known.lines.problem().letters().len();
    let ends = argument_ends(known.lines, token, position as usize, last);
    for end in ends.start..ends.end {
        let value = token_value(known.lines, token, position, end as u16);
        next.raise_at(end as u16, with(number, product(factor, value)));
    }
}

/// Goes on from a position by an argument.
#[inline(always)]
fn step_from<N: RowNumber>(
    known: &Known<'_, '_, N>,
    argument: &Arg,
    factor: i64,
    position: u16,
    number: N,
    next: &mut Totals<N>,
)
    requires known { AreKnown N.width N.value known.now }
    requires argument { IsKnown known.now.lines.now.grammar argument.now }
    requires low { IsLowToken known.now.lines.now argument.now }
    requires position { position ≤ length known.now.lines.now.word }
    requires long { length next.old ≡ length known.now.lines.now.word + 1 }
    ensures { AreHighest N.width
        (HasStep known.now.lines.now N.width (IsInRow N.value known.now.table.now) argument.now factor position
        (N.value number))
        (AreLowSteps known.now.lines.now N.width (IsInRow N.value known.now.table.now) argument.now factor position
        (N.value number)) next.old next.new }
{
    match argument {
        Arg::Rule(rule) => step_by_rule(known, *rule, factor, position, number, next),
        token => step_by_token(known, token, factor, position, number, next),
    }
}

/// Goes on by an argument from each position that is reached.
pub fn step<N: RowNumber>(
    known: &Known<'_, '_, N>,
    argument: &Arg,
    factor: i64,
    reached: &Totals<N>,
    next: &mut Totals<N>,
)
    requires known { AreKnown N.width N.value known.now }
    requires argument { IsKnown known.now.lines.now.grammar argument.now }
    requires low { IsLowToken known.now.lines.now argument.now }
    requires reached { length reached.now ≡ length known.now.lines.now.word + 1 }
    requires next { length next.old ≡ length known.now.lines.now.word + 1 }
    ensures { AreHighest N.width
        (HasStepFrom known.now.lines.now N.width (IsInRow N.value known.now.table.now) argument.now factor reached.now)
        (AreLowStepsFrom known.now.lines.now N.width (IsInRow N.value known.now.table.now) argument.now factor
        reached.now) next.old next.new }
{
    let window = reached.window();
    for position in window.first..window.past {
        let number = reached.number(position);
        if number.is_live() {
            step_from(known, argument, factor, position, number, next);
        }
    }
}
