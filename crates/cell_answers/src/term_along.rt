//! The greatest that a wide term comes to along a line, at many of its positions at once.

ghost use Rattle.std.specs.Prelude.{◌≡◌, ◌+◌, ◌<◌, ◌≤◌, ℕ, IfSome, length};
ghost use Rattle.std.specs.Bool.{OnTrue};
ghost use Rattle.std.specs.List.{AllAdjacentBelow};
ghost use Rattle.adp_model.specs.declared.cell.Cell.{Cell};
ghost use Rattle.adp_model.specs.PosedProblem.{IsSpan};
ghost use Rattle.adp_model.specs.WideTerms.{form_of};
ghost use Rattle.score_numbers.specs.Greatest.{IsGreatestOf};
ghost use Rattle.score_numbers.specs.TermLines.{AreTwo};
ghost use Rattle.split_lines.specs.Laid.{Demands};
ghost use Rattle.split_lines.specs.Lines.{IsLine};
ghost use Rattle.cell_answers.specs.ArgumentEntries.{AreProperNumbers};
ghost use Rattle.cell_answers.specs.Entries.{HasEntry};
ghost use Rattle.cell_answers.specs.PlainLines.{AreFitNumbers, AreIdle, IsFoundOn, IsFreeOf, IsPlain};
ghost use Rattle.cell_answers.specs.TermScores.{AreTermArguments, HasTermScore, first_values};

use crate::argument_values::Numbers;
use crate::by_term::FirstValues;
use crate::opened::{OpenedLine, open_line};
use crate::scores::Scores;
use adp_model::laws::bounds::bounds_are_sound;
use adp_model::laws::order::answer_is_unique;
use adp_model::{Arg, Goal, Term, Wide};
use score_numbers::{
    LONG_LIMIT, MEDIUM_LIMIT, Positions, SHORT_LIMIT, TermLine, greatest_long_value,
    greatest_medium_value, greatest_short_value,
};
use split_lines::{Line, Lines};

/// What was found along a line.
#[derive(Clone, Copy)]
pub struct Found {
    pub greatest: Option<i64>,
}

/// Whether a term does not have the value of the argument at this place.
fn is_free_of(term: &Wide, place: usize) -> bool
    ensures { OnTrue result (IsFreeOf (form_of term.now) place) }
{
    match term {
        Wide::Number(_) => true,
        Wide::Value(other) => *other as usize != place,
        Wide::Sum(left, right)
        | Wide::Difference(left, right)
        | Wide::Product(left, right)
        | Wide::Greater(left, right)
        | Wide::Lesser(left, right) => is_free_of(left, place) && is_free_of(right, place),
    }
}

/// Whether tokens make no difference to a term: they are literals, which are worth nothing, or letters whose values it
/// does not have. The value of the first one stands at this place.
fn are_idle(term: &Wide, place: usize, tokens: &[Arg]) -> bool
    requires { place + length tokens.now ≤ 8 }
    ensures { OnTrue result (AreIdle (form_of term.now) place tokens.now) }
{
    let Some((token, tokens)) = tokens.split_first() else {
        return true;
    };
    let is_idle = match token {
        Arg::Literal(_) => true,
        Arg::Letter(_) => is_free_of(term, place),
        _ => false,
    };
    is_idle && are_idle(term, place + 1, tokens)
}

/// Whether the two arguments of open length are rules, no token makes a difference to the term, and the entries were
/// turned for its goal.
fn is_plain(line: &OpenedLine<'_>, term: &TermLine<'_>) -> bool
    requires middle { term.now.before + length line.now.arguments.middle.now < 8 }
    requires tail { term.now.behind + length line.now.arguments.tail.now < 8 }
    ensures { OnTrue result (IsPlain line.now term.now) }
{
    let arguments = line.arguments;
    let (Arg::Rule(_), Arg::Rule(_)) = (arguments.first, arguments.second) else {
        return false;
    };
    if line.row.goal != term.goal || line.column.goal != term.goal {
        return false;
    }
    are_idle(term.term, term.before + 1, arguments.middle)
        && are_idle(term.term, term.behind + 1, arguments.tail)
}

/// A term with the values of its arguments, the numbers of two of which stand on both sides of a boundary.
fn term_line<'l>(
    term: &'l Wide,
    goal: Goal,
    values: &'l FirstValues,
    before: usize,
    behind: usize,
) -> TermLine<'l>
    requires { values.now.count ≤ 4 }
    ensures term { result.term.now ≡ term.now }
    ensures goal { result.goal ≡ goal }
    ensures values { result.values.now ≡ first_values values.now }
    ensures before { result.before ≡ before }
    ensures behind { result.behind ≡ behind }
{
    TermLine {
        term,
        goal,
        values: &values.values[..values.count],
        before,
        behind,
    }
}

/// The greatest that a term comes to, turned, at the numbers on both sides of a line's boundary; `None` where these may
/// be too small for what it comes to.
fn greatest_of_numbers(line: &OpenedLine<'_>, term: &TermLine<'_>, bound: u64) -> Option<Found>
    requires two { AreTwo term.now }
    requires rising { AllAdjacentBelow (λ (a b : ℕ). a < b) line.now.boundary.positions.now
        (length line.now.boundary.positions.now) }
    requires row { AreProperNumbers line.now.row.numbers }
    requires column { AreProperNumbers line.now.column.numbers }
    requires fit { AreFitNumbers line.now term.now bound }
    ensures { IfSome result (λ found. IsFoundOn line.now term.now bound found.greatest) }
{
    let positions = Positions {
        at: line.boundary.positions,
        first: line.row.first,
    };
    let greatest = match (line.row.numbers, line.column.numbers) {
        (Numbers::Short(before), Numbers::Short(behind)) if bound <= SHORT_LIMIT as u64 => {
            greatest_short_value(term, before, behind, positions)
        }
        (Numbers::Medium(before), Numbers::Medium(behind)) if bound <= MEDIUM_LIMIT as u64 => {
            greatest_medium_value(term, before, behind, positions)
        }
        (Numbers::Long(before), Numbers::Long(behind)) if bound <= LONG_LIMIT as u64 => {
            greatest_long_value(term, before, behind, positions)
        }
        _ => return None,
    };
    Some(Found { greatest })
}

/// The greatest that a term comes to, turned, at the first values and then those of arguments that begin with the first
/// one of their line and are laid from `from` to `to`. `None` where it has to be found split by split: the term is not
/// a wide one, numbers have too many bits, a token is of open length, or the term has the value of a letter.
#[inline(never)]
pub fn greatest_by_line(
    lines: &Lines<'_>,
    scores: &Scores<'_>,
    line: Line<'_>,
    term: &Term,
    first: FirstValues,
    arguments: &[Arg],
    from: u16,
    to: u16,
) -> Option<Found>
    requires same_problem { scores.now.problem ≡ lines.now }
    requires line { IsLine lines.now arguments.now line }
    requires room { first.count ≤ 4 }
    requires arguments { AreTermArguments lines.now term.now (first_values first) arguments.now from to }
    requires span { IsSpan lines.now.word from to }
    requires scored { (cell : Cell) → Demands lines.now arguments.now from to cell → HasEntry scores.now cell }
    ensures { IfSome result (λ found.
        IsGreatestOf (HasTermScore lines.now term.now (first_values first) arguments.now from to) found.greatest) }
{
    let Term::Wide(wide) = term else {
        return None;
    };
    let problem = lines.problem();
    problem.admissible();
    bounds_are_sound();
    answer_is_unique();
    let none = [0; 4];
    let factors = &none[..arguments.len()];
    let Some(line) = open_line(lines, scores, line, arguments, factors, from, to) else {
        return Some(Found { greatest: None });
    };
    let goal = problem.goal();
    let values = first.with_nothing(arguments.len());
    let behind = first.count + 1 + line.arguments.middle.len();
    let term = term_line(wide.root(), goal, &values, first.count, behind);
    if !is_plain(&line, &term) {
        return None;
    }
    greatest_of_numbers(&line, &term, problem.score_bound)
}
