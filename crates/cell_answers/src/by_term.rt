//! Scores and cuts of alternatives that are scored by their term: along their line where that can be, and else split by
//! split, at the values of all arguments.

ghost use Rattle.std.specs.Prelude.{◌≡◌, ℕ, ◌+◌, ◌-◌, ◌<◌, ◌≤◌, pos, IfSome, None, Some, [], ◌∷◌, ◌++◌, drop, length, replicate, take};
ghost use Rattle.adp_model.specs.declared.cell.Answer.TheVariants.{Best as BestAnswer};
ghost use Rattle.adp_model.specs.declared.cell.Cell.{Cell};
ghost use Rattle.adp_model.specs.PosedProblem.{IsSpan};
ghost use Rattle.adp_model.specs.Lengths.{AllowsLength};
ghost use Rattle.adp_model.specs.Parts.{alternative_at, alternatives_of, arguments_of, term_of};
ghost use Rattle.adp_model.specs.Answers.{IsAnswer};
ghost use Rattle.adp_model.specs.Demand.{IsDemandedChild};
ghost use Rattle.score_numbers.specs.Greatest.{IsGreatestOf};
ghost use Rattle.split_lines.specs.Laid.{Demands};
ghost use Rattle.split_lines.specs.Lines.{IsLine};
ghost use Rattle.cell_answers.specs.CellBest.{IsCellBest};
ghost use Rattle.cell_answers.specs.Entries.{HasEntry};
ghost use Rattle.cell_answers.specs.TermScores.{AreFirstTermEnds, AreTermArguments, HasTermScore, first_values};
ghost use Rattle.cell_answers.specs.Totals.{HasLaidScore};

use crate::answer_cuts::line_left;
use crate::argument_values::argument_value;
use crate::filling::{Best, Known};
use crate::scores::Scores;
use crate::term_along::greatest_by_line;
use adp_model::laws::bellman::bellman;
use adp_model::laws::bounds::{bounds_are_sound, words_keep_their_score_bound};
use adp_model::laws::order::answer_is_unique;
use adp_model::laws::terms::{magnitudes_rise, values_are_within_magnitudes};
use adp_model::laws::well_formed::{
    alternatives_fit, arguments_are_few_and_known, terms_fit_their_alternatives,
};
use adp_model::{Arg, Cell, Term};
use score_numbers::{greater, turned};
use split_lines::{Line, Lines, line_begins_here, line_here};
use term_values::eval;
use term_values::laws::terms_have_their_values;

/// The values of the first arguments of an alternative, of which so many are laid.
#[derive(Clone, Copy)]
pub struct FirstValues {
    pub values: [i64; 4],
    pub count: usize,
}

impl FirstValues {
    /// With the value of one argument more.
    fn with(self, value: i64) -> FirstValues
        requires { self.count < 4 }
        ensures count { result.count ≡ self.count + 1 }
        ensures values { first_values result ≡ first_values self ++ value ∷ [] }
    {
        let mut values = self.values;
        values[self.count] = value;
        FirstValues {
            values,
            count: self.count + 1,
        }
    }

    /// With nothing for so many arguments more.
    pub fn with_nothing(self, more: usize) -> FirstValues
        requires { self.count + more ≤ 4 }
        ensures count { result.count ≡ self.count + more }
        ensures values { first_values result ≡ first_values self ++ replicate more (pos 0) }
    {
        if more == 0 {
            return self;
        }
        self.with(0).with_nothing(more - 1)
    }
}

/// The greatest that a term comes to, turned, at the first values and then those of arguments that are laid from `from`
/// to `to`; `None` where they can't be laid, or have no values. If the arguments have a line, `ahead` of them come
/// before it.
fn greatest_by_term(
    known: &Known<'_, '_>,
    ahead: u8,
    term: &Term,
    first: FirstValues,
    arguments: &[Arg],
    from: u16,
    to: u16,
) -> Option<i64>
    requires same_problem { known.now.scores.now.problem ≡ known.now.lines.now }
    requires line { IfSome known.now.line (λ line. IsLine known.now.lines.now (drop ahead arguments.now) line) }
    requires room { first.count ≤ 4 }
    requires arguments { AreTermArguments known.now.lines.now term.now (first_values first) arguments.now from to }
    requires span { IsSpan known.now.lines.now.word from to }
    requires scored { (cell : Cell) → Demands known.now.lines.now arguments.now from to cell
        → HasEntry known.now.scores.now cell }
    ensures { IsGreatestOf (HasTermScore known.now.lines.now term.now (first_values first) arguments.now from to)
        result }
{
    let Known { lines, scores, .. } = *known;
    line_begins_here();
    if let Some(line) = line_here(known.line.as_ref(), ahead) {
        let along = greatest_by_line(lines, scores, *line, term, first, arguments, from, to);
        if let Some(found) = along {
            return found.greatest;
        }
    }
    let Some((argument, others)) = arguments.split_first() else {
        if from != to {
            return None;
        }
        values_are_within_magnitudes();
        let value = eval(term, &first.values[..first.count]);
        return Some(turned(lines.problem().goal(), value));
    };
    lines.problem().admissible();
    bounds_are_sound();
    answer_is_unique();
    let (line, later) = line_left(known.line, ahead);
    let known = Known {
        lines,
        scores,
        line,
        owner: None,
    };
    let positions = lines.ends_of_first(arguments, from, to);
    let mut greatest = None;
    for end in positions.start..positions.end {
        let Some(value) = argument_value(lines, scores, argument, from, end) else {
            continue;
        };
        let behind = greatest_by_term(&known, later, term, first.with(value), others, end, to);
        greatest = greater(greatest, behind);
    }
    greatest
}

/// The line of an alternative, if it has one, and how many arguments come before it.
fn line_of<'l>(lines: &'l Lines<'_>, rule: u32, alt: u8) -> (Option<Line<'l>>, u8)
    requires { alt < length (alternatives_of lines.now.grammar rule) }
    ensures { IfSome result.0 (λ line. IsLine lines.now (drop result.1 (arguments_of lines.now.grammar rule alt)) line) }
{
    match lines.line(rule, alt) {
        Some(line) => (Some(line), line.first),
        None => (None, 0),
    }
}

/// The best score that an alternative gives a cell whose length it allows by its term, turned; `None` where it gives
/// none.
#[inline(never)]
pub fn score_by_term(
    lines: &Lines<'_>,
    scores: &Scores<'_>,
    cell: Cell,
    term: &Term,
    alt: u8,
) -> Option<i64>
    requires same_problem { scores.now.problem ≡ lines.now }
    requires rule { cell.rule < length lines.now.grammar.rules }
    requires in_word { IsSpan lines.now.word cell.from cell.to }
    requires in_range { alt < length (alternatives_of lines.now.grammar cell.rule) }
    requires allowed { AllowsLength (alternative_at lines.now.grammar cell.rule alt) (cell.to - cell.from) }
    requires term { term.now ≡ term_of lines.now cell.rule alt }
    requires scored { (child : Cell) → IsDemandedChild lines.now cell child → HasEntry scores.now child }
    ensures { IsGreatestOf (HasLaidScore lines.now cell alt) result }
{
    let problem = lines.problem();
    problem.admissible();
    words_keep_their_score_bound();
    magnitudes_rise();
    values_are_within_magnitudes();
    arguments_are_few_and_known();
    terms_fit_their_alternatives();
    terms_have_their_values();
    let none = FirstValues {
        values: [0; 4],
        count: 0,
    };
    let arguments = problem.arguments(cell.rule, alt);
    let (line, ahead) = line_of(lines, cell.rule, alt);
    let known = Known {
        lines,
        scores,
        line,
        owner: None,
    };
    greatest_by_term(&known, ahead, term, none, arguments, cell.from, cell.to)
}

/// The first ends with which arguments, laid from `from` to `to` behind the first values, have this score by the term,
/// turned, which is their greatest; ends that are left over stand at `to`.
fn ends_by_term(
    known: &Known<'_, '_>,
    term: &Term,
    first: FirstValues,
    arguments: &[Arg],
    from: u16,
    to: u16,
    score: i64,
) -> [u16; 4]
    requires same_problem { known.now.scores.now.problem ≡ known.now.lines.now }
    requires no_line { known.now.line ≡ None }
    requires room { first.count ≤ 4 }
    requires arguments { AreTermArguments known.now.lines.now term.now (first_values first) arguments.now from to }
    requires span { IsSpan known.now.lines.now.word from to }
    requires scored { (cell : Cell) → Demands known.now.lines.now arguments.now from to cell → HasEntry known.now.scores.now cell }
    requires greatest { IsGreatestOf (HasTermScore known.now.lines.now term.now (first_values first) arguments.now from to)
        (Some score) }
    ensures { (room : ℕ) → length arguments.now ≤ room → room ≤ 4
        → AreFirstTermEnds known.now.lines.now term.now (first_values first) arguments.now from to score (take room result) }
{
    let Known { lines, scores, .. } = *known;
    let Some((argument, others)) = arguments.split_first() else {
        return [to; 4];
    };
    lines.problem().admissible();
    bounds_are_sound();
    answer_is_unique();
    let positions = lines.ends_of_first(arguments, from, to);
    for end in positions.start..positions.end {
        let Some(value) = argument_value(lines, scores, argument, from, end) else {
            continue;
        };
        let first = first.with(value);
        let Some(behind) = greatest_by_term(known, 0, term, first, others, end, to) else {
            continue;
        };
        if behind == score {
            let [second, third, fourth, _] = ends_by_term(
                known, term, first, others, end, to, score,
            );
            return [end, second, third, fourth];
        }
    }
    unreachable!()
}

/// The cuts of a cell's answer, where the splits of the alternative that gives its best score are scored by its term.
pub fn cuts_by_term<'s>(
    lines: &'s Lines<'_>,
    scores: &'s Scores<'_>,
    cell: Cell,
    term: &Term,
    best: Best,
) -> [u16; 3]
    requires same_problem { scores.now.problem ≡ lines.now }
    requires rule { cell.rule < length lines.now.grammar.rules }
    requires in_word { IsSpan lines.now.word cell.from cell.to }
    requires term { term.now ≡ term_of lines.now cell.rule best.alt }
    requires scored { (child : Cell) → IsDemandedChild lines.now cell child → HasEntry scores.now child }
    requires best { IsCellBest lines.now cell best.score best.alt }
    ensures { IsAnswer lines.now cell (BestAnswer best.score (record { alt = best.alt; cuts = result })) }
{
    let problem = lines.problem();
    problem.admissible();
    bellman();
    bounds_are_sound();
    words_keep_their_score_bound();
    answer_is_unique();
    magnitudes_rise();
    values_are_within_magnitudes();
    arguments_are_few_and_known();
    alternatives_fit();
    terms_fit_their_alternatives();
    terms_have_their_values();
    let none = FirstValues {
        values: [0; 4],
        count: 0,
    };
    let arguments = problem.arguments(cell.rule, best.alt);
    let score = turned(problem.goal(), best.score);
    let known = Known {
        lines,
        scores,
        line: None,
        owner: None,
    };
    let [first, second, third, _] = ends_by_term(
        &known, term, none, arguments, cell.from, cell.to, score,
    );
    [first, second, third]
}
