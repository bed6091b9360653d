//! The cuts of a cell's answer: of the splits by an alternative that gives the best score, the first that has it.

ghost use Rattle.std.specs.Prelude.{◌≡◌, ◌<◌, ◌≤◌, ℕ, IfSome, MatchOption, Some, List, ◌∷◌, drop, length, take};
ghost use Rattle.std.specs.List.{Contains};
ghost use Rattle.adp_model.specs.declared.cell.Answer.TheVariants.{Best as BestAnswer};
ghost use Rattle.adp_model.specs.declared.cell.Cell.{Cell};
ghost use Rattle.adp_model.specs.declared.grammar.Arg.{Arg as Argument};
ghost use Rattle.adp_model.specs.PosedProblem.{PosedProblem, IsSpan};
ghost use Rattle.adp_model.specs.Parts.{alternatives_of};
ghost use Rattle.adp_model.specs.Answers.{IsAnswer};
ghost use Rattle.adp_model.specs.Bellman.{HasBestScore};
ghost use Rattle.adp_model.specs.Demand.{IsDemandedChild};
ghost use Rattle.score_numbers.specs.FirstPositions.{IsFirstOf};
ghost use Rattle.score_numbers.specs.Greatest.{IsGreatestOf};
ghost use Rattle.split_lines.specs.Kept.{IsAlternative, IsSummed};
ghost use Rattle.split_lines.specs.Laid.{Demands};
ghost use Rattle.split_lines.specs.Lines.{IsLine};
ghost use Rattle.cell_answers.specs.CellBest.{IsCellBest};
ghost use Rattle.cell_answers.specs.Entries.{HasEntry};
ghost use Rattle.cell_answers.specs.LaidBy.{AreFirstEnds, IsFirstEnd};
ghost use Rattle.cell_answers.specs.Opened.{IsOpened};
ghost use Rattle.cell_answers.specs.Tails.{IsOwner};
ghost use Rattle.cell_answers.specs.Through.{HasLineTotal};
ghost use Rattle.cell_answers.specs.Totals.{AreLow, AreWeighted, HasTotal};

use crate::along::{factors_of, fixed_total, scales_of, total_through};
use crate::argument_values::{Numbers, argument_value};
use crate::by_term::cuts_by_term;
use crate::filling::{Best, Known, Owner, best_noting, first_giving, tail_total};
use crate::letters_between::weighed_line;
use crate::only_ends::only_end;
use crate::opened::{OpenedLine, open_line};
use crate::scores::Scores;
use crate::tails::Tails;
use adp_model::laws::bellman::bellman;
use adp_model::laws::bounds::{bounds_are_sound, words_keep_their_score_bound};
use adp_model::laws::order::answer_is_unique;
use adp_model::laws::terms::{magnitudes_rise, values_are_within_magnitudes};
use adp_model::laws::well_formed::{alternatives_fit, arguments_are_few_and_known};
use adp_model::{Answer, Arg, Cell, Choice};
use score_numbers::{
    Positions, are_worthless, first_long, first_long_weighed, first_medium, first_medium_weighed,
    first_short, first_short_weighed, first_whole, first_whole_weighed,
    lesser_positions_stand_before, turned,
};
use split_lines::{KeptAlternative, Line, Lines, Scoring, Way, WeightedSum, line_here};

/// The first position of the boundary at which the arguments of a line up to its second one of open length have this
/// total, position by position.
fn first_valued(lines: &Lines<'_>, line: &OpenedLine<'_>, total: i64) -> Option<u16>
    requires opened { IsOpened lines.now line.now }
    ensures { IsFirstOf line.now.boundary.positions.now
        (λ position. HasLineTotal lines.now line.now position total) result }
{
    lesser_positions_stand_before();
    let weigh = !are_worthless(line.arguments.middle, line.arguments.middle_factors);
    for position in line.boundary.positions {
        let through = total_through(lines, line, weigh, *position);
        if let Some(found) = through {
            if found == total {
                return Some(*position);
            }
        }
    }
    None
}

/// The first position of the boundary at which the arguments of a line up to its second one of open length have this
/// total, where tokens between the two may add something.
fn first_with_letters(lines: &Lines<'_>, line: &OpenedLine<'_>, total: i64) -> Option<u16>
    requires opened { IsOpened lines.now line.now }
    ensures { IsFirstOf line.now.boundary.positions.now
        (λ position. HasLineTotal lines.now line.now position total) result }
{
    if let Some(weighed) = weighed_line(lines, line) {
        let (weights, scales) = (weighed.weights, weighed.scales);
        lines.problem().admissible();
        bounds_are_sound();
        answer_is_unique();
        let positions = Positions {
            at: line.boundary.positions,
            first: line.row.first,
        };
        match (line.row.numbers, line.column.numbers) {
            (Numbers::Short(first), Numbers::Short(second)) => {
                return first_short_weighed(first, second, weights, positions, scales, total);
            }
            (Numbers::Medium(first), Numbers::Medium(second)) => {
                return first_medium_weighed(first, second, weights, positions, scales, total);
            }
            (Numbers::Long(first), Numbers::Long(second)) => {
                return first_long_weighed(first, second, weights, positions, scales, total);
            }
            (Numbers::Whole(first), Numbers::Whole(second)) => {
                let factors = factors_of(line);
                return first_whole_weighed(first, second, weights, positions, factors, total);
            }
            _ => {}
        }
    }
    first_valued(lines, line, total)
}

/// The first position of the boundary at which the arguments of a line up to its second one of open length have this
/// total.
fn first_through(lines: &Lines<'_>, line: &OpenedLine<'_>, total: i64) -> Option<u16>
    requires opened { IsOpened lines.now line.now }
    ensures { IsFirstOf line.now.boundary.positions.now
        (λ position. HasLineTotal lines.now line.now position total) result }
{
    if let Some(scales) = scales_of(line) {
        lines.problem().admissible();
        bounds_are_sound();
        answer_is_unique();
        let positions = Positions {
            at: line.boundary.positions,
            first: line.row.first,
        };
        match (line.row.numbers, line.column.numbers) {
            (Numbers::Short(first), Numbers::Short(second)) => {
                return first_short(
                    first,
                    second,
                    positions,
                    line.boundary.limits,
                    scales,
                    total,
                );
            }
            (Numbers::Medium(first), Numbers::Medium(second)) => {
                return first_medium(first, second, positions, scales, total);
            }
            (Numbers::Long(first), Numbers::Long(second)) => {
                return first_long(first, second, positions, scales, total);
            }
            (Numbers::Whole(first), Numbers::Whole(second)) => {
                return first_whole(first, second, positions, factors_of(line), total);
            }
            _ => {}
        }
    }
    first_with_letters(lines, line, total)
}

/// The first end of the first of these arguments, which is the first one of a line, with which they have this total:
/// the first position of the boundary at which those up to the second one of open length have what the tokens behind
/// them leave of it.
fn end_along(
    lines: &Lines<'_>,
    scores: &Scores<'_>,
    line: Line<'_>,
    arguments: &[Arg],
    factors: &[i64],
    from: u16,
    to: u16,
    total: i64,
) -> u16
    requires same_problem { scores.now.problem ≡ lines.now }
    requires line { IsLine lines.now arguments.now line }
    requires weighted { AreWeighted lines.now arguments.now factors.now }
    requires span { IsSpan lines.now.word from to }
    requires scored { (cell : Cell) → Demands lines.now arguments.now from to cell → HasEntry scores.now cell }
    requires low { AreLow lines.now arguments.now factors.now from to }
    requires has { HasTotal lines.now (HasBestScore lines.now) arguments.now factors.now from to total }
    ensures { IsFirstEnd lines.now arguments.now factors.now from to total result }
{
    lines.problem().admissible();
    bounds_are_sound();
    answer_is_unique();
    let Some(opened) = open_line(lines, scores, line, arguments, factors, from, to) else {
        unreachable!()
    };
    let arguments = opened.arguments;
    let last = opened.boundary.last;
    let front = total - fixed_total(lines, arguments.tail, arguments.tail_factors, last, to);
    match first_through(lines, &opened, front) {
        Some(position) => position,
        None => unreachable!(),
    }
}

/// The first end of the first of these arguments with which they have this total, their greatest, found by trying one
/// after another. If the others have a line, `ahead` of them come before it.
fn end_among(
    behind: &Known<'_, '_>,
    tails: &mut Tails<'_>,
    ahead: u8,
    arguments: &[Arg],
    factors: &[i64],
    from: u16,
    to: u16,
    total: i64,
) -> u16
    requires same_problem { behind.now.scores.now.problem ≡ behind.now.lines.now }
    requires same_tails { tails.old ≡ behind.now.lines.now }
    requires owner { IsOwner behind.now.lines.now behind.now.owner arguments.now factors.now }
    requires line { IfSome behind.now.line (λ line.
        IsLine behind.now.lines.now (drop ahead (drop 1 arguments.now)) line) }
    requires some { 0 < length arguments.now }
    requires weighted { AreWeighted behind.now.lines.now arguments.now factors.now }
    requires span { IsSpan behind.now.lines.now.word from to }
    requires scored { (cell : Cell) → Demands behind.now.lines.now arguments.now from to cell
        → HasEntry behind.now.scores.now cell }
    requires low { AreLow behind.now.lines.now arguments.now factors.now from to }
    requires greatest { IsGreatestOf (HasTotal behind.now.lines.now (HasBestScore behind.now.lines.now)
        arguments.now factors.now from to) (Some total) }
    ensures same { tails.new ≡ tails.old }
    ensures first { IsFirstEnd behind.now.lines.now arguments.now factors.now from to total result }
{
    let Known { lines, scores, .. } = *behind;
    let (Some((argument, others)), Some((factor, more))) = (
        arguments.split_first(),
        factors.split_first(),
    ) else {
        unreachable!()
    };
    lines.problem().admissible();
    bounds_are_sound();
    answer_is_unique();
    let positions = lines.ends_of_first(arguments, from, to);
    for end in positions.start..positions.end {
        let Some(value) = argument_value(lines, scores, argument, from, end) else {
            continue;
        };
        let Some(rest) = tail_total(behind, tails, ahead, others, more, end, to) else {
            continue;
        };
        if factor * value + rest == total {
            return end;
        }
    }
    unreachable!()
}

/// The line of the arguments behind the first one, if that is not its first one, and how many of these come before it.
#[inline(always)]
pub(crate) fn line_left(line: Option<Line<'_>>, ahead: u8) -> (Option<Line<'_>>, u8)
    ensures { (p : PosedProblem) (arguments : List Argument)
        → IfSome line.entry (λ it. IsLine p (drop ahead arguments) it)
        → IfSome result.0 (λ it. IsLine p (drop result.1 (drop 1 arguments)) it) }
{
    if ahead == 0 {
        (None, 0)
    } else {
        (line, ahead - 1)
    }
}

/// The first end of the first of these arguments with which they have this total, their greatest. If the arguments have
/// a line, `ahead` of them come before it.
fn first_end(
    known: &Known<'_, '_>,
    tails: &mut Tails<'_>,
    ahead: u8,
    arguments: &[Arg],
    factors: &[i64],
    from: u16,
    to: u16,
    total: i64,
) -> u16
    requires same_problem { known.now.scores.now.problem ≡ known.now.lines.now }
    requires same_tails { tails.old ≡ known.now.lines.now }
    requires owner { IsOwner known.now.lines.now known.now.owner arguments.now factors.now }
    requires line { IfSome known.now.line (λ line. IsLine known.now.lines.now (drop ahead arguments.now) line) }
    requires some { 0 < length arguments.now }
    requires weighted { AreWeighted known.now.lines.now arguments.now factors.now }
    requires span { IsSpan known.now.lines.now.word from to }
    requires scored { (cell : Cell) → Demands known.now.lines.now arguments.now from to cell
        → HasEntry known.now.scores.now cell }
    requires low { AreLow known.now.lines.now arguments.now factors.now from to }
    requires greatest { IsGreatestOf (HasTotal known.now.lines.now (HasBestScore known.now.lines.now)
        arguments.now factors.now from to) (Some total) }
    ensures same { tails.new ≡ tails.old }
    ensures first { IsFirstEnd known.now.lines.now arguments.now factors.now from to total result }
{
    let Known { lines, scores, .. } = *known;
    let Some((argument, others)) = arguments.split_first() else {
        unreachable!()
    };
    if let Some(end) = only_end(argument, others, from, to) {
        return end;
    }
    if let Some(line) = line_here(known.line.as_ref(), ahead) {
        return end_along(lines, scores, *line, arguments, factors, from, to, total);
    }
    let (line, later) = line_left(known.line, ahead);
    let behind = Known {
        lines,
        scores,
        line,
        owner: known.owner,
    };
    end_among(&behind, tails, later, arguments, factors, from, to, total)
}

/// The first ends with which the arguments, laid from `from` to `to`, have this total, their greatest; ends that are
/// left over stand at `to`. If the arguments have a line, `ahead` of them come before it.
fn first_ends(
    known: &Known<'_, '_>,
    tails: &mut Tails<'_>,
    ahead: u8,
    arguments: &[Arg],
    factors: &[i64],
    from: u16,
    to: u16,
    total: i64,
) -> [u16; 4]
    requires same_problem { known.now.scores.now.problem ≡ known.now.lines.now }
    requires same_tails { tails.old ≡ known.now.lines.now }
    requires owner { IsOwner known.now.lines.now known.now.owner arguments.now factors.now }
    requires line { IfSome known.now.line (λ line. IsLine known.now.lines.now (drop ahead arguments.now) line) }
    requires weighted { AreWeighted known.now.lines.now arguments.now factors.now }
    requires span { IsSpan known.now.lines.now.word from to }
    requires scored { (cell : Cell) → Demands known.now.lines.now arguments.now from to cell
        → HasEntry known.now.scores.now cell }
    requires low { AreLow known.now.lines.now arguments.now factors.now from to }
    requires greatest { IsGreatestOf (HasTotal known.now.lines.now (HasBestScore known.now.lines.now)
        arguments.now factors.now from to) (Some total) }
    ensures same { tails.new ≡ tails.old }
    ensures first { (room : ℕ) → length arguments.now ≤ room → room ≤ 4
        → AreFirstEnds known.now.lines.now arguments.now factors.now from to total (take room result) }
{
    let Known { lines, scores, .. } = *known;
    let (Some((argument, others)), Some((factor, more))) = (
        arguments.split_first(),
        factors.split_first(),
    ) else {
        return [to; 4];
    };
    lines.problem().admissible();
    bounds_are_sound();
    answer_is_unique();
    let end = first_end(known, tails, ahead, arguments, factors, from, to, total);
    let (line, later) = line_left(known.line, ahead);
    let behind = Known {
        lines,
        scores,
        line,
        owner: known.owner,
    };
    let Some(value) = argument_value(lines, scores, argument, from, end) else {
        unreachable!()
    };
    let rest = total - factor * value;
    let [second, third, fourth, _] = first_ends(&behind, tails, later, others, more, end, to, rest);
    [end, second, third, fourth]
}

/// The cuts of a cell's answer, where the splits of the alternative that gives its best score are scored by a sum.
fn cuts_by_sum<'s>(
    lines: &'s Lines<'_>,
    scores: &Scores<'_>,
    tails: &mut Tails<'_>,
    cell: Cell,
    alternative: &KeptAlternative<'s>,
    sum: &WeightedSum,
    best: Best,
) -> [u16; 3]
    requires same_problem { scores.now.problem ≡ lines.now }
    requires same_tails { tails.old ≡ lines.now }
    requires rule { cell.rule < length lines.now.grammar.rules }
    requires in_word { IsSpan lines.now.word cell.from cell.to }
    requires alternative { IsAlternative lines.now cell.rule best.alt alternative.now }
    requires sum { IsSummed lines.now cell.rule best.alt alternative.now sum.now }
    requires scored { (child : Cell) → IsDemandedChild lines.now cell child → HasEntry scores.now child }
    requires best { IsCellBest lines.now cell best.score best.alt }
    ensures same { tails.new ≡ tails.old }
    ensures answer { IsAnswer lines.now cell (BestAnswer best.score (record { alt = best.alt; cuts = result })) }
{
    let problem = lines.problem();
    problem.admissible();
    bellman();
    bounds_are_sound();
    words_keep_their_score_bound();
    answer_is_unique();
    magnitudes_rise();
    values_are_within_magnitudes();
    arguments_are_few_and_known();
    alternatives_fit();
    let arguments = problem.arguments(cell.rule, best.alt);
    let total = turned(problem.goal(), best.score) - sum.constant;
    let (line, ahead) = match lines.way(alternative, cell.rule, best.alt) {
        Way::Several(Some(line)) => (Some(line), alternative.front.len() as u8 + line.first),
        Way::Front | Way::Last(_) | Way::Several(None) => (None, 0),
    };
    let known = Known {
        lines,
        scores,
        line,
        owner: Some(Owner {
            rule: cell.rule,
            alt: best.alt,
        }),
    };
    let [first, second, third, _] = first_ends(
        &known,
        tails,
        ahead,
        arguments,
        &sum.factors[..arguments.len()],
        cell.from,
        cell.to,
        total,
    );
    [first, second, third]
}

/// The cuts of a cell's answer, which complete its best score and the first alternative that gives it.
fn cuts_noting(
    lines: &Lines<'_>,
    scores: &Scores<'_>,
    tails: &mut Tails<'_>,
    cell: Cell,
    best: Best,
) -> [u16; 3]
    requires same_problem { scores.now.problem ≡ lines.now }
    requires same_tails { tails.old ≡ lines.now }
    requires rule { cell.rule < length lines.now.grammar.rules }
    requires in_word { IsSpan lines.now.word cell.from cell.to }
    requires scored { (child : Cell) → IsDemandedChild lines.now cell child → HasEntry scores.now child }
    requires best { IsCellBest lines.now cell best.score best.alt }
    ensures same { tails.new ≡ tails.old }
    ensures answer { IsAnswer lines.now cell (BestAnswer best.score (record { alt = best.alt; cuts = result })) }
{
    lines.problem().admissible();
    bellman();
    let alternative = &lines.alternatives(cell.rule)[best.alt as usize];
    match &alternative.scoring {
        Scoring::Sum(sum) => cuts_by_sum(lines, scores, tails, cell, alternative, sum, best),
        Scoring::Term(term) => cuts_by_term(lines, scores, cell, term, best),
    }
}

/// The cuts of a cell's answer, which complete its best score and the first alternative that gives it. Takes no memory,
/// and about the time of that alternative's score once for each of its arguments.
pub fn first_cuts(lines: &Lines<'_>, scores: &Scores<'_>, cell: Cell, best: Best) -> [u16; 3]
    requires same_problem { scores.now.problem ≡ lines.now }
    requires rule { cell.rule < length lines.now.grammar.rules }
    requires in_word { IsSpan lines.now.word cell.from cell.to }
    requires scored { (child : Cell) → IsDemandedChild lines.now cell child → HasEntry scores.now child }
    requires best { IsCellBest lines.now cell best.score best.alt }
    ensures { IsAnswer lines.now cell (BestAnswer best.score (record { alt = best.alt; cuts = result })) }
{
    let mut tails = Tails::none(lines.problem());
    cuts_noting(lines, scores, &mut tails, cell, best)
}

/// The answer of a cell that has a candidate, by its best score and the first alternative that gives it.
fn answer_with(
    lines: &Lines<'_>,
    scores: &Scores<'_>,
    tails: &mut Tails<'_>,
    cell: Cell,
    best: Best,
) -> Answer
    requires same_problem { scores.now.problem ≡ lines.now }
    requires same_tails { tails.old ≡ lines.now }
    requires rule { cell.rule < length lines.now.grammar.rules }
    requires in_word { IsSpan lines.now.word cell.from cell.to }
    requires scored { (child : Cell) → IsDemandedChild lines.now cell child → HasEntry scores.now child }
    requires best { IsCellBest lines.now cell best.score best.alt }
    ensures same { tails.new ≡ tails.old }
    ensures answer { IsAnswer lines.now cell result }
{
    let cuts = cuts_noting(lines, scores, tails, cell, best);
    let choice = Choice {
        alt: best.alt,
        cuts,
    };
    Answer::Best {
        score: best.score,
        choice,
    }
}

/// The answer of a cell, by the scores of its demanded children. Takes no memory.
pub fn cell_answer(lines: &Lines<'_>, scores: &Scores<'_>, cell: Cell) -> Answer
    requires same_problem { scores.now.problem ≡ lines.now }
    requires rule { cell.rule < length lines.now.grammar.rules }
    requires in_word { IsSpan lines.now.word cell.from cell.to }
    requires scored { (child : Cell) → IsDemandedChild lines.now cell child → HasEntry scores.now child }
    ensures { IsAnswer lines.now cell result }
{
    let mut tails = Tails::none(lines.problem());
    cell_answer_noting(lines, scores, &mut tails, cell)
}

/// The same, with the totals of tails looked up where they are noted, and noted where they are not: the cuts find there
/// what the best score was found from. It takes memory for notes alone, where the latest ends are kept.
pub fn cell_answer_noting(
    lines: &Lines<'_>,
    scores: &Scores<'_>,
    tails: &mut Tails<'_>,
    cell: Cell,
) -> Answer
    requires same_problem { scores.now.problem ≡ lines.now }
    requires same_tails { tails.old ≡ lines.now }
    requires rule { cell.rule < length lines.now.grammar.rules }
    requires in_word { IsSpan lines.now.word cell.from cell.to }
    requires scored { (child : Cell) → IsDemandedChild lines.now cell child → HasEntry scores.now child }
    ensures same { tails.new ≡ tails.old }
    ensures answer { IsAnswer lines.now cell result }
{
    match best_noting(lines, scores, tails, cell) {
        Some(best) => answer_with(lines, scores, tails, cell, best),
        None => Answer::NoCandidate,
    }
}

/// The answer of a cell that has an entry, by that and by the scores of its demanded children. Takes no memory, and of
/// its best score no more time than it takes to tell the alternative: the last one is not asked for it.
pub fn kept_answer(lines: &Lines<'_>, scores: &Scores<'_>, cell: Cell) -> Answer
    requires same_problem { scores.now.problem ≡ lines.now }
    requires rule { cell.rule < length lines.now.grammar.rules }
    requires in_word { IsSpan lines.now.word cell.from cell.to }
    requires scored { (child : Cell) → IsDemandedChild lines.now cell child → HasEntry scores.now child }
    requires kept { HasEntry scores.now cell }
    ensures { IsAnswer lines.now cell result }
{
    let Some(score) = scores.score(cell) else {
        return Answer::NoCandidate;
    };
    let alt = first_giving(lines, scores, cell, score);
    let mut tails = Tails::none(lines.problem());
    answer_with(lines, scores, &mut tails, cell, Best { score, alt })
}
