//! The best score of a cell, and the alternative that gives it, from the scores of its demanded children.

ghost use Rattle.std.specs.Prelude.{◌≡◌, ◌↔◌, ◌+◌, ◌<◌, ◌≤◌, IfSome, IsTrue, MatchOption, Some, [], ◌∷◌, length, drop, option_map};
ghost use Rattle.adp_model.specs.declared.cell.Answer.TheVariants.{NoCandidate};
ghost use Rattle.adp_model.specs.declared.cell.Cell.{Cell};
ghost use Rattle.adp_model.specs.PosedProblem.{PosedProblem, IsSpan};
ghost use Rattle.adp_model.specs.Parts.{alternatives_of};
ghost use Rattle.adp_model.specs.Answers.{IsAnswer};
ghost use Rattle.adp_model.specs.Bellman.{HasBestScore};
ghost use Rattle.adp_model.specs.Demand.{IsDemandedChild};
ghost use Rattle.adp_model.specs.Splits.{FitsSpan};
ghost use Rattle.viable_splits.specs.Placing.{ArePositions, on_span};
ghost use Rattle.split_lines.specs.Beginnings.{IsCandidate};
ghost use Rattle.split_lines.specs.Kept.{IsAlternative, IsSummed};
ghost use Rattle.split_lines.specs.Laid.{Demands};
ghost use Rattle.split_lines.specs.Lines.{IsLine};
ghost use Rattle.split_lines.specs.Ways.{IsClosed, IsOpening};
ghost use Rattle.cell_answers.specs.CellBest.{IsBestOfFirst, IsCellBest};
ghost use Rattle.cell_answers.specs.Entries.{HasEntry};
ghost use Rattle.cell_answers.specs.NotedEnds.{AreLaidOut, HasTotalOf};
ghost use Rattle.cell_answers.specs.Tails.{IsOwner, IsTail, tail_with};
ghost use Rattle.cell_answers.specs.Totals.{AreLow, AreWeighted, HasLaidScore, HasTotal, HasTurnedScore};
ghost use Rattle.score_numbers.specs.Greatest.{IsGreatestOf};

use crate::along::{between_total, greatest_along};
use crate::argument_values::{argument_value, token_value};
use crate::by_term::score_by_term;
use crate::noted_ends::{LaidArguments, Reached, over_noted, side_by_side};
use crate::scores::Scores;
use crate::tails::{Tail, Tails};
use adp_model::laws::bellman::bellman;
use adp_model::laws::bounds::{bounds_are_sound, words_keep_their_score_bound};
use adp_model::laws::order::answer_is_unique;
use adp_model::laws::terms::{magnitudes_rise, values_are_within_magnitudes};
use adp_model::laws::well_formed::{alternatives_fit, arguments_are_few_and_known};
use adp_model::{Arg, Cell};
use score_numbers::{greater, turned};
use split_lines::{
    Candidates, KeptAlternative, Line, Lines, Scoring, Way, WeightedSum, is_fixed,
    line_begins_here, line_begins_later, line_here,
};
use std::ops::Range;

/// The best score of a cell and the first alternative that gives it.
#[derive(Clone, Copy)]
pub struct Best {
    pub score: i64,
    pub alt: u8,
}

/// An alternative of a rule.
#[derive(Clone, Copy)]
pub(crate) struct Owner {
    pub rule: u32,
    pub alt: u8,
}

/// What the totals of an alternative's arguments are found from.
#[derive(Clone, Copy)]
pub(crate) struct Known<'s, 'a> {
    pub lines: &'s Lines<'a>,
    pub scores: &'s Scores<'a>,
    pub line: Option<Line<'s>>,
    /// Whose arguments they are, where the totals of tails are noted.
    pub owner: Option<Owner>,
}

/// The total of one argument that has the letters from `from` to `to`; `None` where it can't have them, or has no
/// value.
#[inline(always)]
fn last_total(
    lines: &Lines<'_>,
    scores: &Scores<'_>,
    argument: &Arg,
    factor: i64,
    from: u16,
    to: u16,
) -> Option<i64>
    requires same_problem { scores.now.problem ≡ lines.now }
    requires weighted { AreWeighted lines.now (argument.now ∷ []) (factor ∷ []) }
    requires span { IsSpan lines.now.word from to }
    requires scored { (cell : Cell) → Demands lines.now (argument.now ∷ []) from to cell → HasEntry scores.now cell }
    requires low { AreLow lines.now (argument.now ∷ []) (factor ∷ []) from to }
    ensures { IsGreatestOf (HasTotal lines.now (HasBestScore lines.now) (argument.now ∷ []) (factor ∷ []) from to)
        result }
{
    lines.problem().admissible();
    bounds_are_sound();
    answer_is_unique();
    if !lines.fits(argument, from, to) {
        return None;
    }
    Some(factor * argument_value(lines, scores, argument, from, to)?)
}

/// The tail that these arguments are, where its totals are noted.
#[inline(always)]
fn tail_of(owner: Option<Owner>, arguments: &[Arg]) -> Option<Tail>
    requires { length arguments.now ≤ 4 }
    ensures { result ≡ option_map (λ it. tail_with it (length arguments.now)) owner }
{
    let Owner { rule, alt } = owner?;
    Some(Tail {
        rule,
        alt,
        count: arguments.len() as u8,
    })
}

/// The greatest total of the arguments behind another one, noted where it was not noted before.
#[cycle(totals)]
#[inline(always)]
pub(crate) fn tail_total(
    known: &Known<'_, '_>,
    tails: &mut Tails<'_>,
    ahead: u8,
    arguments: &[Arg],
    factors: &[i64],
    from: u16,
    to: u16,
) -> Option<i64>
    requires same_problem { known.now.scores.now.problem ≡ known.now.lines.now }
    requires same_tails { tails.old ≡ known.now.lines.now }
    requires owner { IsOwner known.now.lines.now known.now.owner arguments.now factors.now }
    requires line { IfSome known.now.line (λ line. IsLine known.now.lines.now (drop ahead arguments.now) line) }
    requires weighted { AreWeighted known.now.lines.now arguments.now factors.now }
    requires span { IsSpan known.now.lines.now.word from to }
    requires scored { (cell : Cell) → Demands known.now.lines.now arguments.now from to cell
        → HasEntry known.now.scores.now cell }
    requires low { AreLow known.now.lines.now arguments.now factors.now from to }
    ensures same { tails.new ≡ tails.old }
    ensures greatest { IsGreatestOf (HasTotal known.now.lines.now (HasBestScore known.now.lines.now)
        arguments.now factors.now from to) result }
{
    let Some(tail) = tail_of(known.owner, arguments) else {
        return greatest_total(known, tails, ahead, arguments, factors, from, to);
    };
    if let Some(total) = tails.total(tail, from, to) {
        return total;
    }
    let total = greatest_total(known, tails, ahead, arguments, factors, from, to);
    tails.note(tail, from, to, total);
    total
}

/// The greatest total of laid arguments whose first one ends here.
#[cycle(totals)]
#[inline(always)]
fn total_at(
    known: &Known<'_, '_>,
    tails: &mut Tails<'_>,
    ahead: u8,
    laid: &LaidArguments<'_>,
    end: u16,
) -> Option<i64>
    requires same_problem { known.now.scores.now.problem ≡ known.now.lines.now }
    requires same_tails { tails.old ≡ known.now.lines.now }
    requires owner { IsOwner known.now.lines.now known.now.owner laid.now.others.now laid.now.factors.now }
    requires line { IfSome known.now.line (λ line. IsLine known.now.lines.now (drop ahead laid.now.others.now) line) }
    requires laid { AreLaidOut known.now.lines.now known.now.scores.now laid.now }
    requires fits { FitsSpan known.now.lines.now (on_span laid.now.first.now laid.now.from end) }
    requires within { end ≤ laid.now.to }
    ensures same { tails.new ≡ tails.old }
    ensures greatest { IsGreatestOf (HasTotalOf known.now.lines.now laid.now end) result }
{
    let Known { lines, scores, .. } = *known;
    lines.problem().admissible();
    bounds_are_sound();
    answer_is_unique();
    let Some(value) = argument_value(lines, scores, laid.first, laid.from, end) else {
        return None;
    };
    let Some(rest) = tail_total(known, tails, ahead, laid.others, laid.factors, end, laid.to) else {
        return None;
    };
    Some(laid.factor * value + rest)
}

/// The greatest total of laid arguments whose first one may end at no other positions than these: end by end, and at
/// once over those from which it is noted what the others are worth.
#[cycle(totals)]
#[inline(always)]
fn total_by_ends(
    known: &Known<'_, '_>,
    tails: &mut Tails<'_>,
    ahead: u8,
    laid: &LaidArguments<'_>,
    ends: Range<u16>,
) -> Option<i64>
    requires same_problem { known.now.scores.now.problem ≡ known.now.lines.now }
    requires same_tails { tails.old ≡ known.now.lines.now }
    requires owner { IsOwner known.now.lines.now known.now.owner laid.now.others.now laid.now.factors.now }
    requires line { IfSome known.now.line (λ line. IsLine known.now.lines.now (drop ahead laid.now.others.now) line) }
    requires laid { AreLaidOut known.now.lines.now known.now.scores.now laid.now }
    requires ends { ArePositions known.now.lines.now laid.now.first.now laid.now.others.now laid.now.from laid.now.to
        ends }
    ensures same { tails.new ≡ tails.old }
    ensures greatest { IsGreatestOf (HasTotal known.now.lines.now (HasBestScore known.now.lines.now)
        (laid.now.first.now ∷ laid.now.others.now) (laid.now.factor ∷ laid.now.factors.now) laid.now.from laid.now.to)
        result }
{
    let Known { lines, scores, .. } = *known;
    let tail = tail_of(known.owner, laid.others);
    let sides = side_by_side(scores, tail, laid, ends.start, ends.end);
    let mut reached = Reached {
        greatest: None,
        end: ends.start,
    };
    while reached.end < ends.end {
        reached = over_noted(lines, scores, tails, laid, sides, reached, ends.end);
        if reached.end < ends.end {
            let total = total_at(known, tails, ahead, laid, reached.end);
            reached = Reached {
                greatest: greater(reached.greatest, total),
                end: reached.end + 1,
            };
        }
    }
    reached.greatest
}

/// The greatest total of arguments that are laid from `from` to `to`. If they have a line, `ahead` of them come before
/// it.
#[cycle(totals)]
fn greatest_total(
    known: &Known<'_, '_>,
    tails: &mut Tails<'_>,
    ahead: u8,
    arguments: &[Arg],
    factors: &[i64],
    from: u16,
    to: u16,
) -> Option<i64>
    requires same_problem { known.now.scores.now.problem ≡ known.now.lines.now }
    requires same_tails { tails.old ≡ known.now.lines.now }
    requires owner { IsOwner known.now.lines.now known.now.owner arguments.now factors.now }
    requires line { IfSome known.now.line (λ line. IsLine known.now.lines.now (drop ahead arguments.now) line) }
    requires weighted { AreWeighted known.now.lines.now arguments.now factors.now }
    requires span { IsSpan known.now.lines.now.word from to }
    requires scored { (cell : Cell) → Demands known.now.lines.now arguments.now from to cell
        → HasEntry known.now.scores.now cell }
    requires low { AreLow known.now.lines.now arguments.now factors.now from to }
    ensures same { tails.new ≡ tails.old }
    ensures greatest { IsGreatestOf (HasTotal known.now.lines.now (HasBestScore known.now.lines.now)
        arguments.now factors.now from to) result }
{
    let Known { lines, scores, .. } = *known;
    line_begins_here();
    line_begins_later();
    if let Some(line) = line_here(known.line.as_ref(), ahead) {
        return greatest_along(lines, scores, *line, arguments, factors, from, to);
    }
    let (Some((argument, others)), Some((factor, factors))) = (
        arguments.split_first(),
        factors.split_first(),
    ) else {
        return if from == to { Some(0) } else { None };
    };
    lines.problem().admissible();
    bounds_are_sound();
    answer_is_unique();
    let ahead = ahead.saturating_sub(1);
    if is_fixed(argument) {
        let end = lines.token_end(argument, from, to)?;
        let rest = greatest_total(known, tails, ahead, others, factors, end, to)?;
        return Some(factor * token_value(lines, argument, from, end) + rest);
    }
    if others.is_empty() {
        return last_total(lines, scores, argument, *factor, from, to);
    }
    let laid = LaidArguments {
        first: argument,
        factor: *factor,
        others,
        factors,
        from,
        to,
    };
    let ends = lines.ends_of_first(arguments, from, to);
    total_by_ends(known, tails, ahead, &laid, ends)
}

/// The greatest total of several arguments that are laid from `from` to `to`, along their line if they have one.
#[inline(always)]
fn total_of_several(
    lines: &Lines<'_>,
    scores: &Scores<'_>,
    tails: &mut Tails<'_>,
    owner: Owner,
    line: Option<Line<'_>>,
    arguments: &[Arg],
    factors: &[i64],
    from: u16,
    to: u16,
) -> Option<i64>
    requires same_problem { scores.now.problem ≡ lines.now }
    requires same_tails { tails.old ≡ lines.now }
    requires owner { IsTail lines.now (tail_with owner (length arguments.now)) arguments.now factors.now }
    requires line { IfSome line (λ line. IsLine lines.now (drop line.first arguments.now) line) }
    requires weighted { AreWeighted lines.now arguments.now factors.now }
    requires span { IsSpan lines.now.word from to }
    requires scored { (cell : Cell) → Demands lines.now arguments.now from to cell → HasEntry scores.now cell }
    requires low { AreLow lines.now arguments.now factors.now from to }
    ensures same { tails.new ≡ tails.old }
    ensures greatest { IsGreatestOf (HasTotal lines.now (HasBestScore lines.now) arguments.now factors.now from to)
        result }
{
    let ahead = line.map_or(0, |line| line.first);
    line_begins_here();
    if let Some(line) = line_here(line.as_ref(), ahead) {
        return greatest_along(lines, scores, *line, arguments, factors, from, to);
    }
    let known = Known {
        lines,
        scores,
        line,
        owner: if line.is_some() { Some(owner) } else { None },
    };
    greatest_total(&known, tails, ahead, arguments, factors, from, to)
}

/// The best score that an alternative gives a cell whose first letters its tokens in front have up to `from`, turned;
/// `None` where it gives none. All ways are scored by a sum: the total of the arguments, to which the constant is added.
#[inline(never)]
fn score_by_sum<'s>(
    lines: &'s Lines<'_>,
    scores: &Scores<'_>,
    tails: &mut Tails<'_>,
    cell: Cell,
    alternative: &KeptAlternative<'s>,
    sum: &WeightedSum,
    alt: u8,
    from: u16,
) -> Option<i64>
    requires same_problem { scores.now.problem ≡ lines.now }
    requires same_tails { tails.old ≡ lines.now }
    requires rule { cell.rule < length lines.now.grammar.rules }
    requires in_word { IsSpan lines.now.word cell.from cell.to }
    requires in_range { alt < length (alternatives_of lines.now.grammar cell.rule) }
    requires alternative { IsAlternative lines.now cell.rule alt alternative.now }
    requires sum { IsSummed lines.now cell.rule alt alternative.now sum.now }
    requires scored { (child : Cell) → IsDemandedChild lines.now cell child → HasEntry scores.now child }
    requires opening { IsOpening lines.now alternative.now cell from }
    ensures same { tails.new ≡ tails.old }
    ensures greatest { IsGreatestOf (HasLaidScore lines.now cell alt) result }
{
    lines.problem().admissible();
    bounds_are_sound();
    words_keep_their_score_bound();
    answer_is_unique();
    magnitudes_rise();
    values_are_within_magnitudes();
    arguments_are_few_and_known();
    let (others, factors) = (alternative.others, sum.other_factors(alternative));
    let rest = match lines.way(alternative, cell.rule, alt) {
        Way::Front => Some(0),
        Way::Last(argument) => last_total(lines, scores, argument, factors[0], from, cell.to),
        Way::Several(line) => {
            let owner = Owner {
                rule: cell.rule,
                alt,
            };
            total_of_several(
                lines, scores, tails, owner, line, others, factors, from, cell.to,
            )
        }
    };
    let Some(rest) = rest else {
        return None;
    };
    let front = between_total(
        lines,
        alternative.front,
        sum.front_factors(alternative),
        alternative.weighs,
        cell.from,
        from,
    );
    Some(sum.constant + (front + rest))
}

/// The best score that an alternative gives a cell whose first letters its tokens in front have up to `from`, turned;
/// `None` where it gives none. This is the one place that asks how its splits are scored.
#[inline(always)]
fn score_behind<'s>(
    lines: &'s Lines<'_>,
    scores: &Scores<'_>,
    tails: &mut Tails<'_>,
    cell: Cell,
    alternative: &KeptAlternative<'s>,
    alt: u8,
    from: u16,
) -> Option<i64>
    requires same_problem { scores.now.problem ≡ lines.now }
    requires same_tails { tails.old ≡ lines.now }
    requires rule { cell.rule < length lines.now.grammar.rules }
    requires in_word { IsSpan lines.now.word cell.from cell.to }
    requires in_range { alt < length (alternatives_of lines.now.grammar cell.rule) }
    requires alternative { IsAlternative lines.now cell.rule alt alternative.now }
    requires scored { (child : Cell) → IsDemandedChild lines.now cell child → HasEntry scores.now child }
    requires opening { IsOpening lines.now alternative.now cell from }
    ensures same { tails.new ≡ tails.old }
    ensures greatest { IsGreatestOf (HasTurnedScore lines.now cell alt) result }
{
    match &alternative.scoring {
        Scoring::Sum(sum) => score_by_sum(lines, scores, tails, cell, alternative, sum, alt, from),
        Scoring::Term(term) => score_by_term(lines, scores, cell, term, alt),
    }
}

/// The best score that an alternative gives a cell, turned; `None` where it gives none.
#[inline(always)]
fn alternative_score(
    lines: &Lines<'_>,
    scores: &Scores<'_>,
    tails: &mut Tails<'_>,
    cell: Cell,
    alternative: &KeptAlternative<'_>,
    alt: u8,
) -> Option<i64>
    requires same_problem { scores.now.problem ≡ lines.now }
    requires same_tails { tails.old ≡ lines.now }
    requires rule { cell.rule < length lines.now.grammar.rules }
    requires in_word { IsSpan lines.now.word cell.from cell.to }
    requires in_range { alt < length (alternatives_of lines.now.grammar cell.rule) }
    requires alternative { IsAlternative lines.now cell.rule alt alternative.now }
    requires scored { (child : Cell) → IsDemandedChild lines.now cell child → HasEntry scores.now child }
    ensures same { tails.new ≡ tails.old }
    ensures greatest { IsGreatestOf (HasTurnedScore lines.now cell alt) result }
{
    lines.problem().admissible();
    alternatives_fit();
    match lines.opening(alternative, cell) {
        Some(end) => score_behind(lines, scores, tails, cell, alternative, alt, end),
        None => None,
    }
}

/// The best of what the first alternatives give a cell with what one more gives it, turned: where both are the same,
/// the first stays.
#[inline(always)]
fn better(best: Option<Best>, score: Option<i64>, alt: u8) -> Option<Best>
    ensures { (p : PosedProblem) (cell : Cell) → IsBestOfFirst p cell alt best
        → IsGreatestOf (HasTurnedScore p cell alt) score → IsBestOfFirst p cell (alt + 1) result }
{
    let Some(score) = score else {
        return best;
    };
    if let Some(first) = best {
        if score <= first.score {
            return best;
        }
    }
    Some(Best { score, alt })
}

/// The best score of a cell and the first alternative that gives it, by the scores of its demanded children; `None`
/// where it has no candidate.
pub(crate) fn best_noting(
    lines: &Lines<'_>,
    scores: &Scores<'_>,
    tails: &mut Tails<'_>,
    cell: Cell,
) -> Option<Best>
    requires same_problem { scores.now.problem ≡ lines.now }
    requires same_tails { tails.old ≡ lines.now }
    requires rule { cell.rule < length lines.now.grammar.rules }
    requires in_word { IsSpan lines.now.word cell.from cell.to }
    requires scored { (child : Cell) → IsDemandedChild lines.now cell child → HasEntry scores.now child }
    ensures same { tails.new ≡ tails.old }
    ensures best { MatchOption result (IsAnswer lines.now cell NoCandidate)
        (λ best. IsCellBest lines.now cell best.score best.alt) }
{
    let problem = lines.problem();
    problem.admissible();
    bellman();
    bounds_are_sound();
    magnitudes_rise();
    values_are_within_magnitudes();
    arguments_are_few_and_known();
    alternatives_fit();
    let goal = problem.goal();
    let candidates = lines.candidates(cell);
    let mut best = None;
    let mut number = candidates.next(0);
    while number < candidates.alternatives.len() {
        let alt = number as u8;
        let alternative = &candidates.alternatives[number];
        let score = alternative_score(lines, scores, tails, cell, alternative, alt);
        best = better(best, score, alt);
        number = candidates.next(number + 1);
    }
    let Some(Best { score, alt }) = best else {
        return None;
    };
    Some(Best {
        score: turned(goal, score),
        alt,
    })
}

/// The best score of a cell and the first alternative that gives it, by the scores of its demanded children; `None`
/// where it has no candidate. Takes no memory.
pub fn cell_best(lines: &Lines<'_>, scores: &Scores<'_>, cell: Cell) -> Option<Best>
    requires same_problem { scores.now.problem ≡ lines.now }
    requires rule { cell.rule < length lines.now.grammar.rules }
    requires in_word { IsSpan lines.now.word cell.from cell.to }
    requires scored { (child : Cell) → IsDemandedChild lines.now cell child → HasEntry scores.now child }
    ensures { MatchOption result (IsAnswer lines.now cell NoCandidate)
        (λ best. IsCellBest lines.now cell best.score best.alt) }
{
    let mut tails = Tails::none(lines.problem());
    best_noting(lines, scores, &mut tails, cell)
}

/// Whether this score is given.
#[inline(always)]
fn is_score(given: Option<i64>, score: i64) -> bool
    ensures { IsTrue result ↔ (given ≡ Some score) }
{
    match given {
        Some(given) => given == score,
        None => false,
    }
}

/// The best score that an alternative gives a cell, turned, where it may begin where the cell does; any other gives none.
#[inline(always)]
fn candidate_score(
    lines: &Lines<'_>,
    scores: &Scores<'_>,
    tails: &mut Tails<'_>,
    cell: Cell,
    candidates: Candidates<'_>,
    alternative: &KeptAlternative<'_>,
    alt: u8,
) -> Option<i64>
    requires same_problem { scores.now.problem ≡ lines.now }
    requires same_tails { tails.old ≡ lines.now }
    requires rule { cell.rule < length lines.now.grammar.rules }
    requires in_word { IsSpan lines.now.word cell.from cell.to }
    requires few { alt < 64 }
    requires in_range { alt < length (alternatives_of lines.now.grammar cell.rule) }
    requires alternative { IsAlternative lines.now cell.rule alt alternative.now }
    requires others { (IsCandidate candidates alt → ⊥) → IsClosed lines.now alternative.now cell }
    requires scored { (child : Cell) → IsDemandedChild lines.now cell child → HasEntry scores.now child }
    ensures same { tails.new ≡ tails.old }
    ensures greatest { IsGreatestOf (HasTurnedScore lines.now cell alt) result }
{
    lines.problem().admissible();
    alternatives_fit();
    if !candidates.have(alt) {
        return None;
    }
    alternative_score(lines, scores, tails, cell, alternative, alt)
}

/// The first alternative that gives a cell this score, its best one. What the last alternative gives is not asked: where
/// no other one gives it, that one does.
pub(crate) fn first_giving(lines: &Lines<'_>, scores: &Scores<'_>, cell: Cell, score: i64) -> u8
    requires same_problem { scores.now.problem ≡ lines.now }
    requires rule { cell.rule < length lines.now.grammar.rules }
    requires in_word { IsSpan lines.now.word cell.from cell.to }
    requires scored { (child : Cell) → IsDemandedChild lines.now cell child → HasEntry scores.now child }
    requires best { HasBestScore lines.now cell score }
    ensures { IsCellBest lines.now cell score result }
{
    let problem = lines.problem();
    problem.admissible();
    bellman();
    bounds_are_sound();
    answer_is_unique();
    magnitudes_rise();
    values_are_within_magnitudes();
    arguments_are_few_and_known();
    alternatives_fit();
    let sought = turned(problem.goal(), score);
    let mut tails = Tails::none(problem);
    let candidates = lines.candidates(cell);
    let last = candidates.alternatives.len() - 1;
    for number in 0..last {
        let alt = number as u8;
        let one = &candidates.alternatives[number];
        let given = candidate_score(lines, scores, &mut tails, cell, candidates, one, alt);
        if is_score(given, sought) {
            return alt;
        }
    }
    last as u8
}

/// The best score of a cell, by the scores of its demanded children; `None` where it has no candidate. Takes no memory.
#[inline]
pub fn cell_score(lines: &Lines<'_>, scores: &Scores<'_>, cell: Cell) -> Option<i64>
    requires same_problem { scores.now.problem ≡ lines.now }
    requires rule { cell.rule < length lines.now.grammar.rules }
    requires in_word { IsSpan lines.now.word cell.from cell.to }
    requires scored { (child : Cell) → IsDemandedChild lines.now cell child → HasEntry scores.now child }
    ensures { MatchOption result (IsAnswer lines.now cell NoCandidate) (HasBestScore lines.now cell) }
{
    match cell_best(lines, scores, cell) {
        Some(best) => Some(best.score),
        None => None,
    }
}

/// The same, with the totals of tails looked up where they are noted, and noted where they are not. It takes memory for
/// notes alone, and where there is none it notes nothing.
#[inline]
pub fn cell_score_noting(
    lines: &Lines<'_>,
    scores: &Scores<'_>,
    tails: &mut Tails<'_>,
    cell: Cell,
) -> Option<i64>
    requires same_problem { scores.now.problem ≡ lines.now }
    requires same_tails { tails.old ≡ lines.now }
    requires rule { cell.rule < length lines.now.grammar.rules }
    requires in_word { IsSpan lines.now.word cell.from cell.to }
    requires scored { (child : Cell) → IsDemandedChild lines.now cell child → HasEntry scores.now child }
    ensures same { tails.new ≡ tails.old }
    ensures best { MatchOption result (IsAnswer lines.now cell NoCandidate) (HasBestScore lines.now cell) }
{
    match best_noting(lines, scores, tails, cell) {
        Some(best) => Some(best.score),
        None => None,
    }
}
