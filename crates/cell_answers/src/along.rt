//! The greatest total along a line.

ghost use Rattle.std.specs.Prelude.{◌≡◌, ◌↔◌, ℕ, ℤ, [], ◌∷◌, ◌++◌, IfSome, IsTrue, false};
ghost use Rattle.std.specs.List.{AllByRecursion, Contains};
ghost use Rattle.adp_model.specs.declared.cell.Cell.{Cell};
ghost use Rattle.adp_model.specs.PosedProblem.{IsSpan};
ghost use Rattle.adp_model.specs.Bellman.{HasBestScore};
ghost use Rattle.viable_splits.specs.Placing.{Cover};
ghost use Rattle.split_lines.specs.Laid.{IsFixed, Demands};
ghost use Rattle.split_lines.specs.Lines.{IsLine};
ghost use Rattle.score_numbers.specs.Worthless.{AreWorthless};
ghost use Rattle.cell_answers.specs.ArgumentEntries.{IsScaled};
ghost use Rattle.cell_answers.specs.Through.{HasLineTotal};
ghost use Rattle.cell_answers.specs.Entries.{HasEntry};
ghost use Rattle.cell_answers.specs.Opened.{IsOpened};
ghost use Rattle.cell_answers.specs.ScaledLines.{AreScaledRules, IsScaledLine};
ghost use Rattle.cell_answers.specs.Totals.{AreLow, AreWeighted, HasTotal};
ghost use Rattle.score_numbers.specs.Greatest.{IsGreatestOf};

use crate::argument_values::{Numbers, token_value, value_among};
use crate::letters_between::weighed_line;
use crate::opened::{OpenedLine, open_line};
use crate::scores::Scores;
use adp_model::laws::bounds::bounds_are_sound;
use adp_model::laws::order::answer_is_unique;
use adp_model::{Arg, Goal};
use score_numbers::{
    Positions, Scales, are_worthless, greater, greatest_long, greatest_long_weighed,
    greatest_medium, greatest_medium_weighed, greatest_short, greatest_short_weighed,
    greatest_whole, greatest_whole_weighed,
};
use split_lines::{Line, Lines, fixed_length};

/// The total of one token of fixed length that matches the letters from `from` to `to`.
#[inline(always)]
fn one_total(lines: &Lines<'_>, token: &Arg, factor: i64, from: u16, to: u16) -> i64
    requires weighted { AreWeighted lines.now (token.now ∷ []) (factor ∷ []) }
    requires fixed { AllByRecursion IsFixed (token.now ∷ []) }
    requires covers { Cover lines.now (token.now ∷ []) from to }
    requires low { AreLow lines.now (token.now ∷ []) (factor ∷ []) from to }
    ensures { HasTotal lines.now (HasBestScore lines.now) (token.now ∷ []) (factor ∷ []) from to result }
{
    factor * token_value(lines, token, from, to)
}

/// The total of tokens of fixed length that match the letters from `from` to `to`. In most cases there is but one.
pub fn fixed_total(lines: &Lines<'_>, tokens: &[Arg], factors: &[i64], from: u16, to: u16) -> i64
    requires weighted { AreWeighted lines.now tokens.now factors.now }
    requires fixed { AllByRecursion IsFixed tokens.now }
    requires covers { Cover lines.now tokens.now from to }
    requires low { AreLow lines.now tokens.now factors.now from to }
    ensures { HasTotal lines.now (HasBestScore lines.now) tokens.now factors.now from to result }
{
    let (Some((token, tokens)), Some((factor, factors))) = (
        tokens.split_first(),
        factors.split_first(),
    ) else {
        return 0;
    };
    if tokens.is_empty() {
        return one_total(lines, token, *factor, from, to);
    }
    let end = from + fixed_length(token) as u16;
    factor * token_value(lines, token, from, end) + fixed_total(lines, tokens, factors, end, to)
}

/// The factor of a rule, turned, which is the factor of numbers that were turned; `None` for a token, and where it does
/// not fit.
fn scale_of(argument: &Arg, factor: i64, goal: Goal) -> Option<i64>
    ensures { IfSome result (λ scale. IsScaled argument.now factor goal scale) }
{
    match (argument, goal) {
        (Arg::Rule(_), Goal::Least) => factor.checked_neg(),
        (Arg::Rule(_), Goal::Greatest) => Some(factor),
        _ => None,
    }
}

/// The factors of the numbers that stand for the scores of a line's two arguments of open length; `None` where the two
/// are not both rules, or a factor does not fit.
#[inline(always)]
pub fn rule_scales(line: &OpenedLine<'_>) -> Option<Scales>
    ensures { IfSome result (AreScaledRules line.now) }
{
    let arguments = line.arguments;
    let (Some(before), Some(behind)) = (
        scale_of(arguments.first, arguments.first_factor, line.row.goal),
        scale_of(arguments.second, arguments.second_factor, line.column.goal),
    ) else {
        return None;
    };
    Some(Scales { before, behind })
}

/// Whether the tokens add nothing to a total, whatever letters they match; in most cases there are none.
#[inline(always)]
fn add_nothing(tokens: &[Arg], factors: &[i64]) -> bool
    ensures { IsTrue result ↔ AreWorthless tokens.now factors.now }
{
    if tokens.is_empty() {
        return true;
    }
    are_worthless(tokens, factors)
}

/// The factors of numbers of which the totals of a line are sums; `None` where its two arguments of open length are not
/// both rules, a factor does not fit, or the tokens between the two may add something.
#[inline(always)]
pub fn scales_of(line: &OpenedLine<'_>) -> Option<Scales>
    ensures { IfSome result (IsScaledLine line.now) }
{
    let Some(scales) = rule_scales(line) else {
        return None;
    };
    if add_nothing(line.arguments.middle, line.arguments.middle_factors) {
        Some(scales)
    } else {
        None
    }
}

/// The factors of a line's two arguments of open length, which are those of entries.
#[inline(always)]
pub fn factors_of(line: &OpenedLine<'_>) -> Scales
    ensures before { result.before ≡ line.now.arguments.first_factor }
    ensures behind { result.behind ≡ line.now.arguments.second_factor }
{
    Scales {
        before: line.arguments.first_factor,
        behind: line.arguments.second_factor,
    }
}

/// The total of tokens of fixed length, where tokens that do not weigh anything add nothing.
#[inline]
pub fn between_total(
    lines: &Lines<'_>,
    tokens: &[Arg],
    factors: &[i64],
    weigh: bool,
    from: u16,
    to: u16,
) -> i64
    requires weighted { AreWeighted lines.now tokens.now factors.now }
    requires fixed { AllByRecursion IsFixed tokens.now }
    requires covers { Cover lines.now tokens.now from to }
    requires low { AreLow lines.now tokens.now factors.now from to }
    requires worthless { weigh ≡ false → AreWorthless tokens.now factors.now }
    ensures { HasTotal lines.now (HasBestScore lines.now) tokens.now factors.now from to result }
{
    if weigh {
        fixed_total(lines, tokens, factors, from, to)
    } else {
        0
    }
}

/// The total of the arguments of a line up to its second one of open length where the boundary stands at this position;
/// `None` where one of the two has no candidate. Tokens between them that do not weigh anything add nothing.
#[inline(always)]
pub fn total_through(
    lines: &Lines<'_>,
    line: &OpenedLine<'_>,
    weigh: bool,
    position: u16,
) -> Option<i64>
    requires opened { IsOpened lines.now line.now }
    requires worthless { weigh ≡ false
        → AreWorthless line.now.arguments.middle.now line.now.arguments.middle_factors.now }
    requires stands { Contains line.now.boundary.positions.now position }
    ensures greatest { IsGreatestOf (HasLineTotal lines.now line.now position) result }
    ensures only { IfSome result (λ total. (other : ℤ)
        → HasLineTotal lines.now line.now position other → other ≡ total) }
{
    lines.problem().admissible();
    bounds_are_sound();
    answer_is_unique();
    let arguments = line.arguments;
    let last = line.boundary.last;
    let behind = position + line.boundary.letters;
    let Some(first) = value_among(
        lines,
        line.row,
        arguments.first,
        position,
        line.from,
        position,
    ) else {
        return None;
    };
    let Some(second) = value_among(lines, line.column, arguments.second, behind, behind, last)
    else {
        return None;
    };
    let between = between_total(
        lines,
        arguments.middle,
        arguments.middle_factors,
        weigh,
        position,
        behind,
    );
    Some(arguments.first_factor * first + between + arguments.second_factor * second)
}

/// The greatest total of the arguments of a line up to its second one of open length, position by position.
#[inline(always)]
fn greatest_valued(lines: &Lines<'_>, line: &OpenedLine<'_>) -> Option<i64>
    requires opened { IsOpened lines.now line.now }
    ensures { IsGreatestOf (HasTotal lines.now (HasBestScore lines.now)
        (line.now.arguments.first.now ∷ (line.now.arguments.middle.now ++ line.now.arguments.second.now ∷ []))
        (line.now.arguments.first_factor
        ∷ (line.now.arguments.middle_factors.now ++ line.now.arguments.second_factor ∷ []))
        line.now.from line.now.boundary.last) result }
{
    let weigh = !are_worthless(line.arguments.middle, line.arguments.middle_factors);
    let mut greatest = None;
    for position in line.boundary.positions {
        let total = total_through(lines, line, weigh, *position);
        greatest = greater(greatest, total);
    }
    greatest
}

/// The greatest total of the arguments of a line up to its second one of open length, where tokens between the two may
/// add something: at once where these are one letter, and else position by position.
fn greatest_with_letters(lines: &Lines<'_>, line: &OpenedLine<'_>) -> Option<i64>
    requires opened { IsOpened lines.now line.now }
    ensures { IsGreatestOf (HasTotal lines.now (HasBestScore lines.now)
        (line.now.arguments.first.now ∷ (line.now.arguments.middle.now ++ line.now.arguments.second.now ∷ []))
        (line.now.arguments.first_factor
        ∷ (line.now.arguments.middle_factors.now ++ line.now.arguments.second_factor ∷ []))
        line.now.from line.now.boundary.last) result }
{
    if let Some(weighed) = weighed_line(lines, line) {
        let (weights, scales) = (weighed.weights, weighed.scales);
        lines.problem().admissible();
        bounds_are_sound();
        answer_is_unique();
        let positions = Positions {
            at: line.boundary.positions,
            first: line.row.first,
        };
        match (line.row.numbers, line.column.numbers) {
            (Numbers::Short(first), Numbers::Short(second)) => {
                return greatest_short_weighed(first, second, weights, positions, scales);
            }
            (Numbers::Medium(first), Numbers::Medium(second)) => {
                return greatest_medium_weighed(first, second, weights, positions, scales);
            }
            (Numbers::Long(first), Numbers::Long(second)) => {
                return greatest_long_weighed(first, second, weights, positions, scales);
            }
            (Numbers::Whole(first), Numbers::Whole(second)) => {
                let factors = factors_of(line);
                return greatest_whole_weighed(first, second, weights, positions, factors);
            }
            _ => {}
        }
    }
    greatest_valued(lines, line)
}

/// The greatest total of the arguments of a line up to its second one of open length.
#[inline(always)]
fn greatest_front(lines: &Lines<'_>, line: &OpenedLine<'_>) -> Option<i64>
    requires opened { IsOpened lines.now line.now }
    ensures { IsGreatestOf (HasTotal lines.now (HasBestScore lines.now)
        (line.now.arguments.first.now ∷ (line.now.arguments.middle.now ++ line.now.arguments.second.now ∷ []))
        (line.now.arguments.first_factor
        ∷ (line.now.arguments.middle_factors.now ++ line.now.arguments.second_factor ∷ []))
        line.now.from line.now.boundary.last) result }
{
    if let Some(scales) = scales_of(line) {
        lines.problem().admissible();
        bounds_are_sound();
        answer_is_unique();
        let positions = Positions {
            at: line.boundary.positions,
            first: line.row.first,
        };
        match (line.row.numbers, line.column.numbers) {
            (Numbers::Short(first), Numbers::Short(second)) => {
                return greatest_short(first, second, positions, line.boundary.limits, scales);
            }
            (Numbers::Medium(first), Numbers::Medium(second)) => {
                return greatest_medium(first, second, positions, scales);
            }
            (Numbers::Long(first), Numbers::Long(second)) => {
                return greatest_long(first, second, positions, scales);
            }
            (Numbers::Whole(first), Numbers::Whole(second)) => {
                return greatest_whole(first, second, positions, factors_of(line));
            }
            _ => {}
        }
    }
    greatest_with_letters(lines, line)
}

/// The greatest total of arguments that begin with the first one of their line, laid from `from` to `to`.
#[inline(never)]
pub fn greatest_along(
    lines: &Lines<'_>,
    scores: &Scores<'_>,
    line: Line<'_>,
    arguments: &[Arg],
    factors: &[i64],
    from: u16,
    to: u16,
) -> Option<i64>
    requires same_problem { scores.now.problem ≡ lines.now }
    requires line { IsLine lines.now arguments.now line }
    requires weighted { AreWeighted lines.now arguments.now factors.now }
    requires span { IsSpan lines.now.word from to }
    requires scored { (cell : Cell) → Demands lines.now arguments.now from to cell → HasEntry scores.now cell }
    requires low { AreLow lines.now arguments.now factors.now from to }
    ensures { IsGreatestOf (HasTotal lines.now (HasBestScore lines.now) arguments.now factors.now from to) result }
{
    lines.problem().admissible();
    bounds_are_sound();
    answer_is_unique();
    let opened = open_line(lines, scores, line, arguments, factors, from, to)?;
    let front = greatest_front(lines, &opened)?;
    let arguments = opened.arguments;
    let last = opened.boundary.last;
    let has_tail = !arguments.tail.is_empty();
    let behind = between_total(
        lines,
        arguments.tail,
        arguments.tail_factors,
        has_tail,
        last,
        to,
    );
    Some(front + behind)
}
