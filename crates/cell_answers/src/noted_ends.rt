//! Totals of arguments at the ends of the first one from which it is noted what the others are worth: entries and notes
//! that stand side by side are gone over together.

ghost use Rattle.std.specs.Prelude.{◌≡◌, ◌≤◌, IfSome, map};
ghost use Rattle.cell_answers.specs.NotedEnds.{AreAll, AreEntriesOf, AreLaidOut, AreNotesOf, FitBetween, IsReached, IsSideBySide};
ghost use Rattle.cell_answers.specs.Tails.{IsTail};

use crate::argument_values::{Entries, Number, Numbers};
use crate::scores::Scores;
use crate::tails::{Note, Tail, Tails, told};
use adp_model::laws::bounds::bounds_are_sound;
use adp_model::laws::order::answer_is_unique;
use adp_model::{Arg, Cell, Goal};
use cell_tables::Side;
use score_numbers::{greater, score_of};
use split_lines::Lines;

/// How many ends there are at least where they are gone over side by side.
const FEW_ENDS: u16 = 8;

/// Arguments that are laid from one position to another, by the first one.
#[derive(Clone, Copy)]
pub struct LaidArguments<'s> {
    pub first: &'s Arg,
    pub factor: i64,
    pub others: &'s [Arg],
    pub factors: &'s [i64],
    pub from: u16,
    pub to: u16,
}

/// The greatest total of laid arguments whose first one ends before a position.
#[derive(Clone, Copy)]
pub struct Reached {
    pub greatest: Option<i64>,
    pub end: u16,
}

/// What tells the totals of laid arguments: the entries of the first one, by its ends, and the tail that the others are.
#[derive(Clone, Copy)]
pub struct SideBySide<'s> {
    pub entries: Entries<'s>,
    pub tail: Tail,
}

/// The entries of the first of these arguments for its ends from one position on and before another, and the tail behind
/// it; `None` where they are few, it is a token, its entries are too wide, or nothing is noted of the others.
#[inline(always)]
pub fn side_by_side<'s>(
    scores: &'s Scores<'_>,
    tail: Option<Tail>,
    laid: &LaidArguments<'_>,
    first: u16,
    past: u16,
) -> Option<SideBySide<'s>>
    requires tail { IfSome tail (λ it. IsTail scores.now.problem it laid.now.others.now laid.now.factors.now) }
    ensures { IfSome result (IsSideBySide scores.now laid.now first past) }
{
    let tail = tail?;
    let Arg::Rule(rule) = laid.first else {
        return None;
    };
    if past.saturating_sub(first) < FEW_ENDS {
        return None;
    }
    let rule = *rule;
    let from = laid.from;
    let last = past - 1;
    scores.entry(Cell {
        rule,
        from,
        to: first,
    })?;
    scores.entry(Cell {
        rule,
        from,
        to: last,
    })?;
    let entries = scores.entries(Side::Rows, laid.first, from, first, last);
    if let Numbers::Whole(_) = entries.numbers {
        return None;
    }
    Some(SideBySide { entries, tail })
}

/// Goes on over the ends before `past`, with the numbers for the positions from `first` on and with the notes, of which
/// the first is for the end that was reached, up to the first one from which they do not tell what the others are worth.
fn over_numbers<N: Number>(
    lines: &Lines<'_>,
    scores: &Scores<'_>,
    numbers: &[N],
    goal: Goal,
    first: u16,
    notes: &[Note],
    laid: &LaidArguments<'_>,
    reached: Reached,
    past: u16,
) -> Reached
    requires same_problem { scores.now.problem ≡ lines.now }
    requires laid { AreLaidOut lines.now scores.now laid.now }
    requires fit { FitBetween lines.now laid.now first past }
    requires numbers { AreEntriesOf scores.now laid.now first past (map (N.told goal) numbers.now) }
    requires proper { AreAll N.is_proper numbers.now }
    requires notes { AreNotesOf lines.now laid.now notes.now }
    requires begun { first ≤ reached.end }
    requires within { reached.end ≤ past }
    requires reached { IsReached lines.now laid.now reached }
    ensures later { reached.end ≤ result.end }
    ensures within { result.end ≤ past }
    ensures reached { IsReached lines.now laid.now result }
{
    lines.problem().admissible();
    bounds_are_sound();
    answer_is_unique();
    let before = (reached.end - first) as usize;
    let left = (past - reached.end) as usize;
    let count = left
        .min(numbers.len().saturating_sub(before))
        .min(notes.len());
    let mut greatest = reached.greatest;
    for number in 0..count {
        let end = reached.end + number as u16;
        if let Some(value) = score_of(numbers[before + number].entry(goal)) {
            let Some(total) = told(notes[number], end, laid.to) else {
                return Reached { greatest, end };
            };
            if let Some(rest) = total {
                greatest = greater(greatest, Some(laid.factor * value + rest));
            }
        }
    }
    Reached {
        greatest,
        end: reached.end + count as u16,
    }
}

/// Goes on over the ends before `past` from which it is noted what the others are worth, up to the first one from which
/// it isn't.
#[inline(never)]
fn over_notes(
    lines: &Lines<'_>,
    scores: &Scores<'_>,
    tails: &Tails<'_>,
    laid: &LaidArguments<'_>,
    sides: &SideBySide<'_>,
    reached: Reached,
    past: u16,
) -> Reached
    requires same_problem { scores.now.problem ≡ lines.now }
    requires same_tails { tails.now ≡ lines.now }
    requires laid { AreLaidOut lines.now scores.now laid.now }
    requires fit { FitBetween lines.now laid.now sides.now.entries.first past }
    requires sides { IsSideBySide scores.now laid.now sides.now.entries.first past sides.now }
    requires begun { sides.now.entries.first ≤ reached.end }
    requires within { reached.end ≤ past }
    requires reached { IsReached lines.now laid.now reached }
    ensures later { reached.end ≤ result.end }
    ensures within { result.end ≤ past }
    ensures reached { IsReached lines.now laid.now result }
{
    let Entries {
        first,
        goal,
        numbers,
    } = sides.entries;
    let notes = tails.notes_from(sides.tail, reached.end, laid.to);
    match numbers {
        Numbers::Short(numbers) => {
            over_numbers(
                lines, scores, numbers, goal, first, notes, laid, reached, past,
            )
        }
        Numbers::Medium(numbers) => {
            over_numbers(
                lines, scores, numbers, goal, first, notes, laid, reached, past,
            )
        }
        Numbers::Long(numbers) => {
            over_numbers(
                lines, scores, numbers, goal, first, notes, laid, reached, past,
            )
        }
        Numbers::Whole(_) => reached,
    }
}

/// The same, where there are entries and a tail to go over.
#[inline(always)]
pub fn over_noted(
    lines: &Lines<'_>,
    scores: &Scores<'_>,
    tails: &Tails<'_>,
    laid: &LaidArguments<'_>,
    sides: Option<SideBySide<'_>>,
    reached: Reached,
    past: u16,
) -> Reached
    requires same_problem { scores.now.problem ≡ lines.now }
    requires same_tails { tails.now ≡ lines.now }
    requires laid { AreLaidOut lines.now scores.now laid.now }
    requires fit { IfSome sides (λ it. FitBetween lines.now laid.now it.entries.first past) }
    requires sides { IfSome sides (λ it. IsSideBySide scores.now laid.now it.entries.first past it) }
    requires begun { IfSome sides (λ it. it.entries.first ≤ reached.end) }
    requires within { reached.end ≤ past }
    requires reached { IsReached lines.now laid.now reached }
    ensures later { reached.end ≤ result.end }
    ensures within { result.end ≤ past }
    ensures reached { IsReached lines.now laid.now result }
{
    match sides {
        Some(sides) => over_notes(lines, scores, tails, laid, &sides, reached, past),
        None => reached,
    }
}
