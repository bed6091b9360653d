ghost use Rattle.std.specs.Prelude.{◌≡◌, ◌-◌, ◌≤◌, ℤ, nat_abs, IsSome, MatchOption, Some, slice_get};
ghost use Rattle.adp_model.specs.PosedProblem.{IsSpan};
ghost use Rattle.adp_model.specs.Tokens.{letters_between, token_value};
ghost use Rattle.adp_model.specs.Splits.{AtRule, FitsSpan};
ghost use Rattle.adp_model.specs.WellFormed.{IsKnown};
ghost use Rattle.adp_model.specs.ProblemFields.{greatest_score};
ghost use Rattle.adp_model.specs.Bellman.{HasBestScore};
ghost use Rattle.adp_model.specs.FirstSplit.{IsValue};
ghost use Rattle.viable_splits.specs.Placing.{on_span};
ghost use Rattle.cell_answers.specs.Entries.{HasEntry};
ghost use Rattle.adp_model.specs.declared.grammar.Goal.{Goal as DeclaredGoal};
ghost use Rattle.score_numbers.specs.Packing.{IsProper, told, short, medium, long};
ghost use Rattle.cell_answers.specs.ArgumentEntries.{AreProperNumbers, entries_of};
ghost use Rattle.cell_answers.specs.Rows.{HasEntryAt};

use crate::scores::Scores;
use adp_model::{Arg, Cell, Goal};
use score_numbers::{long_entry, medium_entry, score_of, short_entry};
use split_lines::Lines;

/// Numbers of one width side by side.
#[derive(Clone, Copy)]
pub enum Numbers<'s> {
    Short(&'s [i16]),
    Medium(&'s [i32]),
    /// Turned, or the mark.
    Long(&'s [i64]),
    /// As entries.
    Whole(&'s [i64]),
}

/// A number of a width, which stands for an entry.
pub trait Number: Copy {
    ghost is_proper: { Self → Type 0 };

    ghost told: { DeclaredGoal → Self → ℤ };

    /// The entry that it stands for.
    fn entry(self, goal: Goal) -> i64
        requires { is_proper self }
        ensures { result ≡ told goal self };
}

impl Number for i16 {
    ghost is_proper = { IsProper short };

    ghost told = { told short };

    #[inline(always)]
    fn entry(self, goal: Goal) -> i64 {
        short_entry(goal, self)
    }
}

impl Number for i32 {
    ghost is_proper = { IsProper medium };

    ghost told = { told medium };

    #[inline(always)]
    fn entry(self, goal: Goal) -> i64 {
        medium_entry(goal, self)
    }
}

impl Number for i64 {
    ghost is_proper = { IsProper long };

    ghost told = { told long };

    #[inline(always)]
    fn entry(self, goal: Goal) -> i64 {
        long_entry(goal, self)
    }
}

/// Entries side by side, for the positions from `first` on, as the numbers that stand for them.
#[derive(Clone, Copy)]
pub struct Entries<'s> {
    pub first: u16,
    pub goal: Goal,
    pub numbers: Numbers<'s>,
}

/// The entry for a position.
fn entry_at(entries: Entries<'_>, position: u16) -> i64
    requires from_first { entries.first ≤ position }
    requires there { IsSome (slice_get (entries_of entries) (position - entries.first)) }
    requires proper { AreProperNumbers entries.numbers }
    ensures { slice_get (entries_of entries.entry) (position - entries.entry.first) ≡ Some result }
{
    let number = (position - entries.first) as usize;
    match entries.numbers {
        Numbers::Short(numbers) => short_entry(entries.goal, numbers[number]),
        Numbers::Medium(numbers) => medium_entry(entries.goal, numbers[number]),
        Numbers::Long(numbers) => long_entry(entries.goal, numbers[number]),
        Numbers::Whole(numbers) => numbers[number],
    }
}

/// What letters that a token matches are worth. Takes constant time and no memory.
pub fn token_value(lines: &Lines<'_>, token: &Arg, from: u16, to: u16) -> i64
    requires known { IsKnown lines.now.grammar token.now }
    requires span { IsSpan lines.now.word from to }
    requires low { nat_abs (token_value lines.now.grammar token.now (letters_between lines.now.word from to))
        ≤ greatest_score }
    ensures { result ≡ token_value lines.now.grammar token.now (letters_between lines.now.word from to) }
{
    match token {
        Arg::Rule(_) | Arg::Literal(_) => 0,
        Arg::Letter(class) | Arg::Run { class, .. } => lines.weight(*class, from, to) as i64,
    }
}

/// The value of an argument on a span: the score of a rule's cell, `None` where it has no candidate, or what a token's
/// letters are worth. It means nothing where the cell has no entry. Takes constant time and no memory.
#[inline(always)]
pub fn argument_value(
    lines: &Lines<'_>,
    scores: &Scores<'_>,
    argument: &Arg,
    from: u16,
    to: u16,
) -> Option<i64>
    requires same_problem { scores.now.problem ≡ lines.now }
    requires known { IsKnown lines.now.grammar argument.now }
    requires fits { FitsSpan lines.now (on_span argument.now from to) }
    requires low { nat_abs (token_value lines.now.grammar argument.now (letters_between lines.now.word from to))
        ≤ greatest_score }
    ensures { AtRule (HasEntry scores.now) (on_span argument.now from to) → MatchOption result
        ((value : ℤ) → IsValue lines.now (HasBestScore lines.now) (on_span argument.now from to) value → ⊥)
        (IsValue lines.now (HasBestScore lines.now) (on_span argument.now from to)) }
{
    match argument {
        Arg::Rule(rule) => score_of(scores.entry(Cell {
            rule: *rule,
            from,
            to,
        })?),
        token => Some(token_value(lines, token, from, to)),
    }
}

/// The same, where the entry of a rule's cell stands among others at this position.
#[inline]
pub fn value_among(
    lines: &Lines<'_>,
    entries: Entries<'_>,
    argument: &Arg,
    position: u16,
    from: u16,
    to: u16,
) -> Option<i64>
    requires known { IsKnown lines.now.grammar argument.now }
    requires fits { FitsSpan lines.now (on_span argument.now from to) }
    requires low { nat_abs (token_value lines.now.grammar argument.now (letters_between lines.now.word from to))
        ≤ greatest_score }
    requires there { AtRule (HasEntryAt lines.now (entries_of entries) entries.first position)
        (on_span argument.now from to) }
    requires proper { AreProperNumbers entries.numbers }
    ensures { MatchOption result
        ((value : ℤ) → IsValue lines.now (HasBestScore lines.now) (on_span argument.now from to) value → ⊥)
        (IsValue lines.now (HasBestScore lines.now) (on_span argument.now from to)) }
{
    match argument {
        Arg::Rule(_) => score_of(entry_at(entries, position)),
        token => Some(token_value(lines, token, from, to)),
    }
}
