//! The scores of a problem's cells, in as few bits as they need.

ghost use Rattle.std.specs.Prelude.{◌≡◌, ◌+◌, ◌-◌, ◌<◌, ◌≤◌, ◌^◌, ℕ, IfOk, IsSome, MatchOption, length, slice_get};
ghost use Rattle.adp_model.specs.declared.cell.Cell.{Cell};
ghost use Rattle.adp_model.specs.declared.cell.Answer.TheVariants.{NoCandidate};
ghost use Rattle.adp_model.specs.declared.grammar.Arg.TheVariants.{Rule};
ghost use Rattle.adp_model.specs.Answers.{IsAnswer};
ghost use Rattle.adp_model.specs.Bellman.{HasBestScore};
ghost use Rattle.adp_model.specs.Cells.{IsCounted};
ghost use Rattle.cell_tables.specs.Spans.{value_at};
ghost use Rattle.cell_tables.specs.Tables.{in_row, spans_of};
ghost use Rattle.cell_answers.specs.Entries.{HasEntry};
ghost use Rattle.cell_answers.specs.ArgumentEntries.{AreProperNumbers, entries_of};
ghost use Rattle.cell_answers.specs.ScoresFields.{IsPacked, table_of};

use crate::argument_values::{Entries, Numbers};
use adp_model::laws::bounds::words_keep_their_score_bound;
use adp_model::{Arg, Cell, Goal};
use cell_tables::{Grid, Layout, Side, Table};
use score_numbers::{
    LONG_LIMIT, LONG_MARK, MEDIUM_LIMIT, MEDIUM_MARK, NO_CANDIDATE, SHORT_LIMIT, SHORT_MARK,
    long_entry, long_number, medium_entry, medium_number, score_of, short_entry, short_number,
};
use std::alloc::{AllocError, Global};
use std::marker::Model;

/// Numbers of one width, which stand for scores.
#[derive(Drop)]
pub enum Packed<'a> {
    Short(Table<'a, i16>),
    Medium(Table<'a, i32>),
    /// Turned, or the mark.
    Long(Table<'a, i64>),
    /// As entries.
    Whole(Table<'a, i64>),
}

/// The scores of a problem's cells, in rows and in columns, in as few bits as the problem's score bound asks for.
/// Contracts see them as the table of the entries that the numbers stand for.
#[derive(Drop)]
pub struct Scores<'a> {
    /// What the numbers were turned for.
    goal: Goal,
    packed: Packed<'a>,
}

impl<'a> Model for Scores<'a> {
    ghost use Rattle.std.specs.Prelude.{ℤ};
    ghost use Rattle.cell_tables.specs.Tables.{Table as EntryTable};

    ghost Value = { EntryTable ℤ };

    ghost use Rattle.adp_model.specs.WideForm.{form_code};
    ghost use Rattle.std.specs.Coded.{codes};

    ghost coded = { Prim.hlevel (codes, form_code) };

    ghost use Rattle.cell_answers.specs.ScoresFields.{AreScores, scores_table};

    ghost view = { scores_table };

    ghost invariant = { AreScores };
}

/// The numbers of an argument's cells with this near end, from one far end to another; none where it is a token.
#[inline(always)]
fn numbers_between<'s, V: Copy>(
    grid: &'s Grid<V>,
    argument: &Arg,
    near: u16,
    first: u16,
    last: u16,
) -> &'s [V]
    requires short { last + 1 < 2 ^ 16 }
    requires there { (rule : ℕ) → argument.now ≡ Rule rule
        → IsSome (value_at grid.now rule near first) × IsSome (value_at grid.now rule near last) }
    ensures values { (rule far : ℕ) → argument.now ≡ Rule rule → first ≤ far → far ≤ last
        → slice_get result.now (far - first) ≡ value_at grid.now rule near far }
    ensures none_else { (position : ℕ) → IsSome (slice_get result.now position)
        → (rule : ℕ) × (argument.now ≡ Rule rule)
        × (slice_get result.now position ≡ value_at grid.now rule near (first + position)) }
{
    match argument {
        Arg::Rule(rule) => grid.between(*rule, near, first, last + 1),
        _ => &[],
    }
}

impl<'a> Scores<'a> {
    /// Scores of the layout's problem, of which none is kept yet: what they tell of a cell before its score is kept, no
    /// clause says. Fails for want of memory alone.
    pub fn new(alloc: Global, layout: &Layout<'a>) -> Result<Scores<'a>, AllocError>
        ensures { IfOk result (λ scores. scores.problem ≡ layout.now) }
    {
        let problem = layout.problem();
        problem.admissible();
        words_keep_their_score_bound();
        let packed = if problem.score_bound <= SHORT_LIMIT as u64 {
            let table = Table::new(alloc, layout, SHORT_MARK)?;
            table.cells();
            Packed::Short(table)
        } else if problem.score_bound <= MEDIUM_LIMIT as u64 {
            let table = Table::new(alloc, layout, MEDIUM_MARK)?;
            table.cells();
            Packed::Medium(table)
        } else if problem.score_bound <= LONG_LIMIT as u64 {
            let table = Table::new(alloc, layout, LONG_MARK)?;
            table.cells();
            Packed::Long(table)
        } else {
            Packed::Whole(Table::new(alloc, layout, NO_CANDIDATE)?)
        };
        Ok(Scores {
            goal: problem.goal(),
            packed,
        })
    }

    /// The scores that numbers of one width stand for, turned for this goal.
    pub fn of(goal: Goal, packed: Packed<'a>) -> Scores<'a>
        requires { IsPacked packed }
        ensures { result ≡ table_of goal packed.entry }
    {
        Scores { goal, packed }
    }

    /// The entry of a counted cell. Takes constant time and no memory.
    #[inline(always)]
    pub(crate) fn entry(&self, cell: Cell) -> Option<i64>
        ensures { result ≡ in_row self.now cell }
    {
        match &self.packed {
            Packed::Short(table) => Some(short_entry(self.goal, table.value(cell)?)),
            Packed::Medium(table) => Some(medium_entry(self.goal, table.value(cell)?)),
            Packed::Long(table) => Some(long_entry(self.goal, table.value(cell)?)),
            Packed::Whole(table) => table.value(cell),
        }
    }

    /// The score of a cell that has an entry; `None` where it has no candidate. Takes constant time and no memory.
    pub fn score(&self, cell: Cell) -> Option<i64>
        requires { HasEntry self.now cell }
        ensures { MatchOption result (IsAnswer self.now.problem cell NoCandidate) (HasBestScore self.now.problem cell) }
    {
        score_of(self.entry(cell)?)
    }

    /// The entries of an argument's cells with this near end, from one far end to another; none where it is a token.
    #[inline(always)]
    pub(crate) fn entries(
        &self,
        side: Side,
        argument: &Arg,
        near: u16,
        first: u16,
        last: u16,
    ) -> Entries<'_>
        requires short { last + 1 < 2 ^ 16 }
        requires there { (rule : ℕ) → argument.now ≡ Rule rule
            → IsSome (value_at (spans_of self.now side) rule near first)
            × IsSome (value_at (spans_of self.now side) rule near last) }
        ensures first { result.first ≡ first }
        ensures values { (rule far : ℕ) → argument.now ≡ Rule rule → first ≤ far → far ≤ last
            → slice_get (entries_of result) (far - first) ≡ value_at (spans_of self.now side) rule near far }
        ensures proper { AreProperNumbers result.numbers }
    {
        let numbers = match &self.packed {
            Packed::Short(table) => {
                Numbers::Short(numbers_between(table.grid(side), argument, near, first, last))
            }
            Packed::Medium(table) => {
                Numbers::Medium(numbers_between(table.grid(side), argument, near, first, last))
            }
            Packed::Long(table) => {
                Numbers::Long(numbers_between(table.grid(side), argument, near, first, last))
            }
            Packed::Whole(table) => {
                Numbers::Whole(numbers_between(table.grid(side), argument, near, first, last))
            }
        };
        Entries {
            first,
            goal: self.goal,
            numbers,
        }
    }

    /// Keeps the best score of a counted cell, `None` where it has no candidate, in its row and in its column. Takes
    /// constant time and no memory.
    pub fn keep(&mut self, cell: Cell, score: Option<i64>)
        requires counted { IsCounted self.old.problem.grammar (length self.old.problem.word) cell }
        requires right { MatchOption score (IsAnswer self.old.problem cell NoCandidate)
            (HasBestScore self.old.problem cell) }
        ensures problem { self.new.problem ≡ self.old.problem }
        ensures kept { HasEntry self.new cell }
        ensures others { (other : Cell) → HasEntry self.old other → HasEntry self.new other }
    {
        let goal = self.goal;
        match &mut self.packed {
            Packed::Short(table) => table.put(cell, short_number(goal, score)),
            Packed::Medium(table) => table.put(cell, medium_number(goal, score)),
            Packed::Long(table) => table.put(cell, long_number(goal, score)),
            Packed::Whole(table) => table.put(cell, score.unwrap_or(NO_CANDIDATE)),
        }
    }
}
