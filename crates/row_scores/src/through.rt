//! All arguments of an alternative, one after another, from one start.

ghost use Rattle.std.specs.Prelude.{◌≡◌, ℕ, ◌+◌, ◌<◌, ◌≤◌, IfOk, length};
ghost use Rattle.std.specs.List.{AllByRecursion};
ghost use Rattle.adp_model.specs.PosedProblem.{PosedProblem};
ghost use Rattle.adp_model.specs.WellFormed.{IsKnown};
ghost use Rattle.score_rows.specs.Numbers.{AreDead};
ghost use Rattle.score_rows.specs.Raised.{AreHighest};
ghost use Rattle.score_rows.specs.Windows.{IsOutside};
ghost use Rattle.row_scores.specs.Known.{AreKnown};
ghost use Rattle.row_scores.specs.Ready.{AreLong, AreReady, AreRows, Front, HasFront, HasWhole, IsLowProblem, IsWanted, IsWithin};
ghost use Rattle.row_scores.specs.RowNumbers.{HaveChildren, IsInRow};
ghost use Rattle.row_scores.specs.RowRules.{IsRoom, IsRowAlternative, IsRowOf};
ghost use Rattle.row_scores.specs.Steps.{IsLowToken};

use crate::rules::RowAlternative;
use crate::steps::{Known, step};
use adp_model::Arg;
use adp_model::laws::bounds::{bounds_are_sound, words_keep_their_score_bound};
use adp_model::laws::demand::demanded_cells_are_counted;
use adp_model::laws::order::answer_is_unique;
use adp_model::laws::terms::{magnitudes_rise, values_are_within_magnitudes};
use adp_model::laws::well_formed::arguments_are_few_and_known;
use score_rows::{RowNumber, Totals, Window};
use std::alloc::{AllocError, Global};

/// Totals that are under way.
#[derive(Drop)]
pub struct Room<N: RowNumber> {
    /// Of the arguments so far, by where they end.
    reached: Totals<N>,
    /// Of one argument more.
    next: Totals<N>,
    /// Of the alternatives so far, by where they end.
    pub row: Totals<N>,
}

impl<N: RowNumber> Room<N> {
    /// Room for so many positions, where nothing is reached. Fails for want of memory alone.
    pub fn new(alloc: Global, positions: usize) -> Result<Room<N>, AllocError>
        ensures room { (p : PosedProblem) → positions ≡ length p.word + 1 → IfOk result (IsRoom p N.width) }
        ensures row { IfOk result (λ room. AreDead N.width room.row) }
    {
        Ok(Room {
            reached: Totals::new(alloc, positions)?,
            next: Totals::new(alloc, positions)?,
            row: Totals::new(alloc, positions)?,
        })
    }
}

/// Goes through arguments from the positions that are reached, and raises the numbers of a row at these ends to the
/// totals. Of both that are lent no number stands for a score then.
fn go_through<N: RowNumber>(
    known: &Known<'_, '_, N>,
    arguments: &[Arg],
    factors: &[i64],
    reached: &mut Totals<N>,
    next: &mut Totals<N>,
    ends: Window,
    row: &mut Totals<N>,
)
    requires known { AreKnown N.width N.value known.now }
    requires rows { AreRows known.now.lines.now N.width (IsInRow N.value known.now.table.now) }
    requires arguments { AllByRecursion (IsKnown known.now.lines.now.grammar) arguments.now }
    requires low { AllByRecursion (IsLowToken known.now.lines.now) arguments.now }
    requires long { AreLong known.now.lines.now reached.old next.old row.old }
    requires clear { AreDead N.width next.old }
    ensures raised { (front : Front) → IsWithin ends (IsWanted known.now.lines.now front)
        → AreReady known.now.lines.now N.width (IsInRow N.value known.now.table.now)
        (HasFront known.now.lines.now front) (IsWanted known.now.lines.now front) arguments.now factors.now reached.old
        → AreHighest N.width
        (HasWhole known.now.lines.now (HasFront known.now.lines.now front) arguments.now factors.now)
        (IsWanted known.now.lines.now front) row.old row.new }
    ensures others { AreHighest N.width (λ k number. ⊥) (IsOutside ends) row.old row.new }
    ensures long { AreLong known.now.lines.now reached.new next.new row.new }
    ensures clear { AreDead N.width reached.new × AreDead N.width next.new }
{
    let (Some((argument, others)), Some((factor, factors))) = (
        arguments.split_first(),
        factors.split_first(),
    ) else {
        row.raise_between(reached, ends.first, ends.past);
        reached.clear();
        return;
    };
    step(known, argument, *factor, reached, next);
    reached.clear();
    go_through(known, others, factors, next, reached, ends, row);
}

/// Raises the row of a start by an alternative.
pub fn raise_by<N: RowNumber>(
    known: &Known<'_, '_, N>,
    alternative: &RowAlternative<'_>,
    from: u16,
    room: &mut Room<N>,
)
    requires known { AreKnown N.width N.value known.now }
    requires alternative { (rule : ℕ) × (number : ℕ)
        × IsRowAlternative known.now.lines.now rule number alternative.now }
    requires from { from ≤ length known.now.lines.now.word }
    requires low { IsLowProblem known.now.lines.now N.width }
    requires room { IsRoom known.now.lines.now N.width room.old }
    ensures row { (rule number : ℕ) → rule < length known.now.lines.now.grammar.rules
        → IsRowAlternative known.now.lines.now rule number alternative.now
        → HaveChildren N.width N.value known.now.lines.now known.now.table.now rule from
        → IsRowOf known.now.lines.now N.width rule from number room.old.row
        → IsRowOf known.now.lines.now N.width rule from (number + 1) room.new.row }
    ensures room { IsRoom known.now.lines.now N.width room.new }
{
    let problem = known.lines.problem();
    problem.admissible();
    known.table.cells();
    N::mark();
    bounds_are_sound();
    words_keep_their_score_bound();
    answer_is_unique();
    magnitudes_rise();
    values_are_within_magnitudes();
    arguments_are_few_and_known();
    demanded_cells_are_counted();
    let letters = problem.letters().len() as u16 - from;
    let ends = Window {
        first: from + alternative.lengths.least.min(letters + 1),
        past: from + alternative.lengths.most.min(letters) + 1,
    };
    room.reached.raise_at(from, N::of(alternative.sum.constant));
    let arguments = alternative.arguments;
    let factors = &alternative.sum.factors[..arguments.len()];
    let Room { reached, next, row } = room;
    go_through(known, arguments, factors, reached, next, ends, row);
}
