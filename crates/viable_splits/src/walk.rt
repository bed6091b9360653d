ghost use Rattle.std.specs.Prelude.{◌≡◌, ◌-◌, ◌<◌, ◌≤◌, IsTrue, List, ℕ, length};
ghost use Rattle.std.specs.Bool.{OnTrue, OnFalse};
ghost use Rattle.std.specs.List.{AllByRecursion};
ghost use Rattle.adp_model.specs.PosedProblem.{IsSpan};
ghost use Rattle.adp_model.specs.Parts.{alternatives_of};
ghost use Rattle.adp_model.specs.Splits.{IsViable};
ghost use Rattle.adp_model.specs.Walk.{IsFirstVisited, IsNextVisited, IsLastVisited};

use crate::cuts::Cuts;
use crate::visiting::{first_visited, next_visited};
use adp_model::{Cell, Problem};

/// Whether the alternative has a viable split of the cell. If so, `cuts` are then the one that is visited first, where
/// each boundary's positions are visited from its turn on; else its boundaries are as before. Takes no memory.
pub fn first_viable(
    problem: &Problem<'_>,
    cell: Cell,
    alt: u8,
    turns: [u32; 3],
    cuts: &mut Cuts,
) -> bool
    requires span { IsSpan problem.now.word cell.from cell.to }
    requires alternative { alt < length (alternatives_of problem.now.grammar cell.rule) }
    requires turns { AllByRecursion (λ turn. turn ≤ cell.to - cell.from) turns }
    ensures turns { cuts.new.turns ≡ turns }
    ensures first { OnTrue result (IsFirstVisited problem.now cell alt turns cuts.new.at) }
    ensures none { OnFalse result ((others : List ℕ) → IsViable problem.now cell alt others → ⊥) }
    ensures kept { OnFalse result (cuts.new.at ≡ cuts.old.at) }
{
    first_visited(problem, cell, alt, turns, cuts)
}

/// Whether a viable split is visited behind `cuts`. If so, they are then the next one; else they are as before. Takes
/// no memory.
pub fn next_viable(problem: &Problem<'_>, cell: Cell, alt: u8, cuts: &mut Cuts) -> bool
    requires span { IsSpan problem.now.word cell.from cell.to }
    requires turns { AllByRecursion (λ turn. turn ≤ cell.to - cell.from) cuts.old.turns }
    requires viable { IsViable problem.now cell alt cuts.old.at }
    ensures turns { cuts.new.turns ≡ cuts.old.turns }
    ensures next { OnTrue result (IsNextVisited problem.now cell alt cuts.old.turns cuts.old.at cuts.new.at) }
    ensures last { OnFalse result (IsLastVisited problem.now cell alt cuts.old.turns cuts.old.at) }
    ensures kept { OnFalse result (cuts.new.at ≡ cuts.old.at) }
{
    next_visited(problem, cell, alt, cuts)
}
