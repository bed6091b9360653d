ghost use Rattle.std.specs.Prelude.{◌≡◌, ◌-◌, ◌<◌, ◌≤◌, IsTrue, List, ℕ, length};
ghost use Rattle.std.specs.Bool.{OnTrue, OnFalse};
ghost use Rattle.std.specs.List.{AllByRecursion};
ghost use Rattle.adp_model.specs.PosedProblem.{IsSpan};
ghost use Rattle.adp_model.specs.Parts.{alternatives_of};
ghost use Rattle.adp_model.specs.Splits.{IsViable};
ghost use Rattle.adp_model.specs.Walk.{IsFirstVisited, IsNextVisited, IsLastVisited};

use crate::cuts::Cuts;
use crate::matcher::Matcher;
use crate::placing::{Walk, first_cuts, next_cuts};
use adp_model::Cell;

/// Whether the alternative has a viable split of the cell. If so, `cuts` are then the one that is visited first, where
/// each boundary's positions are visited from its turn on; else its boundaries are as before. Takes no memory.
pub fn first_visited<M: Matcher>(
    matcher: &M,
    cell: Cell,
    alt: u8,
    turns: [u32; 3],
    cuts: &mut Cuts,
) -> bool
    requires span { IsSpan (M.posed matcher.now).word cell.from cell.to }
    requires alternative { alt < length (alternatives_of (M.posed matcher.now).grammar cell.rule) }
    requires turns { AllByRecursion (λ turn. turn ≤ cell.to - cell.from) turns }
    ensures turns { cuts.new.turns ≡ turns }
    ensures first { OnTrue result (IsFirstVisited (M.posed matcher.now) cell alt turns cuts.new.at) }
    ensures none { OnFalse result ((others : List ℕ) → IsViable (M.posed matcher.now) cell alt others → ⊥) }
    ensures kept { OnFalse result (cuts.new.at ≡ cuts.old.at) }
{
    cuts.turns = turns;
    let problem = matcher.problem();
    if !problem.allows(cell.rule, alt, (cell.to - cell.from) as usize) {
        return false;
    }
    let arguments = problem.arguments(cell.rule, alt);
    let walk = Walk { matcher, cell, alt };
    match first_cuts(&walk, arguments, cell.from as usize, 0, *cuts) {
        Some(found) => {
            *cuts = found;
            true
        }
        None => false,
    }
}

/// Whether a viable split is visited behind `cuts`. If so, they are then the next one; else they are as before. Takes
/// no memory.
pub fn next_visited<M: Matcher>(matcher: &M, cell: Cell, alt: u8, cuts: &mut Cuts) -> bool
    requires span { IsSpan (M.posed matcher.now).word cell.from cell.to }
    requires turns { AllByRecursion (λ turn. turn ≤ cell.to - cell.from) cuts.old.turns }
    requires viable { IsViable (M.posed matcher.now) cell alt cuts.old.at }
    ensures turns { cuts.new.turns ≡ cuts.old.turns }
    ensures next { OnTrue result (IsNextVisited (M.posed matcher.now) cell alt cuts.old.turns cuts.old.at cuts.new.at) }
    ensures last { OnFalse result (IsLastVisited (M.posed matcher.now) cell alt cuts.old.turns cuts.old.at) }
    ensures kept { OnFalse result (cuts.new.at ≡ cuts.old.at) }
{
    let arguments = matcher.problem().arguments(cell.rule, alt);
    let walk = Walk { matcher, cell, alt };
    match next_cuts(&walk, arguments, cell.from as usize, 0, *cuts) {
        Some(found) => {
            *cuts = found;
            true
        }
        None => false,
    }
}
