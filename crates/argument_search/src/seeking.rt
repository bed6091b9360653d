//! The search for the next argument of a visit whose cell isn't noted.

ghost use Rattle.std.specs.Prelude.{◌≡◌, IfSome, MatchOption};
ghost use Rattle.adp_model.specs.PosedProblem.{IsSpan};
ghost use Rattle.adp_model.specs.SplitArguments.{IsSplitArgument};
ghost use Rattle.memo_model.specs.Visits.{argument_at, IsWalk};
ghost use Rattle.argument_search.specs.Seeking.{IsNextSought, IsNoneSought};

use crate::noted_cells::NotedCells;
use crate::passing::Depth;
use crate::walk::{asked, next_position};
use adp_model::laws::well_formed::{alternatives_fit, arguments_are_few_and_known};
use adp_model::{Cell, Problem};
use memo_model::{Position, Visit};
use split_lines::Lines;

/// The next argument of a visit whose cell isn't noted, with its cell; `None` where all are. Along a line of splits the
/// notes of 64 positions of its boundary are tested at a time. Whether all cells of an alternative are noted is looked
/// for when the search enters it, and once where it goes on in one. Takes no memory.
pub fn seek<N: NotedCells>(
    lines: &Lines<'_>,
    problem: &Problem<'_>,
    noted: &N,
    visit: Visit,
) -> Option<(Position, Cell)>
    requires same { lines.now ≡ problem.now }
    requires span { IsSpan problem.now.word visit.cell.from visit.cell.to }
    requires walk { IsWalk problem.now visit }
    ensures next { MatchOption result (IsNoneSought problem.now (N.is_noted noted.now) visit)
        (λ found. IsSplitArgument problem.now (argument_at visit.cell found.0)
        × IsNextSought problem.now (N.is_noted noted.now) visit found.0 found.1) }
    ensures missing { IfSome result (λ found. N.is_noted noted.now found.1 → ⊥) }
{
    problem.admissible();
    alternatives_fit();
    arguments_are_few_and_known();
    let mut at = visit.at;
    let mut depth = Depth::Whole;
    loop {
        let turns = visit.turns;
        let now = Visit {
            cell: visit.cell,
            first: visit.first,
            turns,
            at,
        };
        let Some(position) = next_position(lines, problem, noted, now, depth) else {
            return None;
        };
        depth = depth.behind(position);
        if let Some(cell) = asked(problem, visit.cell, position) {
            if !noted.has(cell) {
                return Some((position, cell));
            }
        }
        at = Some(position);
    }
}
