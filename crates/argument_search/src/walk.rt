//! The walk over the arguments of a cell's splits, in the order of a visit.

ghost use Rattle.std.specs.Prelude.{◌≡◌, ℕ, ◌+◌, ◌-◌, ◌<◌, ◌≤◌, IfSome, MatchOption, List, ◌∷◌, length, slice_index};
ghost use Rattle.std.specs.Bool.{OnTrue};
ghost use Rattle.std.specs.List.{AllByRecursion};
ghost use Rattle.adp_model.specs.declared.cell.Cell.{Cell as AnyCell};
ghost use Rattle.adp_model.specs.PosedProblem.{IsSpan};
ghost use Rattle.adp_model.specs.Parts.{alternatives_of};
ghost use Rattle.adp_model.specs.Splits.{ends_by, IsViable};
ghost use Rattle.adp_model.specs.SplitArguments.{IsSplitArgument, AsksFor};
ghost use Rattle.memo_model.specs.Visits.{argument_at, turned_number, IsWalk};
ghost use Rattle.split_lines.specs.Beginnings.{IsCandidate};
ghost use Rattle.split_lines.specs.Kept.{IsAlternative};
ghost use Rattle.split_lines.specs.Ways.{IsOpening};
ghost use Rattle.argument_search.specs.Seeking.{AreAllNoted, AreNotedBehind, IsEntry, IsFirstLeft, IsNextLeft, IsNoneLeft, IsNoneSought, IsTokenAndArgument, turned_of};

use crate::noted_cells::NotedCells;
use crate::passing::{Depth, are_all_noted, end_in_front, kept};
use crate::positions::{at_number, end_of, first_of, start_of};
use crate::skipping::reached;
use adp_model::laws::splits::ranks_tell_splits_apart;
use adp_model::laws::well_formed::alternatives_fit;
use adp_model::{Arg, Cell, Problem};
use memo_model::{Position, Visit};
use random_orders::rotated;
use split_lines::{Candidates, KeptAlternative, Lines};
use viable_splits::Cuts;

/// The alternative that is visited behind so many others where the visit begins with `first`.
fn alternative_behind(first: u32, count: u32, turned: u32) -> u32
    requires first { first < count }
    requires turned { turned < count }
    requires few { count ≤ 64 }
    ensures below { result < count }
    ensures turned { turned_number count first result ≡ turned }
{
    rotated(first, count, turned)
}

/// The second argument of the one viable split that an alternative has where it is a token and an argument of open
/// length, which has the letters behind the token's `end`.
fn only_split(
    lines: &Lines<'_>,
    cell: Cell,
    alternative: &KeptAlternative<'_>,
    alt: u8,
    end: u16,
) -> Option<Position>
    requires span { IsSpan lines.now.word cell.from cell.to }
    requires in_range { alt < length (alternatives_of lines.now.grammar cell.rule) }
    requires alternative { IsAlternative lines.now cell.rule alt alternative.now }
    requires opening { IsOpening lines.now alternative.now cell end }
    ensures { IfSome result (λ at. (turns : List ℕ) → IsEntry lines.now cell alt turns at) }
{
    let [_token] = alternative.front else {
        return None;
    };
    let [argument] = alternative.others else {
        return None;
    };
    if !lines.fits(argument, end, cell.to) {
        return None;
    }
    Some(Position {
        alternative: alt,
        cuts: [end, cell.to, cell.to],
        number: 1,
    })
}

/// An argument of the split of an alternative that is visited first, with tokens alone before it; `None` where there is
/// no viable split, or where all cells that the splits ask for are seen to be noted.
fn first_left<N: NotedCells>(
    lines: &Lines<'_>,
    problem: &Problem<'_>,
    noted: &N,
    cell: Cell,
    alt: u8,
    turns: [u32; 3],
) -> Option<Position>
    requires same { lines.now ≡ problem.now }
    requires span { IsSpan problem.now.word cell.from cell.to }
    requires alternative { alt < length (alternatives_of problem.now.grammar cell.rule) }
    requires turns { AllByRecursion (λ turn. turn ≤ cell.to - cell.from) turns }
    ensures { MatchOption result (AreAllNoted problem.now (N.is_noted noted.now) cell alt)
        (IsEntry problem.now cell alt turns) }
{
    problem.admissible();
    alternatives_fit();
    let alternative = kept(lines, cell.rule, alt);
    let Some(end) = end_in_front(lines, noted, cell, alternative, alt, Depth::Whole) else {
        return None;
    };
    if let Some(at) = only_split(lines, cell, alternative, alt, end) {
        return Some(at);
    }
    let mut cuts = Cuts { at: [0; 3], turns };
    if lines.first_viable(cell, alt, turns, &mut cuts) {
        return Some(first_of(alt, cuts.at));
    }
    None
}

/// The same, where it is asked of none but the candidates, the alternatives that may begin where the cell does.
#[inline(always)]
fn candidate_left<N: NotedCells>(
    lines: &Lines<'_>,
    problem: &Problem<'_>,
    noted: &N,
    candidates: Candidates<'_>,
    cell: Cell,
    alt: u8,
    turns: [u32; 3],
) -> Option<Position>
    requires same { lines.now ≡ problem.now }
    requires span { IsSpan problem.now.word cell.from cell.to }
    requires alternative { alt < length (alternatives_of problem.now.grammar cell.rule) }
    requires few { alt < 64 }
    requires others { (IsCandidate candidates alt → ⊥) → (cuts : List ℕ) → IsViable lines.now cell alt cuts → ⊥ }
    requires turns { AllByRecursion (λ turn. turn ≤ cell.to - cell.from) turns }
    ensures { MatchOption result (AreAllNoted problem.now (N.is_noted noted.now) cell alt)
        (IsEntry problem.now cell alt turns) }
{
    if !candidates.have(alt) {
        return None;
    }
    first_left(lines, problem, noted, cell, alt, turns)
}

/// The first argument of the alternatives that the visit comes to from this turned number on, but for alternatives
/// whose cells are all noted. Takes no memory.
fn first_from<N: NotedCells>(
    lines: &Lines<'_>,
    problem: &Problem<'_>,
    noted: &N,
    visit: Visit,
    turned: u32,
) -> Option<Position>
    requires same { lines.now ≡ problem.now }
    requires span { IsSpan problem.now.word visit.cell.from visit.cell.to }
    requires walk { IsWalk problem.now visit }
    ensures { MatchOption result (IsNoneLeft problem.now (N.is_noted noted.now) visit turned)
        (IsFirstLeft problem.now (N.is_noted noted.now) visit turned) }
{
    problem.admissible();
    alternatives_fit();
    ranks_tell_splits_apart();
    let count = problem.alternatives(visit.cell.rule).len() as u32;
    let candidates = lines.candidates(visit.cell);
    let (cell, turns) = (visit.cell, visit.turns);
    for number in turned..count {
        let alt = alternative_behind(visit.first, count, number) as u8;
        if let Some(at) = candidate_left(lines, problem, noted, candidates, cell, alt, turns) {
            return Some(at);
        }
    }
    None
}

/// The same of the alternatives that it comes to behind this one.
fn first_behind<N: NotedCells>(
    lines: &Lines<'_>,
    problem: &Problem<'_>,
    noted: &N,
    visit: Visit,
    alternative: u8,
) -> Option<Position>
    requires same { lines.now ≡ problem.now }
    requires span { IsSpan problem.now.word visit.cell.from visit.cell.to }
    requires walk { IsWalk problem.now visit }
    requires alternative { alternative < length (alternatives_of problem.now.grammar visit.cell.rule) }
    ensures { MatchOption result
        (IsNoneLeft problem.now (N.is_noted noted.now) visit (turned_of problem.now visit alternative + 1))
        (IsFirstLeft problem.now (N.is_noted noted.now) visit (turned_of problem.now visit alternative + 1)) }
{
    let count = problem.alternatives(visit.cell.rule).len() as u32;
    let turned = (u32::from(alternative) + count - visit.first) % count;
    first_from(lines, problem, noted, visit, turned + 1)
}

/// Whether an alternative has one viable split at most, as a token and one more argument have.
fn has_one_split(alternative: &KeptAlternative<'_>) -> bool
    ensures { OnTrue result (IsTokenAndArgument alternative.now) }
{
    let [_token] = alternative.front else {
        return false;
    };
    let [_argument] = alternative.others else {
        return false;
    };
    true
}

/// Whether each cell is noted that the splits of an alternative ask for which are visited behind these cuts, as far as
/// the depth lets it be told.
fn are_later_noted<N: NotedCells>(
    lines: &Lines<'_>,
    noted: &N,
    cell: Cell,
    at: Position,
    depth: Depth,
) -> bool
    requires span { IsSpan lines.now.word cell.from cell.to }
    requires viable { IsViable lines.now cell at.alternative at.cuts }
    ensures { OnTrue result ((turns : List ℕ)
        → AreNotedBehind lines.now (N.is_noted noted.now) cell at.alternative turns at.cuts) }
{
    has_one_split(kept(lines, cell.rule, at.alternative))
        || are_all_noted(lines, noted, cell, at.alternative, depth)
}

/// The argument that the visit comes to next, but for some whose cells are noted: those of whole alternatives, and
/// those along a line of splits. The rest of the alternative at hand is passed over where its cells are seen to be
/// noted at this depth. Takes no memory.
pub(crate) fn next_position<N: NotedCells>(
    lines: &Lines<'_>,
    problem: &Problem<'_>,
    noted: &N,
    visit: Visit,
    depth: Depth,
) -> Option<Position>
    requires same { lines.now ≡ problem.now }
    requires span { IsSpan problem.now.word visit.cell.from visit.cell.to }
    requires walk { IsWalk problem.now visit }
    ensures { MatchOption result (IsNoneSought problem.now (N.is_noted noted.now) visit)
        (IsNextLeft problem.now (N.is_noted noted.now) visit) }
{
    let Some(mut at) = visit.at else {
        return first_from(lines, problem, noted, visit, 0);
    };
    problem.admissible();
    alternatives_fit();
    ranks_tell_splits_apart();
    let count = problem.arguments(visit.cell.rule, at.alternative).len();
    if at.number as usize + 1 == count && are_later_noted(lines, noted, visit.cell, at, depth) {
        return first_behind(lines, problem, noted, visit, at.alternative);
    }
    if reached(lines, problem, noted, visit, &mut at) {
        return Some(at);
    }
    if at.number as usize + 1 < problem.arguments(visit.cell.rule, at.alternative).len() {
        return Some(at_number(at, at.number + 1));
    }
    let here = at.cuts;
    let turns = visit.turns;
    let mut cuts = Cuts { at: here, turns };
    if lines.next_viable(visit.cell, at.alternative, &mut cuts) {
        return Some(first_of(at.alternative, cuts.at));
    }
    first_behind(lines, problem, noted, visit, at.alternative)
}

/// The cell of an argument, where that is a rule. Takes no memory.
pub fn asked(problem: &Problem<'_>, cell: Cell, at: Position) -> Option<Cell>
    requires { IsSplitArgument problem.now (argument_at cell at) }
    ensures { MatchOption result ((child : AnyCell) → AsksFor problem.now (argument_at cell at) child → ⊥)
        (AsksFor problem.now (argument_at cell at)) }
{
    let argument = &problem.arguments(cell.rule, at.alternative)[at.number as usize];
    match argument {
        Arg::Rule(rule) => Some(Cell {
            rule: *rule,
            from: start_of(cell, at),
            to: end_of(cell, at),
        }),
        _ => None,
    }
}
