ghost use Rattle.std.specs.Prelude.{◌≡◌, ℕ, ◌+◌, ◌-◌, ◌^◌, ◌<◌, ◌≤◌, MatchOption, length, take, drop, slice_index};
ghost use Rattle.std.specs.List.{AllByRecursion};
ghost use Rattle.adp_model.specs.WellFormed.{IsKnown};
ghost use Rattle.adp_model.specs.Walk.{rank_of};
ghost use Rattle.viable_splits.specs.Placing.{AreLeft, AreRest, Divide, IsFirstBehind, HasNoneBehind, IsFirstWithin, HasNoneWithin, IsNextFrom, IsLastFrom};

use crate::cuts::Cuts;
use crate::end_positions::first_ends;
use crate::ends::argument_ends;
use crate::matcher::Matcher;
use adp_model::{Arg, Cell};

/// A walk over the viable splits of a cell by an alternative.
#[derive(Drop)]
pub struct Walk<'w, M> {
    pub matcher: &'w M,
    pub cell: Cell,
    pub alt: u8,
}

/// The cuts with the boundaries from this one on at the cell's end.
fn closed(cell: Cell, number: usize, mut cuts: Cuts) -> Cuts
    ensures turns { result.turns ≡ cuts.turns }
    ensures kept { take number result.at ≡ take number cuts.at }
    ensures closed { AllByRecursion (λ cut. cut ≡ cell.to) (drop number result.at) }
{
    for boundary in number..3 {
        cuts.at[boundary] = cell.to;
    }
    cuts
}

/// The rank of a position: how many positions of the cell a boundary that is turned by so many positions visits before
/// it.
fn rank(cell: Cell, turn: u32, position: u16) -> usize
    requires turn { turn ≤ cell.to - cell.from }
    requires after { cell.from ≤ position }
    requires before { position ≤ cell.to }
    ensures rank { result ≡ rank_of cell turn position }
    ensures short { result < 2 ^ 16 }
{
    let (from, to) = (cell.from as usize, cell.to as usize);
    let pivot = from + turn as usize;
    let position = position as usize;
    if position < pivot {
        position - from + (to + 1 - pivot)
    } else {
        position - pivot
    }
}

/// The cuts that are visited first, of those that divide what the arguments have of the cell from `from` on.
#[cycle(first)]
pub fn first_cuts<M: Matcher>(
    walk: &Walk<'_, M>,
    arguments: &[Arg],
    from: usize,
    number: usize,
    cuts: Cuts,
) -> Option<Cuts>
    requires left { AreLeft (M.posed walk.now.matcher.now) walk.now.cell walk.now.alt
        arguments.now from number cuts.turns }
    ensures { MatchOption result
        (HasNoneBehind (M.posed walk.now.matcher.now) walk.now.cell arguments.now from number 0 cuts.turns)
        (IsFirstBehind (M.posed walk.now.matcher.now) walk.now.cell arguments.now from number 0 cuts) }
{
    match arguments {
        [] => Some(closed(walk.cell, number, cuts)),
        [only] => {
            let last = walk.cell.to as usize;
            if argument_ends(walk.matcher, only, from, last).contains(&last) {
                Some(closed(walk.cell, number, cuts))
            } else {
                None
            }
        }
        _ => first_behind(walk, arguments, from, number, 0, cuts),
    }
}

/// The same of those whose first boundary has at least this rank.
#[cycle(first)]
fn first_behind<M: Matcher>(
    walk: &Walk<'_, M>,
    arguments: &[Arg],
    from: usize,
    number: usize,
    least_rank: usize,
    cuts: Cuts,
) -> Option<Cuts>
    requires left { AreLeft (M.posed walk.now.matcher.now) walk.now.cell walk.now.alt
        arguments.now from number cuts.turns }
    requires several { 1 < length arguments.now }
    requires rank { least_rank < 2 ^ 32 }
    ensures { MatchOption result
        (HasNoneBehind (M.posed walk.now.matcher.now) walk.now.cell arguments.now from number least_rank cuts.turns)
        (IsFirstBehind (M.posed walk.now.matcher.now) walk.now.cell arguments.now from number least_rank cuts) }
{
    let (begin, last) = (walk.cell.from as usize, walk.cell.to as usize);
    let positions = first_ends(walk.matcher, arguments, from, last);
    let later = &arguments[1..];
    let pivot = begin + cuts.turns[number] as usize;
    let ahead = positions.start.max(pivot + least_rank);
    let skipped = least_rank.saturating_sub(last + 1 - pivot);
    let wrapped = positions.start.max(begin + skipped);
    match first_within(walk, later, ahead, positions.end, number, cuts) {
        Some(found) => Some(found),
        None => {
            let before_turn = positions.end.min(pivot);
            first_within(walk, later, wrapped, before_turn, number, cuts)
        }
    }
}

/// The first position of the range from which cuts divide what the arguments have of the cell, with those visited
/// first.
#[cycle(first)]
fn first_within<M: Matcher>(
    walk: &Walk<'_, M>,
    arguments: &[Arg],
    start: usize,
    end: usize,
    number: usize,
    cuts: Cuts,
) -> Option<Cuts>
    requires after { walk.now.cell.from ≤ start }
    requires before { end ≤ walk.now.cell.to + 1 }
    requires short { end ≤ 2 ^ 16 }
    requires word { walk.now.cell.to ≤ length (M.posed walk.now.matcher.now).word }
    requires known { AllByRecursion (IsKnown (M.posed walk.now.matcher.now).grammar) arguments.now }
    requires rest { AreRest (M.posed walk.now.matcher.now) walk.now.cell walk.now.alt (number + 1) arguments.now }
    requires some { 0 < length arguments.now }
    requires few { length arguments.now + number ≤ 3 }
    requires turns { AllByRecursion (λ turn. turn ≤ walk.now.cell.to - walk.now.cell.from) cuts.turns }
    ensures { MatchOption result
        (HasNoneWithin (M.posed walk.now.matcher.now) walk.now.cell arguments.now start end number cuts.turns)
        (IsFirstWithin (M.posed walk.now.matcher.now) walk.now.cell arguments.now start end number cuts) }
{
    let mut start = start;
    while let Some(position) = walk
        .matcher
        .next_position(walk.cell.rule, walk.alt, number + 1, start, end)
    {
        let mut moved = cuts;
        moved.at[number] = position as u16;
        if let Some(found) = first_cuts(walk, arguments, position, number + 1, moved) {
            return Some(found);
        }
        start = position + 1;
    }
    None
}

/// The cuts that are visited next behind these.
pub fn next_cuts<M: Matcher>(
    walk: &Walk<'_, M>,
    arguments: &[Arg],
    from: usize,
    number: usize,
    cuts: Cuts,
) -> Option<Cuts>
    requires left { AreLeft (M.posed walk.now.matcher.now) walk.now.cell walk.now.alt
        arguments.now from number cuts.turns }
    requires divides { Divide (M.posed walk.now.matcher.now) arguments.now from walk.now.cell.to (drop number cuts.at) }
    ensures { MatchOption result
        (IsLastFrom (M.posed walk.now.matcher.now) walk.now.cell arguments.now from number cuts)
        (IsNextFrom (M.posed walk.now.matcher.now) walk.now.cell arguments.now from number cuts) }
{
    if arguments.len() < 2 {
        return None;
    }
    let position = cuts.at[number];
    match next_cuts(walk, &arguments[1..], position as usize, number + 1, cuts) {
        Some(found) => Some(found),
        None => {
            let least_rank = rank(walk.cell, cuts.turns[number], position) + 1;
            first_behind(walk, arguments, from, number, least_rank, cuts)
        }
    }
}
