//! Where a visit comes to along a line of splits whose cells are noted.

ghost use Rattle.std.specs.Prelude.{◌≡◌, ◌+◌, ◌-◌, ◌<◌, ◌≤◌, ℕ, ◌∷◌, IfSome, MatchOption, length, slice_index, slice_index_or, take, drop};
ghost use Rattle.std.specs.Bool.{OnTrue, OnFalse};
ghost use Rattle.std.specs.List.{AllAdjacentBelow, AllByRecursion, Contains};
ghost use Rattle.adp_model.specs.declared.cell.Cell.{Cell as AnyCell};
ghost use Rattle.adp_model.specs.PosedProblem.{IsSpan};
ghost use Rattle.adp_model.specs.Parts.{alternatives_of, arguments_of};
ghost use Rattle.adp_model.specs.declared.grammar.Arg.TheVariants.{Rule};
ghost use Rattle.adp_model.specs.Splits.{ends_by, FitsSpan, IsViable};
ghost use Rattle.adp_model.specs.SplitArguments.{IsSplitArgument};
ghost use Rattle.memo_model.specs.Visits.{argument_at, IsWalk};
ghost use Rattle.adp_model.specs.WellFormed.{IsKnown};
ghost use Rattle.viable_splits.specs.Placing.{on_span};
ghost use Rattle.split_lines.specs.Laid.{IsCellOf};
ghost use Rattle.split_lines.specs.Flags.{AreBitsAmong};
ghost use Rattle.split_lines.specs.Lines.{IsLine};
ghost use Rattle.argument_search.specs.Skipping.{AreNotedBefore, AreNotedBetween, EndsByAPosition, IsFirstBetween, IsLeftBetween, IsNotedAt, IsNotedUpTo, IsPairOf, IsReached, IsSkipped};

use crate::noted_cells::NotedCells;
use crate::positions::{at_number, end_of, first_of, start_of};
use crate::walk::asked;
use adp_model::laws::splits::{ranks_begin_at_the_turn, viable_cuts_lie_within_the_cell};
use adp_model::laws::well_formed::arguments_are_few_and_known;
use adp_model::{Arg, Cell, Problem};
use memo_model::{Position, Visit};
use split_lines::{Line, Lines};

/// The two arguments of a line on a span, and the positions at which the boundary between them may stand: the first one
/// begins at `from`, the second one `letters` behind the boundary, and ends at `last`. Bits tell where the first one
/// may end and where the second one may begin.
#[derive(Clone, Copy)]
pub struct OpenPair<'s> {
    pub first: &'s Arg,
    pub second: &'s Arg,
    pub from: u16,
    pub positions: &'s [u16],
    pub here: &'s [u64],
    pub behind: &'s [u64],
    pub letters: u16,
    pub last: u16,
}

impl<'s> OpenPair<'s> {
    /// The two arguments of a line between two positions; the first of them is the first of the arguments. Takes
    /// constant time, but for literals behind the second one, and no memory.
    #[inline(always)]
    pub(crate) fn on(
        lines: &Lines<'_>,
        line: Line<'s>,
        arguments: &'s [Arg],
        from: u16,
        to: u16,
    ) -> OpenPair<'s>
        requires line { IsLine lines.now arguments.now line }
        requires known { AllByRecursion (IsKnown lines.now.grammar) arguments.now }
        requires span { IsSpan lines.now.word from to }
        ensures { IsPairOf lines.now arguments.entry.now line.entry.between from to result }
    {
        let boundary = lines.boundary(line, arguments, from, to);
        OpenPair {
            first: &arguments[0],
            second: &arguments[line.between as usize + 1],
            from,
            positions: boundary.positions,
            here: boundary.here,
            behind: boundary.behind,
            letters: boundary.letters,
            last: boundary.last,
        }
    }
}

/// A position of a line that a visit comes to, and whether the cells of both arguments are noted there too.
#[derive(Clone, Copy)]
pub struct Ahead {
    pub position: u16,
    pub is_noted: bool,
}

/// A position from `begin` up to `past` before which, from `begin` on, the cells of the first argument are noted.
fn first_noted<N: NotedCells>(noted: &N, pair: OpenPair<'_>, begin: u16, past: u16) -> u16
    requires order { begin ≤ past }
    requires up_to { EndsByAPosition pair.positions.now past }
    requires here { AreBitsAmong pair.positions.now 0 pair.here.now }
    ensures low { begin ≤ result }
    ensures high { result ≤ past }
    ensures noted { (position : ℕ) → Contains pair.entry.positions.now position → begin ≤ position → position < result
        → (child : AnyCell) → IsCellOf pair.entry.first.now pair.entry.from position child
        → N.is_noted noted.now child }
{
    match pair.first {
        Arg::Rule(rule) => noted.noted_ends(*rule, pair.from, begin, past, pair.here),
        _ => past,
    }
}

/// The same of the second argument.
fn second_noted<N: NotedCells>(noted: &N, pair: OpenPair<'_>, begin: u16, past: u16) -> u16
    requires order { begin ≤ past }
    requires up_to { EndsByAPosition pair.positions.now past }
    requires short { past + pair.letters ≤ 4001 }
    requires behind { AreBitsAmong pair.positions.now pair.letters pair.behind.now }
    ensures low { begin ≤ result }
    ensures high { result ≤ past }
    ensures noted { (position : ℕ) → Contains pair.entry.positions.now position → begin ≤ position → position < result
        → (child : AnyCell) → IsCellOf pair.entry.second.now (position + pair.entry.letters) pair.entry.last child
        → N.is_noted noted.now child }
{
    let letters = pair.letters;
    match pair.second {
        Arg::Rule(rule) => {
            let first = begin + letters;
            noted.noted_starts(*rule, pair.last, first, past + letters, pair.behind) - letters
        }
        _ => past,
    }
}

/// Whether the cells of the first arguments of a split, so many of them, are noted where they are rules.
fn are_noted_before<N: NotedCells>(
    problem: &Problem<'_>,
    noted: &N,
    cell: Cell,
    at: Position,
    count: u8,
) -> bool
    requires viable { IsViable problem.now cell at.alternative at.cuts }
    requires count { count ≤ length (arguments_of problem.now.grammar cell.rule at.alternative) }
    ensures { OnTrue result (AreNotedBefore problem.now (N.is_noted noted.now) cell at count) }
{
    for number in 0..count {
        if let Some(child) = asked(problem, cell, at_number(at, number)) {
            if !noted.has(child) {
                return false;
            }
        }
    }
    true
}

/// A position from `begin` up to `past` before which, from `begin` on, the cells of both arguments are noted.
pub(crate) fn both_noted<N: NotedCells>(noted: &N, pair: OpenPair<'_>, begin: u16, past: u16) -> u16
    requires order { begin ≤ past }
    requires up_to { EndsByAPosition pair.positions.now past }
    requires short { past + pair.letters ≤ 4001 }
    requires here { AreBitsAmong pair.positions.now 0 pair.here.now }
    requires behind { AreBitsAmong pair.positions.now pair.letters pair.behind.now }
    ensures low { begin ≤ result }
    ensures high { result ≤ past }
    ensures noted { AreNotedBetween (N.is_noted noted.now) pair.entry begin result }
{
    let past = first_noted(noted, pair, begin, past);
    second_noted(noted, pair, begin, past)
}

/// The last of the positions before `past`, where it isn't before `begin`.
fn last_between(positions: &[u16], begin: u16, past: u16) -> Option<u16>
    ensures { IfSome result (λ last. Contains positions.now last × (begin ≤ last) × (last < past)) }
{
    if past <= begin || positions.is_empty() {
        return None;
    }
    let last = positions[positions.len() - 1];
    if last < begin {
        return None;
    }
    if last < past {
        return Some(last);
    }
    let behind = match positions.binary_search(&past) {
        Ok(index) => index,
        Err(index) => index,
    };
    if behind == 0 {
        return None;
    }
    let last = positions[behind - 1];
    if last < begin || last >= past {
        return None;
    }
    Some(last)
}

/// The first of the positions from `begin` on, where it is before `past`.
fn first_between(positions: &[u16], begin: u16, past: u16) -> Option<u16>
    requires rising { AllAdjacentBelow (λ (a b : ℕ). a < b) positions.now (length positions.now) }
    ensures { MatchOption result
        ((position : ℕ) → Contains positions.now position → begin ≤ position → position < past → ⊥)
        (IsFirstBetween positions.now begin past) }
{
    if past <= begin {
        return None;
    }
    let index = match positions.binary_search(&begin) {
        Ok(_) => return Some(begin),
        Err(index) => index,
    };
    if index == positions.len() {
        return None;
    }
    let position = positions[index];
    if position >= past {
        return None;
    }
    Some(position)
}

/// A position from `begin` on and before `past` such that from `begin` up to it the cells of both arguments are noted:
/// the first one where they aren't, or the last one where all are.
fn first_left<N: NotedCells>(noted: &N, pair: OpenPair<'_>, begin: u16, past: u16) -> Option<Ahead>
    requires rising { AllAdjacentBelow (λ (a b : ℕ). a < b) pair.positions.now (length pair.positions.now) }
    requires order { begin ≤ past }
    requires up_to { EndsByAPosition pair.positions.now past }
    requires short { past + pair.letters ≤ 4001 }
    requires here { AreBitsAmong pair.positions.now 0 pair.here.now }
    requires behind { AreBitsAmong pair.positions.now pair.letters pair.behind.now }
    ensures { IfSome result (IsLeftBetween (N.is_noted noted.now) pair.entry begin past) }
{
    let stop = both_noted(noted, pair, begin, past);
    match first_between(pair.positions, stop, past) {
        Some(position) => Some(Ahead {
            position,
            is_noted: false,
        }),
        None => match last_between(pair.positions, begin, past) {
            Some(position) => Some(Ahead {
                position,
                is_noted: true,
            }),
            None => None,
        },
    }
}

/// The position of a line that the visit comes to first, from this one on, where the cells of one of its arguments
/// aren't noted, or its last position where all are.
fn next_boundary<N: NotedCells>(
    noted: &N,
    cell: Cell,
    turn: u32,
    pair: OpenPair<'_>,
    position: u16,
) -> Option<Ahead>
    requires rising { AllAdjacentBelow (λ (a b : ℕ). a < b) pair.positions.now (length pair.positions.now) }
    requires within { (other : ℕ) → Contains pair.positions.now other → (cell.from ≤ other) × (other ≤ cell.to) }
    requires short { (other : ℕ) → Contains pair.positions.now other → other + pair.letters ≤ 4000 }
    requires here { AreBitsAmong pair.positions.now 0 pair.here.now }
    requires behind { AreBitsAmong pair.positions.now pair.letters pair.behind.now }
    requires turn { turn ≤ cell.to - cell.from }
    requires order { cell.from ≤ cell.to }
    requires position { (cell.from ≤ position) × (position ≤ cell.to) }
    ensures up_to { IfSome result
        (λ ahead. IsNotedUpTo (N.is_noted noted.now) cell turn pair.entry position ahead.position) }
    ensures noted { IfSome result
        (λ ahead. OnTrue ahead.is_noted (IsNotedAt (N.is_noted noted.now) pair.entry ahead.position)) }
{
    ranks_begin_at_the_turn();
    let positions = pair.positions;
    if positions.is_empty() {
        return None;
    }
    let (first, last) = (positions[0], positions[positions.len() - 1]);
    if last < position {
        return None;
    }
    let pivot = cell.from + turn as u16;
    if position < pivot {
        return first_left(noted, pair, position, pivot.min(last + 1));
    }
    let Some(ahead) = first_left(noted, pair, position, last + 1) else {
        return None;
    };
    if !ahead.is_noted || pivot <= first {
        return Some(ahead);
    }
    first_left(noted, pair, first, pivot)
}

/// The cuts with the boundary of a line, and the tokens behind it, moved to a position.
fn moved(cuts: [u16; 3], first: usize, between: usize, position: u16) -> [u16; 3]
    requires { first + between < 3 }
    ensures front { take first result ≡ take first cuts }
    ensures there { slice_index result first ≡ position }
    ensures behind { (number : ℕ) → first + between < number → slice_index result number ≡ slice_index cuts number }
{
    let mut moved = cuts;
    for number in first + 1..first + between + 1 {
        moved[number] = position.saturating_add(cuts[number].saturating_sub(cuts[first]));
    }
    moved[first] = position;
    moved
}

/// Whether cuts that differ from those of a viable split by a line's boundary, which may stand there, and by the tokens
/// behind it are those of a viable split too.
fn is_viable(
    lines: &Lines<'_>,
    problem: &Problem<'_>,
    cell: Cell,
    at: Position,
    line: Line<'_>,
    pair: OpenPair<'_>,
    cuts: [u16; 3],
) -> bool
    requires same { lines.now ≡ problem.now }
    requires span { IsSpan problem.now.word cell.from cell.to }
    requires viable { IsViable problem.now cell at.alternative at.cuts }
    requires within { line.first + line.between + 1
        < length (arguments_of problem.now.grammar cell.rule at.alternative) }
    requires front { take line.first cuts ≡ take line.first at.cuts }
    requires behind { (number : ℕ) → line.first + line.between < number
        → slice_index cuts number ≡ slice_index at.cuts number }
    requires short { slice_index cuts line.first + pair.letters ≤ 4000 }
    requires first { FitsSpan problem.now (on_span
        (slice_index_or (arguments_of problem.now.grammar cell.rule at.alternative) line.first (Rule 0))
        (slice_index (cell.from ∷ ends_by cell at.cuts) line.first) (slice_index cuts line.first)) }
    requires second { FitsSpan problem.now (on_span
        (slice_index_or (arguments_of problem.now.grammar cell.rule at.alternative) (line.first + line.between + 1)
        (Rule 0)) (slice_index cuts line.first + pair.letters) pair.last) }
    ensures { OnTrue result (IsViable problem.now cell at.alternative cuts) }
{
    let arguments = problem.arguments(cell.rule, at.alternative);
    let moved = first_of(at.alternative, cuts);
    let second = line.first + line.between + 1;
    let behind = at_number(moved, second);
    let start = cuts[line.first as usize] + pair.letters;
    if start_of(cell, behind) != start || end_of(cell, behind) != pair.last {
        return false;
    }
    for number in line.first + 1..second {
        let token = at_number(moved, number);
        let (from, to) = (start_of(cell, token), end_of(cell, token));
        if from > to || to > cell.to || !lines.fits(&arguments[number as usize], from, to) {
            return false;
        }
    }
    true
}

/// Whether the search goes along a line from this argument: from the last one of a split, and from the first one where
/// others stand before the line. A line that begins an alternative has just been seen to have a cell that isn't noted
/// when a visit comes to its first argument.
fn goes_along(at: Position, line: Line<'_>, count: usize) -> bool {
    at.number as usize + 1 == count || at.number == 0 && line.first > 0
}

/// The two arguments of the line of a split, where the others stand as they do there.
fn pair_of<'s>(
    lines: &Lines<'_>,
    problem: &'s Problem<'_>,
    cell: Cell,
    at: Position,
    line: Line<'s>,
) -> OpenPair<'s>
    requires same { lines.now ≡ problem.now }
    requires span { IsSpan problem.now.word cell.from cell.to }
    requires viable { IsViable problem.now cell at.alternative at.cuts }
    requires line { IsLine problem.now
        (drop line.first (arguments_of problem.now.grammar cell.rule at.alternative)) line }
    ensures { IsPairOf problem.now
        (drop line.entry.first (arguments_of problem.now.grammar cell.rule at.alternative)) line.entry.between
        (slice_index (cell.from ∷ ends_by cell at.cuts) line.entry.first) cell.to result }
{
    problem.admissible();
    arguments_are_few_and_known();
    viable_cuts_lie_within_the_cell();
    let arguments = &problem.arguments(cell.rule, at.alternative)[line.first as usize..];
    let begin = at_number(at, line.first);
    let from = start_of(cell, begin);
    OpenPair::on(lines, line, arguments, from, cell.to)
}

/// Goes on from an argument along the line of its split while the cells that are asked for are noted: where one isn't,
/// to the first argument of the line there, and then that is the next one; where all are, to the last argument of the
/// last split. Whether it is the next one; where that isn't told it stays.
pub(crate) fn reached<N: NotedCells>(
    lines: &Lines<'_>,
    problem: &Problem<'_>,
    noted: &N,
    visit: Visit,
    argument: &mut Position,
) -> bool
    requires same { lines.now ≡ problem.now }
    requires span { IsSpan problem.now.word visit.cell.from visit.cell.to }
    requires walk { IsWalk problem.now visit }
    requires argument { IsSplitArgument problem.now (argument_at visit.cell argument.old) }
    ensures next { OnTrue result (IsReached problem.now (N.is_noted noted.now) visit argument.old argument.new) }
    ensures past { OnFalse result (IsSkipped problem.now (N.is_noted noted.now) visit argument.old argument.new) }
{
    problem.admissible();
    arguments_are_few_and_known();
    viable_cuts_lie_within_the_cell();
    ranks_begin_at_the_turn();
    let at = *argument;
    let cell = visit.cell;
    let count = problem.arguments(cell.rule, at.alternative).len();
    let Some(line) = lines.line(cell.rule, at.alternative) else {
        return false;
    };
    if !goes_along(at, line, count) || !are_noted_before(problem, noted, cell, at, line.first) {
        return false;
    }
    let first = line.first as usize;
    let between = line.between as usize;
    let cuts = at.cuts;
    let pair = pair_of(lines, problem, cell, at, line);
    let Some(ahead) = next_boundary(noted, cell, visit.turns[first], pair, cuts[first]) else {
        return false;
    };
    let number = if ahead.is_noted {
        (count - 1) as u8
    } else {
        line.first
    };
    if ahead.position == cuts[first] && number <= at.number {
        return false;
    }
    let cuts = moved(cuts, first, between, ahead.position);
    if !is_viable(lines, problem, cell, at, line, pair, cuts) {
        return false;
    }
    let there = first_of(at.alternative, cuts);
    *argument = at_number(there, number);
    !ahead.is_noted
}
