//! The cells that those of a row demand: for all positions at once at which an argument may begin.

ghost use Rattle.std.specs.Prelude.{◌≡◌, ◌↔◌, ℕ, ◌+◌, ◌*◌, ◌<◌, ◌≤◌, IfOk, IfSome, IsTrue, length};
ghost use Rattle.std.specs.List.{AllByRecursion};
ghost use Rattle.adp_model.specs.declared.cell.Cell.{Cell};
ghost use Rattle.adp_model.specs.PosedProblem.{PosedProblem};
ghost use Rattle.adp_model.specs.Cells.{IsCounted};
ghost use Rattle.adp_model.specs.WellFormed.{IsKnown};
ghost use Rattle.cell_demands.specs.PlaceBits.{HasBit, HaveBits, HaveBitsToo};
ghost use Rattle.cell_demands.specs.Rows.{AreFew, AreInWord, AreMarkedInRows, DemandsOfLengths, DemandsOfRow, GoesOn, HasRoomFor};
ghost use Rattle.cell_demands.specs.Rows.{HaveAllBits, HaveBoundaryBits, IsAmong, IsBehindArgument, IsBetween, IsChildOfEnds, IsChildOfRow, IsReachedBy, IsRoomFor, LeadsOn};
ghost use Rattle.cell_tables.specs.Marks.{IsMarkedInRow};

use crate::bits::{clear, clear_bits, first_in_both, first_set, last_set, set_between, set_bit};
use crate::letter_rows::LetterRows;
use crate::row_lines::RowLines;
use adp_model::laws::well_formed::{alternatives_fit, arguments_are_few_and_known};
use adp_model::{Arg, Cell, Problem};
use cell_tables::{Layout, Marks};
use split_lines::{Lengths, Lines};
use std::alloc::{AllocError, Global};
use std::ops::Range;
use viable_splits::argument_ends;

/// How many boundaries an alternative has between its arguments, at most.
const INNER: usize = 3;

/// The positions of a word from `first` on and before `past` whose bits are set.
#[derive(Clone, Copy)]
pub struct Positions<'b> {
    pub bits: &'b [u64],
    pub first: u16,
    pub past: u16,
}

/// Bits for the positions of a boundary between two arguments.
#[derive(Drop)]
pub struct BoundaryBits {
    /// Where the arguments before it may end.
    reached: Vec<u64>,
    /// From where those behind it lead on.
    leads: Vec<u64>,
}

/// Bits for the boundaries of an alternative.
#[derive(Drop)]
pub struct Boundaries {
    start: BoundaryBits,
    inner: [BoundaryBits; INNER],
}

/// Bits for the ends of a row, for the boundaries of an alternative, and of where letters stand.
#[derive(Drop)]
pub struct RowRoom {
    ends: Vec<u64>,
    boundaries: Boundaries,
    letters: LetterRows,
}

/// Bits for a boundary. Fails for want of memory alone.
fn new_boundary(alloc: Global, positions: usize) -> Result<BoundaryBits, AllocError>
    ensures { (p : PosedProblem) → positions ≡ length p.word + 1 → IfOk result (HaveBoundaryBits p) }
{
    Ok(BoundaryBits {
        reached: clear_bits(alloc, positions)?,
        leads: clear_bits(alloc, positions)?,
    })
}

/// Bits for the boundaries of an alternative. Fails for want of memory alone.
fn new_boundaries(alloc: Global, positions: usize) -> Result<Boundaries, AllocError>
    ensures { (p : PosedProblem) → positions ≡ length p.word + 1 → IfOk result (HaveAllBits p) }
{
    Ok(Boundaries {
        start: new_boundary(alloc, positions)?,
        inner: [
            new_boundary(alloc, positions)?,
            new_boundary(alloc, positions)?,
            new_boundary(alloc, positions)?,
        ],
    })
}

impl RowRoom {
    /// Room for the word of a problem. Fails for want of memory alone.
    pub fn new(alloc: Global, problem: &Problem<'_>) -> Result<RowRoom, AllocError>
        ensures { IfOk result (IsRoomFor problem.now) }
    {
        problem.admissible();
        let positions = problem.letters().len() + 1;
        Ok(RowRoom {
            letters: LetterRows::new(alloc, problem)?,
            ends: clear_bits(alloc, positions)?,
            boundaries: new_boundaries(alloc, positions)?,
        })
    }
}

/// The first position from `from` on whose bit is set and at which an argument may begin, where these are the bits of
/// those at which it may; the end of the positions where there is none.
#[inline(always)]
fn next_begun(begins: Option<&[u64]>, positions: Positions<'_>, from: u16) -> u16
    requires order { from ≤ positions.past }
    requires few { positions.past ≤ 4096 }
    ensures from_first { from ≤ result }
    ensures within { result ≤ positions.entry.past }
    ensures set { result < positions.entry.past → HasBit positions.entry.bits.now result }
    ensures none_before { (place : ℕ) → from ≤ place → place < result → HasBit positions.entry.bits.now place
        → IfSome begins.entry (λ bits. HasBit bits.now place) → ⊥ }
{
    match begins {
        Some(begins) => first_in_both(positions.bits, begins, from, positions.past),
        None => first_set(positions.bits, from, positions.past),
    }
}

/// Whether the argument may go on from a position to one of those behind. Its cells there are marked, where it is a rule.
#[inline(always)]
fn mark_ends(
    lines: &RowLines<'_, '_>,
    argument: &Arg,
    from: u16,
    behind: Positions<'_>,
    marks: &mut Marks<'_>,
) -> bool
    requires known { IsKnown lines.now.grammar argument.now }
    requires from { from ≤ length lines.now.word }
    requires behind { AreInWord lines.now behind }
    requires same_problem { marks.old.problem ≡ lines.now }
    requires counted { (cell : Cell) → IsBetween lines.now argument.now (λ at. at ≡ from) (IsAmong behind) cell
        → IsCounted lines.now.grammar (length lines.now.word) cell }
    ensures goes_on { IsTrue result ↔ GoesOn lines.now argument.now (IsAmong behind.entry) from }
    ensures marked { AreMarkedInRows marks.old marks.new
        (IsBetween lines.now argument.now (λ at. at ≡ from) (IsAmong behind.entry)) }
{
    let last = lines.problem().letters().len();
    let ends = argument_ends(lines, argument, from as usize, last);
    if ends.start >= ends.end {
        return false;
    }
    let first = behind.first.max(ends.start as u16);
    let past = behind.past.min(ends.end as u16);
    let Some(last) = last_set(behind.bits, first, past) else {
        return false;
    };
    if let Arg::Rule(rule) = argument {
        let first = first_set(behind.bits, first, past);
        marks.mark_ends_of(*rule, from, first, last + 1, behind.bits);
    }
    true
}

/// Marks the argument's cells between positions that are reached and those behind, and sets the bits of the first ones
/// from which it goes on.
fn mark_between(
    lines: &RowLines<'_, '_>,
    argument: &Arg,
    reached: Positions<'_>,
    behind: Positions<'_>,
    leads: &mut [u64],
    marks: &mut Marks<'_>,
)
    requires known { IsKnown lines.now.grammar argument.now }
    requires reached { AreInWord lines.now reached }
    requires behind { AreInWord lines.now behind }
    requires leads { HaveBits lines.now leads.old }
    requires same_problem { marks.old.problem ≡ lines.now }
    requires counted { (cell : Cell) → IsBetween lines.now argument.now (IsAmong reached) (IsAmong behind) cell
        → IsCounted lines.now.grammar (length lines.now.word) cell }
    ensures leads { HaveBitsToo leads.old leads.new
        (λ from. IsAmong reached.entry from × GoesOn lines.now argument.now (IsAmong behind.entry) from) }
    ensures marked { AreMarkedInRows marks.old marks.new
        (IsBetween lines.now argument.now (IsAmong reached.entry) (IsAmong behind.entry)) }
{
    let begins = lines.begins(argument);
    let mut from = next_begun(begins, reached, reached.first);
    while from < reached.past {
        if mark_ends(lines, argument, from, behind, marks) {
            set_bit(leads, from);
        }
        from = next_begun(begins, reached, from + 1);
    }
}

/// Sets the bits of the positions at which the argument may end that begins at one that is reached.
fn reach(lines: &RowLines<'_, '_>, argument: &Arg, reached: Positions<'_>, next: &mut [u64])
    requires known { IsKnown lines.now.grammar argument.now }
    requires reached { AreInWord lines.now reached }
    requires next { HaveBits lines.now next.old }
    ensures { HaveBitsToo next.old next.new (IsReachedBy lines.now argument.now (IsAmong reached.entry)) }
{
    let last = lines.problem().letters().len();
    let begins = lines.begins(argument);
    let mut from = next_begun(begins, reached, reached.first);
    while from < reached.past {
        let ends = argument_ends(lines, argument, from as usize, last);
        if ends.start < ends.end {
            set_between(next, ends.start as u16, ends.end as u16);
        }
        from = next_begun(begins, reached, from + 1);
    }
}

/// Sets the bits of a boundary at which the argument may end, and no others.
fn reach_next(
    lines: &RowLines<'_, '_>,
    argument: &Arg,
    reached: Positions<'_>,
    boundary: &mut BoundaryBits,
)
    requires known { IsKnown lines.now.grammar argument.now }
    requires reached { AreInWord lines.now reached }
    requires boundary { HaveBoundaryBits lines.now boundary.old }
    ensures { IsBehindArgument lines.now argument.now (IsAmong reached.entry) boundary.new }
{
    clear(&mut boundary.reached);
    clear(&mut boundary.leads);
    reach(lines, argument, reached, &mut boundary.reached);
}

/// Marks what arguments demand that begin at positions which are reached and end at wanted ones, and sets the bits of
/// the first ones from which they lead on to one of these.
fn mark_through(
    lines: &RowLines<'_, '_>,
    arguments: &[Arg],
    reached: Positions<'_>,
    wanted: Positions<'_>,
    inner: &mut [BoundaryBits],
    leads: &mut [u64],
    marks: &mut Marks<'_>,
)
    requires known { AllByRecursion (IsKnown lines.now.grammar) arguments.now }
    requires positions { AreInWord lines.now reached × AreInWord lines.now wanted }
    requires room { HasRoomFor lines.now arguments.now inner.old leads.old }
    requires same_problem { marks.old.problem ≡ lines.now }
    requires counted { (cell : Cell) → DemandsOfRow lines.now arguments.now (IsAmong reached) (IsAmong wanted) cell
        → IsCounted lines.now.grammar (length lines.now.word) cell }
    ensures leads { HaveBitsToo leads.old leads.new
        (λ from. IsAmong reached.entry from × LeadsOn lines.now arguments.now (IsAmong wanted.entry) from) }
    ensures marked { AreMarkedInRows marks.old marks.new
        (DemandsOfRow lines.now arguments.now (IsAmong reached.entry) (IsAmong wanted.entry)) }
    ensures room { HasRoomFor lines.now arguments.now inner.new leads.new }
{
    let Some((argument, others)) = arguments.split_first() else {
        return;
    };
    if others.is_empty() {
        mark_between(lines, argument, reached, wanted, leads, marks);
        return;
    }
    let Some((here, later)) = inner.split_first_mut() else {
        return;
    };
    reach_next(lines, argument, reached, here);
    let next: &[u64] = &here.reached;
    let behind: &mut [u64] = &mut here.leads;
    let (first, past) = (reached.first, lines.problem().letters().len() as u16 + 1);
    if first_set(next, first, past) == past {
        return;
    }
    let ends = Positions {
        bits: next,
        first,
        past,
    };
    mark_through(lines, others, ends, wanted, later, behind, marks);
    let behind = Positions {
        bits: behind,
        first,
        past,
    };
    mark_between(lines, argument, reached, behind, leads, marks);
}

/// Marks what an alternative with these arguments and lengths demands on the cells that begin at `from` and end where
/// bits are set.
fn mark_row_by(
    lines: &RowLines<'_, '_>,
    arguments: &[Arg],
    lengths: Lengths,
    from: u16,
    ends: &[u64],
    boundaries: &mut Boundaries,
    marks: &mut Marks<'_>,
)
    requires arguments { AllByRecursion (IsKnown lines.now.grammar) arguments.now × AreFew arguments.now }
    requires from { from ≤ length lines.now.word }
    requires bits { HaveBits lines.now ends.now × HaveAllBits lines.now boundaries.old }
    requires same_problem { marks.old.problem ≡ lines.now }
    requires counted { (cell : Cell) → DemandsOfLengths lines.now arguments.now lengths from ends.now cell
        → IsCounted lines.now.grammar (length lines.now.word) cell }
    ensures marked { AreMarkedInRows marks.old marks.new (DemandsOfLengths lines.now arguments.now lengths from ends.now) }
    ensures bits { HaveAllBits lines.now boundaries.new }
{
    let last = lines.problem().letters().len() as u16;
    let wanted = Positions {
        bits: ends,
        first: from.saturating_add(lengths.least),
        past: last.min(from.saturating_add(lengths.most)) + 1,
    };
    if wanted.first >= wanted.past {
        return;
    }
    let Boundaries { start, inner } = boundaries;
    let reached: &mut [u64] = &mut start.reached;
    let leads: &mut [u64] = &mut start.leads;
    clear(reached);
    clear(leads);
    set_bit(reached, from);
    let here = Positions {
        bits: reached,
        first: from,
        past: from + 1,
    };
    mark_through(lines, arguments, here, wanted, inner, leads, marks);
}

/// Marks the demanded children of the cells of a rule that begin at `from` and end where bits are set.
fn mark_ends_children(
    lines: &RowLines<'_, '_>,
    rule: u32,
    from: u16,
    ends: &[u64],
    boundaries: &mut Boundaries,
    marks: &mut Marks<'_>,
)
    requires rule { rule < length lines.now.grammar.rules }
    requires from { from ≤ length lines.now.word }
    requires bits { HaveBits lines.now ends.now × HaveAllBits lines.now boundaries.old }
    requires same_problem { marks.old.problem ≡ lines.now }
    requires counted { (child : Cell) → IsChildOfEnds lines.now rule from ends.now child
        → IsCounted lines.now.grammar (length lines.now.word) child }
    ensures marked { AreMarkedInRows marks.old marks.new (IsChildOfEnds lines.now rule from ends.now) }
    ensures bits { HaveAllBits lines.now boundaries.new }
{
    let problem = lines.problem();
    problem.admissible();
    arguments_are_few_and_known();
    alternatives_fit();
    let kept = lines.alternatives(rule);
    for number in 0..kept.len() {
        mark_row_by(
            lines,
            problem.arguments(rule, number as u8),
            kept[number].lengths,
            from,
            ends,
            boundaries,
            marks,
        );
    }
}

/// Sets the bits of those of these ends at which a cell of the rule that begins at `from` is marked in its row.
fn find_ends(marks: &Marks<'_>, rule: u32, from: u16, range: Range<u16>, ends: &mut [u64])
    requires order { range.start ≤ range.end }
    requires short { range.end ≤ 64 * length ends.old }
    ensures as_many { length ends.new ≡ length ends.old }
    ensures exact { (to : ℕ) → HasBit ends.new to ↔ ((range.start ≤ to) × (to < range.end)
        × IsMarkedInRow marks.now (record { rule = rule; from = from; to = to })) }
{
    clear(ends);
    for to in range.start..range.end {
        let cell = Cell { rule, from, to };
        if marks.is_marked_in_row(cell) {
            set_bit(ends, to);
        }
    }
}

/// Marks the demanded children of the cells of a rule that begin at `from` and are marked in their rows, in their rows
/// too. Takes no memory.
pub fn mark_row_children(
    lines: &Lines<'_>,
    layout: &Layout<'_>,
    rule: u32,
    from: u16,
    room: &mut RowRoom,
    marks: &mut Marks<'_>,
)
    requires rule { rule < length lines.now.grammar.rules }
    requires from { from ≤ length lines.now.word }
    requires same_problem { (layout.now ≡ lines.now) × (marks.old.problem ≡ lines.now) }
    requires room { IsRoomFor lines.now room.old }
    requires counted { (child : Cell) → IsChildOfRow lines.now marks.old rule from child
        → IsCounted lines.now.grammar (length lines.now.word) child }
    ensures marked { AreMarkedInRows marks.old marks.new (IsChildOfRow lines.now marks.old rule from) }
    ensures room { IsRoomFor lines.now room.new }
{
    lines.problem().admissible();
    marks.cells();
    let ends: &mut [u64] = &mut room.ends;
    let Range { start, end } = layout.ends(rule, from);
    if start >= end {
        return;
    }
    find_ends(marks, rule, from, start..end, ends);
    if first_set(ends, start, end) == end {
        return;
    }
    let lines = RowLines::new(lines, &room.letters);
    mark_ends_children(&lines, rule, from, ends, &mut room.boundaries, marks);
}
