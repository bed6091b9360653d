//! Alternatives all of whose cells are noted.

ghost use Rattle.std.specs.Prelude.{◌≡◌, ℕ, ◌<◌, ◌≤◌, IfSome, MatchOption, true, drop, length};
ghost use Rattle.std.specs.Bool.{OnTrue};
ghost use Rattle.std.specs.List.{AllByRecursion};
ghost use Rattle.std.specs.Option.{option_copied};
ghost use Rattle.adp_model.specs.declared.cell.Cell.{Cell as AnyCell};
ghost use Rattle.adp_model.specs.PosedProblem.{IsSpan};
ghost use Rattle.adp_model.specs.Parts.{alternatives_of};
ghost use Rattle.adp_model.specs.WellFormed.{IsKnown};
ghost use Rattle.split_lines.specs.Kept.{IsAlternative};
ghost use Rattle.split_lines.specs.Laid.{IsCellOf};
ghost use Rattle.split_lines.specs.Lines.{IsLine};
ghost use Rattle.split_lines.specs.Ways.{IsOpening};
ghost use Rattle.argument_search.specs.declared.passing.Depth.TheVariants.{OneLine};
ghost use Rattle.argument_search.specs.Seeking.{AreAllNoted};
ghost use Rattle.argument_search.specs.Skipping.{AreNotedIfLaid, AreNotedOn};

use crate::noted_cells::NotedCells;
use crate::skipping::{OpenPair, both_noted};
use adp_model::laws::well_formed::{alternatives_fit, arguments_are_few_and_known};
use adp_model::{Arg, Cell};
use memo_model::Position;
use split_lines::{KeptAlternative, Line, Lines, Way, is_fixed, line_begins_later, line_here};
use std::ops::Range;

/// How far it is looked whether the cells of an alternative are noted.
#[derive(Clone, Copy)]
pub enum Depth {
    /// In the time of one line: not where arguments of open length stand before the line of the alternative, and not
    /// where it has but one and that isn't the last.
    OneLine,
    /// At all positions where its arguments may end.
    Whole,
}

impl Depth {
    /// The depth behind a position that the search comes to: one line from the first argument of a split on.
    pub(crate) fn behind(self, position: Position) -> Depth
        ensures first { position.number ≡ 0 → result ≡ OneLine }
        ensures later { 0 < position.number → result ≡ self }
    {
        match position.number {
            0 => Depth::OneLine,
            _ => self,
        }
    }
}

/// Whether the cell of an argument between two positions is noted, where the argument is a rule.
fn is_noted<N: NotedCells>(noted: &N, argument: &Arg, from: u16, to: u16) -> bool
    ensures { OnTrue result ((child : AnyCell) → IsCellOf argument.now from to child → N.is_noted noted.now child) }
{
    match argument {
        Arg::Rule(rule) => noted.has(Cell {
            rule: *rule,
            from,
            to,
        }),
        _ => true,
    }
}

/// Whether the arguments of a line can't have the letters from `from` to `to`, or all is noted `so_far` and so are the
/// cells of its two arguments, wherever its boundary may stand.
fn is_line_noted<N: NotedCells>(
    lines: &Lines<'_>,
    noted: &N,
    line: Line<'_>,
    arguments: &[Arg],
    so_far: bool,
    from: u16,
    to: u16,
) -> bool
    requires line { IsLine lines.now arguments.now line }
    requires known { AllByRecursion (IsKnown lines.now.grammar) arguments.now }
    requires span { IsSpan lines.now.word from to }
    ensures { OnTrue result (AreNotedIfLaid lines.now (N.is_noted noted.now) arguments.now so_far from to) }
{
    lines.problem().admissible();
    let pair = OpenPair::on(lines, line, arguments, from, to);
    let positions = pair.positions;
    if positions.is_empty() {
        return true;
    }
    if !so_far {
        return false;
    }
    let (first, last) = (positions[0], positions[positions.len() - 1]);
    both_noted(noted, pair, first, last + 1) > last
}

/// Whether arguments can't have the letters from `from` to `to`, or all is noted `so_far` and so is each cell that they
/// may demand there. If they have a line, `ahead` of them come before it. Those behind the first one are known to be so
/// from the positions that are `told` on.
fn are_arguments_noted<N: NotedCells>(
    lines: &Lines<'_>,
    noted: &N,
    line: Option<&Line<'_>>,
    ahead: u8,
    arguments: &[Arg],
    so_far: bool,
    from: u16,
    to: u16,
    told: &Range<u16>,
) -> bool
    requires line { IfSome (option_copied line) (λ line. IsLine lines.now (drop ahead arguments.now) line) }
    requires known { AllByRecursion (IsKnown lines.now.grammar) arguments.now }
    requires few { length arguments.now ≤ 4 }
    requires span { IsSpan lines.now.word from to }
    requires told { (end : ℕ) → told.now.start ≤ end → end < told.now.end
        → AreNotedIfLaid lines.now (N.is_noted noted.now) (drop 1 arguments.now) true end to }
    ensures { OnTrue result (AreNotedIfLaid lines.now (N.is_noted noted.now) arguments.now so_far from to) }
{
    line_begins_later();
    let Some((argument, others)) = arguments.split_first() else {
        return so_far || from != to;
    };
    if let Some(line) = line_here(line, ahead) {
        return is_line_noted(lines, noted, *line, arguments, so_far, from, to);
    }
    let ahead = ahead.saturating_sub(1);
    let mut behind = 0..0;
    if is_fixed(argument) {
        let Some(end) = lines.token_end(argument, from, to) else {
            return true;
        };
        return are_arguments_noted(lines, noted, line, ahead, others, so_far, end, to, &behind);
    }
    let ends = lines.ends_of_first(arguments, from, to);
    for end in ends.start..ends.end {
        let are_noted = so_far && is_noted(noted, argument, from, end);
        if are_noted && told.start <= end && end < told.end {
            continue;
        }
        if !are_arguments_noted(
            lines, noted, line, ahead, others, are_noted, end, to, &behind,
        ) {
            return false;
        }
        if ahead > 0 && behind.is_empty() && !others.is_empty() {
            behind = lines.ends_of_first(others, end, to);
        }
    }
    true
}

/// Whether each cell is noted that the arguments behind the tokens in front of an alternative may demand between two
/// positions, as far as the depth lets it be told.
fn are_others_noted<N: NotedCells>(
    lines: &Lines<'_>,
    noted: &N,
    cell: Cell,
    alternative: &KeptAlternative<'_>,
    alt: u8,
    depth: Depth,
    from: u16,
) -> bool
    requires in_range { alt < length (alternatives_of lines.now.grammar cell.rule) }
    requires alternative { IsAlternative lines.now cell.rule alt alternative.now }
    requires span { IsSpan lines.now.word from cell.to }
    ensures { OnTrue result
        (AreNotedOn lines.now (N.is_noted noted.now) alternative.now.others.now from cell.to) }
{
    let others = alternative.others;
    let line = match lines.way(alternative, cell.rule, alt) {
        Way::Front => return true,
        Way::Last(argument) => return is_noted(noted, argument, from, cell.to),
        Way::Several(line) => line,
    };
    let ahead = line.map_or(0, |line| line.first);
    if let Some(line) = line_here(line.as_ref(), ahead) {
        return is_line_noted(lines, noted, *line, others, true, from, cell.to);
    }
    match depth {
        Depth::OneLine => false,
        Depth::Whole => are_arguments_noted(
            lines,
            noted,
            line.as_ref(),
            ahead,
            others,
            true,
            from,
            cell.to,
            &(0..0),
        ),
    }
}

/// What is kept of an alternative.
pub(crate) fn kept<'s, 'a>(lines: &'s Lines<'a>, rule: u32, alt: u8) -> &'s KeptAlternative<'a>
    requires { alt < length (alternatives_of lines.now.grammar rule) }
    ensures { IsAlternative lines.now rule alt result.now }
{
    lines.problem().admissible();
    alternatives_fit();
    &lines.alternatives(rule)[alt as usize]
}

/// Where the tokens in front of an alternative end on a cell, unless each cell that its splits ask for is noted, as far
/// as the depth lets it be told.
#[inline(always)]
pub(crate) fn end_in_front<N: NotedCells>(
    lines: &Lines<'_>,
    noted: &N,
    cell: Cell,
    alternative: &KeptAlternative<'_>,
    alt: u8,
    depth: Depth,
) -> Option<u16>
    requires span { IsSpan lines.now.word cell.from cell.to }
    requires in_range { alt < length (alternatives_of lines.now.grammar cell.rule) }
    requires alternative { IsAlternative lines.now cell.rule alt alternative.now }
    ensures { MatchOption result (AreAllNoted lines.now (N.is_noted noted.now) cell alt)
        (IsOpening lines.now alternative.now cell) }
{
    lines.problem().admissible();
    alternatives_fit();
    arguments_are_few_and_known();
    let Some(end) = lines.opening(alternative, cell) else {
        return None;
    };
    if are_others_noted(lines, noted, cell, alternative, alt, depth, end) {
        return None;
    }
    Some(end)
}

/// Whether each cell that the splits of an alternative ask for is noted, as far as the depth lets it be told.
pub(crate) fn are_all_noted<N: NotedCells>(
    lines: &Lines<'_>,
    noted: &N,
    cell: Cell,
    alt: u8,
    depth: Depth,
) -> bool
    requires span { IsSpan lines.now.word cell.from cell.to }
    requires alternative { alt < length (alternatives_of lines.now.grammar cell.rule) }
    ensures { OnTrue result (AreAllNoted lines.now (N.is_noted noted.now) cell alt) }
{
    let alternative = kept(lines, cell.rule, alt);
    match end_in_front(lines, noted, cell, alternative, alt, depth) {
        Some(_) => false,
        None => true,
    }
}
