//! The cells that a cell demands.

ghost use Rattle.std.specs.Prelude.{◌≡◌, ◌↔◌, ◌+◌, ◌<◌, ◌≤◌, ℕ, [], ◌∷◌, IfSome, IsTrue, drop, length};
ghost use Rattle.std.specs.List.{AllAdjacentBelow, AllByRecursion, Contains};
ghost use Rattle.std.specs.Option.{option_copied};
ghost use Rattle.adp_model.specs.declared.cell.Cell.{Cell};
ghost use Rattle.adp_model.specs.PosedProblem.{IsSpan};
ghost use Rattle.adp_model.specs.Parts.{alternatives_of};
ghost use Rattle.adp_model.specs.Cells.{IsCounted};
ghost use Rattle.adp_model.specs.Demand.{IsDemandedChild};
ghost use Rattle.adp_model.specs.WellFormed.{IsKnown};
ghost use Rattle.viable_splits.specs.Placing.{ArePositions, Cover};
ghost use Rattle.split_lines.specs.Flags.{AreBitsAmong};
ghost use Rattle.split_lines.specs.Kept.{IsAlternative};
ghost use Rattle.split_lines.specs.Laid.{Demands, DemandsBy, IsCellOf};
ghost use Rattle.split_lines.specs.Lines.{IsLine};
ghost use Rattle.cell_demands.specs.Tails.{IsOwner, IsTail, tail_with};
ghost use Rattle.cell_demands.specs.TailNotes.{AreTrue};
ghost use Rattle.cell_tables.specs.Marks.{AreInRows, AreMarkedFrom, AreMarkedToo};

use crate::runs::mark_run;
use crate::tails::{Owner, Tails, tail_of};
use adp_model::laws::well_formed::{alternatives_fit, arguments_are_few_and_known};
use adp_model::{Arg, Cell};
use cell_tables::Marks;
use split_lines::{
    Boundary, KeptAlternative, Line, Lines, Way, is_fixed, line_begins_here, line_begins_later,
    line_here,
};
use std::ops::Range;

/// Marks the cell of the argument on a span, where the argument is a rule.
fn mark_argument(argument: &Arg, from: u16, to: u16, marks: &mut Marks<'_>)
    requires { (cell : Cell) → IsCellOf argument.now from to cell
        → IsCounted marks.old.problem.grammar (length marks.old.problem.word) cell }
    ensures marked { AreMarkedToo marks.old marks.new (IsCellOf argument.now from to) }
    ensures in_row { AreInRows marks.new (IsCellOf argument.now from to) }
{
    if let Arg::Rule(rule) = argument {
        marks.mark(Cell {
            rule: *rule,
            from,
            to,
        });
    }
}

/// Marks the cells of the argument on the spans that begin at `from` and end at a position of the boundary, which has
/// some, where the argument is a rule.
fn mark_first(argument: &Arg, from: u16, boundary: Boundary<'_>, marks: &mut Marks<'_>)
    requires some { 0 < length boundary.positions.now }
    requires bits { AreBitsAmong boundary.positions.now 0 boundary.here.now }
    requires short { (position : ℕ) → Contains boundary.positions.now position → position ≤ 4000 }
    requires counted { (cell : Cell) (end : ℕ) → Contains boundary.positions.now end
        → IsCellOf argument.now from end cell
        → IsCounted marks.old.problem.grammar (length marks.old.problem.word) cell }
    ensures marked { AreMarkedToo marks.old marks.new
        (λ cell. (end : ℕ) × Contains boundary.entry.positions.now end × IsCellOf argument.now from end cell) }
    ensures in_row { AreInRows marks.new
        (λ cell. (end : ℕ) × Contains boundary.entry.positions.now end × IsCellOf argument.now from end cell) }
{
    let Boundary {
        positions,
        here,
        ..
    } = boundary;
    if let Arg::Rule(rule) = argument {
        let (first, last) = (positions[0], positions[positions.len() - 1]);
        marks.mark_ends_of(*rule, from, first, last + 1, here);
    }
}

/// Marks the cells of the argument on the spans that begin behind the letters behind a position of the boundary, which
/// has some, and end where the boundary says, where the argument is a rule. None of them begins before `begin`.
fn mark_second(argument: &Arg, begin: u16, boundary: Boundary<'_>, marks: &mut Marks<'_>)
    requires some { 0 < length boundary.positions.now }
    requires bits { AreBitsAmong boundary.positions.now boundary.letters boundary.behind.now }
    requires rising { AllAdjacentBelow (λ (a b : ℕ). a < b) boundary.positions.now (length boundary.positions.now) }
    requires short { (position : ℕ) → Contains boundary.positions.now position → position + boundary.letters ≤ 4000 }
    requires begin { (position : ℕ) → Contains boundary.positions.now position → begin ≤ position + boundary.letters }
    requires counted { (cell : Cell) (start : ℕ) → Contains boundary.positions.now start
        → IsCellOf argument.now (start + boundary.letters) boundary.last cell
        → IsCounted marks.old.problem.grammar (length marks.old.problem.word) cell }
    ensures { AreMarkedFrom begin marks.old marks.new
        (λ cell. (start : ℕ) × Contains boundary.entry.positions.now start
        × IsCellOf argument.now (start + boundary.entry.letters) boundary.entry.last cell) }
{
    let Boundary {
        positions,
        behind,
        letters,
        last,
        ..
    } = boundary;
    if let Arg::Rule(rule) = argument {
        let (first, past) = (
            positions[0] + letters,
            positions[positions.len() - 1] + letters + 1,
        );
        marks.mark_starts_of(*rule, last, first, past, behind);
        if first == begin {
            marks.mark(Cell {
                rule: *rule,
                from: first,
                to: last,
            });
        }
    }
}

/// Whether an argument may have the letters from `from` to `to`. Where it may, the cell that it demands there is
/// marked, and else nothing is; it is marked in its row, so those that begin at `begin` are.
#[inline(always)]
fn mark_last(
    lines: &Lines<'_>,
    argument: &Arg,
    begin: u16,
    from: u16,
    to: u16,
    marks: &mut Marks<'_>,
) -> bool
    requires known { IsKnown lines.now.grammar argument.now }
    requires span { IsSpan lines.now.word from to }
    requires same_problem { marks.old.problem ≡ lines.now }
    requires counted { (cell : Cell) → Demands lines.now (argument.now ∷ []) from to cell
        → IsCounted lines.now.grammar (length lines.now.word) cell }
    ensures laid { IsTrue result ↔ Cover lines.now (argument.now ∷ []) from to }
    ensures marked { AreMarkedFrom begin marks.old marks.new (Demands lines.now (argument.now ∷ []) from to) }
{
    if !lines.fits(argument, from, to) {
        return false;
    }
    mark_argument(argument, from, to, marks);
    true
}

/// Whether the arguments of a line may have the letters from `from` to `to`. Where they may, the cells that they demand
/// there are marked, and else nothing is; those that begin at `begin`, which is no later, are marked in their rows.
#[inline(never)]
fn mark_line(
    lines: &Lines<'_>,
    line: Line<'_>,
    arguments: &[Arg],
    begin: u16,
    from: u16,
    to: u16,
    marks: &mut Marks<'_>,
) -> bool
    requires line { IsLine lines.now arguments.now line }
    requires known { AllByRecursion (IsKnown lines.now.grammar) arguments.now }
    requires begin { begin ≤ from }
    requires span { IsSpan lines.now.word from to }
    requires same_problem { marks.old.problem ≡ lines.now }
    requires counted { (cell : Cell) → Demands lines.now arguments.now from to cell
        → IsCounted lines.now.grammar (length lines.now.word) cell }
    ensures laid { IsTrue result ↔ Cover lines.now arguments.now from to }
    ensures marked { AreMarkedFrom begin marks.old marks.new (Demands lines.now arguments.now from to) }
{
    lines.problem().admissible();
    let boundary = lines.boundary(line, arguments, from, to);
    if boundary.positions.is_empty() {
        return false;
    }
    let second = &arguments[line.between as usize + 1];
    mark_first(&arguments[0], from, boundary, marks);
    mark_second(second, begin, boundary, marks);
    true
}

/// The same as `mark_arguments`, of the arguments behind another one, which is noted.
#[cycle(arguments)]
#[inline(always)]
fn mark_tail(
    lines: &Lines<'_>,
    owner: Option<Owner>,
    line: Option<&Line<'_>>,
    ahead: u8,
    arguments: &[Arg],
    begin: u16,
    from: u16,
    to: u16,
    tails: &mut Tails,
    marks: &mut Marks<'_>,
) -> bool
    requires owner { IsOwner lines.now owner arguments.now }
    requires line { IfSome (option_copied line) (λ line. IsLine lines.now (drop ahead arguments.now) line) }
    requires known { AllByRecursion (IsKnown lines.now.grammar) arguments.now }
    requires few { length arguments.now ≤ 4 }
    requires begin { begin ≤ from }
    requires span { IsSpan lines.now.word from to }
    requires same_problem { marks.old.problem ≡ lines.now }
    requires noted { AreTrue lines.now marks.old tails.old }
    requires counted { (cell : Cell) → Demands lines.now arguments.now from to cell
        → IsCounted lines.now.grammar (length lines.now.word) cell }
    ensures laid { IsTrue result ↔ Cover lines.now arguments.now from to }
    ensures marked { AreMarkedFrom begin marks.old marks.new (Demands lines.now arguments.now from to) }
    ensures noted { AreTrue lines.now marks.new tails.new }
{
    let is_laid = mark_arguments(
        lines, owner, line, ahead, arguments, begin, from, to, tails, marks,
    );
    if let Some(tail) = tail_of(owner, arguments) {
        tails.note(lines.problem().letters().len(), tail, from, to, is_laid);
    }
    is_laid
}

/// The same as `mark_arguments`, of an argument with others behind it, which may end at no other positions than these:
/// end by end, and at once over those for which it is noted whether the others may have the letters behind them.
#[cycle(arguments)]
#[inline(always)]
fn mark_by_ends(
    lines: &Lines<'_>,
    owner: Option<Owner>,
    line: Option<&Line<'_>>,
    ahead: u8,
    argument: &Arg,
    others: &[Arg],
    begin: u16,
    from: u16,
    ends: Range<u16>,
    to: u16,
    tails: &mut Tails,
    marks: &mut Marks<'_>,
) -> bool
    requires owner { IsOwner lines.now owner others.now }
    requires line { IfSome (option_copied line) (λ line. IsLine lines.now (drop ahead others.now) line) }
    requires known { AllByRecursion (IsKnown lines.now.grammar) others.now }
    requires few { length others.now ≤ 4 }
    requires begin { begin ≤ from }
    requires span { IsSpan lines.now.word from to }
    requires ends { ArePositions lines.now argument.now others.now from to ends }
    requires same_problem { marks.old.problem ≡ lines.now }
    requires noted { AreTrue lines.now marks.old tails.old }
    requires counted { (cell : Cell) → Demands lines.now (argument.now ∷ others.now) from to cell
        → IsCounted lines.now.grammar (length lines.now.word) cell }
    ensures laid { IsTrue result ↔ Cover lines.now (argument.now ∷ others.now) from to }
    ensures marked { AreMarkedFrom begin marks.old marks.new
        (Demands lines.now (argument.now ∷ others.now) from to) }
    ensures noted { AreTrue lines.now marks.new tails.new }
{
    let noted = mark_run(
        lines, owner, argument, others, begin, from, ends.start, ends.end, to, tails, marks,
    );
    let mut is_laid = noted.is_laid;
    let mut end = noted.past;
    while end < ends.end {
        if mark_tail(
            lines, owner, line, ahead, others, begin, end, to, tails, marks,
        ) {
            mark_argument(argument, from, end, marks);
            is_laid = true;
        }
        let run = mark_run(
            lines,
            owner,
            argument,
            others,
            begin,
            from,
            end + 1,
            ends.end,
            to,
            tails,
            marks,
        );
        is_laid |= run.is_laid;
        end = run.past;
    }
    is_laid
}

/// Whether the arguments may have the letters from `from` to `to`. Where they may, the cells that they demand there are
/// marked, and else nothing is; those that begin at `begin`, which is no later, are marked in their rows. If they have
/// a line, `ahead` of them come before it.
#[cycle(arguments)]
fn mark_arguments(
    lines: &Lines<'_>,
    owner: Option<Owner>,
    line: Option<&Line<'_>>,
    ahead: u8,
    arguments: &[Arg],
    begin: u16,
    from: u16,
    to: u16,
    tails: &mut Tails,
    marks: &mut Marks<'_>,
) -> bool
    requires owner { IsOwner lines.now owner arguments.now }
    requires line { IfSome (option_copied line) (λ line. IsLine lines.now (drop ahead arguments.now) line) }
    requires known { AllByRecursion (IsKnown lines.now.grammar) arguments.now }
    requires few { length arguments.now ≤ 4 }
    requires begin { begin ≤ from }
    requires span { IsSpan lines.now.word from to }
    requires same_problem { marks.old.problem ≡ lines.now }
    requires noted { AreTrue lines.now marks.old tails.old }
    requires counted { (cell : Cell) → Demands lines.now arguments.now from to cell
        → IsCounted lines.now.grammar (length lines.now.word) cell }
    ensures laid { IsTrue result ↔ Cover lines.now arguments.now from to }
    ensures marked { AreMarkedFrom begin marks.old marks.new (Demands lines.now arguments.now from to) }
    ensures noted { AreTrue lines.now marks.new tails.new }
{
    let Some((argument, others)) = arguments.split_first() else {
        return from == to;
    };
    line_begins_here();
    line_begins_later();
    if let Some(line) = line_here(line, ahead) {
        return mark_line(lines, *line, arguments, begin, from, to, marks);
    }
    let ahead = ahead.saturating_sub(1);
    if is_fixed(argument) {
        return match lines.token_end(argument, from, to) {
            Some(end) => mark_arguments(
                lines, owner, line, ahead, others, begin, end, to, tails, marks,
            ),
            None => false,
        };
    }
    if others.is_empty() {
        return mark_last(lines, argument, begin, from, to, marks);
    }
    let ends = lines.ends_of_first(arguments, from, to);
    mark_by_ends(
        lines, owner, line, ahead, argument, others, begin, from, ends, to, tails, marks,
    )
}

/// Marks what several arguments demand that are laid from `from` to `to`, along their line if they have one; those that
/// begin at `begin`, which is no later, are marked in their rows. In most cases the line has all of the arguments.
#[inline(always)]
fn mark_several(
    lines: &Lines<'_>,
    owner: Owner,
    line: Option<Line<'_>>,
    arguments: &[Arg],
    begin: u16,
    from: u16,
    to: u16,
    tails: &mut Tails,
    marks: &mut Marks<'_>,
)
    requires owner { IsTail lines.now (tail_with owner (length arguments.now)) arguments.now }
    requires line { IfSome line (λ line. IsLine lines.now (drop line.first arguments.now) line) }
    requires known { AllByRecursion (IsKnown lines.now.grammar) arguments.now }
    requires few { length arguments.now ≤ 4 }
    requires begin { begin ≤ from }
    requires span { IsSpan lines.now.word from to }
    requires same_problem { marks.old.problem ≡ lines.now }
    requires noted { AreTrue lines.now marks.old tails.old }
    requires counted { (cell : Cell) → Demands lines.now arguments.now from to cell
        → IsCounted lines.now.grammar (length lines.now.word) cell }
    ensures marked { AreMarkedFrom begin marks.old marks.new (Demands lines.now arguments.now from to) }
    ensures noted { AreTrue lines.now marks.new tails.new }
{
    let ahead = line.map_or(0, |line| line.first);
    line_begins_here();
    if let Some(line) = line_here(line.as_ref(), ahead) {
        mark_line(lines, *line, arguments, begin, from, to, marks);
        return;
    }
    let owner = Some(owner);
    mark_arguments(
        lines,
        owner,
        line.as_ref(),
        ahead,
        arguments,
        begin,
        from,
        to,
        tails,
        marks,
    );
}

/// Marks what an alternative demands on a cell whose first letters its tokens in front have up to `from`; those that
/// begin where the cell begins are marked in their rows.
#[inline(never)]
fn mark_others(
    lines: &Lines<'_>,
    cell: Cell,
    alternative: &KeptAlternative<'_>,
    alt: u8,
    from: u16,
    tails: &mut Tails,
    marks: &mut Marks<'_>,
)
    requires in_range { alt < length (alternatives_of lines.now.grammar cell.rule) }
    requires alternative { IsAlternative lines.now cell.rule alt alternative.now }
    requires behind { cell.from ≤ from }
    requires span { IsSpan lines.now.word from cell.to }
    requires same_problem { marks.old.problem ≡ lines.now }
    requires noted { AreTrue lines.now marks.old tails.old }
    requires counted { (child : Cell) → Demands lines.now alternative.now.others.now from cell.to child
        → IsCounted lines.now.grammar (length lines.now.word) child }
    ensures marked { AreMarkedFrom cell.from marks.old marks.new
        (Demands lines.now alternative.now.others.now from cell.to) }
    ensures noted { AreTrue lines.now marks.new tails.new }
{
    match lines.way(alternative, cell.rule, alt) {
        Way::Front => {}
        Way::Last(argument) => {
            mark_last(lines, argument, cell.from, from, cell.to, marks);
        }
        Way::Several(line) => {
            let owner = Owner {
                rule: cell.rule,
                alt,
            };
            mark_several(
                lines,
                owner,
                line,
                alternative.others,
                cell.from,
                from,
                cell.to,
                tails,
                marks,
            );
        }
    }
}

/// Marks what an alternative demands on a cell; those that begin where the cell begins are marked in their rows.
#[inline(always)]
fn mark_alternative(
    lines: &Lines<'_>,
    cell: Cell,
    alternative: &KeptAlternative<'_>,
    alt: u8,
    tails: &mut Tails,
    marks: &mut Marks<'_>,
)
    requires in_range { alt < length (alternatives_of lines.now.grammar cell.rule) }
    requires alternative { IsAlternative lines.now cell.rule alt alternative.now }
    requires span { IsSpan lines.now.word cell.from cell.to }
    requires same_problem { marks.old.problem ≡ lines.now }
    requires noted { AreTrue lines.now marks.old tails.old }
    requires counted { (child : Cell) → DemandsBy lines.now cell alt child
        → IsCounted lines.now.grammar (length lines.now.word) child }
    ensures marked { AreMarkedFrom cell.from marks.old marks.new (DemandsBy lines.now cell alt) }
    ensures noted { AreTrue lines.now marks.new tails.new }
{
    if let Some(end) = lines.opening(alternative, cell) {
        mark_others(lines, cell, alternative, alt, end, tails, marks);
    }
}

/// Marks the demanded children of a cell; those that begin where it begins are marked in their rows. Takes no memory.
pub fn mark_children(lines: &Lines<'_>, cell: Cell, marks: &mut Marks<'_>)
    requires rule { cell.rule < length lines.now.grammar.rules }
    requires span { IsSpan lines.now.word cell.from cell.to }
    requires same_problem { marks.old.problem ≡ lines.now }
    requires counted { (child : Cell) → IsDemandedChild lines.now cell child
        → IsCounted lines.now.grammar (length lines.now.word) child }
    ensures { AreMarkedFrom cell.from marks.old marks.new (IsDemandedChild lines.now cell) }
{
    let mut tails = Tails::none();
    mark_children_noting(lines, cell, &mut tails, marks);
}

/// The same, where tails of alternatives are looked up if they are noted, and noted if they are not. It takes memory for
/// notes alone, and where there is none it notes nothing.
pub fn mark_children_noting(lines: &Lines<'_>, cell: Cell, tails: &mut Tails, marks: &mut Marks<'_>)
    requires rule { cell.rule < length lines.now.grammar.rules }
    requires span { IsSpan lines.now.word cell.from cell.to }
    requires same_problem { marks.old.problem ≡ lines.now }
    requires noted { AreTrue lines.now marks.old tails.old }
    requires counted { (child : Cell) → IsDemandedChild lines.now cell child
        → IsCounted lines.now.grammar (length lines.now.word) child }
    ensures marked { AreMarkedFrom cell.from marks.old marks.new (IsDemandedChild lines.now cell) }
    ensures noted { AreTrue lines.now marks.new tails.new }
{
    lines.problem().admissible();
    arguments_are_few_and_known();
    alternatives_fit();
    let candidates = lines.candidates(cell);
    let mut number = candidates.next(0);
    while number < candidates.alternatives.len() {
        mark_alternative(
            lines,
            cell,
            &candidates.alternatives[number],
            number as u8,
            tails,
            marks,
        );
        number = candidates.next(number + 1);
    }
}
