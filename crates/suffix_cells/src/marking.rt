//! The demanded cells, marked from the axiom's cell on.

ghost use Rattle.std.specs.Prelude.{◌≡◌, ◌↔◌, ℕ, ◌+◌, ◌<◌, ◌≤◌, IfOk, IfSome, length};
ghost use Rattle.std.specs.List.{AllByRecursion};
ghost use Rattle.adp_model.specs.declared.cell.Cell.{Cell};
ghost use Rattle.adp_model.specs.PosedProblem.{IsSpan};
ghost use Rattle.adp_model.specs.Parts.{alternatives_of};
ghost use Rattle.adp_model.specs.Cells.{IsCounted};
ghost use Rattle.adp_model.specs.Demand.{IsDemanded, IsDemandedChild};
ghost use Rattle.adp_model.specs.WellFormed.{IsKnown};
ghost use Rattle.cell_demands.specs.Rows.{AreMarkedInRows};
ghost use Rattle.cell_tables.specs.Marks.{IsMarkedInRow};
ghost use Rattle.split_lines.specs.Kept.{IsAlternative};
ghost use Rattle.split_lines.specs.Laid.{Demands, DemandsBy};
ghost use Rattle.suffix_cells.specs.Ranks.{AreRanked};
ghost use Rattle.suffix_cells.specs.Straight.{AreStraight, IsStraight};
ghost use Rattle.suffix_cells.specs.Sweeping.{AreSwept, IsBeforeStart};
ghost use Rattle.suffix_cells.specs.Targets.{AreTargets, LeadsTo};
ghost use Rattle.suffix_cells.specs.Visits.{suffix_cell};

use crate::laws::demanded_cells_end_with_the_word;
use crate::targets::{target_at, targets_of};
use crate::visits::{MOST_RULES, Visits};
use adp_model::laws::demand::{demanded_cells_are_counted, demanded_children_are_below};
use adp_model::laws::well_formed::{
    alternatives_fit, arguments_are_few_and_known, numbers_fit_together,
};
use adp_model::{Arg, Cell};
use cell_tables::Layout;
use split_lines::{KeptAlternative, Lines};
use std::alloc::{AllocError, Global};

/// Marks what straight arguments demand that are laid from `from` to the word's end.
#[inline]
fn mark_rest(lines: &Lines<'_>, arguments: &[Arg], from: u16, to: u16, visits: &mut Visits<'_>)
    requires straight { IsStraight arguments.now }
    requires known { AllByRecursion (IsKnown lines.now.grammar) arguments.now }
    requires from { from ≤ to }
    requires whole { to ≡ length lines.now.word }
    requires same_problem { visits.old.marks.problem ≡ lines.now }
    requires counted { (cell : Cell) → Demands lines.now arguments.now from to cell
        → IsCounted lines.now.grammar (length lines.now.word) cell }
    ensures marked { AreMarkedInRows visits.old.marks visits.new.marks (Demands lines.now arguments.now from to) }
    ensures order { visits.new.order ≡ visits.old.order }
{
    let Some((argument, others)) = arguments.split_first() else {
        return;
    };
    if let Arg::Rule(rule) = argument {
        if lines.fits(argument, from, to) {
            visits.visit(*rule, from);
        }
        return;
    }
    if let Some(end) = lines.token_end(argument, from, to) {
        mark_rest(lines, others, end, to, visits);
    }
}

/// Marks what an alternative demands on a cell that ends where the word ends.
#[inline(always)]
fn mark_alternative(
    lines: &Lines<'_>,
    cell: Cell,
    alternative: &KeptAlternative<'_>,
    alt: u8,
    visits: &mut Visits<'_>,
)
    requires straight { AreStraight lines.now }
    requires in_range { alt < length (alternatives_of lines.now.grammar cell.rule) }
    requires alternative { IsAlternative lines.now cell.rule alt alternative.now }
    requires span { IsSpan lines.now.word cell.from cell.to }
    requires whole { cell.to ≡ length lines.now.word }
    requires same_problem { visits.old.marks.problem ≡ lines.now }
    requires counted { (child : Cell) → DemandsBy lines.now cell alt child
        → IsCounted lines.now.grammar (length lines.now.word) child }
    ensures marked { AreMarkedInRows visits.old.marks visits.new.marks (DemandsBy lines.now cell alt) }
    ensures order { visits.new.order ≡ visits.old.order }
{
    if let Some(end) = lines.opening(alternative, cell) {
        mark_rest(lines, alternative.others, end, cell.to, visits);
    }
}

/// Marks the demanded children of the cell of a rule from a start to the word's end. Takes no memory.
pub fn mark_children(lines: &Lines<'_>, rule: u32, from: u16, visits: &mut Visits<'_>)
    requires straight { AreStraight lines.now }
    requires rule { rule < length lines.now.grammar.rules }
    requires from { from ≤ length lines.now.word }
    requires same_problem { visits.old.marks.problem ≡ lines.now }
    requires counted { (child : Cell) → IsDemandedChild lines.now (suffix_cell lines.now rule from) child
        → IsCounted lines.now.grammar (length lines.now.word) child }
    ensures marked { AreMarkedInRows visits.old.marks visits.new.marks
        (IsDemandedChild lines.now (suffix_cell lines.now rule from)) }
    ensures order { visits.new.order ≡ visits.old.order }
{
    let problem = lines.problem();
    problem.admissible();
    arguments_are_few_and_known();
    alternatives_fit();
    let to = problem.letters().len() as u16;
    let cell = Cell { rule, from, to };
    let candidates = lines.candidates(cell);
    let mut number = candidates.next(0);
    while number < candidates.alternatives.len() {
        mark_alternative(
            lines,
            cell,
            &candidates.alternatives[number],
            number as u8,
            visits,
        );
        number = candidates.next(number + 1);
    }
}

/// The same, where the rules to which the cell's rule leads one letter later may be told: if these are all visited
/// there, nothing is left to be marked.
#[inline]
fn mark_others(
    lines: &Lines<'_>,
    targets: Option<u128>,
    rule: u32,
    from: u16,
    visits: &mut Visits<'_>,
)
    requires straight { AreStraight lines.now }
    requires targets { IfSome targets (LeadsTo lines.now visits.old.order rule) }
    requires rule { rule < length lines.now.grammar.rules }
    requires from { from ≤ length lines.now.word }
    requires same_problem { visits.old.marks.problem ≡ lines.now }
    requires counted { (child : Cell) → IsDemandedChild lines.now (suffix_cell lines.now rule from) child
        → IsCounted lines.now.grammar (length lines.now.word) child }
    ensures marked { AreMarkedInRows visits.old.marks visits.new.marks
        (IsDemandedChild lines.now (suffix_cell lines.now rule from)) }
    ensures order { visits.new.order ≡ visits.old.order }
{
    lines.problem().admissible();
    if let Some(bits) = targets {
        if visits.have_all(from + 1, bits) {
            return;
        }
    }
    mark_children(lines, rule, from, visits);
}

/// Settles the cells that are visited at a start, by falling ranks.
#[inline]
fn settle_start(lines: &Lines<'_>, targets: &[Option<u128>], from: u16, visits: &mut Visits<'_>)
    requires straight { AreStraight lines.now }
    requires ranked { AreRanked lines.now visits.old.order }
    requires targets { AreTargets lines.now visits.old.order targets.now }
    requires swept { AreSwept lines.now visits.old.marks (IsBeforeStart from) }
    ensures swept { AreSwept lines.now visits.new.marks (IsBeforeStart (from + 1)) }
    ensures order { visits.new.order ≡ visits.old.order }
{
    lines.problem().admissible();
    demanded_cells_are_counted();
    demanded_children_are_below();
    demanded_cells_end_with_the_word();
    numbers_fit_together();
    let mut below = MOST_RULES;
    while let Some(number) = visits.last(from, below) {
        let rule = visits.rule(number);
        mark_others(lines, target_at(targets, number), rule, from, visits);
        below = number;
    }
}

/// Nothing is marked but the axiom's cell, where that is demanded.
fn first_visits<'a>(
    alloc: Global,
    lines: &Lines<'a>,
    layout: &Layout<'a>,
    order: Vec<u32>,
) -> Result<Visits<'a>, AllocError>
    requires ranked { AreRanked lines.now order.items }
    requires layout { layout.now ≡ lines.now }
    ensures swept { IfOk result (λ visits. AreSwept lines.now visits.marks (IsBeforeStart 0)) }
    ensures order { IfOk result (λ visits. visits.order ≡ order.items) }
{
    let problem = lines.problem();
    problem.admissible();
    demanded_cells_are_counted();
    let mut visits = Visits::new(alloc, layout, order)?;
    let root = problem.axiom_cell();
    if layout.counts(root) {
        visits.visit(root.rule, root.from);
    }
    Ok(visits)
}

/// Marks of the demanded cells of a straight grammar: each is marked in its row, and no other cell is. Fails for want
/// of memory alone.
pub fn mark_suffixes<'a>(
    alloc: Global,
    lines: &Lines<'a>,
    layout: &Layout<'a>,
    order: Vec<u32>,
) -> Result<Visits<'a>, AllocError>
    requires straight { AreStraight lines.now }
    requires ranked { AreRanked lines.now order.items }
    requires layout { layout.now ≡ lines.now }
    ensures problem { IfOk result (λ visits. visits.marks.problem ≡ lines.now) }
    ensures order { IfOk result (λ visits. visits.order ≡ order.items) }
    ensures rows { IfOk result (λ visits. (cell : Cell) → IsMarkedInRow visits.marks cell ↔ IsDemanded lines.now cell) }
{
    let problem = lines.problem();
    problem.admissible();
    demanded_cells_are_counted();
    let mut visits = first_visits(alloc, lines, layout, order)?;
    let targets = targets_of(alloc, lines, &visits)?;
    for from in 0..problem.letters().len() as u16 + 1 {
        settle_start(lines, &targets, from, &mut visits);
    }
    Ok(visits)
}
