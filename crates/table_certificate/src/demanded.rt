//! The demanded cells of a problem, in order, by what knows their best scores.

ghost use Rattle.std.specs.Prelude.{◌≡◌, ◌↔◌, ◌<◌, ◌≤◌, ◌+◌, IfOk, IfSome, IsSome, OnOk, length};
ghost use Rattle.adp_model.specs.declared.cell.Cell.{Cell as AnyCell};
ghost use Rattle.adp_model.specs.PosedProblem.{PosedProblem};
ghost use Rattle.adp_model.specs.Answers.{IsAnswer};
ghost use Rattle.adp_model.specs.Demand.{AreDemanded, IsDemanded};
ghost use Rattle.table_certificate.specs.BestScores.{IsBestScore};
ghost use Rattle.table_certificate.specs.ListedCells.{AreListedBefore};

use adp_model::laws::demand::demanded_cells_are_counted;
use adp_model::laws::order::preferred_tree_has_the_best_score;
use adp_model::laws::well_formed::numbers_fit_together;
use adp_model::{Answer, Answers, Cell, Problem};
use cell_layouts::Layout;
use memo_table::Closed;
use seq_reference::Solved;
use std::alloc::{AllocError, Global};

/// What has the best scores of exactly the demanded cells of a problem.
pub trait DemandedScores {
    /// The problem whose scores it has.
    ghost problem: { Self → PosedProblem };

    /// The best score of a demanded cell, `Some(None)` where it has no candidate; `None` for any other cell. Takes no
    /// memory.
    fn demanded_score(&self, cell: Cell) -> Option<Option<i64>>
        ensures told { IfSome result (IsBestScore (problem self.now) cell) }
        ensures demanded { IsSome result ↔ IsDemanded (problem self.now) cell };
}

/// The best score of the cell that has this answer.
fn best_score(answer: Answer) -> Option<i64>
    ensures { (p : PosedProblem) (cell : AnyCell) → IsAnswer p cell answer → IsBestScore p cell result }
{
    preferred_tree_has_the_best_score();
    match answer {
        Answer::NoCandidate => None,
        Answer::Best { score, .. } => Some(score),
    }
}

impl DemandedScores for Closed {
    ghost problem = { λ closed. closed.plan.problem };

    fn demanded_score(&self, cell: Cell) -> Option<Option<i64>> {
        Some(best_score(self.answer(cell)?))
    }
}

impl<'a> DemandedScores for Solved<'a> {
    ghost problem = { λ problem. problem };

    fn demanded_score(&self, cell: Cell) -> Option<Option<i64>> {
        preferred_tree_has_the_best_score();
        self.score(cell)
    }
}

/// Appends the demanded cells of a rule that begin at `from`.
fn push_ends<A: DemandedScores>(
    cells: &mut Vec<Cell>,
    layout: &Layout<'_>,
    scores: &A,
    rule: u32,
    from: u16,
) -> Result<(), AllocError>
    requires scores { A.problem scores.now ≡ layout.now }
    requires rule { rule < length layout.now.grammar.rules }
    requires from { from ≤ length layout.now.word }
    requires listed { AreListedBefore layout.now (record { rule = rule; from = from; to = 0 }) cells.old.items }
    ensures { OnOk result
        (AreListedBefore layout.now (record { rule = rule; from = from + 1; to = 0 }) cells.new.items) }
{
    layout.problem().admissible();
    demanded_cells_are_counted();
    let ends = layout.ends(rule, from);
    for to in ends.start..ends.end {
        let cell = Cell { rule, from, to };
        if scores.demanded_score(cell).is_some() {
            cells.push(cell)?;
        }
    }
    Ok(())
}

/// Appends the demanded cells of a rule.
fn push_rule<A: DemandedScores>(
    cells: &mut Vec<Cell>,
    layout: &Layout<'_>,
    scores: &A,
    rule: u32,
) -> Result<(), AllocError>
    requires scores { A.problem scores.now ≡ layout.now }
    requires rule { rule < length layout.now.grammar.rules }
    requires listed { AreListedBefore layout.now (record { rule = rule; from = 0; to = 0 }) cells.old.items }
    ensures { OnOk result (AreListedBefore layout.now (record { rule = rule + 1; from = 0; to = 0 }) cells.new.items) }
{
    layout.problem().admissible();
    demanded_cells_are_counted();
    for from in 0..layout.positions() {
        push_ends(cells, layout, scores, rule, from as u16)?;
    }
    Ok(())
}

fn rule_count(problem: &Problem<'_>) -> usize
    ensures count { result ≡ length problem.now.grammar.rules }
    ensures few { result ≤ 128 }
{
    problem.admissible();
    numbers_fit_together();
    problem.grammar.rules.as_slice().len()
}

/// The demanded cells of a problem that is laid out, in order: by rule, then by start, then by end.
///
/// # Errors
///
/// Where there is no memory.
pub fn demanded_cells<A: DemandedScores>(
    alloc: Global,
    layout: &Layout<'_>,
    scores: &A,
) -> Result<Vec<Cell>, AllocError>
    requires { A.problem scores.now ≡ layout.now }
    ensures { IfOk result (λ cells. AreDemanded layout.now cells.items) }
{
    let problem = layout.problem();
    problem.admissible();
    demanded_cells_are_counted();
    let mut cells = Vec::new(alloc);
    for rule in 0..rule_count(problem) {
        push_rule(&mut cells, layout, scores, rule as u32)?;
    }
    Ok(cells)
}
