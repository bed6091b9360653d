//! Blocks that are what is written of their words: such a block is right, and needs no look at its lines.

ghost use Rattle.std.specs.Prelude.{◌≡◌, ◌≤◌, ◌^◌, IfOk, IfSome, IsTrue, None, ◌++◌, length};
ghost use Rattle.adp_model.specs.PosedProblem.{axiom_cell};
ghost use Rattle.adp_model.specs.Sizes.{IsWithinSizes};
ghost use Rattle.adp_model.specs.WellFormed.{is_well_formed};
ghost use Rattle.table_certificate.specs.BestScores.{IsBestScore};
ghost use Rattle.table_certificate.specs.BlockLines.{IsAtHead, IsOutcome, IsWithin};

use crate::blocks::{Outcome, judge_block};
use crate::demanded::DemandedScores;
use crate::forms::next_line;
use crate::laws::written_lines_are_right;
use crate::writing::certificate;
use adp_model::laws::bounds::words_keep_their_score_bound;
use adp_model::laws::demand::{
    demanded_cells_are_counted, demanded_cells_are_unique, demanded_cells_are_within_the_cell_bound,
};
use adp_model::laws::well_formed::parts_have_names;
use adp_model::{Grammar, Problem};
use seq_reference::{Solved, solve};
use std::alloc::{AllocError, Global};

/// What stands behind the block with which a text begins, where no further line of it does.
fn behind_block<'t>(grammar: &Grammar, block: &[u8], text: &'t [u8]) -> Option<&'t [u8]>
    requires { IsTrue (is_well_formed grammar.now) }
    ensures text { IfSome result (λ behind. text.now ≡ block.now ++ behind.now) }
    ensures head { IfSome result (λ behind. IsAtHead grammar.now behind.now) }
{
    let behind = text.strip_prefix(block)?;
    match next_line(grammar, behind) {
        None => Some(behind),
        Some(_) => None,
    }
}

/// The best score of the whole word, `None` where it has no candidate.
fn word_score(problem: &Problem<'_>, solved: &Solved<'_>) -> Option<i64>
    requires { solved.now ≡ problem.now }
    ensures within { IsWithinSizes problem.now.grammar problem.now.grammar.axiom (length problem.now.word)
        → IsBestScore problem.now (axiom_cell problem.now) result }
    ensures outside { (IsWithinSizes problem.now.grammar problem.now.grammar.axiom (length problem.now.word) → ⊥)
        → result ≡ None }
{
    problem.admissible();
    demanded_cells_are_counted();
    solved.demanded_score(problem.axiom_cell()).unwrap_or(None)
}

/// What comes of the block of this number, with which a text begins, where it is exactly the one that is written of its
/// word; `None` where it is another one.
fn written_outcome<'p, 't>(
    alloc: Global,
    problem: &'p Problem<'p>,
    solved: &Solved<'p>,
    number: u32,
    text: &'t [u8],
) -> Result<Option<Outcome<'t>>, AllocError>
    requires { solved.now ≡ problem.now }
    ensures outcome { IfOk result (λ found. IfSome found (IsOutcome problem.now number text.now)) }
    ensures within { IfOk result (λ found. IfSome found (IsWithin text.now)) }
{
    problem.admissible();
    written_lines_are_right();
    demanded_cells_are_counted();
    demanded_cells_are_unique();
    demanded_cells_are_within_the_cell_bound();
    words_keep_their_score_bound();
    parts_have_names();
    let layout = solved.prepared().layout();
    let block = certificate(alloc, number, layout, solved)?;
    let Some(behind) = behind_block(problem.grammar, &block, text) else {
        return Ok(None);
    };
    Ok(Some(Outcome::Right {
        value: word_score(problem, solved),
        lines: solved.cells() as u32 + 1,
        behind,
    }))
}

/// What comes of the block of this number, with which a text begins, where its word is solved. One that is what is
/// written of its word is right; the lines of any other are judged one by one.
fn solved_block<'p, 't>(
    alloc: Global,
    problem: &'p Problem<'p>,
    solved: &Solved<'p>,
    number: u32,
    text: &'t [u8],
) -> Result<Outcome<'t>, AllocError>
    requires same_problem { solved.now ≡ problem.now }
    requires few { length text.now ≤ 2 ^ 31 }
    requires begins { IsAtHead problem.now.grammar text.now }
    ensures outcome { IfOk result (IsOutcome problem.now number text.now) }
    ensures within { IfOk result (IsWithin text.now) }
{
    match written_outcome(alloc, problem, solved, number, text)? {
        Some(outcome) => Ok(outcome),
        None => judge_block(alloc, problem, solved, number, text),
    }
}

/// What comes of the block of this number, with which a text begins.
pub(crate) fn verify_block<'p, 't>(
    alloc: Global,
    problem: &'p Problem<'p>,
    number: u32,
    text: &'t [u8],
) -> Result<Outcome<'t>, AllocError>
    requires few { length text.now ≤ 2 ^ 31 }
    requires begins { IsAtHead problem.now.grammar text.now }
    ensures outcome { IfOk result (IsOutcome problem.now number text.now) }
    ensures within { IfOk result (IsWithin text.now) }
{
    let solved = solve(alloc, problem)?;
    solved_block(alloc, problem, &solved, number, text)
}
