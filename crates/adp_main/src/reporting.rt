//! Reports from answers, however these were found.
ghost use Rattle.std.specs.Prelude.{◌≡◌, IfOk};
ghost use Rattle.adp_model.specs.Demand.{IsDemandedCount};
ghost use Rattle.adp_model.specs.Report.{IsReport};

use adp_model::{Answers, Problem, axiom_answer};
use report::{Outcome, word_report};
use std::alloc::{AllocError, Global};
use traceback::preorder;

/// The report of a word with these answers, which demands so many cells.
pub(crate) fn answered_report<A: Answers>(
    alloc: Global,
    number: u32,
    problem: &Problem<'_>,
    answers: &A,
    cells: u64,
) -> Result<Vec<u8>, AllocError>
    requires same { A.problem answers.now ≡ problem.now }
    requires cells { IsDemandedCount problem.now cells }
    ensures { IfOk result (λ report. IsReport number problem.now report.items) }
{
    let answer = axiom_answer(problem, answers);
    let nodes = preorder(alloc, problem, answers)?;
    let outcome = Outcome {
        answer,
        nodes,
        cells,
    };
    word_report(alloc, number, problem, &outcome)
}
