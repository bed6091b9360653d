ghost use Rattle.std.specs.Prelude.{◌≡◌, ◌++◌, List, ℕ, IfOk, OnOk};
ghost use Rattle.adp_model.specs.PosedProblem.{axiom_cell};
ghost use Rattle.adp_model.specs.Answers.{IsAnswer};
ghost use Rattle.adp_model.specs.Demand.{IsDemandedCount};
ghost use Rattle.adp_model.specs.Report.{IsAnswerText, IsReport};
ghost use Rattle.traceback.specs.Preorder.{IsPreorder};

use crate::number_line::push_number_line;
use crate::tree_lines::push_tree;
use adp_model::laws::order::preferred_tree_is_unique;
use adp_model::{Answer, Problem, push_signed};
use std::alloc::{AllocError, Global};
use traceback::NodeAt;

/// What was found of a word: the answer of the whole word, the nodes of its preferred tree in preorder, and the number
/// of demanded cells.
#[derive(Drop)]
pub struct Outcome {
    pub answer: Answer,
    pub nodes: Vec<NodeAt>,
    pub cells: u64,
}

/// The report of a word: its number, counted from 1, the best score and the first tree of that score, or `none`, and
/// the number of demanded cells, each on a line of its own.
///
/// # Errors
///
/// Where there is no memory.
pub fn word_report(
    alloc: Global,
    number: u32,
    problem: &Problem<'_>,
    outcome: &Outcome,
) -> Result<Vec<u8>, AllocError>
    requires answer { IsAnswer problem.now (axiom_cell problem.now) outcome.now.answer }
    requires nodes { IsPreorder problem.now outcome.now.nodes.items }
    requires cells { IsDemandedCount problem.now outcome.now.cells }
    ensures { IfOk result (λ report. IsReport number problem.now report.items) }
{
    let mut out = Vec::new(alloc);
    push_number_line(&mut out, b"word ", u64::from(number))?;
    push_answer_lines(alloc, &mut out, problem, outcome)?;
    push_number_line(&mut out, b"cells ", outcome.cells)?;
    Ok(out)
}

// Appends the lines of the score and the tree, or the line of a word without a candidate.
fn push_answer_lines(
    alloc: Global,
    out: &mut Vec<u8>,
    problem: &Problem<'_>,
    outcome: &Outcome,
) -> Result<(), AllocError>
    requires answer { IsAnswer problem.now (axiom_cell problem.now) outcome.now.answer }
    requires nodes { IsPreorder problem.now outcome.now.nodes.items }
    ensures { OnOk result ((text : List ℕ) × IsAnswerText problem.now text × (out.new.items ≡ out.old.items ++ text)) }
{
    problem.admissible();
    preferred_tree_is_unique();
    match outcome.answer {
        Answer::NoCandidate => out.extend_from_slice(b"none\n"),
        Answer::Best { score, .. } => {
            out.extend_from_slice(b"score ")?;
            push_signed(out, score)?;
            out.extend_from_slice(b"\ntree ")?;
            push_tree(alloc, out, problem, &outcome.nodes)?;
            out.push(b'\n')?;
            Ok(())
        }
    }
}
