ghost use Rattle.std.specs.Prelude.{◌≡◌, ◌++◌, List, ℕ, IfOk, OnOk};
ghost use Rattle.adp_model.specs.PosedProblem.{PosedProblem};
ghost use Rattle.adp_model.specs.Demand.{IsDemandedCount};
ghost use Rattle.traceback.specs.Preorder.{IsPreorder};
ghost use Rattle.lex_product.specs.PairReport.{IsPairReport};
ghost use Rattle.report.specs.PairOutcomes.{AreThere, IsOutcomeOf, IsPairText, scores_line};

use crate::number_line::push_number_line;
use crate::tree_lines::push_tree;
use adp_model::laws::order::preferred_tree_is_unique;
use adp_model::{Problem, push_signed};
use lex_product::laws::{
    compiled_algebras_change_scores_alone, compiled_scores_order_trees_as_pairs_do,
};
use std::alloc::{AllocError, Global};
use traceback::NodeAt;

/// What was found of a word under the compiled algebra of two in order: the preferred tree's scores under the first and
/// under the second, where there is such a tree, its nodes in preorder, and the number of demanded cells.
#[derive(Drop)]
pub struct PairOutcome {
    pub scores: Option<(i64, i64)>,
    pub nodes: Vec<NodeAt>,
    pub cells: u64,
}

/// The report of a word by two algebras in order, of which the problem has the compiled one: its number, counted from
/// 1, both scores of the preferred tree and the tree, or `none`, and the number of demanded cells, each on a line of
/// its own.
///
/// # Errors
///
/// Where there is no memory.
pub fn pair_report(
    alloc: Global,
    number: u32,
    problem: &Problem<'_>,
    outcome: &PairOutcome,
) -> Result<Vec<u8>, AllocError>
    requires scores { AreThere problem.now outcome.now.scores }
    requires nodes { IsPreorder problem.now outcome.now.nodes.items }
    requires cells { IsDemandedCount problem.now outcome.now.cells }
    ensures { IfOk result (λ report. (p : PosedProblem) (second : ℕ)
        → IsOutcomeOf p second problem.now outcome.now.scores
        → IsPairReport number p second report.items) }
{
    problem.admissible();
    preferred_tree_is_unique();
    compiled_algebras_change_scores_alone();
    compiled_scores_order_trees_as_pairs_do();
    let mut out = Vec::new(alloc);
    push_number_line(&mut out, b"word ", u64::from(number))?;
    push_pair_lines(alloc, &mut out, problem, outcome)?;
    push_number_line(&mut out, b"cells ", outcome.cells)?;
    Ok(out)
}

// Appends the lines of the scores and the tree, or the line of a word without a candidate.
fn push_pair_lines(
    alloc: Global,
    out: &mut Vec<u8>,
    problem: &Problem<'_>,
    outcome: &PairOutcome,
) -> Result<(), AllocError>
    requires scores { AreThere problem.now outcome.now.scores }
    requires nodes { IsPreorder problem.now outcome.now.nodes.items }
    ensures { OnOk result ((text : List ℕ) × IsPairText problem.now outcome.now.scores text
        × (out.new.items ≡ out.old.items ++ text)) }
{
    match outcome.scores {
        None => out.extend_from_slice(b"none\n"),
        Some((first, second)) => {
            push_scores(out, first, second)?;
            out.extend_from_slice(b"tree ")?;
            push_tree(alloc, out, problem, &outcome.nodes)?;
            out.push(b'\n')?;
            Ok(())
        }
    }
}

// Appends the line of both scores.
fn push_scores(out: &mut Vec<u8>, first: i64, second: i64) -> Result<(), AllocError>
    ensures { OnOk result (out.new.items ≡ out.old.items ++ scores_line (first, second)) }
{
    out.extend_from_slice(b"score ")?;
    push_signed(out, first)?;
    out.push(b' ')?;
    push_signed(out, second)?;
    out.push(b'\n')?;
    Ok(())
}
