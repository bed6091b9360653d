//! The report of a word's first trees.

ghost use Rattle.std.specs.Prelude.{◌≡◌, ◌++◌, ◌<◌, ◌≤◌, ◌⊎◌, List, IfOk, IfSome, OnOk, length};
ghost use Rattle.adp_model.specs.Answers.{HasNoTree};
ghost use Rattle.adp_model.specs.Demand.{IsDemanded};
ghost use Rattle.adp_model.specs.PosedProblem.{axiom_cell};
ghost use Rattle.adp_model.specs.Preference.{IsPreferred};
ghost use Rattle.adp_model.specs.Report.{tree_lines};
ghost use Rattle.adp_model.specs.Scores.{score_of};
ghost use Rattle.adp_model.specs.Tree.{Tree};
ghost use Rattle.first_trees.specs.FirstTrees.{AreFirst, HasPlace};
ghost use Rattle.first_trees.specs.ListReport.{IsListReport, lines_of};
ghost use Rattle.first_trees.specs.ListLimits.{most_first_trees};
ghost use Rattle.k_best.specs.ListedNodes.{AreScoredNodes};

use crate::grown_report::grown_report;
use crate::listed_trees::tree_nodes;
use crate::lists::{Lists, solve_lists};
use adp_model::laws::order::preferred_tree_is_unique;
use adp_model::laws::sizes::derived_lengths_are_within_sizes;
use adp_model::{Answer, Problem, axiom_answer, push_signed};
use first_trees::laws::{first_trees_are_unique, words_have_one_list_report};
use report::{push_nodes, push_number_line};
use seq_reference::{Solved, solve_prepared};
use split_lines::Prepared;
use std::alloc::{AllocError, Global};
use traceback::{NodeAt, preorder};

/// Appends the lines of a tree of the whole word: its score and its text, from its nodes.
pub fn push_lines(
    alloc: Global,
    out: &mut Vec<u8>,
    problem: &Problem<'_>,
    score: i64,
    nodes: &[NodeAt],
) -> Result<(), AllocError>
    requires { (tree : Tree) × AreScoredNodes problem.now tree score nodes.now }
    ensures { OnOk result ((tree : Tree) → AreScoredNodes problem.now tree score nodes.now
        → out.new.items ≡ out.old.items ++ tree_lines problem.now tree) }
{
    out.extend_from_slice(b"score ")?;
    push_signed(out, score)?;
    out.extend_from_slice(b"\ntree ")?;
    push_nodes(alloc, out, problem, nodes)?;
    out.push(b'\n')?;
    Ok(())
}

/// Appends the lines of the listed tree of the whole word at this place.
fn push_tree_lines(
    alloc: Global,
    out: &mut Vec<u8>,
    problem: &Problem<'_>,
    lists: &Lists<'_>,
    rank: usize,
    score: i64,
) -> Result<(), AllocError>
    requires same { lists.now.problem ≡ problem.now }
    requires demanded { IsDemanded problem.now (axiom_cell problem.now) }
    requires there { (tree : Tree) × HasPlace problem.now lists.now.k (axiom_cell problem.now) tree rank
        × (score ≡ score_of problem.now tree) }
    ensures { OnOk result ((tree : Tree) → HasPlace problem.now lists.now.k (axiom_cell problem.now) tree rank
        → out.new.items ≡ out.old.items ++ tree_lines problem.now tree) }
{
    first_trees_are_unique();
    let nodes = tree_nodes(alloc, problem, lists, rank)?;
    push_lines(alloc, out, problem, score, &nodes)?;
    Ok(())
}

/// Appends the lines of the listed trees of the whole word, and tells how many there are.
fn push_list(
    alloc: Global,
    out: &mut Vec<u8>,
    problem: &Problem<'_>,
    lists: &Lists<'_>,
) -> Result<u64, AllocError>
    requires { lists.now.problem ≡ problem.now }
    ensures { IfOk result (λ count. (trees : List Tree)
        × AreFirst problem.now (axiom_cell problem.now) lists.now.k trees
        × (out.new.items ≡ out.old.items ++ lines_of problem.now trees) × (count ≡ length trees)) }
{
    problem.admissible();
    derived_lengths_are_within_sizes();
    let Some(entries) = lists.list(problem.axiom_cell()) else {
        return Ok(0);
    };
    for (rank, entry) in entries.iter().enumerate() {
        push_tree_lines(alloc, out, problem, lists, rank, entry.score())?;
    }
    Ok(entries.len() as u64)
}

/// The report of a word by its lists: its number, counted from 1, the score and the text of each of its first trees in
/// their order, and how many these are, each on a line of its own.
///
/// # Errors
///
/// Where there is no memory.
pub fn list_report(
    alloc: Global,
    number: u32,
    problem: &Problem<'_>,
    lists: &Lists<'_>,
) -> Result<Vec<u8>, AllocError>
    requires { lists.now.problem ≡ problem.now }
    ensures { IfOk result (λ report. IsListReport number problem.now lists.now.k report.items) }
{
    let mut out = Vec::new(alloc);
    push_number_line(&mut out, b"word ", u64::from(number))?;
    let count = push_list(alloc, &mut out, problem, lists)?;
    push_number_line(&mut out, b"listed ", count)?;
    Ok(out)
}

/// Appends the lines of the preferred tree of the whole word, where there is one, and tells how many trees these are.
fn push_preferred(
    alloc: Global,
    out: &mut Vec<u8>,
    problem: &Problem<'_>,
    solved: &Solved<'_>,
) -> Result<u64, AllocError>
    requires { solved.now ≡ problem.now }
    ensures { IfOk result (λ count. ((tree : Tree) × IsPreferred problem.now (axiom_cell problem.now) tree
        × (out.new.items ≡ out.old.items ++ tree_lines problem.now tree) × (count ≡ 1))
        ⊎ (HasNoTree problem.now (axiom_cell problem.now) × (out.new.items ≡ out.old.items) × (count ≡ 0))) }
{
    problem.admissible();
    preferred_tree_is_unique();
    match axiom_answer(problem, solved) {
        Answer::NoCandidate => Ok(0),
        Answer::Best { score, .. } => {
            let nodes = preorder(alloc, problem, solved)?;
            push_lines(alloc, out, problem, score, &nodes)?;
            Ok(1)
        }
    }
}

/// The report of a word with its preferred tree alone, where the word is solved.
fn solved_report(
    alloc: Global,
    number: u32,
    problem: &Problem<'_>,
    solved: &Solved<'_>,
) -> Result<Vec<u8>, AllocError>
    requires { solved.now ≡ problem.now }
    ensures { IfOk result (λ report. IsListReport number problem.now 1 report.items) }
{
    problem.admissible();
    words_have_one_list_report();
    let mut out = Vec::new(alloc);
    push_number_line(&mut out, b"word ", u64::from(number))?;
    let count = push_preferred(alloc, &mut out, problem, solved)?;
    push_number_line(&mut out, b"listed ", count)?;
    Ok(out)
}

/// The report of a word with its first `k` trees, where its best scores and lists that grow from them tell it.
fn report_by_scores(
    alloc: Global,
    number: u32,
    solved: &Solved<'_>,
    k: u32,
) -> Result<Option<Vec<u8>>, AllocError>
    requires some { 0 < k }
    requires few { k ≤ most_first_trees }
    ensures { IfOk result (λ report. IfSome report (λ report. IsListReport number solved.now k report.items)) }
{
    if k > 1 {
        return grown_report(alloc, number, solved, k);
    }
    let problem = solved.prepared().problem();
    let report = solved_report(alloc, number, problem, solved)?;
    Ok(Some(report))
}

/// The report of a word with its first `k` trees, by whole lists.
fn listed_report(
    alloc: Global,
    number: u32,
    prepared: &Prepared<'_>,
    k: u32,
) -> Result<Vec<u8>, AllocError>
    requires { k ≤ most_first_trees }
    ensures { IfOk result (λ report. IsListReport number prepared.now k report.items) }
{
    let problem = prepared.problem();
    let lists = solve_lists(alloc, prepared, k)?;
    list_report(alloc, number, problem, &lists)
}

/// The report of a word with its first `k` trees, where the word is solved.
fn report_of_solved(
    alloc: Global,
    number: u32,
    solved: &Solved<'_>,
    k: u32,
) -> Result<Vec<u8>, AllocError>
    requires { k ≤ most_first_trees }
    ensures { IfOk result (λ report. IsListReport number solved.now k report.items) }
{
    if k > 0 {
        if let Some(report) = report_by_scores(alloc, number, solved, k)? {
            return Ok(report);
        }
    }
    listed_report(alloc, number, solved.prepared(), k)
}

/// The report of a word with its first `k` trees, of its prepared problem. Makes lists only where more than one tree is
/// asked for.
///
/// # Errors
///
/// Where there is no memory.
pub fn first_trees_report(
    alloc: Global,
    number: u32,
    prepared: Prepared<'_>,
    k: u32,
) -> Result<Vec<u8>, AllocError>
    requires { k ≤ most_first_trees }
    ensures { IfOk result (λ report. IsListReport number prepared.entry k report.items) }
{
    let solved = solve_prepared(alloc, prepared)?;
    report_of_solved(alloc, number, &solved, k)
}
