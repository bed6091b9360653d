ghost use Rattle.std.specs.Prelude.{◌≡◌, ◌<◌, ◌++◌, [], ℤ, length, IfOk, OnOk};
ghost use Rattle.adp_model.specs.Parts.{alternatives_of};
ghost use Rattle.adp_model.specs.Splits.{IsViable, place, placed};
ghost use Rattle.adp_model.specs.declared.cell.Answer.TheVariants.{Best};
ghost use Rattle.adp_model.specs.Answers.{IsAnswer};
ghost use Rattle.traceback.specs.Preorder.{IsPreorder, cell_of, stacked};
ghost use Rattle.traceback.specs.Listing.{IsListing, IsTop, WholeTrees};

use adp_model::laws::bellman::bellman;
use adp_model::laws::bounds::bounds_are_sound;
use adp_model::laws::derivation::children_are_placed;
use adp_model::laws::order::preferred_tree_is_unique;
use adp_model::laws::sizes::derived_lengths_are_within_sizes;
use adp_model::{Answer, Answers, Arg, Cell, Choice, Problem};
use std::alloc::{AllocError, Global};

/// A node of a tree: the cell that it covers, its alternative, and the boundaries between its children.
#[derive(Clone, Copy, Debug, PartialEq, Eq)]
pub struct NodeAt {
    pub cell: Cell,
    pub choice: Choice,
}

/// The nodes of the preferred tree of the whole word in preorder, a node before those of its children and these from
/// left to right; none where no tree is derived. Takes memory for the nodes, and for one cell a node on the way down.
///
/// # Errors
///
/// Where there is no memory.
pub fn preorder<A: Answers>(
    alloc: Global,
    problem: &Problem<'_>,
    answers: &A,
) -> Result<Vec<NodeAt>, AllocError>
    requires { A.problem answers.now ≡ problem.now }
    ensures { IfOk result (λ nodes. IsPreorder problem.now nodes.items) }
{
    problem.admissible();
    bellman();
    preferred_tree_is_unique();
    children_are_placed();
    let mut nodes = Vec::new(alloc);
    let mut waiting = first_open(alloc, problem, answers)?;
    while let Some(cell) = waiting.pop() {
        let choice = choice_at(problem, answers, cell);
        nodes.push(NodeAt { cell, choice })?;
        push_children(&mut waiting, problem, cell, choice)?;
    }
    Ok(nodes)
}

/// The cell of the whole word, where a tree is derived for it.
fn first_open<A: Answers>(
    alloc: Global,
    problem: &Problem<'_>,
    answers: &A,
) -> Result<Vec<Cell>, AllocError>
    requires { A.problem answers.now ≡ problem.now }
    ensures { IfOk result (λ cells. IsListing problem.now [] cells.items) }
{
    whole_trees(problem);
    let whole = problem.axiom_cell();
    match answers.answer(whole) {
        Some(Answer::Best { .. }) => Ok(vec![in alloc; whole]?),
        Some(Answer::NoCandidate) => Ok(Vec::new(alloc)),
        None => Ok(Vec::new(alloc)),
    }
}

/// Trees of the whole word lie within the axiom's sizes, and have few nodes.
fn whole_trees(problem: &Problem<'_>)
    ensures { WholeTrees problem.now }
{
    problem.admissible();
    bounds_are_sound();
    derived_lengths_are_within_sizes();
}

/// The root of the preferred tree of a demanded cell that has one.
fn choice_at<A: Answers>(problem: &Problem<'_>, answers: &A, cell: Cell) -> Choice
    requires same { A.problem answers.now ≡ problem.now }
    requires top { IsTop problem.now cell }
    ensures { (score : ℤ) × IsAnswer problem.now cell (Best score result) }
{
    match answers.answer(cell) {
        Some(Answer::Best { choice, .. }) => choice,
        Some(Answer::NoCandidate) | None => unreachable!(),
    }
}

/// Puts the cells of a split's rule arguments on the stack, the first on top.
fn push_children(
    waiting: &mut Vec<Cell>,
    problem: &Problem<'_>,
    cell: Cell,
    choice: Choice,
) -> Result<(), AllocError>
    requires { choice.alt < length (alternatives_of problem.now.grammar cell.rule) }
    ensures { OnOk result (waiting.new.items ≡ waiting.old.items
        ++ stacked (placed problem.now cell choice.alt choice.cuts)) }
{
    let [first, second, third] = choice.cuts;
    let ends = [first, second, third, cell.to];
    push_cells(
        waiting,
        problem.arguments(cell.rule, choice.alt),
        cell.from,
        &ends,
    )
}

/// Puts the cells of the rules among these arguments on the stack, the first on top. There are at most four arguments.
fn push_cells(
    waiting: &mut Vec<Cell>,
    arguments: &[Arg],
    from: u16,
    ends: &[u16],
) -> Result<(), AllocError>
    ensures { OnOk result (waiting.new.items ≡ waiting.old.items ++ stacked (place arguments.now from ends.now)) }
{
    match (arguments, ends) {
        ([], _) => Ok(()),
        (_, []) => Ok(()),
        ([argument, arguments @ ..], [to, ends @ ..]) => {
            push_cells(waiting, arguments, *to, ends)?;
            push_cell(waiting, argument, from, *to)
        }
    }
}

/// Puts the argument's cell on the stack, where it is a rule.
fn push_cell(waiting: &mut Vec<Cell>, argument: &Arg, from: u16, to: u16) -> Result<(), AllocError>
    ensures { OnOk result (waiting.new.items ≡ waiting.old.items
        ++ cell_of (record { argument = argument.now; from = from; to = to })) }
{
    if let Arg::Rule(rule) = argument {
        let rule = *rule;
        waiting.push(Cell { rule, from, to })?;
    }
    Ok(())
}
