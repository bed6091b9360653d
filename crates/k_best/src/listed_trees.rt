//! The nodes of a listed tree, from the entries that name places in other lists.

ghost use Rattle.std.specs.Prelude.{◌≡◌, ◌++◌, ◌∷◌, [], ◌<◌, ◌≤◌, List, IfOk, OnOk, length};
ghost use Rattle.adp_model.specs.PosedProblem.{axiom_cell};
ghost use Rattle.adp_model.specs.Demand.{IsDemanded};
ghost use Rattle.adp_model.specs.Derivation.{Derives};
ghost use Rattle.adp_model.specs.ProblemFields.{most_nodes};
ghost use Rattle.adp_model.specs.Parts.{alternatives_of};
ghost use Rattle.adp_model.specs.Splits.{place, placed};
ghost use Rattle.adp_model.specs.Tree.{Tree};
ghost use Rattle.first_trees.specs.FirstTrees.{HasPlace};
ghost use Rattle.traceback.specs.declared.tree_nodes.NodeAt.{NodeAt as NodeValue};
ghost use Rattle.traceback.specs.Preorder.{nodes_of};
ghost use Rattle.k_best.specs.ListedNodes.{IsListedMore, IsRootOf, IsUnlisted, stacked};

use crate::entry::Entry;
use crate::lists::Lists;
use adp_model::laws::bounds::bounds_are_sound;
use adp_model::laws::derivation::{children_are_placed, derived_trees_span_their_cell};
use adp_model::{Arg, Cell, Choice, Problem};
use first_trees::laws::{first_trees_are_unique, lists_are_the_first_ranked_splits};
use std::alloc::{AllocError, Global};
use traceback::NodeAt;

/// A tree by its place in the list of its cell.
#[derive(Clone, Copy)]
pub struct Listed {
    pub cell: Cell,
    pub rank: usize,
}

/// Trees of the whole word have few nodes.
pub fn whole_trees_are_small(problem: &Problem<'_>)
    ensures { (tree : Tree) → Derives problem.now (axiom_cell problem.now) tree
        → length (nodes_of tree) ≤ most_nodes }
{
    problem.admissible();
    bounds_are_sound();
}

/// Puts the listed trees of the rules among these arguments on the stack, the first on top. There are at most four
/// arguments.
fn push_listed(
    waiting: &mut Vec<Listed>,
    arguments: &[Arg],
    from: u16,
    ends: &[u16],
    ranks: &[u8],
) -> Result<(), AllocError>
    ensures { OnOk result (waiting.new.items
        ≡ waiting.old.items ++ stacked (place arguments.now from ends.now) ranks.now) }
{
    let (Some((argument, arguments)), Some((to, ends))) = (
        arguments.split_first(),
        ends.split_first(),
    ) else {
        return Ok(());
    };
    let Arg::Rule(rule) = argument else {
        return push_listed(waiting, arguments, *to, ends, ranks);
    };
    let Some((rank, ranks)) = ranks.split_first() else {
        return Ok(());
    };
    push_listed(waiting, arguments, *to, ends, ranks)?;
    let cell = Cell {
        rule: *rule,
        from,
        to: *to,
    };
    waiting.push(Listed {
        cell,
        rank: *rank as usize,
    })?;
    Ok(())
}

/// Puts the listed trees of a split's rule arguments on the stack, the first on top.
pub fn push_children(
    waiting: &mut Vec<Listed>,
    problem: &Problem<'_>,
    cell: Cell,
    choice: Choice,
    ranks: &[u8],
) -> Result<(), AllocError>
    requires { choice.alt < length (alternatives_of problem.now.grammar cell.rule) }
    ensures { OnOk result (waiting.new.items
        ≡ waiting.old.items ++ stacked (placed problem.now cell choice.alt choice.cuts) ranks.now) }
{
    let [first, second, third] = choice.cuts;
    let ends = [first, second, third, cell.to];
    push_listed(
        waiting,
        problem.arguments(cell.rule, choice.alt),
        cell.from,
        &ends,
        ranks,
    )
}

/// The entry of the tree at this place of the list of a demanded cell.
fn listed_entry<'l>(problem: &Problem<'_>, lists: &'l Lists<'_>, listed: Listed) -> &'l Entry
    requires same { lists.now.problem ≡ problem.now }
    requires demanded { IsDemanded problem.now listed.cell }
    requires there { (tree : Tree) × HasPlace problem.now lists.now.k listed.cell tree listed.rank }
    ensures { (tree : Tree) → HasPlace problem.now lists.now.k listed.cell tree listed.rank
        → IsRootOf problem.now lists.now.k listed.cell tree result.now }
{
    problem.admissible();
    first_trees_are_unique();
    lists_are_the_first_ranked_splits();
    derived_trees_span_their_cell();
    let Some(list) = lists.list(listed.cell) else {
        unreachable!()
    };
    &list[listed.rank]
}

/// Lists the node of the tree that stood on top of the others, and puts its children on the stack.
fn push_node(
    nodes: &mut Vec<NodeAt>,
    waiting: &mut Vec<Listed>,
    problem: &Problem<'_>,
    lists: &Lists<'_>,
    listed: Listed,
) -> Result<(), AllocError>
    requires same { lists.now.problem ≡ problem.now }
    requires there { (rest : List NodeValue)
        × IsUnlisted problem.now lists.now.k (waiting.old.items ++ listed ∷ []) rest }
    ensures { OnOk result ((rest : List NodeValue)
        → IsUnlisted problem.now lists.now.k (waiting.old.items ++ listed ∷ []) rest
        → IsListedMore problem.now lists.now.k nodes.old.items nodes.new.items waiting.new.items rest) }
{
    problem.admissible();
    children_are_placed();
    let entry = listed_entry(problem, lists, listed);
    let choice = entry.choice();
    nodes.push(NodeAt {
        cell: listed.cell,
        choice,
    })?;
    push_children(waiting, problem, listed.cell, choice, entry.ranks())?;
    Ok(())
}

/// The nodes of a listed tree of the whole word, in preorder: that at this place of the list. Takes memory for the
/// nodes, and for at most four places a node on the way down.
pub fn tree_nodes(
    alloc: Global,
    problem: &Problem<'_>,
    lists: &Lists<'_>,
    rank: usize,
) -> Result<Vec<NodeAt>, AllocError>
    requires same { lists.now.problem ≡ problem.now }
    requires demanded { IsDemanded problem.now (axiom_cell problem.now) }
    requires there { (tree : Tree) × HasPlace problem.now lists.now.k (axiom_cell problem.now) tree rank }
    ensures { IfOk result (λ nodes. (tree : Tree)
        → HasPlace problem.now lists.now.k (axiom_cell problem.now) tree rank → nodes.items ≡ nodes_of tree) }
{
    whole_trees_are_small(problem);
    first_trees_are_unique();
    let whole = Listed {
        cell: problem.axiom_cell(),
        rank,
    };
    let mut nodes = Vec::new(alloc);
    let mut waiting = vec![in alloc; whole]?;
    while let Some(listed) = waiting.pop() {
        push_node(&mut nodes, &mut waiting, problem, lists, listed)?;
    }
    Ok(nodes)
}
