//! The nodes of listed trees, by lists that grow.

ghost use Rattle.std.specs.Prelude.{◌≡◌, ◌++◌, ◌∷◌, [], ◌≤◌, List, IfOk, IfSome, OnOk, true, length};
ghost use Rattle.adp_model.specs.PosedProblem.{axiom_cell};
ghost use Rattle.adp_model.specs.Demand.{IsDemanded};
ghost use Rattle.adp_model.specs.Tree.{Tree};
ghost use Rattle.first_trees.specs.FirstTrees.{HasPlace};
ghost use Rattle.traceback.specs.declared.tree_nodes.NodeAt.{NodeAt as NodeValue};
ghost use Rattle.traceback.specs.Preorder.{nodes_of};
ghost use Rattle.k_best.specs.GrowingLists.{AreGrowing, IsBasis};
ghost use Rattle.k_best.specs.ListedNodes.{IsListedMore, IsUnlisted};

use crate::growing::{Basis, Grown};
use crate::grown_lists::{begin, grow, grown_entry};
use crate::listed_trees::{Listed, push_children, whole_trees_are_small};
use adp_model::laws::derivation::children_are_placed;
use first_trees::laws::first_trees_are_unique;
use std::alloc::{AllocError, Global};
use traceback::NodeAt;

/// Lists the node of the tree that stood on top of the others, and puts its children on the stack. Tells whether the
/// tree is known.
fn push_grown(
    nodes: &mut Vec<NodeAt>,
    waiting: &mut Vec<Listed>,
    basis: &Basis<'_, '_>,
    grown: &Grown,
    listed: Listed,
) -> Result<bool, AllocError>
    requires basis { IsBasis basis.now }
    requires growing { AreGrowing basis.now.lines.now basis.now.k grown.now.lists.items }
    requires there { (rest : List NodeValue)
        × IsUnlisted basis.now.lines.now basis.now.k (waiting.old.items ++ listed ∷ []) rest }
    ensures { IfOk result (λ is_known. is_known ≡ true → (rest : List NodeValue)
        → IsUnlisted basis.now.lines.now basis.now.k (waiting.old.items ++ listed ∷ []) rest
        → IsListedMore basis.now.lines.now basis.now.k nodes.old.items nodes.new.items waiting.new.items rest) }
{
    let problem = basis.lines.problem();
    problem.admissible();
    children_are_placed();
    let Some(entry) = grown_entry(basis, grown, listed) else {
        return Ok(false);
    };
    let choice = entry.choice();
    nodes.push(NodeAt {
        cell: listed.cell,
        choice,
    })?;
    push_children(waiting, problem, listed.cell, choice, entry.ranks())?;
    Ok(true)
}

/// The nodes of a listed tree of the whole word, in preorder, where they are known: that at this place of the list.
/// Begins the lists of the cells of the nodes, and keeps the places of these.
pub fn grown_nodes(
    alloc: Global,
    basis: &Basis<'_, '_>,
    grown: &mut Grown,
    rank: usize,
    places: &mut Vec<Listed>,
) -> Result<Option<Vec<NodeAt>>, AllocError>
    requires basis { IsBasis basis.now }
    requires growing { AreGrowing basis.now.lines.now basis.now.k grown.old.lists.items }
    requires demanded { IsDemanded basis.now.lines.now (axiom_cell basis.now.lines.now) }
    requires there { (tree : Tree)
        × HasPlace basis.now.lines.now basis.now.k (axiom_cell basis.now.lines.now) tree rank }
    ensures growing { OnOk result (AreGrowing basis.now.lines.now basis.now.k grown.new.lists.items) }
    ensures nodes { IfOk result (λ nodes. IfSome nodes (λ nodes. (tree : Tree)
        → HasPlace basis.now.lines.now basis.now.k (axiom_cell basis.now.lines.now) tree rank
        → nodes.items ≡ nodes_of tree)) }
{
    let problem = basis.lines.problem();
    whole_trees_are_small(problem);
    first_trees_are_unique();
    let whole = Listed {
        cell: problem.axiom_cell(),
        rank,
    };
    let mut nodes = Vec::new(alloc);
    let mut waiting = vec![in alloc; whole]?;
    while let Some(listed) = waiting.pop() {
        begin(alloc, basis, grown, listed.cell)?;
        places.push(listed)?;
        if !push_grown(&mut nodes, &mut waiting, basis, grown, listed)? {
            return Ok(None);
        }
    }
    Ok(Some(nodes))
}

/// Opens the entries at these places, from the last one on, where they are the next to be opened in their lists. Of the
/// nodes of a tree in preorder each is opened behind its children.
pub fn grow_along(
    basis: &Basis<'_, '_>,
    grown: &mut Grown,
    places: &[Listed],
) -> Result<(), AllocError>
    requires basis { IsBasis basis.now }
    requires growing { AreGrowing basis.now.lines.now basis.now.k grown.old.lists.items }
    ensures { OnOk result (AreGrowing basis.now.lines.now basis.now.k grown.new.lists.items) }
{
    for number in (0..places.len()).rev() {
        grow(basis, grown, places[number])?;
    }
    Ok(())
}
