//! Lists that grow: where they begin, and where one more of their entries is opened.

ghost use Rattle.std.specs.Prelude.{◌≡◌, IfOk, IfSome, OnOk, length};
ghost use Rattle.adp_model.specs.Tree.{Tree};
ghost use Rattle.first_trees.specs.FirstTrees.{HasPlace};
ghost use Rattle.k_best.specs.GrowingLists.{AreGrowing, IsBasis, IsGrowingList};
ghost use Rattle.k_best.specs.ListedNodes.{IsRootOf};

use crate::entry::Entry;
use crate::growing::{Basis, Growing, Grown, list_of, slot_of};
use crate::listed_trees::Listed;
use crate::opening::{meet_all_heads, open};
use adp_model::Cell;
use adp_model::laws::demand::demanded_cells_are_counted;
use adp_model::laws::derivation::derived_trees_span_their_cell;
use first_trees::laws::{
    entries_are_in_strict_order, first_trees_are_unique, lists_are_the_first_ranked_splits,
    lower_ranks_come_first,
};
use std::alloc::{AllocError, Global};

/// Notes where the list of a demanded cell stands.
fn note_slot(basis: &Basis<'_, '_>, grown: &mut Grown, cell: Cell, slot: usize)
    requires { IsBasis basis.now }
    ensures { grown.new.lists ≡ grown.old.lists }
{
    basis.lines.problem().admissible();
    demanded_cells_are_counted();
    let Ok(slot) = u32::try_from(slot) else {
        return;
    };
    if basis.solved.score(cell).is_none() {
        return;
    }
    if let Some(noted) = grown.slots.get_mut(basis.places.place(cell) as usize) {
        *noted = slot;
    }
}

/// The list of a demanded cell as it begins, where it has not begun.
fn begun(
    alloc: Global,
    basis: &Basis<'_, '_>,
    grown: &Grown,
    cell: Cell,
) -> Result<Option<Growing>, AllocError>
    requires basis { IsBasis basis.now }
    requires growing { AreGrowing basis.now.lines.now basis.now.k grown.now.lists.items }
    ensures { IfOk result (λ list. IfSome list (IsGrowingList basis.now.lines.now basis.now.k)) }
{
    if slot_of(basis, grown, cell).is_none() || list_of(basis, grown, cell).is_some() {
        return Ok(None);
    }
    let mut found = Vec::new(alloc);
    if !meet_all_heads(basis, grown, cell, &mut found)? {
        return Ok(None);
    }
    Ok(Some(Growing {
        cell,
        found,
        opened: 0,
    }))
}

/// How many lists have begun.
fn count(grown: &Grown) -> usize
    ensures { result ≡ length grown.now.lists.items }
{
    grown.lists.len()
}

/// Adds a list to the others.
fn add(basis: &Basis<'_, '_>, grown: &mut Grown, list: Growing) -> Result<(), AllocError>
    requires basis { IsBasis basis.now }
    requires growing { AreGrowing basis.now.lines.now basis.now.k grown.old.lists.items }
    requires list { IsGrowingList basis.now.lines.now basis.now.k list }
    ensures { OnOk result (AreGrowing basis.now.lines.now basis.now.k grown.new.lists.items) }
{
    let slot = count(grown);
    note_slot(basis, grown, list.cell, slot);
    grown.lists.push(Some(list))?;
    Ok(())
}

/// Begins the list of a demanded cell, where it has not begun.
pub fn begin(
    alloc: Global,
    basis: &Basis<'_, '_>,
    grown: &mut Grown,
    cell: Cell,
) -> Result<(), AllocError>
    requires basis { IsBasis basis.now }
    requires growing { AreGrowing basis.now.lines.now basis.now.k grown.old.lists.items }
    ensures { OnOk result (AreGrowing basis.now.lines.now basis.now.k grown.new.lists.items) }
{
    let Some(list) = begun(alloc, basis, grown, cell)? else {
        return Ok(());
    };
    add(basis, grown, list)
}

/// Takes the list that stands here from the others.
fn taken(basis: &Basis<'_, '_>, grown: &mut Grown, slot: usize) -> Option<Growing>
    requires { AreGrowing basis.now.lines.now basis.now.k grown.old.lists.items }
    ensures growing { AreGrowing basis.now.lines.now basis.now.k grown.new.lists.items }
    ensures list { IfSome result (IsGrowingList basis.now.lines.now basis.now.k) }
{
    let _lines = basis.lines;
    grown.lists.get_mut(slot)?.take()
}

/// Puts the list here.
fn put(basis: &Basis<'_, '_>, grown: &mut Grown, slot: usize, list: Growing)
    requires growing { AreGrowing basis.now.lines.now basis.now.k grown.old.lists.items }
    requires list { IsGrowingList basis.now.lines.now basis.now.k list }
    ensures { AreGrowing basis.now.lines.now basis.now.k grown.new.lists.items }
{
    let _lines = basis.lines;
    if let Some(place) = grown.lists.get_mut(slot) {
        *place = Some(list);
    }
}

/// Opens the entry at a place of a cell's list, where it is the next to be opened.
pub fn grow(basis: &Basis<'_, '_>, grown: &mut Grown, listed: Listed) -> Result<(), AllocError>
    requires basis { IsBasis basis.now }
    requires growing { AreGrowing basis.now.lines.now basis.now.k grown.old.lists.items }
    ensures { OnOk result (AreGrowing basis.now.lines.now basis.now.k grown.new.lists.items) }
{
    let Some(slot) = slot_of(basis, grown, listed.cell) else {
        return Ok(());
    };
    let Some(mut list) = taken(basis, grown, slot) else {
        return Ok(());
    };
    if list.opened != listed.rank || open(basis, grown, &mut list)? {
        put(basis, grown, slot, list);
    }
    Ok(())
}

/// The entry of the tree at a place of a cell's list, as far as the list has grown.
pub fn grown_entry<'g>(basis: &Basis<'_, '_>, grown: &'g Grown, listed: Listed) -> Option<&'g Entry>
    requires basis { IsBasis basis.now }
    requires growing { AreGrowing basis.now.lines.now basis.now.k grown.now.lists.items }
    ensures { IfSome result (λ entry. (tree : Tree)
        → HasPlace basis.now.lines.now basis.now.k listed.cell tree listed.rank
        → IsRootOf basis.now.lines.now basis.now.k listed.cell tree entry.now) }
{
    basis.lines.problem().admissible();
    demanded_cells_are_counted();
    first_trees_are_unique();
    entries_are_in_strict_order();
    lists_are_the_first_ranked_splits();
    lower_ranks_come_first();
    derived_trees_span_their_cell();
    let Some(list) = list_of(basis, grown, listed.cell) else {
        return None;
    };
    match list.found.get(listed.rank) {
        Some(entry) if listed.rank <= list.opened => Some(entry),
        _ => None,
    }
}
