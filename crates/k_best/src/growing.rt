//! Lists that grow as far as they are asked for: of each cell its first ranked splits, as far as they were met.

ghost use Rattle.std.specs.Prelude.{◌≡◌, ◌<◌, ◌≤◌, IfOk, IfSome, [], length};
ghost use Rattle.adp_model.specs.Cells.{IsCounted};
ghost use Rattle.adp_model.specs.Demand.{IsDemanded};
ghost use Rattle.k_best.specs.Growing.{IsGrowing};
ghost use Rattle.k_best.specs.GrowingLists.{AreGrowing, IsBasis, IsGrowingList, IsTold};

use crate::entry::Entry;
use adp_model::laws::demand::demanded_cells_are_counted;
use adp_model::laws::order::preferred_tree_is_unique;
use adp_model::{Cell, Problem};
use cell_layouts::Places;
use first_trees::laws::{
    cells_have_first_trees, entries_are_in_strict_order, first_tree_is_the_preferred_tree,
    first_trees_are_unique, lists_are_the_first_ranked_splits, lower_ranks_come_first,
};
use seq_reference::Solved;
use split_lines::Lines;
use std::alloc::{AllocError, Global};

/// What lists grow from: the best scores of a problem's cells, and how many entries a list may have.
#[derive(Drop)]
pub struct Basis<'s, 'a> {
    pub lines: &'s Lines<'a>,
    pub solved: &'s Solved<'a>,
    pub places: Places<'a>,
    pub k: usize,
}

/// The first ranked splits of a cell as far as they were met: at most `k`, in order. The first `opened` of them are
/// opened: with each of these the splits were met of which one rank is greater by one.
#[derive(Drop)]
pub struct Growing {
    pub cell: Cell,
    pub found: Vec<Entry>,
    pub opened: usize,
}

/// The lists that have begun, and for the place of each counted cell which of them is its own, where one is.
#[derive(Drop)]
pub struct Grown {
    pub slots: Vec<u32>,
    pub lists: Vec<Option<Growing>>,
}

/// What is told of the tree at a place of a cell's list.
#[derive(Clone, Copy)]
pub enum Told {
    /// Its score.
    Score(i64),
    /// There is none, nor at a later place.
    Nothing,
    /// Nothing yet: the list hasn't grown up to it.
    NotYet,
}

impl Grown {
    /// No list has begun.
    pub fn new(alloc: Global, problem: &Problem<'_>) -> Result<Grown, AllocError>
        ensures { IfOk result (λ grown. grown.lists.items ≡ []) }
    {
        Ok(Grown {
            slots: vec![in alloc; 0; problem.cells as usize]?,
            lists: Vec::new(alloc),
        })
    }
}

/// Where the list of a demanded cell stands, if it has begun.
pub fn slot_of(basis: &Basis<'_, '_>, grown: &Grown, cell: Cell) -> Option<usize>
    requires { IsBasis basis.now }
    ensures { IfSome result (λ _. IsDemanded basis.now.lines.now cell) }
{
    basis.lines.problem().admissible();
    demanded_cells_are_counted();
    basis.solved.score(cell)?;
    let slot = grown.slots.get(basis.places.place(cell) as usize)?;
    Some(*slot as usize)
}

/// The list of a cell, where it has begun.
pub fn list_of<'g>(basis: &Basis<'_, '_>, grown: &'g Grown, cell: Cell) -> Option<&'g Growing>
    requires basis { IsBasis basis.now }
    requires growing { AreGrowing basis.now.lines.now basis.now.k grown.now.lists.items }
    ensures cell { IfSome result (λ list. list.now.cell ≡ cell) }
    ensures growing { IfSome result (λ list. IsGrowingList basis.now.lines.now basis.now.k list.now) }
{
    let slot = slot_of(basis, grown, cell)?;
    match grown.lists.get(slot) {
        Some(Some(list)) if list.cell == cell => Some(list),
        _ => None,
    }
}

/// What is told of a place behind the first of a cell's list.
fn told_behind(basis: &Basis<'_, '_>, grown: &Grown, cell: Cell, rank: usize) -> Told
    requires basis { IsBasis basis.now }
    requires growing { AreGrowing basis.now.lines.now basis.now.k grown.now.lists.items }
    ensures { IsTold basis.now.lines.now basis.now.k cell rank result }
{
    basis.lines.problem().admissible();
    demanded_cells_are_counted();
    first_trees_are_unique();
    entries_are_in_strict_order();
    lists_are_the_first_ranked_splits();
    lower_ranks_come_first();
    let Some(list) = list_of(basis, grown, cell) else {
        return Told::NotYet;
    };
    match list.found.get(rank) {
        Some(entry) if rank <= list.opened => Told::Score(entry.score()),
        None if list.found.len() <= list.opened => Told::Nothing,
        _ => Told::NotYet,
    }
}

/// What is told of a place of a cell's list.
pub fn told_at(basis: &Basis<'_, '_>, grown: &Grown, cell: Cell, rank: usize) -> Told
    requires basis { IsBasis basis.now }
    requires growing { AreGrowing basis.now.lines.now basis.now.k grown.now.lists.items }
    ensures { IsTold basis.now.lines.now basis.now.k cell rank result }
{
    basis.lines.problem().admissible();
    cells_have_first_trees();
    first_tree_is_the_preferred_tree();
    preferred_tree_is_unique();
    match basis.solved.score(cell) {
        Some(Some(score)) if rank == 0 => Told::Score(score),
        Some(Some(_)) => told_behind(basis, grown, cell, rank),
        Some(None) => Told::Nothing,
        None => Told::NotYet,
    }
}
