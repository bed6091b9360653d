//! How a cell's list begins, with the first ranked split of each viable split, and how it grows.

ghost use Rattle.std.specs.Prelude.{◌≡◌, IfOk, IfSome, [], true, length};
ghost use Rattle.adp_model.specs.Demand.{IsDemanded};
ghost use Rattle.adp_model.specs.PosedProblem.{IsSpan};
ghost use Rattle.first_trees.specs.FirstTrees.{IsAt};
ghost use Rattle.first_trees.specs.RankedSplits.{IsRankedSplit};
ghost use Rattle.k_best.specs.Growing.{IsGrowing, IsOpened};
ghost use Rattle.k_best.specs.GrowingLists.{AreGrowing, IsBasis, IsGrowingList};
ghost use Rattle.k_best.specs.RankedRows.{IsListing};

use crate::entry::Entry;
use crate::growing::{Basis, Growing, Grown};
use crate::heads::meet_heads;
use crate::ranked::meet_at;
use adp_model::Cell;
use adp_model::laws::demand::demanded_cells_are_counted;
use first_trees::laws::{entries_are_in_strict_order, lower_ranks_come_first};
use std::alloc::AllocError;
use traceback::NodeAt;

/// The list of a demanded cell as it begins. Tells whether it is known.
pub fn meet_all_heads(
    basis: &Basis<'_, '_>,
    grown: &Grown,
    cell: Cell,
    found: &mut Vec<Entry>,
) -> Result<bool, AllocError>
    requires basis { IsBasis basis.now }
    requires growing { AreGrowing basis.now.lines.now basis.now.k grown.now.lists.items }
    requires demanded { IsDemanded basis.now.lines.now cell }
    requires empty { found.old.items ≡ [] }
    ensures { IfOk result (λ is_known. is_known ≡ true
        → IsGrowing basis.now.lines.now basis.now.k cell found.new.items 0) }
{
    let problem = basis.lines.problem();
    problem.admissible();
    demanded_cells_are_counted();
    entries_are_in_strict_order();
    lower_ranks_come_first();
    for alt in 0..problem.alternatives(cell.rule).len() as u8 {
        if !meet_heads(basis, grown, cell, alt, found)? {
            return Ok(false);
        }
    }
    Ok(true)
}

/// Puts the ranked splits that come next to an entry among the first entries: those of the same viable split of which
/// one rank is greater by one. Tells whether all are known.
fn meet_next(
    basis: &Basis<'_, '_>,
    grown: &Grown,
    cell: Cell,
    first: &Entry,
    found: &mut Vec<Entry>,
) -> Result<bool, AllocError>
    requires basis { IsBasis basis.now }
    requires growing { AreGrowing basis.now.lines.now basis.now.k grown.now.lists.items }
    requires span { IsSpan basis.now.lines.now.word cell.from cell.to }
    requires first { IsRankedSplit basis.now.lines.now basis.now.k cell first.now }
    requires listing { IsListing basis.now.lines.now basis.now.k cell found.old.items }
    ensures { IfOk result (λ are_known. are_known ≡ true
        → IsOpened basis.now.lines.now basis.now.k cell first.now (length first.now.ranks) found.old.items
        found.new.items) }
{
    basis.lines.problem().admissible();
    entries_are_in_strict_order();
    lower_ranks_come_first();
    let node = NodeAt {
        cell,
        choice: first.choice(),
    };
    for number in 0..first.ranks().len() {
        let Some(next) = first.raised(number) else {
            return Ok(false);
        };
        if !meet_at(basis, grown, node, next.ranks(), found)? {
            return Ok(false);
        }
    }
    Ok(true)
}

/// The first entry of a list that isn't opened yet, where there is one.
fn first_unopened(list: &Growing) -> Option<Entry>
    ensures { IfSome result (λ first. IsAt list.now.found.items list.now.opened first) }
{
    match list.found.get(list.opened) {
        Some(first) => Some(first.same()),
        None => None,
    }
}

/// Opens the first entry of a list that isn't opened yet, where there is one. Tells whether all is known that comes
/// next to it.
pub fn open(basis: &Basis<'_, '_>, grown: &Grown, list: &mut Growing) -> Result<bool, AllocError>
    requires basis { IsBasis basis.now }
    requires growing { AreGrowing basis.now.lines.now basis.now.k grown.now.lists.items }
    requires list { IsGrowingList basis.now.lines.now basis.now.k list.old }
    ensures { IfOk result (λ is_known. is_known ≡ true
        → IsGrowingList basis.now.lines.now basis.now.k list.new) }
{
    basis.lines.problem().admissible();
    demanded_cells_are_counted();
    entries_are_in_strict_order();
    lower_ranks_come_first();
    let Some(first) = first_unopened(list) else {
        return Ok(true);
    };
    if !meet_next(basis, grown, list.cell, &first, &mut list.found)? {
        return Ok(false);
    }
    list.opened += 1;
    Ok(true)
}
