ghost use Rattle.std.specs.Prelude.{◌≡◌, ◌≤◌, IfOk, IfSome, IsSome};
ghost use Rattle.adp_model.specs.Demand.{IsDemanded};
ghost use Rattle.first_trees.specs.Entries.{AreEntries};
ghost use Rattle.first_trees.specs.ListLimits.{most_first_trees};

use crate::entry::Entry;
use crate::filling::filled_lists;
use crate::list_table::ListTable;
use adp_model::laws::demand::demanded_cells_are_counted;
use adp_model::{Cell, Problem};
use cell_tables::Marks;
use seq_reference::demanded_marks;
use split_lines::Prepared;
use std::alloc::{AllocError, Global};
use std::marker::Model;

/// The entries of the first trees of a problem's demanded cells. Contracts see it as the problem and how many trees of
/// each cell.
#[derive(Drop)]
pub struct Lists<'a> {
    problem: &'a Problem<'a>,
    k: u32,
    marks: Marks<'a>,
    table: ListTable<'a>,
}

impl<'a> Model for Lists<'a> {
    ghost use Rattle.k_best.specs.ListsOf.{ListsOf};

    ghost Value = { ListsOf };

    ghost use Rattle.adp_model.specs.WideForm.{form_code};
    ghost use Rattle.std.specs.Coded.{codes};

    ghost coded = { Prim.hlevel (codes, form_code) };

    ghost use Rattle.k_best.specs.ListsFields.{AreLists, lists_of};

    ghost view = { lists_of };

    ghost invariant = { AreLists };
}

impl<'a> Lists<'a> {
    /// The entries of a demanded cell's first trees, in their order, and `None` for every other cell. Takes no memory.
    pub fn list(&self, cell: Cell) -> Option<&[Entry]>
        ensures entries { IfSome result (λ entries. AreEntries self.now.problem self.now.k cell entries.now) }
        ensures demanded { IsDemanded self.now.problem cell → IsSome result }
        ensures only { IsSome result → IsDemanded self.now.problem cell }
    {
        self.problem.admissible();
        demanded_cells_are_counted();
        if self.marks.is_marked_in_row(cell) {
            Some(self.table.list(cell))
        } else {
            None
        }
    }
}

/// The entries of the first `k` trees of a prepared problem's demanded cells. Fails for want of memory alone.
pub fn solve_lists<'a>(
    alloc: Global,
    prepared: &Prepared<'a>,
    k: u32,
) -> Result<Lists<'a>, AllocError>
    requires { k ≤ most_first_trees }
    ensures problem { IfOk result (λ lists. lists.problem ≡ prepared.now) }
    ensures k { IfOk result (λ lists. lists.k ≡ k) }
{
    let lines = prepared.lines();
    let layout = prepared.layout();
    let problem = lines.problem();
    let marks = demanded_marks(alloc, lines, layout)?;
    let table = filled_lists(alloc, lines, &marks, layout, k as usize)?;
    Ok(Lists {
        problem,
        k,
        marks,
        table,
    })
}
