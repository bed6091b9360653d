//! Lists of entries, one behind the other, and of each counted cell where its own begins.

ghost use Rattle.std.specs.Prelude.{◌≡◌, ◌-◌, ◌≤◌, ℕ, IfOk, OnOk, [], drop, length, take};
ghost use Rattle.adp_model.specs.declared.cell.Cell.{Cell as CellValue};
ghost use Rattle.adp_model.specs.Cells.{IsCellBound, IsCounted};
ghost use Rattle.first_trees.specs.Entries.{AreEntries};
ghost use Rattle.k_best.specs.ListTables.{HasList, IsLaidOut};

use crate::entry::Entry;
use adp_model::laws::cells::{places_are_unique, places_tell_cells_apart};
use adp_model::{Cell, Problem};
use cell_layouts::{Layout, Places};
use std::alloc::{AllocError, Global};

/// Where a list begins and ends.
#[derive(Clone, Copy)]
pub struct Part {
    pub start: usize,
    pub end: usize,
}

/// The lists of a problem's cells.
#[derive(Drop)]
pub struct ListTable<'a> {
    pub places: Places<'a>,
    pub parts: Vec<Part>,
    pub entries: Vec<Entry>,
}

impl<'a> ListTable<'a> {
    /// The table whose lists are all empty.
    pub fn new(
        alloc: Global,
        problem: &'a Problem<'a>,
        layout: &Layout<'a>,
    ) -> Result<ListTable<'a>, AllocError>
        requires { layout.now ≡ problem.now }
        ensures { IfOk result (λ table. IsLaidOut problem.now table) }
    {
        let empty = Part { start: 0, end: 0 };
        let parts = vec![in alloc; empty; problem.cells as usize]?;
        Ok(ListTable {
            places: Places::of(layout)?,
            parts,
            entries: Vec::new(alloc),
        })
    }

    /// The list of a counted cell that has one.
    pub fn list(&self, cell: Cell) -> &[Entry]
        requires counted { IsCounted self.now.places.grammar (length self.now.places.word) cell }
        requires laid { IsLaidOut self.now.places self.now }
        ensures { (k : ℕ) → HasList k self.now cell → AreEntries self.now.places k cell result.now }
    {
        places_are_unique();
        let part = self.parts[self.places.place(cell) as usize];
        part_of(&self.entries, part)
    }

    /// Gives a counted cell this list, which is then empty.
    pub fn put(&mut self, cell: Cell, list: &mut Vec<Entry>) -> Result<(), AllocError>
        requires counted { IsCounted self.old.places.grammar (length self.old.places.word) cell }
        requires laid { IsLaidOut self.old.places self.old }
        ensures laid { OnOk result (IsLaidOut self.old.places self.new) }
        ensures empty { OnOk result (list.new.items ≡ []) }
        ensures there { OnOk result ((k : ℕ) → AreEntries self.old.places k cell list.old.items
            → HasList k self.new cell) }
        ensures kept { OnOk result ((k : ℕ) → AreEntries self.old.places k cell list.old.items → (other : CellValue)
            → HasList k self.old other → HasList k self.new other) }
    {
        places_are_unique();
        places_tell_cells_apart();
        let start = self.entries.len();
        self.entries.append(list)?;
        let end = self.entries.len();
        self.parts[self.places.place(cell) as usize] = Part { start, end };
        Ok(())
    }
}

/// The entries of a part.
fn part_of(entries: &[Entry], part: Part) -> &[Entry]
    requires in_order { part.start ≤ part.end }
    requires within { part.end ≤ length entries.now }
    ensures { result.now ≡ take (part.end - part.start) (drop part.start entries.now) }
{
    &entries[part.start..part.end]
}
