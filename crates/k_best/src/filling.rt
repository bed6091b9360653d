//! The lists of all demanded cells, children first: by starts downwards, then by ends upwards, then by ranks upwards.

ghost use Rattle.std.specs.Prelude.{◌≡◌, ◌↔◌, ◌+◌, ◌≤◌, IfOk, []};
ghost use Rattle.adp_model.specs.declared.cell.Cell.{Cell as CellValue};
ghost use Rattle.adp_model.specs.Demand.{IsDemanded};
ghost use Rattle.cell_tables.specs.Marks.{IsMarkedInRow};
ghost use Rattle.suffix_cells.specs.Ranks.{AreRanked};
ghost use Rattle.seq_reference.specs.Filling.{IsFromStart, IsShorterWithin, IsWithin};
ghost use Rattle.k_best.specs.ListTables.{AreListed, HasList, IsLaidOut};

use crate::cell_list::fill_list;
use crate::entry::Entry;
use crate::list_table::ListTable;
use adp_model::Cell;
use adp_model::laws::demand::{demanded_cells_are_counted, demanded_children_are_below};
use cell_tables::{Layout, Marks};
use split_lines::Lines;
use std::alloc::{AllocError, Global};
use suffix_cells::rules_by_rank;

/// What the sweep goes by: the marks of the demanded cells, the rules by rising ranks, and how many entries a list may
/// have.
#[derive(Clone, Copy)]
struct Sweep<'s, 'a> {
    lines: &'s Lines<'a>,
    marks: &'s Marks<'a>,
    rules: &'s [u32],
    k: usize,
}

/// Makes the lists of the demanded cells of a span, by rising ranks.
fn fill_span<'s, 'a>(
    sweep: Sweep<'s, 'a>,
    from: u16,
    to: u16,
    table: &mut ListTable<'a>,
    list: &mut Vec<Entry>,
) -> Result<(), AllocError>
    requires ranked { AreRanked sweep.lines.now sweep.rules.now }
    requires marked { (cell : CellValue) → IsMarkedInRow sweep.marks.now cell ↔ IsDemanded sweep.lines.now cell }
    requires small { sweep.k ≤ 64 }
    requires listed { AreListed sweep.lines.now sweep.k table.old (IsShorterWithin from to) }
    requires empty { list.old.items ≡ [] }
    ensures listed { IfOk result (λ _. AreListed sweep.entry.lines.now sweep.entry.k table.new (IsWithin from to)) }
    ensures kept { IfOk result (λ _. (cell : CellValue) → HasList sweep.entry.k table.old cell
        → HasList sweep.entry.k table.new cell) }
    ensures empty { IfOk result (λ _. list.new.items ≡ []) }
{
    sweep.lines.problem().admissible();
    demanded_cells_are_counted();
    demanded_children_are_below();
    for rule in sweep.rules {
        let cell = Cell {
            rule: *rule,
            from,
            to,
        };
        if sweep.marks.is_marked_in_row(cell) {
            fill_list(sweep.lines, table, sweep.k, cell, list)?;
            table.put(cell, list)?;
        }
    }
    Ok(())
}

/// Makes the lists of the demanded cells that begin at `from`, by rising ends.
fn fill_start<'s, 'a>(
    sweep: Sweep<'s, 'a>,
    from: u16,
    table: &mut ListTable<'a>,
    list: &mut Vec<Entry>,
) -> Result<(), AllocError>
    requires ranked { AreRanked sweep.lines.now sweep.rules.now }
    requires marked { (cell : CellValue) → IsMarkedInRow sweep.marks.now cell ↔ IsDemanded sweep.lines.now cell }
    requires small { sweep.k ≤ 64 }
    requires in_word { from ≤ 4000 }
    requires listed { AreListed sweep.lines.now sweep.k table.old (IsFromStart (from + 1)) }
    requires empty { list.old.items ≡ [] }
    ensures listed { IfOk result (λ _. AreListed sweep.entry.lines.now sweep.entry.k table.new (IsFromStart from)) }
    ensures empty { IfOk result (λ _. list.new.items ≡ []) }
{
    sweep.lines.problem().admissible();
    demanded_cells_are_counted();
    let mut least = from;
    while let Some(to) = sweep.marks.next_marked(sweep.rules, from, from + 1, least) {
        fill_span(sweep, from, to, table, list)?;
        least = to + 1;
    }
    Ok(())
}

/// Makes the lists of all demanded cells, by falling starts.
fn fill_all<'s, 'a>(
    alloc: Global,
    sweep: Sweep<'s, 'a>,
    table: &mut ListTable<'a>,
) -> Result<(), AllocError>
    requires ranked { AreRanked sweep.lines.now sweep.rules.now }
    requires marked { (cell : CellValue) → IsMarkedInRow sweep.marks.now cell ↔ IsDemanded sweep.lines.now cell }
    requires small { sweep.k ≤ 64 }
    requires laid { IsLaidOut sweep.lines.now table.old }
    ensures { IfOk result (λ _. AreListed sweep.entry.lines.now sweep.entry.k table.new
        (IsDemanded sweep.entry.lines.now)) }
{
    let problem = sweep.lines.problem();
    problem.admissible();
    demanded_cells_are_counted();
    let mut list = Vec::with_capacity(alloc, sweep.k + 1)?;
    for from in (0..problem.letters().len() as u16 + 1).rev() {
        fill_start(sweep, from, table, &mut list)?;
    }
    Ok(())
}

/// Makes the lists of all demanded cells, the rules by rising ranks.
fn fill_by_rank<'s, 'a>(
    alloc: Global,
    lines: &'s Lines<'a>,
    marks: &'s Marks<'a>,
    k: usize,
    table: &mut ListTable<'a>,
) -> Result<(), AllocError>
    requires marked { (cell : CellValue) → IsMarkedInRow marks.now cell ↔ IsDemanded lines.now cell }
    requires small { k ≤ 64 }
    requires laid { IsLaidOut lines.now table.old }
    ensures { IfOk result (λ _. AreListed lines.now k table.new (IsDemanded lines.now)) }
{
    let rules = rules_by_rank(alloc, lines.problem())?;
    let sweep = Sweep {
        lines,
        marks,
        rules: &rules,
        k,
    };
    fill_all(alloc, sweep, table)
}

/// The lists of the demanded cells, which are marked in their rows. Fails for want of memory alone.
pub fn filled_lists<'s, 'a>(
    alloc: Global,
    lines: &'s Lines<'a>,
    marks: &'s Marks<'a>,
    layout: &Layout<'a>,
    k: usize,
) -> Result<ListTable<'a>, AllocError>
    requires same_layout { layout.now ≡ lines.now }
    requires marked { (cell : CellValue) → IsMarkedInRow marks.now cell ↔ IsDemanded lines.now cell }
    requires small { k ≤ 64 }
    ensures { IfOk result (λ table. AreListed lines.now k table (IsDemanded lines.now)) }
{
    let mut table = ListTable::new(alloc, lines.problem(), layout)?;
    fill_by_rank(alloc, lines, marks, k, &mut table)?;
    Ok(table)
}
