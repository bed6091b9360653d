ghost use Rattle.std.specs.Prelude.{◌≡◌, ◌↔◌, ◌+◌, ◌<◌, IfOk};
ghost use Rattle.adp_model.specs.declared.cell.Cell.{Cell};
ghost use Rattle.adp_model.specs.Demand.{IsDemanded};
ghost use Rattle.cell_tables.specs.Marks.{IsMarkedInRow};
ghost use Rattle.suffix_cells.specs.Ranks.{AreRanked};
ghost use Rattle.seq_reference.specs.Sweeping.{AreGathered, AreSwept, AreSweptInRows, IsBeforeEnd, IsBeforeStart};

use crate::marking::Marking;
use crate::row_marks::marks_by_rows;
use adp_model::Cell;
use adp_model::laws::demand::{demanded_cells_are_counted, demanded_children_are_below};
use cell_tables::{Layout, Marks};
use row_scores::order_of_long_rows;
use split_lines::Lines;
use std::alloc::{AllocError, Global};
use suffix_cells::rules_by_rank;

/// Settles the marked cells of a span, by falling ranks.
fn settle_span(lines: &Lines<'_>, rules: &[u32], from: u16, to: u16, marks: &mut Marking<'_>)
    requires ranked { AreRanked lines.now rules.now }
    requires gathered { AreGathered marks.old from }
    requires swept { AreSwept lines.now marks.old (IsBeforeEnd from (to + 1)) }
    ensures gathered { AreGathered marks.new from }
    ensures swept { AreSwept lines.now marks.new (IsBeforeEnd from to) }
{
    lines.problem().admissible();
    demanded_cells_are_counted();
    demanded_children_are_below();
    for number in (0..rules.len()).rev() {
        let cell = Cell {
            rule: rules[number],
            from,
            to,
        };
        if marks.is_marked_in_row(cell) {
            marks.mark_children(lines, cell);
        }
    }
}

/// Settles the marked cells that begin at `from`, by falling ends.
fn settle_start(lines: &Lines<'_>, rules: &[u32], from: u16, marks: &mut Marking<'_>)
    requires ranked { AreRanked lines.now rules.now }
    requires swept { AreSwept lines.now marks.old (IsBeforeStart from) }
    ensures { AreSwept lines.now marks.new (IsBeforeStart (from + 1)) }
{
    let problem = lines.problem();
    problem.admissible();
    demanded_cells_are_counted();
    marks.gather(from);
    let mut behind = problem.word.bytes().len() as u16 + 1;
    while let Some(to) = marks.last_marked(rules, from, behind) {
        settle_span(lines, rules, from, to, marks);
        behind = to;
    }
}

/// Marks the axiom's cell alone, where that is demanded.
fn first_marks<'a>(
    alloc: Global,
    lines: &Lines<'a>,
    layout: &Layout<'a>,
) -> Result<Marks<'a>, AllocError>
    requires { layout.now ≡ lines.now }
    ensures { IfOk result (λ marks. AreSweptInRows lines.now marks (IsBeforeStart 0)) }
{
    let problem = lines.problem();
    problem.admissible();
    demanded_cells_are_counted();
    let mut marks = Marks::new(alloc, layout)?;
    let root = problem.axiom_cell();
    if !layout.counts(root) {
        return Ok(marks);
    }
    marks.mark(root);
    Ok(marks)
}

/// The same marks, cell by cell.
fn marks_by_cells<'a>(
    alloc: Global,
    lines: &Lines<'a>,
    marks: Marks<'a>,
) -> Result<Marks<'a>, AllocError>
    requires { AreSwept lines.now marks (IsBeforeStart 0) }
    ensures problem { IfOk result (λ marks. marks.problem ≡ lines.now) }
    ensures rows { IfOk result (λ marks. (cell : Cell) → IsMarkedInRow marks cell ↔ IsDemanded lines.now cell) }
{
    let problem = lines.problem();
    problem.admissible();
    demanded_cells_are_counted();
    let rules = rules_by_rank(alloc, problem)?;
    let mut marks = Marking::new(alloc, lines, marks)?;
    for from in 0..problem.word.bytes().len() as u16 + 1 {
        settle_start(lines, &rules, from, &mut marks);
    }
    Ok(marks.into_marks())
}

/// Marks of the demanded cells: each is marked in its row, and no other cell is. Fails for want of memory alone. Its
/// time is in proportion to the counted cells and to the lines of the demanded cells, with their positions, 64 at a
/// time; or, where whole rows are marked, to the positions that arguments of the rows reach, times the ends of a row, 64
/// at a time.
pub fn demanded_marks<'a>(
    alloc: Global,
    lines: &Lines<'a>,
    layout: &Layout<'a>,
) -> Result<Marks<'a>, AllocError>
    requires { layout.now ≡ lines.now }
    ensures problem { IfOk result (λ marks. marks.problem ≡ lines.now) }
    ensures rows { IfOk result (λ marks. (cell : Cell) → IsMarkedInRow marks cell ↔ IsDemanded lines.now cell) }
{
    let marks = first_marks(alloc, lines, layout)?;
    match order_of_long_rows(alloc, lines.problem(), layout)? {
        Some(order) => marks_by_rows(alloc, lines, layout, &order, marks),
        None => marks_by_cells(alloc, lines, marks),
    }
}
