ghost use Rattle.std.specs.Prelude.{◌≡◌, ◌↔◌, ◌+◌, ◌≤◌, IfOk, length};
ghost use Rattle.adp_model.specs.declared.cell.Cell.{Cell};
ghost use Rattle.adp_model.specs.Demand.{IsDemanded};
ghost use Rattle.cell_demands.specs.Rows.{IsRoomFor};
ghost use Rattle.cell_tables.specs.Marks.{IsMarkedInRow};
ghost use Rattle.row_scores.specs.Order.{AreInRowOrder};
ghost use Rattle.seq_reference.specs.Sweeping.{AreSweptInRows, IsBeforeStart};

use adp_model::laws::demand::{demanded_cells_are_counted, demanded_children_are_below};
use cell_demands::{RowRoom, mark_row_children};
use cell_tables::{Layout, Marks};
use split_lines::Lines;
use std::alloc::{AllocError, Global};

/// Settles the marked cells that begin at `from`, row by row: those of a rule before those that they demand there.
fn settle_rows(
    lines: &Lines<'_>,
    layout: &Layout<'_>,
    order: &[u32],
    from: u16,
    room: &mut RowRoom,
    marks: &mut Marks<'_>,
)
    requires order { AreInRowOrder lines.now order.now }
    requires same_layout { layout.now ≡ lines.now }
    requires from { from ≤ length lines.now.word }
    requires room { IsRoomFor lines.now room.old }
    requires swept { AreSweptInRows lines.now marks.old (IsBeforeStart from) }
    ensures room { IsRoomFor lines.now room.new }
    ensures swept { AreSweptInRows lines.now marks.new (IsBeforeStart (from + 1)) }
{
    lines.problem().admissible();
    demanded_cells_are_counted();
    demanded_children_are_below();
    for number in (0..order.len()).rev() {
        mark_row_children(lines, layout, order[number], from, room, marks);
    }
}

/// The marks of the demanded cells, where that of the axiom is marked. Fails for want of memory alone.
pub(crate) fn marks_by_rows<'a>(
    alloc: Global,
    lines: &Lines<'a>,
    layout: &Layout<'a>,
    order: &[u32],
    mut marks: Marks<'a>,
) -> Result<Marks<'a>, AllocError>
    requires order { AreInRowOrder lines.now order.now }
    requires same_layout { layout.now ≡ lines.now }
    requires swept { AreSweptInRows lines.now marks (IsBeforeStart 0) }
    ensures problem { IfOk result (λ marks. marks.problem ≡ lines.now) }
    ensures rows { IfOk result (λ marks. (cell : Cell) → IsMarkedInRow marks cell ↔ IsDemanded lines.now cell) }
{
    let problem = lines.problem();
    problem.admissible();
    demanded_cells_are_counted();
    let letters = problem.letters().len();
    let mut room = RowRoom::new(alloc, problem)?;
    for from in 0..letters as u16 + 1 {
        if marks.has_start(from) {
            settle_rows(lines, layout, order, from, &mut room, &mut marks);
        }
    }
    Ok(marks)
}
