ghost use Rattle.std.specs.Prelude.{◌≡◌, ◌↔◌, ◌+◌, ◌≤◌, IfOk, length};
ghost use Rattle.adp_model.specs.declared.cell.Cell.{Cell};
ghost use Rattle.adp_model.specs.Demand.{IsDemanded};
ghost use Rattle.cell_answers.specs.Entries.{HasEntry};
ghost use Rattle.cell_tables.specs.Marks.{IsMarkedInRow};
ghost use Rattle.suffix_cells.specs.Ranks.{AreRanked};
ghost use Rattle.suffix_cells.specs.Straight.{AreStraight};
ghost use Rattle.seq_reference.specs.Filling.{AreFilled, IsFromStart};
ghost use Rattle.seq_reference.specs.VisitedCells.{AreAllVisited};

use crate::filling::Filling;
use adp_model::Cell;
use adp_model::laws::demand::{demanded_cells_are_counted, demanded_children_are_below};
use adp_model::laws::well_formed::numbers_fit_together;
use cell_answers::Scores;
use cell_tables::Layout;
use split_lines::Lines;
use std::alloc::{AllocError, Global};
use suffix_cells::{Visits, demanded_cells_end_with_the_word};

/// Fills in the scores of the cells that are visited at a start, by rising ranks.
#[inline]
fn fill_start(lines: &Lines<'_>, visits: &Visits<'_>, from: u16, scores: &mut Filling<'_>)
    requires from { from ≤ length lines.now.word }
    requires visited { AreAllVisited lines.now visits.now }
    requires filled { AreFilled lines.now scores.old (IsFromStart (from + 1)) }
    ensures { AreFilled lines.now scores.new (IsFromStart from) }
{
    let problem = lines.problem();
    problem.admissible();
    demanded_cells_are_counted();
    demanded_children_are_below();
    demanded_cells_end_with_the_word();
    numbers_fit_together();
    let to = problem.letters().len() as u16;
    let mut least = 0;
    while let Some(number) = visits.next(from, least) {
        let cell = Cell {
            rule: visits.rule(number),
            from,
            to,
        };
        scores.fill(lines, cell);
        least = number + 1;
    }
}

/// The scores of the demanded cells, which are visited. Fails for want of memory alone. Its time is in proportion to the
/// letters of the word and to the demanded cells.
pub(crate) fn visited_scores<'a>(
    alloc: Global,
    lines: &Lines<'a>,
    layout: &Layout<'a>,
    visits: &Visits<'_>,
) -> Result<Scores<'a>, AllocError>
    requires same_layout { layout.now ≡ lines.now }
    requires visited { AreAllVisited lines.now visits.now }
    ensures problem { IfOk result (λ scores. scores.problem ≡ lines.now) }
    ensures scored { IfOk result (λ scores. (cell : Cell) → IsDemanded lines.now cell → HasEntry scores cell) }
{
    let problem = lines.problem();
    problem.admissible();
    demanded_cells_are_counted();
    let mut scores = Filling::without_notes(alloc, problem, layout)?;
    for from in (0..problem.letters().len() as u16 + 1).rev() {
        fill_start(lines, visits, from, &mut scores);
    }
    Ok(scores.into_scores())
}
