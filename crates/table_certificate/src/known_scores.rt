//! Lines that need no look at the splits of their cells: all that the cell demands is said to have its best score.

ghost use Rattle.std.specs.Prelude.{◌≡◌, ◌↔◌, ◌<◌, IfOk, IfSome, IsTrue, length};
ghost use Rattle.std.specs.Bool.{OnTrue};
ghost use Rattle.adp_model.specs.PosedProblem.{IsSpan};
ghost use Rattle.table_certificate.specs.Claims.{claimed};
ghost use Rattle.table_certificate.specs.KnownScores.{AreSaidBest, IsSaidBest, IsSettled};

use crate::claims::Claims;
use crate::demanded::{DemandedScores, demanded_cells};
use adp_model::Cell;
use adp_model::laws::demand::demanded_cells_are_counted;
use adp_model::laws::well_formed::alternatives_fit;
use argument_search::seek;
use cell_layouts::Layout;
use cell_tables::Noted;
use memo_model::Visit;
use seq_reference::Solved;
use split_lines::Lines;
use std::alloc::{AllocError, Global};

pub(crate) fn is_same(one: Option<i64>, other: Option<i64>) -> bool
    ensures { IsTrue result ↔ (one ≡ other) }
{
    match (one, other) {
        (None, None) => true,
        (Some(one), Some(other)) => one == other,
        _ => false,
    }
}

/// Whether the cell is demanded, and said to have its best score.
fn is_said_best(solved: &Solved<'_>, claims: &Claims, cell: Cell) -> bool
    ensures { OnTrue result (IsSaidBest solved.now (claimed claims.now) cell) }
{
    match (solved.demanded_score(cell), claims.said(cell)) {
        (Some(best), Some(said)) => is_same(best, said),
        _ => false,
    }
}

/// Notes of the demanded cells that the lines of a block say to have their best scores, by the solution of the word.
pub(crate) fn noted_said_best<'a>(
    alloc: Global,
    layout: &Layout<'a>,
    solved: &Solved<'_>,
    claims: &Claims,
) -> Result<Noted<'a>, AllocError>
    requires { solved.now ≡ layout.now }
    ensures { IfOk result (AreSaidBest layout.now (claimed claims.now)) }
{
    let problem = layout.problem();
    problem.admissible();
    demanded_cells_are_counted();
    let cells = demanded_cells(alloc, layout, solved)?;
    let mut said_best = Noted::new(alloc, layout)?;
    for cell in &cells {
        if is_said_best(solved, claims, *cell) {
            said_best.note(*cell);
        }
    }
    Ok(said_best)
}

/// The best score of a cell that is demanded, where all that it demands is noted as said to have its best score: its
/// line is right exactly where it says this one. Takes no memory.
pub(crate) fn settled_score(
    lines: &Lines<'_>,
    solved: &Solved<'_>,
    said_best: &Noted<'_>,
    cell: Cell,
) -> Option<Option<i64>>
    requires same { solved.now ≡ lines.now }
    requires span { IsSpan lines.now.word cell.from cell.to }
    requires rule { cell.rule < length lines.now.grammar.rules }
    ensures { IfSome result (IsSettled lines.now said_best.now cell) }
{
    let problem = lines.problem();
    problem.admissible();
    alternatives_fit();
    let best = solved.demanded_score(cell)?;
    let visit = Visit {
        cell,
        first: 0,
        turns: [0; 3],
        at: None,
    };
    match seek(lines, problem, said_best, visit) {
        Some(_) => None,
        None => Some(best),
    }
}
