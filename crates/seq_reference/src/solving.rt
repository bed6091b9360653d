ghost use Rattle.std.specs.Prelude.{◌≡◌, IfOk};
ghost use Rattle.suffix_cells.specs.Straight.{AreStraight};

use crate::demand::demanded_marks;
use crate::filling::filled_scores;
use crate::solved::Solved;
use crate::suffixes::visited_scores;
use adp_model::Problem;
use split_lines::Prepared;
use std::alloc::{AllocError, Global};
use suffix_cells::{are_straight, mark_suffixes, rules_by_rank};

/// The answers of the problem's demanded cells. Fails for want of memory alone. Its time is in proportion to the
/// counted cells, to the demanded cells, times rules, and to the positions of their lines.
pub fn solve<'a>(alloc: Global, problem: &'a Problem<'a>) -> Result<Solved<'a>, AllocError>
    ensures { IfOk result (λ solved. solved ≡ problem.now) }
{
    solve_prepared(alloc, Prepared::new(alloc, problem)?)
}

/// The same of a problem that is prepared, so that what it shares with other words is not worked out anew.
pub fn solve_prepared<'a>(alloc: Global, prepared: Prepared<'a>) -> Result<Solved<'a>, AllocError>
    ensures { IfOk result (λ solved. solved ≡ prepared.entry) }
{
    if are_straight(prepared.problem()) {
        solve_suffixes(alloc, prepared)
    } else {
        solve_cells(alloc, prepared)
    }
}

/// The answers, where the grammar is straight: all demanded cells end where the word ends.
fn solve_suffixes<'a>(alloc: Global, prepared: Prepared<'a>) -> Result<Solved<'a>, AllocError>
    requires { AreStraight prepared }
    ensures { IfOk result (λ solved. solved ≡ prepared.entry) }
{
    let lines = prepared.lines();
    let layout = prepared.layout();
    let order = rules_by_rank(alloc, lines.problem())?;
    let visits = mark_suffixes(alloc, lines, layout, order)?;
    let scores = visited_scores(alloc, lines, layout, &visits)?;
    let cells = visits.cells();
    let marks = visits.into_marks();
    Ok(Solved::new(prepared, marks, scores, cells))
}

/// The answers, whatever the grammar is.
fn solve_cells<'a>(alloc: Global, prepared: Prepared<'a>) -> Result<Solved<'a>, AllocError>
    ensures { IfOk result (λ solved. solved ≡ prepared.entry) }
{
    let lines = prepared.lines();
    let layout = prepared.layout();
    let marks = demanded_marks(alloc, lines, layout)?;
    let scores = filled_scores(alloc, lines, &marks, layout)?;
    let cells = marks.count();
    Ok(Solved::new(prepared, marks, scores, cells))
}
