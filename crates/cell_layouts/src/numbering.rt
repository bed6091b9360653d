//! How the counted cells of a problem are numbered.

ghost use Rattle.std.specs.Prelude.{◌≡◌, IfOk};

use crate::counted_places::Places;
use crate::laying::laid_blocks;
use crate::layout::Side;
use adp_model::Problem;
use std::alloc::{AllocError, Global};
use std::sync::Arc;

/// The places of the problem's counted cells. Fails for want of memory alone.
pub fn places<'a>(alloc: Global, problem: &'a Problem<'a>) -> Result<Places<'a>, AllocError>
    ensures { IfOk result (λ places. places ≡ problem.now) }
{
    let rows = laid_blocks(alloc, problem, Side::Rows)?;
    Ok(Places::new(problem, Arc::new(alloc, rows)?))
}
