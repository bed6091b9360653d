ghost use Rattle.std.specs.Prelude.{◌≡◌, IfOk};
ghost use Rattle.adp_model.specs.BigReport.{big_lines};

use crate::number_line::push_number_line;
use adp_model::push_signed;
use std::alloc::{AllocError, Global};

/// The report of a word that is made: its size in letters, its best score and the number of demanded cells, each on a
/// line of its own.
///
/// # Errors
///
/// Where there is no memory.
pub fn big_report(alloc: Global, size: u32, score: i64, cells: u64) -> Result<Vec<u8>, AllocError>
    ensures { IfOk result (λ report. report.items ≡ big_lines size score cells) }
{
    let mut out = Vec::new(alloc);
    push_number_line(&mut out, b"size ", u64::from(size))?;
    out.extend_from_slice(b"score ")?;
    push_signed(&mut out, score)?;
    out.push(b'\n')?;
    push_number_line(&mut out, b"cells ", cells)?;
    Ok(out)
}
