ghost use Rattle.std.specs.Prelude.{◌≡◌, IfOk};
ghost use Rattle.table_certificate.specs.ScoreReports.{score_lines};

use adp_model::{push_decimal, push_signed};
use std::alloc::{AllocError, Global};

/// What a certificate tells of a word: its number, counted from 1, and its best score or `none`, each on a line of its
/// own.
///
/// # Errors
///
/// Where there is no memory.
pub fn score_report(alloc: Global, number: u32, score: Option<i64>) -> Result<Vec<u8>, AllocError>
    ensures { IfOk result (λ report. report.items ≡ score_lines number score) }
{
    let mut out = Vec::new(alloc);
    out.extend_from_slice(b"word ")?;
    push_decimal(&mut out, u64::from(number))?;
    match score {
        None => out.extend_from_slice(b"\nnone\n")?,
        Some(score) => {
            out.extend_from_slice(b"\nscore ")?;
            push_signed(&mut out, score)?;
            out.push(b'\n')?;
        }
    }
    Ok(out)
}
