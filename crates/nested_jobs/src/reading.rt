ghost use Rattle.std.specs.Prelude.{◌≡◌, ◌≤◌, ◌∷◌, length, slice_index_or};
ghost use Rattle.nested_jobs.specs.Reading.{MatchNestedReading};

use crate::laws::{faults_have_origins, faults_stand_at_lines, plain_texts_stay};
use adp_model::{Job, TextFault};
use grammar_text::{TextError, read_text};
use nested_texts::{is_nested_text, plain_text};
use std::alloc::Global;

/// The job of an accepted text, in whose rules alternatives may stand as arguments where line 1 is `adp 3`; or the first
/// fault of any other bytes, which is that of the plain text, at the line that it comes from.
///
/// # Errors
///
/// The fault, or want of memory.
pub fn read_nested(alloc: Global, bytes: &[u8]) -> Result<Job, TextError>
    requires { length bytes.now ≤ 4194304 }
    ensures { MatchNestedReading bytes.now result }
{
    plain_texts_stay();
    if !is_nested_text(bytes) {
        return read_text(alloc, bytes);
    }
    faults_stand_at_lines();
    faults_have_origins();
    let plain = plain_text(alloc, bytes)?;
    match read_text(alloc, &plain.text) {
        Ok(job) => Ok(job),
        Err(TextError::Fault(fault)) => Err(TextError::Fault(at_origin(fault, &plain.origin))),
        Err(TextError::Memory) => Err(TextError::Memory),
    }
}

/// The fault of a plain text, at the line that its line comes from.
fn at_origin(fault: TextFault, origin: &[u32]) -> TextFault
    requires first { 1 ≤ fault.line }
    requires last { fault.line ≤ length origin.now }
    ensures { result ≡ record fault { line = slice_index_or (0 ∷ origin.now) fault.line 0 } }
{
    TextFault {
        line: origin[fault.line as usize - 1],
        ..fault
    }
}
