ghost use Rattle.std.specs.Prelude.{◌≡◌, ◌+◌, ◌^◌, ◌≤◌, ◌↔◌, [], length, codes, IfOk, IfErr, IsTrue, MatchOption};
ghost use Rattle.std.specs.Char.{is_newline};
ghost use Rattle.std.specs.List.{position_or_len, Contains};
ghost use Rattle.std.specs.Str.Lines.{lines, strip_carriage_return};
ghost use Rattle.table_certificate.specs.JobSplit.{IsFirstLine, IsSplitAtJob};

use memchr::memchr;

/// A certificate that is not right: the number of its first line that is false, from 1 on. One that is missing stands
/// behind all lines.
#[derive(Clone, Copy, Debug, PartialEq, Eq)]
pub struct Rejected {
    pub line: u32,
}

/// The number of bytes before the first LF; of all where there is none.
pub(crate) fn line_end(text: &[u8]) -> usize
    ensures { result ≡ position_or_len is_newline text.now }
{
    memchr(b'\n', text).unwrap_or(text.len())
}

/// The line without one CR at its end.
pub(crate) fn without_return(line: &[u8]) -> &[u8]
    ensures { result.now ≡ strip_carriage_return line.now }
{
    match line {
        [before @ .., b'\r'] => before,
        _ => line,
    }
}

/// The first line of a text and the bytes behind its end; `None` where there is no byte. An LF ends a line, and one CR
/// directly before it is no part of the line.
fn first_line(text: &[u8]) -> Option<(&[u8], &[u8])>
    ensures { MatchOption result (text.now ≡ []) (λ found. IsFirstLine text.now found.0.now found.1.now) }
{
    if text.is_empty() {
        return None;
    }
    let end = line_end(text);
    if end == text.len() {
        return Some((text, &text[end..]));
    }
    Some((without_return(&text[..end]), &text[end + 1..]))
}

/// Whether the line is `job`.
fn is_job(line: &[u8]) -> bool
    ensures { IsTrue result ↔ (line.now ≡ codes "job") }
{
    line == b"job".as_slice()
}

/// The bytes before the first line that is `job`, a certificate, and those behind it, its job. Takes no memory.
///
/// # Errors
///
/// Where no line is `job`: the number of lines and 1.
pub fn split_input(bytes: &[u8]) -> Result<(&[u8], &[u8]), Rejected>
    requires { length bytes.now ≤ 2 ^ 31 }
    ensures split { IfOk result (λ parts. IsSplitAtJob bytes.now parts.0.now parts.1.now) }
    ensures none { IfErr result (λ rejected. Contains (lines bytes.now) (codes "job") → ⊥) }
    ensures line { IfErr result (λ rejected. rejected.line ≡ length (lines bytes.now) + 1) }
{
    let mut rest = bytes;
    let mut count: u32 = 0;
    'lines: while let Some((line, behind)) = first_line(rest) {
        if is_job(line) {
            let end = bytes.len() - rest.len();
            return Ok((&bytes[..end], behind));
        }
        count += 1;
        rest = behind;
    }
    Err(Rejected { line: count + 1 })
}
