// The lines of a text.

ghost use Rattle.std.specs.Prelude.{◌≡◌, ◌+◌, ◌<◌, ◌≤◌, ◌∷◌, [], length, MatchOption, IfSome};
ghost use Rattle.job_texts.specs.JobLines.{job_lines};
ghost use Rattle.std.specs.Char.{is_newline};
ghost use Rattle.std.specs.List.{position_or_len};
ghost use Rattle.std.specs.Str.Lines.{strip_carriage_return};

use memchr::memchr;

/// The first line of a text and the bytes behind its end; `None` where there is no byte. An LF ends a line, and one CR
/// directly before it is no part of the line.
pub(crate) fn first_line(text: &[u8]) -> Option<(&[u8], &[u8])>
    ensures lines { MatchOption result (job_lines text.now ≡ [])
        (λ found. job_lines text.now ≡ found.0.now ∷ job_lines found.1.now) }
    ensures shorter { IfSome result (λ found. length found.1.now < length text.now) }
    ensures within { IfSome result (λ found. length found.0.now + length found.1.now ≤ length text.now) }
{
    if text.is_empty() {
        return None;
    }
    let end = line_end(text);
    if end == text.len() {
        return Some((text, &text[end..]));
    }
    Some((without_return(&text[..end]), &text[end + 1..]))
}

// The number of bytes before the first LF; of all where there is none.
fn line_end(text: &[u8]) -> usize
    ensures { result ≡ position_or_len is_newline text.now }
{
    memchr(b'\n', text).unwrap_or(text.len())
}

// The line without one CR at its end.
fn without_return(line: &[u8]) -> &[u8]
    ensures is { result.now ≡ strip_carriage_return line.now }
    ensures within { length result.now ≤ length line.now }
{
    match line {
        [before @ .., b'\r'] => before,
        _ => line,
    }
}
