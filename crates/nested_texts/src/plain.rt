// The plain text of a text.

ghost use Rattle.std.specs.Prelude.{◌≡◌, ◌+◌, ◌<◌, ◌≤◌, ◌^◌, length, IfOk, MatchOption};
ghost use Rattle.job_texts.specs.JobLines.{job_lines, line_at};
ghost use Rattle.nested_texts.specs.IsPlain.{IsPlain};
ghost use Rattle.nested_texts.specs.PlainTexts.{is_third_format, kept_lines};
ghost use Rattle.nested_texts.specs.Seen.{AddsLines, BeginsHeader, EndsHeader, IsItself, IsPlainBehind, ReadsHeader};

use crate::header::{HeaderLine, header_line};
use crate::lines::first_line;
use crate::nested::Nested;
use crate::output::Lines;
use crate::replaced::{push_changed_line, push_hidden_rules};
use std::alloc::{AllocError, Global};

/// A text without nested alternatives that stands for another one; for each of its lines the number of the line that
/// it comes from, and for one line more the number behind that one's last line; and how many alternatives have hidden
/// rules.
#[derive(Drop)]
pub struct Plain {
    pub text: Vec<u8>,
    pub origin: Vec<u32>,
    pub hidden: u32,
}

/// The plain text of a text: where line 1 is `adp 3`, the same job in the format `adp 2`, with a hidden rule for each
/// alternative that stands as an argument; else the text itself.
///
/// # Errors
///
/// Want of memory.
pub fn plain_text(alloc: Global, bytes: &[u8]) -> Result<Plain, AllocError>
    requires { length bytes.now ≤ 4194304 }
    ensures { IfOk result (λ plain. IsPlain bytes.now plain) }
{
    let Some((line, behind)) = first_line(bytes) else {
        return itself(alloc, bytes);
    };
    if !is_third_format(line) {
        return itself(alloc, bytes);
    }
    without_nested(alloc, behind)
}

/// Whether line 1 of a text is `adp 3`. Any other text is its own plain text.
pub fn is_nested_text(bytes: &[u8]) -> bool
    ensures { result ≡ is_third_format (line_at (job_lines bytes.now) 1) }
{
    match first_line(bytes) {
        Some((line, _)) => is_third_format(line),
        None => false,
    }
}

fn is_third_format(line: &[u8]) -> bool
    ensures { result ≡ is_third_format line.now }
{
    line == b"adp 3".as_slice()
}

// A text as its own plain text.
fn itself(alloc: Global, bytes: &[u8]) -> Result<Plain, AllocError>
    requires { length bytes.now ≤ 4194304 }
    ensures { IfOk result (λ plain. IsItself bytes.now plain) }
{
    let mut text = Vec::new(alloc);
    text.extend_from_slice(bytes)?;
    let mut origin = Vec::new(alloc);
    let mut place = 1;
    let mut rest = bytes;
    while let Some((_, behind)) = first_line(rest) {
        origin.push(place)?;
        place += 1;
        rest = behind;
    }
    origin.push(place)?;
    Ok(Plain {
        text,
        origin,
        hidden: 0,
    })
}

// The plain text of a text that has these bytes behind line 1, which is `adp 3`.
fn without_nested(alloc: Global, bytes: &[u8]) -> Result<Plain, AllocError>
    requires { length bytes.now ≤ 4194304 }
    ensures { IfOk result (λ plain. IsPlainBehind bytes.now plain) }
{
    let Header {
        mut changed,
        hidden,
        place,
        rest,
    } = read_header(alloc, bytes)?;
    changed.append(&hidden)?;
    let behind = push_kept_lines(&mut changed, place, rest)?;
    changed.origins.push(behind)?;
    let Lines { text, origins } = changed;
    Ok(Plain {
        text,
        origin: origins,
        hidden: hidden.origins.len() as u32,
    })
}

// The lines of a header that was read: line 1 and those before the `words` line with hidden names, the hidden rules,
// and the bytes from the `words` line on, with its number.
struct Header<'a> {
    changed: Lines,
    hidden: Lines,
    place: u32,
    rest: &'a [u8],
}

// The header lines of these bytes, the first of which is line 2.
fn read_header(alloc: Global, bytes: &[u8]) -> Result<Header<'_>, AllocError>
    requires { length bytes.now ≤ 4194304 }
    ensures { IfOk result (λ header. ReadsHeader bytes.now header) }
{
    let mut changed = Lines::new(alloc);
    let mut hidden = Lines::new(alloc);
    changed.push_line(b"adp 2", 1)?;
    let mut place = 2;
    let mut number = 1;
    let mut rest = bytes;
    'header: while let Some((line, nested, behind)) = first_header_line(alloc, rest)? {
        push_changed_line(&mut changed, line, place, number, &nested)?;
        push_hidden_rules(&mut hidden, line, place, number, &nested)?;
        number += nested.len() as u64;
        place += 1;
        rest = behind;
    }
    Ok(Header {
        changed,
        hidden,
        place,
        rest,
    })
}

// The first of these lines, where it stands before the `words` line, the alternatives that stand as arguments in it,
// and the bytes behind it.
fn first_header_line(
    alloc: Global,
    text: &[u8],
) -> Result<Option<(&[u8], Vec<Nested>, &[u8])>, AllocError>
    requires { length text.now ≤ 4194304 }
    ensures { IfOk result (λ found. MatchOption found (EndsHeader text.now)
        (λ first. BeginsHeader text.now first.0.now first.1.items first.2.now)) }
{
    let Some((line, behind)) = first_line(text) else {
        return Ok(None);
    };
    match header_line(alloc, line)? {
        HeaderLine::Words => Ok(None),
        HeaderLine::Other(nested) => Ok(Some((line, nested, behind))),
    }
}

// Adds the lines of these bytes as they are, the first of which has this number; the number behind the last.
fn push_kept_lines(lines: &mut Lines, place: u32, bytes: &[u8]) -> Result<u32, AllocError>
    requires { place + length bytes.now < 2 ^ 32 }
    ensures { IfOk result (λ behind.
        AddsLines lines.old lines.new (kept_lines place (job_lines bytes.now))
        × (behind ≡ place + length (job_lines bytes.now))) }
{
    let mut place = place;
    let mut rest = bytes;
    while let Some((line, behind)) = first_line(rest) {
        lines.push_line(line, place)?;
        place += 1;
        rest = behind;
    }
    Ok(place)
}
