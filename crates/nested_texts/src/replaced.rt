// A line with hidden names in place of alternatives, and the hidden rules of these.

ghost use Rattle.std.specs.Prelude.{◌≡◌, ◌+◌, ◌<◌, ◌≤◌, ◌^◌, ◌∷◌, ◌++◌, [], length, map, All, IfOk, MatchOption, OnOk};
ghost use Rattle.std.specs.List.{slice_range};
ghost use Rattle.nested_texts.specs.PlainTexts.{hidden_name, hidden_rule, hidden_rules, line_of, replaced};
ghost use Rattle.nested_texts.specs.Seen.{from_behind, nested_seen, piece_before, AddsLines, AreInside, IsBehind, IsWithin};

use crate::nested::Nested;
use crate::output::Lines;
use adp_model::push_decimal;
use std::alloc::AllocError;

/// Appends the bytes of a span, with hidden names in place of the alternatives that lie in no others of it. The
/// alternatives that begin behind its first byte are given, and the number of the first of them.
pub(crate) fn push_replaced(
    out: &mut Vec<u8>,
    line: &[u8],
    span: Span,
    number: u64,
    nested: &[Nested],
) -> Result<(), AllocError>
    requires from { span.from ≤ length line.now }
    requires to { span.to ≤ length line.now }
    requires inside { AreInside nested.now }
    requires within { All (IsWithin line.now) nested.now }
    requires number { number + length nested.now < 2 ^ 64 }
    ensures { OnOk result (out.new.items ≡ out.old.items
        ++ replaced line.now span.to (span.around + 1) number span.from (map nested_seen nested.now)) }
{
    let Span { around, from, to } = span;
    let mut begin = from;
    let mut next = number;
    let mut rest = nested;
    while let Some((first, others)) = first_within(rest, around) {
        begin = push_first(out, line, around, begin, next, first)?;
        next += 1 + first.inside as u64;
        rest = &others[first.inside..];
    }
    push_bytes(out, line, begin, to)?;
    Ok(())
}

// The first alternative, where it lies in more than so many, and the others.
fn first_within(nested: &[Nested], around: usize) -> Option<(&Nested, &[Nested])>
    ensures { MatchOption result (IsBehind around nested.now)
        (λ found. (nested.now ≡ found.0.now ∷ found.1.now) × (around < found.0.now.depth)) }
{
    let (first, others) = nested.split_first()?;
    if first.depth <= around {
        return None;
    }
    Some((first, others))
}

/// The bytes of a line from `from` to before `to`, which lie in so many alternatives.
#[derive(Clone, Copy, Debug)]
pub(crate) struct Span {
    pub(crate) around: usize,
    pub(crate) from: u32,
    pub(crate) to: u32,
}

// Appends the bytes up to the first alternative and its hidden name, where it lies in no more than so many; where to
// go on.
fn push_first(
    out: &mut Vec<u8>,
    line: &[u8],
    around: usize,
    from: u32,
    number: u64,
    first: &Nested,
) -> Result<u32, AllocError>
    requires { IsWithin line.now first.now }
    ensures piece { OnOk result (out.new.items
        ≡ out.old.items ++ piece_before line.now (around + 1) number from (nested_seen first.now)) }
    ensures behind { IfOk result (λ behind. behind ≡ from_behind (around + 1) from (nested_seen first.now)) }
{
    if first.depth - 1 != around {
        return Ok(from);
    }
    push_bytes(out, line, from, first.from)?;
    push_hidden_name(out, number)?;
    Ok(first.to)
}

// None where `from` is behind `to`.
fn push_bytes(out: &mut Vec<u8>, line: &[u8], from: u32, to: u32) -> Result<(), AllocError>
    requires { to ≤ length line.now }
    ensures { OnOk result (out.new.items ≡ out.old.items ++ slice_range line.now from to) }
{
    if from < to {
        out.extend_from_slice(&line[from as usize..to as usize])?;
    }
    Ok(())
}

fn push_hidden_name(out: &mut Vec<u8>, number: u64) -> Result<(), AllocError>
    ensures { OnOk result (out.new.items ≡ out.old.items ++ hidden_name number) }
{
    out.extend_from_slice(b"h_")?;
    push_decimal(out, number)
}

/// Adds the hidden rules of these alternatives of a line.
pub(crate) fn push_hidden_rules(
    lines: &mut Lines,
    line: &[u8],
    origin: u32,
    number: u64,
    nested: &[Nested],
) -> Result<(), AllocError>
    requires inside { AreInside nested.now }
    requires within { All (IsWithin line.now) nested.now }
    requires number { number + length nested.now < 2 ^ 64 }
    ensures { OnOk result (AddsLines lines.old lines.new
        (map (line_of origin) (hidden_rules line.now number (map nested_seen nested.now)))) }
{
    let mut next = number;
    let mut rest = nested;
    while let Some((first, others)) = rest.split_first() {
        push_hidden_rule(lines, line, origin, next, first, others)?;
        next += 1;
        rest = others;
    }
    Ok(())
}

fn push_hidden_rule(
    lines: &mut Lines,
    line: &[u8],
    origin: u32,
    number: u64,
    nested: &Nested,
    others: &[Nested],
) -> Result<(), AllocError>
    requires nested { IsWithin line.now nested.now }
    requires inside { AreInside others.now }
    requires within { All (IsWithin line.now) others.now }
    requires number { number + 1 + length others.now < 2 ^ 64 }
    ensures { OnOk result (AddsLines lines.old lines.new
        (line_of origin (hidden_rule line.now number (nested_seen nested.now) (map nested_seen others.now)) ∷ [])) }
{
    let start = lines.text.len();
    lines.text.extend_from_slice(b"rule ")?;
    push_hidden_name(&mut lines.text, number)?;
    lines.text.extend_from_slice(b" = ")?;
    let span = Span {
        around: nested.depth,
        from: nested.from,
        to: nested.to,
    };
    push_replaced(&mut lines.text, line, span, number + 1, others)?;
    lines.end_line(start, origin)?;
    Ok(())
}

/// Adds a header line with hidden names, the first of this number.
pub(crate) fn push_changed_line(
    lines: &mut Lines,
    line: &[u8],
    origin: u32,
    number: u64,
    nested: &[Nested],
) -> Result<(), AllocError>
    requires short { length line.now ≤ 2 ^ 31 }
    requires inside { AreInside nested.now }
    requires within { All (IsWithin line.now) nested.now }
    requires number { number + length nested.now < 2 ^ 64 }
    ensures { OnOk result (AddsLines lines.old lines.new
        (line_of origin (replaced line.now (length line.now) 1 number 0 (map nested_seen nested.now)) ∷ [])) }
{
    let start = lines.text.len();
    let span = Span {
        around: 0,
        from: 0,
        to: line.len() as u32,
    };
    push_replaced(&mut lines.text, line, span, number, nested)?;
    lines.end_line(start, origin)?;
    Ok(())
}
