// A text cut into lines, with what its header lines say.

ghost use Rattle.std.specs.Prelude.{◌≡◌, ◌≤◌, ◌^◌, ◌∷◌, ◌++◌, [], length, map, All, IfOk, OnOk};
ghost use Rattle.job_texts.specs.JobLines.{job_lines, up_to_words_line};
ghost use Rattle.job_texts.specs.Declarations as forms;
ghost use Rattle.grammar_text.specs.Seen.{declaration_seen, line_seen, words_seen};
ghost use Rattle.grammar_text.specs.Collecting.{header_seen, is_last, says_in, woven};

use crate::reader::declaration::{Declaration, HeaderLine};
use crate::reader::lines::first_line;
use crate::reader::shape::header_line;
use std::alloc::{AllocError, Global};

/// What a header line is, but for what it says.
#[derive(Clone, Copy)]
pub(crate) enum LineSort {
    Skipped,
    Unprintable,
    Unclosed,
    Shapeless,
    Says,
}

/// What line 1, which counts as skipped, and each header line is, and what those that have form say, in order.
#[derive(Drop)]
pub(crate) struct Header<'a> {
    pub(crate) sorts: Vec<LineSort>,
    pub(crate) declared: Vec<Declaration<'a>>,
}

/// The lines of a text.
pub(crate) fn lines_of<'a>(alloc: Global, text: &'a [u8]) -> Result<Vec<&'a [u8]>, AllocError>
    requires { length text.now ≤ 2 ^ 31 }
    ensures lines { IfOk result (λ lines. words_seen lines.items ≡ job_lines text.now) }
    ensures few { IfOk result (λ lines. length lines.items ≤ length text.now) }
    ensures short { IfOk result (λ lines. All (λ line. length line.now ≤ 2 ^ 31) lines.items) }
{
    let mut lines = Vec::new(alloc);
    let mut rest = text;
    while let Some((line, behind)) = first_line(rest) {
        lines.push(line)?;
        rest = behind;
    }
    Ok(lines)
}

/// What the lines behind line 1 of a text of this format are, up to and with the `words` line.
pub(crate) fn header_of<'a>(
    alloc: Global,
    version: u8,
    lines: &[&'a [u8]],
) -> Result<Header<'a>, AllocError>
    requires { All (λ line. length line.now ≤ 2 ^ 31) lines.now }
    ensures seen { IfOk result (λ header.
        header_seen header
        ≡ forms.Skipped ∷ map (forms.header_line version) (up_to_words_line (words_seen lines.now))) }
    ensures says { IfOk result (λ header. says_in header.sorts.items ≡ length header.declared.items) }
{
    let sorts = vec![in alloc; LineSort::Skipped]?;
    let declared = Vec::new(alloc);
    let mut header = Header { sorts, declared };
    for line in lines {
        let found = header_line(alloc, version, line)?;
        if push_line(&mut header, found)? {
            return Ok(header);
        }
    }
    Ok(header)
}

// Adds a line, and answers whether it is the `words` line.
fn push_line<'a>(header: &mut Header<'a>, found: HeaderLine<'a>) -> Result<bool, AllocError>
    requires { says_in header.old.sorts.items ≡ length header.old.declared.items }
    ensures seen { OnOk result (header_seen header.new ≡ header_seen header.old ++ line_seen found.entry ∷ []) }
    ensures says { OnOk result (says_in header.new.sorts.items ≡ length header.new.declared.items) }
    ensures last { IfOk result (λ last. last ≡ is_last (line_seen found.entry)) }
{
    match found {
        HeaderLine::Skipped => {
            push_silent(header, LineSort::Skipped)?;
            Ok(false)
        }
        HeaderLine::Unprintable => {
            push_silent(header, LineSort::Unprintable)?;
            Ok(false)
        }
        HeaderLine::Unclosed => {
            push_silent(header, LineSort::Unclosed)?;
            Ok(false)
        }
        HeaderLine::Shapeless => {
            push_silent(header, LineSort::Shapeless)?;
            Ok(false)
        }
        HeaderLine::Says(declaration) => {
            let last = matches!(declaration, Declaration::Words);
            push_declaration(header, declaration)?;
            Ok(last)
        }
    }
}

// Adds a line that says nothing.
fn push_silent(header: &mut Header<'_>, sort: LineSort) -> Result<(), AllocError>
    requires says { says_in header.old.sorts.items ≡ length header.old.declared.items }
    requires silent { says_in (sort ∷ []) ≡ 0 }
    ensures seen { OnOk result (header_seen header.new ≡ header_seen header.old ++ woven (sort ∷ []) []) }
    ensures says { OnOk result (says_in header.new.sorts.items ≡ length header.new.declared.items) }
{
    header.sorts.push(sort)?;
    Ok(())
}

// Adds a line that has form.
fn push_declaration<'a>(
    header: &mut Header<'a>,
    declaration: Declaration<'a>,
) -> Result<(), AllocError>
    requires { says_in header.old.sorts.items ≡ length header.old.declared.items }
    ensures seen { OnOk result
        (header_seen header.new ≡ header_seen header.old ++ forms.Says (declaration_seen declaration.entry) ∷ []) }
    ensures says { OnOk result (says_in header.new.sorts.items ≡ length header.new.declared.items) }
{
    header.declared.push(declaration)?;
    header.sorts.push(LineSort::Says)?;
    Ok(())
}
