// A text, line by line.

ghost use Rattle.std.specs.Prelude.{◌≡◌, ◌<◌, ◌≤◌, ◌^◌, length, drop, map, All, IfOk};
ghost use Rattle.std.specs.List.{list_any};
ghost use Rattle.job_texts.specs.DeclaredNames.{text_lines};
ghost use Rattle.grammar_text.specs.Collecting.{header_seen, says_in};
ghost use Rattle.grammar_text.specs.Gathering.{is_words_declaration, text_seen, words_line_in};
ghost use Rattle.grammar_text.specs.Names.{part_count};
ghost use Rattle.job_texts.specs.JobLines.{is_second_format, version_of};
ghost use Rattle.grammar_text.specs.Seen.{declaration_seen, words_seen};

use crate::reader::collected::{Header, header_of, lines_of};
use crate::reader::declaration::Declaration;
use std::alloc::{AllocError, Global};

/// The format of a text, its lines, what line 1 and each header line is, and the number of the `words` line, counted from 1.
#[derive(Drop)]
pub(crate) struct Gathered<'a> {
    pub(crate) version: u8,
    pub(crate) lines: Vec<&'a [u8]>,
    pub(crate) header: Header<'a>,
    pub(crate) words_line: Option<usize>,
}

/// A text, line by line.
pub(crate) fn gather<'a>(alloc: Global, text: &'a [u8]) -> Result<Gathered<'a>, AllocError>
    requires { length text.now ≤ 2 ^ 31 }
    ensures seen { IfOk result (λ gathered. text_seen gathered ≡ text_lines text.now) }
    ensures says { IfOk result (λ gathered.
        says_in gathered.header.sorts.items ≡ length gathered.header.declared.items) }
    ensures few { IfOk result (λ gathered. length gathered.lines.items ≤ length text.now) }
    ensures declared { IfOk result (λ gathered. length gathered.header.declared.items ≤ length text.now) }
    ensures parts { IfOk result (λ gathered. All (λ declaration. part_count (declaration_seen declaration) < 2 ^ 32)
        gathered.header.declared.items) }
{
    let lines = lines_of(alloc, text)?;
    let version = version_of(&lines);
    let header = header_of(alloc, version, behind_first(&lines))?;
    let words_line = words_line_of(&header);
    Ok(Gathered {
        version,
        lines,
        header,
        words_line,
    })
}

// The format of a text, by its line 1.
fn version_of(lines: &[&[u8]]) -> u8
    ensures { result ≡ version_of (words_seen lines.now) }
{
    match lines {
        [first, ..] if is_second_format(first) => 2,
        _ => 1,
    }
}

fn is_second_format(line: &[u8]) -> bool
    ensures { result ≡ is_second_format line.now }
{
    line == b"adp 2".as_slice()
}

fn behind_first<'l, 'a>(lines: &'l [&'a [u8]]) -> &'l [&'a [u8]]
    ensures { result.now ≡ drop 1 lines.now }
{
    match lines {
        [_, others @ ..] => others,
        [] => lines,
    }
}

fn words_line_of(header: &Header<'_>) -> Option<usize>
    requires { says_in header.now.sorts.items ≡ length header.now.declared.items }
    ensures { result ≡ words_line_in (header_seen header.now) }
{
    if has_words(&header.declared) {
        Some(header.sorts.len())
    } else {
        None
    }
}

fn has_words(declared: &[Declaration<'_>]) -> bool
    ensures { result ≡ list_any is_words_declaration (map declaration_seen declared.now) }
{
    for declaration in declared {
        if is_words(declaration) {
            return true;
        }
    }
    false
}

fn is_words(declaration: &Declaration<'_>) -> bool
    ensures { result ≡ is_words_declaration (declaration_seen declaration.now) }
{
    matches!(declaration, Declaration::Words)
}
