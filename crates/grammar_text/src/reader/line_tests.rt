// The tests of a line that look at more than what it declares.

ghost use Rattle.std.specs.Prelude.{◌≡◌, ◌≤◌, ◌+◌, ◌-◌, ◌<◌, ◌^◌, ◌==◌, ◌&&◌, not, get_or, is_none, length, map, Some};
ghost use Rattle.std.specs.List.{list_all, list_any};
ghost use Rattle.job_texts.specs.JobLines as job_lines;
ghost use Rattle.adp_model.specs.Printable.{is_printable_byte};
ghost use Rattle.job_texts.specs.DeclaredNames.{declarations, is_algebra_line};
ghost use Rattle.job_texts.specs.TextFaults as faults;
ghost use Rattle.grammar_text.specs.Collecting.{says_in};
ghost use Rattle.grammar_text.specs.Gathering.{text_seen};
ghost use Rattle.grammar_text.specs.declared.reader.collected.LineSort.TheVariants as sorts;
ghost use Rattle.grammar_text.specs.LineKinds.{AreTestsAlone, is_shapeless_sort, is_unclosed_sort, word_counts};
ghost use Rattle.grammar_text.specs.Names.{first_passing};
ghost use Rattle.grammar_text.specs.Seen.{declaration_seen, words_seen};

use crate::reader::collected::LineSort;
use crate::reader::gathered::Gathered;
use crate::reader::kinds::LineTests;
use crate::reader::repeats::{has_algebra, has_axiom};
use adp_model::is_printable;

/// The first lines of a job's text, in the first format and in the second.
const FIRST_FORMAT: &[u8] = b"adp 1";

const SECOND_FORMAT: &[u8] = b"adp 2";

/// How many words a job has at most.
const MOST_WORDS: usize = 65_536;

/// The line at this place, counted from 0; an empty one where there is none.
fn line_at<'a>(lines: &[&'a [u8]], index: usize) -> &'a [u8]
    requires { index ≤ length lines.now }
    ensures { result.now ≡ job_lines.line_at (words_seen lines.now) (index + 1) }
{
    if index < lines.len() {
        lines[index]
    } else {
        &[]
    }
}

/// What the line at this place is; it is skipped behind the header.
pub(crate) fn sort_at(kinds: &[LineSort], index: usize) -> LineSort
    ensures { result ≡ get_or kinds.now index sorts.Skipped }
{
    if index < kinds.len() {
        kinds[index]
    } else {
        LineSort::Skipped
    }
}

/// Whether line 1 is missing or is no job's first line.
fn is_other_first_line(text: &Gathered<'_>, index: usize) -> bool
    requires { index ≤ length text.now.lines.items }
    ensures { result ≡ faults.has_other_first_line (text_seen text.now) (index + 1) }
{
    index == 0 && !is_first_line(line_at(&text.lines, 0))
}

fn is_first_line(line: &[u8]) -> bool
    ensures { result ≡ job_lines.is_first_line line.now }
{
    line == FIRST_FORMAT || line == SECOND_FORMAT
}

/// Whether a byte of the line is not printable.
fn is_unprintable(text: &Gathered<'_>, index: usize) -> bool
    requires { index ≤ length text.now.lines.items }
    ensures { result ≡ faults.has_unprintable_byte (text_seen text.now) (index + 1) }
{
    !is_printable(line_at(&text.lines, index))
}

/// Whether the text lacks a `words` line, which is told behind its last line.
fn lacks_words_line(text: &Gathered<'_>, index: usize) -> bool
    ensures { result ≡ faults.has_no_words_line (text_seen text.now) (index + 1) }
{
    text.words_line.is_none() && index == text.lines.len()
}

/// Whether this is the `words` line.
fn is_words_line(text: &Gathered<'_>, index: usize) -> bool
    requires { index ≤ length text.now.lines.items }
    ensures { result ≡ faults.is_words_line_number (text_seen text.now) (index + 1) }
{
    match text.words_line {
        Some(words_line) => words_line == index + 1,
        None => false,
    }
}

/// Whether a byte of a header line begins no token, or its tokens match no shape.
fn is_shapeless(text: &Gathered<'_>, index: usize) -> bool
    requires { says_in text.now.header.sorts.items ≡ length text.now.header.declared.items }
    ensures { result ≡ faults.has_no_shape (text_seen text.now) (index + 1) }
{
    is_shapeless_sort(sort_at(&text.header.sorts, index))
}

fn is_shapeless_sort(sort: LineSort) -> bool
    ensures { result ≡ is_shapeless_sort sort }
{
    matches!(sort, LineSort::Shapeless)
}

/// Whether a `"` of a header line begins no quoted text.
fn is_unclosed(text: &Gathered<'_>, index: usize) -> bool
    requires { says_in text.now.header.sorts.items ≡ length text.now.header.declared.items }
    ensures { result ≡ faults.has_unclosed_quote (text_seen text.now) (index + 1) }
{
    is_unclosed_sort(sort_at(&text.header.sorts, index))
}

fn is_unclosed_sort(sort: LineSort) -> bool
    ensures { result ≡ is_unclosed_sort sort }
{
    matches!(sort, LineSort::Unclosed)
}

/// The number of words up to the line, where that is a word's line and passes the limit.
fn passing_words(text: &Gathered<'_>, index: usize) -> Option<u32>
    requires { length text.now.lines.items ≤ 2 ^ 31 }
    ensures { result ≡ first_passing (word_counts (text_seen text.now) (index + 1)) }
{
    let words_line = text.words_line?;
    if index >= text.lines.len() || index < words_line {
        return None;
    }
    let count = index + 1 - words_line;
    if count > MOST_WORDS {
        Some(count as u32)
    } else {
        None
    }
}

/// The tests that look at more than what the line at this place declares.
pub(crate) fn tests_alone(text: &Gathered<'_>, index: usize) -> LineTests
    requires inside { index ≤ length text.now.lines.items }
    requires few { length text.now.lines.items ≤ 2 ^ 31 }
    requires says { says_in text.now.header.sorts.items ≡ length text.now.header.declared.items }
    ensures { AreTestsAlone (text_seen text.now) (map declaration_seen text.now.header.declared.items)
        (index + 1) result }
{
    let ends_header = is_words_line(text, index);
    LineTests {
        other_first_line: is_other_first_line(text, index),
        unprintable: is_unprintable(text, index),
        no_shape: is_shapeless(text, index),
        no_name: false,
        no_number: false,
        unclosed: is_unclosed(text, index),
        repeated: false,
        no_letters: false,
        misplaced: false,
        no_words_line: lacks_words_line(text, index),
        not_one_axiom: ends_header && !has_axiom(&text.header.declared),
        unknown: false,
        misfit: false,
        crossed: false,
        lacks_let: ends_header && !has_algebra(&text.header.declared),
        passing_count: passing_words(text, index),
        twice: false,
    }
}
