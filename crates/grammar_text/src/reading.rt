ghost use Rattle.std.specs.Prelude.{◌≡◌, ◌^◌, ◌<◌, ◌≤◌, All, length, map, drop};
ghost use Rattle.job_texts.specs.DeclaredNames.{text_lines};
ghost use Rattle.job_texts.specs.JobLines.{words_line_of, words_of};
ghost use Rattle.grammar_text.specs.Collecting.{says_in};
ghost use Rattle.grammar_text.specs.Gathering.{text_seen};
ghost use Rattle.grammar_text.specs.Names.{AreNames, part_count};
ghost use Rattle.grammar_text.specs.Reading.{MatchReading};
ghost use Rattle.grammar_text.specs.Seen.{declaration_seen, words_seen};

use crate::error::TextError;
use crate::reader::first_fault::first_fault;
use crate::reader::gathered::{Gathered, gather};
use crate::reader::job::job_of;
use crate::reader::names::Names;
use adp_model::Job;
use std::alloc::Global;

/// The job of an accepted text, which is a grammar and its words; or the first fault of any other bytes: the least line
/// that has a fault, and the least kind there.
///
/// # Errors
///
/// The fault, or want of memory.
pub fn read_text(alloc: Global, bytes: &[u8]) -> Result<Job, TextError>
    requires { length bytes.now ≤ 2 ^ 31 }
    ensures { MatchReading bytes.now result }
{
    let text = gather(alloc, bytes)?;
    read_gathered(alloc, bytes, &text)
}

// The same of a text whose lines were gathered.
fn read_gathered(alloc: Global, bytes: &[u8], text: &Gathered<'_>) -> Result<Job, TextError>
    requires seen { text_seen text.now ≡ text_lines bytes.now }
    requires says { says_in text.now.header.sorts.items ≡ length text.now.header.declared.items }
    requires few { length text.now.lines.items ≤ 2 ^ 31 }
    requires few_declared { length text.now.header.declared.items ≤ 2 ^ 31 }
    requires parts { All (λ declaration. part_count (declaration_seen declaration) < 2 ^ 32)
        text.now.header.declared.items }
    ensures { MatchReading bytes.now result }
{
    let names = Names::new(alloc, &text.header.declared)?;
    read_named(alloc, bytes, text, &names)
}

// The same of a text that declares these names.
fn read_named(
    alloc: Global,
    bytes: &[u8],
    text: &Gathered<'_>,
    names: &Names<'_>,
) -> Result<Job, TextError>
    requires seen { text_seen text.now ≡ text_lines bytes.now }
    requires says { says_in text.now.header.sorts.items ≡ length text.now.header.declared.items }
    requires few { length text.now.lines.items ≤ 2 ^ 31 }
    requires few_declared { length text.now.header.declared.items ≤ 2 ^ 31 }
    requires parts { All (λ declaration. part_count (declaration_seen declaration) < 2 ^ 32)
        text.now.header.declared.items }
    requires names { AreNames names.now (map declaration_seen text.now.header.declared.items) }
    ensures { MatchReading bytes.now result }
{
    if let Some(fault) = first_fault(alloc, text, names)? {
        return Err(TextError::Fault(fault));
    }
    let declared = &text.header.declared;
    let job = job_of(alloc, bytes, text.version, declared, names, words_of(text))?;
    Ok(job)
}

// The lines behind the `words` line.
fn words_of<'t, 'a>(text: &'t Gathered<'a>) -> &'t [&'a [u8]]
    requires { text.now.words_line ≡ words_line_of (words_seen text.now.lines.items) }
    ensures { words_seen result.now ≡ words_of (words_seen text.now.lines.items) }
{
    match text.words_line {
        Some(number) => behind(&text.lines, number),
        None => &[],
    }
}

fn behind<'l, 'a>(lines: &'l [&'a [u8]], number: usize) -> &'l [&'a [u8]]
    requires { number ≤ length lines.now }
    ensures { result.now ≡ drop number lines.now }
{
    &lines[number..]
}
