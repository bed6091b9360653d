// The first fault of a text.

ghost use Rattle.std.specs.Prelude.{◌≡◌, ◌≤◌, ◌+◌, ◌<◌, ◌^◌, ◌∷◌, [], All, IfOk, get_or, length, map, take, true};
ghost use Rattle.job_texts.specs.JobText.{first_fault};
ghost use Rattle.grammar_text.specs.Collecting.{says_in};
ghost use Rattle.grammar_text.specs.Gathering.{text_seen};
ghost use Rattle.grammar_text.specs.JoinedTests.{joined};
ghost use Rattle.grammar_text.specs.LineKinds.{AreLineTests};
ghost use Rattle.grammar_text.specs.Names.{AreNames, part_count};
ghost use Rattle.grammar_text.specs.Seen.{declaration_seen};
ghost use Rattle.grammar_text.specs.declared.reader.collected.LineSort.TheVariants as sorts;

use crate::reader::collected::LineSort;
use crate::reader::faults::{FormTests, OwnWords, form_tests, own_words};
use crate::reader::gathered::Gathered;
use crate::reader::kinds::{LineTests, least_kind};
use crate::reader::line_tests::{sort_at, tests_alone};
use crate::reader::names::Names;
use adp_model::TextFault;
use std::alloc::{AllocError, Global};

/// The first fault of a text that declares these names: the least line with one, and the least kind there.
pub(crate) fn first_fault(
    alloc: Global,
    text: &Gathered<'_>,
    names: &Names<'_>,
) -> Result<Option<TextFault>, AllocError>
    requires few { length text.now.lines.items ≤ 2 ^ 31 }
    requires few_declared { length text.now.header.declared.items ≤ 2 ^ 31 }
    requires says { says_in text.now.header.sorts.items ≡ length text.now.header.declared.items }
    requires names { AreNames names.now (map declaration_seen text.now.header.declared.items) }
    requires parts { All (λ declaration. part_count (declaration_seen declaration) < 2 ^ 32)
        text.now.header.declared.items }
    ensures { IfOk result (λ found. found ≡ first_fault (text_seen text.now)) }
{
    let mut place = 0;
    for index in 0..text.lines.len() + 1 {
        let tests = line_tests(alloc, text, names, index, place)?;
        if let Some(fault) = least_kind(index as u32 + 1, &tests) {
            return Ok(Some(fault));
        }
        place += says_at(&text.header.sorts, index);
    }
    Ok(None)
}

// How many declarations the line at this place makes.
fn says_at(kinds: &[LineSort], index: usize) -> usize
    ensures { result ≡ says_in (get_or kinds.now index sorts.Skipped ∷ []) }
{
    match sort_at(kinds, index) {
        LineSort::Says => 1,
        _ => 0,
    }
}

// The tests of the line at this place, above which stand so many declarations.
fn line_tests(
    alloc: Global,
    text: &Gathered<'_>,
    names: &Names<'_>,
    index: usize,
    place: usize,
) -> Result<LineTests, AllocError>
    requires inside { index ≤ length text.now.lines.items }
    requires few { length text.now.lines.items ≤ 2 ^ 31 }
    requires few_declared { length text.now.header.declared.items ≤ 2 ^ 31 }
    requires says { says_in text.now.header.sorts.items ≡ length text.now.header.declared.items }
    requires names { AreNames names.now (map declaration_seen text.now.header.declared.items) }
    requires parts { All (λ declaration. part_count (declaration_seen declaration) < 2 ^ 32)
        text.now.header.declared.items }
    requires place { place ≡ says_in (take index text.now.header.sorts.items) }
    ensures { IfOk result (λ tests. AreLineTests (text_seen text.now) (index + 1) tests) }
{
    let alone = tests_alone(text, index);
    let LineSort::Says = sort_at(&text.header.sorts, index) else {
        return Ok(alone);
    };
    match own_words(alloc, &text.header.declared[place])? {
        OwnWords::Misnamed => Ok(misnamed(alone)),
        OwnWords::Misnumbered => Ok(misnumbered(alone)),
        own => {
            let form = form_tests(alloc, names, &text.header.declared, place, own)?;
            Ok(joined(alone, form))
        }
    }
}

fn misnamed(alone: LineTests) -> LineTests
    ensures { result ≡ record alone { no_name = true } }
{
    LineTests {
        no_name: true,
        ..alone
    }
}

fn misnumbered(alone: LineTests) -> LineTests
    ensures { result ≡ record alone { no_number = true } }
{
    LineTests {
        no_number: true,
        ..alone
    }
}

// The tests of a line by what it declares, with those that look at more.
fn joined(alone: LineTests, form: FormTests) -> LineTests
    ensures { result ≡ joined alone form }
{
    LineTests {
        repeated: form.repeats,
        no_letters: form.misletters,
        misplaced: form.is_misplaced,
        not_one_axiom: form.is_second_axiom || alone.not_one_axiom,
        unknown: form.uses_unknown,
        misfit: form.misfits,
        crossed: form.has_crossed_run,
        lacks_let: form.lacks_let || alone.lacks_let,
        passing_count: form.passing_count.or(alone.passing_count),
        twice: form.twice,
        ..alone
    }
}
