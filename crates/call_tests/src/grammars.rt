//! Calls on a job: its spelling, the checks of its grammar, and what limits its words.

ghost use Rattle.std.specs.Prelude.{IsTrue};
ghost use Rattle.adp_model.specs.WellFormed.{is_well_formed};

use crate::cells::push_problem_call;
use crate::lines::{first_word, numbers, push_field, push_flag, push_no_call, push_text};
use crate::pairs::push_pair;
use adp_model::{Grammar, Job, Text, is_printable, is_well_formed};
use cell_layouts::cell_bound;
use grammar_check::laws::checked_sizes_are_the_sizes;
use grammar_check::{AdmitError, Checked, admit, check, node_bound, score_bound};
use grammar_text::{TextError, read_text, write_text};
use std::alloc::{AllocError, Global};

/// The most bytes of a job.
const MOST_BYTES: usize = 65_536;

/// The most letters of a word that bounds are asked for.
const MOST_LETTERS: u64 = 4000;

/// Appends whether the job is written as it was read.
pub(crate) fn push_spelling(
    alloc: Global,
    text: &str,
    out: &mut Vec<u8>,
) -> Result<(), AllocError> {
    let Some(job) = job_of(alloc, text)? else {
        return push_text(out, " no job");
    };
    push_flag(out, " well-formed", is_well_formed(&job.grammar))?;
    let spelling = write_text(alloc, &job)?;
    push_flag(out, ", the same", spelling.as_slice() == text.as_bytes())
}

/// The job that a text spells.
fn job_of(alloc: Global, text: &str) -> Result<Option<Job>, AllocError> {
    if text.len() > MOST_BYTES {
        return Ok(None);
    }
    match read_text(alloc, text.as_bytes()) {
        Ok(job) => Ok(Some(job)),
        Err(TextError::Fault(_)) => Ok(None),
        Err(TextError::Memory) => Err(AllocError),
    }
}

/// Appends what a call on the grammar of a job gave, checked under its first algebra.
pub(crate) fn push_grammar_call(
    alloc: Global,
    text: &str,
    name: &str,
    rest: &str,
    out: &mut Vec<u8>,
) -> Result<(), AllocError> {
    let Some(Job { grammar, words, .. }) = job_of(alloc, text)? else {
        return push_text(out, " no job");
    };
    match checked_grammar(alloc, grammar)? {
        Some(checked) => push_checked_call(alloc, &checked, words.as_slice(), name, rest, out),
        None => push_text(out, " refused"),
    }
}

fn checked_grammar(alloc: Global, grammar: Grammar) -> Result<Option<Checked>, AllocError>
    requires { IsTrue (is_well_formed grammar) }
{
    let name = match grammar.algebras.as_slice().first() {
        Some(algebra) => Vec::from_slice(alloc, algebra.name.bytes())?,
        None => Vec::new(alloc),
    };
    Ok(check(alloc, grammar, &Text::new(name)).ok())
}

/// Appends what a call on a checked grammar and the words of its job gave, or on a word that the call has.
fn push_checked_call(
    alloc: Global,
    checked: &Checked,
    words: &[Text],
    name: &str,
    rest: &str,
    out: &mut Vec<u8>,
) -> Result<(), AllocError> {
    match name {
        "rules" => push_rules(checked, out),
        "bounds" => push_cell_bounds(checked, &numbers(alloc, rest)?, out),
        "limits" => push_limits(alloc, checked, &numbers(alloc, rest)?, out),
        "admit" => push_admissions(alloc, checked, words, out),
        "both" => push_both(alloc, checked, rest, out),
        _ => {
            let (word, rest) = first_word(rest);
            match quoted_word(alloc, word)? {
                Some(word) => push_word_call(alloc, checked, &word, name, rest, out),
                None => push_no_call(out),
            }
        }
    }
}

/// Appends what the first algebra and another one gave as one, for a word.
fn push_both(
    alloc: Global,
    checked: &Checked,
    rest: &str,
    out: &mut Vec<u8>,
) -> Result<(), AllocError> {
    let (word, name) = first_word(rest);
    match (quoted_word(alloc, word)?, quoted_word(alloc, name)?) {
        (Some(word), Some(name)) => push_pair(alloc, checked, &word, &name, out),
        _ => push_no_call(out),
    }
}

/// Appends of each rule its least and its greatest length, the latter left out where there is none, `^` where it
/// begins with the word, and `$` where it ends with it.
fn push_rules(checked: &Checked, out: &mut Vec<u8>) -> Result<(), AllocError> {
    let greatest = checked.sizes.greatest.as_slice();
    let left = checked.anchors.left.as_slice();
    let right = checked.anchors.right.as_slice();
    for (rule, least) in checked.sizes.least.as_slice().iter().enumerate() {
        push_field(out, " ", u64::from(*least))?;
        push_text(out, "..")?;
        if let Some(Some(greatest)) = greatest.get(rule) {
            push_field(out, "", u64::from(*greatest))?;
        }
        push_side(out, left.get(rule), "^")?;
        push_side(out, right.get(rule), "$")?;
    }
    Ok(())
}

fn push_side(out: &mut Vec<u8>, anchored: Option<&bool>, mark: &str) -> Result<(), AllocError> {
    match anchored {
        Some(true) => push_text(out, mark),
        _ => Ok(()),
    }
}

/// Appends the cell bounds of words of so many letters.
fn push_cell_bounds(
    checked: &Checked,
    lengths: &[u64],
    out: &mut Vec<u8>,
) -> Result<(), AllocError> {
    checked_sizes_are_the_sizes();
    for letters in lengths {
        match *letters {
            letters @ 0..=MOST_LETTERS => {
                let letters = letters as u32;
                let bound = cell_bound(&checked.grammar, &checked.sizes, &checked.anchors, letters);
                push_field(out, " ", bound)?;
            }
            _ => push_no_call(out)?,
        }
    }
    Ok(())
}

/// Appends the bounds on scores and on nodes of words of so many letters.
fn push_limits(
    alloc: Global,
    checked: &Checked,
    lengths: &[u64],
    out: &mut Vec<u8>,
) -> Result<(), AllocError> {
    match lengths {
        [letters @ 0..=MOST_LETTERS] => {
            let letters = *letters as u32;
            push_field(out, " scores ", score_bound(alloc, checked, letters)?)?;
            push_field(out, ", nodes ", node_bound(alloc, checked, letters)?)
        }
        _ => push_no_call(out),
    }
}

/// Appends of each word of the job whether it is admitted, or the limit that it passes.
fn push_admissions(
    alloc: Global,
    checked: &Checked,
    words: &[Text],
    out: &mut Vec<u8>,
) -> Result<(), AllocError> {
    for word in words {
        match admit(alloc, checked, word) {
            Ok(_) => push_text(out, " admitted,")?,
            Err(AdmitError::Fault(fault)) => {
                push_field(out, " limit ", u64::from(fault.kind))?;
                push_field(out, " passed by ", fault.number)?;
            }
            Err(AdmitError::Memory) => return Err(AllocError),
        }
    }
    Ok(())
}

/// The word between quotes.
fn quoted_word(alloc: Global, text: &str) -> Result<Option<Text>, AllocError> {
    match text
        .strip_prefix('"')
        .and_then(|text| text.strip_suffix('"'))
    {
        Some(letters) if is_printable(letters.as_bytes()) => Ok(Some(Text::new(Vec::from_slice(
            alloc,
            letters.as_bytes(),
        )?))),
        _ => Ok(None),
    }
}

/// Appends what a call on a word gave.
fn push_word_call(
    alloc: Global,
    checked: &Checked,
    word: &Text,
    name: &str,
    rest: &str,
    out: &mut Vec<u8>,
) -> Result<(), AllocError> {
    match admit(alloc, checked, word) {
        Ok(problem) => push_problem_call(alloc, &problem, name, rest, out),
        Err(_) => push_text(out, " refused"),
    }
}
