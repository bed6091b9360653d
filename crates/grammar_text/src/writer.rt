//! The canonical spelling of a job. Each function appends to `out`; after an error, which only want of memory makes,
//! `out` may hold a part of what it appends.

mod algebras;
mod classes;
mod rules;
mod signs;

ghost use Rattle.std.specs.Prelude.{◌≡◌, ◌++◌, IfOk, OnOk};
ghost use Rattle.std.specs.List.{flat_map};
ghost use Rattle.job_texts.specs.JobText.{IsText};
ghost use Rattle.adp_model.specs.Report.{line};
ghost use Rattle.job_texts.specs.Spelling.{grammar_lines, spelling};

use adp_model::{Grammar, Job, Text, push_decimal};
use spelled_texts::spellings_are_read_back;
use std::alloc::{AllocError, Global};

/// The canonical spelling of a job, which is a text of this job. The only error is want of memory.
pub fn write_text(alloc: Global, job: &Job) -> Result<Vec<u8>, AllocError>
    ensures spelled { IfOk result (λ text. text.items ≡ spelling job.now) }
    ensures read_back { IfOk result (λ text. IsText text.items job.now) }
{
    spellings_are_read_back();
    let mut out = Vec::new(alloc);
    out.extend_from_slice(b"adp ")?;
    push_decimal(&mut out, u64::from(job.version))?;
    out.extend_from_slice(b"\n")?;
    push_grammar(&mut out, &job.grammar)?;
    out.extend_from_slice(b"words\n")?;
    push_words(&mut out, job.words.as_slice())?;
    Ok(out)
}

fn push_grammar(out: &mut Vec<u8>, grammar: &Grammar) -> Result<(), AllocError>
    ensures { OnOk result (out.new.items ≡ out.old.items ++ grammar_lines grammar.now) }
{
    let signs = grammar.signs.as_slice();
    classes::push_classes(out, grammar.classes.as_slice())?;
    signs::push_signs(out, signs)?;
    algebras::push_algebras(out, signs, grammar.algebras.as_slice())?;
    rules::push_rules(out, grammar)?;
    rules::push_axiom(out, grammar)
}

fn push_words(out: &mut Vec<u8>, words: &[Text]) -> Result<(), AllocError>
    ensures { OnOk result (out.new.items ≡ out.old.items ++ flat_map line words.now) }
{
    for word in words {
        out.extend_from_slice(word.bytes())?;
        out.push(b'\n')?;
    }
    Ok(())
}
