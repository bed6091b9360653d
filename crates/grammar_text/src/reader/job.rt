// The job that a text without a fault makes.

ghost use Rattle.std.specs.Prelude.{◌≡◌, None, map, IfOk, true};
ghost use Rattle.std.specs.List.{list_all};
ghost use Rattle.job_texts.specs.DeclaredNames.{declarations, text_lines};
ghost use Rattle.job_texts.specs.JobText.{IsText, first_fault};
ghost use Rattle.adp_model.specs.Printable.{is_printable_byte};
ghost use Rattle.grammar_text.specs.Names.{AreNames};
ghost use Rattle.grammar_text.specs.Seen.{declaration_seen, words_seen};

use crate::reader::declaration::Declaration;
use crate::reader::grammar::declared_grammar;
use crate::reader::names::Names;
use adp_model::{Job, Sequence, Text};
use std::alloc::{AllocError, Global};

/// The job of a text without a fault, of this format, which has these declarations, of these names, and these words.
pub(crate) fn job_of(
    alloc: Global,
    text: &[u8],
    version: u8,
    declared: &[Declaration<'_>],
    names: &Names<'_>,
    words: &[&[u8]],
) -> Result<Job, AllocError>
    requires faultless { first_fault (text_lines text.now) ≡ None }
    requires declarations { map declaration_seen declared.now ≡ declarations (text_lines text.now) }
    requires version { version ≡ (text_lines text.now).version }
    requires names { AreNames names.now (map declaration_seen declared.now) }
    requires words { words_seen words.now ≡ (text_lines text.now).words }
    ensures { IfOk result (λ job. IsText text.now job) }
{
    let _ = text;
    let grammar = declared_grammar(alloc, declared, names)?;
    let words = owned(alloc, words)?;
    Ok(Job {
        version,
        grammar,
        words: Sequence::new(words),
    })
}

// Words as texts of their own.
fn owned(alloc: Global, words: &[&[u8]]) -> Result<Vec<Text>, AllocError>
    requires { list_all (list_all is_printable_byte) (words_seen words.now) ≡ true }
    ensures { IfOk result (λ texts. texts.items ≡ words_seen words.now) }
{
    let mut texts = Vec::with_capacity(alloc, words.len())?;
    for word in words {
        texts.push(owned_word(alloc, word)?)?;
    }
    Ok(texts)
}

fn owned_word(alloc: Global, word: &[u8]) -> Result<Text, AllocError>
    requires { list_all is_printable_byte word.now ≡ true }
    ensures { IfOk result (λ text. text ≡ word.now) }
{
    let mut bytes = Vec::with_capacity(alloc, word.len())?;
    bytes.extend_from_slice(word)?;
    Ok(Text::new(bytes))
}
