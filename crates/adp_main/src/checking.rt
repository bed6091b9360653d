//! A job whose grammar passed its checks under the algebra that the command asks for.
ghost use Rattle.std.specs.Prelude.{◌≡◌, ◌≤◌, length, IfOk, IfErr, IsTrue};
ghost use Rattle.verdicts.specs.Command.{ForWordsOf, ReadsJob};
ghost use Rattle.verdicts.specs.Verdict.{asked_name, greatest_length};
ghost use Rattle.adp_model.specs.WellFormed.{is_name, is_well_formed};
ghost use Rattle.adp_main.specs.Reporting.{IsCheckedJob, IsJobFault, IsJobRefusal, IsPairRefusal};
ghost use Rattle.adp_main.specs.Seconds.{IsSecondOf};

use crate::fault::{grammar_refusal, pair_refusal, text_refusal};
use adp_model::laws::well_formed::{names_are_short_and_printable, parts_have_names};
use adp_model::{Grammar, Sequence, Text};
use grammar_check::{Checked, check};
use lex_product::check_pair;
use nested_jobs::read_nested;
use report::Fault;
use std::alloc::{AllocError, Global};
use verdicts::Command;

/// The checked grammar, that of the second algebra where one is asked for, and the words.
#[derive(Drop)]
pub struct CheckedJob {
    pub checked: Checked,
    pub second: Option<Checked>,
    pub words: Sequence<Text>,
}

/// Reads the job that the bytes spell, and checks its grammar under the algebra that the command asks for, and with the
/// second one where it asks for one.
pub fn checked_job(alloc: Global, command: &Command<'_>, bytes: &[u8]) -> Result<CheckedJob, Fault>
    requires reads { ReadsJob command.now.mode }
    requires fits { length bytes.now ≤ greatest_length }
    ensures job { ForWordsOf command.now (λ words. IfOk result (IsCheckedJob words bytes.now command.now)) }
    ensures second { IfOk result (λ job. IsSecondOf command.now.second job.checked job.second) }
    ensures few_words { IfOk result (λ job. length job.words ≤ 65536) }
    ensures fault { IfErr result IsJobFault }
    ensures refusal { ForWordsOf command.now (λ words. IfErr result (IsJobRefusal words bytes.now)) }
{
    names_are_short_and_printable();
    parts_have_names();
    let job = read_nested(alloc, bytes).map_err(text_refusal)?;
    let name = named_algebra(command, &job.grammar);
    let name = Text::new(Vec::from_slice(alloc, name)?);
    let checked = check(alloc, job.grammar, &name).map_err(grammar_refusal)?;
    let second = second_checked(alloc, command, &checked)?;
    Ok(CheckedJob {
        checked,
        second,
        words: job.words,
    })
}

/// The checked grammar of the second algebra, where the command asks for one.
fn second_checked(
    alloc: Global,
    command: &Command<'_>,
    first: &Checked,
) -> Result<Option<Checked>, Fault>
    ensures second { IfOk result (IsSecondOf command.now.second first.now) }
    ensures fault { IfErr result (IsPairRefusal command.now.second first.now) }
{
    command.in_range();
    first.passes();
    names_are_short_and_printable();
    parts_have_names();
    match command.second {
        None => Ok(None),
        Some(name) => {
            let name = Text::new(Vec::from_slice(alloc, name.as_bytes())?);
            match check_pair(alloc, first, &name) {
                Ok(second) => Ok(Some(second)),
                Err(error) => Err(pair_refusal(error)),
            }
        }
    }
}

/// The name of the algebra that the command asks for, or of the grammar's first.
fn named_algebra<'a>(command: &Command<'a>, grammar: &'a Grammar) -> &'a [u8]
    requires formed { IsTrue (is_well_formed grammar.now) }
    ensures asked { result.now ≡ asked_name command.now grammar.now }
    ensures name { IsTrue (is_name result.now) }
{
    command.in_range();
    match command.algebra {
        Some(name) => name.as_bytes(),
        None => grammar.algebras.as_slice()[0].name.bytes(),
    }
}
