//! Calls on two algebras of a job, the first one and another.

ghost use Rattle.lex_product.specs.PairAnswers.{IsPair};

use crate::lines::{push_field, push_signed_field, push_text};
use adp_model::{Answer, Text, axiom_answer};
use grammar_check::{AdmitError, Checked, admit};
use lex_product::{CompileError, PairError, check_pair, compile};
use seq_reference::solve;
use std::alloc::{AllocError, Global};

/// Appends what the first algebra and the one of this name gave for a word: the best score under both as one, or the
/// fault.
pub(crate) fn push_pair(
    alloc: Global,
    first: &Checked,
    word: &Text,
    name: &Text,
    out: &mut Vec<u8>,
) -> Result<(), AllocError> {
    match check_pair(alloc, first, name) {
        Ok(second) => push_compiled(alloc, first, &second, word, out),
        Err(PairError::Fault(fault)) => push_field(out, " fault ", u64::from(fault.kind)),
        Err(PairError::Memory) => Err(AllocError),
    }
}

/// Appends what both algebras as one gave for a word that the second one admits.
fn push_compiled(
    alloc: Global,
    first: &Checked,
    second: &Checked,
    word: &Text,
    out: &mut Vec<u8>,
) -> Result<(), AllocError>
    requires { IsPair first.now second.now }
{
    match admit(alloc, second, word) {
        Ok(problem) => {
            problem.admissible();
            let letters = word.bytes().len() as u32;
            match compile(alloc, first, second, letters) {
                Ok(compiled) => push_best_score(alloc, &compiled, word, out),
                Err(CompileError::Fault(fault)) => push_limit(fault.kind, fault.number, out),
                Err(CompileError::Memory) => Err(AllocError),
            }
        }
        Err(AdmitError::Fault(fault)) => push_limit(fault.kind, fault.number, out),
        Err(AdmitError::Memory) => Err(AllocError),
    }
}

fn push_limit(kind: u8, number: u64, out: &mut Vec<u8>) -> Result<(), AllocError> {
    push_field(out, " limit ", u64::from(kind))?;
    push_field(out, " passed by ", number)
}

/// Appends the best score of the word.
fn push_best_score(
    alloc: Global,
    checked: &Checked,
    word: &Text,
    out: &mut Vec<u8>,
) -> Result<(), AllocError> {
    match admit(alloc, checked, word) {
        Ok(problem) => {
            let solved = solve(alloc, &problem)?;
            match axiom_answer(&problem, &solved) {
                Answer::NoCandidate => push_text(out, " none"),
                Answer::Best { score, .. } => push_signed_field(out, " score ", score),
            }
        }
        Err(AdmitError::Fault(fault)) => push_limit(fault.kind, fault.number, out),
        Err(AdmitError::Memory) => Err(AllocError),
    }
}
