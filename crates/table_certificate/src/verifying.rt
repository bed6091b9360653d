//! Certificates, checked line by line.

ghost use Rattle.std.specs.Prelude.{◌≡◌, ◌-◌, ◌<◌, ◌≤◌, ◌^◌, All, IfErr, IfOk, IsTrue, MatchResult, length};
ghost use Rattle.adp_model.specs.ProblemFields.{KeepsLimits};
ghost use Rattle.adp_model.specs.WellFormed.{is_well_formed};
ghost use Rattle.grammar_check.specs.Admitted.{IsProblemOf};
ghost use Rattle.table_certificate.specs.BestScores.{AreBestScores};
ghost use Rattle.table_certificate.specs.CertificateLines.{forms_of};
ghost use Rattle.table_certificate.specs.LocalCertificate.{AreTold, IsLocallyRight, blocks_of};
ghost use Rattle.table_certificate.specs.Verified.{IsBehindCert, IsFalseBegin, IsFalseLine, IsRejection, problems_of};

use crate::blocks::Outcome;
use crate::forms::{Form, next_form, next_line};
use crate::job_split::Rejected;
use crate::laws::right_certificates_tell_best_scores;
use crate::written_blocks::verify_block;
use adp_model::laws::limits::limits_are_kept_or_passed;
use adp_model::{Grammar, Problem, Text};
use grammar_check::{AdmitError, Checked, admit};
use std::alloc::{AllocError, AllocFailed, Global};
use thiserror::Error;

/// Why a certificate was not accepted: it is not right, or want of memory.
#[derive(Clone, Copy, Debug, PartialEq, Eq, Error)]
pub enum VerifyError {
    #[error("the certificate is not right")]
    Rejected(Rejected),
    #[error("out of memory")]
    Memory,
}

impl From<AllocError> for VerifyError {
    ghost use Rattle.table_certificate.specs.declared.verifying.VerifyError.TheVariants.{Memory};

    ghost from_gives = { λ _ e. e ≡ Memory };

    fn from(_e: AllocError) -> VerifyError {
        VerifyError::Memory
    }
}

impl<T: Drop> From<AllocFailed<T>> for VerifyError {
    ghost use Rattle.table_certificate.specs.declared.verifying.VerifyError.TheVariants.{Memory};

    ghost from_gives = { λ _ e. e ≡ Memory };

    fn from(_e: AllocFailed<T>) -> VerifyError {
        VerifyError::Memory
    }
}

/// The line behind so many others is the first that is false.
fn false_line(place: u32) -> VerifyError
    requires { place < 2 ^ 32 - 1 }
    ensures { IsFalseLine place result }
{
    VerifyError::Rejected(Rejected { line: place + 1 })
}

/// What stands behind the first line, where that is `cert`, and no line stands before the next head of a block; else the
/// place of the first line that is false.
fn behind_cert<'t>(grammar: &Grammar, text: &'t [u8]) -> Result<&'t [u8], u32>
    requires { IsTrue (is_well_formed grammar.now) }
    ensures { MatchResult result (λ behind. IsBehindCert grammar.now text.now behind.now)
        (IsFalseBegin grammar.now text.now) }
{
    let Some((form, behind)) = next_form(grammar, text) else {
        return Err(0);
    };
    match form {
        Form::Cert => {}
        Form::Word { .. } | Form::Cell { .. } | Form::Formless => return Err(0),
    }
    match next_line(grammar, behind) {
        None => Ok(behind),
        Some(_) => Err(1),
    }
}

/// The problem of a word that keeps the limits.
fn problem_of<'a>(
    alloc: Global,
    checked: &'a Checked,
    word: &'a Text,
) -> Result<Problem<'a>, AllocError>
    requires { KeepsLimits checked.now.grammar checked.now.algebra (length word.now) }
    ensures { IfOk result (IsProblemOf checked.now word.now) }
{
    checked.passes();
    limits_are_kept_or_passed();
    match admit(alloc, checked, word) {
        Ok(problem) => Ok(problem),
        Err(AdmitError::Memory) => Err(AllocError),
        Err(AdmitError::Fault(_)) => unreachable!(),
    }
}

/// What a certificate tells of each word: its best score, `None` where it has no candidate. The certificate is the bytes
/// before a job's line `job`. It is accepted exactly where it is locally right.
///
/// # Errors
///
/// `Rejected` where it is not locally right: its first false line, where each line is judged with its whole block at
/// hand. `Memory` where there is no memory.
pub fn verify_all(
    alloc: Global,
    bytes: &[u8],
    checked: &Checked,
    words: &[Text],
) -> Result<Vec<Option<i64>>, VerifyError>
    requires limits { All (λ word. KeepsLimits checked.now.grammar checked.now.algebra (length word)) words.now }
    requires few { length bytes.now ≤ 2 ^ 31 }
    ensures right { IfOk result (λ values. IsLocallyRight (problems_of checked.now words.now)
        (forms_of checked.now.grammar bytes.now)) }
    ensures told { IfOk result (λ values. AreTold (problems_of checked.now words.now)
        (blocks_of (forms_of checked.now.grammar bytes.now)) values.items) }
    ensures best { IfOk result (λ values. AreBestScores (problems_of checked.now words.now) values.items) }
    ensures rejected { IfErr result (IsRejection (problems_of checked.now words.now)
        (forms_of checked.now.grammar bytes.now)) }
{
    checked.passes();
    right_certificates_tell_best_scores();
    let mut rest = match behind_cert(&checked.grammar, bytes) {
        Ok(behind) => behind,
        Err(place) => return Err(false_line(place)),
    };
    let mut place: u32 = 1;
    let mut values = Vec::new(alloc);
    for (index, word) in words.iter().enumerate() {
        let problem = problem_of(alloc, checked, word)?;
        match verify_block(alloc, &problem, index as u32 + 1, rest)? {
            Outcome::FirstFalse(count) => return Err(false_line(place + count)),
            Outcome::Right {
                value,
                lines,
                behind,
            } => {
                values.push(value)?;
                place += lines;
                rest = behind;
            }
        }
    }
    if rest.is_empty() {
        Ok(values)
    } else {
        Err(false_line(place))
    }
}
