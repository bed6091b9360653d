//! The mode `verify`: a certificate with its job is checked, and what it tells of each word is written.
ghost use Rattle.std.specs.Prelude.{◌≡◌, ℕ, ◌+◌, ◌<◌, ◌≤◌, ◌^◌, All, IfErr, IfSome, IsErrOf, length};
ghost use Rattle.adp_io.specs.Causes.{RisesWhere};
ghost use Rattle.adp_io.specs.Streams.{SameTold};
ghost use Rattle.adp_model.specs.ProblemFields.{KeepsLimits};
ghost use Rattle.report.specs.Faults.{HasShortName};
ghost use Rattle.verdicts.specs.Command.{ForWordsOf};
ghost use Rattle.verdicts.specs.Verdict.{IsVerdict, greatest_length};
ghost use Rattle.verdicts.specs.declared.command.Mode.TheVariants.{Verify};
ghost use Rattle.adp_main.specs.Ending.{IsBeforeWriting, IsOfVerdict, OutputAfter, ShowsFirst, ShowsPart, ShowsVerdict};
ghost use Rattle.adp_main.specs.Faults.{fault_verdict, status_after};
ghost use Rattle.adp_main.specs.Reporting.{HasWritten};
ghost use Rattle.adp_main.specs.Seconds.{IsSecondOf};
ghost use Rattle.adp_main.specs.Verifying.{IsCertificateEnding, score_reports, verify_refusal};
ghost use Rattle.adp_main.specs.declared.status.Status.TheVariants.{WriteFault};

use crate::checking::{CheckedJob, checked_job};
use crate::limits::judge_words;
use crate::writing::write_report;
use adp_io::Sink;
use report::Fault;
use std::alloc::Global;
use table_certificate::laws::right_certificates_part_at_job;
use table_certificate::{VerifyError, score_report, split_input, verify_all};
use verdicts::Command;
use verdicts::laws::{
    asked_grammar_is_unique, command_is_unique, nested_reports_are_the_plain_ones,
    texts_hide_alternatives,
};

/// Checks the certificate that stands before the line `job`, with the job behind it, and writes the best score of each
/// word, each by one `write_whole`.
pub(crate) fn answer_certificate<K: Sink>(
    alloc: Global,
    command: &Command<'_>,
    bytes: &[u8],
    out: &mut K,
) -> Result<(), Fault>
    requires mode { command.now.mode ≡ Verify }
    requires fits { length bytes.now ≤ greatest_length }
    ensures usage { IsErrOf result Fault.Usage → ⊥ }
    ensures read { IsErrOf result Fault.Read → ⊥ }
    ensures writing { OutputAfter K.held K.faults out.old out.new (status_after result) }
    ensures short { IfErr result HasShortName }
    ensures fault { ForWordsOf command.now (λ words. IfErr result (λ fault. IfSome (fault_verdict fault)
        (λ verdict. IsVerdict words bytes.now verdict))) }
    ensures verdict { ForWordsOf command.now (λ words. IsOfVerdict (status_after result)
        → ShowsVerdict words bytes.now (status_after result) (K.held out.old) (K.held out.new)) }
    ensures part { ForWordsOf command.now (λ words. IsErrOf result Fault.Write
        → ShowsPart words bytes.now (K.held out.old) (K.held out.new)) }
    ensures first { ForWordsOf command.now (λ words. IsErrOf result Fault.Memory
        → ShowsFirst words bytes.now (K.held out.old) (K.held out.new)) }
{
    asked_grammar_is_unique();
    command_is_unique();
    right_certificates_part_at_job();
    texts_hide_alternatives();
    nested_reports_are_the_plain_ones();
    let (certificate, text) = match split_input(bytes) {
        Ok(parts) => parts,
        Err(rejected) => return Err(Fault::Rejected {
            line: rejected.line,
        }),
    };
    let job = checked_job(alloc, command, text)?;
    job.checked.passes();
    tell_words(alloc, command, certificate, &job, out)
}

/// Judges the words of a checked job, and the certificate, and writes what that tells of them.
fn tell_words<K: Sink>(
    alloc: Global,
    command: &Command<'_>,
    certificate: &[u8],
    job: &CheckedJob,
    out: &mut K,
) -> Result<(), Fault>
    requires mode { command.now.mode ≡ Verify }
    requires few { length job.now.words ≤ 65536 }
    requires fits { length certificate.now ≤ greatest_length }
    requires second { IsSecondOf command.now.second job.now.checked job.now.second }
    ensures told { SameTold (K.held out.old) (K.held out.new) }
    ensures faults { RisesWhere (K.faults out.old) (K.faults out.new) (status_after result ≡ WriteFault) }
    ensures untouched { IsBeforeWriting (status_after result) → out.new ≡ out.old }
    ensures ending { IsCertificateEnding command.now job.now.checked.grammar job.now.checked.algebra
        job.now.words certificate.now result (K.held out.old) (K.held out.new) }
{
    command.in_range();
    judge_words(alloc, command, job)?;
    let words = job.words.as_slice();
    let scores = match verify_all(alloc, certificate, &job.checked, words) {
        Ok(scores) => scores,
        Err(error) => return Err(verify_refusal(error)),
    };
    write_scores(alloc, &scores, out)
}

/// The fault of a certificate that was not accepted.
fn verify_refusal(error: VerifyError) -> Fault
    ensures { result ≡ verify_refusal error }
{
    match error {
        VerifyError::Rejected(rejected) => Fault::Rejected {
            line: rejected.line,
        },
        VerifyError::Memory => Fault::Memory,
    }
}

/// Writes the reports of words with these best scores, the first of which has number 1, each by one `write_whole`.
fn write_scores<K: Sink>(alloc: Global, scores: &[Option<i64>], out: &mut K) -> Result<(), Fault>
    requires few { length scores.now ≤ 65536 }
    ensures told { SameTold (K.held out.old) (K.held out.new) }
    ensures faults { RisesWhere (K.faults out.old) (K.faults out.new) (status_after result ≡ WriteFault) }
    ensures written { HasWritten result (K.held out.old) (K.held out.new) (score_reports 1 scores.now) }
{
    for (place, score) in scores.iter().enumerate() {
        let report = score_report(alloc, place as u32 + 1, *score)?;
        write_report(out, &report)?;
    }
    Ok(())
}
