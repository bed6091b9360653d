ghost use Rattle.std.specs.Prelude.{◌≡◌, ◌≤◌, ℕ, length, Some, IfErr, IfSome, IsErrOf};
ghost use Rattle.verdicts.specs.Verdict.{IsVerdict, greatest_length};
ghost use Rattle.verdicts.specs.CheckableJobs.{IsCheckableInput};
ghost use Rattle.verdicts.specs.Certificates.{behind_reports};
ghost use Rattle.verdicts.specs.Command.{ForWordsOf, ReadsJob};
ghost use Rattle.verdicts.specs.declared.command.Mode.TheVariants.{Verify};
ghost use Rattle.verdicts.specs.Posed.{posed_words};
ghost use Rattle.adp_main.specs.RunNotes.{IsJobNoted, ShowsRuns};
ghost use Rattle.adp_io.specs.Causes.{RisesWhere};
ghost use Rattle.adp_io.specs.Streams.{SameTold};
ghost use Rattle.adp_main.specs.Ending.{IsBeforeWriting, IsOfVerdict, OutputAfter, ShowsFirst, ShowsPart, ShowsVerdict};
ghost use Rattle.adp_main.specs.Faults.{fault_verdict, status_after};
ghost use Rattle.adp_main.specs.Reporting.{IsJobEnding};
ghost use Rattle.adp_main.specs.Seconds.{IsSecondOf};
ghost use Rattle.adp_main.specs.declared.status.Status.TheVariants.{Done, WriteFault};
ghost use Rattle.report.specs.Faults.{HasShortName};

use crate::checking::{CheckedJob, checked_job};
use crate::limits::judge_words;
use crate::writing::write_pieces;
use adp_io::Sink;
use evaluators::Gate;
use report::Fault;
use std::alloc::Global;
use std::thread::Threads;
use verdicts::Command;
use verdicts::laws::{
    asked_grammar_is_unique, command_is_unique, nested_reports_are_the_plain_ones,
    texts_hide_alternatives,
};

/// Reads the job that the bytes spell, checks its grammar, judges its words, and writes their reports, each by one
/// `write_whole`. The gate is told of each run of evaluators.
pub(crate) fn answer_bytes<R: Threads + Sync, K: Sink, G: Gate>(
    rt: &R,
    alloc: Global,
    command: &Command<'_>,
    bytes: &[u8],
    out: &mut K,
    gate: &mut G,
) -> Result<(), Fault>
    requires reads { ReadsJob command.now.mode }
    requires finds { command.now.mode ≡ Verify → ⊥ }
    requires fits { length bytes.now ≤ greatest_length }
    ensures usage { IsErrOf result Fault.Usage → ⊥ }
    ensures read { IsErrOf result Fault.Read → ⊥ }
    ensures writing { OutputAfter K.held K.faults out.old out.new (status_after result) }
    ensures short { IfErr result HasShortName }
    ensures fault { ForWordsOf command.now (λ words. IfErr result (λ fault. IfSome (fault_verdict fault)
        (λ verdict. IsVerdict words bytes.now verdict))) }
    ensures passed { ForWordsOf command.now (λ words. status_after result ≡ Done → IsCheckableInput words bytes.now) }
    ensures verdict { ForWordsOf command.now (λ words. IsOfVerdict (status_after result)
        → ShowsVerdict words bytes.now (status_after result) (K.held out.old) (K.held out.new)) }
    ensures part { ForWordsOf command.now (λ words. IsErrOf result Fault.Write
        → ShowsPart words bytes.now (K.held out.old) (K.held out.new)) }
    ensures first { ForWordsOf command.now (λ words. IsErrOf result Fault.Memory
        → ShowsFirst words bytes.now (K.held out.old) (K.held out.new)) }
    ensures noted { ForWordsOf command.now (λ words. ShowsRuns words (Some bytes.now) (status_after result)
        (G.runs gate.old) (G.runs gate.new) (K.held out.old) (K.held out.new)) }
{
    asked_grammar_is_unique();
    command_is_unique();
    texts_hide_alternatives();
    nested_reports_are_the_plain_ones();
    let job = checked_job(alloc, command, bytes)?;
    job.checked.passes();
    write_job(rt, alloc, command, &job, bytes, out, gate)
}

/// Writes the reports of the words of a checked job, which came with this input, where each word keeps the limits.
fn write_job<R: Threads + Sync, K: Sink, G: Gate>(
    rt: &R,
    alloc: Global,
    command: &Command<'_>,
    job: &CheckedJob,
    input: &[u8],
    out: &mut K,
    gate: &mut G,
) -> Result<(), Fault>
    requires reads { ReadsJob command.now.mode }
    requires finds { command.now.mode ≡ Verify → ⊥ }
    requires few { length job.now.words ≤ 65536 }
    requires second { IsSecondOf command.now.second job.now.checked job.now.second }
    ensures told { SameTold (K.held out.old) (K.held out.new) }
    ensures faults { RisesWhere (K.faults out.old) (K.faults out.new) (status_after result ≡ WriteFault) }
    ensures untouched { IsBeforeWriting (status_after result) → out.new ≡ out.old }
    ensures ending { IsJobEnding command.now job.now.checked.grammar job.now.checked.algebra
        job.now.words input.now result (K.held out.old) (K.held out.new) }
    ensures noted { IsJobNoted command.now
        (posed_words job.now.checked.grammar job.now.checked.algebra job.now.words)
        (behind_reports command.now.mode (length job.now.words) input.now)
        (status_after result) (G.runs gate.old) (G.runs gate.new) (K.held out.old) (K.held out.new) }
{
    let judged = judge_words(alloc, command, job)?;
    write_pieces(rt, alloc, command, job, &judged, input, out, gate)
}
