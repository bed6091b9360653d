//! The mode `cert`: certificates by evaluators on threads, the block of each word and the job behind them.
ghost use Rattle.std.specs.Prelude.{◌≡◌, ◌++◌, ℕ, None, IfOk};
ghost use Rattle.std.specs.Option.{option_copied};
ghost use Rattle.adp_io.specs.Causes.{RisesWhere};
ghost use Rattle.adp_io.specs.Streams.{SameTold};
ghost use Rattle.adp_model.specs.Report.{line};
ghost use Rattle.evaluators.specs.Runs.{IsFinished};
ghost use Rattle.split_lines.specs.Shared.{without_word};
ghost use Rattle.verdicts.specs.Certificates.{IsBlockReport, behind_blocks};
ghost use Rattle.verdicts.specs.declared.command.Mode.TheVariants.{Cert};
ghost use Rattle.adp_main.specs.Faults.{status_after};
ghost use Rattle.adp_main.specs.Reporting.{HasWritten};
ghost use Rattle.adp_main.specs.RunNotes.{IsRunOf};
ghost use Rattle.adp_main.specs.SharedWords.{IsSharedOf};
ghost use Rattle.adp_main.specs.Writing.{IsWordEnding};
ghost use Rattle.adp_main.specs.declared.status.Status.TheVariants.{WriteFault};

use crate::evaluating::{run_over, write_run};
use crate::preparing::laid_out;
use crate::writing::write_report;
use adp_io::Sink;
use adp_model::Problem;
use cell_layouts::Layout;
use evaluators::{Finished, Gate};
use report::Fault;
use split_lines::Shared;
use std::alloc::{AllocError, Global};
use std::thread::Threads;
use table_certificate::certificate;
use verdicts::Command;

/// Solves the word by evaluators, writes its block by one `write_whole`, and tells the gate of their run.
pub(crate) fn report_word<R: Threads + Sync, K: Sink, G: Gate>(
    rt: &R,
    alloc: Global,
    command: &Command<'_>,
    number: u32,
    problem: &Problem<'_>,
    shared: Option<&Shared<'_>>,
    out: &mut K,
    gate: &mut G,
) -> Result<(), Fault>
    requires mode { command.now.mode ≡ Cert }
    requires shared { IsSharedOf (without_word problem.now) (option_copied shared) }
    ensures told { SameTold (K.held out.old) (K.held out.new) }
    ensures faults { RisesWhere (K.faults out.old) (K.faults out.new) (status_after result ≡ WriteFault) }
    ensures ending { IsWordEnding (IsRunOf command.now None number problem.now) result
        (G.runs gate.old) (G.runs gate.new) (K.held out.old) (K.held out.new) }
{
    let finished = run_over(rt, alloc, command, problem, shared, &*gate)?;
    let layout = laid_out(alloc, problem, shared)?;
    let report = block_report(alloc, number, &layout, &finished)?;
    write_run(alloc, command, problem, &finished, &report, out, gate)
}

/// The block of a word that is laid out and that evaluators solved; before that of the first word stands the line `cert`.
pub(crate) fn block_report(
    alloc: Global,
    number: u32,
    layout: &Layout<'_>,
    finished: &Finished<'_>,
) -> Result<Vec<u8>, AllocError>
    requires { (seed : ℕ) × IsFinished layout.now seed finished.now }
    ensures { IfOk result (λ report. IsBlockReport number layout.now report.items) }
{
    let block = certificate(alloc, number, layout, &finished.closed)?;
    if number == 1 {
        behind_line(alloc, b"cert\n", &block)
    } else {
        Ok(block)
    }
}

/// The text behind a line.
fn behind_line(alloc: Global, line: &[u8], text: &[u8]) -> Result<Vec<u8>, AllocError>
    ensures { IfOk result (λ whole. whole.items ≡ line.now ++ text.now) }
{
    let mut whole = Vec::from_slice(alloc, line)?;
    whole.extend_from_slice(text)?;
    Ok(whole)
}

/// Writes what stands behind the blocks of so many words: the line `job` with the input as it came, by one
/// `write_whole`; and before it the line `cert`, where no word has it.
pub(crate) fn write_input<K: Sink>(
    alloc: Global,
    words: usize,
    input: &[u8],
    out: &mut K,
) -> Result<(), Fault>
    ensures told { SameTold (K.held out.old) (K.held out.new) }
    ensures faults { RisesWhere (K.faults out.old) (K.faults out.new) (status_after result ≡ WriteFault) }
    ensures written { HasWritten result (K.held out.old) (K.held out.new) (behind_blocks words input.now) }
{
    let job = behind_line(alloc, b"job\n", input)?;
    if words > 0 {
        return write_report(out, &job);
    }
    write_report(out, b"cert\n")?;
    write_report(out, &job)
}
