//! The mode `kbest`: the first trees of each word.
ghost use Rattle.std.specs.Prelude.{◌≡◌, IfOk, List, None, Option};
ghost use Rattle.std.specs.Option.{option_copied};
ghost use Rattle.adp_io.specs.Causes.{RisesWhere};
ghost use Rattle.adp_io.specs.Streams.{SameTold};
ghost use Rattle.evaluators.specs.declared.finished.RunNote.{RunNote};
ghost use Rattle.first_trees.specs.ListReport.{IsListReport};
ghost use Rattle.split_lines.specs.Shared.{without_word};
ghost use Rattle.verdicts.specs.declared.command.Mode.TheVariants.{KBest};
ghost use Rattle.adp_main.specs.Faults.{status_after};
ghost use Rattle.adp_main.specs.RunNotes.{IsRunOf};
ghost use Rattle.adp_main.specs.SharedWords.{IsSharedOf};
ghost use Rattle.adp_main.specs.Writing.{IsWordEnding};
ghost use Rattle.adp_main.specs.declared.status.Status.TheVariants.{WriteFault};

use crate::preparing::prepare;
use crate::writing::write_report;
use adp_io::Sink;
use adp_model::Problem;
use k_best::first_trees_report;
use report::Fault;
use split_lines::{Prepared, Shared};
use std::alloc::{AllocError, Global};
use verdicts::Command;

/// Finds the first trees of the word, over what it shares with other words where there is something, and writes their
/// report by one `write_whole`.
pub(crate) fn report_word<K: Sink>(
    alloc: Global,
    command: &Command<'_>,
    number: u32,
    problem: &Problem<'_>,
    shared: Option<&Shared<'_>>,
    out: &mut K,
) -> Result<(), Fault>
    requires mode { command.now.mode ≡ KBest }
    requires shared { IsSharedOf (without_word problem.now) (option_copied shared) }
    ensures told { SameTold (K.held out.old) (K.held out.new) }
    ensures faults { RisesWhere (K.faults out.old) (K.faults out.new) (status_after result ≡ WriteFault) }
    ensures ending { (runs : Option (List RunNote)) → IsWordEnding (IsRunOf command.now None number problem.now) result
        runs runs (K.held out.old) (K.held out.new) }
{
    let prepared = prepare(alloc, problem, shared)?;
    let report = listed_report(alloc, command, number, prepared)?;
    write_report(out, &report)
}

/// The report of the word, of its prepared problem.
fn listed_report(
    alloc: Global,
    command: &Command<'_>,
    number: u32,
    prepared: Prepared<'_>,
) -> Result<Vec<u8>, AllocError>
    ensures { IfOk result (λ report. IsListReport number prepared.entry command.now.best report.items) }
{
    command.in_range();
    first_trees_report(alloc, number, prepared, command.best)
}
