//! The mode `serial`: reports by one sweep over the demanded cells.
ghost use Rattle.std.specs.Prelude.{◌≡◌, IfOk, List, Option, None};
ghost use Rattle.std.specs.Option.{option_copied};
ghost use Rattle.adp_io.specs.Causes.{RisesWhere};
ghost use Rattle.adp_io.specs.Streams.{SameTold};
ghost use Rattle.adp_model.specs.Report.{IsReport};
ghost use Rattle.evaluators.specs.declared.finished.RunNote.{RunNote};
ghost use Rattle.split_lines.specs.Shared.{without_word};
ghost use Rattle.verdicts.specs.declared.command.Mode.TheVariants.{Serial};
ghost use Rattle.verdicts.specs.Command.{Command};
ghost use Rattle.adp_main.specs.Faults.{status_after};
ghost use Rattle.adp_main.specs.RunNotes.{IsRunOf};
ghost use Rattle.adp_main.specs.SharedWords.{IsSharedOf};
ghost use Rattle.adp_main.specs.Writing.{IsWordEnding};
ghost use Rattle.adp_main.specs.declared.status.Status.TheVariants.{WriteFault};

use crate::preparing::prepare;
use crate::reporting::answered_report;
use crate::writing::write_report;
use adp_io::Sink;
use adp_model::Problem;
use report::Fault;
use seq_reference::solve_prepared;
use split_lines::{Prepared, Shared};
use std::alloc::{AllocError, Global};

/// Solves the word on one thread, over what it shares with other words where there is something, and writes its report
/// by one `write_whole`.
pub(crate) fn report_word<K: Sink>(
    alloc: Global,
    number: u32,
    problem: &Problem<'_>,
    shared: Option<&Shared<'_>>,
    out: &mut K,
) -> Result<(), Fault>
    requires { IsSharedOf (without_word problem.now) (option_copied shared) }
    ensures told { SameTold (K.held out.old) (K.held out.new) }
    ensures faults { RisesWhere (K.faults out.old) (K.faults out.new) (status_after result ≡ WriteFault) }
    ensures ending { (command : Command) (runs : Option (List RunNote)) → command.mode ≡ Serial
        → IsWordEnding (IsRunOf command None number problem.now) result runs runs (K.held out.old) (K.held out.new) }
{
    let prepared = prepare(alloc, problem, shared)?;
    let report = swept_report(alloc, number, problem, prepared)?;
    write_report(out, &report)
}

/// The report of a word, of its prepared problem.
pub(crate) fn swept_report<'a>(
    alloc: Global,
    number: u32,
    problem: &Problem<'_>,
    prepared: Prepared<'a>,
) -> Result<Vec<u8>, AllocError>
    requires { prepared ≡ problem.now }
    ensures { IfOk result (λ report. IsReport number problem.now report.items) }
{
    let solved = solve_prepared(alloc, prepared)?;
    answered_report(alloc, number, problem, &solved, solved.cells())
}
