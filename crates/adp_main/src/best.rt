//! The mode `best`: reports by evaluators on threads that share a table.
ghost use Rattle.std.specs.Prelude.{◌≡◌, None};
ghost use Rattle.std.specs.Option.{option_copied};
ghost use Rattle.adp_io.specs.Causes.{RisesWhere};
ghost use Rattle.adp_io.specs.Streams.{SameTold};
ghost use Rattle.split_lines.specs.Shared.{without_word};
ghost use Rattle.verdicts.specs.declared.command.Mode.TheVariants.{Best};
ghost use Rattle.adp_main.specs.Faults.{status_after};
ghost use Rattle.adp_main.specs.RunNotes.{IsRunOf};
ghost use Rattle.adp_main.specs.SharedWords.{IsSharedOf};
ghost use Rattle.adp_main.specs.Writing.{IsWordEnding};
ghost use Rattle.adp_main.specs.declared.status.Status.TheVariants.{WriteFault};

use crate::evaluating::{plain_report, run_over, write_run};
use adp_io::Sink;
use adp_model::Problem;
use evaluators::Gate;
use report::Fault;
use split_lines::Shared;
use std::alloc::Global;
use std::thread::Threads;
use verdicts::Command;

/// Solves the word by evaluators, writes its report by one `write_whole`, and tells the gate of their run.
pub(crate) fn report_word<R: Threads + Sync, K: Sink, G: Gate>(
    rt: &R,
    alloc: Global,
    command: &Command<'_>,
    number: u32,
    problem: &Problem<'_>,
    shared: Option<&Shared<'_>>,
    out: &mut K,
    gate: &mut G,
) -> Result<(), Fault>
    requires mode { command.now.mode ≡ Best }
    requires shared { IsSharedOf (without_word problem.now) (option_copied shared) }
    ensures told { SameTold (K.held out.old) (K.held out.new) }
    ensures faults { RisesWhere (K.faults out.old) (K.faults out.new) (status_after result ≡ WriteFault) }
    ensures ending { IsWordEnding (IsRunOf command.now None number problem.now) result
        (G.runs gate.old) (G.runs gate.new) (K.held out.old) (K.held out.new) }
{
    let finished = run_over(rt, alloc, command, problem, shared, &*gate)?;
    let report = plain_report(alloc, number, problem, &finished)?;
    write_run(alloc, command, problem, &finished, &report, out, gate)
}
