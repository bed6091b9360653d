//! The mode `wins`: reports by evaluators on threads, with what each of them put into the table.
ghost use Rattle.std.specs.Prelude.{◌≡◌, None};
ghost use Rattle.adp_io.specs.Causes.{RisesWhere};
ghost use Rattle.adp_io.specs.Streams.{SameTold};
ghost use Rattle.verdicts.specs.declared.command.Mode.TheVariants.{Wins};
ghost use Rattle.adp_main.specs.Faults.{status_after};
ghost use Rattle.adp_main.specs.RunNotes.{IsRunOf};
ghost use Rattle.adp_main.specs.Writing.{IsWordEnding};
ghost use Rattle.adp_main.specs.declared.status.Status.TheVariants.{WriteFault};

use crate::evaluating::{run_evaluators, wins_report, write_run};
use adp_io::Sink;
use adp_model::Problem;
use evaluators::Gate;
use report::Fault;
use std::alloc::Global;
use std::thread::Threads;
use verdicts::Command;

/// The same as for `best`, with the wins of the evaluators in the report.
pub(crate) fn report_word<R: Threads + Sync, K: Sink, G: Gate>(
    rt: &R,
    alloc: Global,
    command: &Command<'_>,
    number: u32,
    problem: &Problem<'_>,
    out: &mut K,
    gate: &mut G,
) -> Result<(), Fault>
    requires mode { command.now.mode ≡ Wins }
    ensures told { SameTold (K.held out.old) (K.held out.new) }
    ensures faults { RisesWhere (K.faults out.old) (K.faults out.new) (status_after result ≡ WriteFault) }
    ensures ending { IsWordEnding (IsRunOf command.now None number problem.now) result
        (G.runs gate.old) (G.runs gate.new) (K.held out.old) (K.held out.new) }
{
    let finished = run_evaluators(rt, alloc, command, problem, &*gate)?;
    let report = wins_report(alloc, number, problem, &finished)?;
    write_run(alloc, command, problem, &finished, &report, out, gate)
}
