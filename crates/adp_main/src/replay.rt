//! The mode `replay`: reports with wins, by evaluators that are stepped in the order of a schedule.
ghost use Rattle.std.specs.Prelude.{◌≡◌, None};
ghost use Rattle.adp_io.specs.Causes.{RisesWhere};
ghost use Rattle.adp_io.specs.Streams.{SameTold};
ghost use Rattle.verdicts.specs.declared.command.Mode.TheVariants.{Replay};
ghost use Rattle.adp_main.specs.Faults.{status_after};
ghost use Rattle.adp_main.specs.RunNotes.{IsRunOf};
ghost use Rattle.adp_main.specs.Writing.{IsWordEnding};
ghost use Rattle.adp_main.specs.declared.status.Status.TheVariants.{WriteFault};

use crate::evaluating::{follow_schedule, wins_report, write_run};
use adp_io::Sink;
use adp_model::Problem;
use evaluators::Gate;
use report::Fault;
use std::alloc::Global;
use verdicts::Command;

/// Solves the word by evaluators that follow the schedule, writes its report by one `write_whole`, and tells the gate
/// of their run.
pub(crate) fn report_word<K: Sink, G: Gate>(
    alloc: Global,
    command: &Command<'_>,
    number: u32,
    problem: &Problem<'_>,
    out: &mut K,
    gate: &mut G,
) -> Result<(), Fault>
    requires mode { command.now.mode ≡ Replay }
    ensures told { SameTold (K.held out.old) (K.held out.new) }
    ensures faults { RisesWhere (K.faults out.old) (K.faults out.new) (status_after result ≡ WriteFault) }
    ensures ending { IsWordEnding (IsRunOf command.now None number problem.now) result
        (G.runs gate.old) (G.runs gate.new) (K.held out.old) (K.held out.new) }
{
    let finished = follow_schedule(alloc, command, problem)?;
    let report = wins_report(alloc, number, problem, &finished)?;
    write_run(alloc, command, problem, &finished, &report, out, gate)
}
