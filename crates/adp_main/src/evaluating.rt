//! What the modes share that answer by evaluators.
ghost use Rattle.std.specs.Prelude.{◌≡◌, ◌++◌, IfOk, ℕ};
ghost use Rattle.std.specs.Option.{option_copied};
ghost use Rattle.verdicts.specs.declared.command.Mode.TheVariants.{Replay};
ghost use Rattle.adp_io.specs.Causes.{RisesWhere};
ghost use Rattle.adp_io.specs.Streams.{SameTold};
ghost use Rattle.adp_model.specs.Report.{IsReport, IsWinsReport, wins_line};
ghost use Rattle.evaluators.specs.Runs.{IsFinished};
ghost use Rattle.split_lines.specs.Shared.{without_word};
ghost use Rattle.adp_main.specs.Faults.{status_after};
ghost use Rattle.adp_main.specs.SharedWords.{IsSharedOf};
ghost use Rattle.adp_main.specs.RunNotes.{IsRunFor};
ghost use Rattle.adp_main.specs.Writing.{IsRunWith, IsWordEnding, IsWrittenWith};
ghost use Rattle.adp_main.specs.declared.status.Status.TheVariants.{WriteFault};

use crate::preparing::prepare;
use crate::reporting::answered_report;
use crate::writing::write_report;
use adp_io::Sink;
use adp_model::Problem;
use adp_model::laws::demand::demanded_cells_are_unique;
use command_words::schedule_entries;
use evaluators::{
    Door, Finished, Gate, NotedRun, run_in_turn, run_prepared, run_schedule, run_workers,
};
use report::{Fault, push_wins};
use split_lines::{Prepared, Shared};
use std::alloc::{AllocError, Global};
use std::thread::Threads;
use verdicts::Command;

/// Solves the problem by evaluators on threads, each of which runs to its end. The gate is passed.
pub(crate) fn run_evaluators<'a, R: Threads + Sync, G: Gate>(
    rt: &R,
    alloc: Global,
    command: &Command<'_>,
    problem: &'a Problem<'a>,
    gate: &G,
) -> Result<Finished<'a>, AllocError>
    requires { command.now.mode ≡ Replay → ⊥ }
    ensures { IfOk result (IsRunFor command.now problem.now) }
{
    command.in_range();
    run_workers(rt, alloc, problem, command.workers, command.seed, gate)
}

/// The same over what the problem shares with other words, where there is something.
pub(crate) fn run_over<'a, R: Threads + Sync, G: Gate>(
    rt: &R,
    alloc: Global,
    command: &Command<'_>,
    problem: &'a Problem<'a>,
    shared: Option<&'a Shared<'a>>,
    gate: &G,
) -> Result<Finished<'a>, AllocError>
    requires mode { command.now.mode ≡ Replay → ⊥ }
    requires shared { IsSharedOf (without_word problem.now) (option_copied shared) }
    ensures { IfOk result (IsRunFor command.now problem.now) }
{
    command.in_range();
    let prepared = prepare(alloc, problem, shared)?;
    run_prepared(rt, alloc, prepared, command.workers, command.seed, gate)
}

/// Solves the prepared problem by evaluators that run to their ends one after the other, on the thread that calls. The door
/// is passed.
pub(crate) fn run_alone<'a, D: Door>(
    alloc: Global,
    command: &Command<'_>,
    prepared: Prepared<'a>,
    door: &D,
) -> Result<Finished<'a>, AllocError>
    requires { command.now.mode ≡ Replay → ⊥ }
    ensures { IfOk result (IsRunFor command.now prepared.entry) }
{
    command.in_range();
    run_in_turn(alloc, prepared, command.workers, command.seed, door)
}

/// Solves the problem by evaluators that are stepped in the order of the command's schedule.
pub(crate) fn follow_schedule<'a>(
    alloc: Global,
    command: &Command<'_>,
    problem: &'a Problem<'a>,
) -> Result<Finished<'a>, AllocError>
    requires { command.now.mode ≡ Replay }
    ensures { IfOk result (IsRunFor command.now problem.now) }
{
    command.in_range();
    let schedule = schedule_entries(alloc, command)?;
    run_schedule(alloc, problem, command.workers, command.seed, &schedule)
}

/// The report of a word that evaluators solved.
pub(crate) fn plain_report(
    alloc: Global,
    number: u32,
    problem: &Problem<'_>,
    finished: &Finished<'_>,
) -> Result<Vec<u8>, AllocError>
    requires { (seed : ℕ) × IsFinished problem.now seed finished.now }
    ensures { IfOk result (λ report. IsReport number problem.now report.items) }
{
    let cells = finished.demanded_cells();
    answered_report(alloc, number, problem, &finished.closed, cells)
}

/// The report of a word that evaluators solved, with the line of their wins behind it.
pub(crate) fn wins_report(
    alloc: Global,
    number: u32,
    problem: &Problem<'_>,
    finished: &Finished<'_>,
) -> Result<Vec<u8>, AllocError>
    requires { (seed : ℕ) × IsFinished problem.now seed finished.now }
    ensures { IfOk result (λ report. IsWinsReport number problem.now finished.now.wins.items report.items) }
{
    let report = plain_report(alloc, number, problem, finished)?;
    with_wins(report, &finished.wins)
}

/// The report with the line of the wins behind it.
fn with_wins(mut report: Vec<u8>, wins: &[u64]) -> Result<Vec<u8>, AllocError>
    ensures { IfOk result (λ whole. whole.items ≡ report.items ++ wins_line wins.now) }
{
    push_wins(&mut report, wins)?;
    Ok(report)
}

/// Writes the report of a run by one `write_whole`, and tells the gate of the run once it is written.
pub(crate) fn write_run<K: Sink, G: Gate>(
    alloc: Global,
    command: &Command<'_>,
    problem: &Problem<'_>,
    finished: &Finished<'_>,
    report: &[u8],
    out: &mut K,
    gate: &mut G,
) -> Result<(), Fault>
    requires { IsRunFor command.now problem.now finished.now }
    ensures told { SameTold (K.held out.old) (K.held out.new) }
    ensures faults { RisesWhere (K.faults out.old) (K.faults out.new) (status_after result ≡ WriteFault) }
    ensures ending { IsWordEnding (IsRunWith command.now problem.now finished.now report.now) result
        (G.runs gate.old) (G.runs gate.new) (K.held out.old) (K.held out.new) }
{
    demanded_cells_are_unique();
    let note = finished.note(alloc, problem, command.seed)?;
    write_noted(report, note, out, gate)
}

/// Writes a report by one `write_whole`, and hands this note to the gate once it is written.
pub(crate) fn write_noted<K: Sink, G: Gate>(
    report: &[u8],
    note: NotedRun,
    out: &mut K,
    gate: &mut G,
) -> Result<(), Fault>
    ensures told { SameTold (K.held out.old) (K.held out.new) }
    ensures faults { RisesWhere (K.faults out.old) (K.faults out.new) (status_after result ≡ WriteFault) }
    ensures ending { IsWordEnding (IsWrittenWith report.now note) result
        (G.runs gate.old) (G.runs gate.new) (K.held out.old) (K.held out.new) }
{
    write_report(out, report)?;
    gate.finished(note)?;
    Ok(())
}
