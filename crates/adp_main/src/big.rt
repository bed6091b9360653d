//! The mode `big`: the word that is made from a seed and a size, answered by evaluators.
ghost use Rattle.std.specs.Prelude.{◌≡◌, IfOk};
ghost use Rattle.adp_io.specs.Causes.{RisesWhere};
ghost use Rattle.adp_io.specs.Streams.{SameTold};
ghost use Rattle.adp_model.specs.BigReport.{IsBigReport, made_problem, pairs_grammar};
ghost use Rattle.verdicts.specs.declared.command.Mode.TheVariants.{Big};
ghost use Rattle.adp_main.specs.Faults.{status_after};
ghost use Rattle.adp_main.specs.RunNotes.{IsBigRun, IsRunFor};
ghost use Rattle.adp_main.specs.Writing.{IsWordEnding};
ghost use Rattle.adp_main.specs.declared.status.Status.TheVariants.{WriteFault};

use crate::admitting::admitted;
use crate::evaluating::{run_evaluators, write_run};
use adp_io::Sink;
use adp_model::{Answer, Problem, Text};
use big_problems::laws::{made_words_have_trees, made_words_keep_the_limits, pairs_are_faultless};
use big_problems::{made_word, pairs_grammar};
use evaluators::{Finished, Gate};
use grammar_check::{BoundRows, CheckError, Checked, check};
use report::{Fault, big_report};
use std::alloc::{AllocError, Global};
use std::thread::Threads;
use verdicts::Command;

/// Writes the report of the word that is made, by one `write_whole`, and tells the gate of the run.
pub(crate) fn answer_big<R: Threads + Sync, K: Sink, G: Gate>(
    rt: &R,
    alloc: Global,
    command: &Command<'_>,
    out: &mut K,
    gate: &mut G,
) -> Result<(), Fault>
    requires makes { command.now.mode ≡ Big }
    ensures told { SameTold (K.held out.old) (K.held out.new) }
    ensures faults { RisesWhere (K.faults out.old) (K.faults out.new) (status_after result ≡ WriteFault) }
    ensures ending { IsWordEnding (IsBigRun command.now) result
        (G.runs gate.old) (G.runs gate.new) (K.held out.old) (K.held out.new) }
{
    command.in_range();
    made_words_keep_the_limits();
    let checked = checked_pairs(alloc)?;
    let word = made_word(alloc, command.seed, command.size)?;
    let rows = BoundRows::new(alloc, &checked, command.size)?;
    let problem = admitted(&checked, &rows, &word);
    report_made(rt, alloc, command, &problem, out, gate)
}

/// Solves the problem of the word that is made, writes its report by one `write_whole`, and tells the gate of the run.
fn report_made<R: Threads + Sync, K: Sink, G: Gate>(
    rt: &R,
    alloc: Global,
    command: &Command<'_>,
    problem: &Problem<'_>,
    out: &mut K,
    gate: &mut G,
) -> Result<(), Fault>
    requires makes { command.now.mode ≡ Big }
    requires made { problem.now ≡ made_problem command.now.seed command.now.size }
    ensures told { SameTold (K.held out.old) (K.held out.new) }
    ensures faults { RisesWhere (K.faults out.old) (K.faults out.new) (status_after result ≡ WriteFault) }
    ensures ending { IsWordEnding (IsBigRun command.now) result
        (G.runs gate.old) (G.runs gate.new) (K.held out.old) (K.held out.new) }
{
    let finished = run_evaluators(rt, alloc, command, problem, &*gate)?;
    let report = made_report(alloc, command, problem, &finished)?;
    write_run(alloc, command, problem, &finished, &report, out, gate)
}

/// The report of the word.
fn made_report(
    alloc: Global,
    command: &Command<'_>,
    problem: &Problem<'_>,
    finished: &Finished<'_>,
) -> Result<Vec<u8>, AllocError>
    requires made { problem.now ≡ made_problem command.now.seed command.now.size }
    requires finished { IsRunFor command.now problem.now finished.now }
    ensures { IfOk result (λ report. IsBigReport command.now.seed command.now.size
        report.items) }
{
    made_words_have_trees();
    match finished.answer {
        Answer::Best { score, .. } => {
            big_report(alloc, command.size, score, finished.demanded_cells())
        }
        Answer::NoCandidate => unreachable!(),
    }
}

/// The grammar of pairs, checked under its algebra.
fn checked_pairs(alloc: Global) -> Result<Checked, AllocError>
    ensures grammar { IfOk result (λ checked. checked.grammar ≡ pairs_grammar) }
    ensures algebra { IfOk result (λ checked. checked.algebra ≡ 0) }
{
    pairs_are_faultless();
    let grammar = pairs_grammar(alloc)?;
    let name = Text::new(Vec::from_slice(alloc, b"pairs")?);
    match check(alloc, grammar, &name) {
        Ok(checked) => Ok(checked),
        Err(CheckError::Memory) => Err(AllocError),
        Err(CheckError::Fault(_)) => unreachable!(),
    }
}
