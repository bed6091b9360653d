//! The mode `lex`: reports by two algebras in order, which evaluators find by the compiled one.
ghost use Rattle.std.specs.Prelude.{◌≡◌, ◌↔◌, ◌≤◌, ℕ, List, Option, length, IfOk, IfSome, IsTrue, None};
ghost use Rattle.adp_io.specs.Causes.{RisesWhere};
ghost use Rattle.adp_io.specs.Streams.{SameTold};
ghost use Rattle.adp_model.specs.PosedProblem.{PosedProblem};
ghost use Rattle.adp_model.specs.ProblemFields.{greatest_score};
ghost use Rattle.evaluators.specs.Runs.{IsFinished};
ghost use Rattle.grammar_check.specs.ToldRows.{AreRowsOf};
ghost use Rattle.lex_product.specs.PairAnswers.{IsButForAlgebra, IsPair, MatchCompiledBy};
ghost use Rattle.lex_product.specs.PairLimits.{IsPairAdmissible};
ghost use Rattle.lex_product.specs.PairReport.{IsPairReport};
ghost use Rattle.report.specs.PairOutcomes.{AreScoresOf, AreThere};
ghost use Rattle.verdicts.specs.declared.command.Mode.TheVariants.{Lex};
ghost use Rattle.verdicts.specs.SecondAlgebra.{IsAdmissibleWith, IsSecond};
ghost use Rattle.adp_main.specs.CompiledWords.{IsCompiledFor, ServesItsLength, compiled_word};
ghost use Rattle.adp_main.specs.Faults.{status_after};
ghost use Rattle.adp_main.specs.Groups.{IsMadeFor};
ghost use Rattle.adp_main.specs.KeptLengths.{HasKept};
ghost use Rattle.verdicts.specs.Posed.{posed_word};
ghost use Rattle.adp_main.specs.RunNotes.{IsRunOf};
ghost use Rattle.adp_main.specs.Seconds.{AreJobRows, IsSecondOf};
ghost use Rattle.adp_main.specs.Writing.{IsWordEnding};
ghost use Rattle.adp_main.specs.declared.status.Status.TheVariants.{WriteFault};

use crate::admitting::{admitted, bound_of, compiled_bound};
use crate::checking::CheckedJob;
use crate::evaluating::{run_evaluators, write_run};
use crate::limits::Judged;
use adp_io::Sink;
use adp_model::laws::bounds::words_have_one_bound;
use adp_model::{Answer, Problem, Text};
use evaluators::{Finished, Gate};
use grammar_check::{BoundRows, Checked, admit_known};
use lex_product::laws::{
    compiled_algebras_change_scores_alone, compiled_scores_are_both_scores,
    pair_limits_are_kept_or_passed,
};
use lex_product::{CompileError, compile_by, have_same_goal, pair_of, recompile_by};
use report::{Fault, PairOutcome, pair_report};
use std::alloc::{AllocError, Global};
use std::thread::Threads;
use traceback::preorder;
use verdicts::Command;
use verdicts::laws::second_algebra_is_unique;

/// A job's grammar with the compiled algebra for words of one length: a score has the first one's so many times, and
/// the second one's with its own sign where `same`.
#[derive(Drop)]
pub(crate) struct Compiled {
    checked: Checked,
    multiplier: u64,
    same: bool,
    length: usize,
}

impl Compiled {
    /// Whether it was made for words of this word's length.
    pub(crate) fn serves(&self, word: &Text) -> bool
        ensures { IsTrue result ↔ (length word.now ≡ self.now.length) }
    {
        word.bytes().len() == self.length
    }

    /// The problem of a word of the length that it was made for, under the compiled algebra. Takes no memory.
    pub(crate) fn problem_of<'a>(
        &'a self,
        command: &Command<'_>,
        job: &CheckedJob,
        judged: &Judged,
        word: &'a Text,
    ) -> Problem<'a>
        requires mode { command.now.mode ≡ Lex }
        requires bound { HasKept command.now.second job.now.checked.grammar job.now.checked.algebra
            judged.now.compiled.items (length word.now) }
        requires serves { ServesItsLength command.now.second job.now.checked self.now }
        requires long { length word.now ≡ self.now.length }
        ensures { result ≡ compiled_word self.now word.now }
    {
        let bound = compiled_bound(command, job, judged, word);
        admit_known(&self.checked, word, bound)
    }
}

/// Makes what serves the word, of what is kept where there is something, and keeps it.
pub(crate) fn keep_for(
    alloc: Global,
    command: &Command<'_>,
    job: &CheckedJob,
    judged: &Judged,
    word: &Text,
    kept: &mut Option<Compiled>,
) -> Result<(), AllocError>
    requires mode { command.now.mode ≡ Lex }
    requires second { IsSecondOf command.now.second job.now.checked job.now.second }
    requires rows { AreJobRows job.now.checked job.now.second judged.now.rows }
    requires known { length word.now ≤ judged.now.rows.first.longest }
    requires admissible { IsAdmissibleWith command.now.second
        (posed_word job.now.checked.grammar job.now.checked.algebra word.now) }
    requires kept { IfSome kept.old (ServesItsLength command.now.second job.now.checked) }
    ensures kept { IfSome kept.new (ServesItsLength command.now.second job.now.checked) }
    ensures made { IfOk result (λ done. IsMadeFor command.now job.now.checked kept.new) }
{
    let made = made_for(alloc, command, job, judged, word, kept.take())?;
    *kept = Some(made);
    Ok(())
}

/// Solves the word under the compiled algebra by evaluators, writes its report by one `write_whole`, and tells the gate
/// of their run. What was made for it is kept for the next word.
pub(crate) fn report_word<R: Threads + Sync, K: Sink, G: Gate>(
    rt: &R,
    alloc: Global,
    command: &Command<'_>,
    number: u32,
    job: &CheckedJob,
    judged: &Judged,
    word: &Text,
    kept: &mut Option<Compiled>,
    out: &mut K,
    gate: &mut G,
) -> Result<(), Fault>
    requires mode { command.now.mode ≡ Lex }
    requires second { IsSecondOf command.now.second job.now.checked job.now.second }
    requires rows { AreJobRows job.now.checked job.now.second judged.now.rows }
    requires known { length word.now ≤ judged.now.rows.first.longest }
    requires bound { HasKept command.now.second job.now.checked.grammar job.now.checked.algebra
        judged.now.compiled.items (length word.now) }
    requires admissible { IsAdmissibleWith command.now.second
        (posed_word job.now.checked.grammar job.now.checked.algebra word.now) }
    requires kept { IfSome kept.old (ServesItsLength command.now.second job.now.checked) }
    ensures kept { IfSome kept.new (ServesItsLength command.now.second job.now.checked) }
    ensures told { SameTold (K.held out.old) (K.held out.new) }
    ensures faults { RisesWhere (K.faults out.old) (K.faults out.new) (status_after result ≡ WriteFault) }
    ensures ending { IsWordEnding (IsRunOf command.now None number
        (posed_word job.now.checked.grammar job.now.checked.algebra word.now)) result
        (G.runs gate.old) (G.runs gate.new) (K.held out.old) (K.held out.new) }
{
    let made = made_for(alloc, command, job, judged, word, kept.take())?;
    let problem = made.problem_of(command, job, judged, word);
    let finished = run_evaluators(rt, alloc, command, &problem, &*gate)?;
    let report = report_of_both(alloc, number, &made, &problem, &finished)?;
    let result = write_run(alloc, command, &problem, &finished, &report, out, gate);
    drop(finished);
    *kept = Some(made);
    result
}

/// What serves the word: what is kept, where the word before had the same length; otherwise it is made, of what is kept
/// where there is something.
fn made_for(
    alloc: Global,
    command: &Command<'_>,
    job: &CheckedJob,
    judged: &Judged,
    word: &Text,
    kept: Option<Compiled>,
) -> Result<Compiled, AllocError>
    requires mode { command.now.mode ≡ Lex }
    requires second { IsSecondOf command.now.second job.now.checked job.now.second }
    requires rows { AreJobRows job.now.checked job.now.second judged.now.rows }
    requires known { length word.now ≤ judged.now.rows.first.longest }
    requires admissible { IsAdmissibleWith command.now.second
        (posed_word job.now.checked.grammar job.now.checked.algebra word.now) }
    requires kept { IfSome kept (ServesItsLength command.now.second job.now.checked) }
    ensures kept { IfOk result (ServesItsLength command.now.second job.now.checked) }
    ensures length { IfOk result (λ made. made.length ≡ length word.now) }
{
    match kept {
        None => compiled_for(alloc, command, job, judged, word, None),
        Some(kept) => {
            if kept.serves(word) {
                return Ok(kept);
            }
            compiled_for(alloc, command, job, judged, word, Some(kept.checked))
        }
    }
}

/// The compiled algebra for the word's length, made of what was compiled for another one where there is something.
fn compiled_for(
    alloc: Global,
    command: &Command<'_>,
    job: &CheckedJob,
    judged: &Judged,
    word: &Text,
    kept: Option<Checked>,
) -> Result<Compiled, AllocError>
    requires mode { command.now.mode ≡ Lex }
    requires second { IsSecondOf command.now.second job.now.checked job.now.second }
    requires rows { AreJobRows job.now.checked job.now.second judged.now.rows }
    requires known { length word.now ≤ judged.now.rows.first.longest }
    requires admissible { IsAdmissibleWith command.now.second
        (posed_word job.now.checked.grammar job.now.checked.algebra word.now) }
    requires kept { IfSome kept (IsButForAlgebra job.now.checked) }
    ensures made { IfOk result (IsCompiledFor command.now.second
        (posed_word job.now.checked.grammar job.now.checked.algebra word.now)) }
    ensures whole { IfOk result (λ made. IsButForAlgebra job.now.checked made.checked) }
    ensures length { IfOk result (λ made. made.length ≡ length word.now) }
{
    command.in_range();
    job.checked.passes();
    second_algebra_is_unique();
    match &job.second {
        Some(second) => match &judged.rows.second {
            Some(rows) => compile_pair(alloc, &job.checked, second, rows, word, kept),
            None => unreachable!(),
        },
        None => unreachable!(),
    }
}

/// The compiled algebra of a pair for the length of a word that keeps the limits.
fn compile_pair(
    alloc: Global,
    first: &Checked,
    second: &Checked,
    rows: &BoundRows,
    word: &Text,
    kept: Option<Checked>,
) -> Result<Compiled, AllocError>
    requires pair { IsPair first.now second.now }
    requires rows { AreRowsOf second.now rows.now }
    requires known { length word.now ≤ rows.now.longest }
    requires admissible { IsPairAdmissible (posed_word first.now.grammar first.now.algebra word.now) second.now.algebra }
    requires kept { IfSome kept (IsButForAlgebra first.now) }
    ensures made { IfOk result (λ compiled. (name : Option (List ℕ))
        → IsSecond name first.now.grammar second.now.algebra
        → IsCompiledFor name (posed_word first.now.grammar first.now.algebra word.now) compiled) }
    ensures whole { IfOk result (λ compiled. IsButForAlgebra first.now compiled.checked) }
    ensures length { IfOk result (λ compiled. compiled.length ≡ length word.now) }
{
    second.passes();
    pair_limits_are_kept_or_passed();
    words_have_one_bound();
    let problem = admitted(second, rows, word);
    let bound = bound_of(&problem);
    let same = have_same_goal(first, second);
    match compiled_by(alloc, first, second, kept, bound) {
        Ok(checked) => Ok(Compiled {
            checked,
            multiplier: 2 * bound + 1,
            same,
            length: word.bytes().len(),
        }),
        Err(CompileError::Memory) => Err(AllocError),
        Err(CompileError::Fault(_)) => unreachable!(),
    }
}

/// A pair's grammar with the algebra that is compiled by this bound of the second one.
fn compiled_by(
    alloc: Global,
    first: &Checked,
    second: &Checked,
    kept: Option<Checked>,
    bound: u64,
) -> Result<Checked, CompileError>
    requires pair { IsPair first.now second.now }
    requires kept { IfSome kept (IsButForAlgebra first.now) }
    requires low { bound ≤ greatest_score }
    ensures { MatchCompiledBy first.now second.now bound result }
{
    match kept {
        Some(kept) => recompile_by(alloc, first, second, kept, bound),
        None => compile_by(alloc, first, second, bound),
    }
}

/// The report of a word that evaluators solved under the compiled algebra, with both scores.
pub(crate) fn report_of_both(
    alloc: Global,
    number: u32,
    compiled: &Compiled,
    problem: &Problem<'_>,
    finished: &Finished<'_>,
) -> Result<Vec<u8>, AllocError>
    requires compiled { (name : Option (List ℕ)) × (p : PosedProblem) × IsCompiledFor name p compiled.now
        × (problem.now ≡ compiled_word compiled.now p.word) }
    requires finished { (seed : ℕ) × IsFinished problem.now seed finished.now }
    ensures { IfOk result (λ report. (name : Option (List ℕ)) (p : PosedProblem)
        (for : IsCompiledFor name p compiled.now) → problem.now ≡ compiled_word compiled.now p.word
        → IsPairReport number p for.second report.items) }
{
    let closed = &finished.closed;
    let scores = both_scores(compiled, problem, finished);
    let nodes = preorder(alloc, problem, closed)?;
    let outcome = PairOutcome {
        scores,
        nodes,
        cells: finished.demanded_cells(),
    };
    pair_report(alloc, number, problem, &outcome)
}

/// Both scores of the preferred tree, where there is one.
fn both_scores(
    compiled: &Compiled,
    problem: &Problem<'_>,
    finished: &Finished<'_>,
) -> Option<(i64, i64)>
    requires compiled { (name : Option (List ℕ)) × (p : PosedProblem) × IsCompiledFor name p compiled.now
        × (problem.now ≡ compiled_word compiled.now p.word) }
    requires finished { (seed : ℕ) × IsFinished problem.now seed finished.now }
    ensures there { AreThere problem.now result }
    ensures both { (name : Option (List ℕ)) (p : PosedProblem) (for : IsCompiledFor name p compiled.now)
        → problem.now ≡ compiled_word compiled.now p.word → AreScoresOf p for.second problem.now result }
{
    compiled_algebras_change_scores_alone();
    compiled_scores_are_both_scores();
    match finished.answer {
        Answer::NoCandidate => None,
        Answer::Best { score, .. } => Some(pair_of(score, compiled.multiplier, compiled.same)),
    }
}
