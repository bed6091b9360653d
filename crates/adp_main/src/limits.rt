//! The limits of a job's words: each word is judged, once a length where there is a second algebra.
ghost use Rattle.std.specs.Prelude.{◌≡◌, ℕ, ◌+◌, ◌<◌, ◌≤◌, [], None, length, slice_index_or, IfOk, IfErr, OnOk, MatchOption, MatchResult};
ghost use Rattle.std.specs.List.{AllByRecursion};
ghost use Rattle.adp_model.specs.Bounds.{IsScoreBound};
ghost use Rattle.adp_model.specs.LimitFaults.{IsLimitFault};
ghost use Rattle.adp_model.specs.ProblemFields.{KeepsLimits, greatest_score, most_letters};
ghost use Rattle.grammar_check.specs.Admitted.{IsProblemOf};
ghost use Rattle.grammar_check.specs.ToldRows.{AreRowsOf};
ghost use Rattle.lex_product.specs.PairAnswers.{IsPair};
ghost use Rattle.lex_product.specs.PairLimits.{KeepsPairLimits};
ghost use Rattle.verdicts.specs.SecondAlgebra.{IsAdmissibleWith};
ghost use Rattle.first_trees.specs.ListLimits.{IsListLimitFault};
ghost use Rattle.verdicts.specs.WordLimits.{KeepsLimitsOfLists};
ghost use Rattle.adp_main.specs.KeptLengths.{AreKeptLengths, HasKept, HaveKept, IsFound, IsPairBound};
ghost use Rattle.verdicts.specs.Posed.{posed_word, posed_words};
ghost use Rattle.adp_main.specs.Reporting.{AreShort, IsAdmissibleIn, IsLengthRefusal, IsLimitOf, IsPairLimitRefusal, IsWordRefusal, compile_refusal, limit_refusal};
ghost use Rattle.adp_main.specs.Seconds.{AreJobRows, AreSecondRows, IsSecondOf};

use crate::admitting::{admit_word, admitted, bound_at, bound_of, nodes_of};
use crate::checking::CheckedJob;
use adp_model::laws::bounds::words_have_one_bound;
use adp_model::{LimitFault, Text};
use grammar_check::{AdmitError, BoundRows, Checked, cells_within_limits};
use k_best::admit_lists;
use lex_product::{CompileError, compile_by};
use report::Fault;
use std::alloc::{AllocError, Global};
use verdicts::Command;
use verdicts::laws::second_algebra_is_unique;

/// The bounds of a job's words by their length: under its algebra, and under the second one where there is one.
#[derive(Drop)]
pub(crate) struct JobRows {
    pub(crate) first: BoundRows,
    pub(crate) second: Option<BoundRows>,
}

impl JobRows {
    /// The rows for words of at most `longest` letters.
    fn new(alloc: Global, job: &CheckedJob, longest: u32) -> Result<JobRows, AllocError>
        requires { longest ≤ most_letters }
        ensures rows { IfOk result (AreJobRows job.now.checked job.now.second) }
        ensures longest { IfOk result (λ rows. rows.first.longest ≡ longest) }
    {
        let first = BoundRows::new(alloc, &job.checked, longest)?;
        let second = second_rows(alloc, job, longest)?;
        Ok(JobRows { first, second })
    }
}

/// A job's words, judged: what their problems are made by.
#[derive(Drop)]
pub(crate) struct Judged {
    pub(crate) rows: JobRows,
    /// By length the score bound under the compiled algebra, of each length of a word where there is a second algebra.
    pub(crate) compiled: Vec<Option<u64>>,
}

/// The rows under the second algebra, where there is one.
fn second_rows(
    alloc: Global,
    job: &CheckedJob,
    longest: u32,
) -> Result<Option<BoundRows>, AllocError>
    requires { longest ≤ most_letters }
    ensures { IfOk result (AreSecondRows job.now.second longest) }
{
    match &job.second {
        Some(second) => Ok(Some(BoundRows::new(alloc, second, longest)?)),
        None => Ok(None),
    }
}

/// Judges the words of a job in order: the bounds up to the longest of them, where each keeps the limits, or the fault
/// of the first word that passes one. No bound is computed for a word that has too many letters or cells.
pub(crate) fn judge_words(
    alloc: Global,
    command: &Command<'_>,
    job: &CheckedJob,
) -> Result<Judged, Fault>
    requires few { length job.now.words ≤ 65536 }
    requires second { IsSecondOf command.now.second job.now.checked job.now.second }
    ensures rows { IfOk result (λ judged. AreJobRows job.now.checked job.now.second judged.rows) }
    ensures known { IfOk result (λ judged. AreShort judged.rows.first.longest job.now.words) }
    ensures bounds { IfOk result (λ judged. HaveKept command.now.second job.now.checked.grammar
        job.now.checked.algebra judged.compiled.items job.now.words) }
    ensures admissible { IfOk result (λ _. AllByRecursion (IsAdmissibleIn command.now)
        (posed_words job.now.checked.grammar job.now.checked.algebra job.now.words)) }
    ensures fault { IfErr result (IsLimitOf command.now job.now.checked.grammar job.now.checked.algebra
        job.now.words) }
{
    let words = job.words.as_slice();
    let (count, refused) = within_cells(&job.checked, words);
    let judged = &words[..count];
    let rows = JobRows::new(alloc, job, longest(judged))?;
    let mut compiled = no_bounds(alloc, rows.first.longest)?;
    for (place, word) in judged.iter().enumerate() {
        match judge_fully(alloc, command, job, &rows, word, &mut compiled) {
            Ok(()) => {}
            Err(error) => return Err(limit_refusal(place, error)),
        }
    }
    match refused {
        Some(fault) => Err(limit(count, fault)),
        None => Ok(Judged { rows, compiled }),
    }
}

/// No bound yet for each length up to the longest.
fn no_bounds(alloc: Global, longest: u32) -> Result<Vec<Option<u64>>, AllocError>
    requires { longest ≤ most_letters }
    ensures each { IfOk result (λ compiled. length compiled.items ≡ longest + 1) }
    ensures none { IfOk result (λ compiled. (len : ℕ) → slice_index_or compiled.items len None ≡ None) }
{
    vec![in alloc; None; longest as usize + 1]
}

/// Judges a word: its own limits, and behind them those of its lists, where lists are asked for.
fn judge_fully(
    alloc: Global,
    command: &Command<'_>,
    job: &CheckedJob,
    rows: &JobRows,
    word: &Text,
    compiled: &mut Vec<Option<u64>>,
) -> Result<(), AdmitError>
    requires second { IsSecondOf command.now.second job.now.checked job.now.second }
    requires rows { AreJobRows job.now.checked job.now.second rows.now }
    requires known { length word.now ≤ rows.now.first.longest }
    requires each { length compiled.old.items ≡ rows.now.first.longest + 1 }
    requires lengths { AreKeptLengths command.now.second job.now.checked.grammar job.now.checked.algebra
        compiled.old.items }
    ensures each { length compiled.new.items ≡ length compiled.old.items }
    ensures lengths { AreKeptLengths command.now.second job.now.checked.grammar job.now.checked.algebra
        compiled.new.items }
    ensures stays { (len : ℕ) → HasKept command.now.second job.now.checked.grammar job.now.checked.algebra
        compiled.old.items len → HasKept command.now.second job.now.checked.grammar job.now.checked.algebra
        compiled.new.items len }
    ensures bound { OnOk result (HasKept command.now.second job.now.checked.grammar job.now.checked.algebra
        compiled.new.items (length word.now)) }
    ensures kept { OnOk result (IsAdmissibleIn command.now
        (posed_word job.now.checked.grammar job.now.checked.algebra word.now)) }
    ensures fault { IfErr result (IsWordRefusal command.now job.now.checked.grammar job.now.checked.algebra
        (length word.now)) }
{
    judge_once(alloc, command, job, rows, word, compiled)?;
    match judge_lists(command, job, rows, word) {
        Ok(()) => Ok(()),
        Err(fault) => Err(AdmitError::Fault(fault)),
    }
}

/// Whether the lists of an admitted word keep their limits, where lists are asked for. Takes no memory.
fn judge_lists(
    command: &Command<'_>,
    job: &CheckedJob,
    rows: &JobRows,
    word: &Text,
) -> Result<(), LimitFault>
    requires rows { AreJobRows job.now.checked job.now.second rows.now }
    requires known { length word.now ≤ rows.now.first.longest }
    requires admissible { IsAdmissibleWith command.now.second
        (posed_word job.now.checked.grammar job.now.checked.algebra word.now) }
    ensures kept { OnOk result (KeepsLimitsOfLists command.now.best job.now.checked.grammar (length word.now)) }
    ensures fault { IfErr result (IsListLimitFault job.now.checked.grammar (length word.now) command.now.best) }
{
    command.in_range();
    if command.best == 0 {
        return Ok(());
    }
    let problem = admitted(&job.checked, &rows.first, word);
    let nodes = nodes_of(&job.checked, &rows.first, word);
    admit_lists(&problem, nodes, command.best)
}

/// Judges a word for whose length no bound is kept. Where there is a second algebra and the word keeps the limits, keeps
/// the score bound under the compiled one for words of its length.
fn judge_once(
    alloc: Global,
    command: &Command<'_>,
    job: &CheckedJob,
    rows: &JobRows,
    word: &Text,
    compiled: &mut Vec<Option<u64>>,
) -> Result<(), AdmitError>
    requires second { IsSecondOf command.now.second job.now.checked job.now.second }
    requires rows { AreJobRows job.now.checked job.now.second rows.now }
    requires known { length word.now ≤ rows.now.first.longest }
    requires each { length compiled.old.items ≡ rows.now.first.longest + 1 }
    requires lengths { AreKeptLengths command.now.second job.now.checked.grammar job.now.checked.algebra
        compiled.old.items }
    ensures each { length compiled.new.items ≡ length compiled.old.items }
    ensures lengths { AreKeptLengths command.now.second job.now.checked.grammar job.now.checked.algebra
        compiled.new.items }
    ensures stays { (len : ℕ) → HasKept command.now.second job.now.checked.grammar job.now.checked.algebra
        compiled.old.items len → HasKept command.now.second job.now.checked.grammar job.now.checked.algebra
        compiled.new.items len }
    ensures bound { OnOk result (HasKept command.now.second job.now.checked.grammar job.now.checked.algebra
        compiled.new.items (length word.now)) }
    ensures kept { OnOk result (IsAdmissibleWith command.now.second
        (posed_word job.now.checked.grammar job.now.checked.algebra word.now)) }
    ensures fault { IfErr result (IsLengthRefusal command.now.second job.now.checked.grammar job.now.checked.algebra
        (length word.now)) }
{
    if bound_at(compiled, word).is_some() {
        return Ok(());
    }
    if let Some(bound) = judge_word(alloc, command, job, rows, word)? {
        compiled[word.bytes().len()] = Some(bound);
    }
    Ok(())
}

/// Whether the word keeps the limits: those under the job's algebra, and those of the pair where there is a second one,
/// which gives the score bound under the compiled algebra.
fn judge_word(
    alloc: Global,
    command: &Command<'_>,
    job: &CheckedJob,
    rows: &JobRows,
    word: &Text,
) -> Result<Option<u64>, AdmitError>
    requires second { IsSecondOf command.now.second job.now.checked job.now.second }
    requires rows { AreJobRows job.now.checked job.now.second rows.now }
    requires known { length word.now ≤ rows.now.first.longest }
    ensures bound { IfOk result (IsFound command.now.second job.now.checked.grammar job.now.checked.algebra
        (length word.now)) }
    ensures kept { OnOk result (IsAdmissibleWith command.now.second
        (posed_word job.now.checked.grammar job.now.checked.algebra word.now)) }
    ensures fault { IfErr result (IsLengthRefusal command.now.second job.now.checked.grammar job.now.checked.algebra
        (length word.now)) }
{
    job.checked.passes();
    second_algebra_is_unique();
    let problem = match admit_word(&job.checked, &rows.first, word) {
        Ok(problem) => problem,
        Err(fault) => return Err(AdmitError::Fault(fault)),
    };
    problem.admissible();
    match &job.second {
        Some(second) => match &rows.second {
            Some(rows) => Ok(Some(judge_pair(alloc, &job.checked, second, rows, word)?)),
            None => unreachable!(),
        },
        None => Ok(None),
    }
}

/// The score bound under the compiled algebra of a word that keeps the limits under the first one, where it keeps the
/// others of the pair.
fn judge_pair(
    alloc: Global,
    first: &Checked,
    second: &Checked,
    rows: &BoundRows,
    word: &Text,
) -> Result<u64, AdmitError>
    requires pair { IsPair first.now second.now }
    requires rows { AreRowsOf second.now rows.now }
    requires known { length word.now ≤ rows.now.longest }
    requires first { KeepsLimits first.now.grammar first.now.algebra (length word.now) }
    ensures bound { IfOk result (IsPairBound first.now.grammar first.now.algebra second.now.algebra
        (length word.now)) }
    ensures kept { OnOk result (KeepsPairLimits first.now.grammar first.now.algebra second.now.algebra
        (length word.now)) }
    ensures fault { IfErr result (IsPairLimitRefusal first.now.grammar first.now.algebra second.now.algebra
        (length word.now)) }
{
    second.passes();
    words_have_one_bound();
    let problem = match admit_word(second, rows, word) {
        Ok(problem) => problem,
        Err(fault) => return Err(AdmitError::Fault(fault)),
    };
    let bound = bound_of(&problem);
    let compiled = match compile_by(alloc, first, second, bound) {
        Ok(compiled) => compiled,
        Err(error) => return Err(compile_refusal(error)),
    };
    let rows = BoundRows::new(alloc, &compiled, word.bytes().len() as u32)?;
    match admit_word(&compiled, &rows, word) {
        Ok(problem) => Ok(bound_of(&problem)),
        Err(fault) => Err(AdmitError::Fault(fault)),
    }
}

/// Why a word is refused whose pair was not compiled.
fn compile_refusal(error: CompileError) -> AdmitError
    ensures { result ≡ compile_refusal error }
{
    match error {
        CompileError::Fault(fault) => AdmitError::Fault(fault),
        CompileError::Memory => AdmitError::Memory,
    }
}

/// The fault of a run whose word at this place was refused.
fn limit_refusal(place: usize, error: AdmitError) -> Fault
    requires { place ≤ 65536 }
    ensures { result ≡ limit_refusal place error }
{
    match error {
        AdmitError::Fault(fault) => limit(place, fault),
        AdmitError::Memory => Fault::Memory,
    }
}

/// The fault of the word at this place.
fn limit(place: usize, fault: LimitFault) -> Fault
    requires { place ≤ 65536 }
    ensures { result ≡ Fault.Limit (place + 1) fault }
{
    Fault::Limit {
        word: place as u32 + 1,
        fault,
    }
}

/// How many words there are before the first that has too many letters or cells, and that word's fault.
fn within_cells(checked: &Checked, words: &[Text]) -> (usize, Option<LimitFault>)
    ensures inside { result.0 ≤ length words.now }
    ensures short { (place : ℕ) → place < result.0 → length (slice_index_or words.now place []) ≤ most_letters }
    ensures fault { MatchOption result.1 (result.0 ≡ length words.now) (λ fault. (result.0 < length words.now)
        × IsLimitFault checked.now.grammar checked.now.algebra (length (slice_index_or words.now result.0 [])) fault) }
{
    for (place, word) in words.iter().enumerate() {
        if let Err(fault) = cells_within_limits(checked, word) {
            return (place, Some(fault));
        }
    }
    (words.len(), None)
}

/// The length of the longest word.
fn longest(words: &[Text]) -> u32
    requires { (place : ℕ) → place < length words.now → length (slice_index_or words.now place []) ≤ most_letters }
    ensures most { result ≤ most_letters }
    ensures each { AreShort result words.now }
{
    let mut longest = 0;
    for word in words {
        longest = longest.max(word.bytes().len());
    }
    longest as u32
}
