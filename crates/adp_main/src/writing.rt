//! The reports of words that keep the limits, found and written one by one.
ghost use Rattle.std.specs.Prelude.{◌≡◌, ◌++◌, ◌+◌, ◌<◌, ◌≤◌, [], List, ℕ, IfOk, IfSome, drop, get_or, length, None};
ghost use Rattle.std.specs.Option.{option_copied};
ghost use Rattle.adp_io.specs.Causes.{RisesWhere};
ghost use Rattle.adp_io.specs.Streams.{SameTold};
ghost use Rattle.verdicts.specs.Command.{ReadsJob};
ghost use Rattle.verdicts.specs.declared.command.Mode.TheVariants.{Verify};
ghost use Rattle.verdicts.specs.Certificates.{behind_reports};
ghost use Rattle.verdicts.specs.SecondAlgebra.{IsAdmissibleWith};
ghost use Rattle.adp_main.specs.CompiledWords.{ServesItsLength};
ghost use Rattle.adp_main.specs.Faults.{status_after};
ghost use Rattle.adp_main.specs.FirstWords.{AreFirstEnding, IsWriteFault};
ghost use Rattle.adp_main.specs.JudgedWords.{AreJudged};
ghost use Rattle.adp_main.specs.KeptLengths.{HasKept};
ghost use Rattle.verdicts.specs.Posed.{posed_word, posed_words};
ghost use Rattle.adp_main.specs.Reporting.{AreReportsOf, HasWritten};
ghost use Rattle.adp_main.specs.RunNotes.{AreNoted, IsRunOf};
ghost use Rattle.adp_main.specs.Seconds.{AreJobRows, IsSecondOf};
ghost use Rattle.adp_main.specs.SharedWords.{IsSharedOf};
ghost use Rattle.adp_main.specs.Writing.{IsReportWritten, IsWordEnding};
ghost use Rattle.adp_main.specs.declared.status.Status.TheVariants.{WriteFault};

use crate::admitting::admitted;
use crate::checking::CheckedJob;
use crate::groups::write_side_by_side;
use crate::lex::Compiled;
use crate::limits::Judged;
use crate::preparing::shared_by_words;
use crate::{best, cert, kbest, lex, replay, serial, wins};
use adp_io::{Sink, write_whole};
use adp_model::Text;
use evaluators::Gate;
use report::Fault;
use split_lines::Shared;
use std::alloc::Global;
use std::thread::Threads;
use verdicts::laws::words_have_reports;
use verdicts::{Command, Mode};

/// Writes the reports of the words in order, and what the command's mode has behind them, of the input as it came.
pub(crate) fn write_pieces<R: Threads + Sync, K: Sink, G: Gate>(
    rt: &R,
    alloc: Global,
    command: &Command<'_>,
    job: &CheckedJob,
    judged: &Judged,
    input: &[u8],
    out: &mut K,
    gate: &mut G,
) -> Result<(), Fault>
    requires reads { ReadsJob command.now.mode }
    requires finds { command.now.mode ≡ Verify → ⊥ }
    requires judged { AreJudged command.now job.now judged.now }
    ensures told { SameTold (K.held out.old) (K.held out.new) }
    ensures faults { RisesWhere (K.faults out.old) (K.faults out.new) (status_after result ≡ WriteFault) }
    ensures written { (reports : List (List ℕ))
        × AreReportsOf command.now 1
        (posed_words job.now.checked.grammar job.now.checked.algebra job.now.words) reports
        × HasWritten result (K.held out.old) (K.held out.new)
        (reports ++ behind_reports command.now.mode (length job.now.words) input.now) }
    ensures noted { AreNoted command.now None
        (posed_words job.now.checked.grammar job.now.checked.algebra job.now.words)
        (behind_reports command.now.mode (length job.now.words) input.now)
        (status_after result) (G.runs gate.old) (G.runs gate.new) (K.held out.old) (K.held out.new) }
{
    write_words(rt, alloc, command, job, judged, out, gate)?;
    write_behind(alloc, command, job.words.as_slice().len(), input, out)
}

/// Writes what the command's mode has behind the reports of so many words.
fn write_behind<K: Sink>(
    alloc: Global,
    command: &Command<'_>,
    words: usize,
    input: &[u8],
    out: &mut K,
) -> Result<(), Fault>
    ensures told { SameTold (K.held out.old) (K.held out.new) }
    ensures faults { RisesWhere (K.faults out.old) (K.faults out.new) (status_after result ≡ WriteFault) }
    ensures written { HasWritten result (K.held out.old) (K.held out.new)
        (behind_reports command.now.mode words input.now) }
{
    if command.certifies() {
        cert::write_input(alloc, words, input, out)
    } else {
        Ok(())
    }
}

/// Writes the reports of the words in order, the first of which has number 1, each in the command's mode. Each word
/// keeps the limits, and is admitted when its turn comes, so that there is one problem at a time, or those of a group.
/// What the words share is worked out once, before the first of them.
pub(crate) fn write_words<R: Threads + Sync, K: Sink, G: Gate>(
    rt: &R,
    alloc: Global,
    command: &Command<'_>,
    job: &CheckedJob,
    judged: &Judged,
    out: &mut K,
    gate: &mut G,
) -> Result<(), Fault>
    requires reads { ReadsJob command.now.mode }
    requires finds { command.now.mode ≡ Verify → ⊥ }
    requires judged { AreJudged command.now job.now judged.now }
    ensures told { SameTold (K.held out.old) (K.held out.new) }
    ensures faults { RisesWhere (K.faults out.old) (K.faults out.new) (status_after result ≡ WriteFault) }
    ensures written { (reports : List (List ℕ))
        × AreReportsOf command.now 1
        (posed_words job.now.checked.grammar job.now.checked.algebra job.now.words) reports
        × HasWritten result (K.held out.old) (K.held out.new) reports }
    ensures noted { AreNoted command.now None
        (posed_words job.now.checked.grammar job.now.checked.algebra job.now.words) []
        (status_after result) (G.runs gate.old) (G.runs gate.new) (K.held out.old) (K.held out.new) }
{
    command.in_range();
    words_have_reports();
    let words = job.words.as_slice().len();
    let shared = shared_by_words(alloc, command, job, judged);
    let mut kept = None;
    let mut side_by_side = true;
    let mut place = 0;
    while place < words {
        place += write_next(
            rt,
            alloc,
            command,
            place,
            job,
            judged,
            shared.as_ref(),
            &mut side_by_side,
            &mut kept,
            out,
            gate,
        )?;
    }
    Ok(())
}

/// Reports the word at this place, or a group of words from it on, and says how many.
fn write_next<R: Threads + Sync, K: Sink, G: Gate>(
    rt: &R,
    alloc: Global,
    command: &Command<'_>,
    place: usize,
    job: &CheckedJob,
    judged: &Judged,
    shared: Option<&Shared<'_>>,
    side_by_side: &mut bool,
    kept: &mut Option<Compiled>,
    out: &mut K,
    gate: &mut G,
) -> Result<usize, Fault>
    requires reads { ReadsJob command.now.mode }
    requires finds { command.now.mode ≡ Verify → ⊥ }
    requires inside { place < length job.now.words }
    requires judged { AreJudged command.now job.now judged.now }
    requires shared { IsSharedOf (posed_word job.now.checked.grammar job.now.checked.algebra []) (option_copied shared) }
    requires kept { IfSome kept.old (ServesItsLength command.now.second job.now.checked) }
    ensures kept { IfSome kept.new (ServesItsLength command.now.second job.now.checked) }
    ensures told { SameTold (K.held out.old) (K.held out.new) }
    ensures faults { RisesWhere (K.faults out.old) (K.faults out.new) (IsWriteFault result) }
    ensures some { IfOk result (λ count. 0 < count) }
    ensures ending { AreFirstEnding command.now (place + 1)
        (drop place (posed_words job.now.checked.grammar job.now.checked.algebra job.now.words)) result
        (G.runs gate.old) (G.runs gate.new) (K.held out.old) (K.held out.new) }
{
    let count = write_side_by_side(
        rt,
        alloc,
        command,
        place,
        job,
        judged,
        shared,
        side_by_side,
        kept,
        out,
        gate,
    )?;
    if count > 0 {
        return Ok(count);
    }
    let words = job.words.as_slice();
    let word = &words[place];
    is_admitted(command, job, judged, words, place, word);
    let number = place as u32 + 1;
    write_word(
        rt, alloc, command, number, job, judged, word, shared, kept, out, gate,
    )?;
    Ok(1)
}

/// The word at this place is admitted, as all are. Does nothing when it runs.
pub(crate) fn is_admitted(
    command: &Command<'_>,
    job: &CheckedJob,
    judged: &Judged,
    words: &[Text],
    place: usize,
    word: &Text,
)
    requires words { words.now ≡ job.now.words }
    requires inside { place < length words.now }
    requires word { word.now ≡ get_or words.now place word.now }
    requires judged { AreJudged command.now job.now judged.now }
    ensures known { length word.now ≤ judged.now.rows.first.longest }
    ensures bound { HasKept command.now.second job.now.checked.grammar job.now.checked.algebra
        judged.now.compiled.items (length word.now) }
    ensures admissible { IsAdmissibleWith command.now.second
        (posed_word job.now.checked.grammar job.now.checked.algebra word.now) }
{
    let _ = &command.mode;
    let _ = &job.words;
    let _ = &judged.rows;
    let _ = (words.len(), place);
    let _ = word.bytes();
}

/// Reports a word in the command's mode.
fn write_word<R: Threads + Sync, K: Sink, G: Gate>(
    rt: &R,
    alloc: Global,
    command: &Command<'_>,
    number: u32,
    job: &CheckedJob,
    judged: &Judged,
    word: &Text,
    shared: Option<&Shared<'_>>,
    kept: &mut Option<Compiled>,
    out: &mut K,
    gate: &mut G,
) -> Result<(), Fault>
    requires reads { ReadsJob command.now.mode }
    requires finds { command.now.mode ≡ Verify → ⊥ }
    requires second { IsSecondOf command.now.second job.now.checked job.now.second }
    requires rows { AreJobRows job.now.checked job.now.second judged.now.rows }
    requires known { length word.now ≤ judged.now.rows.first.longest }
    requires bound { HasKept command.now.second job.now.checked.grammar job.now.checked.algebra
        judged.now.compiled.items (length word.now) }
    requires admissible { IsAdmissibleWith command.now.second
        (posed_word job.now.checked.grammar job.now.checked.algebra word.now) }
    requires shared { IsSharedOf (posed_word job.now.checked.grammar job.now.checked.algebra []) (option_copied shared) }
    requires kept { IfSome kept.old (ServesItsLength command.now.second job.now.checked) }
    ensures kept { IfSome kept.new (ServesItsLength command.now.second job.now.checked) }
    ensures told { SameTold (K.held out.old) (K.held out.new) }
    ensures faults { RisesWhere (K.faults out.old) (K.faults out.new) (status_after result ≡ WriteFault) }
    ensures ending { IsWordEnding (IsRunOf command.now None number
        (posed_word job.now.checked.grammar job.now.checked.algebra word.now)) result
        (G.runs gate.old) (G.runs gate.new) (K.held out.old) (K.held out.new) }
{
    let rows = &judged.rows.first;
    match command.mode {
        Mode::Best => {
            let problem = admitted(&job.checked, rows, word);
            best::report_word(rt, alloc, command, number, &problem, shared, out, gate)
        },
        Mode::Serial => {
            let problem = admitted(&job.checked, rows, word);
            serial::report_word(alloc, number, &problem, shared, out)
        },
        Mode::Wins => {
            let problem = admitted(&job.checked, rows, word);
            wins::report_word(rt, alloc, command, number, &problem, out, gate)
        },
        Mode::Replay => {
            let problem = admitted(&job.checked, rows, word);
            replay::report_word(alloc, command, number, &problem, out, gate)
        },
        Mode::Cert => {
            let problem = admitted(&job.checked, rows, word);
            cert::report_word(rt, alloc, command, number, &problem, shared, out, gate)
        },
        Mode::Lex => {
            lex::report_word(
                rt, alloc, command, number, job, judged, word, kept, out, gate,
            )
        },
        Mode::KBest => {
            let problem = admitted(&job.checked, rows, word);
            kbest::report_word(alloc, command, number, &problem, shared, out)
        },
        Mode::Verify | Mode::Big => unreachable!(),
    }
}

/// Writes a report by one `write_whole`.
pub(crate) fn write_report<K: Sink>(out: &mut K, report: &[u8]) -> Result<(), Fault>
    ensures told { SameTold (K.held out.old) (K.held out.new) }
    ensures faults { RisesWhere (K.faults out.old) (K.faults out.new) (status_after result ≡ WriteFault) }
    ensures written { IsReportWritten result (K.held out.old) (K.held out.new) report.now }
{
    match write_whole(out, report) {
        Ok(()) => Ok(()),
        Err(_) => Err(Fault::Write),
    }
}
