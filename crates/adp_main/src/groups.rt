//! Groups of words: solved and told side by side, each on one thread, and written in order.
ghost use Rattle.std.specs.Prelude.{◌≡◌, ◌↔◌, ◌++◌, ◌+◌, ◌<◌, ◌≤◌, [], List, ℕ, All, IfOk, IfSome, IsTrue, drop, length, map, take};
ghost use Rattle.std.specs.List.{AllZip};
ghost use Rattle.std.specs.Option.{option_copied};
ghost use Rattle.adp_io.specs.Causes.{RisesWhere};
ghost use Rattle.adp_io.specs.Streams.{SameTold};
ghost use Rattle.adp_model.specs.PosedProblem.{PosedProblem};
ghost use Rattle.adp_model.specs.ProblemFields.{most_cells, most_nodes};
ghost use Rattle.split_lines.specs.Shared.{without_word};
ghost use Rattle.verdicts.specs.Command.{Command};
ghost use Rattle.verdicts.specs.Posed.{posed_word, posed_words};
ghost use Rattle.verdicts.specs.SecondAlgebra.{IsAdmissibleWith};
ghost use Rattle.adp_main.specs.CompiledWords.{ServesItsLength};
ghost use Rattle.adp_main.specs.Faults.{status_after};
ghost use Rattle.adp_main.specs.FirstWords.{AreFirstEnding, IsWriteFault};
ghost use Rattle.adp_main.specs.Groups.{AreAlike, AreTold, HasItsLength, HasRoom, HaveCells, HaveNodes, IsGrouped, IsMadeFor, IsSolvedFor, IsTold, IsWrittenAs, TakesGroups, common_of, post_of, posts_from};
ghost use Rattle.adp_main.specs.JudgedWords.{AreJudged};
ghost use Rattle.adp_main.specs.KeptLengths.{HasKept};
ghost use Rattle.adp_main.specs.Seconds.{AreJobRows};
ghost use Rattle.adp_main.specs.SharedWords.{IsSharedOf};
ghost use Rattle.adp_main.specs.Writing.{IsWordEnding};
ghost use Rattle.adp_main.specs.declared.status.Status.TheVariants.{WriteFault};

use crate::admitting::{admitted, nodes_of};
use crate::checking::CheckedJob;
use crate::evaluating::write_noted;
use crate::lex::{Compiled, keep_for};
use crate::limits::Judged;
use crate::slot::{Slot, Told};
use crate::writing::{is_admitted, write_report};
use adp_io::Sink;
use adp_model::laws::demand::demanded_cells_are_unique;
use adp_model::{Problem, Text};
use evaluators::Gate;
use report::Fault;
use split_lines::{Shared, Sharing};
use std::alloc::{AllocError, Global};
use std::thread::Threads;
use verdicts::{Command, Mode};
use word_groups::filled;

/// The most words of a group.
const MOST_WORDS: usize = 1_024;

/// The most counted cells that the words of a group have together, unless it had fewer words than there are workers.
const ENOUGH_CELLS: u64 = 524_288;

/// The most counted cells that the words of a group have together: as many as one word may have.
const MOST_CELLS: u64 = 2_097_152;

/// The most nodes that the trees of a group can have together, since their reports are kept until the group is written: as
/// many as the tree of one word can have.
const MOST_NODES: u64 = 1_048_576;

/// Whether words are solved in groups: where there are workers enough, and reports tell nothing of them.
fn takes_groups(command: &Command<'_>) -> bool
    ensures { IsTrue result ↔ TakesGroups command.now }
{
    match command.mode {
        Mode::Best | Mode::Serial | Mode::Cert | Mode::Lex => command.workers > 1,
        _ => false,
    }
}

/// Reports the words from this place on that make a group, and says how many: none where they make none, or groups are
/// made no more. Where there is no memory for a group it reports those of its first words for which there is, and groups
/// are made no more. What was made for the words is kept for the next ones.
pub(crate) fn write_side_by_side<R: Threads + Sync, K: Sink, G: Gate>(
    rt: &R,
    alloc: Global,
    command: &Command<'_>,
    place: usize,
    job: &CheckedJob,
    judged: &Judged,
    shared: Option<&Shared<'_>>,
    side_by_side: &mut bool,
    kept: &mut Option<Compiled>,
    out: &mut K,
    gate: &mut G,
) -> Result<usize, Fault>
    requires inside { place < length job.now.words }
    requires judged { AreJudged command.now job.now judged.now }
    requires shared { IsSharedOf (posed_word job.now.checked.grammar job.now.checked.algebra []) (option_copied shared) }
    requires kept { IfSome kept.old (ServesItsLength command.now.second job.now.checked) }
    ensures kept { IfSome kept.new (ServesItsLength command.now.second job.now.checked) }
    ensures told { SameTold (K.held out.old) (K.held out.new) }
    ensures faults { RisesWhere (K.faults out.old) (K.faults out.new) (IsWriteFault result) }
    ensures ending { AreFirstEnding command.now (place + 1)
        (drop place (posed_words job.now.checked.grammar job.now.checked.algebra job.now.words)) result
        (G.runs gate.old) (G.runs gate.new) (K.held out.old) (K.held out.new) }
{
    if !*side_by_side || !takes_groups(command) {
        return Ok(0);
    }
    if !matches!(command.mode, Mode::Lex) {
        return write_next_group(
            rt,
            alloc,
            command,
            place,
            job,
            judged,
            None,
            shared,
            side_by_side,
            out,
            gate,
        );
    }
    let words = job.words.as_slice();
    let word = &words[place];
    is_admitted(command, job, judged, words, place, word);
    match keep_for(alloc, command, job, judged, word, kept) {
        Ok(()) => write_next_group(
            rt,
            alloc,
            command,
            place,
            job,
            judged,
            kept.as_ref(),
            None,
            side_by_side,
            out,
            gate,
        ),
        Err(_) => {
            *side_by_side = false;
            Ok(0)
        }
    }
}

/// Reports the words from this place on that make a group, as `write_side_by_side` does, once there is what they are
/// solved by.
fn write_next_group<R: Threads + Sync, K: Sink, G: Gate>(
    rt: &R,
    alloc: Global,
    command: &Command<'_>,
    place: usize,
    job: &CheckedJob,
    judged: &Judged,
    made: Option<&Compiled>,
    shared: Option<&Shared<'_>>,
    side_by_side: &mut bool,
    out: &mut K,
    gate: &mut G,
) -> Result<usize, Fault>
    requires mode { IsGrouped command.now.mode }
    requires inside { place < length job.now.words }
    requires judged { AreJudged command.now job.now judged.now }
    requires made { IsMadeFor command.now job.now.checked (option_copied made) }
    requires shared { IsSharedOf (common_of job.now.checked (option_copied made)) (option_copied shared) }
    ensures told { SameTold (K.held out.old) (K.held out.new) }
    ensures faults { RisesWhere (K.faults out.old) (K.faults out.new) (IsWriteFault result) }
    ensures ending { AreFirstEnding command.now (place + 1)
        (drop place (posed_words job.now.checked.grammar job.now.checked.algebra job.now.words)) result
        (G.runs gate.old) (G.runs gate.new) (K.held out.old) (K.held out.new) }
{
    let problems = next_group(alloc, command, job, judged, made, place);
    if problems.len() < 2 {
        return Ok(0);
    }
    let number = place as u32 + 1;
    let written = write_group(
        rt, alloc, command, number, made, &problems, shared, out, gate,
    )?;
    *side_by_side = written == problems.len();
    Ok(written)
}

/// The problems of the words from this place on, as many as make a group, or as there is memory for. Words for which
/// something is made have one length.
fn next_group<'a>(
    alloc: Global,
    command: &Command<'_>,
    job: &'a CheckedJob,
    judged: &Judged,
    made: Option<&'a Compiled>,
    place: usize,
) -> Vec<Problem<'a>>
    requires inside { place < length job.now.words }
    requires judged { AreJudged command.now job.now judged.now }
    requires made { IsMadeFor command.now job.now.checked (option_copied made) }
    ensures few { length result.items ≤ 1024 }
    ensures small { (cells : ℕ) × HaveCells result.items cells × (cells ≤ most_cells) }
    ensures light { (nodes : ℕ) × HaveNodes job.now.checked.grammar (take (length result.items)
        (drop place job.now.words)) nodes × (nodes ≤ most_nodes) }
    ensures first { (asked : List PosedProblem) × (rest : List PosedProblem)
        × AllZip (IsSolvedFor command.now (option_copied made.entry)) asked result.items × (asked ++ rest
        ≡ drop place (posed_words job.now.checked.grammar job.now.checked.algebra job.now.words)) }
{
    let words = job.words.as_slice();
    let mut problems = Vec::new(alloc);
    let mut cells = 0u64;
    let mut nodes = 0u64;
    for at in place..words.len() {
        let word = &words[at];
        if !has_its_length(made, word) {
            break;
        }
        is_admitted(command, job, judged, words, at, word);
        let problem = problem_of(command, job, judged, made, word);
        cells = cells.saturating_add(problem.cells);
        nodes = nodes.saturating_add(nodes_of(&job.checked, &judged.rows.first, word));
        if !has_room(problems.len(), cells, nodes, command.workers as usize) {
            break;
        }
        match problems.push(problem) {
            Ok(()) => {}
            Err(_) => break,
        }
    }
    problems
}

/// Whether the word has the length for which something is made, if it is.
fn has_its_length(made: Option<&Compiled>, word: &Text) -> bool
    ensures { IsTrue result ↔ HasItsLength (option_copied made.entry) word.now }
{
    match made {
        Some(made) => made.serves(word),
        None => true,
    }
}

/// The problem by which the word is answered.
fn problem_of<'a>(
    command: &Command<'_>,
    job: &'a CheckedJob,
    judged: &Judged,
    made: Option<&'a Compiled>,
    word: &'a Text,
) -> Problem<'a>
    requires rows { AreJobRows job.now.checked job.now.second judged.now.rows }
    requires known { length word.now ≤ judged.now.rows.first.longest }
    requires bound { HasKept command.now.second job.now.checked.grammar job.now.checked.algebra
        judged.now.compiled.items (length word.now) }
    requires admissible { IsAdmissibleWith command.now.second
        (posed_word job.now.checked.grammar job.now.checked.algebra word.now) }
    requires made { IsMadeFor command.now job.now.checked (option_copied made) }
    requires long { HasItsLength (option_copied made) word.now }
    ensures { IsSolvedFor command.now (option_copied made.entry)
        (posed_word job.now.checked.grammar job.now.checked.algebra word.now) result }
{
    match made {
        Some(made) => made.problem_of(command, job, judged, word),
        None => admitted(&job.checked, &judged.rows.first, word),
    }
}

/// Whether a group of so many words takes one more, with which it has so many counted cells, and its trees so many nodes
/// at most.
fn has_room(words: usize, cells: u64, nodes: u64, workers: usize) -> bool
    ensures { IsTrue result ↔ HasRoom words cells nodes workers }
{
    words < MOST_WORDS
        && cells <= MOST_CELLS
        && nodes <= MOST_NODES
        && (words < workers || cells <= ENOUGH_CELLS)
}

/// Solves the problems side by side and reports them in order, the first of which has this number, as many as there is
/// memory for. What they share is worked out here, unless it is there for all words of the job.
fn write_group<R: Threads + Sync, K: Sink, G: Gate>(
    rt: &R,
    alloc: Global,
    command: &Command<'_>,
    number: u32,
    made: Option<&Compiled>,
    problems: &[Problem<'_>],
    shared: Option<&Shared<'_>>,
    out: &mut K,
    gate: &mut G,
) -> Result<usize, Fault>
    requires mode { IsGrouped command.now.mode }
    requires some { 0 < length problems.now }
    requires few { number + length problems.now ≤ 65537 }
    requires asked { (asked : List PosedProblem)
        × AllZip (IsSolvedFor command.now (option_copied made)) asked problems.now }
    requires alike { AreAlike problems.now (option_copied shared) }
    ensures told { SameTold (K.held out.old) (K.held out.new) }
    ensures faults { RisesWhere (K.faults out.old) (K.faults out.new) (IsWriteFault result) }
    ensures ending { (asked : List PosedProblem)
        → AllZip (IsSolvedFor command.now (option_copied made.entry)) asked problems.now
        → AreFirstEnding command.now number asked result
        (G.runs gate.old) (G.runs gate.new) (K.held out.old) (K.held out.new) }
{
    match shared {
        Some(shared) => write_over(
            rt, alloc, command, number, made, problems, shared, out, gate,
        ),
        None => match Shared::new(alloc, &problems[0]) {
            Ok(shared) => write_over(
                rt, alloc, command, number, made, problems, &shared, out, gate,
            ),
            Err(_) => Ok(0),
        },
    }
}

/// The same over what the problems share.
fn write_over<R: Threads + Sync, K: Sink, G: Gate>(
    rt: &R,
    alloc: Global,
    command: &Command<'_>,
    number: u32,
    made: Option<&Compiled>,
    problems: &[Problem<'_>],
    shared: &Shared<'_>,
    out: &mut K,
    gate: &mut G,
) -> Result<usize, Fault>
    requires mode { IsGrouped command.now.mode }
    requires few { number + length problems.now ≤ 65537 }
    requires asked { (asked : List PosedProblem)
        × AllZip (IsSolvedFor command.now (option_copied made)) asked problems.now }
    requires shared { All (λ p. shared.now ≡ without_word p) problems.now }
    ensures told { SameTold (K.held out.old) (K.held out.new) }
    ensures faults { RisesWhere (K.faults out.old) (K.faults out.new) (IsWriteFault result) }
    ensures ending { (asked : List PosedProblem)
        → AllZip (IsSolvedFor command.now (option_copied made.entry)) asked problems.now
        → AreFirstEnding command.now number asked result
        (G.runs gate.old) (G.runs gate.new) (K.held out.old) (K.held out.new) }
{
    match tell_all(rt, alloc, command, number, made, problems, shared, &*gate) {
        Ok(all) => write_told(all, out, gate),
        Err(_) => Ok(0),
    }
}

/// Solves the problems side by side, and tells of each on the thread that solved it, the first of which has this number.
/// The gate is passed.
fn tell_all<'a, R: Threads + Sync, G: Gate>(
    rt: &R,
    alloc: Global,
    command: &'a Command<'a>,
    number: u32,
    made: Option<&'a Compiled>,
    problems: &'a [Problem<'a>],
    shared: &'a Shared<'a>,
    gate: &G,
) -> Result<Vec<Option<Told>>, AllocError>
    requires mode { IsGrouped command.now.mode }
    requires few { number + length problems.now ≤ 65537 }
    requires asked { (asked : List PosedProblem)
        × AllZip (IsSolvedFor command.now (option_copied made)) asked problems.now }
    requires shared { All (λ p. shared.now ≡ without_word p) problems.now }
    ensures { IfOk result (λ all. AllZip (λ post told. IfSome told (IsTold post))
        (posts_from command.now (option_copied made.entry) number problems.now) all.items) }
{
    let slots = slots_for(alloc, command, number, made, problems, shared, gate)?;
    let threads = (command.workers as usize).min(slots.len());
    let done = filled(rt, threads, slots);
    told_of(alloc, done)
}

/// A slot for each problem, of which nothing is told yet.
fn slots_for<'a, 'g, G>(
    alloc: Global,
    command: &'a Command<'a>,
    number: u32,
    made: Option<&'a Compiled>,
    problems: &'a [Problem<'a>],
    shared: &'a Shared<'a>,
    gate: &'g G,
) -> Result<Vec<Slot<'a, 'g, G>>, AllocError>
    requires few { number + length problems.now ≤ 65537 }
    requires shared { All (λ p. shared.now ≡ without_word p) problems.now }
    ensures { IfOk result (λ slots. map post_of slots.items
        ≡ posts_from command.now (option_copied made.entry) number problems.now) }
{
    let mut slots = Vec::new(alloc);
    for place in 0..problems.len() {
        slots.push(Slot {
            alloc,
            command,
            made,
            number: number + place as u32,
            sharing: Sharing::new(&problems[place], shared),
            gate,
            told: None,
        })?;
    }
    Ok(slots)
}

/// What is told of each slot, in order.
fn told_of<G>(alloc: Global, slots: Vec<Slot<'_, '_, G>>) -> Result<Vec<Option<Told>>, AllocError>
    requires { All (λ slot. IfSome slot.told (IsTold (post_of slot))) slots.items }
    ensures { IfOk result (λ all. AllZip (λ post told. IfSome told (IsTold post))
        (map post_of slots.entry.items) all.items) }
{
    let mut all = Vec::new(alloc);
    for slot in slots {
        all.push(slot.told)?;
    }
    Ok(all)
}

/// Writes what is told of words in order, each report by one `write_whole`, and hands the gate each note, for as many
/// words as there was memory for.
fn write_told<K: Sink, G: Gate>(
    all: Vec<Option<Told>>,
    out: &mut K,
    gate: &mut G,
) -> Result<usize, Fault>
    ensures told { SameTold (K.held out.old) (K.held out.new) }
    ensures faults { RisesWhere (K.faults out.old) (K.faults out.new) (IsWriteFault result) }
    ensures ending { (command : Command) (number : ℕ) (asked : List PosedProblem)
        → AreTold command number asked all.items → AreFirstEnding command number asked result
        (G.runs gate.old) (G.runs gate.new) (K.held out.old) (K.held out.new) }
{
    demanded_cells_are_unique();
    let mut written = 0;
    for word in all {
        let Some(told) = word else {
            break;
        };
        write_one(told, out, gate)?;
        written += 1;
    }
    Ok(written)
}

/// Writes what is told of a word by one `write_whole`, and hands the gate its note, where it has one.
fn write_one<K: Sink, G: Gate>(told: Told, out: &mut K, gate: &mut G) -> Result<(), Fault>
    ensures told { SameTold (K.held out.old) (K.held out.new) }
    ensures faults { RisesWhere (K.faults out.old) (K.faults out.new) (status_after result ≡ WriteFault) }
    ensures ending { IsWordEnding (IsWrittenAs told) result
        (G.runs gate.old) (G.runs gate.new) (K.held out.old) (K.held out.new) }
{
    let Told { report, note } = told;
    match note {
        Some(note) => write_noted(&report, note, out, gate),
        None => write_report(out, &report),
    }
}
