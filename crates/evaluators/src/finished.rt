ghost use Rattle.std.specs.Prelude.{◌≡◌, ◌-◌, ◌^◌, min, sum, IfOk};

use adp_model::laws::demand::demanded_cells_are_unique;
use adp_model::laws::existence::demanded_cells_are_listed;
use adp_model::{Answer, Problem, Sequence, Text};
use cell_core::Machine;
use memo_table::{Closed, Table};
use std::alloc::{AllocError, Global};
use std::marker::Model;

/// What is left when the evaluators of a problem have run: the closed table, the machines by their numbers, how many
/// answers each of them put into the table, and the answer of the axiom's cell.
#[derive(Drop)]
pub struct Finished<'a> {
    pub closed: Closed,
    pub machines: Vec<Machine<'a, Table>>,
    pub wins: Vec<u64>,
    pub answer: Answer,
}

impl Finished<'_> {
    ghost use Rattle.std.specs.Prelude.{ℕ};
    ghost use Rattle.adp_model.specs.Demand.{IsDemandedCount};
    ghost use Rattle.adp_model.specs.PosedProblem.{PosedProblem};
    ghost use Rattle.evaluators.specs.Runs.{IsFinished, IsNoteOf};

    /// The number of demanded cells, each of which one machine put into the table. Takes no memory.
    pub fn demanded_cells(&self) -> u64
        ensures { (problem : PosedProblem) (seed : ℕ) → IsFinished problem seed self.now
            → IsDemandedCount problem result }
    {
        self.closed.admissible();
        demanded_cells_are_listed();
        demanded_cells_are_unique();
        sum_of(&self.wins)
    }

    /// The note of this run, which was of the problem and under the seed. No other call makes one.
    ///
    /// # Errors
    ///
    /// Where there is no memory for it.
    pub fn note(
        &self,
        alloc: Global,
        problem: &Problem<'_>,
        seed: u64,
    ) -> Result<NotedRun, AllocError>
        requires { IsFinished problem.now seed self.now }
        ensures { IfOk result (IsNoteOf problem.now seed self.now) }
    {
        let note = self.told(alloc, problem, seed)?;
        Ok(NotedRun { note })
    }

    /// What is told of this run.
    fn told(&self, alloc: Global, problem: &Problem<'_>, seed: u64) -> Result<RunNote, AllocError>
        requires { IsFinished problem.now seed self.now }
        ensures { IfOk result (IsNoteOf problem.now seed self.now) }
    {
        let mut moves = Vec::new(alloc);
        let mut ended = Vec::new(alloc);
        for machine in &self.machines {
            moves.push(machine.moves())?;
            ended.push(machine.ended())?;
        }
        Ok(RunNote {
            word: word_of(alloc, problem)?,
            algebra: problem.algebra,
            seed,
            answer: self.answer,
            cells: self.demanded_cells(),
            wins: Sequence::new(Vec::from_slice(alloc, &self.wins)?),
            moves: Sequence::new(moves),
            ended: Sequence::new(ended),
        })
    }
}

/// The sum of the numbers, or the greatest number where that is less.
fn sum_of(numbers: &[u64]) -> u64
    ensures { result ≡ min (sum numbers.now) (2 ^ 64 - 1) }
{
    let mut sum = 0u64;
    for number in numbers {
        sum = sum.saturating_add(*number);
    }
    sum
}

/// A copy of the word.
fn word_of(alloc: Global, problem: &Problem<'_>) -> Result<Text, AllocError>
    ensures { IfOk result (λ text. text ≡ problem.now.word) }
{
    Ok(Text::new(Vec::from_slice(alloc, problem.word.bytes())?))
}

/// What a run is remembered by: its word, the number of its algebra, the seed of its orders, the answer and the number
/// of demanded cells, and for each machine its wins, its moves and whether it has ended.
#[derive(Drop)]
pub struct RunNote {
    pub word: Text,
    pub algebra: u32,
    pub seed: u64,
    pub answer: Answer,
    pub cells: u64,
    pub wins: Sequence<u64>,
    pub moves: Sequence<u64>,
    pub ended: Sequence<bool>,
}

/// The note of evaluators that ran, made of what they left and of nothing else. Contracts see what it tells.
#[derive(Drop)]
pub struct NotedRun {
    note: RunNote,
}

impl Model for NotedRun {
    ghost use Rattle.evaluators.specs.declared.finished.RunNote.{RunNote as Note};

    ghost Value = { Note };

    ghost use Rattle.evaluators.specs.Runs.{IsOfSomeRun};

    ghost view = { λ run. run.note };

    ghost invariant = { λ run. IsOfSomeRun run.note };
}

impl NotedRun {
    ghost use Rattle.evaluators.specs.Runs.{IsOfSomeRun};

    /// What it tells. Takes no memory.
    pub fn note(&self) -> &RunNote
        ensures note { result.now ≡ self.now }
        ensures run { IsOfSomeRun self.now }
    {
        &self.note
    }
}
