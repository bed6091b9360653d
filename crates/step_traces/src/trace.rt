ghost use Rattle.std.specs.Prelude.{◌≡◌, [], IfOk, Some, map};
ghost use Rattle.step_traces.specs.Traces.{machine_of};

use cell_core::Turn;
use evaluators::Watcher;
use memo_table::Pass;
use memo_words::WordStep;
use std::alloc::{AllocError, Global};
use std::marker::Model;

/// A step of the machine of this number: the word that it was on and what it found there, as the machine's pass tells
/// it, and whether the machine goes on.
#[derive(Clone, Copy, Debug, PartialEq, Eq)]
pub struct TracedStep {
    pub machine: u32,
    pub step: Option<WordStep>,
    pub turn: Turn,
}

/// The steps that it was told of, in order. Once there was no memory for a step it keeps none. Contracts see the
/// numbers of the machines that made the steps.
#[derive(Drop)]
pub struct Trace {
    steps: Vec<TracedStep>,
    lost: bool,
}

impl Model for Trace {
    ghost use Rattle.std.specs.Prelude.{ℕ, List, Option};
    ghost use Rattle.step_traces.specs.Traces.{told};

    ghost Value = { Option (List ℕ) };

    ghost view = { λ trace. told trace.lost trace.steps.items };
}

impl Trace {
    /// A trace without steps, which takes memory for them from this allocator later. Takes none now.
    pub fn new(alloc: Global) -> Trace
        ensures { result ≡ Some [] }
    {
        Trace {
            steps: Vec::new(alloc),
            lost: false,
        }
    }

    /// The steps, in order.
    ///
    /// # Errors
    ///
    /// Where there was no memory for one of them.
    pub fn into_steps(self) -> Result<Vec<TracedStep>, AllocError>
        ensures { IfOk result (λ steps. self ≡ Some (map machine_of steps.items)) }
    {
        if self.lost {
            return Err(AllocError);
        }
        Ok(self.steps)
    }
}

impl Watcher<Pass> for Trace {
    ghost told = { λ told. told };

    fn stepped(&mut self, number: u32, pass: &Pass, turn: Turn) {
        if self.lost {
            return;
        }
        let step = TracedStep {
            machine: number,
            step: pass.last_step(),
            turn,
        };
        if self.steps.push(step).is_err() {
            self.lost = true;
        }
    }
}
