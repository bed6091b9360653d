//! A worker with the gate that it passes, as it is run in a thread of its own.

use crate::driving::Door;
use crate::gate::Gate;
use crate::halves::Evaluator;
use crate::watcher::Unwatched;
use crate::worker::{TableWorker, work};
use memo_table::Table;

/// A worker with its gate.
#[derive(Drop)]
pub(crate) struct GatedWorker<'g, W, G> {
    pub(crate) worker: W,
    pub(crate) gate: &'g G,
}

/// The way through a gate.
#[derive(Drop)]
pub struct Way<'g, G> {
    pub gate: &'g G,
}

impl<'g, G: Gate> Door for Way<'g, G> {
    fn pass(&self, worker: u32) {
        self.gate.pass(worker);
    }
}

impl<'a, 'g, G: Gate> Evaluator for GatedWorker<'g, TableWorker<'a>, G> {
    ghost use Rattle.evaluators.specs.Working.{IsReady, IsDone, post_of};

    ghost is_ready = { λ words gated. IsReady words gated.worker };

    ghost is_done = { λ words gated. IsDone words gated.worker };

    ghost post = { λ gated. post_of gated.worker };

    fn run(&mut self, table: &Table) {
        let way = Way { gate: self.gate };
        let number = self.worker.number;
        work(table, &way, &mut Unwatched, number, &mut self.worker);
        self.worker.machine.forget_notes();
    }
}
