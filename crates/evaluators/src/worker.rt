//! One evaluator: it steps its machine over the table until this has ended.

ghost use Rattle.std.specs.Prelude.{◌≡◌};
ghost use Rattle.evaluators.specs.Runs.{moves_of};
ghost use Rattle.evaluators.specs.Watching.{IsToldOn};
ghost use Rattle.evaluators.specs.Working.{IsReady, IsDone, post_of};

use crate::driving::{Door, drive};
use crate::watcher::Watcher;
use cell_core::Machine;
use memo_table::{Pass, Table};

/// An evaluator: its machine, its pass of the table, its number, and the seed that its orders were drawn by.
#[derive(Drop)]
pub(crate) struct Worker<M> {
    pub(crate) machine: M,
    pub(crate) pass: Pass,
    pub(crate) number: u32,
    pub(crate) seed: u64,
}

/// An evaluator whose machine works over the table.
pub(crate) type TableWorker<'a> = Worker<Machine<'a, Table>>;

/// Steps the worker's machine until it has ended. The door is passed before each step that loads a record word, and the
/// watcher is told of each step; both know the worker by this number.
pub(crate) fn work<D: Door, W: Watcher<Pass>>(
    table: &Table,
    door: &D,
    watcher: &mut W,
    number: u32,
    worker: &mut TableWorker<'_>,
)
    requires ready { IsReady table.now worker.old }
    ensures done { IsDone table.now worker.new }
    ensures post { post_of worker.new ≡ post_of worker.old }
    ensures told { IsToldOn number (W.told watcher.old) (W.told watcher.new) (moves_of worker.old.machine)
        (moves_of worker.new.machine) }
{
    let Worker {
        machine,
        pass,
        number: _,
        seed: _,
    } = worker;
    drive(table, door, watcher, number, machine, pass);
}
