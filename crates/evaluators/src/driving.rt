//! A machine that is stepped until it has ended.

ghost use Rattle.std.specs.Prelude.{◌≡◌, ◌<◌, true};
ghost use Rattle.evaluators.specs.Driving.{CanGoOn, HasGoneOn};
ghost use Rattle.evaluators.specs.Watching.{IsToldOn};

use crate::watcher::Watcher;
use adp_model::laws::existence::{
    demanded_cells_are_listed, rule_arguments_are_few, rule_arguments_are_listed,
};
use cell_core::Machine;
use memo_model::{Memo, Steps};
use random_orders::draws_advance_the_generator;
use std::marker::Brand;
use std::sync::ledger::{Blank, Ledger};

/// What a worker passes before each step that loads a record word. It isn't a gate itself: what is run in a thread of
/// its own may call no function over a gate, whose bound speaks of threads.
pub trait Door {
    /// Called before a worker loads a record word. Nothing is promised but that it returns.
    fn pass(&self, worker: u32);
}

/// Steps a machine of worker `number` until it has ended. The door is passed before each step that loads a record word,
/// and the watcher is told of each step.
pub(crate) fn drive<M: Memo, D: Door, W: Watcher<M::Pass>>(
    memo: &M,
    door: &D,
    watcher: &mut W,
    number: u32,
    machine: &mut Machine<'_, M>,
    pass: &mut M::Pass,
)
    requires memo { M.problem memo.now ≡ machine.old.machine.problem }
    requires ready { CanGoOn M.meaning (M.is_of memo.now) machine.old pass.old }
    ensures on { HasGoneOn M.meaning (M.is_of memo.now) M.goes_on machine.old machine.new
        pass.old pass.new }
    ensures ended { machine.new.machine.ended ≡ true }
    ensures told { IsToldOn number (W.told watcher.old) (W.told watcher.new) machine.old.machine.moves
        machine.new.machine.moves }
{
    drive_counted::<M, Brand, D, W>(memo, door, watcher, number, Blank::new(1), machine, pass);
}

/// The same, with a counter of steps that is opened for it.
fn drive_counted<M: Memo, L: Ledger, D: Door, W: Watcher<M::Pass>>(
    memo: &M,
    door: &D,
    watcher: &mut W,
    number: u32,
    blank: Blank,
    machine: &mut Machine<'_, M>,
    pass: &mut M::Pass,
)
    requires name { blank.name ≡ L.name }
    requires parts { (blank.parts ≡ L.parts) × (0 < blank.parts) }
    requires memo { M.problem memo.now ≡ machine.old.machine.problem }
    requires ready { CanGoOn M.meaning (M.is_of memo.now) machine.old pass.old }
    ensures on { HasGoneOn M.meaning (M.is_of memo.now) M.goes_on machine.old machine.new
        pass.old pass.new }
    ensures ended { machine.new.machine.ended ≡ true }
    ensures told { IsToldOn number (W.told watcher.old) (W.told watcher.new) machine.old.machine.moves
        machine.new.machine.moves }
{
    demanded_cells_are_listed();
    rule_arguments_are_listed();
    rule_arguments_are_few();
    draws_advance_the_generator();
    let mut steps = Steps::<L>::open(blank);
    // A machine makes fewer steps than this.
    'steps: for _ in 0..u128::MAX {
        if machine.ended() {
            return;
        }
        if machine.loads_record_word(memo) {
            door.pass(number);
        }
        let turn = machine.step(memo, pass, &mut steps);
        watcher.stepped(number, pass, turn);
    }
    unreachable!()
}
