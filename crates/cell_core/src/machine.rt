//! A machine: a top-down computation of the answer of the axiom's cell that shares its results by a memo.

ghost use Rattle.std.specs.Prelude.{◌≡◌, ◌+◌, ◌-◌, ◌<◌, ◌≤◌, ◌^◌, ℕ, List, IfOk, IfSome, true, false, length, if◌then◌else◌, min};
ghost use Rattle.std.specs.Arc.{arc_value};
ghost use Rattle.adp_model.specs.Demand.{IsDemandedCount};
ghost use Rattle.adp_model.specs.SplitArguments.{SplitArgument, AreRuleArguments};
ghost use Rattle.memo_model.specs.StepsMade.{steps_made};
ghost use Rattle.memo_model.specs.Memos.{StayKnown};
ghost use Rattle.memo_model.specs.Machines.{IsMachine};
ghost use Rattle.memo_model.specs.StepBound.{step_bound, remaining_bound};
ghost use Rattle.cell_core.specs.Working.{IsTurn};
ghost use Rattle.cell_core.specs.FrameChanges.{standing, ChangesFrames, GainsWins};
ghost use Rattle.cell_core.specs.MachineViews.{IsNotedIn, IsFresh, LoadsAsTold, looked_for, next_loads};

use crate::cell_notes::CellNotes;
use crate::work::{Turn, Work, fresh_work, make_step};
use adp_model::Problem;
use memo_model::{Frame, Memo, Steps};
use random_orders::Orders;
use split_lines::Prepared;
use std::alloc::{AllocError, Global};
use std::marker::Model;
use std::sync::Arc;
use std::sync::ledger::Ledger;

/// A machine over a memo. Contracts see its state and its orders. At its end it puts its notes by, since another machine
/// of the problem may begin with their memory.
#[derive(Drop)]
pub struct Machine<'a, M: Memo> {
    problem: &'a Problem<'a>,
    orders: Orders,
    notes: Option<CellNotes<'a>>,
    kept: Option<CellNotes<'a>>,
    work: Work<M::Probe>,
}

impl<'a, M: Memo> Model for Machine<'a, M> {
    ghost use Rattle.std.specs.Prelude.{◌≡◌, false, IsSome, IfSome};
    ghost use Rattle.adp_model.specs.PosedProblem.{axiom_cell};
    ghost use Rattle.adp_model.specs.Demand.{IsDemanded};
    ghost use Rattle.cell_core.specs.Working.{HasRoom};
    ghost use Rattle.cell_core.specs.MachineViews.{MachineView, state_of};

    ghost Value = { MachineView M.Probe };

    ghost use Rattle.adp_model.specs.WideForm.{form_code};
    ghost use Rattle.std.specs.Coded.{codes};

    ghost coded = { Prim.hlevel (codes, form_code) };

    ghost view = { λ machine.
        record { machine = state_of machine.problem.now machine.notes machine.work; orders = machine.orders } };

    ghost invariant = { λ machine. (machine.work.ended ≡ false
        → HasRoom machine.problem.now machine.work × IsSome machine.notes
        × IsDemanded machine.problem.now (axiom_cell machine.problem.now))
        × IfSome machine.notes (λ notes. notes.problem ≡ machine.problem.now)
        × IfSome machine.kept (λ notes. notes.problem ≡ machine.problem.now) };
}

/// Puts the notes by, and gives back the room of the frames. It stands outside the step, which would pay for it each time.
#[inline(never)]
fn put_by<'a, P: Drop>(
    notes: &mut Option<CellNotes<'a>>,
    kept: &mut Option<CellNotes<'a>>,
    below: &mut Vec<Frame<P>>,
)
    ensures gone { notes.new ≡ None }
    ensures kept { kept.new ≡ notes.old }
    ensures frames { below.new.items ≡ below.old.items }
{
    *kept = notes.take();
    below.shrink_to_fit();
}

impl<'a, M: Memo> Machine<'a, M> {
    /// A machine of a problem, which works out what is shared for itself alone. Fails for want of memory alone.
    pub fn new(
        alloc: Global,
        problem: &'a Problem<'a>,
        orders: Orders,
    ) -> Result<Machine<'a, M>, AllocError>
        ensures fresh { IfOk result (λ machine. IsFresh problem.now orders machine) }
        ensures machine { IfOk result (λ machine. (pass : M.Pass)
            → IsMachine M.meaning IsNotedIn machine.machine pass) }
        ensures bound { IfOk result (λ machine. (pass : M.Pass) (m : ℕ) (arguments : List SplitArgument)
            → IsDemandedCount problem.now m → AreRuleArguments problem.now arguments
            → remaining_bound M.meaning m arguments machine.machine pass ≤ step_bound m (length arguments)) }
    {
        let prepared = Prepared::new(alloc, problem)?;
        let prepared = Arc::new(alloc, prepared)?;
        Machine::on(alloc, &prepared, orders)
    }

    /// A machine of a problem that others share. Fails for want of memory alone.
    pub fn on(
        alloc: Global,
        prepared: &Arc<Prepared<'a>, Global>,
        orders: Orders,
    ) -> Result<Machine<'a, M>, AllocError>
        ensures fresh { IfOk result (λ machine. IsFresh (arc_value prepared.now) orders machine) }
        ensures machine { IfOk result (λ machine. (pass : M.Pass)
            → IsMachine M.meaning IsNotedIn machine.machine pass) }
        ensures bound { IfOk result (λ machine. (pass : M.Pass) (m : ℕ) (arguments : List SplitArgument)
            → IsDemandedCount (arc_value prepared.now) m → AreRuleArguments (arc_value prepared.now) arguments
            → remaining_bound M.meaning m arguments machine.machine pass ≤ step_bound m (length arguments)) }
    {
        Machine::over(alloc, prepared, None, orders)
    }

    /// The same, in the memory of the notes that a machine of the problem has put by at its end, if it still has them.
    pub fn after(
        alloc: Global,
        prepared: &Arc<Prepared<'a>, Global>,
        before: &mut Machine<'a, M>,
        orders: Orders,
    ) -> Result<Machine<'a, M>, AllocError>
        requires { before.old.machine.problem ≡ arc_value prepared.now }
        ensures before { before.new ≡ before.old }
        ensures fresh { IfOk result (λ machine. IsFresh (arc_value prepared.now) orders machine) }
        ensures machine { IfOk result (λ machine. (pass : M.Pass)
            → IsMachine M.meaning IsNotedIn machine.machine pass) }
        ensures bound { IfOk result (λ machine. (pass : M.Pass) (m : ℕ) (arguments : List SplitArgument)
            → IsDemandedCount (arc_value prepared.now) m → AreRuleArguments (arc_value prepared.now) arguments
            → remaining_bound M.meaning m arguments machine.machine pass ≤ step_bound m (length arguments)) }
    {
        let kept = before.take_notes();
        Machine::over(alloc, prepared, kept, orders)
    }

    /// The same, in the memory of these notes, if there are any.
    fn over(
        alloc: Global,
        prepared: &Arc<Prepared<'a>, Global>,
        kept: Option<CellNotes<'a>>,
        orders: Orders,
    ) -> Result<Machine<'a, M>, AllocError>
        requires { IfSome kept (λ notes. notes.problem ≡ arc_value prepared.now) }
        ensures fresh { IfOk result (λ machine. IsFresh (arc_value prepared.now) orders machine) }
        ensures machine { IfOk result (λ machine. (pass : M.Pass)
            → IsMachine M.meaning IsNotedIn machine.machine pass) }
        ensures bound { IfOk result (λ machine. (pass : M.Pass) (m : ℕ) (arguments : List SplitArgument)
            → IsDemandedCount (arc_value prepared.now) m → AreRuleArguments (arc_value prepared.now) arguments
            → remaining_bound M.meaning m arguments machine.machine pass ≤ step_bound m (length arguments)) }
    {
        let problem = prepared.problem();
        let work = fresh_work(alloc, problem)?;
        let notes = CellNotes::over(alloc, prepared, kept)?;
        Ok(Machine {
            problem,
            orders,
            notes: Some(notes),
            kept: None,
            work,
        })
    }

    /// Makes exactly one step of the memo, and counts it; or none where the machine has ended, and then pass and
    /// machine are as before. Takes no memory.
    #[inline(always)]
    pub fn step<L: Ledger>(&mut self, memo: &M, pass: &mut M::Pass, steps: &mut Steps<L>) -> Turn
        requires memo { M.problem memo.now ≡ self.old.machine.problem }
        requires own { M.is_of memo.now pass.old }
        requires machine { IsMachine M.meaning IsNotedIn self.old.machine pass.old }
        ensures problem { self.new.machine.problem ≡ self.old.machine.problem }
        ensures own { M.is_of memo.now pass.new }
        ensures on { self.old.machine.ended ≡ false → M.goes_on pass.old pass.new }
        ensures still { self.old.machine.ended ≡ true → pass.new ≡ pass.old }
        ensures share { M.meaning.share pass.new ≡ M.meaning.share pass.old }
        ensures known { StayKnown (M.meaning.known pass.old) (M.meaning.known pass.new) }
        ensures stays { self.old.machine.ended ≡ true → self.new ≡ self.old }
        ensures machine { IsMachine M.meaning IsNotedIn self.new.machine pass.new }
        ensures steps { steps_made steps.new
            ≡ (if self.old.machine.ended then steps_made steps.old else steps_made steps.old + 1) }
        ensures moves { self.new.machine.moves
            ≡ (if self.old.machine.ended then self.old.machine.moves
            else min (self.old.machine.moves + 1) (2 ^ 64 - 1)) }
        ensures wins { GainsWins M.meaning pass.old pass.new self.old.machine.wins self.new.machine.wins }
        ensures frames { ChangesFrames M.meaning self.old.machine.problem pass.old pass.new
            (standing self.old.machine.frames self.old.machine.opened self.old.orders)
            (standing self.new.machine.frames self.new.machine.opened self.new.orders) }
        ensures turn { IsTurn self.new.machine.ended self.new.machine.score result }
        ensures loads { self.old.machine.ended ≡ false → LoadsAsTold M.meaning pass.new
            (looked_for self.old.machine.problem self.old.machine.hand self.old.machine.ready)
            (next_loads M.meaning (M.fresh_loads memo.now) self.old.machine) }
        ensures bound { self.old.machine.ended ≡ false → (m : ℕ) (arguments : List SplitArgument)
            → IsDemandedCount self.old.machine.problem m → AreRuleArguments self.old.machine.problem arguments
            → remaining_bound M.meaning m arguments self.new.machine pass.new
            < remaining_bound M.meaning m arguments self.old.machine pass.old }
    {
        if self.work.ended {
            return Turn::Ended(self.work.score);
        }
        let Some(notes) = &mut self.notes else {
            unreachable!();
        };
        make_step(
            self.problem,
            &mut self.orders,
            notes,
            memo,
            pass,
            &mut self.work,
            steps,
        );
        self.work.moves = self.work.moves.saturating_add(1);
        if !self.work.ended {
            return Turn::Going;
        }
        put_by(&mut self.notes, &mut self.kept, &mut self.work.below);
        Turn::Ended(self.work.score)
    }

    /// Gives away the notes that it has put by.
    fn take_notes(&mut self) -> Option<CellNotes<'a>>
        ensures same { self.new ≡ self.old }
        ensures problem { IfSome result (λ notes. notes.problem ≡ self.old.machine.problem) }
    {
        self.kept.take()
    }

    /// Gives back the memory of the notes that it has put by at its end. Takes no memory.
    pub fn forget_notes(&mut self)
        ensures { self.new ≡ self.old }
    {
        self.kept = None;
    }

    /// Sets whether the machine passes over noted arguments, as it does at first; where it doesn't, each rule argument
    /// costs its own look. Takes no memory.
    pub fn set_skips(&mut self, skips: bool)
        ensures { self.new ≡ self.old }
    {
        if let Some(notes) = &mut self.notes {
            notes.set_skips(skips);
        }
    }

    /// Whether the machine has ended. Takes no memory.
    pub fn ended(&self) -> bool
        ensures { result ≡ self.now.machine.ended }
    {
        self.work.ended
    }

    /// Whether the next step loads a record word. Takes no memory.
    pub fn loads_record_word(&self, memo: &M) -> bool
        requires memo { M.problem memo.now ≡ self.now.machine.problem }
        ensures { result ≡ next_loads M.meaning (M.fresh_loads memo.now) self.now.machine }
    {
        if self.work.ended {
            return false;
        }
        if let Some(hand) = &self.work.hand {
            return memo.loads_record_word(&hand.probe);
        }
        if self.work.ready.is_some() {
            return false;
        }
        let probe = memo.probe(self.problem.axiom_cell());
        memo.loads_record_word(&probe)
    }

    /// How many of its publications were won. Takes no memory.
    pub fn wins(&self) -> u64
        ensures { result ≡ self.now.machine.wins }
    {
        self.work.wins
    }

    /// How many steps of the memo it counted; it stays at 2^64 - 1 once it is there. Takes no memory.
    pub fn moves(&self) -> u64
        ensures { result ≡ self.now.machine.moves }
    {
        self.work.moves
    }
}
