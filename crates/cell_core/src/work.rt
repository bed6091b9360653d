ghost use Rattle.std.specs.Prelude.{◌≡◌, ◌≢◌, ◌↔◌, ◌⊎◌, ◌+◌, ◌<◌, ◌≤◌, ◌^◌, ℕ, true, false, None, Some, List, [], ◌∷◌, IfOk, IfSome, IsTrue, length, vec_capacity};
ghost use Rattle.adp_model.specs.declared.cell.Cell.{Cell as AnyCell};
ghost use Rattle.adp_model.specs.PosedProblem.{PosedProblem, axiom_cell};
ghost use Rattle.adp_model.specs.Answers.{IsAnswer};
ghost use Rattle.adp_model.specs.Demand.{IsDemanded, IsDemandedCount};
ghost use Rattle.adp_model.specs.SplitArguments.{SplitArgument, AreRuleArguments};
ghost use Rattle.memo_model.specs.StepsMade.{steps_made};
ghost use Rattle.memo_model.specs.Visits.{IsWalk};
ghost use Rattle.memo_model.specs.Memos.{HasLoaded, IsScoreOf, StayKnown};
ghost use Rattle.memo_model.specs.Machines.{IsUnderWay};
ghost use Rattle.rand_pcg.specs.Lcg.{Lcg};
ghost use Rattle.random_orders.specs.Draws.{drawn_turns};
ghost use Rattle.cell_core.specs.Working.{all_frames, with_hand, IsSound, IsOpened, IsClosed, IsFreshWork, work_left};
ghost use Rattle.cell_core.specs.MachineViews.{loads_at, looked_for, LoadsAsTold};
ghost use Rattle.cell_core.specs.FrameChanges.{standing, turn_bounds, ChangesFrames, GainsWins};

use crate::notes::Notes;
use adp_model::laws::demand::demanded_cells_are_counted;
use adp_model::laws::existence::demanded_cells_are_listed;
use adp_model::laws::heights::heights_fall;
use adp_model::laws::well_formed::numbers_fit_together;
use adp_model::{Answer, Cell, Problem};
use argument_search::walks_move_on;
use memo_model::{Frame, Hand, Look, Memo, Publish, Steps, Visit};
use random_orders::Orders;
use std::alloc::{AllocError, Global};
use std::sync::ledger::Ledger;

/// What a step of a machine tells: that it goes on, or that it has ended, with the score of the axiom's answer.
#[derive(Clone, Copy, Debug, PartialEq, Eq)]
pub enum Turn {
    Going,
    Ended(Option<i64>),
}

/// What a machine works at: the look that is being made, where there is one; its frames, the top one by itself; the
/// answer of the top frame's cell, once it is found; how many frames it opened, how many of its publications were won,
/// how many steps it made; and, at the end, the score of the axiom's cell.
#[derive(Drop)]
pub struct Work<P> {
    pub hand: Option<Hand<P>>,
    pub top: Option<Frame<P>>,
    pub below: Vec<Frame<P>>,
    pub ready: Option<Answer>,
    pub opened: u64,
    pub wins: u64,
    pub moves: u64,
    pub ended: bool,
    pub score: Option<i64>,
}

/// Whether the axiom's cell is demanded: whether the word's length lies between the axiom's sizes.
fn demands_axiom(problem: &Problem<'_>) -> bool
    ensures { IsTrue result ↔ IsDemanded problem.now (axiom_cell problem.now) }
{
    problem.admissible();
    demanded_cells_are_counted();
    numbers_fit_together();
    let cell = problem.axiom_cell();
    let letters = u32::from(cell.to);
    let (least, greatest) = problem.sizes(cell.rule);
    if letters < least {
        return false;
    }
    match greatest {
        Some(greatest) => {
            if greatest < letters {
                return false;
            }
            true
        }
        None => true,
    }
}

/// The work of a fresh machine: nothing has begun, and there is room for all frames. Where no cell is demanded it has
/// ended. Fails for want of memory alone.
pub fn fresh_work<P: Drop>(alloc: Global, problem: &Problem<'_>) -> Result<Work<P>, AllocError>
    ensures { IfOk result (IsFreshWork problem.now) }
{
    problem.admissible();
    numbers_fit_together();
    let ended = !demands_axiom(problem);
    let room = (problem.letters().len() + 1) * problem.grammar.rules.as_slice().len();
    let below = Vec::with_capacity(alloc, room)?;
    Ok(Work {
        hand: None,
        top: None,
        below,
        ready: None,
        opened: 0,
        wins: 0,
        moves: 0,
        ended,
        score: None,
    })
}

/// The look for the axiom's cell, by which a fresh machine begins.
fn first_look<M: Memo, N: Notes>(
    problem: &Problem<'_>,
    notes: &N,
    memo: &M,
    pass: &M::Pass,
    work: &Work<M::Probe>,
) -> Hand<M::Probe>
    requires memo { M.problem memo.now ≡ problem.now }
    requires own { M.is_of memo.now pass.now }
    requires going { work.now.ended ≡ false }
    requires no_hand { work.now.hand ≡ None }
    requires no_answer { work.now.ready ≡ None }
    requires fresh { work.now.top ≡ None }
    requires sound { IsSound M.meaning problem.now (N.noted notes.now) work.now pass.now }
    ensures cell { result.cell ≡ axiom_cell problem.now }
    ensures loads { M.meaning.loads result.probe ≡ M.fresh_loads memo.now }
    ensures sound { IsSound M.meaning problem.now (N.noted notes.now) (with_hand work.now result) pass.now }
    ensures lower { (m : ℕ) (arguments : List SplitArgument) → IsDemandedCount problem.now m
        → work_left M.meaning problem.now m arguments (with_hand work.now result) pass.now
        ≤ work_left M.meaning problem.now m arguments work.now pass.now }
{
    problem.admissible();
    heights_fall();
    let cell = problem.axiom_cell();
    let probe = memo.probe(cell);
    Hand { cell, probe }
}

/// Takes a probe in hand for the next argument of the top frame's visit, or finds the answer of its cell where none is
/// left.
#[inline(never)]
fn advance<M: Memo, N: Notes>(
    problem: &Problem<'_>,
    notes: &mut N,
    memo: &M,
    pass: &M::Pass,
    work: &mut Work<M::Probe>,
)
    requires memo { M.problem memo.now ≡ problem.now }
    requires notes { N.problem notes.old ≡ problem.now }
    requires own { M.is_of memo.now pass.now }
    requires going { work.old.ended ≡ false }
    requires no_hand { work.old.hand ≡ None }
    requires no_answer { work.old.ready ≡ None }
    requires begun { work.old.top ≢ None }
    requires sound { IsSound M.meaning problem.now (N.noted notes.old) work.old pass.now }
    ensures notes { N.problem notes.new ≡ problem.now }
    ensures going { work.new.ended ≡ false }
    ensures under_way { IsUnderWay work.new.hand work.new.ready (all_frames work.new) }
    ensures stands { (orders : Lcg) → standing (all_frames work.new) work.new.opened orders
        ≡ standing (all_frames work.old) work.old.opened orders }
    ensures numbers { (work.new.wins ≡ work.old.wins) × (work.new.moves ≡ work.old.moves) }
    ensures sound { IsSound M.meaning problem.now (N.noted notes.new) work.new pass.now }
    ensures lower { (m : ℕ) (arguments : List SplitArgument) → IsDemandedCount problem.now m
        → AreRuleArguments problem.now arguments
        → work_left M.meaning problem.now m arguments work.new pass.now
        ≤ work_left M.meaning problem.now m arguments work.old pass.now }
{
    problem.admissible();
    heights_fall();
    walks_move_on();
    let Some(top) = &mut work.top else {
        unreachable!();
    };
    match notes.next_argument(top.visit) {
        Some((position, cell)) => {
            top.visit.at = Some(position);
            let probe = memo.probe(cell);
            work.hand = Some(Hand { cell, probe });
        }
        None => work.ready = Some(notes.answer(top.visit.cell)),
    }
}

/// The visit of an opened cell: its four turns are the next four draws.
fn opened_visit(problem: &Problem<'_>, orders: &mut Orders, cell: Cell) -> Visit
    requires demanded { IsDemanded problem.now cell }
    ensures cell { result.cell ≡ cell }
    ensures at { result.at ≡ None }
    ensures walk { IsWalk problem.now result }
    ensures drawn { (result.first ∷ result.turns, orders.new) ≡ drawn_turns (turn_bounds problem.now cell) orders.old }
{
    problem.admissible();
    demanded_cells_are_counted();
    let count = problem.alternatives(cell.rule).len();
    let positions = u32::from(cell.to - cell.from) + 1;
    let first = orders.turn(count as u32);
    let turns = [
        orders.turn(positions),
        orders.turn(positions),
        orders.turn(positions),
    ];
    Visit {
        cell,
        first,
        turns,
        at: None,
    }
}

/// Puts a frame on top.
fn open<P: Drop>(work: &mut Work<P>, frame: Frame<P>)
    requires nothing_below { work.old.top ≡ None → work.old.below.items ≡ [] }
    requires room { IfSome work.old.top (λ top. length work.old.below.items < vec_capacity work.old.below) }
    requires few { work.old.opened + 1 < 2 ^ 64 }
    ensures { IsOpened work.old work.new frame }
{
    if let Some(top) = work.top.take() {
        match work.below.push(top) {
            Ok(()) => {}
            Err(_) => unreachable!(),
        }
    }
    work.top = Some(frame);
    work.opened += 1;
}

/// Makes one step of the look in hand.
fn look<M: Memo, N: Notes, L: Ledger>(
    problem: &Problem<'_>,
    orders: &mut Orders,
    notes: &mut N,
    memo: &M,
    pass: &mut M::Pass,
    work: &mut Work<M::Probe>,
    mut hand: Hand<M::Probe>,
    steps: &mut Steps<L>,
)
    requires memo { M.problem memo.now ≡ problem.now }
    requires notes { N.problem notes.old ≡ problem.now }
    requires own { M.is_of memo.now pass.old }
    requires going { work.old.ended ≡ false }
    requires no_hand { work.old.hand ≡ None }
    requires no_answer { work.old.ready ≡ None }
    requires sound { IsSound M.meaning problem.now (N.noted notes.old) (with_hand work.old hand) pass.old }
    ensures notes { N.problem notes.new ≡ problem.now }
    ensures own { M.is_of memo.now pass.new }
    ensures on { M.goes_on pass.old pass.new }
    ensures share { M.meaning.share pass.new ≡ M.meaning.share pass.old }
    ensures known { StayKnown (M.meaning.known pass.old) (M.meaning.known pass.new) }
    ensures wins { GainsWins M.meaning pass.old pass.new work.old.wins work.new.wins }
    ensures moves { work.new.moves ≡ work.old.moves }
    ensures frames { ChangesFrames M.meaning problem.now pass.old pass.new
        (standing (all_frames work.old) work.old.opened orders.old)
        (standing (all_frames work.new) work.new.opened orders.new) }
    ensures next { (work.new.hand ≡ None) → work.new.ended ≡ false → work.new.top ≢ None }
    ensures no_answer { work.new.ready ≡ None }
    ensures loads { (M.meaning.loads hand.probe ≡ true)
        ↔ ((found : ℕ) × HasLoaded M.meaning pass.new hand.cell found) }
    ensures steps { steps_made steps.new ≡ steps_made steps.old + 1 }
    ensures sound { IsSound M.meaning problem.now (N.noted notes.new) work.new pass.new }
    ensures lower { (m : ℕ) (arguments : List SplitArgument) → IsDemandedCount problem.now m
        → work_left M.meaning problem.now m arguments work.new pass.new
        < work_left M.meaning problem.now m arguments (with_hand work.old hand) pass.old }
{
    problem.admissible();
    heights_fall();
    demanded_cells_are_listed();
    numbers_fit_together();
    match memo.look_step(pass, &mut hand.probe, steps) {
        Look::Going => work.hand = Some(hand),
        Look::Unpublished => {
            let visit = opened_visit(problem, orders, hand.cell);
            open(
                work,
                Frame {
                    visit,
                    probe: hand.probe,
                },
            );
        }
        Look::Found(score) => {
            notes.note(hand.cell, score);
            match &work.top {
                Some(_) => {}
                None => {
                    work.ended = true;
                    work.score = score;
                }
            }
        }
    }
}

/// The score of an answer.
fn score_of(answer: Answer) -> Option<i64>
    ensures { (p : PosedProblem) (cell : AnyCell) → IsAnswer p cell answer → IsScoreOf p cell result }
{
    match answer {
        Answer::NoCandidate => None,
        Answer::Best { score, choice: _ } => Some(score),
    }
}

/// Notes the score of the cell of the top frame, and takes that away. The frame below it is on top then, or the machine
/// has ended.
fn close<N: Notes, P: Drop>(notes: &mut N, work: &mut Work<P>, cell: Cell, score: Option<i64>)
    requires demanded { IsDemanded (N.problem notes.old) cell }
    requires score { IsScoreOf (N.problem notes.old) cell score }
    ensures notes { N.problem notes.new ≡ N.problem notes.old }
    ensures noted { (other : AnyCell) → N.noted notes.new other ↔ (N.noted notes.old other ⊎ (other ≡ cell)) }
    ensures closed { IsClosed work.old work.new score }
{
    notes.note(cell, score);
    work.ready = None;
    match work.below.pop() {
        Some(next) => work.top = Some(next),
        None => {
            work.top = None;
            work.ended = true;
            work.score = score;
        }
    }
}

/// Makes one step of the top frame's publication.
fn publish<M: Memo, N: Notes, L: Ledger>(
    problem: &Problem<'_>,
    orders: &Orders,
    notes: &mut N,
    memo: &M,
    pass: &mut M::Pass,
    work: &mut Work<M::Probe>,
    answer: Answer,
    steps: &mut Steps<L>,
)
    requires memo { M.problem memo.now ≡ problem.now }
    requires notes { N.problem notes.old ≡ problem.now }
    requires own { M.is_of memo.now pass.old }
    requires going { work.old.ended ≡ false }
    requires no_hand { work.old.hand ≡ None }
    requires answer { work.old.ready ≡ Some answer }
    requires sound { IsSound M.meaning problem.now (N.noted notes.old) work.old pass.old }
    ensures notes { N.problem notes.new ≡ problem.now }
    ensures own { M.is_of memo.now pass.new }
    ensures on { M.goes_on pass.old pass.new }
    ensures share { M.meaning.share pass.new ≡ M.meaning.share pass.old }
    ensures known { StayKnown (M.meaning.known pass.old) (M.meaning.known pass.new) }
    ensures wins { GainsWins M.meaning pass.old pass.new work.old.wins work.new.wins }
    ensures moves { work.new.moves ≡ work.old.moves }
    ensures frames { ChangesFrames M.meaning problem.now pass.old pass.new
        (standing (all_frames work.old) work.old.opened orders.now)
        (standing (all_frames work.new) work.new.opened orders.now) }
    ensures next { (work.new.ready ≡ None) → work.new.ended ≡ false → work.new.top ≢ None }
    ensures no_hand { work.new.hand ≡ None }
    ensures steps { steps_made steps.new ≡ steps_made steps.old + 1 }
    ensures sound { IsSound M.meaning problem.now (N.noted notes.new) work.new pass.new }
    ensures lower { (m : ℕ) (arguments : List SplitArgument) → IsDemandedCount problem.now m
        → work_left M.meaning problem.now m arguments work.new pass.new
        < work_left M.meaning problem.now m arguments work.old pass.old }
{
    problem.admissible();
    heights_fall();
    demanded_cells_are_listed();
    let Some(Frame { visit, probe }) = &mut work.top else {
        unreachable!();
    };
    let score = score_of(answer);
    let cell = visit.cell;
    match memo.publish_step(pass, probe, answer, steps) {
        Publish::Going => {}
        Publish::Won => {
            work.wins += 1;
            close(notes, work, cell, score);
        }
        Publish::Lost => close(notes, work, cell, score),
    }
}

/// Seeks the next argument where neither a look is made nor an answer is there.
fn settle<M: Memo, N: Notes>(
    problem: &Problem<'_>,
    notes: &mut N,
    memo: &M,
    pass: &M::Pass,
    work: &mut Work<M::Probe>,
)
    requires memo { M.problem memo.now ≡ problem.now }
    requires notes { N.problem notes.old ≡ problem.now }
    requires own { M.is_of memo.now pass.now }
    requires begun { (work.old.hand ≡ None) → (work.old.ready ≡ None) → work.old.ended ≡ false → work.old.top ≢ None }
    requires sound { IsSound M.meaning problem.now (N.noted notes.old) work.old pass.now }
    ensures notes { N.problem notes.new ≡ problem.now }
    ensures under_way { IsUnderWay work.new.hand work.new.ready (all_frames work.new) }
    ensures stands { (orders : Lcg) → standing (all_frames work.new) work.new.opened orders
        ≡ standing (all_frames work.old) work.old.opened orders }
    ensures numbers { (work.new.wins ≡ work.old.wins) × (work.new.moves ≡ work.old.moves) }
    ensures sound { IsSound M.meaning problem.now (N.noted notes.new) work.new pass.now }
    ensures lower { (m : ℕ) (arguments : List SplitArgument) → IsDemandedCount problem.now m
        → AreRuleArguments problem.now arguments
        → work_left M.meaning problem.now m arguments work.new pass.now
        ≤ work_left M.meaning problem.now m arguments work.old pass.now }
{
    if work.ended {
        return;
    }
    if work.hand.is_some() {
        return;
    }
    if work.ready.is_some() {
        return;
    }
    advance(problem, notes, memo, pass, work);
}

/// Makes one step of the memo: of the look that is being made, of the top frame's publication, or, where nothing has
/// begun, of the look for the axiom's cell. Then seeks the next argument.
pub fn make_step<M: Memo, N: Notes, L: Ledger>(
    problem: &Problem<'_>,
    orders: &mut Orders,
    notes: &mut N,
    memo: &M,
    pass: &mut M::Pass,
    work: &mut Work<M::Probe>,
    steps: &mut Steps<L>,
)
    requires memo { M.problem memo.now ≡ problem.now }
    requires notes { N.problem notes.old ≡ problem.now }
    requires own { M.is_of memo.now pass.old }
    requires going { work.old.ended ≡ false }
    requires under_way { IsUnderWay work.old.hand work.old.ready (all_frames work.old) }
    requires sound { IsSound M.meaning problem.now (N.noted notes.old) work.old pass.old }
    ensures notes { N.problem notes.new ≡ problem.now }
    ensures own { M.is_of memo.now pass.new }
    ensures on { M.goes_on pass.old pass.new }
    ensures share { M.meaning.share pass.new ≡ M.meaning.share pass.old }
    ensures known { StayKnown (M.meaning.known pass.old) (M.meaning.known pass.new) }
    ensures wins { GainsWins M.meaning pass.old pass.new work.old.wins work.new.wins }
    ensures moves { work.new.moves ≡ work.old.moves }
    ensures frames { ChangesFrames M.meaning problem.now pass.old pass.new
        (standing (all_frames work.old) work.old.opened orders.old)
        (standing (all_frames work.new) work.new.opened orders.new) }
    ensures loads { LoadsAsTold M.meaning pass.new (looked_for problem.now work.old.hand work.old.ready)
        (loads_at M.meaning (M.fresh_loads memo.now) work.old.ended work.old.hand work.old.ready) }
    ensures steps { steps_made steps.new ≡ steps_made steps.old + 1 }
    ensures under_way { IsUnderWay work.new.hand work.new.ready (all_frames work.new) }
    ensures sound { IsSound M.meaning problem.now (N.noted notes.new) work.new pass.new }
    ensures lower { (m : ℕ) (arguments : List SplitArgument) → IsDemandedCount problem.now m
        → AreRuleArguments problem.now arguments
        → work_left M.meaning problem.now m arguments work.new pass.new
        < work_left M.meaning problem.now m arguments work.old pass.old }
{
    match work.hand.take() {
        Some(hand) => {
            look(problem, orders, notes, memo, pass, work, hand, steps);
            settle(problem, notes, memo, pass, work);
        }
        None => match work.ready {
            Some(answer) => {
                publish(problem, orders, notes, memo, pass, work, answer, steps);
                settle(problem, notes, memo, pass, work);
            }
            None => {
                let hand = first_look(problem, notes, memo, pass, work);
                look(problem, orders, notes, memo, pass, work, hand, steps);
                settle(problem, notes, memo, pass, work);
            }
        },
    }
}
