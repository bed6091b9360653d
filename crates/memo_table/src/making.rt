use crate::closed::Closed;
use crate::table::Table;
use adp_model::Problem;
use memo_words::{Pass, Words, codes_tell_apart};
use std::alloc::{AllocError, Global};
use std::snapshot::Snapshot;

impl Table {
    ghost use Rattle.std.specs.Prelude.{◌≡◌, ◌+◌, ◌≤◌, ◌↔◌, ◌⊎◌, ℕ, ◌++◌, [], IfOk, None};
    ghost use Rattle.adp_model.specs.declared.cell.Cell.{Cell};
    ghost use Rattle.adp_model.specs.PosedProblem.{axiom_cell};
    ghost use Rattle.adp_model.specs.Demand.{IsDemanded, IsDemandedCount};
    ghost use Rattle.memo_words.specs.Kept.{IsPublished};
    ghost use Rattle.memo_words.specs.Views.{first_view, after_split, split_off, joined, hand_of_both};
    ghost use Rattle.memo_words.specs.Passes.{view_of, hand_of, marks_of, plan_of, problem_of, IsPassOf};
    ghost use Rattle.history_table.specs.History.{IsHistoryOf};
    ghost use Rattle.memo_table.specs.Meanings.{knows};
    ghost use Rattle.memo_table.specs.ClosedTables.{IsHeldOnce};

    /// An empty table of the problem's answers for so many passes, and the first pass. It knows nothing and owns
    /// nothing, and may split off the other passes.
    pub fn new(
        alloc: Global,
        problem: &Problem<'_>,
        seats: u32,
    ) -> Result<(Table, Pass), AllocError>
        requires { (1 ≤ seats) × (seats ≤ 32) }
        ensures problem { IfOk result (λ made. problem_of made.0 ≡ problem.now) }
        ensures seats { IfOk result (λ made. (plan_of made.0).seats ≡ seats) }
        ensures own { IfOk result (λ made. IsPassOf made.0 made.1) }
        ensures view { IfOk result (λ made. view_of made.1 ≡ first_view (plan_of made.0)) }
        ensures hand { IfOk result (λ made. hand_of made.1 ≡ None) }
        ensures marks { IfOk result (λ made. marks_of made.1 ≡ []) }
    {
        problem.admissible();
        let (words, pass) = Words::new(alloc, problem, seats)?;
        Ok((Table { words }, pass))
    }

    /// A new pass, which knows what the old one knows. The old one may split off one less.
    pub fn split(&self, pass: &mut Pass) -> Pass
        requires own { IsPassOf self.now pass.old }
        requires spare { 1 ≤ (view_of pass.old).spare }
        ensures old_own { IsPassOf self.now pass.new }
        ensures old_view { view_of pass.new ≡ after_split (view_of pass.old) }
        ensures old_hand { hand_of pass.new ≡ hand_of pass.old }
        ensures new_own { IsPassOf self.now result }
        ensures new_view { view_of result ≡ split_off (view_of pass.old) }
        ensures new_hand { hand_of result ≡ None }
        ensures old_marks { marks_of pass.new ≡ marks_of pass.old }
        ensures new_marks { marks_of result ≡ [] }
    {
        self.words.split(pass)
    }

    /// Two passes become one, which knows what each of them knew.
    pub fn join(&self, into: &mut Pass, other: Pass)
        requires into { IsPassOf self.now into.old }
        requires other { IsPassOf self.now other }
        ensures own { IsPassOf self.now into.new }
        ensures view { view_of into.new ≡ joined (view_of into.old) (view_of other) }
        ensures hand { hand_of into.new ≡ hand_of_both (hand_of into.old) (hand_of other) }
        ensures marks { marks_of into.new ≡ marks_of into.old ++ marks_of other }
    {
        self.words.join(into, other);
    }

    /// The answers, once no other pass is left. Where the pass knows the axiom's cell, or no cell is demanded, the
    /// published cells are exactly the demanded ones, each at one position, and the pass has won as many.
    pub fn close(self, pass: Pass) -> Closed
        requires own { IsPassOf self pass }
        requires whole { (view_of pass).weight + (view_of pass).spare ≡ (plan_of self).seats }
        requires axiom { knows pass (axiom_cell (problem_of self))
            ⊎ ((cell : Cell) → IsDemanded (problem_of self) cell → ⊥) }
        ensures plan { result.plan ≡ plan_of self }
        ensures published { (cell : Cell) → IsPublished result.plan result.words cell
            ↔ IsDemanded (problem_of self) cell }
        ensures once { IsHeldOnce result }
        ensures history { IsHistoryOf (marks_of pass) result.words }
        ensures wins { (m : ℕ) → IsDemandedCount (problem_of self) m → (view_of pass).wins ≡ m }
    {
        self.planned();
        codes_tell_apart();
        let bits = self.words.bits();
        let made_for = Snapshot::of(&self.words);
        let Table { words } = self;
        Closed {
            rest: words.close(pass),
            bits,
            made_for,
        }
    }
}
