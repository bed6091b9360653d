use crate::probe::{Look, Publish};
use crate::steps::Steps;
use adp_model::{Answer, Cell};
use std::sync::ledger::Ledger;

/// A memo of the answers of a problem's demanded cells, shared by those who have a pass. Each step of a probe is
/// exactly one step on one word of the memo, and counts one. An answer is put once, by an exchange of its cell's record
/// word from 0, and then stays; that one is published of each cell that a pass knows is for the rule of the memo to
/// keep. None of the calls takes memory.
pub trait Memo {
    ghost use Rattle.std.specs.Prelude.{◌≡◌, ◌≢◌, ◌↔◌, ℕ, ◌+◌, ◌*◌, ◌<◌, ◌≤◌, ◌⊎◌, Bool, true};
    ghost use Rattle.adp_model.specs.declared.cell.Cell.{Cell};
    ghost use Rattle.memo_model.specs.declared.probe.Stage.TheVariants.{Open, Unpublished, Publishing};
    ghost use Rattle.adp_model.specs.PosedProblem.{PosedProblem};
    ghost use Rattle.adp_model.specs.Answers.{IsAnswer};
    ghost use Rattle.adp_model.specs.Demand.{IsDemanded, IsDemandedChild, IsDemandedCount};
    ghost use Rattle.memo_model.specs.Memos.{Meaning, HasLoaded, HasExchanged, StayKnown, IsLook, IsPublish};
    ghost use Rattle.memo_model.specs.StepsMade.{steps_made};

    /// The right of one evaluator to step on the memo, and what it has found there.
    type Pass;

    /// A cell that is looked up, and published where it was not there.
    type Probe: Drop;

    /// The problem whose answers it keeps.
    ghost problem: { Self → PosedProblem };

    /// Whether the first look step of a fresh probe loads the record word of its cell.
    ghost fresh_loads: { Self → Bool };

    /// The pass is of this memo.
    ghost is_of: { Self → Self.Pass → Type 0 };

    /// What contracts see of passes and probes.
    ghost meaning: { Meaning Self.Pass Self.Probe };

    /// The second pass is the first after exactly one step, with some probe.
    ghost goes_on: { Self.Pass → Self.Pass → Type 0 };

    /// A fresh probe of the cell. Makes no step.
    fn probe(&self, cell: Cell) -> Self::Probe
        requires { IsDemanded (problem self.now) cell }
        ensures cell { meaning.cell result ≡ cell }
        ensures open { meaning.stage result ≡ Open }
        ensures follows { (pass : Self.Pass) → is_of self.now pass ↔ meaning.follows result pass }
        ensures loads { meaning.loads result ≡ fresh_loads self.now }
        ensures remaining { (m : ℕ) → IsDemandedCount (problem self.now) m → meaning.remaining m result ≡ 2 * m + 5 };

    /// Whether the probe's next look step loads the record word of its cell. Makes no step.
    fn loads_record_word(&self, probe: &Self::Probe) -> bool
        ensures { result ≡ meaning.loads probe.now };

    /// One step of a look: it goes on, or finds no answer or the score of one. Fewer steps of one probe go on than it
    /// had steps left when it was fresh.
    fn look_step<L: Ledger>(
        &self,
        pass: &mut Self::Pass,
        probe: &mut Self::Probe,
        steps: &mut Steps<L>,
    ) -> Look
        requires own { is_of self.now pass.old }
        requires open { meaning.stage probe.old ≡ Open }
        requires follows { meaning.follows probe.old pass.old }
        ensures own { is_of self.now pass.new }
        ensures on { goes_on pass.old pass.new }
        ensures share { meaning.share pass.new ≡ meaning.share pass.old }
        ensures wins { meaning.wins pass.new ≡ meaning.wins pass.old }
        ensures known { StayKnown (meaning.known pass.old) (meaning.known pass.new) }
        ensures cell { meaning.cell probe.new ≡ meaning.cell probe.old }
        ensures follows { meaning.follows probe.new pass.new }
        ensures look { IsLook (problem self.now) (meaning.cell probe.old) (meaning.known pass.old)
            (meaning.known pass.new) (meaning.stage probe.new) result }
        ensures loads { (meaning.loads probe.old ≡ true)
            ↔ ((found : ℕ) × HasLoaded meaning pass.new (meaning.cell probe.old) found) }
        ensures unpublished { (result ≡ Look.Unpublished)
            ↔ HasLoaded meaning pass.new (meaning.cell probe.old) 0 }
        ensures fewer { (m : ℕ) → IsDemandedCount (problem self.now) m
            → meaning.remaining m probe.new < meaning.remaining m probe.old }
        ensures some_left { (m : ℕ) → IsDemandedCount (problem self.now) m → result ≡ Look.Going
            → 0 < meaning.remaining m probe.new }
        ensures two_left { (m found : ℕ) → IsDemandedCount (problem self.now) m
            → HasLoaded meaning pass.new (meaning.cell probe.old) found → 0 < found
            → meaning.remaining m probe.new ≤ 2 }
        ensures four_left { (m : ℕ) → IsDemandedCount (problem self.now) m → result ≡ Look.Unpublished
            → meaning.remaining m probe.new ≡ 4 }
        ensures steps { steps_made steps.new ≡ steps_made steps.old + 1 };

    /// One step of the publication of the cell's answer: it goes on, puts the answer, or finds one that is there. Fewer
    /// than four steps of one probe go on.
    fn publish_step<L: Ledger>(
        &self,
        pass: &mut Self::Pass,
        probe: &mut Self::Probe,
        answer: Answer,
        steps: &mut Steps<L>,
    ) -> Publish
        requires own { is_of self.now pass.old }
        requires unpublished { (meaning.stage probe.old ≡ Unpublished) ⊎ (meaning.stage probe.old ≡ Publishing) }
        requires follows { meaning.follows probe.old pass.old }
        requires answer { IsAnswer (problem self.now) (meaning.cell probe.old) answer }
        requires children { (child : Cell) → IsDemandedChild (problem self.now) (meaning.cell probe.old) child
            → meaning.known pass.old child }
        ensures own { is_of self.now pass.new }
        ensures on { goes_on pass.old pass.new }
        ensures share { meaning.share pass.new ≡ meaning.share pass.old }
        ensures known { StayKnown (meaning.known pass.old) (meaning.known pass.new) }
        ensures cell { meaning.cell probe.new ≡ meaning.cell probe.old }
        ensures follows { meaning.follows probe.new pass.new }
        ensures publish { IsPublish (meaning.cell probe.old) (meaning.known pass.old) (meaning.known pass.new)
            (meaning.wins pass.old) (meaning.wins pass.new) (meaning.stage probe.new) result }
        ensures won { (result ≡ Publish.Won) ↔ HasExchanged meaning pass.new (meaning.cell probe.old) 0 }
        ensures lost { (result ≡ Publish.Lost)
            ↔ ((found : ℕ) × (0 < found) × HasExchanged meaning pass.new (meaning.cell probe.old) found) }
        ensures fewer { (m : ℕ) → IsDemandedCount (problem self.now) m
            → meaning.remaining m probe.new < meaning.remaining m probe.old }
        ensures some_left { (m : ℕ) → IsDemandedCount (problem self.now) m → result ≡ Publish.Going
            → 0 < meaning.remaining m probe.new }
        ensures steps { steps_made steps.new ≡ steps_made steps.old + 1 };

    /// A probe's cell is demanded.
    ghost probe_is_demanded: { (memo : Self) (pass : Self.Pass) (probe : Self.Probe) → is_of memo pass
        → meaning.follows probe pass → IsDemanded (problem memo) (meaning.cell probe) };

    /// While other probes are stepped with the pass, a probe follows it on, unless it is publishing.
    ghost follows_on: { (probe : Self.Probe) (v w : Self.Pass) → goes_on v w → meaning.stage probe ≢ Publishing
        → meaning.follows probe v → meaning.follows probe w };
}
