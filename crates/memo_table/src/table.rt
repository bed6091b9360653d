use crate::laws::demanded_cells_have_codes;
use crate::probe::{Next, Probe};
use adp_model::{Answer, Cell};
use memo_model::{Look, Memo, Publish, Steps};
use memo_words::{Pass, Words};
use std::marker::Model;
use std::snapshot::Snapshot;
use std::sync::ledger::Ledger;

/// A table of the answers of a problem's demanded cells, which several passes fill and read. A cell is found by its
/// key, and its answer stands in a record. Contracts see the table's words.
#[derive(Drop)]
pub struct Table {
    pub(crate) words: Words,
}

impl Model for Table {
    ghost use Rattle.adp_model.specs.ProblemFields.{IsAdmissible};
    ghost use Rattle.memo_words.specs.declared.words.Words.{Words};
    ghost use Rattle.memo_words.specs.Layout.{IsPlanned};
    ghost use Rattle.memo_words.specs.Passes.{plan_of, problem_of};

    ghost Value = { Words };

    ghost use Rattle.adp_model.specs.WideForm.{form_code};
    ghost use Rattle.std.specs.Coded.{codes};

    ghost coded = { Prim.hlevel (codes, form_code) };

    ghost view = { λ table. table.words };

    ghost invariant = { λ table. IsAdmissible (problem_of table.words) × IsPlanned (plan_of table.words) };
}

impl Table {
    ghost use Rattle.adp_model.specs.ProblemFields.{IsAdmissible};
    ghost use Rattle.memo_words.specs.Layout.{IsPlanned};
    ghost use Rattle.memo_words.specs.Passes.{plan_of, problem_of};

    /// What every table keeps. Does nothing when it runs.
    pub(crate) fn planned(&self)
        ensures admissible { IsAdmissible (problem_of self.now) }
        ensures planned { IsPlanned (plan_of self.now) }
    {
        let _ = &self.words;
    }
}

impl Memo for Table {
    ghost use Rattle.std.specs.Prelude.{false};
    ghost use Rattle.memo_words.specs.Passes.{problem_of, IsPassOf};
    ghost use Rattle.memo_table.specs.Meanings.{table_meaning, StepsOn};
    ghost use Rattle.memo_table.specs.Following.{demanded_by, follows_on};

    type Pass = Pass;

    type Probe = Probe;

    ghost problem = { problem_of };

    ghost fresh_loads = { λ words. false };

    ghost is_of = { λ words pass. IsPassOf words pass };

    ghost meaning = { table_meaning };

    ghost goes_on = { StepsOn };

    fn probe(&self, cell: Cell) -> Probe {
        self.planned();
        demanded_cells_have_codes();
        Probe {
            cell,
            turn: 0,
            next: Next::Key,
            words: Snapshot::of(&self.words),
        }
    }

    fn loads_record_word(&self, probe: &Probe) -> bool {
        matches!(probe.next, Next::RecordWord)
    }

    fn look_step<L: Ledger>(
        &self,
        pass: &mut Pass,
        probe: &mut Probe,
        steps: &mut Steps<L>,
    ) -> Look {
        self.look(pass, probe, steps)
    }

    fn publish_step<L: Ledger>(
        &self,
        pass: &mut Pass,
        probe: &mut Probe,
        answer: Answer,
        steps: &mut Steps<L>,
    ) -> Publish {
        self.publish(pass, probe, answer, steps)
    }

    ghost probe_is_demanded = { demanded_by };

    ghost follows_on = { λ probe v w on. follows_on probe v w on.0 };
}
