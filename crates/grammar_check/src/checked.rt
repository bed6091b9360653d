use adp_model::{Grammar, Sequence};
use std::marker::Model;
use yield_sizes::{Anchors, Sizes};

/// A grammar that passed its checks under one of its algebras, by its number, with what the checks found.
#[derive(Drop)]
pub struct Checked {
    pub grammar: Grammar,
    pub algebra: u32,
    pub sizes: Sizes,
    pub anchors: Anchors,
    /// For each rule its rank: an empty-context edge goes to a lesser one.
    pub ranks: Sequence<u32>,
}

impl Model for Checked {
    ghost use Rattle.grammar_check.specs.CheckedGrammar.{CheckedGrammar, checked_grammar, PassesChecks};

    ghost Value = { CheckedGrammar };

    ghost use Rattle.adp_model.specs.WideForm.{form_code};
    ghost use Rattle.std.specs.Coded.{codes};

    ghost coded = { Prim.hlevel (codes, form_code) };

    ghost view = { checked_grammar };

    ghost invariant = { λ fields. PassesChecks (checked_grammar fields) };
}

impl Checked {
    ghost use Rattle.grammar_check.specs.CheckedGrammar.{PassesChecks};

    /// What every checked grammar keeps. Does nothing when it runs.
    pub fn passes(&self)
        ensures { PassesChecks self.now }
    {
        let _ = &self.grammar;
    }
}
