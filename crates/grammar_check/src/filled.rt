ghost use Rattle.std.specs.Prelude.{◌≡◌, ℕ, ◌+◌, ◌<◌, ◌≤◌, IfOk, length};
ghost use Rattle.adp_model.specs.LimitFaults.{told};
ghost use Rattle.grammar_check.specs.Tables.{entry};
ghost use Rattle.grammar_check.specs.GrammarPlans.{grammar_plan, lengths_of};
ghost use Rattle.grammar_check.specs.KeptPlans.{rule_tokens};
ghost use Rattle.grammar_check.specs.TokenNumbers.{greatest_of, tokens_number};
ghost use Rattle.grammar_check.specs.MeasuredBounds.{AreBoundsOf};

use crate::checked::Checked;
use crate::fill::fill;
use crate::measure::Measure;
use crate::plan::plans;
use crate::rule_plan::RulePlan;
use crate::table::Table;
use adp_model::laws::sizes::sizes_are_the_checked_numbers;
use adp_model::laws::well_formed::{
    arguments_are_few_and_known, numbers_fit_together, terms_fit_their_alternatives,
};
use std::alloc::{AllocError, Global};

/// The plan of a grammar, and the bounds of its rules at all lengths up to some length, cut.
#[derive(Drop)]
pub struct Filled<'a> {
    pub plans: Vec<RulePlan<'a>>,
    pub table: Table,
}

/// The bounds of the grammar's rules at all lengths up to `most`, filled by length, then by rank.
pub fn filled_table(
    alloc: Global,
    checked: &Checked,
    measure: Measure,
    most: usize,
) -> Result<Filled<'_>, AllocError>
    requires { most ≤ 4000 }
    ensures tokens { IfOk result (λ filled. (len : ℕ) → greatest_of (rule_tokens len) filled.plans.items
        ≡ tokens_number len (grammar_plan checked.now.grammar measure (lengths_of checked.now.sizes most))) }
    ensures rows { IfOk result (λ filled. filled.table.rows ≡ length checked.now.grammar.rules) }
    ensures width { IfOk result (λ filled. filled.table.width ≡ most + 1) }
    ensures entries { IfOk result (λ filled. (bound : ℕ → ℕ → ℕ) → AreBoundsOf checked.now.grammar measure bound
        → (rule len : ℕ) → rule < length checked.now.grammar.rules → len ≤ most
        → entry filled.table rule len ≡ told (bound rule len)) }
{
    checked.passes();
    sizes_are_the_checked_numbers();
    arguments_are_few_and_known();
    terms_fit_their_alternatives();
    numbers_fit_together();
    let mut plans = plans(alloc, &checked.grammar, &checked.sizes, measure, most)?;
    let mut table = Table::new(alloc, plans.len(), most + 1)?;
    fill(&mut plans, checked.ranks.as_slice(), &mut table, most);
    Ok(Filled { plans, table })
}
