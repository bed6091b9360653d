ghost use Rattle.std.specs.Prelude.{◌≡◌, ◌^◌, ◌<◌};
ghost use Rattle.adp_model.specs.LimitFaults.{told};
ghost use Rattle.grammar_check.specs.TokenNumbers.{greatest_of, token_number};
ghost use Rattle.grammar_check.specs.KeptPlans.{rule_tokens};

use crate::cut::cut_product;
use crate::part::{Part, Worth};
use crate::rule_plan::RulePlan;

/// What letters of this number are worth to the part, where it is a token that may have this length; else 0.
fn token(part: &Part, len: usize) -> u64
    ensures { result ≡ told (token_number len part.now) }
{
    if len < part.low || len - part.low > part.room {
        return 0;
    }
    match part.worth {
        Worth::OfRule { .. } => 0,
        Worth::OfLetters { weight, .. } => cut_product(weight, len as u64),
    }
}

/// The greatest over the parts.
fn parts_token(parts: &[Part], len: usize) -> u64
    ensures { result ≡ told (greatest_of (token_number len) parts.now) }
{
    let mut greatest = 0;
    let mut rest = parts;
    while let Some((first, others)) = rest.split_first() {
        greatest = token(first, len).max(greatest);
        rest = others;
    }
    greatest
}

/// The greatest that letters of this number are worth to a token of the plans, cut.
pub fn greatest_token(plans: &[RulePlan<'_>], len: usize) -> u64
    ensures { result ≡ told (greatest_of (rule_tokens len) plans.now) }
{
    let mut greatest = 0;
    for plan in plans {
        greatest = parts_token(&plan.tokens, len).max(greatest);
    }
    greatest
}
