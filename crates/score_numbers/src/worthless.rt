//! Tokens that add nothing to a total.

ghost use Rattle.std.specs.Prelude.{◌↔◌, IsTrue};
ghost use Rattle.score_numbers.specs.Worthless.{AreWorthless};

use adp_model::Arg;

/// Whether the tokens add nothing to a total, whatever letters they match.
pub fn are_worthless(tokens: &[Arg], factors: &[i64]) -> bool
    ensures { IsTrue result ↔ AreWorthless tokens.now factors.now }
{
    let (Some((token, tokens)), Some((factor, factors))) = (
        tokens.split_first(),
        factors.split_first(),
    ) else {
        return true;
    };
    (*factor == 0 || matches!(token, Arg::Literal(_))) && are_worthless(tokens, factors)
}
