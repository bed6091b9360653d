//! What is known of the signs of a grammar's values under one of its algebras.

ghost use Rattle.std.specs.Prelude.{◌≡◌, ◌<◌, int_le, pos, true, length};
ghost use Rattle.std.specs.List.{list_all, zip};
ghost use Rattle.adp_model.specs.GrammarSigns.{has_no_negative_score, has_no_negative_weight};
ghost use Rattle.adp_model.specs.TermSigns.{is_not_negative, known_by};

use adp_model::{Class, Grammar, Sign, Term};
use term_values::not_negative;

/// Which values are known not to be negative.
#[derive(Clone, Copy)]
pub struct KnownSigns {
    pub tokens: bool,
    pub scores: bool,
}

fn has_no_negative_letter(class: &Class) -> bool
    ensures { result ≡ list_all (λ entry. int_le (pos 0) entry.1) class.now.letters }
{
    class
        .letters
        .as_slice()
        .iter()
        .all(|(_, weight)| 0 <= *weight)
}

fn has_no_negative_weight(grammar: &Grammar) -> bool
    ensures { result ≡ has_no_negative_weight grammar.now }
{
    grammar
        .classes
        .as_slice()
        .iter()
        .all(has_no_negative_letter)
}

/// Whether the sign's term is proved not negative, where no score is assumed to be.
fn is_not_negative(sign: &Sign, term: &Term, tokens: bool) -> bool
    ensures { result ≡ is_not_negative (known_by tokens true) sign.now.kinds term.now }
{
    not_negative(term, sign.kinds.as_slice(), tokens, true)
}

fn are_not_negative(signs: &[Sign], terms: &[Term], tokens: bool) -> bool
    ensures { result ≡ list_all (λ entry. is_not_negative (known_by tokens true) entry.0.kinds entry.1)
        (zip signs.now terms.now) }
{
    signs
        .iter()
        .zip(terms)
        .all(|(sign, term)| is_not_negative(sign, term, tokens))
}

/// What is known of tokens, and of scores under the algebra.
pub fn known_signs(grammar: &Grammar, algebra: u32) -> KnownSigns
    requires { algebra < length grammar.now.algebras }
    ensures tokens { result.tokens ≡ has_no_negative_weight grammar.now }
    ensures scores { result.scores ≡ has_no_negative_score grammar.now algebra }
{
    let tokens = has_no_negative_weight(grammar);
    let terms = grammar.algebras.as_slice()[algebra as usize]
        .terms
        .as_slice();
    KnownSigns {
        tokens,
        scores: are_not_negative(grammar.signs.as_slice(), terms, tokens),
    }
}
