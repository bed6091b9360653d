//! How terms respond to better scores, and whether they can be negative.

ghost use Rattle.std.specs.Prelude.{◌≡◌, ◌↔◌, IsTrue};
ghost use Rattle.adp_model.specs.declared.grammar.Term.TheVariants as terms;
ghost use Rattle.adp_model.specs.TermSigns.{IsMonotone, IsPositiveNumber, IsStrict, NamesNoScore, Rises, RisesWith, ScoreFactorsFrom, is_not_negative, is_proved_not_negative, kind_at, known_by};
ghost use Rattle.adp_model.specs.WideTerms.{form_of};

use adp_model::{Kind, Term, Wide};

/// The kind of the argument at the place, as that of a token where there is none.
fn kind_at(kinds: &[Kind], place: usize) -> Kind
    ensures { result ≡ kind_at kinds.now place }
{
    match kinds.get(place) {
        Some(kind) => *kind,
        None => Kind::Token,
    }
}

/// Whether each score argument has at least this factor.
fn score_factors_from(least: i64, factors: &[i64], kinds: &[Kind]) -> bool
    ensures { IsTrue result ↔ ScoreFactorsFrom least factors.now kinds.now }
{
    for (i, factor) in factors.iter().enumerate() {
        match kind_at(kinds, i) {
            Kind::Score => {
                if *factor < least {
                    return false;
                }
            }
            Kind::Token => {}
        }
    }
    true
}

fn names_no_score(term: &Wide, kinds: &[Kind]) -> bool
    ensures { IsTrue result ↔ NamesNoScore kinds.now (form_of term.now) }
{
    match term {
        Wide::Number(_) => true,
        Wide::Value(place) => match kind_at(kinds, *place as usize) {
            Kind::Score => false,
            Kind::Token => true,
        },
        Wide::Sum(left, right)
        | Wide::Difference(left, right)
        | Wide::Product(left, right)
        | Wide::Greater(left, right)
        | Wide::Lesser(left, right) => names_no_score(left, kinds) && names_no_score(right, kinds),
    }
}

/// Whether arguments of the kind are known to have no negative value.
fn is_known(kind: Kind, tokens: bool, scores: bool) -> bool
    ensures { result ≡ known_by tokens scores kind }
{
    match kind {
        Kind::Score => scores,
        Kind::Token => tokens,
    }
}

fn is_proved_not_negative(term: &Wide, kinds: &[Kind], tokens: bool, scores: bool) -> bool
    ensures { result ≡ is_proved_not_negative (known_by tokens scores) kinds.now (form_of term.now) }
{
    match term {
        Wide::Number(number) => 0 <= *number,
        Wide::Value(place) => is_known(kind_at(kinds, *place as usize), tokens, scores),
        Wide::Difference(_, _) => false,
        Wide::Greater(left, right) => {
            is_proved_not_negative(left, kinds, tokens, scores)
                || is_proved_not_negative(right, kinds, tokens, scores)
        }
        Wide::Sum(left, right) | Wide::Product(left, right) | Wide::Lesser(left, right) => {
            is_proved_not_negative(left, kinds, tokens, scores)
                && is_proved_not_negative(right, kinds, tokens, scores)
        }
    }
}

/// Whether greater scores make the term no lesser by its form. A side of a product that names no score rises too, so
/// each side is judged once.
fn rises(term: &Wide, kinds: &[Kind], tokens: bool, scores: bool) -> bool
    ensures { IsTrue result ↔ Rises (known_by tokens scores) kinds.now (form_of term.now) }
{
    match term {
        Wide::Number(_) | Wide::Value(_) => true,
        Wide::Sum(left, right) | Wide::Greater(left, right) | Wide::Lesser(left, right) => {
            rises(left, kinds, tokens, scores) && rises(right, kinds, tokens, scores)
        }
        Wide::Difference(left, right) => {
            rises(left, kinds, tokens, scores) && names_no_score(right, kinds)
        }
        Wide::Product(left, right) => {
            let left_fixed = names_no_score(left, kinds);
            let right_fixed = names_no_score(right, kinds);
            if left_fixed && right_fixed {
                return true;
            }
            if !rises(left, kinds, tokens, scores) || !rises(right, kinds, tokens, scores) {
                return false;
            }
            let left_known = is_proved_not_negative(left, kinds, tokens, scores);
            let right_known = is_proved_not_negative(right, kinds, tokens, scores);
            left_known && left_fixed || right_known && right_fixed || left_known && right_known
        }
    }
}

fn is_positive_number(term: &Wide) -> bool
    ensures { IsTrue result ↔ IsPositiveNumber (form_of term.now) }
{
    match term {
        Wide::Number(number) => 1 <= *number,
        _ => false,
    }
}

/// Whether the term rises, by its form, as fast as the value of the argument at this place, at least.
fn rises_with(place: usize, term: &Wide) -> bool
    ensures { IsTrue result ↔ RisesWith place (form_of term.now) }
{
    match term {
        Wide::Number(_) | Wide::Greater(_, _) | Wide::Lesser(_, _) => false,
        Wide::Value(other) => place == *other as usize,
        Wide::Sum(left, right) => rises_with(place, left) || rises_with(place, right),
        Wide::Difference(left, _) => rises_with(place, left),
        Wide::Product(left, right) => {
            rises_with(place, left) && is_positive_number(right)
                || is_positive_number(left) && rises_with(place, right)
        }
    }
}

fn rises_with_scores(term: &Wide, kinds: &[Kind]) -> bool
    ensures { IsTrue result ↔ IsStrict (terms.Wide (form_of term.now)) kinds.now }
{
    for (place, kind) in kinds.iter().enumerate() {
        match *kind {
            Kind::Score => {
                if !rises_with(place, term) {
                    return false;
                }
            }
            Kind::Token => {}
        }
    }
    true
}

/// Whether a term is proved not negative, where tokens, scores, both or none are known not to be; a linear one never
/// is. Takes no memory.
pub fn not_negative(term: &Term, kinds: &[Kind], tokens: bool, scores: bool) -> bool
    ensures { result ≡ is_not_negative (known_by tokens scores) kinds.now term.now }
{
    match term {
        Term::Linear(_) => false,
        Term::Wide(term) => is_proved_not_negative(term.root(), kinds, tokens, scores),
    }
}

/// Whether a better score argument never makes the term's value worse: the factor of each is at least 0, or the term
/// rises by its form, where tokens, scores, both or none are known not to be negative. Takes no memory.
pub fn monotone(term: &Term, kinds: &[Kind], tokens: bool, scores: bool) -> bool
    ensures { IsTrue result ↔ IsMonotone (known_by tokens scores) term.now kinds.now }
{
    match term {
        Term::Linear(term) => score_factors_from(0, term.factors.as_slice(), kinds),
        Term::Wide(term) => rises(term.root(), kinds, tokens, scores),
    }
}

/// Whether a better score argument always makes the term's value better: the factor of each is at least 1, or the term
/// rises with each by its form. Takes no memory.
pub fn strict(term: &Term, kinds: &[Kind]) -> bool
    ensures { IsTrue result ↔ IsStrict term.now kinds.now }
{
    match term {
        Term::Linear(term) => score_factors_from(1, term.factors.as_slice(), kinds),
        Term::Wide(term) => rises_with_scores(term.root(), kinds),
    }
}
