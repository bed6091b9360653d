//! Terms of an algebra.

ghost use Rattle.std.specs.Prelude.{◌≡◌, Bool, ℕ, ◌<◌, ◌≤◌, ℤ, pos, ◌≤ℤ◌, nat_abs, IsTrue, List, length, map, slice_index};
ghost use Rattle.adp_model.specs.declared.grammar.Kind.{Kind};
ghost use Rattle.adp_model.specs.declared.grammar.Term.{Term};
ghost use Rattle.adp_model.specs.declared.cell.Cell.{Cell};
ghost use Rattle.adp_model.specs.PosedProblem.{PosedProblem};
ghost use Rattle.adp_model.specs.Terms.{AreValues, CanHaveAny, KeepsOrder, KeepsStrictOrder, magnitude, term_value};
ghost use Rattle.adp_model.specs.TermSigns.{HasKnownSign, IsMonotone, IsStrict, is_not_negative};
ghost use Rattle.adp_model.specs.GrammarSigns.{has_no_negative_score};
ghost use Rattle.adp_model.specs.TermForms.{IsTermFor};
ghost use Rattle.adp_model.specs.Tree.{Tree};
ghost use Rattle.adp_model.specs.Derivation.{Derives};
ghost use Rattle.adp_model.specs.Scores.{score_of};
ghost use Rattle.adp_model.specs.WellFormed.{is_well_formed};

/// A term's value is at most its magnitude in absolute value.
pub fn values_are_within_magnitudes()
    ensures { (term : Term) (values : List ℤ) → nat_abs (term_value term values) ≤ magnitude term (map nat_abs values) }
{}

/// Greater numbers give a term no lesser magnitude.
pub fn magnitudes_rise()
    ensures { (term : Term) (numbers others : List ℕ) → length numbers ≡ length others
        → ((place : ℕ) → slice_index numbers place ≤ slice_index others place)
        → magnitude term numbers ≤ magnitude term others }
{}

/// A term that is proved not negative is not negative, at values of which those that are known not to be are not.
pub fn proved_terms_are_not_negative()
    ensures { (known : Kind → Bool) (term : Term) (kinds : List Kind) → IsTrue (is_not_negative known kinds term)
        → (values : List ℤ) → AreValues (HasKnownSign known) kinds values → pos 0 ≤ℤ term_value term values }
{}

/// Where each sign's term is proved not negative, no derived tree has a negative score.
pub fn scores_are_not_negative()
    ensures { (p : PosedProblem) → IsTrue (is_well_formed p.grammar)
        → p.algebra < length p.grammar.algebras → IsTrue (has_no_negative_score p.grammar p.algebra)
        → (cell : Cell) (tree : Tree) → Derives p cell tree → pos 0 ≤ℤ score_of p tree }
{}

/// A monotone term keeps the order of scores, at values of which those that are known not to be negative are not.
pub fn monotone_terms_keep_order()
    ensures { (known : Kind → Bool) (term : Term) (kinds : List Kind) → IsMonotone known term kinds
        → KeepsOrder (HasKnownSign known) term kinds }
{}

/// A strict term for the kinds keeps the order of scores strictly, whatever values its arguments have.
pub fn strict_terms_keep_strict_order()
    ensures { (term : Term) (kinds : List Kind) → IsTermFor (length kinds) term → IsStrict term kinds
        → KeepsStrictOrder CanHaveAny term kinds }
{}
