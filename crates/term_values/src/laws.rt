//! What follows from the definitions. Each law is the contract of a function that does nothing.

ghost use Rattle.std.specs.Prelude.{◌≡◌, ◌≤◌, ℕ, ℤ, List, length, take};
ghost use Rattle.adp_model.specs.declared.grammar.Term.{Term};
ghost use Rattle.adp_model.specs.WideForm.{WideForm};
ghost use Rattle.adp_model.specs.Terms.{weighted_sum, weighted_total, wide_magnitude};
ghost use Rattle.adp_model.specs.TermForms.{IsTermFor};
ghost use Rattle.term_values.specs.TermParts.{IsPartOf};
ghost use Rattle.term_values.specs.Values.{HasValues};

/// A term for so many arguments can be evaluated at as many values.
pub fn terms_have_their_values()
    ensures { (count : ℕ) (term : Term) → IsTermFor count term → HasValues count term }
{}

/// Factors behind those of the values that there are add nothing.
pub fn further_factors_add_nothing()
    ensures sums { (factors values : List ℤ)
        → weighted_sum (take (length values) factors) values ≡ weighted_sum factors values }
    ensures totals { (factors : List ℤ) (numbers : List ℕ)
        → weighted_total (take (length numbers) factors) numbers ≡ weighted_total factors numbers }
{}

/// A part of a wide term cannot become greater than the whole.
pub fn parts_are_no_greater()
    ensures { (part term : WideForm) → IsPartOf part term
        → (numbers : List ℕ) → wide_magnitude part numbers ≤ wide_magnitude term numbers }
{}
