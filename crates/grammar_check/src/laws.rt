//! What follows from the definitions. Each law is the contract of a function that does nothing.

ghost use Rattle.std.specs.Prelude.{ℕ, List, Option};
ghost use Rattle.adp_model.specs.declared.grammar.Grammar.{Grammar};
ghost use Rattle.adp_model.specs.Checks.{IsChecked};
ghost use Rattle.adp_model.specs.Sizes.{AreSizesOf};

/// What the checks found are the sizes of all rules.
pub fn checked_sizes_are_the_sizes()
    ensures { (grammar : Grammar) (algebra : ℕ) (least : List ℕ) (greatest : List (Option ℕ)) (ranks : List ℕ)
        → IsChecked grammar algebra least greatest ranks → AreSizesOf grammar least greatest }
{}
