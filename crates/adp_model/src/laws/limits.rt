//! The limits of a word's length.

ghost use Rattle.std.specs.Prelude.{◌≡◌, ℕ, Option, List};
ghost use Rattle.adp_model.specs.declared.fault.LimitFault.{LimitFault};
ghost use Rattle.adp_model.specs.declared.grammar.Grammar.{Grammar};
ghost use Rattle.adp_model.specs.Checks.{IsChecked};
ghost use Rattle.adp_model.specs.LimitFaults.{IsLimitFault};
ghost use Rattle.adp_model.specs.ProblemFields.{KeepsLimits};

/// A length under a checked grammar has at most one fault, and none where it keeps the limits.
pub fn limits_are_kept_or_passed()
    ensures kept { (grammar : Grammar) (algebra : ℕ) (least : List ℕ) (greatest : List (Option ℕ)) (ranks : List ℕ)
        → IsChecked grammar algebra least greatest ranks → (len : ℕ) (fault : LimitFault)
        → KeepsLimits grammar algebra len → IsLimitFault grammar algebra len fault → ⊥ }
    ensures one { (grammar : Grammar) (algebra : ℕ) (least : List ℕ) (greatest : List (Option ℕ)) (ranks : List ℕ)
        → IsChecked grammar algebra least greatest ranks → (len : ℕ) (a b : LimitFault)
        → IsLimitFault grammar algebra len a → IsLimitFault grammar algebra len b → a ≡ b }
{}
