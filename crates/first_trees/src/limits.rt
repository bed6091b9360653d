//! The limits of lists: each law is the contract of a function that does nothing but call the laws it rests on.

ghost use Rattle.std.specs.Prelude.{◌≡◌, ℕ, ◌≤◌, List, Option};
ghost use Rattle.adp_model.specs.declared.fault.LimitFault.{LimitFault};
ghost use Rattle.adp_model.specs.declared.grammar.Grammar.{Grammar};
ghost use Rattle.adp_model.specs.Checks.{IsChecked};
ghost use Rattle.first_trees.specs.ListLimits.{IsListLimitFault, KeepsListLimits};

use adp_model::laws::bounds::words_have_one_bound;
use adp_model::laws::cells::places_are_unique;

/// A length under a checked grammar has at most one fault of its lists, and none where it keeps their limits; where no
/// trees are asked for, it has none.
pub fn list_limits_are_kept_or_passed()
    ensures kept { (grammar : Grammar) (algebra : ℕ) (least : List ℕ) (greatest : List (Option ℕ)) (ranks : List ℕ)
        → IsChecked grammar algebra least greatest ranks → (len k : ℕ) (fault : LimitFault)
        → KeepsListLimits grammar len k → IsListLimitFault grammar len k fault → ⊥ }
    ensures one { (grammar : Grammar) (algebra : ℕ) (least : List ℕ) (greatest : List (Option ℕ)) (ranks : List ℕ)
        → IsChecked grammar algebra least greatest ranks → (len k : ℕ) (a b : LimitFault)
        → IsListLimitFault grammar len k a → IsListLimitFault grammar len k b → a ≡ b }
    ensures some { (grammar : Grammar) (len k : ℕ) (fault : LimitFault) → IsListLimitFault grammar len k fault → 1 ≤ k }
{
    words_have_one_bound();
    places_are_unique();
}
