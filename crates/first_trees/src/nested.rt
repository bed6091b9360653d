//! Lists under a nested grammar: what follows from the laws on erased trees.

ghost use Rattle.std.specs.Prelude.{◌↔◌, ℕ, List, Option};
ghost use Rattle.adp_model.specs.Checks.{IsChecked};
ghost use Rattle.adp_model.specs.PosedProblem.{PosedProblem};
ghost use Rattle.nested_trees.specs.HiddenRules.{AreNestedAlternatives};
ghost use Rattle.first_trees.specs.ListReport.{IsListReport};
ghost use Rattle.first_trees.specs.NestedListReport.{IsNestedListReport};

use nested_trees::laws::{
    alternatives_have_one_pattern, erasing_is_one_to_one_and_onto, erasing_keeps_scores,
    erasing_keeps_texts, erasing_keeps_the_order,
};

/// The report of the first nested trees is that of the first trees of the plain grammar, where the grammar has sizes and
/// ranks.
pub fn nested_lists_are_the_plain_ones()
    ensures { (number : ℕ) (p : PosedProblem) (least : List ℕ) (greatest : List (Option ℕ)) (ranks : List ℕ)
        → IsChecked p.grammar p.algebra least greatest ranks → (hidden : ℕ)
        → AreNestedAlternatives p.grammar hidden → (k : ℕ) (report : List ℕ)
        → IsListReport number p k report ↔ IsNestedListReport number p hidden k report }
{
    erasing_is_one_to_one_and_onto();
    erasing_keeps_scores();
    erasing_keeps_the_order();
    erasing_keeps_texts();
    alternatives_have_one_pattern();
}
