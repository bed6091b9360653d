//! Strict algebras: the preferred tree is the first in grammar order among the trees of best score.

ghost use Rattle.std.specs.Prelude.{◌≡◌, ℕ, ◌≤◌, Option, List, length};
ghost use Rattle.adp_model.specs.declared.cell.Cell.{Cell};
ghost use Rattle.adp_model.specs.PosedProblem.{PosedProblem};
ghost use Rattle.adp_model.specs.Tree.{Tree};
ghost use Rattle.adp_model.specs.Derivation.{Derives};
ghost use Rattle.adp_model.specs.Scores.{score_of};
ghost use Rattle.adp_model.specs.Preference.{IsEarlierInGrammar, IsPreferred};
ghost use Rattle.adp_model.specs.Checks.{IsChecked, KeepsStrictOrders, IsStrictAlgebra};
ghost use Rattle.adp_model.specs.ProblemFields.{most_letters};

/// Where each term of the algebra is strict, no tree that is derived for the cell with the preferred tree's score is
/// earlier in grammar order; and so where each term keeps the order of scores strictly, which is all that is used.
pub fn preferred_tree_is_first_in_grammar_order()
    ensures strict { (p : PosedProblem) (least : List ℕ) (greatest : List (Option ℕ)) (ranks : List ℕ)
        → IsChecked p.grammar p.algebra least greatest ranks → length p.word ≤ most_letters
        → IsStrictAlgebra p.grammar p.algebra → (cell : Cell) (t u : Tree) → IsPreferred p cell t → Derives p cell u
        → score_of p u ≡ score_of p t → IsEarlierInGrammar u t → ⊥ }
    ensures orderly { (p : PosedProblem) (least : List ℕ) (greatest : List (Option ℕ)) (ranks : List ℕ)
        → IsChecked p.grammar p.algebra least greatest ranks → length p.word ≤ most_letters
        → KeepsStrictOrders p.grammar p.algebra → (cell : Cell) (t u : Tree) → IsPreferred p cell t → Derives p cell u
        → score_of p u ≡ score_of p t → IsEarlierInGrammar u t → ⊥ }
{}
