//! What follows from the definitions. Each law is the contract of a function that does nothing.

ghost use Rattle.std.specs.Prelude.{◌≡◌, ◌↔◌, ℕ, List, Option};
ghost use Rattle.adp_model.specs.declared.cell.Cell.{Cell};
ghost use Rattle.adp_model.specs.declared.fault.LimitFault.{LimitFault};
ghost use Rattle.adp_model.specs.declared.grammar.Grammar.{Grammar};
ghost use Rattle.adp_model.specs.PosedProblem.{PosedProblem};
ghost use Rattle.adp_model.specs.Tree.{Tree};
ghost use Rattle.adp_model.specs.Derivation.{Derives};
ghost use Rattle.adp_model.specs.Demand.{IsDemandedCount};
ghost use Rattle.adp_model.specs.TreeText.{tree_text};
ghost use Rattle.adp_model.specs.Scores.{score_of};
ghost use Rattle.adp_model.specs.Preference.{IsBefore, IsPreferred};
ghost use Rattle.adp_model.specs.Checks.{IsChecked};
ghost use Rattle.adp_model.specs.ProblemFields.{IsAdmissible};
ghost use Rattle.lex_product.specs.CompiledTerms.{IsJoinedFrom};
ghost use Rattle.lex_product.specs.CompiledGrammar.{compiled_grammar, compiled_problem, has_same_goal, multiplier_of};
ghost use Rattle.lex_product.specs.Compilable.{IsCompilable};
ghost use Rattle.lex_product.specs.PairLimits.{AreLowNumbers, IsCheckedPair, IsPairAdmissible, IsPairLimitFault, KeepsPairLimits};
ghost use Rattle.lex_product.specs.PairOrder.{IsPairBefore, IsPairPreferred, scores_of};
ghost use Rattle.lex_product.specs.PairReport.{IsPairReport};

use adp_model::laws::bounds::{words_have_one_bound, words_keep_their_score_bound};
use adp_model::laws::demand::demanded_cells_are_unique;
use adp_model::laws::limits::limits_are_kept_or_passed;
use adp_model::laws::order::preferred_tree_is_unique;
use adp_model::laws::report::words_have_reports;
use adp_model::laws::terms::monotone_terms_keep_order;
use adp_model::laws::well_formed::{alternatives_fit, terms_fit_their_signs};

/// The compiled algebra changes scores alone: for each cell the same trees are derived, they have the same texts, and
/// the same cells are demanded.
pub fn compiled_algebras_change_scores_alone()
    ensures trees { (p : PosedProblem) (second multiplier : ℕ) (cell : Cell) (tree : Tree)
        → Derives p cell tree ↔ Derives (compiled_problem p second multiplier) cell tree }
    ensures texts { (p : PosedProblem) (second multiplier : ℕ) (tree : Tree)
        → tree_text (compiled_problem p second multiplier) tree ≡ tree_text p tree }
    ensures demanded { (p : PosedProblem) (second multiplier count : ℕ)
        → IsDemandedCount p count ↔ IsDemandedCount (compiled_problem p second multiplier) count }
{}

/// At every cell the compiled score of a tree is its two scores in one, the second of them small: the second algebra's
/// score bound bounds the scores of all trees, and so of all subtrees.
pub fn compiled_scores_are_both_scores()
    ensures { (p : PosedProblem) (second bound : ℕ) → IsCompilable p second bound
        → (cell : Cell) (tree : Tree) → Derives p cell tree
        → IsJoinedFrom (multiplier_of bound) (has_same_goal p.grammar p.algebra second)
        (score_of (compiled_problem p second (multiplier_of bound)) tree) (scores_of p second tree) }
{
    words_keep_their_score_bound();
    alternatives_fit();
    terms_fit_their_signs();
}

/// At every cell the compiled scores order trees as their pairs of scores do. So the preferred tree under the compiled
/// algebra is the one that no tree of the cell is before in the order of pairs.
pub fn compiled_scores_order_trees_as_pairs_do()
    ensures before { (p : PosedProblem) (second bound : ℕ) → IsCompilable p second bound
        → (cell : Cell) (t u : Tree) → Derives p cell t → Derives p cell u
        → IsBefore (compiled_problem p second (multiplier_of bound)) t u ↔ IsPairBefore p second t u }
    ensures preferred { (p : PosedProblem) (second bound : ℕ) → IsCompilable p second bound
        → (cell : Cell) (tree : Tree)
        → IsPreferred (compiled_problem p second (multiplier_of bound)) cell tree
        ↔ IsPairPreferred p second cell tree }
{
    words_keep_their_score_bound();
    alternatives_fit();
    terms_fit_their_signs();
}

/// A pair passes the checks under the second algebra too, and under the compiled one where its numbers are low.
pub fn pairs_pass_the_checks()
    ensures second { (grammar : Grammar) (first second : ℕ) (least : List ℕ) (greatest : List (Option ℕ))
        (ranks : List ℕ) → IsCheckedPair grammar first second least greatest ranks
        → IsChecked grammar second least greatest ranks }
    ensures compiled { (grammar : Grammar) (first second : ℕ) (least : List ℕ) (greatest : List (Option ℕ))
        (ranks : List ℕ) → IsCheckedPair grammar first second least greatest ranks → (bound : ℕ)
        → AreLowNumbers grammar first second bound
        → IsChecked (compiled_grammar grammar first second (multiplier_of bound)) first least greatest ranks }
{
    terms_fit_their_signs();
    monotone_terms_keep_order();
}

/// A length under a pair has at most one fault, and none where it keeps the limits. A word that keeps them is one that
/// the compiled algebra is made for, and is admitted under it.
pub fn pair_limits_are_kept_or_passed()
    ensures kept { (grammar : Grammar) (first second : ℕ) (least : List ℕ) (greatest : List (Option ℕ))
        (ranks : List ℕ) → IsCheckedPair grammar first second least greatest ranks → (len : ℕ) (fault : LimitFault)
        → KeepsPairLimits grammar first second len → IsPairLimitFault grammar first second len fault → ⊥ }
    ensures one { (grammar : Grammar) (first second : ℕ) (least : List ℕ) (greatest : List (Option ℕ))
        (ranks : List ℕ) → IsCheckedPair grammar first second least greatest ranks → (len : ℕ) (a b : LimitFault)
        → IsPairLimitFault grammar first second len a → IsPairLimitFault grammar first second len b → a ≡ b }
    ensures compilable { (p : PosedProblem) (second : ℕ) (pair : IsPairAdmissible p second)
        → IsCompilable p second pair.limits.bound }
    ensures admissible { (p : PosedProblem) (second : ℕ) (pair : IsPairAdmissible p second)
        → IsAdmissible (compiled_problem p second (multiplier_of pair.limits.bound)) }
{
    pairs_pass_the_checks();
    limits_are_kept_or_passed();
    words_have_one_bound();
}

/// A word has exactly one report by a pair where it is admitted under the compiled algebra.
pub fn words_have_one_pair_report()
    ensures report { (number : ℕ) (p : PosedProblem) (second bound : ℕ) → IsCompilable p second bound
        → IsAdmissible (compiled_problem p second (multiplier_of bound))
        → (report : List ℕ) × IsPairReport number p second report }
    ensures one { (number : ℕ) (p : PosedProblem) (second bound : ℕ) → IsCompilable p second bound
        → IsAdmissible (compiled_problem p second (multiplier_of bound))
        → (a b : List ℕ) → IsPairReport number p second a → IsPairReport number p second b → a ≡ b }
{
    words_keep_their_score_bound();
    alternatives_fit();
    terms_fit_their_signs();
    words_have_reports();
    preferred_tree_is_unique();
    demanded_cells_are_unique();
}
