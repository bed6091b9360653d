//! What follows from the definitions: the trees of the plain grammar, erased, are the nested trees. Each law is the
//! contract of a function that does nothing.

ghost use Rattle.std.specs.Prelude.{◌≡◌, ◌↔◌, ℕ, IsTrue, List, Option};
ghost use Rattle.adp_model.specs.declared.cell.Cell.{Cell};
ghost use Rattle.adp_model.specs.declared.grammar.Grammar.{Grammar};
ghost use Rattle.adp_model.specs.PosedProblem.{PosedProblem};
ghost use Rattle.adp_model.specs.Parts.{arguments_of};
ghost use Rattle.adp_model.specs.Tree.{Tree};
ghost use Rattle.adp_model.specs.Derivation.{Derives};
ghost use Rattle.adp_model.specs.Lengths.{IsProductive};
ghost use Rattle.adp_model.specs.Scores.{score_of};
ghost use Rattle.adp_model.specs.Preference.{IsBefore, IsPreferred};
ghost use Rattle.adp_model.specs.Answers.{HasNoTree};
ghost use Rattle.adp_model.specs.TreeText.{tree_text};
ghost use Rattle.adp_model.specs.Report.{IsAnswerText, IsReport, IsWinsReport};
ghost use Rattle.adp_model.specs.Checks.{IsChecked};
ghost use Rattle.adp_model.specs.ProblemFields.{IsAdmissible};
ghost use Rattle.nested_trees.specs.HiddenRules.{AreNestedAlternatives, is_hidden};
ghost use Rattle.nested_trees.specs.Patterns.{ArePatternsOf, HidesRules, LeadsTo, NestedProblem, Pattern, Patterns};
ghost use Rattle.nested_trees.specs.NestedTree.{NestedTree};
ghost use Rattle.nested_trees.specs.NestedDerivation.{DerivesNested};
ghost use Rattle.nested_trees.specs.NestedScores.{nested_score};
ghost use Rattle.nested_trees.specs.NestedPreference.{HasNoNestedTree, IsNestedBefore, IsNestedPreferred};
ghost use Rattle.nested_trees.specs.NestedText.{nested_text};
ghost use Rattle.nested_trees.specs.NestedReport.{IsNestedAnswerText, IsNestedReport, IsNestedWinsReport};
ghost use Rattle.nested_trees.specs.Erasure.{erased, restored};

use adp_model::laws::report::{report_is_unique, words_have_reports};

/// Erasing maps the trees that the plain grammar derives for a cell one to one onto the nested trees that are derived
/// for it, and so the candidates onto the nested candidates: an erased tree is derived, trees that are erased to one
/// tree are one, and each nested tree comes from a plain one. Restoring goes the other way.
pub fn erasing_is_one_to_one_and_onto()
    ensures derived { (q : NestedProblem) (hidden : ℕ) → AreNestedAlternatives q.plain.grammar hidden
        → HidesRules q hidden → (cell : Cell) (tree : Tree) → Derives q.plain cell tree
        → DerivesNested q cell (erased q.plain.grammar hidden tree) }
    ensures one { (p : PosedProblem) (hidden : ℕ) → AreNestedAlternatives p.grammar hidden
        → (cell : Cell) (t u : Tree) → Derives p cell t → Derives p cell u
        → erased p.grammar hidden t ≡ erased p.grammar hidden u → t ≡ u }
    ensures onto { (q : NestedProblem) (hidden : ℕ) → AreNestedAlternatives q.plain.grammar hidden
        → HidesRules q hidden → (cell : Cell) (nested : NestedTree) → DerivesNested q cell nested
        → (tree : Tree) × Derives q.plain cell tree × (nested ≡ erased q.plain.grammar hidden tree) }
    ensures restored { (p : PosedProblem) (hidden : ℕ) → AreNestedAlternatives p.grammar hidden
        → (cell : Cell) (tree : Tree) → Derives p cell tree
        → restored p.grammar cell.rule (erased p.grammar hidden tree) ≡ tree }
{}

/// An erased tree has the score of the plain one.
pub fn erasing_keeps_scores()
    ensures { (q : NestedProblem) (hidden : ℕ) → AreNestedAlternatives q.plain.grammar hidden → HidesRules q hidden
        → (pattern : Pattern) (cell : Cell) (tree : Tree) → Derives q.plain cell tree
        → nested_score q pattern (erased q.plain.grammar hidden tree) ≡ score_of q.plain tree }
{}

/// Of two trees of a cell one is before the other exactly where it is so of the erased ones.
pub fn erasing_keeps_the_order()
    ensures { (q : NestedProblem) (hidden : ℕ) → AreNestedAlternatives q.plain.grammar hidden → HidesRules q hidden
        → (cell : Cell) (t u : Tree) → Derives q.plain cell t → Derives q.plain cell u
        → IsBefore q.plain t u
        ↔ IsNestedBefore q cell (erased q.plain.grammar hidden t) (erased q.plain.grammar hidden u) }
{}

/// An erased tree has the text of the plain one.
pub fn erasing_keeps_texts()
    ensures { (p : PosedProblem) (hidden : ℕ) (tree : Tree)
        → nested_text p (erased p.grammar hidden tree) ≡ tree_text p tree }
{}

/// So the preferred tree of a cell, erased, is the preferred nested tree, each preferred nested tree comes from the
/// preferred tree, and there is no nested tree exactly where there is no tree.
pub fn erasing_keeps_preferred_trees()
    ensures preferred { (q : NestedProblem) (hidden : ℕ) → AreNestedAlternatives q.plain.grammar hidden
        → HidesRules q hidden → (cell : Cell) (tree : Tree) → IsPreferred q.plain cell tree
        → IsNestedPreferred q cell (erased q.plain.grammar hidden tree) }
    ensures onto { (q : NestedProblem) (hidden : ℕ) → AreNestedAlternatives q.plain.grammar hidden
        → HidesRules q hidden → (cell : Cell) (nested : NestedTree) → IsNestedPreferred q cell nested
        → (tree : Tree) × IsPreferred q.plain cell tree × (nested ≡ erased q.plain.grammar hidden tree) }
    ensures none { (q : NestedProblem) (hidden : ℕ) → AreNestedAlternatives q.plain.grammar hidden
        → HidesRules q hidden → (cell : Cell) → HasNoTree q.plain cell ↔ HasNoNestedTree q cell }
{}

/// Where each hidden rule has a length, and so in a grammar that passes the checks, the arguments of all alternatives
/// have patterns, each alternative's at most one list of them; and a hidden rule that leads back to itself has none.
/// Where no rule is hidden nothing is asked of them.
pub fn alternatives_have_one_pattern()
    ensures there { (p : PosedProblem) (hidden : ℕ) → AreNestedAlternatives p.grammar hidden
        → ((rule : ℕ) → IsTrue (is_hidden p.grammar hidden rule) → IsProductive p.grammar rule)
        → (patterns : ℕ → ℕ → Patterns) × HidesRules (record { plain = p; patterns = patterns }) hidden }
    ensures checked { (p : PosedProblem) (least : List ℕ) (greatest : List (Option ℕ)) (ranks : List ℕ)
        → IsChecked p.grammar p.algebra least greatest ranks → (hidden : ℕ) → AreNestedAlternatives p.grammar hidden
        → (patterns : ℕ → ℕ → Patterns) × HidesRules (record { plain = p; patterns = patterns }) hidden }
    ensures one { (grammar : Grammar) (hidden rule alternative : ℕ) (patterns others : Patterns)
        → ArePatternsOf grammar hidden (arguments_of grammar rule alternative) patterns
        → ArePatternsOf grammar hidden (arguments_of grammar rule alternative) others → patterns ≡ others }
    ensures endless { (grammar : Grammar) (hidden rule : ℕ) → LeadsTo grammar hidden rule rule → (patterns : Patterns)
        → ArePatternsOf grammar hidden (arguments_of grammar rule 0) patterns → ⊥ }
    ensures none_hidden { (grammar : Grammar) → AreNestedAlternatives grammar 0 }
{}

/// The report of the preferred nested tree is that of the preferred tree of the plain grammar, with wins and without,
/// where the grammar has sizes and ranks.
pub fn nested_reports_are_the_plain_ones()
    ensures answer { (q : NestedProblem) (hidden : ℕ) → AreNestedAlternatives q.plain.grammar hidden
        → HidesRules q hidden → (text : List ℕ) → IsAnswerText q.plain text ↔ IsNestedAnswerText q text }
    ensures report { (number : ℕ) (p : PosedProblem) (least : List ℕ) (greatest : List (Option ℕ)) (ranks : List ℕ)
        → IsChecked p.grammar p.algebra least greatest ranks → (hidden : ℕ)
        → AreNestedAlternatives p.grammar hidden → (report : List ℕ)
        → IsReport number p report ↔ IsNestedReport number p hidden report }
    ensures wins { (number : ℕ) (p : PosedProblem) (least : List ℕ) (greatest : List (Option ℕ)) (ranks : List ℕ)
        → IsChecked p.grammar p.algebra least greatest ranks → (hidden : ℕ)
        → AreNestedAlternatives p.grammar hidden → (wins report : List ℕ)
        → IsWinsReport number p wins report ↔ IsNestedWinsReport number p hidden wins report }
{}

/// A word that is admitted has exactly one report under the nested grammar.
pub fn words_have_one_nested_report()
    ensures there { (number : ℕ) (p : PosedProblem) → IsAdmissible p → (hidden : ℕ)
        → AreNestedAlternatives p.grammar hidden → (report : List ℕ) × IsNestedReport number p hidden report }
    ensures one { (number : ℕ) (p : PosedProblem) → IsAdmissible p → (hidden : ℕ)
        → AreNestedAlternatives p.grammar hidden → (a b : List ℕ) → IsNestedReport number p hidden a
        → IsNestedReport number p hidden b → a ≡ b }
{
    report_is_unique();
    words_have_reports();
}
