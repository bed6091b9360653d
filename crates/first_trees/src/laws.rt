//! What follows from the definitions. Each law is the contract of a function that does nothing.

ghost use Rattle.std.specs.Prelude.{◌≡◌, ◌⊎◌, ◌↔◌, ◌∷◌, [], ℕ, ◌<◌, ◌≤◌, IsTrue, Option, List, length, map, nat_abs, take};
ghost use Rattle.std.specs.List.{AllZip};
ghost use Rattle.adp_model.specs.declared.grammar.Goal.{Goal};
ghost use Rattle.adp_model.specs.declared.cell.Cell.{Cell};
ghost use Rattle.adp_model.specs.PosedProblem.{IsSpan, PosedProblem};
ghost use Rattle.adp_model.specs.Parts.{algebra_of, term_of};
ghost use Rattle.adp_model.specs.Tree.{Tree};
ghost use Rattle.adp_model.specs.Derivation.{Derives};
ghost use Rattle.adp_model.specs.Preference.{IsBefore, IsPreferred};
ghost use Rattle.adp_model.specs.Answers.{HasNoTree};
ghost use Rattle.adp_model.specs.Checks.{IsChecked};
ghost use Rattle.adp_model.specs.ProblemFields.{IsAdmissible, most_letters};
ghost use Rattle.adp_model.specs.Bounds.{IsScoreBound};
ghost use Rattle.adp_model.specs.Terms.{magnitude};
ghost use Rattle.adp_model.specs.WellFormed.{is_well_formed};
ghost use Rattle.adp_model.specs.Report.{IsReport};
ghost use Rattle.first_trees.specs.FirstTrees.{AreFirst, HasPlace};
ghost use Rattle.first_trees.specs.ListReport.{IsListReport, IsPreferredReport, TellOneCandidate};
ghost use Rattle.first_trees.specs.Entries.{AreEntries, choices_up_to, Entry, EntryPrecedes, IsEntry};
ghost use Rattle.first_trees.specs.RankedSplits.{AreFirstSplits, IsRankedSplit};

use adp_model::laws::bounds::words_keep_their_score_bound;
use adp_model::laws::derivation::children_are_placed;
use adp_model::laws::heights::heights_fall;
use adp_model::laws::order::{preference_is_a_strict_total_order, preferred_tree_is_unique};
use adp_model::laws::sizes::derived_lengths_are_within_sizes;
use adp_model::laws::terms::scores_are_not_negative;
use adp_model::laws::well_formed::{alternatives_fit, arguments_are_few_and_known};

/// A cell has at most one list of its first trees, and a shorter list is the beginning of a longer one. So a tree has
/// one place in all lists of its cell.
pub fn first_trees_are_unique()
    ensures one { (p : PosedProblem) (cell : Cell) (k : ℕ) (trees others : List Tree)
        → AreFirst p cell k trees → AreFirst p cell k others → trees ≡ others }
    ensures prefix { (p : PosedProblem) (cell : Cell) (k fewer : ℕ) (trees : List Tree) → fewer ≤ k
        → AreFirst p cell k trees → AreFirst p cell fewer (take fewer trees) }
    ensures place { (p : PosedProblem) (k m : ℕ) (cell : Cell) (tree : Tree) (place other : ℕ)
        → HasPlace p k cell tree place → HasPlace p m cell tree other → place ≡ other }
{
    preference_is_a_strict_total_order();
}

/// For each cell and each number there is such a list, where the grammar passes the checks.
pub fn cells_have_first_trees()
    ensures { (p : PosedProblem) (least : List ℕ) (greatest : List (Option ℕ)) (ranks : List ℕ)
        → IsChecked p.grammar p.algebra least greatest ranks → (cell : Cell) (k : ℕ)
        → (trees : List Tree) × AreFirst p cell k trees }
{
    preference_is_a_strict_total_order();
    children_are_placed();
    derived_lengths_are_within_sizes();
    heights_fall();
}

/// The first of them is the preferred tree, and there is none exactly where there is no tree.
pub fn first_tree_is_the_preferred_tree()
    ensures first { (p : PosedProblem) (cell : Cell) (k : ℕ) (tree : Tree) (others : List Tree)
        → AreFirst p cell k (tree ∷ others) → IsPreferred p cell tree }
    ensures alone { (p : PosedProblem) (cell : Cell) (tree : Tree) → IsTrue (is_well_formed p.grammar)
        → IsPreferred p cell tree ↔ AreFirst p cell 1 (tree ∷ []) }
    ensures none { (p : PosedProblem) (cell : Cell) (k : ℕ) → 0 < k → HasNoTree p cell ↔ AreFirst p cell k [] }
{
    preference_is_a_strict_total_order();
}

/// A tree has one entry at most. Trees of a cell that have entries are in the order of preference exactly as their
/// entries are in theirs, and a tree is told by its alternative, its cuts and its ranks.
pub fn entries_order_trees()
    ensures one { (p : PosedProblem) (k : ℕ) (tree : Tree) (first second : Entry)
        → IsEntry p k tree first → IsEntry p k tree second → first ≡ second }
    ensures order { (p : PosedProblem) → IsTrue (is_well_formed p.grammar) → (k : ℕ) (cell : Cell) (t u : Tree)
        (first second : Entry) → Derives p cell t → Derives p cell u → IsEntry p k t first → IsEntry p k u second
        → IsBefore p t u ↔ EntryPrecedes (algebra_of p).goal first second }
    ensures told { (p : PosedProblem) → IsTrue (is_well_formed p.grammar) → (k : ℕ) (cell : Cell) (t u : Tree)
        (first second : Entry) → Derives p cell t → Derives p cell u → IsEntry p k t first → IsEntry p k u second
        → first.choice ≡ second.choice → first.ranks ≡ second.ranks → t ≡ u }
{
    preference_is_a_strict_total_order();
    children_are_placed();
}

/// The children of a listed tree are listed, each among the first trees of its own cell: the tree has an entry. And the
/// product of all its ranks plus one is at most the number of trees that a list may have.
pub fn children_of_listed_trees_are_listed()
    ensures listed { (p : PosedProblem) (least : List ℕ) (greatest : List (Option ℕ)) (ranks : List ℕ)
        → IsChecked p.grammar p.algebra least greatest ranks → (k : ℕ) (cell : Cell) (tree : Tree) (place : ℕ)
        → HasPlace p k cell tree place → (entry : Entry) × IsEntry p k tree entry }
    ensures few { (p : PosedProblem) (least : List ℕ) (greatest : List (Option ℕ)) (ranks : List ℕ)
        → IsChecked p.grammar p.algebra least greatest ranks → (k : ℕ) (cell : Cell) (tree : Tree) (place : ℕ)
        → HasPlace p k cell tree place → (entry : Entry) → IsEntry p k tree entry → choices_up_to entry.ranks ≤ k }
{
    preference_is_a_strict_total_order();
    scores_are_not_negative();
    alternatives_fit();
    cells_have_first_trees();
    entries_order_trees();
}

/// The order of entries is a strict order.
pub fn entries_are_in_strict_order()
    ensures irreflexive { (goal : Goal) (a : Entry) → EntryPrecedes goal a a → ⊥ }
    ensures transitive { (goal : Goal) (a b c : Entry) → EntryPrecedes goal a b → EntryPrecedes goal b c
        → EntryPrecedes goal a c }
{}

/// Bellman's principle for lists: the entries of a cell's first trees are the first of its ranked splits, which are
/// viable splits with a rank for each rule argument in the list of that argument's cell. There is one such list.
pub fn lists_are_the_first_ranked_splits()
    ensures split { (p : PosedProblem) (least : List ℕ) (greatest : List (Option ℕ)) (ranks : List ℕ)
        → IsChecked p.grammar p.algebra least greatest ranks → (k : ℕ) (cell : Cell)
        → IsSpan p.word cell.from cell.to → (entry : Entry)
        → IsRankedSplit p k cell entry ↔ ((tree : Tree) × Derives p cell tree × IsEntry p k tree entry) }
    ensures list { (p : PosedProblem) (least : List ℕ) (greatest : List (Option ℕ)) (ranks : List ℕ)
        → IsChecked p.grammar p.algebra least greatest ranks → (k : ℕ) (cell : Cell)
        → IsSpan p.word cell.from cell.to → (entries : List Entry)
        → AreEntries p k cell entries ↔ AreFirstSplits p k cell entries }
    ensures there { (p : PosedProblem) (least : List ℕ) (greatest : List (Option ℕ)) (ranks : List ℕ)
        → IsChecked p.grammar p.algebra least greatest ranks → (k : ℕ) (cell : Cell)
        → IsSpan p.word cell.from cell.to → (entries : List Entry) × AreEntries p k cell entries }
    ensures one { (p : PosedProblem) (k : ℕ) (cell : Cell) (a b : List Entry)
        → AreFirstSplits p k cell a → AreFirstSplits p k cell b → a ≡ b }
{
    children_are_placed();
    derived_lengths_are_within_sizes();
    alternatives_fit();
    arguments_are_few_and_known();
    cells_have_first_trees();
    entries_order_trees();
    children_of_listed_trees_are_listed();
}

/// At the values of a ranked split, the magnitude of the alternative's term is within the word's score bound.
pub fn ranked_splits_keep_the_score_bound()
    ensures { (p : PosedProblem) (least : List ℕ) (greatest : List (Option ℕ)) (ranks : List ℕ)
        → IsChecked p.grammar p.algebra least greatest ranks → length p.word ≤ most_letters
        → (number : ℕ) → IsScoreBound p.grammar p.algebra (length p.word) number → (k : ℕ) (cell : Cell)
        → IsSpan p.word cell.from cell.to → (entry : Entry) (split : IsRankedSplit p k cell entry)
        → magnitude (term_of p cell.rule entry.choice.alt) (map nat_abs split.values) ≤ number }
{
    children_are_placed();
    derived_lengths_are_within_sizes();
    alternatives_fit();
    arguments_are_few_and_known();
    words_keep_their_score_bound();
}

/// Of two ranked splits of a cell that differ one comes before the other.
pub fn ranked_splits_are_in_total_order()
    ensures { (p : PosedProblem) (least : List ℕ) (greatest : List (Option ℕ)) (ranks : List ℕ)
        → IsChecked p.grammar p.algebra least greatest ranks → (k : ℕ) (cell : Cell)
        → IsSpan p.word cell.from cell.to → (first second : Entry) → IsRankedSplit p k cell first
        → IsRankedSplit p k cell second → (first ≡ second)
        ⊎ (EntryPrecedes (algebra_of p).goal first second ⊎ EntryPrecedes (algebra_of p).goal second first) }
{
    preference_is_a_strict_total_order();
    entries_order_trees();
    lists_are_the_first_ranked_splits();
}

/// Of two ranked splits of a cell with the same alternative and the same cuts, one whose ranks are no greater is not
/// later.
pub fn lower_ranks_come_first()
    ensures { (p : PosedProblem) (least : List ℕ) (greatest : List (Option ℕ)) (ranks : List ℕ)
        → IsChecked p.grammar p.algebra least greatest ranks → (k : ℕ) (cell : Cell)
        → IsSpan p.word cell.from cell.to → (first second : Entry) → IsRankedSplit p k cell first
        → IsRankedSplit p k cell second → first.choice ≡ second.choice → AllZip ◌≤◌ first.ranks second.ranks
        → (first ≡ second) ⊎ EntryPrecedes (algebra_of p).goal first second }
{
    preference_is_a_strict_total_order();
    children_are_placed();
    scores_are_not_negative();
    alternatives_fit();
    entries_order_trees();
    lists_are_the_first_ranked_splits();
}

/// A word that is admitted has exactly one report of its first trees, and the report of one tree is that of the
/// preferred one.
pub fn words_have_one_list_report()
    ensures there { (number : ℕ) (p : PosedProblem) → IsAdmissible p → (k : ℕ)
        → (report : List ℕ) × IsListReport number p k report }
    ensures one { (number : ℕ) (p : PosedProblem) (k : ℕ) (a b : List ℕ)
        → IsListReport number p k a → IsListReport number p k b → a ≡ b }
    ensures preferred { (number : ℕ) (p : PosedProblem) → IsTrue (is_well_formed p.grammar) → (report : List ℕ)
        → IsListReport number p 1 report ↔ IsPreferredReport number p report }
{
    cells_have_first_trees();
    first_trees_are_unique();
    first_tree_is_the_preferred_tree();
}

/// Where one first tree is asked for, score and tree are those of the word's answer.
pub fn one_first_tree_is_the_answer()
    ensures { (number : ℕ) (p : PosedProblem) → IsTrue (is_well_formed p.grammar) → (report listed : List ℕ)
        → IsReport number p report → IsListReport number p 1 listed → TellOneCandidate number p report listed }
{
    preferred_tree_is_unique();
    words_have_one_list_report();
}
