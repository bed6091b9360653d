//! Sizes of rules, and lengths of derived trees.

ghost use Rattle.std.specs.Prelude.{◌≡◌, ℕ, ◌-◌, ◌<◌, ◌≤◌, ◌↔◌, Option, None, IfSome, List, length, slice_index, slice_index_or};
ghost use Rattle.adp_model.specs.declared.grammar.Grammar.{Grammar};
ghost use Rattle.adp_model.specs.declared.cell.Cell.{Cell};
ghost use Rattle.adp_model.specs.PosedProblem.{PosedProblem};
ghost use Rattle.adp_model.specs.Lengths.{HasLength};
ghost use Rattle.adp_model.specs.Sizes.{IsLeastSize, IsGreatestSize, IsWithinSizes, IsBetween};
ghost use Rattle.adp_model.specs.Checks.{IsChecked};
ghost use Rattle.adp_model.specs.Tree.{Tree};
ghost use Rattle.adp_model.specs.Derivation.{Derives};

/// A rule has at most one least size and at most one greatest size.
pub fn sizes_are_unique()
    ensures least { (grammar : Grammar) (rule a b : ℕ) → IsLeastSize grammar rule a → IsLeastSize grammar rule b
        → a ≡ b }
    ensures greatest { (grammar : Grammar) (rule : ℕ) (a b : Option ℕ) → IsGreatestSize grammar rule a
        → IsGreatestSize grammar rule b → a ≡ b }
{}

/// A length lies between a rule's sizes exactly where it lies between the numbers that the checks found for the rule.
pub fn sizes_are_the_checked_numbers()
    ensures { (grammar : Grammar) (algebra : ℕ) (least : List ℕ) (greatest : List (Option ℕ)) (ranks : List ℕ)
        → IsChecked grammar algebra least greatest ranks → (rule len : ℕ) → rule < length grammar.rules
        → IsWithinSizes grammar rule len ↔ IsBetween least greatest rule len }
{}

/// A length lies between a rule's sizes exactly where it lies between the numbers that are the rule's sizes.
pub fn sizes_are_numbers()
    ensures { (grammar : Grammar) (least : List ℕ) (greatest : List (Option ℕ)) (rule len : ℕ)
        → IsLeastSize grammar rule (slice_index least rule)
        → IsGreatestSize grammar rule (slice_index_or greatest rule None)
        → IsWithinSizes grammar rule len ↔ IsBetween least greatest rule len }
{}

/// The length of a derived tree is one of its rule's lengths, and lies between the rule's sizes. That the rule has sizes is
/// a premise; a grammar that passes the checks has them for all rules.
pub fn derived_lengths_are_within_sizes()
    ensures lengths { (p : PosedProblem) (cell : Cell) (tree : Tree) → Derives p cell tree
        → HasLength p.grammar cell.rule (cell.to - cell.from) }
    ensures between { (p : PosedProblem) (least : ℕ) (greatest : Option ℕ) (cell : Cell) (tree : Tree)
        → IsLeastSize p.grammar cell.rule least → IsGreatestSize p.grammar cell.rule greatest
        → Derives p cell tree → (least ≤ cell.to - cell.from) × IfSome greatest (λ most. cell.to - cell.from ≤ most) }
    ensures within { (p : PosedProblem) (least : List ℕ) (greatest : List (Option ℕ)) (ranks : List ℕ)
        → IsChecked p.grammar p.algebra least greatest ranks → (cell : Cell) (tree : Tree) → Derives p cell tree
        → IsWithinSizes p.grammar cell.rule (cell.to - cell.from) }
{}
