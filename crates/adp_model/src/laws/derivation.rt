//! Derived trees.

ghost use Rattle.std.specs.Prelude.{◌≡◌, ◌∷◌, ◌++◌, ℕ, [], IsTrue};
ghost use Rattle.adp_model.specs.declared.cell.Cell.{Cell};
ghost use Rattle.adp_model.specs.PosedProblem.{PosedProblem, IsSpan};
ghost use Rattle.adp_model.specs.Parts.{arguments_of};
ghost use Rattle.adp_model.specs.Tree.{Tree, Node, Trees, start_of, end_of, ends_of};
ghost use Rattle.adp_model.specs.Derivation.{DeriveArguments, Derives};
ghost use Rattle.adp_model.specs.Preference.{cuts_of};
ghost use Rattle.adp_model.specs.Splits.{place};
ghost use Rattle.adp_model.specs.WellFormed.{is_well_formed};

/// A derived tree is a node of the cell's rule, and it covers exactly the cell's span, which lies in the word.
#[tactic(auto, using(crate::proofs::Derived::derived_facts))]
pub fn derived_trees_span_their_cell()
    ensures begins { (p : PosedProblem) (cell : Cell) (tree : Tree) → Derives p cell tree → start_of tree ≡ cell.from }
    ensures ends { (p : PosedProblem) (cell : Cell) (tree : Tree) → Derives p cell tree → end_of tree ≡ cell.to }
    ensures in_word { (p : PosedProblem) (cell : Cell) (tree : Tree) → Derives p cell tree
        → IsSpan p.word cell.from cell.to }
    ensures root { (p : PosedProblem) (cell : Cell) (tree : Tree) → Derives p cell tree
        → (alternative : ℕ) × (children : Trees) × (tree ≡ Node cell.rule alternative cell.from cell.to children) }
{}

/// The spans that the cuts of a node and its end give to the arguments of its alternative are those of its children.
pub fn children_are_placed()
    ensures { (p : PosedProblem) → IsTrue (is_well_formed p.grammar) → (rule alternative from to : ℕ) (children : Trees)
        → DeriveArguments p (arguments_of p.grammar rule alternative) from to children
        → place (arguments_of p.grammar rule alternative) from (cuts_of to children ++ to ∷ [])
        ≡ place (arguments_of p.grammar rule alternative) from (ends_of children) }
{}
