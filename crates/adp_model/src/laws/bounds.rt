//! The bounds on scores and on numbers of nodes: there is exactly one of each, and each bounds.

ghost use Rattle.std.specs.Prelude.{◌≡◌, ℕ, ◌-◌, ◌≤◌, nat_abs, Option, List, length};
ghost use Rattle.std.specs.List.{Contains};
ghost use Rattle.adp_model.specs.declared.grammar.Arg.{Arg};
ghost use Rattle.adp_model.specs.declared.grammar.Grammar.{Grammar};
ghost use Rattle.adp_model.specs.declared.cell.Cell.{Cell};
ghost use Rattle.adp_model.specs.PosedProblem.{PosedProblem, IsSpan};
ghost use Rattle.adp_model.specs.Parts.{arguments_of};
ghost use Rattle.adp_model.specs.Tokens.{letters_between, Matches, token_value};
ghost use Rattle.adp_model.specs.Tree.{Tree, node_count};
ghost use Rattle.adp_model.specs.Derivation.{Derives};
ghost use Rattle.adp_model.specs.Scores.{score_of, root_magnitude};
ghost use Rattle.adp_model.specs.Checks.{IsChecked};
ghost use Rattle.adp_model.specs.ProblemFields.{most_letters};
ghost use Rattle.adp_model.specs.Bounds.{AreScoreBounds, AreNodeBounds, IsScoreBound, IsNodeBound};

/// A checked grammar has exactly one table of score bounds and one of node bounds.
pub fn rules_have_one_bound()
    ensures scores { (grammar : Grammar) (algebra : ℕ) (least : List ℕ) (greatest : List (Option ℕ)) (ranks : List ℕ)
        → IsChecked grammar algebra least greatest ranks → (bound : ℕ → ℕ → ℕ) × AreScoreBounds grammar algebra bound }
    ensures one_score { (grammar : Grammar) (algebra : ℕ) (least : List ℕ) (greatest : List (Option ℕ)) (ranks : List ℕ)
        → IsChecked grammar algebra least greatest ranks → (bound other : ℕ → ℕ → ℕ)
        → AreScoreBounds grammar algebra bound → AreScoreBounds grammar algebra other → (rule len : ℕ)
        → bound rule len ≡ other rule len }
    ensures nodes { (grammar : Grammar) (algebra : ℕ) (least : List ℕ) (greatest : List (Option ℕ)) (ranks : List ℕ)
        → IsChecked grammar algebra least greatest ranks → (nodes : ℕ → ℕ → ℕ) × AreNodeBounds grammar nodes }
    ensures one_node { (grammar : Grammar) (algebra : ℕ) (least : List ℕ) (greatest : List (Option ℕ)) (ranks : List ℕ)
        → IsChecked grammar algebra least greatest ranks → (nodes other : ℕ → ℕ → ℕ) → AreNodeBounds grammar nodes
        → AreNodeBounds grammar other → (rule len : ℕ) → nodes rule len ≡ other rule len }
{}

/// Words of each length have exactly one score bound and one node bound under a checked grammar.
pub fn words_have_one_bound()
    ensures score { (grammar : Grammar) (algebra : ℕ) (least : List ℕ) (greatest : List (Option ℕ)) (ranks : List ℕ)
        → IsChecked grammar algebra least greatest ranks → (len : ℕ)
        → (number : ℕ) × IsScoreBound grammar algebra len number }
    ensures one_score { (grammar : Grammar) (algebra : ℕ) (least : List ℕ) (greatest : List (Option ℕ)) (ranks : List ℕ)
        → IsChecked grammar algebra least greatest ranks → (len a b : ℕ) → IsScoreBound grammar algebra len a
        → IsScoreBound grammar algebra len b → a ≡ b }
    ensures node { (grammar : Grammar) (algebra : ℕ) (least : List ℕ) (greatest : List (Option ℕ)) (ranks : List ℕ)
        → IsChecked grammar algebra least greatest ranks → (len : ℕ) → (number : ℕ) × IsNodeBound grammar len number }
    ensures one_node { (grammar : Grammar) (algebra : ℕ) (least : List ℕ) (greatest : List (Option ℕ)) (ranks : List ℕ)
        → IsChecked grammar algebra least greatest ranks → (len a b : ℕ) → IsNodeBound grammar len a
        → IsNodeBound grammar len b → a ≡ b }
{}

/// The bounds bound: of each tree that a checked grammar derives for a cell of a word of at most 4,000 letters, the
/// magnitude of the root's term at the absolute values of its children, the score, and the number of nodes.
pub fn bounds_are_sound()
    ensures magnitude { (p : PosedProblem) (least : List ℕ) (greatest : List (Option ℕ)) (ranks : List ℕ)
        → IsChecked p.grammar p.algebra least greatest ranks → length p.word ≤ most_letters
        → (bound : ℕ → ℕ → ℕ) → AreScoreBounds p.grammar p.algebra bound
        → (cell : Cell) (tree : Tree) → Derives p cell tree
        → root_magnitude p tree ≤ bound cell.rule (cell.to - cell.from) }
    ensures score { (p : PosedProblem) (least : List ℕ) (greatest : List (Option ℕ)) (ranks : List ℕ)
        → IsChecked p.grammar p.algebra least greatest ranks → length p.word ≤ most_letters
        → (bound : ℕ → ℕ → ℕ) → AreScoreBounds p.grammar p.algebra bound
        → (cell : Cell) (tree : Tree) → Derives p cell tree
        → nat_abs (score_of p tree) ≤ bound cell.rule (cell.to - cell.from) }
    ensures nodes { (p : PosedProblem) (least : List ℕ) (greatest : List (Option ℕ)) (ranks : List ℕ)
        → IsChecked p.grammar p.algebra least greatest ranks → length p.word ≤ most_letters
        → (nodes : ℕ → ℕ → ℕ) → AreNodeBounds p.grammar nodes
        → (cell : Cell) (tree : Tree) → Derives p cell tree → node_count tree ≤ nodes cell.rule (cell.to - cell.from) }
{}

/// A word's score bound bounds: the magnitude at the root of each derived tree, its score, and the value of each token
/// that stands in the grammar on letters that it matches.
pub fn words_keep_their_score_bound()
    ensures magnitude { (p : PosedProblem) (least : List ℕ) (greatest : List (Option ℕ)) (ranks : List ℕ)
        → IsChecked p.grammar p.algebra least greatest ranks → length p.word ≤ most_letters
        → (number : ℕ) → IsScoreBound p.grammar p.algebra (length p.word) number
        → (cell : Cell) (tree : Tree) → Derives p cell tree → root_magnitude p tree ≤ number }
    ensures score { (p : PosedProblem) (least : List ℕ) (greatest : List (Option ℕ)) (ranks : List ℕ)
        → IsChecked p.grammar p.algebra least greatest ranks → length p.word ≤ most_letters
        → (number : ℕ) → IsScoreBound p.grammar p.algebra (length p.word) number
        → (cell : Cell) (tree : Tree) → Derives p cell tree → nat_abs (score_of p tree) ≤ number }
    ensures token { (p : PosedProblem) (least : List ℕ) (greatest : List (Option ℕ)) (ranks : List ℕ)
        → IsChecked p.grammar p.algebra least greatest ranks → length p.word ≤ most_letters
        → (number : ℕ) → IsScoreBound p.grammar p.algebra (length p.word) number
        → (rule alternative : ℕ) (token : Arg) (from to : ℕ) → Contains (arguments_of p.grammar rule alternative) token
        → IsSpan p.word from to → Matches p.grammar token (letters_between p.word from to)
        → nat_abs (token_value p.grammar token (letters_between p.word from to)) ≤ number }
{}
