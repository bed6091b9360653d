//! Bellman's principle.

ghost use Rattle.std.specs.Prelude.{ℕ, ◌≤◌, Option, List, length};
ghost use Rattle.adp_model.specs.PosedProblem.{PosedProblem};
ghost use Rattle.adp_model.specs.Checks.{IsChecked};
ghost use Rattle.adp_model.specs.ProblemFields.{most_letters, IsAdmissible};
ghost use Rattle.adp_model.specs.Bellman.{Bellman};

/// Bellman's principle: the answer of each cell is the first of its splits at the best scores of their arguments'
/// cells, and there is one. The source is Giegerich, Meyer and Steffen, "A discipline of dynamic programming over
/// sequence data", 2004.
pub fn bellman()
    ensures checked { (p : PosedProblem) (least : List ℕ) (greatest : List (Option ℕ)) (ranks : List ℕ)
        → IsChecked p.grammar p.algebra least greatest ranks → length p.word ≤ most_letters → Bellman p }
    ensures admissible { (p : PosedProblem) → IsAdmissible p → Bellman p }
{}
