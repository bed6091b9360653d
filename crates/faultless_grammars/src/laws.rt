//! What follows from the definitions. Each law is the contract of a function that calls the laws it rests on.

ghost use Rattle.std.specs.Prelude.{ℕ, IsTrue, List, Option};
ghost use Rattle.adp_model.specs.declared.grammar.Grammar.{Grammar};
ghost use Rattle.adp_model.specs.Cells.{IsCellBound};
ghost use Rattle.adp_model.specs.Checks.{IsChecked};
ghost use Rattle.adp_model.specs.Demand.{IsDemandedCount};
ghost use Rattle.adp_model.specs.GrammarFaults.{IsFaultless};
ghost use Rattle.adp_model.specs.PosedProblem.{PosedProblem};
ghost use Rattle.adp_model.specs.WellFormed.{is_well_formed};
ghost use Rattle.faultless_grammars.specs.Irrefutable.{HasSizesAndRanks, IsFaultyOrSound, IsIrrefutable, KeepsOrPassesLimits};

use adp_model::laws::bounds::words_have_one_bound;
use adp_model::laws::demand::demanded_cells_are_counted;
use adp_model::laws::terms::monotone_terms_keep_order;
use adp_model::laws::well_formed::{alternatives_fit, numbers_fit_together};

/// A well-formed grammar that has no fault under an algebra passes the checks with some sizes and ranks: it can't be
/// that it has none.
pub fn faultless_grammars_have_sizes_and_ranks()
    ensures { (grammar : Grammar) (name : List ℕ) (algebra : ℕ) → IsTrue (is_well_formed grammar)
        → IsFaultless grammar name algebra → IsIrrefutable (HasSizesAndRanks grammar algebra) }
{
    monotone_terms_keep_order();
    alternatives_fit();
    numbers_fit_together();
}

/// Under each name a grammar has a fault, or has none under an algebra of that name: it can't be that neither is so.
pub fn grammars_are_faulty_or_sound()
    ensures { (grammar : Grammar) (name : List ℕ) → IsIrrefutable (IsFaultyOrSound grammar name) }
{}

/// It can't be that words of a length have no cell bound, nor, under a checked grammar, that they neither keep the
/// limits nor pass one.
pub fn lengths_keep_or_pass_limits()
    ensures cells { (grammar : Grammar) (len : ℕ) → IsIrrefutable ((count : ℕ) × IsCellBound grammar len count) }
    ensures limits { (grammar : Grammar) (algebra : ℕ) (least : List ℕ) (greatest : List (Option ℕ)) (ranks : List ℕ)
        → IsChecked grammar algebra least greatest ranks → (len : ℕ)
        → IsIrrefutable (KeepsOrPassesLimits grammar algebra len) }
{
    words_have_one_bound();
}

/// It can't be that a problem of a well-formed grammar has no number of demanded cells, whatever limits its word passes.
pub fn demanded_cells_have_a_number()
    ensures { (p : PosedProblem) → IsTrue (is_well_formed p.grammar)
        → IsIrrefutable ((count : ℕ) × IsDemandedCount p count) }
{
    demanded_cells_are_counted();
}
