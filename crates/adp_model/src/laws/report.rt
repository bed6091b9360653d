//! Reports.

ghost use Rattle.std.specs.Prelude.{◌≡◌, ℕ, IsTrue, List};
ghost use Rattle.adp_model.specs.PosedProblem.{PosedProblem};
ghost use Rattle.adp_model.specs.WellFormed.{is_well_formed};
ghost use Rattle.adp_model.specs.ProblemFields.{IsAdmissible};
ghost use Rattle.adp_model.specs.BigReport.{IsBigReport};
ghost use Rattle.adp_model.specs.Report.{IsReport};

/// A word has at most one report, and so has a word that is made.
pub fn report_is_unique()
    ensures word { (number : ℕ) (p : PosedProblem) (a b : List ℕ) → IsTrue (is_well_formed p.grammar)
        → IsReport number p a → IsReport number p b → a ≡ b }
    ensures made { (seed size : ℕ) (a b : List ℕ) → IsBigReport seed size a → IsBigReport seed size b → a ≡ b }
{}

/// A word that is admitted has a report.
pub fn words_have_reports()
    ensures { (number : ℕ) (p : PosedProblem) → IsAdmissible p → (report : List ℕ) × IsReport number p report }
{}
