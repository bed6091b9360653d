//! What is written of a word is there once, and so is a first false line. Each law is the contract of a function that
//! calls the laws it rests on.

ghost use Rattle.std.specs.Prelude.{◌≡◌, ℕ, List};
ghost use Rattle.adp_model.specs.PosedProblem.{PosedProblem};
ghost use Rattle.adp_model.specs.ProblemFields.{IsAdmissible};
ghost use Rattle.table_certificate.specs.CertificateLines.{LineForm};
ghost use Rattle.table_certificate.specs.LocalCertificate.{IsFirstFalse};
ghost use Rattle.table_certificate.specs.ScoreReports.{IsScoreReport};
ghost use Rattle.table_certificate.specs.WrittenCertificate.{IsCertificate};

use adp_model::laws::bellman::bellman;
use adp_model::laws::demand::{demanded_cells_are_counted, demanded_cells_are_unique};
use adp_model::laws::existence::demanded_cells_are_listed;
use adp_model::laws::order::preferred_tree_has_the_best_score;

/// A word has at most one block of a certificate, and one that is admitted has one.
pub fn words_have_one_certificate()
    ensures one { (number : ℕ) (p : PosedProblem) (a b : List ℕ) → IsCertificate number p a
        → IsCertificate number p b → a ≡ b }
    ensures there { (number : ℕ) (p : PosedProblem) → IsAdmissible p
        → (text : List ℕ) × IsCertificate number p text }
{
    bellman();
    preferred_tree_has_the_best_score();
    demanded_cells_are_counted();
    demanded_cells_are_listed();
    demanded_cells_are_unique();
}

/// A word has at most one best score, and one that is admitted has one, or none.
pub fn words_have_one_score_report()
    ensures one { (number : ℕ) (p : PosedProblem) (a b : List ℕ) → IsScoreReport number p a
        → IsScoreReport number p b → a ≡ b }
    ensures there { (number : ℕ) (p : PosedProblem) → IsAdmissible p
        → (report : List ℕ) × IsScoreReport number p report }
{
    bellman();
    preferred_tree_has_the_best_score();
}

/// One line alone is the first that is false.
pub fn first_false_line_is_unique()
    ensures { (problems : List PosedProblem) (forms : List LineForm) (a b : ℕ) → IsFirstFalse problems forms a
        → IsFirstFalse problems forms b → a ≡ b }
{}
