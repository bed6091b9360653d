//! What follows from the definitions. Each law is the contract of a function with an empty body.

ghost use Rattle.std.specs.Prelude.{◌≡◌, ◌↔◌, ℕ, ◌^◌, ◌<◌, ℤ, Option, IfSome, List, ◌∷◌, ◌++◌, All, Contains, codes, length};
ghost use Rattle.std.specs.Str.Lines.{lines};
ghost use Rattle.adp_model.specs.declared.cell.Cell.{Cell};
ghost use Rattle.adp_model.specs.declared.grammar.Grammar.{Grammar};
ghost use Rattle.adp_model.specs.PosedProblem.{PosedProblem};
ghost use Rattle.adp_model.specs.ProblemFields.{IsAdmissible};
ghost use Rattle.adp_model.specs.Cells.{CellPrecedes};
ghost use Rattle.adp_model.specs.Demand.{AreDemanded, IsDemanded};
ghost use Rattle.adp_model.specs.Report.{line};
ghost use Rattle.table_certificate.specs.CertificateLines.{LineForm, CertLine, forms_of};
ghost use Rattle.table_certificate.specs.JobSplit.{IsSplitAtJob};
ghost use Rattle.table_certificate.specs.LocalCertificate.{IsFirstFalse, IsLocallyRight, IsRightCellLine, IsRightWordLine, AreTold, blocks_of, said_of};
ghost use Rattle.table_certificate.specs.KnownScores.{AreChildrenSaidBest};
ghost use Rattle.table_certificate.specs.BestScores.{IsBestScore, AreBestScores};
ghost use Rattle.table_certificate.specs.WrittenCertificate.{cell_forms, AreBest, AreBlockForms, IsCertifiedJob, IsWritten};
ghost use Rattle.table_certificate.specs.Posed.{posed_words};
ghost use Rattle.table_certificate.specs.Verified.{AreAccepted};

use adp_model::laws::bellman::bellman;
use adp_model::laws::bounds::words_keep_their_score_bound;
use adp_model::laws::demand::{
    demanded_cells_are_counted, demanded_cells_are_within_the_cell_bound,
};
use adp_model::laws::derivation::derived_trees_span_their_cell;
use adp_model::laws::heights::heights_fall;
use adp_model::laws::order::{answer_is_unique, preferred_tree_has_the_best_score};
use adp_model::laws::sizes::{derived_lengths_are_within_sizes, sizes_are_the_checked_numbers};
use adp_model::laws::well_formed::{
    alternatives_fit, arguments_are_few_and_known, numbers_fit_together, parts_have_names,
};

/// What a locally right certificate tells of each word is the best score over all its candidates, and nothing exactly
/// where there is none.
pub fn right_certificates_tell_best_scores()
    ensures { (problems : List PosedProblem) (forms : List LineForm) (values : List (Option ℤ))
        → All IsAdmissible problems → IsLocallyRight problems forms → AreTold problems (blocks_of forms) values
        → AreBestScores problems values }
{
    bellman();
    heights_fall();
    answer_is_unique();
    preferred_tree_has_the_best_score();
    sizes_are_the_checked_numbers();
    derived_lengths_are_within_sizes();
    numbers_fit_together();
}

/// What is written of a word is right in its block: its head, and the line of each demanded cell, with its best score,
/// behind that of a cell that comes before it. So the blocks of words, in order behind the line `cert`, are locally
/// right.
pub fn written_lines_are_right()
    ensures heads { (p : PosedProblem) → IsAdmissible p → (cells : List Cell) → AreDemanded p cells
        → (scores : List (Option ℤ)) → AreBest p cells scores
        → (number : ℕ) → IsRightWordLine p (cell_forms cells scores) number number (length cells) }
    ensures cells { (p : PosedProblem) → IsAdmissible p → (cells : List Cell) → AreDemanded p cells
        → (scores : List (Option ℤ)) → AreBest p cells scores
        → (cell : Cell) (score : Option ℤ) (earlier : Option Cell) → Contains cells cell → IsBestScore p cell score
        → IfSome earlier (λ before. CellPrecedes before cell)
        → IsRightCellLine p (cell_forms cells scores) earlier cell score }
    ensures whole { (problems : List PosedProblem) (forms : List LineForm) → All IsAdmissible problems
        → AreBlockForms 1 problems forms → IsLocallyRight problems (CertLine ∷ forms) }
{
    bellman();
    answer_is_unique();
    preferred_tree_has_the_best_score();
    demanded_cells_are_counted();
    derived_trees_span_their_cell();
    words_keep_their_score_bound();
    arguments_are_few_and_known();
    alternatives_fit();
}

/// The line of a demanded cell, behind that of a cell that comes before it, is right exactly where it says the cell's best
/// score, if each child that the cell demands is said to have its best score.
pub fn settled_lines_say_best_scores()
    ensures { (p : PosedProblem) → IsAdmissible p → (lines : List LineForm) (cell : Cell) (best score : Option ℤ)
        (earlier : Option Cell) → IsDemanded p cell → IsBestScore p cell best
        → AreChildrenSaidBest p (said_of lines) cell → IfSome earlier (λ before. CellPrecedes before cell)
        → (score ≡ best) ↔ IsRightCellLine p lines earlier cell score }
{
    bellman();
    answer_is_unique();
    preferred_tree_has_the_best_score();
    demanded_cells_are_counted();
    derived_trees_span_their_cell();
    words_keep_their_score_bound();
    arguments_are_few_and_known();
    alternatives_fit();
}

/// What is written as a certificate of words under one algebra is locally right: its bytes have the forms of the blocks of
/// these words. It has more bytes than there are words.
pub fn written_certificates_are_right()
    ensures right { (grammar : Grammar) (algebra : ℕ) (words : List (List ℕ)) (text : List ℕ)
        → All IsAdmissible (posed_words grammar algebra words) → length words < 2 ^ 64
        → IsWritten (posed_words grammar algebra words) text
        → IsLocallyRight (posed_words grammar algebra words) (forms_of grammar text) }
    ensures long { (problems : List PosedProblem) (text : List ℕ) → IsWritten problems text
        → length problems < length text }
{
    written_lines_are_right();
    demanded_cells_are_counted();
    demanded_cells_are_within_the_cell_bound();
    words_keep_their_score_bound();
    parts_have_names();
}

/// No line of a locally right certificate is `job`, and an LF ends each. So bytes that are one, the line `job` and a job
/// are parted there. Bytes are parted in at most one way, and only where one of their lines is `job`.
pub fn right_certificates_part_at_job()
    ensures split { (problems : List PosedProblem) (grammar : Grammar) (text job : List ℕ)
        → IsLocallyRight problems (forms_of grammar text)
        → IsSplitAtJob (text ++ line (codes "job") ++ job) text job }
    ensures once { (bytes before behind other_before other_behind : List ℕ) → IsSplitAtJob bytes before behind
        → IsSplitAtJob bytes other_before other_behind → (before ≡ other_before) × (behind ≡ other_behind) }
    ensures line { (bytes before behind : List ℕ) → IsSplitAtJob bytes before behind
        → Contains (lines bytes) (codes "job") }
{}

/// Bytes of which a line is `job` are parted there, at the first one.
pub fn inputs_part_at_job()
    ensures { (bytes : List ℕ) → Contains (lines bytes) (codes "job")
        → (before : List ℕ) × (behind : List ℕ) × IsSplitAtJob bytes before behind }
{}

/// A locally right certificate has no first false line.
pub fn right_certificates_are_not_rejected()
    ensures { (problems : List PosedProblem) (forms : List LineForm) (place : ℕ) → IsLocallyRight problems forms
        → IsFirstFalse problems forms place → ⊥ }
{}

/// A job that is written behind the certificate of its words is accepted.
pub fn certified_jobs_are_accepted()
    ensures { (grammar : Grammar) (algebra : ℕ) (words : List (List ℕ)) (job bytes : List ℕ)
        → All IsAdmissible (posed_words grammar algebra words) → length words < 2 ^ 64
        → IsCertifiedJob (posed_words grammar algebra words) job bytes
        → AreAccepted grammar algebra words job bytes }
{
    written_certificates_are_right();
    right_certificates_part_at_job();
    right_certificates_are_not_rejected();
}
