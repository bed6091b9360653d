//! What follows from the definitions. Each law is the contract of a function that calls the laws it rests on.

ghost use Rattle.adp_model.specs.PosedProblem.{PosedProblem};
ghost use Rattle.adp_model.specs.WellFormed.{is_well_formed};
ghost use Rattle.adp_model.specs.declared.grammar.Grammar.{Grammar};
ghost use Rattle.adp_model.specs.BigReport.{IsBigReport};
ghost use Rattle.adp_model.specs.Checks.{IsChecked};
ghost use Rattle.nested_jobs.specs.NestedJob.{IsNestedText, hidden_in};
ghost use Rattle.std.specs.Prelude.{◌≡◌, ◌↔◌, ◌⊎◌, ◌≤◌, ◌<◌, ◌^◌, ℕ, IsNone, IsSome, IsTrue, List, None, Option, length};
ghost use Rattle.std.specs.List.{concat};
ghost use Rattle.verdicts.specs.declared.command.Mode.{Mode};
ghost use Rattle.verdicts.specs.WordReport.{HidesAlternatives};
ghost use Rattle.verdicts.specs.NestedScores.{IsNestedScoreReport};
ghost use Rattle.faultless_grammars.specs.Irrefutable.{IsIrrefutable};
ghost use Rattle.nested_trees.specs.HiddenRules.{AreNestedAlternatives};
ghost use Rattle.table_certificate.specs.ScoreReports.{IsScoreReport};
ghost use Rattle.verdicts.specs.CheckableJobs.{IsCheckableInput};
ghost use Rattle.verdicts.specs.OneAlgebra.{NameOneAlgebra};
ghost use Rattle.verdicts.specs.Command.{Command, IsCommand, ReadsJob, greatest_size, most_trees};
ghost use Rattle.verdicts.specs.declared.command.Mode.TheVariants.{Best, Cert, KBest, Lex, Verify};
ghost use Rattle.first_trees.specs.ListReport.{TellOneCandidate};
ghost use Rattle.verdicts.specs.SecondAlgebra.{IsAdmissibleWith, IsSecond};
ghost use Rattle.adp_model.specs.declared.job.Job.{Job};
ghost use Rattle.verdicts.specs.Verdict.{AreOfWins, AsksUnder, IsReportIn, IsReportWith, IsReports, IsVerdict, Reports, Verdict, greatest_length};

use adp_model::laws::bounds::words_have_one_bound;
use adp_model::laws::limits::limits_are_kept_or_passed;
use adp_model::laws::report;
use faultless_grammars::laws::{
    demanded_cells_have_a_number, faultless_grammars_have_sizes_and_ranks,
    grammars_are_faulty_or_sound, lengths_keep_or_pass_limits,
};
use first_trees::laws::{
    cells_have_first_trees, first_tree_is_the_preferred_tree, one_first_tree_is_the_answer,
    words_have_one_list_report,
};
use first_trees::limits::list_limits_are_kept_or_passed;
use first_trees::nested::nested_lists_are_the_plain_ones;
use lex_product::laws::{
    pair_limits_are_kept_or_passed, pairs_pass_the_checks, words_have_one_pair_report,
};
use nested_jobs::laws::{
    hidden_rules_are_nested_alternatives, texts_spell_a_job_or_have_a_fault, texts_spell_one_job,
};
use nested_trees::laws as nested;
use table_certificate::laws::{
    inputs_part_at_job, right_certificates_are_not_rejected, right_certificates_part_at_job,
    written_certificates_are_right,
};
use table_certificate::uniqueness::{
    first_false_line_is_unique, words_have_one_certificate, words_have_one_score_report,
};

/// Words are one command, whose numbers are in range; a second algebra, or first trees, are asked for in one mode alone.
pub fn command_is_unique()
    ensures command { (words : List (List ℕ)) (a b : Command) → IsCommand words a → IsCommand words b → a ≡ b }
    ensures some_workers { (words : List (List ℕ)) (command : Command) → IsCommand words command
        → 1 ≤ command.workers }
    ensures few_workers { (words : List (List ℕ)) (command : Command) → IsCommand words command
        → command.workers ≤ 32 }
    ensures seed { (words : List (List ℕ)) (command : Command) → IsCommand words command → command.seed < 2 ^ 64 }
    ensures size { (words : List (List ℕ)) (command : Command) → IsCommand words command
        → command.size ≤ greatest_size }
    ensures few_trees { (words : List (List ℕ)) (command : Command) → IsCommand words command
        → command.best ≤ most_trees }
    ensures no_trees { (words : List (List ℕ)) (command : Command) → IsCommand words command
        → (command.mode ≡ KBest → ⊥) → command.best ≡ 0 }
    ensures second { (words : List (List ℕ)) (command : Command) → IsCommand words command
        → (command.mode ≡ Lex → ⊥) → IsNone command.second }
{}

/// Words and bytes ask about one grammar under one algebra.
pub fn asked_grammar_is_unique()
    ensures grammar { (words : List (List ℕ)) (bytes : List ℕ) (a b : Job) (m n : ℕ) → AsksUnder words bytes a m
        → AsksUnder words bytes b n → a.grammar ≡ b.grammar }
    ensures algebra { (words : List (List ℕ)) (bytes : List ℕ) (a b : Job) (m n : ℕ) → AsksUnder words bytes a m
        → AsksUnder words bytes b n → m ≡ n }
{
    texts_spell_one_job();
}

/// A second algebra is the grammar's one of its name.
pub fn second_algebra_is_unique()
    ensures { (second : Option (List ℕ)) (grammar : Grammar) → IsTrue (is_well_formed grammar) → (a b : ℕ)
        → IsSecond second grammar a → IsSecond second grammar b → a ≡ b }
{}

/// The rules that a text hides are nested alternatives.
pub fn texts_hide_alternatives()
    ensures { (bytes : List ℕ) (job : Job) → IsNestedText bytes job → HidesAlternatives (hidden_in bytes) job.grammar }
{
    hidden_rules_are_nested_alternatives();
}

/// What the check of a certificate tells of a word is the best score over all nested candidates, where the grammar has
/// sizes and ranks: that over all candidates of the plain grammar.
pub fn nested_scores_are_the_plain_ones()
    ensures { (p : PosedProblem) (least : List ℕ) (greatest : List (Option ℕ)) (ranks : List ℕ)
        → IsChecked p.grammar p.algebra least greatest ranks → (hidden : ℕ) → AreNestedAlternatives p.grammar hidden
        → (number : ℕ) (report : List ℕ)
        → IsScoreReport number p report ↔ IsNestedScoreReport number p hidden report }
{
    nested::erasing_is_one_to_one_and_onto();
    nested::erasing_keeps_scores();
    nested::alternatives_have_one_pattern();
}

/// A report under the nested grammar is one under the plain grammar, in each mode, where the grammar has sizes and ranks.
pub fn nested_reports_are_the_plain_ones()
    ensures { (p : PosedProblem) (least : List ℕ) (greatest : List (Option ℕ)) (ranks : List ℕ)
        → IsChecked p.grammar p.algebra least greatest ranks → (hidden : Option ℕ) → HidesAlternatives hidden p.grammar
        → (mode : Mode) (command : Command) (number : ℕ) (wins report : List ℕ)
        → IsReportWith mode command None number p wins report
        ↔ IsReportWith mode command hidden number p wins report }
{
    nested::nested_reports_are_the_plain_ones();
    nested_lists_are_the_plain_ones();
    nested_scores_are_the_plain_ones();
}

/// What is asked for with one first candidate tells score and tree of the answer, in each format, where the grammar has
/// sizes and ranks.
pub fn one_first_candidate_is_the_answer()
    ensures { (p : PosedProblem) (least : List ℕ) (greatest : List (Option ℕ)) (ranks : List ℕ)
        → IsChecked p.grammar p.algebra least greatest ranks → (hidden : Option ℕ) → HidesAlternatives hidden p.grammar
        → (answering listing : Command) → answering.mode ≡ Best → listing.mode ≡ KBest → listing.best ≡ 1
        → (number : ℕ) (report listed : List ℕ) → IsReportIn answering hidden number p report
        → IsReportIn listing hidden number p listed → TellOneCandidate number p report listed }
{
    one_first_tree_is_the_answer();
    nested_reports_are_the_plain_ones();
}

/// It can't be that the grammar of an input that has no fault has no sizes and ranks.
pub fn inputs_are_checkable()
    ensures { (words : List (List ℕ)) (bytes : List ℕ) → IsIrrefutable (IsCheckableInput words bytes) }
{
    faultless_grammars_have_sizes_and_ranks();
    asked_grammar_is_unique();
    right_certificates_part_at_job();
}

/// A command line and bytes have one verdict; but reports that tell the wins of evaluators may tell others. Where the
/// verdict are reports there is no fault, and no word passes a limit.
pub fn verdict_is_unique()
    ensures same { (words : List (List ℕ)) (bytes : List ℕ) (a b : Verdict) → IsVerdict words bytes a
        → IsVerdict words bytes b → (a ≡ b) ⊎ AreOfWins words a b }
    ensures reported { (words : List (List ℕ)) (bytes : List ℕ) (reports : List (List ℕ)) (verdict : Verdict)
        → IsVerdict words bytes (Reports reports) → IsVerdict words bytes verdict → IsReports verdict }
{
    inputs_are_checkable();
    texts_spell_one_job();
    texts_hide_alternatives();
    nested_reports_are_the_plain_ones();
    report::report_is_unique();
    limits_are_kept_or_passed();
    pair_limits_are_kept_or_passed();
    list_limits_are_kept_or_passed();
    words_have_one_pair_report();
    words_have_one_certificate();
    words_have_one_score_report();
    words_have_one_list_report();
    right_certificates_part_at_job();
    right_certificates_are_not_rejected();
    first_false_line_is_unique();
}

/// A word that is admitted has a report that a command asks for, if the command reads words, and names a second algebra
/// where it is to.
pub fn words_have_reports()
    ensures { (command : Command) (hidden : Option ℕ) (number : ℕ) (p : PosedProblem) → ReadsJob command.mode
        → (command.mode ≡ Lex → IsSome command.second) → 1 ≤ command.workers
        → IsAdmissibleWith command.second p → HidesAlternatives hidden p.grammar
        → (report : List ℕ) × IsReportIn command hidden number p report }
{
    nested_reports_are_the_plain_ones();
    report::words_have_reports();
    pair_limits_are_kept_or_passed();
    words_have_one_pair_report();
    words_have_one_certificate();
    words_have_one_score_report();
    words_have_one_list_report();
}

/// A word that is made has a report: it can't be that it has none.
pub fn made_words_have_reports()
    ensures { (seed size : ℕ) → IsIrrefutable ((report : List ℕ) × IsBigReport seed size report) }
{
    faultless_grammars_have_sizes_and_ranks();
    demanded_cells_have_a_number();
    cells_have_first_trees();
    first_tree_is_the_preferred_tree();
}

/// A command line and bytes have a verdict, whatever they are: it can't be that they have none.
pub fn verdict_is_there()
    ensures { (words : List (List ℕ)) (bytes : List ℕ)
        → IsIrrefutable ((verdict : Verdict) × IsVerdict words bytes verdict) }
{
    texts_spell_a_job_or_have_a_fault();
    texts_hide_alternatives();
    grammars_are_faulty_or_sound();
    faultless_grammars_have_sizes_and_ranks();
    lengths_keep_or_pass_limits();
    words_have_one_bound();
    pairs_pass_the_checks();
    words_have_reports();
    made_words_have_reports();
    inputs_part_at_job();
}

/// What is written as a certificate is accepted under the same algebra, where it is not too long: the verdict on it are
/// best scores.
pub fn written_certificates_are_accepted()
    ensures { (words others : List (List ℕ)) (bytes : List ℕ) (pieces : List (List ℕ)) (command other : Command)
        → IsCommand words command → command.mode ≡ Cert → IsCommand others other → other.mode ≡ Verify
        → NameOneAlgebra command other (concat pieces) → IsCheckableInput words bytes
        → length (concat pieces) ≤ greatest_length
        → IsVerdict words bytes (Reports pieces)
        → (reports : List (List ℕ)) × IsVerdict others (concat pieces) (Reports reports) }
{
    written_certificates_are_right();
    right_certificates_part_at_job();
    words_have_reports();
    texts_hide_alternatives();
}

/// So it is with no premise on sizes and ranks: it can't be that no best scores are the verdict on it, and nothing else
/// is.
pub fn written_certificates_have_no_fault()
    ensures there { (words others : List (List ℕ)) (bytes : List ℕ) (pieces : List (List ℕ)) (command other : Command)
        → IsCommand words command → command.mode ≡ Cert → IsCommand others other → other.mode ≡ Verify
        → NameOneAlgebra command other (concat pieces) → length (concat pieces) ≤ greatest_length
        → IsVerdict words bytes (Reports pieces)
        → IsIrrefutable ((reports : List (List ℕ)) × IsVerdict others (concat pieces) (Reports reports)) }
    ensures only { (words others : List (List ℕ)) (bytes : List ℕ) (pieces : List (List ℕ)) (command other : Command)
        → IsCommand words command → command.mode ≡ Cert → IsCommand others other → other.mode ≡ Verify
        → NameOneAlgebra command other (concat pieces) → length (concat pieces) ≤ greatest_length
        → IsVerdict words bytes (Reports pieces) → (verdict : Verdict) → IsVerdict others (concat pieces) verdict
        → IsReports verdict }
{
    inputs_are_checkable();
    verdict_is_unique();
    written_certificates_are_accepted();
}
