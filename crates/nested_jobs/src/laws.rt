//! What follows from the definitions. Each law is the contract of a function that calls the laws it rests on.

ghost use Rattle.std.specs.Prelude.{◌≡◌, ◌↔◌, ◌⊎◌, ◌<◌, ◌≤◌, ℕ, ◌+◌, ◌-◌, None, Some, List, length, slice_index_or};
ghost use Rattle.adp_model.specs.declared.fault.TextFault.{TextFault};
ghost use Rattle.adp_model.specs.declared.job.Job.{Job};
ghost use Rattle.job_texts.specs.JobLines.{job_lines};
ghost use Rattle.job_texts.specs.JobText.{IsFaultOf, IsText};
ghost use Rattle.nested_texts.specs.PlainTexts.{origins, plain_lines};
ghost use Rattle.nested_trees.specs.HiddenRules.{AreNestedAlternatives};
ghost use Rattle.nested_jobs.specs.NestedJob.{IsNestedFault, IsNestedText, IsPlainText, hidden_in, origin_of};

use grammar_text::laws::verdicts::texts_have_one_verdict;
use nested_texts::laws::texts_have_plain_texts;

/// The hidden rules of an accepted text are nested alternatives: the last rules of its job, so many as are hidden, have
/// one alternative each, without a size.
pub fn hidden_rules_are_nested_alternatives()
    ensures { (bytes : List ℕ) (job : Job) (hidden : ℕ) → IsNestedText bytes job → hidden_in bytes ≡ Some hidden
        → AreNestedAlternatives job.grammar hidden }
{}

/// Any bytes spell one job at most, have one fault at most, and never both.
pub fn texts_spell_one_job()
    ensures one_job { (bytes : List ℕ) (job other : Job) → IsNestedText bytes job → IsNestedText bytes other
        → job ≡ other }
    ensures one_fault { (bytes : List ℕ) (fault other : TextFault) → IsNestedFault bytes fault
        → IsNestedFault bytes other → fault ≡ other }
    ensures not_both { (bytes : List ℕ) (job : Job) (fault : TextFault) → IsNestedText bytes job
        → ¬ (IsNestedFault bytes fault) }
{}

/// Any bytes spell a job or have a fault.
pub fn texts_spell_a_job_or_have_a_fault()
    ensures { (bytes : List ℕ) → ((job : Job) × IsNestedText bytes job)
        ⊎ ((fault : TextFault) × IsNestedFault bytes fault) }
{
    texts_have_plain_texts();
    texts_have_one_verdict();
}

/// A fault of a text stands at one of its lines, or at the one behind them.
pub fn faults_stand_at_lines()
    ensures { (bytes : List ℕ) (fault : TextFault) → IsFaultOf bytes fault
        → (1 ≤ fault.line) × (fault.line ≤ length (job_lines bytes) + 1) }
{}

/// So the line of a plain text's fault has an origin, which is that of the list; and the fault of the bytes stands at
/// one of their lines, or at the one behind them.
pub fn faults_have_origins()
    ensures within { (bytes text : List ℕ) (fault : TextFault) → IsPlainText bytes text → IsFaultOf text fault
        → fault.line - 1 < length (origins (plain_lines (job_lines bytes)) (length (job_lines bytes) + 1)) }
    ensures read { (bytes text : List ℕ) (fault : TextFault) (default : ℕ) → IsPlainText bytes text
        → IsFaultOf text fault
        → origin_of bytes fault.line
        ≡ slice_index_or (origins (plain_lines (job_lines bytes)) (length (job_lines bytes) + 1)) (fault.line - 1)
        default }
    ensures line { (bytes : List ℕ) (fault : TextFault) → IsNestedFault bytes fault
        → (1 ≤ fault.line) × (fault.line ≤ length (job_lines bytes) + 1) }
{}

/// Texts in the two formats without nested alternatives spell what they spell by themselves.
pub fn plain_texts_stay()
    ensures job { (bytes : List ℕ) → hidden_in bytes ≡ None → (job : Job) → IsText bytes job ↔ IsNestedText bytes job }
    ensures fault { (bytes : List ℕ) → hidden_in bytes ≡ None → (fault : TextFault)
        → IsFaultOf bytes fault ↔ IsNestedFault bytes fault }
{}
