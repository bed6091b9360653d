//! The law that the reader of jobs undoes the writer: the canonical spelling of a job is a text of this job.
#![tactic(auto)]

ghost use Rattle.adp_model.specs.declared.job.Job.{Job};
ghost use Rattle.job_texts.specs.JobText.{IsText};
ghost use Rattle.job_texts.specs.Spelling.{spelling};

use algebra_terms::laws::{spelled_terms_are_read, spelled_wide_terms_are_read};
use job_texts::laws::{
    dots_are_tokens, marks_are_tokens, quoted_texts_are_tokens, spaces_are_no_tokens,
    words_are_tokens,
};

/// The canonical spelling of a job is an accepted text, and its job is this one.
pub fn spellings_are_read_back()
    ensures { (job : Job) → IsText (spelling job) job }
{
    words_are_tokens();
    marks_are_tokens();
    spaces_are_no_tokens();
    dots_are_tokens();
    quoted_texts_are_tokens();
    spelled_terms_are_read();
    spelled_wide_terms_are_read();
}
