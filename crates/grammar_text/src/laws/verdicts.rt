//! The verdict on a text: a job or a fault.

ghost use Rattle.std.specs.Prelude.{◌≡◌, ℕ, ◌⊎◌, None, List, IsTrue, length, nat_le};
ghost use Rattle.std.specs.List.{list_all};
ghost use Rattle.adp_model.specs.declared.fault.TextFault.{TextFault};
ghost use Rattle.adp_model.specs.declared.job.Job.{Job};
ghost use Rattle.job_texts.specs.DeclaredNames.{text_lines, declarations};
ghost use Rattle.job_texts.specs.JobText.{IsFaultOf, IsText, declared_grammar, first_fault};
ghost use Rattle.adp_model.specs.Printable.{is_printable_byte};
ghost use Rattle.adp_model.specs.WellFormed.{is_of_version, is_well_formed};

/// Where no line of a text has a fault its lines make a job: the grammar that they declare is well-formed and one of the
/// text's format, and the words are printable and at most 65,536.
pub fn accepted_texts_are_jobs()
    ensures well_formed { (bytes : List ℕ) → first_fault (text_lines bytes) ≡ None
        → IsTrue (is_well_formed (declared_grammar (declarations (text_lines bytes)))) }
    ensures of_version { (bytes : List ℕ) → first_fault (text_lines bytes) ≡ None
        → IsTrue (is_of_version (text_lines bytes).version (declared_grammar (declarations (text_lines bytes)))) }
    ensures printable_words { (bytes : List ℕ) → first_fault (text_lines bytes) ≡ None
        → IsTrue (list_all (list_all is_printable_byte) (text_lines bytes).words) }
    ensures few_words { (bytes : List ℕ) → first_fault (text_lines bytes) ≡ None
        → IsTrue (nat_le (length (text_lines bytes).words) 65536) }
{}

/// Any bytes are the text of a job or have a fault, never both; and of one job, which is a format, a grammar and its
/// words, or of one fault.
pub fn texts_have_one_verdict()
    ensures some { (bytes : List ℕ) → ((job : Job) × IsText bytes job) ⊎ ((fault : TextFault) × IsFaultOf bytes fault) }
    ensures not_both { (bytes : List ℕ) (job : Job) (fault : TextFault) → IsText bytes job → ¬ (IsFaultOf bytes fault) }
    ensures one_job { (bytes : List ℕ) (job other : Job) → IsText bytes job → IsText bytes other
        → (job.version ≡ other.version) × (job.grammar ≡ other.grammar) × (job.words ≡ other.words) }
    ensures one_fault { (bytes : List ℕ) (fault other : TextFault) → IsFaultOf bytes fault → IsFaultOf bytes other
        → fault ≡ other }
{}
