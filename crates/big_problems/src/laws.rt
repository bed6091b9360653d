//! What holds of every word that is made. Each law is the contract of a function with an empty body.

ghost use Rattle.std.specs.Prelude.{◌≡◌, ℕ, ◌≤◌, IsTrue, [], codes};
ghost use Rattle.adp_model.specs.declared.job.Job.{Job};
ghost use Rattle.adp_model.specs.Tree.{Tree};
ghost use Rattle.adp_model.specs.PosedProblem.{axiom_cell};
ghost use Rattle.adp_model.specs.WellFormed.{is_well_formed};
ghost use Rattle.adp_model.specs.GrammarFaults.{IsFaultless};
ghost use Rattle.job_texts.specs.Spelling.{spelling};
ghost use Rattle.adp_model.specs.ProblemFields.{KeepsLimits};
ghost use Rattle.adp_model.specs.Derivation.{Derives};
ghost use Rattle.verdicts.specs.Command.{greatest_size};
ghost use Rattle.adp_model.specs.BigReport.{pairs_grammar, made_problem};
ghost use Rattle.big_problems.specs.PairsText.{pairs_text};

/// The grammar of pairs is well-formed and has no fault under its algebra, and a job of it without words is spelled
/// `pairs_text`.
pub fn pairs_are_faultless()
    ensures well_formed { IsTrue (is_well_formed pairs_grammar) }
    ensures faultless { IsFaultless pairs_grammar (codes "pairs") 0 }
    ensures spelled { (job : Job) → job.grammar ≡ pairs_grammar → job.words ≡ [] → spelling job ≡ pairs_text }
{}

/// Each size at which a word may be made keeps all limits.
pub fn made_words_keep_the_limits()
    ensures { (size : ℕ) → size ≤ greatest_size → KeepsLimits pairs_grammar 0 size }
{}

/// Each word that is made has a tree.
pub fn made_words_have_trees()
    ensures { (seed size : ℕ)
        → (tree : Tree) × Derives (made_problem seed size) (axiom_cell (made_problem seed size)) tree }
{}
