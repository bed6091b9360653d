//! What follows from the definitions. Each law is the contract of a function with an empty body.

ghost use Rattle.std.specs.Prelude.{◌≡◌, ℕ, List, map};
ghost use Rattle.job_texts.specs.JobLines.{job_lines};
ghost use Rattle.nested_texts.specs.PlainTexts.{PlainLine, plain_lines};

/// Any bytes have a plain text: one of exactly the lines that are given to them.
pub fn texts_have_plain_texts()
    ensures { (bytes : List ℕ) → (text : List ℕ)
        × (job_lines text ≡ map (λ (line : PlainLine). line.bytes) (plain_lines (job_lines bytes))) }
{}
