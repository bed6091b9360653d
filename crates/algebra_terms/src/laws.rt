//! What follows from the definitions. Each law is the contract of a function that does nothing.

ghost use Rattle.std.specs.Prelude.{◌≡◌, IsTrue, Ok, length};
ghost use Rattle.adp_model.specs.WideForm.{WideForm};
ghost use Rattle.adp_model.specs.declared.grammar.Sign.{Sign};
ghost use Rattle.adp_model.specs.declared.grammar.Linear.{Linear};
ghost use Rattle.adp_model.specs.WellFormed.{is_linear, is_sign, is_wide};
ghost use Rattle.job_texts.specs.Spelling.{linear_text, variables, wide_text};
ghost use Rattle.job_texts.specs.TermParts.{term_reading};
ghost use Rattle.job_texts.specs.WideText.{wide_reading};

use job_texts::laws::{marks_are_tokens, spaces_are_no_tokens, words_are_tokens};

/// The canonical spelling of a sign's linear term is read as that term.
pub fn spelled_terms_are_read()
    ensures { (sign : Sign) (term : Linear) → IsTrue (is_sign sign) → IsTrue (is_linear (length sign.kinds) term)
        → term_reading (linear_text term) (variables 1 sign.kinds) ≡ Ok term }
{
    words_are_tokens();
    marks_are_tokens();
    spaces_are_no_tokens();
}

/// The canonical spelling of a sign's wide term is read as that term.
pub fn spelled_wide_terms_are_read()
    ensures { (sign : Sign) (term : WideForm) → IsTrue (is_sign sign) → IsTrue (is_wide (length sign.kinds) term)
        → wide_reading (wide_text term) (variables 1 sign.kinds) ≡ Ok term }
{
    words_are_tokens();
    marks_are_tokens();
    spaces_are_no_tokens();
}
