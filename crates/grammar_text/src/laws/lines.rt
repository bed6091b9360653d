//! What the tokens of a line say, piece by piece.

ghost use Rattle.std.specs.Prelude.{◌≡◌, ◌↔◌, ℕ, IsTrue, Ok, List, ◌∷◌, ◌++◌, drop, map};
ghost use Rattle.job_texts.specs.LineTokens.{PlacedToken, line_tokens, tokens_of};
ghost use Rattle.job_texts.specs.JobLines.{is_words_line};
ghost use Rattle.job_texts.specs.Declarations.{Says, Words, header_line};

/// The bytes of a line behind a token have the tokens behind it.
pub fn tokens_stand_behind()
    ensures { (line : List ℕ) (front : List PlacedToken) (token : PlacedToken) (others : List PlacedToken)
        → line_tokens line ≡ Ok (front ++ token ∷ others)
        → tokens_of (drop token.to line) ≡ Ok (map (λ (other : PlacedToken). other.token) others) }
{}

/// A header line is the `words` line exactly where its only token is the word `words`.
pub fn words_lines_say_words()
    ensures { (version : ℕ) (line : List ℕ) → header_line version line ≡ Says Words ↔ IsTrue (is_words_line line) }
{}
