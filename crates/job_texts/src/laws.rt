//! What follows from the definitions. Each law is the contract of a function with an empty body.

ghost use Rattle.std.specs.Prelude.{◌≡◌, ◌∷◌, ◌++◌, true, false, Some, Ok, List, ℕ, codes, map, drop};
ghost use Rattle.std.specs.List.{list_all};
ghost use Rattle.adp_model.specs.WellFormed.{is_word_byte};
ghost use Rattle.job_texts.specs.LineTokens.{Token, Word, Quoted, Dots, PlacedToken, before_tokens, begins_word, is_one_of, line_tokens, mark_of, tokens_of};
ghost use Rattle.adp_model.specs.TreeText.{quoted};

/// What the tokens of a line say behind one of them, the bytes behind it say alone.
pub fn tokens_behind_a_token()
    ensures { (line : List ℕ) (earlier : List PlacedToken) (token : PlacedToken) (later : List PlacedToken)
        → line_tokens line ≡ Ok (earlier ++ token ∷ later)
        → tokens_of (drop token.to line) ≡ Ok (map (λ (placed : PlacedToken). placed.token) later) }
{}

/// A text that begins with a word, behind which stands no byte of a word, has that word as its first token.
pub fn words_are_tokens()
    ensures { (first : ℕ) (others text : List ℕ)
        → list_all is_word_byte (first ∷ others) ≡ true → begins_word text ≡ false
        → tokens_of ((first ∷ others) ++ text) ≡ before_tokens (Word (first ∷ others)) (tokens_of text) }
{}

/// A text that begins with a mark has that mark as its first token.
pub fn marks_are_tokens()
    ensures { (byte : ℕ) (mark : Token) (text : List ℕ) → mark_of byte ≡ Some mark
        → tokens_of (byte ∷ text) ≡ before_tokens mark (tokens_of text) }
{}

/// A space before a text adds no token.
pub fn spaces_are_no_tokens()
    ensures { (byte : ℕ) (text : List ℕ) → is_one_of (codes " ") byte ≡ true
        → tokens_of (byte ∷ text) ≡ tokens_of text }
{}

/// A text that begins with `..` has dots as its first token.
pub fn dots_are_tokens()
    ensures { (text : List ℕ) → tokens_of (codes ".." ++ text) ≡ before_tokens Dots (tokens_of text) }
{}

/// A text that begins with the spelling of quoted letters has these letters as its first token.
pub fn quoted_texts_are_tokens()
    ensures { (letters text : List ℕ)
        → tokens_of (quoted letters ++ text) ≡ before_tokens (Quoted letters) (tokens_of text) }
{}
