//! How much a line can declare.

ghost use Rattle.std.specs.Prelude.{◌≡◌, ℕ, ◌≤◌, List, length};
ghost use Rattle.job_texts.specs.Declarations.{Declaration, Says, header_line};
ghost use Rattle.grammar_text.specs.Names.{part_count};

/// A line declares no more kinds or alternatives than it has bytes.
pub fn parts_are_few()
    ensures { (version : ℕ) (line : List ℕ) (declaration : Declaration) → header_line version line ≡ Says declaration
        → part_count declaration ≤ length line }
{}
