//! Laws on the bytes that a sink takes in several calls.
ghost use Rattle.std.specs.Prelude.{◌++◌, List, ℕ, Option};
ghost use Rattle.std.specs.Io.KnownBytes.{Appends};
ghost use Rattle.adp_io.specs.Streams.{AppendsProperPrefix};

/// A sink that took one text and then another took both.
pub fn whole_after_whole()
    ensures { (old between new : Option (List ℕ)) (first second : List ℕ) → Appends old between first
        → Appends between new second → Appends old new (first ++ second) }
{}

/// A sink that took one text and then a proper prefix of another took a proper prefix of both.
pub fn proper_prefix_after_whole()
    ensures { (old between new : Option (List ℕ)) (first second : List ℕ) → Appends old between first
        → AppendsProperPrefix between new second → AppendsProperPrefix old new (first ++ second) }
{}

/// A proper prefix of a text is one of each longer text that begins with it.
pub fn proper_prefix_of_more()
    ensures { (old new : Option (List ℕ)) (text more : List ℕ) → AppendsProperPrefix old new text
        → AppendsProperPrefix old new (text ++ more) }
{}
