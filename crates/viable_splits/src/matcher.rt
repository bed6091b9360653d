//! What finds in the word of a problem where arguments match.

ghost use Rattle.std.specs.Prelude.{◌≡◌, ℕ, ◌+◌, ◌<◌, ◌≤◌, ◌↔◌, IsTrue, MatchOption, drop, length, take};
ghost use Rattle.std.specs.List.{AllByRecursion};
ghost use Rattle.adp_model.specs.Parts.{alternatives_of, arguments_of};
ghost use Rattle.adp_model.specs.PosedProblem.{PosedProblem, IsSpan};
ghost use Rattle.adp_model.specs.Tokens.{IsIn};
ghost use Rattle.viable_splits.specs.Placing.{IsClassEnd, CoverNone, IsNextPosition};

use adp_model::Problem;

/// What finds in the word of a problem where arguments match. A walk over viable splits asks it at each step.
pub trait Matcher {
    /// The problem whose word it is.
    ghost posed: { Self → PosedProblem };

    /// The problem. Takes no memory.
    fn problem(&self) -> &Problem<'_>
        ensures { result.now ≡ posed self.now };

    /// The last position, up to `last`, up to which all letters from `from` on are in the class. Takes no memory.
    fn class_end(&self, class: u32, from: usize, last: usize) -> usize
        requires known { class < length (posed self.now).grammar.classes }
        requires span { IsSpan (posed self.now).word from last }
        ensures { IsClassEnd (posed self.now) class from last result };

    /// A position from `start` on and before `end`, such that the arguments of an alternative from this number on may
    /// begin at no position before it; `None` only where they may begin at none of these positions. Takes no memory.
    fn next_position(
        &self,
        rule: u32,
        alt: u8,
        number: usize,
        start: usize,
        end: usize,
    ) -> Option<usize>
        requires alternative { alt < length (alternatives_of (posed self.now).grammar rule) }
        requires within { end ≤ length (posed self.now).word + 1 }
        ensures { MatchOption result
            (CoverNone (posed self.now) (drop number (arguments_of (posed self.now).grammar rule alt)) start end)
            (IsNextPosition (posed self.now) (drop number (arguments_of (posed self.now).grammar rule alt)) start end) }
    {
        if start < end { Some(start) } else { None }
    }
}

/// Whether the class has the letter.
fn is_in(class: &[(u8, i64)], letter: u8) -> bool
    ensures { IsTrue result ↔ IsIn class.now letter }
{
    for (other, _) in class {
        if *other == letter {
            return true;
        }
    }
    false
}

/// How many letters from the first on are in the class.
fn reach(class: &[(u8, i64)], letters: &[u8]) -> usize
    ensures within { result ≤ length letters.now }
    ensures reach { (n : ℕ) → n ≤ length letters.now
        → AllByRecursion (IsIn class.now) (take n letters.now) ↔ (n ≤ result) }
{
    for (index, letter) in letters.iter().enumerate() {
        if !is_in(class, *letter) {
            return index;
        }
    }
    letters.len()
}

impl<'a> Matcher for Problem<'a> {
    ghost posed = { λ problem. problem };

    fn problem(&self) -> &Problem<'_> {
        self
    }

    fn class_end(&self, class: u32, from: usize, last: usize) -> usize {
        from + reach(self.class_letters(class), &self.letters()[from..last])
    }
}
