//! Which alternatives of a rule may begin with some letters: those of a dictionary that begin with other ones aren't
//! looked at.

ghost use Rattle.std.specs.Prelude.{◌≡◌, ◌↔◌, ℕ, ◌<◌, ◌≤◌, IsTrue, Option, None, List, length};
ghost use Rattle.std.specs.Int.{bit_at};
ghost use Rattle.split_lines.specs.Beginnings.{IsTold, IsToldAt, IsCandidate, StandsAt};

use crate::kept::KeptAlternative;
use crate::tokens::letter_at;

/// What a letter at one place tells: bits of the alternatives that have it there, where two letters share a number if
/// they are the same modulo 32, and bits of those that may have any letter there, or none.
#[derive(Drop)]
pub struct Place {
    pub any: u64,
    pub groups: [u64; 32],
}

impl Place {
    /// That of no alternative.
    fn none() -> Place {
        Place {
            any: 0,
            groups: [0; 32],
        }
    }

    /// Adds an alternative, by the letter that it has at the place, if one is known.
    fn add(&mut self, alt: u8, letter: Option<u8>)
        requires { alt < 64 }
        ensures told { IsToldAt self.new alt letter }
        ensures others { (other : ℕ) (letter : Option ℕ) → IsToldAt self.old other letter
            → IsToldAt self.new other letter }
    {
        match letter {
            Some(letter) => self.groups[(letter % 32) as usize] |= 1 << alt,
            None => self.any |= 1 << alt,
        }
    }

    /// Bits of the alternatives that may have this letter at the place, or none.
    #[inline(always)]
    fn bits_at(&self, letter: Option<u8>) -> u64
        ensures any { (alternative : ℕ) → IsToldAt self.now alternative None → bit_at result alternative ≡ 1 }
        ensures letter { (alternative : ℕ) → IsToldAt self.now alternative letter → bit_at result alternative ≡ 1 }
    {
        match letter {
            Some(letter) => self.any | self.groups[(letter % 32) as usize],
            None => self.any,
        }
    }
}

/// What the letters at the first three places tell of the alternatives of a rule. An alternative may begin where each
/// of the three allows it.
#[derive(Drop)]
pub struct Beginnings {
    pub first: Place,
    pub second: Place,
    pub third: Place,
}

impl Beginnings {
    /// Those of no alternative.
    pub fn none() -> Beginnings {
        Beginnings {
            first: Place::none(),
            second: Place::none(),
            third: Place::none(),
        }
    }

    /// Adds an alternative that begins with these letters.
    pub fn add(&mut self, alt: u8, letters: &[u8])
        requires { alt < 64 }
        ensures told { IsTold self.new alt letters.now }
        ensures others { (other : ℕ) (letters : List ℕ) → IsTold self.old other letters
            → IsTold self.new other letters }
    {
        self.first.add(alt, letter_at(letters, 0));
        self.second.add(alt, letter_at(letters, 1));
        self.third.add(alt, letter_at(letters, 2));
    }

    /// Bits of the alternatives that may begin at this position of the word.
    #[inline(always)]
    pub fn bits_at(&self, word: &[u8], from: u16) -> u64
        ensures { (alternative : ℕ) (letters : List ℕ) → IsTold self.now alternative letters
            → StandsAt word.now from letters → bit_at result alternative ≡ 1 }
    {
        let from = from as usize;
        let first = self.first.bits_at(letter_at(word, from));
        let second = self.second.bits_at(letter_at(word, from + 1));
        let third = self.third.bits_at(letter_at(word, from + 2));
        first & second & third
    }
}

/// The alternatives of a rule, and bits of those among them that may begin where a cell does.
#[derive(Clone, Copy)]
pub struct Candidates<'l> {
    pub alternatives: &'l [KeptAlternative<'l>],
    pub bits: u64,
}

impl Candidates<'_> {
    /// Whether the alternative of this number may begin where the cell does. Takes constant time and no memory.
    #[inline(always)]
    pub fn have(self, number: u8) -> bool
        requires { number < 64 }
        ensures { IsTrue result ↔ IsCandidate self.entry number }
    {
        self.bits >> number & 1 == 1
    }

    /// The number of the first alternative from this one on whose bit is set; where there is none, how many alternatives
    /// there are. Takes constant time and no memory.
    #[inline(always)]
    pub fn next(self, number: usize) -> usize
        requires few { length self.alternatives.now ≤ 64 }
        requires within { number ≤ length self.alternatives.now }
        ensures from_number { number ≤ result }
        ensures within { result ≤ length self.entry.alternatives.now }
        ensures none_before { (other : ℕ) → number ≤ other → other < result → IsCandidate self.entry other → ⊥ }
    {
        let count = self.alternatives.len();
        if number == count {
            return count;
        }
        let ahead = self.bits >> number;
        if ahead == 0 {
            return count;
        }
        count.min(number + ahead.trailing_zeros() as usize)
    }
}
