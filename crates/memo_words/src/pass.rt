ghost use Rattle.std.specs.Prelude.{◌≡◌, ◌+◌};
ghost use Rattle.memo_words.specs.Views.{IsSound, hand_after, hand_of_both};
ghost use Rattle.memo_words.specs.Made.{IsLast};
ghost use Rattle.history_table.specs.History.{bare_me};

use crate::view::View;
use crate::word_step::WordStep;
use atomic_table::Seat;
use history_table::WithMarks;

/// What one evaluator knows of the words, its right to step on them, the record that it has in hand, and its last step.
/// Contracts see its view (`view_of`), the number of that record (`hand_of`) and the step (`made_of`).
#[derive(Drop)]
pub struct Pass {
    pub(crate) seat: Seat<u8, WithMarks<View>>,
    pub(crate) hand: Option<u32>,
    pub(crate) made: Option<WordStep>,
    ghost sound: { IsSound hand (bare_me seat.me) },
    ghost parts: { seat.me.0.parts ≡ seat.me.0.view.weight + seat.me.0.view.spare },
    ghost last: { IsLast made seat.me.0.view },
}

impl Pass {
    ghost use Rattle.std.specs.Prelude.{◌≡◌, ℕ, ◌+◌, ◌<◌, Some, length};
    ghost use Rattle.memo_words.specs.Views.{owns, hands};
    ghost use Rattle.memo_words.specs.Made.{IsLast};
    ghost use Rattle.memo_words.specs.Passes.{view_of, hand_of, made_of};

    /// The record in hand, `None` where there is none. The pass owns it, and beside it fewer records than its weight.
    pub fn in_hand(&self) -> Option<u32>
        ensures hand { result ≡ hand_of self.now }
        ensures owned { (number : ℕ) → result ≡ Some number → 0 < owns number (view_of self.now).owned }
        ensures few { length (view_of self.now).owned < (view_of self.now).weight + hands result }
    {
        self.hand
    }

    /// The last step, `None` where it made none yet: the word that it was on, what it did with it, and the value that
    /// it found there, or stored in it.
    pub fn last_step(&self) -> Option<WordStep>
        ensures made { result ≡ made_of self.now }
        ensures last { IsLast result (view_of self.now) }
    {
        self.made
    }
}

/// The hand after an exchange of a record word that found this: without the record, where the exchange named it.
pub(crate) fn hand_after(hand: Option<u32>, number: u32, found: u64) -> Option<u32>
    ensures { result ≡ hand_after hand number found }
{
    match hand {
        Some(held) if found == 0 && held == number => None,
        _ => hand,
    }
}

/// The hand of two passes in one: the first one's, where there is one.
pub(crate) fn hand_of_both(hand: Option<u32>, other: Option<u32>) -> Option<u32>
    ensures { result ≡ hand_of_both hand other }
{
    hand.or(other)
}
