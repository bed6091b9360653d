//! Where the words lie.

ghost use Rattle.std.specs.Prelude.{◌≡◌, ◌<◌, ◌^◌};
ghost use Rattle.memo_words.specs.Layout.{key_place, record_place, arena_place, word_count};

use crate::part::Part;

/// The word of the counter.
pub(crate) const COUNTER: usize = 0;

/// The number of words.
pub(crate) fn word_count(slots: u32, records: u32) -> usize
    ensures { result ≡ word_count slots records }
{
    1 + 2 * slots as usize + 2 * records as usize
}

/// The key word of a position.
pub(crate) fn key_place(position: u32) -> usize
    ensures { result ≡ key_place position }
{
    1 + position as usize
}

/// The record word of a position.
pub(crate) fn record_place(slots: u32, position: u32) -> usize
    ensures { result ≡ record_place slots position }
{
    1 + slots as usize + position as usize
}

/// A word of a record.
pub(crate) fn arena_place(slots: u32, records: u32, part: Part, number: u32) -> usize
    ensures { result ≡ arena_place slots records part number }
{
    let first = match part {
        Part::Score => 0,
        Part::Choice => records as usize,
    };
    1 + 2 * slots as usize + first + number as usize
}
