ghost use Rattle.std.specs.Prelude.{◌≡◌, ◌<◌, ◌^◌};
ghost use Rattle.std.specs.Mem.Slots.{slots_len, IsFull};
ghost use Rattle.memo_words.specs.Layout.{word_count};

use crate::part::Part;
use crate::places::{COUNTER, arena_place, key_place, record_place};
use atomic_table::Closed;
use std::alloc::Global;

/// The words, once no pass is left. Contracts see them as a list (`rest_words`), with the numbers of positions
/// (`rest_slots`) and of records (`rest_records`).
pub struct Rest {
    pub(crate) closed: Closed<u8, Global>,
    pub(crate) slots: u32,
    pub(crate) records: u32,
    ghost full: { IsFull closed.words },
    ghost no_slots: { slots_len closed.slots ≡ 0 },
    ghost wide: { slots_len closed.words ≡ word_count slots records },
    ghost small: { (slots < 2 ^ 31) × (records < 2 ^ 31) },
}

impl Rest {
    ghost use Rattle.std.specs.Prelude.{◌≡◌, ◌<◌};
    ghost use Rattle.memo_words.specs.declared.part.Part.TheVariants.{Score, Choice};
    ghost use Rattle.memo_words.specs.Layout.{counter, key, record_word, arena_word};
    ghost use Rattle.memo_words.specs.Passes.{rest_slots, rest_records, rest_words};

    /// The number of positions.
    pub fn slots(&self) -> u32
        ensures { result ≡ rest_slots self.now }
    {
        self.slots
    }

    /// The number of records.
    pub fn records(&self) -> u32
        ensures { result ≡ rest_records self.now }
    {
        self.records
    }

    /// The counter: how many records were reserved.
    pub fn counter(&self) -> u64
        ensures { result ≡ counter (rest_words self.now) }
    {
        self.closed.word(COUNTER)
    }

    /// The key word of a position.
    pub fn key(&self, position: u32) -> u64
        requires { position < rest_slots self.now }
        ensures { result ≡ key (rest_words self.now) position }
    {
        self.closed.word(key_place(position))
    }

    /// The record word of a position.
    pub fn record_word(&self, position: u32) -> u64
        requires { position < rest_slots self.now }
        ensures { result ≡ record_word (rest_slots self.now) (rest_words self.now) position }
    {
        self.closed.word(record_place(self.slots, position))
    }

    /// The score word of a record.
    pub fn score(&self, number: u32) -> u64
        requires { number < rest_records self.now }
        ensures { result ≡ arena_word (rest_slots self.now) (rest_records self.now) (rest_words self.now) Score number }
    {
        self.closed
            .word(arena_place(self.slots, self.records, Part::Score, number))
    }

    /// The choice word of a record.
    pub fn choice(&self, number: u32) -> u64
        requires { number < rest_records self.now }
        ensures { result
            ≡ arena_word (rest_slots self.now) (rest_records self.now) (rest_words self.now) Choice number }
    {
        self.closed.word(arena_place(self.slots, self.records, Part::Choice, number))
    }
}

impl Drop for Rest {
    fn drop(self) {
        let Self {
            closed,
            slots: _,
            records: _,
        } = self;
        closed.free();
    }
}
