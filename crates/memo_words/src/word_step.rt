use crate::part::Part;

/// A word of a table.
#[derive(Clone, Copy, Debug, PartialEq, Eq)]
pub enum Place {
    /// The counter.
    Counter,
    /// The key word of a position.
    Key(u32),
    /// The record word of a position.
    RecordWord(u32),
    /// A word of the record of this number.
    Record(Part, u32),
}

/// What a step does with its word.
#[derive(Clone, Copy, Debug, PartialEq, Eq)]
pub enum Action {
    /// The word is loaded.
    Load,
    /// This is put in the word, where that is 0.
    Exchange(u64),
    /// 1 is added to the word.
    Add,
    /// The step's value is put in the word.
    Store,
}

/// A step on a word, with the value that it found there, or stored in it.
#[derive(Clone, Copy, Debug, PartialEq, Eq)]
pub struct WordStep {
    pub place: Place,
    pub action: Action,
    pub value: u64,
}
