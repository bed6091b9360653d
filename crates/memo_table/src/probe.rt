use adp_model::Cell;
use memo_words::Words;
use std::snapshot::Snapshot;

/// What the next step of a probe is. The position is that to which the search for the cell's key has come.
#[derive(Clone, Copy)]
pub(crate) enum Next {
    /// The key word of the position is loaded.
    Key,
    /// The key word, in which 0 was found, is exchanged for the cell's code.
    Claim,
    /// The record word is loaded. The cell's code stands at the position.
    RecordWord,
    /// The choice word of this record is loaded, which the record word names.
    Choice(u32),
    /// Its score word is loaded. The cell has a candidate.
    Score(u32),
    /// Nothing is published: a record is reserved, or the score is stored in the one that is in hand.
    Reserve,
    /// The score is stored in the record in hand.
    StoreScore,
    /// The alternative and the cuts are stored in the record in hand.
    StoreChoice,
    /// The record word is exchanged from 0 to the name of the record in hand.
    Publish,
    /// Nothing is left to do.
    Done,
}

/// A cell that is looked up in a table, and published where it was not there. It has come past so many positions that
/// hold other cells.
#[derive(Drop)]
pub struct Probe {
    pub(crate) cell: Cell,
    pub(crate) turn: u32,
    pub(crate) next: Next,
    pub(crate) words: Snapshot<Words>,
}
