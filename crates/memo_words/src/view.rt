use crate::plan::Key;
use adp_model::Cell;
use std::collections::LinkedList;

/// A position, and a value that was found in one of its words and stands.
pub struct Seen {
    pub position: u64,
    pub value: u64,
}

/// A record that a pass owns, with what it stored in its two words, 0 where it stored nothing yet.
pub struct Owned {
    pub number: u64,
    pub score: u64,
    pub choice: u64,
}

/// A word, and the value that a step found there, or stored in it.
pub struct LastStep {
    pub word: u64,
    pub value: u64,
}

/// What one pass knows. No value of it is made: it is how contracts see a pass. A view that was joined away is spent,
/// and has weight 0.
pub struct View {
    pub plan: Option<Key>,
    pub keys: LinkedList<Seen>,
    pub names: LinkedList<Seen>,
    pub known: LinkedList<Cell>,
    pub owned: LinkedList<Owned>,
    pub wins: u64,
    pub weight: u64,
    pub spare: u64,
    pub last: Option<LastStep>,
}
