use std::collections::LinkedList;

/// What a step does with its word.
pub enum Deed {
    Load,
    Store(u64),
    /// Puts the second number where the first stands.
    Exchange(u64, u64),
    Add(u64),
}

/// A step on a word, with the number that it found there.
pub struct Event {
    pub word: u64,
    pub deed: Deed,
    pub found: u64,
}

/// An event, and its place in the history of the table.
pub struct Mark {
    pub moment: u64,
    pub event: Event,
}

/// A view with the marks of the steps that were made with it, and its parts of the whole. Contracts alone speak of it:
/// no value of it is made.
pub struct WithMarks<V> {
    pub view: V,
    pub marks: LinkedList<Mark>,
    pub parts: u64,
}
