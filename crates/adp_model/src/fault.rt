use crate::text::Text;

/// Why a grammar is refused: 1 no algebra has the name, 2 a rule is not productive, 3 a rule is on a loop, 4 a sign's
/// term is not monotone, 6 a sign's term in one of two algebras has a score with another factor than 1. It carries the
/// asked name, or that of the first such rule or sign.
#[derive(Drop)]
pub struct GrammarFault {
    pub kind: u8,
    pub name: Text,
}

/// Which limit a word passes: 1 its letters, 2 its cell bound, 3 its node bound, 4 its score bound, 7 the greatest
/// number of two algebras as one. It carries that number, or 2^63 where it is more.
#[derive(Clone, Copy, Debug, PartialEq, Eq)]
pub struct LimitFault {
    pub kind: u8,
    pub number: u64,
}

/// The first fault of a text that is no job: its line, counted from 1, its kind, and for kind 16 the count that passes
/// its limit, else 0.
#[derive(Clone, Copy, Debug, PartialEq, Eq)]
pub struct TextFault {
    pub line: u32,
    pub kind: u8,
    pub count: u32,
}
