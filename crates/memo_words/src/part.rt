/// A word of a record: that of its score, or that of its alternative and cuts.
#[derive(Clone, Copy, Debug, PartialEq, Eq)]
pub enum Part {
    Score,
    Choice,
}
