/// How far a probe has come: it looks its cell up, it found no answer, it publishes one, or nothing is left to do.
#[derive(Clone, Copy, Debug, PartialEq, Eq)]
pub enum Stage {
    Open,
    Unpublished,
    Publishing,
    Done,
}

/// What a step of a look found: that it goes on, that no answer is published, or the score of the cell's answer, `None`
/// where it has no candidate.
#[derive(Clone, Copy, Debug, PartialEq, Eq)]
pub enum Look {
    Going,
    Unpublished,
    Found(Option<i64>),
}

/// What a step of a publication did: it goes on, it put the answer, or it found one that was there.
#[derive(Clone, Copy, Debug, PartialEq, Eq)]
pub enum Publish {
    Going,
    Won,
    Lost,
}
