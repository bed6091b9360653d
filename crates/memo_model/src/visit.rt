use adp_model::Cell;

/// An argument of one of a cell's splits: the split by its alternative and its cuts, the argument by its number.
#[derive(Clone, Copy)]
pub struct Position {
    pub alternative: u8,
    pub cuts: [u16; 3],
    pub number: u8,
}

/// How far a machine has come with the arguments of a cell's splits. It begins with the alternative `first` and goes
/// round; within an alternative each boundary's positions are visited from its turn on. The argument `at` is the last
/// one that was passed or is being looked up; `None` where there is none yet.
#[derive(Clone, Copy)]
pub struct Visit {
    pub cell: Cell,
    pub first: u32,
    pub turns: [u32; 3],
    pub at: Option<Position>,
}

/// A cell that a machine has opened, with how far its visit has come and the probe that will publish its answer.
#[derive(Drop)]
pub struct Frame<P> {
    pub visit: Visit,
    pub probe: P,
}

/// A cell that is being looked up, with the probe for it.
#[derive(Drop)]
pub struct Hand<P> {
    pub cell: Cell,
    pub probe: P,
}
