/// Where a walk over the viable splits of a cell stands: the inner boundaries as positions of the word, boundaries that
/// the alternative lacks at the cell's end, and for each boundary by how many positions its walk is turned: the
/// positions of the boundary are visited cyclically from that many positions behind the cell's start on.
#[derive(Clone, Copy, Debug, PartialEq, Eq)]
pub struct Cuts {
    pub at: [u16; 3],
    pub turns: [u32; 3],
}
