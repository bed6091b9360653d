//! What is kept of a problem's cells, in rows, by starts, and in columns, by ends: a value for each counted cell, or a
//! bit that marks it. Values lie side by side, so that those of a row or a column are read forwards.
#![tactic(auto)]

mod bits;
mod flags;
mod grid;
mod marked_spans;
mod marks;
mod noted;
mod table;

pub use bits::set_each;
pub use cell_layouts::{LaidOut, Layout, Side, WORD};
pub use grid::{Grid, set_places};
pub use marks::Marks;
pub use noted::Noted;
pub use table::Table;
