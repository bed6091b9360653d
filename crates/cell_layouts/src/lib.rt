//! The counted cells of a word, those that the sizes and the anchors of rules leave: how many they are, where they lie
//! in rows and in columns, and their places.
#![tactic(auto)]

mod cells;
mod counted_places;
mod laid_out;
mod laying;
mod layout;
mod numbering;

pub use cells::cell_bound;
pub use counted_places::Places;
pub use laid_out::LaidOut;
pub use laying::WORD;
pub use layout::{Block, Laid, Layout, Side};
pub use numbering::places;
