//! How the arguments behind the tokens in front of an alternative are laid.

use crate::lines::Line;
use adp_model::Arg;

/// How an alternative is scored on a cell, and looked through for cells that it demands, where its tokens in front have
/// ended: by the arguments behind them.
#[derive(Clone, Copy)]
pub enum Way<'l> {
    /// By nothing more: there are none, and the tokens in front have all letters of the cell.
    Front,
    /// By this one, of open length, which has all letters that are left.
    Last(&'l Arg),
    /// By the ends of several: along the line of the last two of open length, with the number of its first argument
    /// among these; `None` where but one of them is of open length.
    Several(Option<Line<'l>>),
}
