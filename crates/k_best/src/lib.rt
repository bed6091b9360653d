//! The first trees of a problem's demanded cells, as lists of entries that name places in one another.
#![tactic(auto)]

mod admission;
mod cell_list;
mod chosen;
mod entry;
mod filling;
mod growing;
mod grown_lists;
mod grown_report;
mod grown_trees;
mod heads;
mod list_table;
mod listed_trees;
mod listing;
mod lists;
mod opening;
mod ranked;
mod reports;
mod split_ranks;

pub use admission::admit_lists;
pub use entry::Entry;
pub use lists::{Lists, solve_lists};
pub use reports::{first_trees_report, list_report};
