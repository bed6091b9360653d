ghost use Rattle.std.specs.Prelude.{◌≡◌, ◌↔◌, ◌≤◌, IsTrue, length};
ghost use Rattle.adp_model.specs.Scores.{IsBetter};
ghost use Rattle.adp_model.specs.Preference.{LexicographicallyLess};
ghost use Rattle.first_trees.specs.Entries.{EntryPrecedes};

use adp_model::{Choice, Goal};
use std::marker::Model;

/// What a list keeps of a tree: its score, the alternative and the cuts at its root, and for each rule argument the
/// place of its child in the list of its cell.
#[derive(Drop)]
pub struct Entry {
    score: i64,
    choice: Choice,
    ranks: [u8; 4],
    count: u8,
}

impl Model for Entry {
    ghost use Rattle.std.specs.Prelude.{◌≤◌, take};
    ghost use Rattle.first_trees.specs.Entries as entries;

    ghost Value = { entries.Entry };

    ghost view = { λ entry.
        record { score = entry.score; choice = entry.choice; ranks = take entry.count entry.ranks } };

    ghost invariant = { λ entry. entry.count ≤ 4 };
}

impl Entry {
    ghost use Rattle.std.specs.Prelude.{◌≡◌, ◌<◌, ◌≤◌, IfSome, length, take};
    ghost use Rattle.k_best.specs.Growing.{raised};

    /// The entry with the first so many of these ranks.
    pub(crate) fn new(score: i64, choice: Choice, ranks: [u8; 4], count: u8) -> Entry
        requires { count ≤ 4 }
        ensures score { result.score ≡ score }
        ensures choice { result.choice ≡ choice }
        ensures ranks { result.ranks ≡ take count ranks }
    {
        Entry {
            score,
            choice,
            ranks,
            count,
        }
    }

    /// The tree's score. Takes no memory.
    pub fn score(&self) -> i64
        ensures { result ≡ self.now.score }
    {
        self.score
    }

    /// The alternative and the cuts at the tree's root. Takes no memory.
    pub fn choice(&self) -> Choice
        ensures { result ≡ self.now.choice }
    {
        self.choice
    }

    /// For each rule argument, from left to right, the place of its child in the list of its cell: at most four. Takes
    /// no memory.
    pub fn ranks(&self) -> &[u8]
        ensures ranks { result.now ≡ self.now.ranks }
        ensures few { length result.now ≤ 4 }
    {
        &self.ranks[..self.count as usize]
    }

    /// The same entry once more.
    pub(crate) fn same(&self) -> Entry
        ensures { result ≡ self.now }
    {
        Entry {
            score: self.score,
            choice: self.choice,
            ranks: self.ranks,
            count: self.count,
        }
    }

    /// The ranks, with the one at this place greater by one: in an entry that is none of a cell's yet.
    pub(crate) fn raised(&self, number: usize) -> Option<Entry>
        requires { number < length self.now.ranks }
        ensures { IfSome result (λ entry. entry.ranks ≡ raised number self.now.ranks) }
    {
        let mut ranks = self.ranks;
        let Some(rank) = ranks[number].checked_add(1) else {
            return None;
        };
        ranks[number] = rank;
        Some(Entry::new(self.score, self.choice, ranks, self.count))
    }
}

/// Whether the first score is better.
fn is_better(goal: Goal, first: i64, second: i64) -> bool
    ensures { IsTrue result ↔ IsBetter goal first second }
{
    match goal {
        Goal::Least => first < second,
        Goal::Greatest => second < first,
    }
}

/// Whether the first cuts are lexicographically less.
fn cuts_are_less(first: &[u16], second: &[u16]) -> bool
    ensures { IsTrue result ↔ LexicographicallyLess first.now second.now }
{
    match (first.split_first(), second.split_first()) {
        (Some((x, xs)), Some((y, ys))) => *x < *y || *x == *y && cuts_are_less(xs, ys),
        _ => false,
    }
}

/// Whether the first ranks are lexicographically less.
fn ranks_are_less(first: &[u8], second: &[u8]) -> bool
    ensures { IsTrue result ↔ LexicographicallyLess first.now second.now }
{
    match (first.split_first(), second.split_first()) {
        (Some((x, xs)), Some((y, ys))) => *x < *y || *x == *y && ranks_are_less(xs, ys),
        _ => false,
    }
}

/// Whether the first entry comes before the second.
pub fn precedes(goal: Goal, first: &Entry, second: &Entry) -> bool
    ensures { IsTrue result ↔ EntryPrecedes goal first.now second.now }
{
    let (choice, other) = (first.choice(), second.choice());
    if first.score() != second.score() {
        is_better(goal, first.score(), second.score())
    } else if choice.alt != other.alt {
        choice.alt < other.alt
    } else if choice.cuts != other.cuts {
        cuts_are_less(&choice.cuts, &other.cuts)
    } else {
        ranks_are_less(first.ranks(), second.ranks())
    }
}
