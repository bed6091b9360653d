ghost use Rattle.std.specs.Prelude.{◌≡◌, ◌∷◌, [], length, OnOk, MatchOption};

use std::alloc::{AllocError, Global};
use std::marker::Model;

/// Items, of which the last one that was put there leaves first. Contracts see it as the list of its items, the last
/// one first.
#[derive(Drop)]
pub(crate) struct Pile<T> {
    items: Vec<T>,
}

impl<T> Model for Pile<T> {
    ghost use Rattle.std.specs.Prelude.{List, reverse};

    ghost Value = { List T };

    ghost view = { λ pile. reverse pile.items.items };
}

impl<T: Drop> Pile<T> {
    pub(crate) fn new(alloc: Global) -> Pile<T>
        ensures { result ≡ [] }
    {
        Pile {
            items: Vec::new(alloc),
        }
    }

    pub(crate) fn push(&mut self, item: T) -> Result<(), AllocError>
        ensures { OnOk result (self.new ≡ item ∷ self.old) }
    {
        self.items.push(item)?;
        Ok(())
    }

    pub(crate) fn pop(&mut self) -> Option<T>
        ensures { MatchOption result ((self.old ≡ []) × (self.new ≡ [])) (λ item. self.old ≡ item ∷ self.new) }
    {
        self.items.pop()
    }

    pub(crate) fn len(&self) -> usize
        ensures { result ≡ length self.now }
    {
        self.items.len()
    }

    /// The items, the last one that was put there first.
    pub(crate) fn into_vec(self) -> Vec<T>
        ensures { result.items ≡ self }
    {
        let mut items = self.items;
        items.reverse();
        items
    }
}
