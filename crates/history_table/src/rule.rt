ghost use Rattle.std.specs.Prelude.{ℕ};

use crate::history::WithMarks;
use atomic_table::{Join, Play, Split, TableRule};
use std::marker::PhantomData;

/// How many parts of the whole the first seat has. A seat that is split off takes one of them.
pub trait Seats<K> {
    ghost seats: { K → ℕ };
}

/// The rule `P`, and that there is a history of the words (`KeptWithHistory`).
pub struct WithHistory<P> {
    rule: PhantomData<P>,
}

impl<S, V, K, P: TableRule<S, V, K> + Seats<K>> TableRule<S, WithMarks<V>, K> for WithHistory<P> {
    ghost use Rattle.history_table.specs.History.{KeptWithHistory, first_marked};

    ghost holds = { λ key. KeptWithHistory (P.holds key) (P.seats key) };

    ghost first = { λ key. first_marked (P.seats key) (P.first key) };
}

pub(crate) struct Loads<M> {
    play: PhantomData<M>,
}

impl<S, V, M: Play<S, V>> Play<S, WithMarks<V>> for Loads<M> {
    ghost use Rattle.history_table.specs.History.{marked_by, as_load};

    ghost then = { marked_by as_load M.then };
}

pub(crate) struct Exchanges<M> {
    play: PhantomData<M>,
}

impl<S, V, M: Play<S, V>> Play<S, WithMarks<V>> for Exchanges<M> {
    ghost use Rattle.history_table.specs.History.{marked_by, as_exchange};

    ghost then = { marked_by as_exchange M.then };
}

pub(crate) struct Adds<M> {
    play: PhantomData<M>,
}

impl<S, V, M: Play<S, V>> Play<S, WithMarks<V>> for Adds<M> {
    ghost use Rattle.history_table.specs.History.{marked_by, as_add};

    ghost then = { marked_by as_add M.then };
}

pub(crate) struct Stores<M> {
    play: PhantomData<M>,
}

impl<S, V, M: Play<S, V>> Play<S, WithMarks<V>> for Stores<M> {
    ghost use Rattle.history_table.specs.History.{marked_store};

    ghost then = { marked_store M.then };
}

pub(crate) struct Cuts<M> {
    split: PhantomData<M>,
}

impl<V, M: Split<V>> Split<WithMarks<V>> for Cuts<M> {
    ghost use Rattle.history_table.specs.History.{left_marked, right_marked};

    ghost left = { left_marked M.left };

    ghost right = { right_marked M.right };
}

pub(crate) struct Merges<M> {
    join: PhantomData<M>,
}

impl<V, M: Join<V>> Join<WithMarks<V>> for Merges<M> {
    ghost use Rattle.history_table.specs.History.{both_marked, spent_marked};

    ghost both = { both_marked M.both };

    ghost spent = { spent_marked M.spent };
}
