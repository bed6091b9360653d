ghost use Rattle.std.specs.Prelude.{◌≡◌, ℕ, ◌+◌, ◌%◌, ◌^◌, ◌<◌, ◌≤◌, ◌==◌, [], length, replicate, IfOk};
ghost use mathlib.Core.Option.{none};
ghost use prog.Atomic.{either};
ghost use Rattle.atomic_table.specs.Table.{step, Allows, Splits, Joins, Seen, Final, opening};
ghost use Rattle.std.specs.Mem.Slots.{slots_items, slots_len, IsFull};
ghost use Rattle.history_table.specs.History.{KeptWithHistory, HasMarked, IsHistoryOf, bare_me, first_marked, left_marked, right_marked, both_marked, zeros};
ghost use Rattle.history_table.specs.declared.history.Deed.TheVariants as deeds;

use crate::history::WithMarks;
use crate::rule::{Adds, Cuts, Exchanges, Loads, Merges, Seats, Stores, WithHistory};
use atomic_table::{Closed, Join, Play, Seat, Split, Table, TableRule};
use std::alloc::{AllocError, Allocator};

/// A table of words of which each step stands in one history. A seat's view has the marks of its own steps, and its
/// calls are those of `atomic_table`, each of which is made once.
#[derive(Drop)]
pub struct HistoryTable<S: Drop, V, K, P: TableRule<S, V, K> + Seats<K>, A: Allocator> {
    pub(crate) table: Table<S, WithMarks<V>, K, WithHistory<P>, A>,
}

impl<S: Drop, V, K, P: TableRule<S, V, K> + Seats<K>, A: Allocator> HistoryTable<S, V, K, P, A> {
    /// Loads a word. The step that is told found this very number, and it is one step.
    pub fn load<M: Play<S, V>>(&self, seat: &mut Seat<S, WithMarks<V>>, word: usize) -> u64
        requires table { seat.old.table_id ≡ self.now.table.shared.table_id }
        requires inside { word < self.now.table.shared.table_id.words }
        requires live { 0 < seat.old.me.0.parts }
        requires allows { Allows (P.holds self.now.table.shared.key) self.now.table.shared.table_id.slots seat.old.id
            (bare_me seat.old.me) word (λ n. n)
            (M.then (step self.now.table.shared.table_id.slots word 0 0 none) (bare_me seat.old.me)) }
        ensures table { (seat.new.table_id ≡ seat.old.table_id) × (seat.new.id ≡ seat.old.id) }
        ensures then { M.then (step self.now.table.shared.table_id.slots word 0 0 none)
            (bare_me seat.old.me) result (bare_me seat.new.me) }
        ensures marked { HasMarked word deeds.Load result seat.old.me.0 seat.new.me.0 }
    {
        self.table.shared.load::<Loads<M>>(seat, word)
    }

    /// Puts the second number in a word where the first stands, and answers the number found.
    pub fn compare_exchange<M: Play<S, V>>(
        &self,
        seat: &mut Seat<S, WithMarks<V>>,
        word: usize,
        old: u64,
        new: u64,
    ) -> u64
        requires table { seat.old.table_id ≡ self.now.table.shared.table_id }
        requires inside { word < self.now.table.shared.table_id.words }
        requires live { 0 < seat.old.me.0.parts }
        requires allows { Allows (P.holds self.now.table.shared.key) self.now.table.shared.table_id.slots seat.old.id
            (bare_me seat.old.me) word (λ n. either (n == old) new n)
            (M.then (step self.now.table.shared.table_id.slots word old new none) (bare_me seat.old.me)) }
        ensures table { (seat.new.table_id ≡ seat.old.table_id) × (seat.new.id ≡ seat.old.id) }
        ensures then { M.then (step self.now.table.shared.table_id.slots word old new none)
            (bare_me seat.old.me) result (bare_me seat.new.me) }
        ensures marked { HasMarked word (deeds.Exchange old new) result seat.old.me.0 seat.new.me.0 }
    {
        self.table
            .shared
            .compare_exchange::<Exchanges<M>>(seat, word, old, new)
    }

    /// Adds to a word, and answers the number found.
    pub fn fetch_add<M: Play<S, V>>(
        &self,
        seat: &mut Seat<S, WithMarks<V>>,
        word: usize,
        k: u64,
    ) -> u64
        requires table { seat.old.table_id ≡ self.now.table.shared.table_id }
        requires inside { word < self.now.table.shared.table_id.words }
        requires live { 0 < seat.old.me.0.parts }
        requires allows { Allows (P.holds self.now.table.shared.key) self.now.table.shared.table_id.slots seat.old.id
            (bare_me seat.old.me) word (λ n. (n + k) % 2 ^ 64)
            (M.then (step self.now.table.shared.table_id.slots word k 0 none) (bare_me seat.old.me)) }
        ensures table { (seat.new.table_id ≡ seat.old.table_id) × (seat.new.id ≡ seat.old.id) }
        ensures then { M.then (step self.now.table.shared.table_id.slots word k 0 none)
            (bare_me seat.old.me) result (bare_me seat.new.me) }
        ensures marked { HasMarked word (deeds.Add k) result seat.old.me.0 seat.new.me.0 }
    {
        self.table.shared.fetch_add::<Adds<M>>(seat, word, k)
    }

    /// Stores a number in a word. What stood there is told to nobody.
    pub fn store<M: Play<S, V>>(&self, seat: &mut Seat<S, WithMarks<V>>, word: usize, new: u64)
        requires table { seat.old.table_id ≡ self.now.table.shared.table_id }
        requires inside { word < self.now.table.shared.table_id.words }
        requires live { 0 < seat.old.me.0.parts }
        requires allows { Allows (P.holds self.now.table.shared.key) self.now.table.shared.table_id.slots seat.old.id
            (bare_me seat.old.me) word (λ _. new)
            (λ _. M.then (step self.now.table.shared.table_id.slots word new 0 none) (bare_me seat.old.me) new) }
        ensures table { (seat.new.table_id ≡ seat.old.table_id) × (seat.new.id ≡ seat.old.id) }
        ensures then { M.then (step self.now.table.shared.table_id.slots word new 0 none)
            (bare_me seat.old.me) new (bare_me seat.new.me) }
        ensures marked { (stood : ℕ) × HasMarked word (deeds.Store new) stood seat.old.me.0 seat.new.me.0 }
    {
        self.table.shared.store::<Stores<M>>(seat, word, new)
    }

    /// A new seat, whose view has no mark. It takes one part.
    pub fn split_seat<M: Split<V>>(&self, seat: &mut Seat<S, WithMarks<V>>) -> Seat<S, WithMarks<V>>
        requires table { seat.old.table_id ≡ self.now.table.shared.table_id }
        requires words { 0 < self.now.table.shared.table_id.words }
        requires parts { 1 < seat.old.me.0.parts }
        requires rule { Splits (P.holds self.now.table.shared.key) seat.old.id seat.old.me.0.view
            (M.left seat.old.me.0.view) (M.right seat.old.me.0.view) }
        ensures old { (seat.new.table_id ≡ seat.old.table_id) × (seat.new.id ≡ seat.old.id)
            × (seat.new.me ≡ (left_marked M.left seat.old.me.0, seat.old.me.1)) }
        ensures new { (result.table_id ≡ seat.old.table_id) × (result.me ≡ (right_marked M.right seat.old.me.0, [])) }
    {
        self.table.shared.split_seat::<Cuts<M>>(seat)
    }

    /// Two seats become one, which has the marks and the parts of both.
    pub fn join_seat<M: Join<V>>(
        &self,
        seat: &mut Seat<S, WithMarks<V>>,
        other: Seat<S, WithMarks<V>>,
    )
        requires table { (seat.old.table_id ≡ self.now.table.shared.table_id)
            × (other.table_id ≡ self.now.table.shared.table_id) }
        requires slots { other.me.1 ≡ [] }
        requires words { 0 < self.now.table.shared.table_id.words }
        requires live { 0 < seat.old.me.0.parts }
        requires rule { Joins (P.holds self.now.table.shared.key) seat.old.id seat.old.me.0.view other.id
            other.me.0.view (M.both seat.old.me.0.view other.me.0.view) M.spent }
        ensures { (seat.new.table_id ≡ seat.old.table_id) × (seat.new.id ≡ seat.old.id)
            × (seat.new.me ≡ (both_marked M.both seat.old.me.0 other.me.0, seat.old.me.1)) }
    {
        self.table.shared.join_seat::<Merges<M>>(seat, other);
    }

    /// A table of words that are all 0, with a history that has no event yet. The first seat has all parts.
    pub fn of_zeros(
        alloc: A,
        words: &[u64],
        about: &K,
    ) -> Result<(HistoryTable<S, V, K, P, A>, Seat<S, WithMarks<V>>), AllocError>
        requires zeros { words.now ≡ zeros (length words.now) }
        requires rule { P.holds about.now (opening words.now [] (P.first about.now)) }
        ensures table { IfOk result (λ made. (made.0.table.shared.table_id.words ≡ length words.now)
            × (made.0.table.shared.table_id.slots ≡ 0) × (made.0.table.shared.key ≡ about.now)) }
        ensures seat { IfOk result (λ made. (made.1.table_id ≡ made.0.table.shared.table_id) × (made.1.id ≡ 0)
            × (made.1.me ≡ (first_marked (P.seats about.now) (P.first about.now), []))) }
    {
        let (table, seat) = Table::of_words(alloc, words, about)?;
        Ok((HistoryTable { table }, seat))
    }

    /// The words as they are in the end. The rule holds of them, with its history; where the seat has all parts its
    /// marks are that whole history.
    pub fn close_with(self, seat: Seat<S, WithMarks<V>>) -> Closed<S, A>
        requires { seat.table_id ≡ self.table.shared.table_id }
        ensures counts { (slots_len result.words ≡ self.table.shared.table_id.words)
            × (slots_len result.slots ≡ self.table.shared.table_id.slots) }
        ensures full { IsFull result.words × IsFull result.slots }
        ensures values { Final (Seen (P.holds self.table.shared.key) seat.id seat.me.0.view)
            (slots_items result.words) (slots_items result.slots) }
        ensures kept { Final
            (Seen (KeptWithHistory (P.holds self.table.shared.key) (P.seats self.table.shared.key)) seat.id seat.me.0)
            (slots_items result.words) (slots_items result.slots) }
        ensures whole { seat.me.0.parts ≡ P.seats self.table.shared.key
            → IsHistoryOf seat.me.0.marks (slots_items result.words) }
    {
        let HistoryTable { table } = self;
        table.close_with(seat)
    }
}
