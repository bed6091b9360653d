ghost use Rattle.std.specs.Prelude.{◌≡◌, ◌≤◌};
ghost use Rattle.memo_words.specs.Layout.{IsPlanned, word_count, slots_of, records_of};

use crate::bits::{bits_for, slots_of};
use crate::pass::{Pass, hand_of_both};
use crate::places::word_count;
use crate::plan::Key;
use crate::rest::Rest;
use crate::rule::{Joins, Splits, TableKept};
use crate::view::View;
use crate::zeros::table_of_zeros;
use adp_model::Problem;
use history_table::HistoryTable;
use std::alloc::{AllocError, Global};
use std::snapshot::Snapshot;

/// The words of a problem's memo table: the counter, a key word and a record word for each position, and a score word
/// and a choice word for each record. Contracts see what it was made for (`plan_of`).
#[derive(Drop)]
pub struct Words {
    pub(crate) table: HistoryTable<u8, View, Key, TableKept, Global>,
    pub(crate) bits: u32,
    pub(crate) slots: u32,
    pub(crate) records: u32,
    ghost bits_are: { bits ≡ table.table.shared.key.bits },
    ghost slots_are: { slots ≡ slots_of table.table.shared.key },
    ghost records_are: { records ≡ records_of table.table.shared.key },
    ghost few_slots: { slots ≤ 4194304 },
    ghost few_records: { records ≤ 2097184 },
    ghost wide: { table.table.shared.table_id.words ≡ word_count slots records },
    ghost no_slots: { table.table.shared.table_id.slots ≡ 0 },
    ghost planned: { ∥ IsPlanned table.table.shared.key ∥₁ },
}

impl Words {
    ghost use Rattle.std.specs.Prelude.{◌≡◌, ◌+◌, ◌≤◌, ◌^◌, ◌++◌, [], IfOk, None};
    ghost use Rattle.memo_words.specs.Layout.{IsPlanned, slots_of, records_of};
    ghost use Rattle.memo_words.specs.Views.{first_view, after_split, split_off, joined, hand_of_both};
    ghost use Rattle.memo_words.specs.Steps.{IsClosing};
    ghost use Rattle.history_table.specs.History.{IsHistoryOf};
    ghost use Rattle.memo_words.specs.Passes.{view_of, hand_of, marks_of, plan_of, problem_of, rest_slots, rest_records, rest_words, IsPassOf};

    /// Words that are all 0, and the first pass. It knows nothing and owns nothing; of the seats it has one, and may
    /// split off the others.
    pub fn new(
        alloc: Global,
        problem: &Problem<'_>,
        seats: u32,
    ) -> Result<(Words, Pass), AllocError>
        requires { (1 ≤ seats) × (seats ≤ 32) }
        ensures problem { IfOk result (λ made. problem_of made.0 ≡ problem.now) }
        ensures seats { IfOk result (λ made. (plan_of made.0).seats ≡ seats) }
        ensures planned { IfOk result (λ made. IsPlanned (plan_of made.0)) }
        ensures own { IfOk result (λ made. IsPassOf made.0 made.1) }
        ensures view { IfOk result (λ made. view_of made.1 ≡ first_view (plan_of made.0)) }
        ensures hand { IfOk result (λ made. hand_of made.1 ≡ None) }
        ensures marks { IfOk result (λ made. marks_of made.1 ≡ []) }
    {
        let bits = bits_for(problem.cells);
        let key = Key {
            grammar: Snapshot::of(problem.grammar),
            algebra: problem.algebra,
            word: Snapshot::of(problem.word),
            cells: problem.cells,
            bits,
            seats,
        };
        let slots = slots_of(bits);
        let records = problem.cells as u32 + seats;
        let (table, seat) = table_of_zeros(alloc, word_count(slots, records), &key)?;
        let words = Words {
            table,
            bits,
            slots,
            records,
        };
        let pass = Pass {
            seat,
            hand: None,
            made: None,
        };
        Ok((words, pass))
    }

    /// The number of bits of a position.
    pub fn bits(&self) -> u32
        ensures { result ≡ (plan_of self.now).bits }
    {
        self.bits
    }

    /// A new pass, which knows what the old one knows. The old one may split off one less.
    pub fn split(&self, pass: &mut Pass) -> Pass
        requires own { IsPassOf self.now pass.old }
        requires spare { 1 ≤ (view_of pass.old).spare }
        ensures old_own { IsPassOf self.now pass.new }
        ensures old_view { view_of pass.new ≡ after_split (view_of pass.old) }
        ensures old_hand { hand_of pass.new ≡ hand_of pass.old }
        ensures new_own { IsPassOf self.now result }
        ensures new_view { view_of result ≡ split_off (view_of pass.old) }
        ensures new_hand { hand_of result ≡ None }
        ensures old_marks { marks_of pass.new ≡ marks_of pass.old }
        ensures new_marks { marks_of result ≡ [] }
    {
        let seat = self.table.split_seat::<Splits>(&mut pass.seat);
        Pass {
            seat,
            hand: None,
            made: None,
        }
    }

    /// Two passes become one, which knows what each of them knew.
    pub fn join(&self, into: &mut Pass, other: Pass)
        requires into { IsPassOf self.now into.old }
        requires other { IsPassOf self.now other }
        ensures own { IsPassOf self.now into.new }
        ensures view { view_of into.new ≡ joined (view_of into.old) (view_of other) }
        ensures hand { hand_of into.new ≡ hand_of_both (hand_of into.old) (hand_of other) }
        ensures marks { marks_of into.new ≡ marks_of into.old ++ marks_of other }
    {
        let Pass { seat, hand, .. } = other;
        self.table.join_seat::<Joins>(&mut into.seat, seat);
        into.hand = hand_of_both(into.hand, hand);
    }

    /// The words as they are once no other pass is left. The rule holds of them and of the pass's view.
    pub fn close(self, pass: Pass) -> Rest
        requires own { IsPassOf self pass }
        requires whole { (view_of pass).weight + (view_of pass).spare ≡ (plan_of self).seats }
        ensures slots { rest_slots result ≡ slots_of (plan_of self) }
        ensures records { rest_records result ≡ records_of (plan_of self) }
        ensures words { IsClosing (plan_of self) (view_of pass) (rest_words result) }
        ensures history { IsHistoryOf (marks_of pass) (rest_words result) }
    {
        let Pass { seat, .. } = pass;
        let Words {
            table,
            slots,
            records,
            ..
        } = self;
        Rest {
            closed: table.close_with(seat),
            slots,
            records,
        }
    }
}
