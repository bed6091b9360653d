use adp_model::{Grammar, Text};
use std::marker::Model;
use std::snapshot::Snapshot;

/// What a table is told when it is made. It borrows nothing. Contracts see the problem, its cell bound, the number of
/// bits of a position and the number of seats.
#[derive(Drop)]
pub struct Key {
    pub(crate) grammar: Snapshot<Grammar>,
    pub(crate) algebra: u32,
    pub(crate) word: Snapshot<Text>,
    pub(crate) cells: u64,
    pub(crate) bits: u32,
    pub(crate) seats: u32,
}

impl Model for Key {
    ghost use Rattle.memo_words.specs.Layout.{Plan};

    ghost Value = { Plan };

    ghost use Rattle.adp_model.specs.WideForm.{form_code};
    ghost use Rattle.std.specs.Coded.{codes};

    ghost coded = { Prim.hlevel (codes, form_code) };

    ghost view = { λ key. record {
      problem = record { grammar = key.grammar.value; algebra = key.algebra; word = key.word.value };
      cells = key.cells;
      bits = key.bits;
      seats = key.seats;
    } };

    ghost invariant = { λ key. Unit {0} };
}
