use crate::plan::Key;
use crate::view::View;
use atomic_table::{Join, Play, Split, TableRule};
use history_table::Seats;

/// The rule that holds of the words and of all views between any two steps.
pub struct TableKept;

impl TableRule<u8, View, Key> for TableKept {
    ghost use Rattle.memo_words.specs.Kept.{Kept};
    ghost use Rattle.memo_words.specs.Views.{first_view};

    ghost holds = { Kept };

    ghost first = { first_view };
}

impl Seats<Key> for TableKept {
    ghost seats = { λ plan. plan.seats };
}

pub(crate) struct LoadsKey;

impl Play<u8, View> for LoadsKey {
    ghost use Rattle.memo_words.specs.Steps.{KeyLoads};

    ghost then = { KeyLoads };
}

pub(crate) struct ExchangesKey;

impl Play<u8, View> for ExchangesKey {
    ghost use Rattle.memo_words.specs.Steps.{KeyExchanges};

    ghost then = { KeyExchanges };
}

pub(crate) struct LoadsRecord;

impl Play<u8, View> for LoadsRecord {
    ghost use Rattle.memo_words.specs.Steps.{RecordLoads};

    ghost then = { RecordLoads };
}

pub(crate) struct ExchangesRecord;

impl Play<u8, View> for ExchangesRecord {
    ghost use Rattle.memo_words.specs.Steps.{RecordExchanges};

    ghost then = { RecordExchanges };
}

pub(crate) struct AddsCounter;

impl Play<u8, View> for AddsCounter {
    ghost use Rattle.memo_words.specs.Steps.{CounterAdds};

    ghost then = { CounterAdds };
}

pub(crate) struct StoresArena;

impl Play<u8, View> for StoresArena {
    ghost use Rattle.memo_words.specs.Steps.{ArenaStores};

    ghost then = { ArenaStores };
}

pub(crate) struct LoadsArena;

impl Play<u8, View> for LoadsArena {
    ghost use Rattle.memo_words.specs.Steps.{ArenaLoads};

    ghost then = { ArenaLoads };
}

pub(crate) struct Splits;

impl Split<View> for Splits {
    ghost use Rattle.memo_words.specs.Views.{after_split, split_off};

    ghost left = { after_split };

    ghost right = { split_off };
}

pub(crate) struct Joins;

impl Join<View> for Joins {
    ghost use Rattle.memo_words.specs.Views.{joined, spent};

    ghost both = { joined };

    ghost spent = { spent };
}
