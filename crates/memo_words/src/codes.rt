//! The words that stand for cells, for scores and for choices. None of them is 0, which stands for an empty word.

ghost use Rattle.std.specs.Prelude.{◌≡◌, ◌<◌, ℤ, Option, Some, None};
ghost use Rattle.adp_model.specs.declared.cell.Cell.{Cell};
ghost use Rattle.adp_model.specs.declared.cell.Choice.{Choice};
ghost use Rattle.memo_words.specs.Codes.{HasCellCode, cell_code, HasScoreCode, score_code, HasChoiceCode, choice_code};

use adp_model::{Cell, Choice};

/// Each position of a word is below this number, which takes 12 bits.
const POSITIONS: u64 = 1 << 12;

/// Each number of an alternative is below this number, which takes 8 bits.
const ALTERNATIVES: u64 = 1 << 8;

/// The key word of a cell.
pub fn cell_code(cell: Cell) -> u64
    requires { HasCellCode cell }
    ensures { result ≡ cell_code cell }
{
    1 + u64::from(cell.to) + POSITIONS * (u64::from(cell.from) + POSITIONS * u64::from(cell.rule))
}

/// The cell of a key word.
pub fn code_cell(code: u64) -> Cell
    requires { (cell : Cell) × HasCellCode cell × (cell_code cell ≡ code) }
    ensures code { HasCellCode result × (cell_code result ≡ code) }
    ensures inverse { (cell : Cell) → HasCellCode cell → cell_code cell ≡ code → result ≡ cell }
{
    let packed = code - 1;
    Cell {
        rule: (packed / POSITIONS / POSITIONS) as u32,
        from: (packed / POSITIONS % POSITIONS) as u16,
        to: (packed % POSITIONS) as u16,
    }
}

/// The word of no candidate, as a score and as a choice.
pub const NO_CANDIDATE: u64 = 1;

/// The magnitude of each score is below this number.
const MAGNITUDES: i64 = 1 << 62;

/// The score word of a cell's best score.
pub fn score_code(score: Option<i64>) -> u64
    requires { HasScoreCode score }
    ensures code { result ≡ score_code score }
    ensures filled { 0 < result }
{
    match score {
        None => NO_CANDIDATE,
        Some(score) => 1 + (score + MAGNITUDES) as u64,
    }
}

/// The best score that a score word stands for.
pub fn code_score(code: u64) -> Option<i64>
    requires { (score : Option ℤ) × HasScoreCode score × (score_code score ≡ code) }
    ensures code { HasScoreCode result × (score_code result ≡ code) }
    ensures inverse { (score : Option ℤ) → HasScoreCode score → score_code score ≡ code → result ≡ score }
{
    if code == NO_CANDIDATE {
        None
    } else {
        Some((code - 1) as i64 - MAGNITUDES)
    }
}

/// The choice word of a cell's root alternative and cuts.
pub fn choice_code(choice: Option<Choice>) -> u64
    requires { HasChoiceCode choice }
    ensures code { result ≡ choice_code choice }
    ensures filled { 0 < result }
{
    match choice {
        None => NO_CANDIDATE,
        Some(choice) => {
            let [first, second, third] = choice.cuts;
            let cuts = u64::from(first)
                + POSITIONS * (u64::from(second) + POSITIONS * u64::from(third));
            2 + u64::from(choice.alt) + ALTERNATIVES * cuts
        }
    }
}

/// The root alternative and cuts that a choice word stands for.
pub fn code_choice(code: u64) -> Option<Choice>
    requires { (choice : Option Choice) × HasChoiceCode choice × (choice_code choice ≡ code) }
    ensures code { HasChoiceCode result × (choice_code result ≡ code) }
    ensures inverse { (choice : Option Choice) → HasChoiceCode choice → choice_code choice ≡ code → result ≡ choice }
{
    if code == NO_CANDIDATE {
        return None;
    }
    let packed = code - 2;
    let cuts = packed / ALTERNATIVES;
    Some(Choice {
        alt: (packed % ALTERNATIVES) as u8,
        cuts: [
            (cuts % POSITIONS) as u16,
            (cuts / POSITIONS % POSITIONS) as u16,
            (cuts / POSITIONS / POSITIONS) as u16,
        ],
    })
}

/// Equal words stand for equal cells, scores and choices.
pub fn codes_tell_apart()
    ensures cells { (a b : Cell) → HasCellCode a → HasCellCode b → cell_code a ≡ cell_code b → a ≡ b }
    ensures scores { (a b : Option ℤ) → HasScoreCode a → HasScoreCode b → score_code a ≡ score_code b → a ≡ b }
    ensures choices { (a b : Option Choice) → HasChoiceCode a → HasChoiceCode b → choice_code a ≡ choice_code b
        → a ≡ b }
{}
