ghost use Rattle.std.specs.Prelude.{◌≡◌, IfOk};
ghost use Rattle.adp_model.specs.BigReport.{next_state, letter_of, made_word};

use adp_model::Text;
use std::alloc::{AllocError, Global};

const MULTIPLIER: u64 = 6_364_136_223_846_793_005;

const INCREMENT: u64 = 1_442_695_040_888_963_407;

const LETTERS: [u8; 4] = *b"pqrs";

/// The word of a seed and a size: so many letters, each by the two highest bits of the next state of a generator that
/// begins with the seed.
pub fn made_word(alloc: Global, seed: u64, size: u32) -> Result<Text, AllocError>
    ensures { IfOk result (λ word. word ≡ made_word seed size) }
{
    let mut state = seed;
    let mut letters = Vec::new(alloc);
    for _made in 0..size {
        state = next_state(state);
        letters.push(letter_of(state))?;
    }
    Ok(Text::new(letters))
}

fn next_state(state: u64) -> u64
    ensures { result ≡ next_state state }
{
    state.wrapping_mul(MULTIPLIER).wrapping_add(INCREMENT)
}

fn letter_of(state: u64) -> u8
    ensures { result ≡ letter_of state }
{
    LETTERS[(state >> 62) as usize]
}
