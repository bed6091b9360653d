ghost use Rattle.std.specs.Prelude.{◌≡◌, ℕ, ◌+◌, ◌-◌, ◌^◌, ◌<◌, ◌∷◌, insert, true, min, IfOk, OnOk};
ghost use Rattle.adp_model.specs.LimitFaults.{told};
ghost use Rattle.grammar_check.specs.Alternatives.{linear_value};
ghost use Rattle.grammar_check.specs.LetterSteps.{are_letters, least_worth, letter_of, place_in, step_of, steps_of, taken};
ghost use Rattle.grammar_check.specs.Plans.{lows, rooms};

use crate::cut::{cut_product, cut_sum};
use crate::part::{Part, lows};
use std::alloc::{AllocError, Global};

/// Spare letters of a part: what each adds, cut, and how many there can be.
#[derive(Clone, Copy)]
pub struct Step {
    pub worth: u64,
    pub room: usize,
}

/// An alternative with a linear term, or one whose nodes are counted, whose parts are letters alone: what it adds of
/// its own, with its tokens of one length; the letters of these; and its other arguments as parts. Spare letters go to
/// the part that is worth most a letter, up to its room, then to the next: a length costs a step for each part, and no
/// row is kept.
#[derive(Drop)]
pub struct LetterAlternative {
    pub constant: u64,
    pub fixed: usize,
    pub parts: Vec<Part>,
    low: usize,
    room: usize,
    least: u64,
    steps: Vec<Step>,
    ghost letters: { are_letters parts.items ≡ true },
    ghost low_is: { low ≡ min (fixed + lows parts.items) (2 ^ 64 - 1) },
    ghost room_is: { room ≡ min (rooms parts.items) (2 ^ 64 - 1) },
    ghost least_is: { least ≡ told (least_worth parts.items) },
    ghost steps_are: { steps.items ≡ steps_of parts.items },
}

impl LetterAlternative {
    /// An alternative of these parts.
    pub fn new(
        alloc: Global,
        constant: u64,
        fixed: usize,
        parts: Vec<Part>,
    ) -> Result<LetterAlternative, AllocError>
        requires { are_letters parts.items ≡ true }
        ensures constant { IfOk result (λ alternative. alternative.constant ≡ constant) }
        ensures fixed { IfOk result (λ alternative. alternative.fixed ≡ fixed) }
        ensures parts { IfOk result (λ alternative. alternative.parts.items ≡ parts.items) }
    {
        let low = fixed.saturating_add(lows(&parts));
        let room = rooms(&parts);
        let least = least_worth(&parts);
        let steps = steps_of(alloc, &parts)?;
        Ok(LetterAlternative {
            constant,
            fixed,
            parts,
            low,
            room,
            least,
            steps,
        })
    }

    /// The greatest value of the alternative over its ways to have this length, cut; 0 where there is no way.
    pub fn value(&self, len: usize) -> u64
        requires { len < 2 ^ 32 }
        ensures { (bound : ℕ → ℕ → ℕ)
            → result ≡ told (linear_value bound self.now.constant self.now.fixed self.now.parts.items len) }
    {
        if len < self.low {
            return 0;
        }
        let spare = len - self.low;
        if spare > self.room {
            return 0;
        }
        cut_sum(
            self.constant,
            cut_sum(self.least, taken(&self.steps, spare)),
        )
    }
}

/// How many spare letters the parts can take, or the greatest number that there is.
fn rooms(parts: &[Part]) -> usize
    ensures { result ≡ min (rooms parts.now) (2 ^ 64 - 1) }
{
    let mut total: usize = 0;
    let mut rest = parts;
    while let Some((first, others)) = rest.split_first() {
        total = total.saturating_add(first.room);
        rest = others;
    }
    total
}

/// What the parts add with their least lengths, cut.
fn least_worth(parts: &[Part]) -> u64
    ensures { result ≡ told (least_worth parts.now) }
{
    let mut total = 0;
    let mut rest = parts;
    while let Some((first, others)) = rest.split_first() {
        total = cut_sum(total, cut_product(first.worth.letter(), first.low as u64));
        rest = others;
    }
    total
}

/// How many steps are worth more than this, up to the first that is not.
fn place_in(steps: &[Step], worth: u64) -> usize
    ensures { result ≡ place_in steps.now worth }
{
    let mut place = 0;
    let mut rest = steps;
    while let Some((first, others)) = rest.split_first() {
        if first.worth <= worth {
            return place;
        }
        place += 1;
        rest = others;
    }
    place
}

/// The spare letters of all parts, those that are worth most first.
fn steps_of(alloc: Global, parts: &[Part]) -> Result<Vec<Step>, AllocError>
    ensures { IfOk result (λ steps. steps.items ≡ steps_of parts.now) }
{
    let mut steps = Vec::with_capacity(alloc, parts.len())?;
    for number in (0..parts.len()).rev() {
        let part = parts[number];
        let worth = part.worth.letter();
        let place = place_in(&steps, worth);
        let room = part.room;
        steps.insert(place, Step { worth, room })?;
    }
    Ok(steps)
}

/// What so many letters add, cut, that go to the first step, up to its room, then to the next.
fn taken(steps: &[Step], spare: usize) -> u64
    ensures { result ≡ told (taken steps.now spare) }
{
    let mut total = 0;
    let mut left = spare;
    let mut rest = steps;
    while let Some((first, others)) = rest.split_first() {
        if left == 0 {
            return total;
        }
        let here = left.min(first.room);
        total = cut_sum(total, cut_product(first.worth, here as u64));
        left -= here;
        rest = others;
    }
    total
}
