//! Numbers for the positions of a word, of which those of a window may stand for scores.

ghost use Rattle.std.specs.Prelude.{◌≡◌, ℕ, ℤ, ◌+◌, ◌-◌, ◌<◌, ◌≤◌, ◌^◌, ◌<ℤ◌, IfOk, Some, length, map, slice_get};
ghost use Rattle.score_numbers.specs.Packing.{AreProper};
ghost use Rattle.score_rows.specs.Numbers.{AreDead, least};
ghost use Rattle.score_rows.specs.Raised.{AreHighest, AreLowProducts, AreLowSums, HasProduct, HasScore, HasSum, IsAnywhere, IsAt};
ghost use Rattle.score_rows.specs.Windows.{IsOutside};

use crate::numbers::RowNumber;
use crate::raising::{raise, raise_at, raise_between, raise_scaled};
use adp_model::Goal;
use std::alloc::{AllocError, Global};
use std::marker::Model;

/// The positions from `first` on and before `past`.
#[derive(Clone, Copy)]
pub struct Window {
    pub first: u16,
    pub past: u16,
}

impl Window {
    /// No position.
    const NONE: Window = Window { first: 0, past: 0 };

    /// The least window that has the positions of both.
    #[inline(always)]
    fn with(self, other: Window) -> Window
        ensures self_in { (k : ℕ) → IsOutside result k → IsOutside self k }
        ensures other_in { (k : ℕ) → IsOutside result k → IsOutside other k }
        ensures within { (len : ℕ) → self.past ≤ len → other.past ≤ len → result.past ≤ len }
    {
        if self.first >= self.past {
            return other;
        }
        Window {
            first: self.first.min(other.first),
            past: self.past.max(other.past),
        }
    }
}

/// A number for each position of a word. Those outside of the window stand for no score. Contracts see the numbers.
#[derive(Drop)]
pub struct Totals<N: RowNumber> {
    numbers: Vec<N>,
    window: Window,
}

impl<N: RowNumber> Model for Totals<N> {
    ghost use Rattle.std.specs.Prelude.{List, ℤ};

    ghost Value = { List ℤ };

    ghost use Rattle.score_rows.specs.TotalsFields.{AreWindowed, numbers_of};

    ghost view = { numbers_of N.value };

    ghost invariant = { AreWindowed N.width N.value };
}

impl<N: RowNumber> Totals<N> {
    /// So many numbers, of which none stands for a score. Fails for want of memory alone.
    pub fn new(alloc: Global, positions: usize) -> Result<Totals<N>, AllocError>
        ensures as_many { IfOk result (λ totals. length totals ≡ positions) }
        ensures none { IfOk result (AreDead N.width) }
    {
        let mut numbers = Vec::with_capacity(alloc, positions)?;
        for _ in 0..positions {
            numbers.push(N::mark())?;
        }
        Ok(Totals {
            numbers,
            window: Window::NONE,
        })
    }

    /// The positions outside of which no number stands for a score.
    #[inline(always)]
    pub fn window(&self) -> Window
        ensures within { result.past ≤ length self.now }
        ensures dead { (k : ℕ) (number : ℤ) → slice_get self.now k ≡ Some number → IsOutside result k
            → number <ℤ least N.width }
    {
        self.window
    }

    /// The number at a position.
    #[inline(always)]
    pub fn number(&self, position: u16) -> N
        requires { position < length self.now }
        ensures { slice_get self.now position ≡ Some (N.value result) }
    {
        self.numbers[position as usize]
    }

    /// Raises the number at a position to this one.
    #[inline(always)]
    pub fn raise_at(&mut self, position: u16, number: N)
        requires few { position < 2 ^ 16 - 1 }
        requires within { position < length self.old }
        ensures { AreHighest N.width (IsAt position (N.value number)) IsAnywhere self.old self.new }
    {
        let here = Window {
            first: position,
            past: position + 1,
        };
        self.window = self.window.with(here);
        raise_at(&mut self.numbers, position as usize, number);
    }

    /// Raises the numbers from `first` on to the sums of others, side by side, with one number.
    #[inline(always)]
    pub fn raise(&mut self, first: u16, others: &[N], add: N)
        requires few { first + length others.now < 2 ^ 16 }
        requires within { first + length others.now ≤ length self.old }
        ensures { AreHighest N.width (HasSum N.width (N.value add) first (map N.value others.now))
            (AreLowSums N.width (N.value add) first (map N.value others.now)) self.old self.new }
    {
        self.window = self.window.with(window_of(first, others));
        raise(&mut self.numbers, first as usize, others, add);
    }

    /// The same with the scores that the others stand for, each times a factor.
    pub fn raise_scaled(&mut self, first: u16, others: &[N], add: N, goal: Goal, factor: i64)
        requires few { first + length others.now < 2 ^ 16 }
        requires within { first + length others.now ≤ length self.old }
        requires proper { AreProper N.width (map N.value others.now) }
        ensures { AreHighest N.width (HasProduct N.width goal factor (N.value add) first (map N.value others.now))
            (AreLowProducts N.width goal factor (N.value add) first (map N.value others.now)) self.old self.new }
    {
        self.window = self.window.with(window_of(first, others));
        let at = first as usize;
        raise_scaled(&mut self.numbers, at, others, add, goal, factor);
    }

    /// Raises the numbers from `first` on and before `past` to those of others in their places.
    pub fn raise_between(&mut self, others: &Totals<N>, first: u16, past: u16)
        requires { length others.now ≡ length self.old }
        ensures { AreHighest N.width (HasScore N.width first past others.now) IsAnywhere self.old self.new }
    {
        let here = Window {
            first: first.max(others.window.first),
            past: past.min(others.window.past),
        };
        if here.first < here.past {
            self.window = self.window.with(here);
            let (first, past) = (here.first as usize, here.past as usize);
            raise_between(&mut self.numbers, &others.numbers, first, past);
        }
    }

    /// Puts the mark in place of all numbers.
    pub fn clear(&mut self)
        ensures as_many { length self.new ≡ length self.old }
        ensures none { AreDead N.width self.new }
    {
        for position in self.window.first..self.window.past {
            self.numbers[position as usize] = N::mark();
        }
        self.window = Window::NONE;
    }
}

/// The positions of numbers that stand side by side from `first` on.
#[inline(always)]
fn window_of<N>(first: u16, numbers: &[N]) -> Window
    requires { first + length numbers.now < 2 ^ 16 }
    ensures first { result.first ≡ first }
    ensures past { result.past ≡ first + length numbers.now }
{
    Window {
        first,
        past: first + numbers.len() as u16,
    }
}
