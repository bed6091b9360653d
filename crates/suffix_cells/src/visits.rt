//! Marks of cells that end where the word ends, with bits of the rules that are visited at each start.

ghost use Rattle.std.specs.Prelude.{◌≡◌, ℕ, ◌<◌, ◌≤◌, IfOk, IsTrue, MatchOption, Some, length, slice_get, slice_index};
ghost use Rattle.std.specs.Int.{bit_at};
ghost use Rattle.adp_model.specs.declared.cell.Cell.{Cell};
ghost use Rattle.adp_model.specs.Cells.{IsCounted, IsCountOf};
ghost use Rattle.cell_demands.specs.Rows.{AreMarkedInRows};
ghost use Rattle.cell_tables.specs.Marks.{IsMarked, IsMarkedInRow};
ghost use Rattle.suffix_cells.specs.Ranks.{AreRanked};
ghost use Rattle.suffix_cells.specs.Visits.{AreNumbers, IsFirstBit, IsFirstFrom, IsLastBelow, IsLastBit};
ghost use Rattle.suffix_cells.specs.Visits.{IsVisited, suffix_cell};

use adp_model::laws::well_formed::numbers_fit_together;
use adp_model::{Cell, Problem};
use cell_tables::{Layout, Marks};
use std::alloc::{AllocError, Global};
use std::marker::Model;

/// A grammar has no more rules: how many bits there are for them at each start.
pub(crate) const MOST_RULES: u16 = 128;

/// The bits of a start; none is set where there is no such start.
#[inline(always)]
fn bits_at(bits: &[u128], from: u16) -> u128
    ensures { result ≡ slice_index bits.now from }
{
    bits.get(from as usize).copied().unwrap_or(0)
}

/// The first place from `least` on whose bit is set.
#[inline(always)]
fn first_bit(bits: u128, least: u16) -> Option<u16>
    ensures { MatchOption result ((other : ℕ) → least ≤ other → bit_at bits other ≡ 1 → ⊥) (IsFirstBit bits least) }
{
    if least >= MOST_RULES {
        return None;
    }
    let ahead = bits >> least;
    if ahead == 0 {
        return None;
    }
    Some(least + ahead.trailing_zeros() as u16)
}

/// The last place before `below` whose bit is set.
#[inline(always)]
fn last_bit(bits: u128, below: u16) -> Option<u16>
    ensures { MatchOption result ((other : ℕ) → other < below → bit_at bits other ≡ 1 → ⊥) (IsLastBit bits below) }
{
    if below == 0 {
        return None;
    }
    let behind = bits & (u128::MAX >> (MOST_RULES - below.min(MOST_RULES)));
    if behind == 0 {
        return None;
    }
    Some(MOST_RULES - 1 - behind.leading_zeros() as u16)
}

/// The numbers of the rules in an order of all of them.
fn numbers_in(alloc: Global, problem: &Problem<'_>, order: &[u32]) -> Result<Vec<u8>, AllocError>
    requires { AreRanked problem.now order.now }
    ensures { IfOk result (λ numbers. AreNumbers (length problem.now.grammar.rules) order.now numbers.items) }
{
    problem.admissible();
    numbers_fit_together();
    let mut numbers = vec![in alloc; 0; order.len()]?;
    for number in 0..order.len() {
        numbers[order[number] as usize] = number as u8;
    }
    Ok(numbers)
}

/// Marks of cells that end where the word ends, in rows. For each start, bits tell which rules are visited there, whose
/// cell is marked: by their numbers in an order of all rules. Contracts see it as the marks and the order.
#[derive(Drop)]
pub struct Visits<'a> {
    problem: &'a Problem<'a>,
    marks: Marks<'a>,
    order: Vec<u32>,
    /// The number of each rule in the order.
    numbers: Vec<u8>,
    /// The bits of each start.
    bits: Vec<u128>,
    /// How many bits are set.
    cells: u64,
}

impl<'a> Model for Visits<'a> {
    ghost use Rattle.suffix_cells.specs.Visits.{Visited};

    ghost Value = { Visited };

    ghost use Rattle.adp_model.specs.WideForm.{form_code};
    ghost use Rattle.std.specs.Coded.{codes};

    ghost coded = { Prim.hlevel (codes, form_code) };

    ghost use Rattle.suffix_cells.specs.VisitsFields.{AreVisits, visited};

    ghost view = { visited };

    ghost invariant = { AreVisits };
}

impl<'a> Visits<'a> {
    /// Nothing is visited. Fails for want of memory alone.
    pub fn new(
        alloc: Global,
        layout: &Layout<'a>,
        order: Vec<u32>,
    ) -> Result<Visits<'a>, AllocError>
        requires { AreRanked layout.now order.items }
        ensures problem { IfOk result (λ visits. visits.marks.problem ≡ layout.now) }
        ensures order { IfOk result (λ visits. visits.order ≡ order.items) }
        ensures none { IfOk result (λ visits. (cell : Cell) → IsMarked visits.marks cell → ⊥) }
    {
        let problem = layout.problem();
        let numbers = numbers_in(alloc, problem, &order)?;
        let bits = vec![in alloc; 0; layout.positions() as usize]?;
        let marks = Marks::new(alloc, layout)?;
        Ok(Visits {
            problem,
            marks,
            order,
            numbers,
            bits,
            cells: 0,
        })
    }

    /// The problem. Takes no memory.
    #[inline]
    pub fn problem(&self) -> &'a Problem<'a>
        ensures { result.now ≡ self.now.marks.problem }
    {
        self.problem
    }

    /// The rule of this number. Takes constant time and no memory.
    #[inline]
    pub fn rule(&self, number: u16) -> u32
        requires { number < length self.now.order }
        ensures { slice_get self.now.order number ≡ Some result }
    {
        self.order[number as usize]
    }

    /// The number of a rule. Takes constant time and no memory.
    #[inline]
    pub(crate) fn number(&self, rule: u32) -> u16
        requires { rule < length self.now.marks.problem.grammar.rules }
        ensures there { slice_get self.now.order result ≡ Some rule }
        ensures few { result < 128 }
    {
        u16::from(self.numbers[rule as usize])
    }

    /// How many rules there are.
    pub(crate) fn rules(&self) -> u16
        ensures same { result ≡ length self.now.order }
        ensures few { result ≤ 128 }
    {
        self.order.len() as u16
    }

    /// Whether all rules are visited at a start whose numbers' bits are set. Takes constant time and no memory.
    #[inline]
    pub(crate) fn have_all(&self, from: u16, bits: u128) -> bool
        ensures { IsTrue result → (number : ℕ) → bit_at bits number ≡ 1 → IsVisited self.now from number }
    {
        let visited = bits_at(&self.bits, from);
        visited | bits == visited
    }

    /// Visits a rule at a start, where it is not: its cell there is marked. Takes constant time and no memory.
    #[inline]
    pub fn visit(&mut self, rule: u32, from: u16)
        requires { IsCounted self.old.marks.problem.grammar (length self.old.marks.problem.word)
            (suffix_cell self.old.marks.problem rule from) }
        ensures marked { AreMarkedInRows self.old.marks self.new.marks
            (λ cell. cell ≡ suffix_cell self.old.marks.problem rule from) }
        ensures order { self.new.order ≡ self.old.order }
    {
        self.problem.admissible();
        self.marks.cells();
        let number = self.numbers[rule as usize];
        let bits = self.bits[from as usize];
        if bits >> number & 1 == 1 {
            return;
        }
        self.bits[from as usize] = bits | 1 << number;
        let to = self.problem.letters().len() as u16;
        self.marks.mark(Cell { rule, from, to });
        self.cells += 1;
    }

    /// How many cells are marked. Takes constant time and no memory.
    pub fn cells(&self) -> u64
        ensures { IsCountOf (IsMarkedInRow self.now.marks) result }
    {
        self.cells
    }

    /// The first number from `least` on that is visited at a start. Takes constant time and no memory.
    #[inline]
    pub fn next(&self, from: u16, least: u16) -> Option<u16>
        ensures { MatchOption result ((other : ℕ) → least ≤ other → IsVisited self.now from other → ⊥)
            (IsFirstFrom self.now from least) }
    {
        first_bit(bits_at(&self.bits, from), least)
    }

    /// The last number before `below` that is visited at a start. Takes constant time and no memory.
    #[inline]
    pub fn last(&self, from: u16, below: u16) -> Option<u16>
        ensures { MatchOption result ((other : ℕ) → other < below → IsVisited self.now from other → ⊥)
            (IsLastBelow self.now from below) }
    {
        last_bit(bits_at(&self.bits, from), below)
    }

    /// The marks.
    pub fn into_marks(self) -> Marks<'a>
        ensures { result ≡ self.entry.marks }
    {
        self.marks
    }
}
