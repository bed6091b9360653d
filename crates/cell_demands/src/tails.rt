//! Which tails of alternatives are laid, noted once their cells are marked: a tail is the last arguments of an
//! alternative, laid from one position of the word up to another.

ghost use Rattle.std.specs.Prelude.{◌≡◌, ◌≤◌, ◌<◌, ◌^◌, ℕ, Bool, IfOk, IfSome, Some, length, option_map, slice_get};
ghost use Rattle.adp_model.specs.PosedProblem.{PosedProblem};
ghost use Rattle.cell_tables.specs.Marks.{CellMarks};
ghost use Rattle.cell_demands.specs.Tails.{IsTrueNote, tail_with};
ghost use Rattle.cell_demands.specs.TailNotes.{AreEmpty, AreTrue, AreTrueTo, HasNote, HaveNoNotes, IsNote, IsNoted};
ghost use Rattle.cell_demands.specs.TailNotes.{IsPlaceOf, IsPut};

use crate::bits::{clear_bits, set_bit};
use adp_model::Arg;
use cell_tables::WORD;
use split_lines::{KeptAlternative, Lines};
use std::alloc::{AllocError, Global};

/// How many notes there are at most.
const MOST_NOTES: usize = 8_388_608;

/// How many arguments the longest tail has.
const LONGEST: usize = 3;

/// An alternative of a rule.
#[derive(Clone, Copy)]
pub struct Owner {
    pub rule: u32,
    pub alt: u8,
}

/// The last so many arguments of an alternative.
#[derive(Clone, Copy, PartialEq, Eq)]
pub struct Tail {
    pub rule: u32,
    pub alt: u8,
    pub count: u8,
}

/// The notes of a tail up to one end, as bits by the position from which it is laid; none before the first is to be
/// kept.
#[derive(Drop)]
pub struct EndNotes {
    /// Where it is noted whether the tail is laid.
    pub known: Vec<u64>,
    /// Where it is laid, and the cells that it demands are marked.
    pub laid: Vec<u64>,
}

/// The notes of a tail, by its ends; none before the first is to be kept.
#[derive(Drop)]
pub struct TailRow {
    pub tail: Tail,
    pub ends: Vec<EndNotes>,
}

/// The rows of all tails, and where those of each rule begin.
#[derive(Drop)]
pub struct TailRows {
    pub alloc: Global,
    pub firsts: Vec<usize>,
    pub rows: Vec<TailRow>,
    /// How many notes more there may be.
    pub room: usize,
}

/// Notes of tails, which are looked through again for each cell that begins before them.
#[derive(Drop)]
pub struct Tails {
    /// `None` where nothing is ever noted.
    pub kept: Option<TailRows>,
}

/// The tail that these arguments are, where tails are noted.
#[inline(always)]
pub fn tail_of(owner: Option<Owner>, arguments: &[Arg]) -> Option<Tail>
    requires { length arguments.now ≤ 4 }
    ensures { result ≡ option_map (λ it. tail_with it (length arguments.now)) owner }
{
    let Owner { rule, alt } = owner?;
    Some(Tail {
        rule,
        alt,
        count: arguments.len() as u8,
    })
}

/// Whether some of the arguments behind the tokens in front come before the line.
#[inline]
fn has_tail(alternative: &KeptAlternative<'_>) -> bool {
    match alternative.line {
        Some(line) => line.first as usize > alternative.front.len(),
        None => false,
    }
}

/// Whether an alternative of the rule has a tail.
fn rule_has_tail(lines: &Lines<'_>, rule: u32) -> bool
    requires { rule < length lines.now.grammar.rules }
{
    lines
        .alternatives(rule)
        .iter()
        .any(|alternative| has_tail(alternative))
}

/// Adds the rows, without notes, of a rule of so many alternatives.
fn push_rows(
    rows: &mut Vec<TailRow>,
    alloc: Global,
    rule: u32,
    alternatives: usize,
) -> Result<(), AllocError>
    requires { AreEmpty rows.old.items }
    ensures { IfOk result (λ _. AreEmpty rows.new.items) }
{
    for alt in 0..u8::try_from(alternatives).unwrap_or(u8::MAX) {
        for count in 1..=LONGEST as u8 {
            rows.push(TailRow {
                tail: Tail { rule, alt, count },
                ends: Vec::new(alloc),
            })?;
        }
    }
    Ok(())
}

/// So many ends, without notes.
fn empty_ends(alloc: Global, count: usize) -> Result<Vec<EndNotes>, AllocError>
    ensures { IfOk result (λ ends. HaveNoNotes ends.items) }
{
    let mut ends = Vec::with_capacity(alloc, count)?;
    'ends: for _ in 0..count {
        ends.push(EndNotes {
            known: Vec::new(alloc),
            laid: Vec::new(alloc),
        })?;
    }
    Ok(ends)
}

/// Makes the ends of a row for so many positions, where it has none yet and there is memory for them.
fn make_ends(alloc: Global, row: &mut TailRow, positions: usize)
    ensures tail { row.new.tail ≡ row.old.tail }
    ensures notes { (at till : ℕ) (it : Bool) → HasNote row.new at till it → HasNote row.old at till it }
{
    if row.ends.is_empty() {
        if let Ok(ends) = empty_ends(alloc, positions) {
            row.ends = ends;
        }
    }
}

/// Makes bits for the notes of so many positions, where there are none yet and there is room and memory for them.
fn make_bits(alloc: Global, end: &mut EndNotes, room: &mut usize, positions: usize)
    ensures { (at : ℕ) (it : Bool) → IsNote end.new at it → IsNote end.old at it }
{
    if !end.known.is_empty() || positions > *room {
        return;
    }
    if let Ok(known) = clear_bits(alloc, positions) {
        if let Ok(laid) = clear_bits(alloc, positions) {
            end.known = known;
            end.laid = laid;
            *room -= positions;
        }
    }
}

/// Sets the bits of a note, where there are such bits.
fn set_note(end: &mut EndNotes, from: u16, is_laid: bool)
    ensures { IsPut end.old end.new from is_laid }
{
    let number = (from / WORD) as usize;
    if number >= end.known.len() || number >= end.laid.len() {
        return;
    }
    set_bit(&mut end.known, from);
    if is_laid {
        set_bit(&mut end.laid, from);
    }
}

/// Puts a note in the place of another one. Where there are no notes yet room is made for them first, for so many
/// positions, if there is room and memory for them; if not, nothing is noted.
fn put(
    alloc: Global,
    end: &mut EndNotes,
    room: &mut usize,
    positions: usize,
    from: u16,
    is_laid: bool,
)
    ensures { IsPut end.old end.new from is_laid }
{
    make_bits(alloc, end, room, positions);
    set_note(end, from, is_laid);
}

/// Puts a note of a row, as `put` does.
fn put_in_row(
    alloc: Global,
    row: &mut TailRow,
    room: &mut usize,
    positions: usize,
    from: u16,
    to: u16,
    is_laid: bool,
)
    ensures { IsNoted row.old row.new from to is_laid }
{
    make_ends(alloc, row, positions);
    if (to as usize) < row.ends.len() {
        let end = &mut row.ends[to as usize];
        put(alloc, end, room, to as usize + 1, from, is_laid);
    }
}

impl TailRows {
    /// Rows without notes for the rules with tails, so many for each alternative as the longest tail has arguments.
    fn new(alloc: Global, lines: &Lines<'_>) -> Result<TailRows, AllocError>
        ensures { IfOk result (λ kept. AreEmpty kept.rows.items) }
    {
        let mut firsts = Vec::new(alloc);
        let mut rows = Vec::new(alloc);
        for rule in 0..lines.problem().grammar.rules.as_slice().len() as u32 {
            firsts.push(rows.len())?;
            if rule_has_tail(lines, rule) {
                push_rows(&mut rows, alloc, rule, lines.alternatives(rule).len())?;
            }
        }
        Ok(TailRows {
            alloc,
            firsts,
            rows,
            room: MOST_NOTES,
        })
    }

    /// Where the row of a tail stands, if there is one.
    #[inline(always)]
    fn place(&self, tail: Tail) -> Option<usize>
        ensures { IfSome result (IsPlaceOf self.now tail) }
    {
        let number = tail.alt as usize * LONGEST + tail.count.saturating_sub(1) as usize;
        let place = self.firsts.get(tail.rule as usize)?.saturating_add(number);
        if place >= self.rows.len() {
            return None;
        }
        let row = &self.rows[place];
        if row.tail == tail { Some(place) } else { None }
    }
}

/// The notes of a row up to an end, where it has any.
#[inline(always)]
fn notes_in(row: &TailRow, to: u16) -> Option<&EndNotes>
    ensures { IfSome result (λ notes. slice_get row.now.ends.items to ≡ Some notes.now) }
{
    row.ends.get(to as usize)
}

impl Tails {
    /// Nothing is ever noted.
    pub fn none() -> Tails
        ensures { (p : PosedProblem) (marks : CellMarks) → AreTrue p marks result }
    {
        Tails { kept: None }
    }

    /// Nothing is noted yet; where no alternative has a tail, nothing ever is. Fails for want of memory alone.
    pub fn new(alloc: Global, lines: &Lines<'_>) -> Result<Tails, AllocError>
        ensures { IfOk result (λ tails. (p : PosedProblem) (marks : CellMarks) → AreTrue p marks tails) }
    {
        if !lines.have_tails() {
            return Ok(Tails::none());
        }
        let kept = TailRows::new(alloc, lines)?;
        Ok(Tails { kept: Some(kept) })
    }

    /// What is noted of a tail up to an end, if anything is. Takes constant time and no memory.
    #[inline(always)]
    pub fn notes_to(&self, tail: Tail, to: u16) -> Option<&EndNotes>
        ensures { IfSome result (λ notes. (p : PosedProblem) (marks : CellMarks) → AreTrue p marks self.now
            → AreTrueTo p marks tail to notes.now) }
    {
        let Some(kept) = &self.kept else {
            return None;
        };
        let Some(place) = kept.place(tail) else {
            return None;
        };
        notes_in(&kept.rows[place], to)
    }

    /// Notes of a tail whether it is laid between two positions of the word of so many letters.
    pub fn note(&mut self, letters: usize, tail: Tail, from: u16, to: u16, is_laid: bool)
        requires { letters < 2 ^ 32 }
        ensures { (p : PosedProblem) (marks : CellMarks) → AreTrue p marks self.old
            → IsTrueNote p marks tail from to is_laid → AreTrue p marks self.new }
    {
        if let Some(kept) = &mut self.kept {
            if let Some(place) = kept.place(tail) {
                let row = &mut kept.rows[place];
                let positions = letters + 1;
                put_in_row(
                    kept.alloc,
                    row,
                    &mut kept.room,
                    positions,
                    from,
                    to,
                    is_laid,
                );
            }
        }
    }
}
