//! What the tails of alternatives are worth, as it is noted: a tail is the last arguments of an alternative, laid from
//! any position up to the end of a cell.

ghost use Rattle.std.specs.Prelude.{◌≡◌, ◌<◌, ℕ, ℤ, IfOk, IfSome, Option, length};
ghost use Rattle.adp_model.specs.PosedProblem.{PosedProblem};
ghost use Rattle.cell_answers.specs.Tails.{IsTailTotal};
ghost use Rattle.cell_answers.specs.TailRows.{AreEmpty, AreTrueNotes, AreTrueRows, IsNoted, IsPlaceOf, Tells};

use adp_model::Problem;
use split_lines::{KeptAlternative, Lines, Scoring};
use std::alloc::{AllocError, Global};
use std::marker::Model;

/// How many notes there are at most, where for each start that of the latest end is kept.
const MOST_NOTES: usize = 2_097_152;

/// How many there are at most, where those of all ends are kept: each machine of a word has notes of its own.
const MOST_OF_ALL_ENDS: usize = 262_144;

/// How many arguments the longest tail has.
const LONGEST: usize = 3;

/// Which totals of a tail stay noted.
#[derive(Clone, Copy, PartialEq, Eq)]
pub enum KeptEnds {
    /// From each start the latest that was noted: enough where cells are filled end by end. There are at most 2^21
    /// notes, of 32 MB.
    Latest,
    /// Those to all ends, as far as there is room: where there is less, two that share a place take it from each other.
    /// There are at most 2^18 notes, of 4 MB, and their memory is taken at once.
    All,
}

/// The last so many arguments of an alternative.
#[derive(Clone, Copy, PartialEq, Eq)]
pub struct Tail {
    pub rule: u32,
    pub alt: u8,
    pub count: u8,
}

/// What is noted of a tail.
#[derive(Clone, Copy)]
pub enum Note {
    /// Nothing.
    Open,
    /// From the one position to the other it has no total.
    Without(u16, u16),
    /// From the one position to the other its greatest total is this one.
    Greatest(u16, u16, i64),
}

/// The notes of a tail; none before the first one is to be kept.
#[derive(Drop)]
pub struct TailRow {
    pub tail: Tail,
    pub notes: Vec<Note>,
}

/// How a row of notes is made: which totals stay in it, and how many notes it has.
#[derive(Clone, Copy)]
pub struct RowForm {
    pub alloc: Global,
    pub ends: KeptEnds,
    pub length: usize,
}

/// The rows of all tails, and where those of each rule begin.
#[derive(Drop)]
pub struct TailRows {
    pub form: RowForm,
    pub firsts: Vec<usize>,
    pub rows: Vec<TailRow>,
    /// How many notes more there may be.
    pub room: usize,
}

/// Notes of what tails are worth. Contracts see them as the problem: each note is true of it for ever.
#[derive(Drop)]
pub struct Tails<'a> {
    problem: &'a Problem<'a>,
    /// `None` where nothing is ever noted.
    kept: Option<TailRows>,
}

impl<'a> Model for Tails<'a> {
    ghost use Rattle.adp_model.specs.PosedProblem.{PosedProblem};

    ghost Value = { PosedProblem };

    ghost use Rattle.adp_model.specs.WideForm.{form_code};
    ghost use Rattle.std.specs.Coded.{codes};

    ghost coded = { Prim.hlevel (codes, form_code) };

    ghost use Rattle.cell_answers.specs.TailsFields.{AreTrue};

    ghost view = { λ tails. tails.problem.now };

    ghost invariant = { AreTrue };
}

/// What a note tells of a tail from one position to another: its greatest total, `None` where it has none.
#[inline(always)]
pub(crate) fn told(note: Note, from: u16, to: u16) -> Option<Option<i64>>
    ensures { IfSome result (Tells note from to) }
{
    match note {
        Note::Without(start, end) if start == from && end == to => Some(None),
        Note::Greatest(start, end, total) if start == from && end == to => Some(Some(total)),
        _ => None,
    }
}

/// The note that tells this.
#[inline(always)]
fn note_of(from: u16, to: u16, total: Option<i64>) -> Note
    ensures { (start end : ℕ) (said : Option ℤ) → Tells result start end said
        → (start ≡ from) × (end ≡ to) × (said ≡ total) }
{
    match total {
        Some(total) => Note::Greatest(from, to, total),
        None => Note::Without(from, to),
    }
}

impl RowForm {
    /// Rows for so many tails, and how many notes they may have together.
    fn new(alloc: Global, ends: KeptEnds, positions: usize, tails: usize) -> (RowForm, usize) {
        let (length, room) = match ends {
            KeptEnds::Latest => (positions, MOST_NOTES),
            KeptEnds::All => {
                let spans = positions.saturating_mul(positions.saturating_add(1)) / 2;
                (spans.min(MOST_OF_ALL_ENDS / tails.max(1)), MOST_OF_ALL_ENDS)
            }
        };
        let form = RowForm {
            alloc,
            ends,
            length,
        };
        (form, room)
    }

    /// Where the note from one position to another stands among so many. Those to one end stand side by side, since
    /// they are asked for one after another.
    #[inline(always)]
    fn note_place(&self, from: u16, to: u16, notes: usize) -> usize {
        match self.ends {
            KeptEnds::Latest => from as usize,
            KeptEnds::All => {
                let end = to as usize;
                let place = end * (end + 1) / 2 + from as usize;
                if place >= notes && notes > 0 {
                    place % notes
                } else {
                    place
                }
            }
        }
    }

    /// Puts a note into a row. Where there are no notes yet they are made first, if there is room and memory for them;
    /// if not, nothing is noted.
    fn put(&self, row: &mut TailRow, room: &mut usize, from: u16, to: u16, note: Note)
        ensures { IsNoted row.old row.new note }
    {
        if row.notes.is_empty() && 0 < self.length && self.length <= *room {
            if let Ok(notes) = vec![in self.alloc; Note::Open; self.length] {
                row.notes = notes;
                *room -= self.length;
            }
        }
        let place = self.note_place(from, to, row.notes.len());
        if place < row.notes.len() {
            row.notes[place] = note;
        }
    }
}

/// How many of the arguments behind the tokens in front come before the line, where all are scored by a sum: behind each
/// of them a tail begins.
fn tails_of(alternative: &KeptAlternative<'_>) -> usize {
    match (alternative.line, &alternative.scoring) {
        (Some(line), Scoring::Sum(_)) => {
            (line.first as usize).saturating_sub(alternative.front.len())
        }
        _ => 0,
    }
}

/// How many tails the alternatives of the rule have.
fn rule_tails(lines: &Lines<'_>, rule: u32) -> usize
    requires { rule < length lines.now.grammar.rules }
{
    let mut tails: usize = 0;
    for alternative in lines.alternatives(rule) {
        tails = tails.saturating_add(tails_of(alternative));
    }
    tails
}

/// How many tails the alternatives of the problem have.
fn all_tails(lines: &Lines<'_>) -> usize {
    let mut tails: usize = 0;
    for rule in 0..lines.problem().grammar.rules.as_slice().len() {
        tails = tails.saturating_add(rule_tails(lines, rule as u32));
    }
    tails
}

/// Adds the rows, without notes, of a rule of so many alternatives.
fn push_rows(
    rows: &mut Vec<TailRow>,
    alloc: Global,
    rule: u32,
    alternatives: usize,
) -> Result<(), AllocError>
    requires { AreEmpty rows.old.items }
    ensures { IfOk result (λ _. AreEmpty rows.new.items) }
{
    for alt in 0..u8::try_from(alternatives).unwrap_or(u8::MAX) {
        for count in 1..=LONGEST as u8 {
            rows.push(TailRow {
                tail: Tail { rule, alt, count },
                notes: Vec::new(alloc),
            })?;
        }
    }
    Ok(())
}

impl TailRows {
    /// Rows without notes for the rules with tails, so many for each alternative as the longest tail has arguments.
    fn new(
        alloc: Global,
        lines: &Lines<'_>,
        ends: KeptEnds,
        tails: usize,
    ) -> Result<TailRows, AllocError>
        ensures { IfOk result (λ kept. AreEmpty kept.rows.items) }
    {
        let mut firsts = Vec::new(alloc);
        let mut rows = Vec::new(alloc);
        for rule in 0..lines.problem().grammar.rules.as_slice().len() as u32 {
            firsts.push(rows.len())?;
            if rule_tails(lines, rule) > 0 {
                push_rows(&mut rows, alloc, rule, lines.alternatives(rule).len())?;
            }
        }
        let positions = lines.problem().letters().len() + 1;
        let (form, room) = RowForm::new(alloc, ends, positions, tails);
        Ok(TailRows {
            form,
            firsts,
            rows,
            room,
        })
    }

    /// Makes the notes of a tail, which tell nothing yet, if there is room and memory for them.
    fn make(&mut self, tail: Tail)
        ensures { (p : PosedProblem) → AreTrueRows p self.old.rows.items → AreTrueRows p self.new.rows.items }
    {
        if let Some(place) = self.place(tail) {
            let row = &mut self.rows[place];
            self.form.put(row, &mut self.room, 0, 0, Note::Open);
        }
    }

    /// Makes the notes of an alternative's tails.
    fn make_of(&mut self, rule: u32, alt: u8, alternative: &KeptAlternative<'_>)
        ensures { (p : PosedProblem) → AreTrueRows p self.old.rows.items → AreTrueRows p self.new.rows.items }
    {
        let arguments = alternative.others.len();
        for ahead in 0..tails_of(alternative) {
            let count = arguments.saturating_sub(ahead + 1);
            let count = u8::try_from(count).unwrap_or(u8::MAX);
            self.make(Tail { rule, alt, count });
        }
    }

    /// Makes the notes of the tails of a rule.
    fn make_for(&mut self, lines: &Lines<'_>, rule: u32)
        requires { rule < length lines.now.grammar.rules }
        ensures { (p : PosedProblem) → AreTrueRows p self.old.rows.items → AreTrueRows p self.new.rows.items }
    {
        let alternatives = lines.alternatives(rule);
        for number in 0..alternatives.len() {
            let alt = u8::try_from(number).unwrap_or(u8::MAX);
            self.make_of(rule, alt, &alternatives[number]);
        }
    }

    /// Makes the notes of all tails, and no more are made afterwards.
    fn make_all(&mut self, lines: &Lines<'_>)
        ensures { (p : PosedProblem) → AreTrueRows p self.old.rows.items → AreTrueRows p self.new.rows.items }
    {
        for rule in 0..lines.problem().grammar.rules.as_slice().len() {
            self.make_for(lines, rule as u32);
        }
        self.room = 0;
    }

    /// Where the row of a tail stands, if there is one.
    #[inline(always)]
    fn place(&self, tail: Tail) -> Option<usize>
        ensures { IfSome result (IsPlaceOf self.now tail) }
    {
        let number = tail.alt as usize * LONGEST + tail.count.saturating_sub(1) as usize;
        let place = self.firsts.get(tail.rule as usize)?.saturating_add(number);
        if place >= self.rows.len() {
            return None;
        }
        let row = &self.rows[place];
        if row.tail == tail { Some(place) } else { None }
    }
}

impl<'a> Tails<'a> {
    /// Nothing is ever noted.
    pub fn none(problem: &'a Problem<'a>) -> Tails<'a>
        ensures { result ≡ problem.now }
    {
        Tails {
            problem,
            kept: None,
        }
    }

    /// Nothing is noted yet. Where the latest ends are kept, memory for the notes of a tail is taken when the first one
    /// is made, else at once. Fails for want of memory alone.
    pub fn new(alloc: Global, lines: &Lines<'a>, ends: KeptEnds) -> Result<Tails<'a>, AllocError>
        ensures { IfOk result (λ tails. tails ≡ lines.now) }
    {
        let problem = lines.problem();
        if !lines.have_tails() {
            return Ok(Tails::none(problem));
        }
        let tails = all_tails(lines);
        let mut kept = TailRows::new(alloc, lines, ends, tails)?;
        if ends == KeptEnds::All {
            kept.make_all(lines);
        }
        Ok(Tails {
            problem,
            kept: Some(kept),
        })
    }

    /// Whether something may be noted: where no alternative has a tail, nothing ever is.
    pub fn are_kept(&self) -> bool {
        self.kept.is_some()
    }

    /// The greatest total of a tail from one position to another, `Some(None)` where it has none; `None` where it is
    /// not noted. Takes constant time and no memory.
    #[inline(always)]
    pub(crate) fn total(&self, tail: Tail, from: u16, to: u16) -> Option<Option<i64>>
        ensures { IfSome result (IsTailTotal self.now tail from to) }
    {
        let kept = self.kept.as_ref()?;
        let row = &kept.rows[kept.place(tail)?];
        let place = kept.form.note_place(from, to, row.notes.len());
        told(*row.notes.get(place)?, from, to)
    }

    /// The notes of a tail from the place on that is for the note from one position to another: in most cases those that
    /// follow are for the positions that follow. Takes constant time and no memory.
    #[inline(always)]
    pub(crate) fn notes_from(&self, tail: Tail, from: u16, to: u16) -> &[Note]
        ensures { AreTrueNotes self.now tail result.now }
    {
        let Some(kept) = &self.kept else {
            return &[];
        };
        let Some(place) = kept.place(tail) else {
            return &[];
        };
        let notes = kept.rows[place].notes.as_slice();
        let first = kept.form.note_place(from, to, notes.len());
        if first >= notes.len() {
            return &[];
        }
        &notes[first..]
    }

    /// Notes the greatest total of a tail, in the place of another one. Takes memory only where the latest ends are kept.
    pub(crate) fn note(&mut self, tail: Tail, from: u16, to: u16, total: Option<i64>)
        requires { IsTailTotal self.old tail from to total }
        ensures { self.new ≡ self.old }
    {
        if let Some(kept) = &mut self.kept {
            if let Some(place) = kept.place(tail) {
                let note = note_of(from, to, total);
                let row = &mut kept.rows[place];
                kept.form.put(row, &mut kept.room, from, to, note);
            }
        }
    }
}
