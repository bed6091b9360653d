ghost use Rattle.std.specs.Prelude.{◌≡◌, ◌↔◌, ◌+◌, ◌<◌, IfOk, length};
ghost use Rattle.adp_model.specs.declared.cell.Cell.{Cell};
ghost use Rattle.adp_model.specs.PosedProblem.{IsSpan};
ghost use Rattle.adp_model.specs.Cells.{IsCounted};
ghost use Rattle.adp_model.specs.Demand.{IsDemanded, IsDemandedChild};
ghost use Rattle.cell_answers.specs.Entries.{HasEntry};
ghost use Rattle.cell_tables.specs.Marks.{IsMarkedInRow};
ghost use Rattle.suffix_cells.specs.Ranks.{AreRanked};
ghost use Rattle.seq_reference.specs.Filling.{AreFilled, AreKept, IsFilledBefore, IsFromStart, IsShorterWithin, IsWithin};

use adp_model::laws::demand::{demanded_cells_are_counted, demanded_children_are_below};
use adp_model::{Cell, Problem};
use cell_answers::{KeptEnds, Scores, Tails, cell_score_noting};
use cell_tables::{Layout, Marks};
use row_scores::scores_by_rows;
use split_lines::Lines;
use std::alloc::{AllocError, Global};
use std::marker::Model;
use suffix_cells::rules_by_rank;

/// How many starts are filled together. Each end touches the columns of its rules once for all of them: with one start
/// at a time the columns of a long word would pass through the caches once for each start.
const BLOCK: u16 = 16;

/// Scores that are filled in, with notes of what the tails of alternatives are worth. Contracts see the scores.
#[derive(Drop)]
pub(crate) struct Filling<'a> {
    scores: Scores<'a>,
    tails: Tails<'a>,
}

impl<'a> Model for Filling<'a> {
    ghost use Rattle.std.specs.Prelude.{ℤ};
    ghost use Rattle.cell_tables.specs.Tables.{Table as EntryTable};

    ghost Value = { EntryTable ℤ };

    ghost use Rattle.adp_model.specs.WideForm.{form_code};
    ghost use Rattle.std.specs.Coded.{codes};

    ghost coded = { Prim.hlevel (codes, form_code) };

    ghost use Rattle.std.specs.Prelude.{◌≡◌};

    ghost view = { λ filling. filling.scores };

    ghost invariant = { λ filling. filling.tails ≡ filling.scores.problem };
}

impl<'a> Filling<'a> {
    /// No score is kept yet, and nothing is noted; in a word that is filled at once nothing ever is. Fails for want of
    /// memory alone.
    fn new(alloc: Global, lines: &Lines<'a>, layout: &Layout<'a>) -> Result<Filling<'a>, AllocError>
        requires { layout.now ≡ lines.now }
        ensures { IfOk result (λ filling. filling.problem ≡ layout.now) }
    {
        let scores = Scores::new(alloc, layout)?;
        let problem = lines.problem();
        let tails = if problem.word.bytes().len() < BLOCK as usize {
            Tails::none(problem)
        } else {
            Tails::new(alloc, lines, KeptEnds::Latest)?
        };
        Ok(Filling { scores, tails })
    }

    /// No score is kept yet, and nothing is ever noted. Fails for want of memory alone.
    pub(crate) fn without_notes(
        alloc: Global,
        problem: &'a Problem<'a>,
        layout: &Layout<'a>,
    ) -> Result<Filling<'a>, AllocError>
        requires { layout.now ≡ problem.now }
        ensures { IfOk result (λ filling. filling.problem ≡ problem.now) }
    {
        let scores = Scores::new(alloc, layout)?;
        let tails = Tails::none(problem);
        Ok(Filling { scores, tails })
    }

    /// Whether tails may be noted: these serve all starts that are filled end by end.
    fn may_note(&self) -> bool {
        self.tails.are_kept()
    }

    /// Fills in the score of a counted cell.
    pub(crate) fn fill(&mut self, lines: &Lines<'_>, cell: Cell)
        requires same_problem { self.old.problem ≡ lines.now }
        requires rule { cell.rule < length lines.now.grammar.rules }
        requires in_word { IsSpan lines.now.word cell.from cell.to }
        requires counted { IsCounted lines.now.grammar (length lines.now.word) cell }
        requires scored { (child : Cell) → IsDemandedChild lines.now cell child → HasEntry self.old child }
        ensures problem { self.new.problem ≡ self.old.problem }
        ensures kept { HasEntry self.new cell }
        ensures others { AreKept self.old self.new }
    {
        let score = cell_score_noting(lines, &self.scores, &mut self.tails, cell);
        self.scores.keep(cell, score);
    }

    /// The scores.
    pub(crate) fn into_scores(self) -> Scores<'a>
        ensures { result ≡ self.entry }
    {
        self.scores
    }
}

/// Fills in the scores of the demanded cells of a span, by rising ranks.
fn fill_span(
    lines: &Lines<'_>,
    rules: &[u32],
    marks: &Marks<'_>,
    from: u16,
    to: u16,
    scores: &mut Filling<'_>,
)
    requires ranked { AreRanked lines.now rules.now }
    requires marked { (cell : Cell) → IsMarkedInRow marks.now cell ↔ IsDemanded lines.now cell }
    requires filled { AreFilled lines.now scores.old (IsShorterWithin from to) }
    ensures filled { AreFilled lines.now scores.new (IsWithin from to) }
    ensures kept { AreKept scores.old scores.new }
{
    lines.problem().admissible();
    demanded_cells_are_counted();
    demanded_children_are_below();
    for rule in rules {
        let cell = Cell {
            rule: *rule,
            from,
            to,
        };
        if marks.is_marked_in_row(cell) {
            scores.fill(lines, cell);
        }
    }
}

/// Fills in the scores of the demanded cells that end at `to` and begin from `first` on and before `past`, by falling
/// starts.
fn fill_end(
    lines: &Lines<'_>,
    rules: &[u32],
    marks: &Marks<'_>,
    first: u16,
    past: u16,
    to: u16,
    scores: &mut Filling<'_>,
)
    requires ranked { AreRanked lines.now rules.now }
    requires marked { (cell : Cell) → IsMarkedInRow marks.now cell ↔ IsDemanded lines.now cell }
    requires filled { AreFilled lines.now scores.old (IsFilledBefore first past to) }
    ensures { AreFilled lines.now scores.new (IsFilledBefore first past (to + 1)) }
{
    for from in (first..past).rev() {
        if !marks.has_start(from) {
            continue;
        }
        fill_span(lines, rules, marks, from, to, scores);
    }
}

/// Fills in the scores of the demanded cells that begin from `first` on and before `past`, by rising ends.
fn fill_block(
    lines: &Lines<'_>,
    rules: &[u32],
    marks: &Marks<'_>,
    first: u16,
    past: u16,
    scores: &mut Filling<'_>,
)
    requires ranked { AreRanked lines.now rules.now }
    requires marked { (cell : Cell) → IsMarkedInRow marks.now cell ↔ IsDemanded lines.now cell }
    requires filled { AreFilled lines.now scores.old (IsFromStart past) }
    ensures { AreFilled lines.now scores.new (IsFromStart first) }
{
    lines.problem().admissible();
    demanded_cells_are_counted();
    let mut least = first;
    while let Some(to) = marks.next_marked(rules, first, past, least) {
        fill_end(lines, rules, marks, first, past, to, scores);
        least = to + 1;
    }
}

/// The scores of the demanded cells, which are marked in their rows. Fails for want of memory alone. Its time is in
/// proportion to the demanded cells, times rules, and to the positions of their lines.
pub fn filled_scores<'a>(
    alloc: Global,
    lines: &Lines<'a>,
    marks: &Marks<'a>,
    layout: &Layout<'a>,
) -> Result<Scores<'a>, AllocError>
    requires same_problem { marks.now.problem ≡ lines.now }
    requires same_layout { layout.now ≡ lines.now }
    requires marked { (cell : Cell) → IsMarkedInRow marks.now cell ↔ IsDemanded lines.now cell }
    ensures problem { IfOk result (λ scores. scores.problem ≡ lines.now) }
    ensures scored { IfOk result (λ scores. (cell : Cell) → IsDemanded lines.now cell → HasEntry scores cell) }
{
    if let Some(by_rows) = scores_by_rows(alloc, lines, marks, layout)? {
        return Ok(by_rows);
    }
    let problem = lines.problem();
    problem.admissible();
    demanded_cells_are_counted();
    let rules = rules_by_rank(alloc, problem)?;
    let mut scores = Filling::new(alloc, lines, layout)?;
    let letters = problem.word.bytes().len() as u16;
    if scores.may_note() {
        fill_block(lines, &rules, marks, 0, letters + 1, &mut scores);
        return Ok(scores.into_scores());
    }
    for block in (0..letters / BLOCK + 1).rev() {
        let first = block * BLOCK;
        fill_block(lines, &rules, marks, first, first + BLOCK, &mut scores);
    }
    Ok(scores.into_scores())
}
