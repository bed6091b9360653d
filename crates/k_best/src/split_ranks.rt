//! The ranked splits of one viable split, put among the first entries of its cell.

ghost use Rattle.std.specs.Prelude.{◌≡◌, ◌<◌, ◌≤◌, ℕ, IfOk, false, [], length, nat_abs};
ghost use Rattle.adp_model.specs.declared.cell.Cell.{Cell as CellValue};
ghost use Rattle.adp_model.specs.declared.grammar.Arg.{Arg as ArgValue};
ghost use Rattle.first_trees.specs.Entries.{Entry as EntryValue, EntryPrecedes};
ghost use Rattle.first_trees.specs.FirstTrees.{IsAt};
ghost use Rattle.adp_model.specs.PosedProblem.{IsSpan};
ghost use Rattle.adp_model.specs.Parts.{algebra_of, arguments_of, term_of};
ghost use Rattle.adp_model.specs.Splits.{IsViable, placed};
ghost use Rattle.adp_model.specs.ProblemFields.{greatest_score};
ghost use Rattle.adp_model.specs.Tokens.{letters_between, token_value};
ghost use Rattle.adp_model.specs.WellFormed.{IsKnown};
ghost use Rattle.adp_model.specs.Demand.{IsDemandedChild};
ghost use Rattle.first_trees.specs.RankedSplits.{AreRankedValues, IsRankedSplit};
ghost use Rattle.k_best.specs.Chosen.{ranks_of, values_of};
ghost use Rattle.k_best.specs.Settled.{IsSettled};
ghost use Rattle.k_best.specs.ListTables.{HasList, IsLaidOut};
ghost use Rattle.k_best.specs.RankedRows.{AreNotBelow, AreSettled, BeginWith, IsBegun, IsListing};

use crate::chosen::Chosen;
use crate::entry::Entry;
use crate::list_table::ListTable;
use crate::listing::meet;
use adp_model::laws::bounds::words_keep_their_score_bound;
use adp_model::laws::well_formed::{arguments_are_few_and_known, terms_fit_their_alternatives};
use adp_model::{Arg, Cell, Choice, Term};
use first_trees::laws::{
    entries_are_in_strict_order, first_trees_are_unique, lower_ranks_come_first,
    ranked_splits_are_in_total_order, ranked_splits_keep_the_score_bound,
};
use split_lines::Lines;
use std::alloc::AllocError;
use term_values::eval;
use term_values::laws::terms_have_their_values;

/// A viable split of a cell, the term of its alternative, and how many entries a list may have.
#[derive(Clone, Copy)]
pub struct Split<'s, 'a> {
    pub lines: &'s Lines<'a>,
    pub k: usize,
    pub cell: Cell,
    pub choice: Choice,
    pub term: &'s Term,
}

/// Puts the ranked split with these ranks among the first entries. Tells whether it is one of them.
pub fn meet_chosen(
    split: Split<'_, '_>,
    chosen: Chosen,
    listed: &mut Vec<Entry>,
) -> Result<bool, AllocError>
    requires span { IsSpan split.lines.now.word split.cell.from split.cell.to }
    requires viable { IsViable split.lines.now split.cell split.choice.alt split.choice.cuts }
    requires term { split.term.now ≡ term_of split.lines.now split.cell.rule split.choice.alt }
    requires few { chosen.ranked ≤ chosen.valued }
    requires as_many { chosen.valued
        ≡ length (arguments_of split.lines.now.grammar split.cell.rule split.choice.alt) }
    requires ranked { AreRankedValues split.lines.now split.k
        (placed split.lines.now split.cell split.choice.alt split.choice.cuts) (ranks_of chosen) (values_of chosen) }
    requires listing { IsListing split.lines.now split.k split.cell listed.old.items }
    ensures listing { IfOk result (λ _.
        IsListing split.entry.lines.now split.entry.k split.entry.cell listed.new.items) }
    ensures kept { IfOk result (λ _. (entry : EntryValue)
        → IsSettled (algebra_of split.entry.lines.now).goal split.entry.k listed.old.items entry
        → IsSettled (algebra_of split.entry.lines.now).goal split.entry.k listed.new.items entry) }
    ensures met { IfOk result (λ _. AreSettled split.entry.lines.now split.entry.k split.entry.cell split.entry.choice
        (BeginWith (ranks_of chosen)) listed.new.items) }
    ensures out { IfOk result (λ is_in. is_in ≡ false
        → AreSettled split.entry.lines.now split.entry.k split.entry.cell split.entry.choice
        (AreNotBelow (ranks_of chosen)) listed.new.items) }
    ensures front { IfOk result (λ _. (place : ℕ) (other : EntryValue) → IsAt listed.old.items place other
        → ((entry : EntryValue) → IsRankedSplit split.entry.lines.now split.entry.k split.entry.cell entry
        → entry.choice ≡ split.entry.choice → entry.ranks ≡ ranks_of chosen
        → EntryPrecedes (algebra_of split.entry.lines.now).goal other entry) → IsAt listed.new.items place other) }
{
    let problem = split.lines.problem();
    problem.admissible();
    arguments_are_few_and_known();
    terms_fit_their_alternatives();
    terms_have_their_values();
    entries_are_in_strict_order();
    ranked_splits_are_in_total_order();
    ranked_splits_keep_the_score_bound();
    lower_ranks_come_first();
    let score = eval(split.term, &chosen.values[..chosen.valued as usize]);
    let entry = Entry::new(score, split.choice, chosen.ranks, chosen.ranked);
    meet(problem.goal(), split.k, listed, entry)
}

/// What letters that a token matches are worth.
pub fn token_value(lines: &Lines<'_>, token: &Arg, from: u16, to: u16) -> i64
    requires known { IsKnown lines.now.grammar token.now }
    requires span { IsSpan lines.now.word from to }
    requires low { nat_abs (token_value lines.now.grammar token.now (letters_between lines.now.word from to))
        ≤ greatest_score }
    ensures { result ≡ token_value lines.now.grammar token.now (letters_between lines.now.word from to) }
{
    match token {
        Arg::Rule(_) | Arg::Literal(_) => 0,
        Arg::Letter(class) | Arg::Run { class, .. } => lines.weight(*class, from, to) as i64,
    }
}

/// Puts the ranked splits among the first entries whose ranks begin with those that are chosen, the other arguments
/// laid from `from` on. Tells whether the first of them is one of these; else no split with ranks from the chosen ones
/// on is.
fn meet_ranked(
    split: Split<'_, '_>,
    table: &ListTable<'_>,
    arguments: &[Arg],
    from: u16,
    ends: &[u16],
    chosen: Chosen,
    listed: &mut Vec<Entry>,
) -> Result<bool, AllocError>
    requires laid { IsLaidOut split.lines.now table.now }
    requires small { split.k ≤ 64 }
    requires lists { (child : CellValue) → IsDemandedChild split.lines.now split.cell child
        → HasList split.k table.now child }
    requires span { IsSpan split.lines.now.word split.cell.from split.cell.to }
    requires viable { IsViable split.lines.now split.cell split.choice.alt split.choice.cuts }
    requires term { split.term.now ≡ term_of split.lines.now split.cell.rule split.choice.alt }
    requires few { chosen.ranked ≤ chosen.valued }
    requires room { chosen.valued ≤ 4 }
    requires begun { IsBegun split.lines.now split.k split.cell split.choice (ranks_of chosen) (values_of chosen)
        arguments.now from ends.now }
    requires listing { IsListing split.lines.now split.k split.cell listed.old.items }
    ensures listing { IfOk result (λ _.
        IsListing split.entry.lines.now split.entry.k split.entry.cell listed.new.items) }
    ensures kept { IfOk result (λ _. (entry : EntryValue)
        → IsSettled (algebra_of split.entry.lines.now).goal split.entry.k listed.old.items entry
        → IsSettled (algebra_of split.entry.lines.now).goal split.entry.k listed.new.items entry) }
    ensures met { IfOk result (λ _. AreSettled split.entry.lines.now split.entry.k split.entry.cell split.entry.choice
        (BeginWith (ranks_of chosen)) listed.new.items) }
    ensures out { IfOk result (λ is_in. is_in ≡ false
        → AreSettled split.entry.lines.now split.entry.k split.entry.cell split.entry.choice
        (AreNotBelow (ranks_of chosen)) listed.new.items) }
{
    let Some((argument, others)) = arguments.split_first() else {
        return meet_chosen(split, chosen, listed);
    };
    let Some((to, later)) = ends.split_first() else {
        unreachable!()
    };
    split.lines.problem().admissible();
    arguments_are_few_and_known();
    words_keep_their_score_bound();
    first_trees_are_unique();
    match argument {
        Arg::Rule(rule) => {
            let list = table.list(Cell {
                rule: *rule,
                from,
                to: *to,
            });
            for (rank, entry) in list.iter().enumerate() {
                let next = chosen.with_value(entry.score()).with_rank(rank as u8);
                if !meet_ranked(split, table, others, *to, later, next, listed)? {
                    return Ok(rank > 0);
                }
            }
            Ok(!list.is_empty())
        }
        token => {
            let next = chosen.with_value(token_value(split.lines, token, from, *to));
            meet_ranked(split, table, others, *to, later, next, listed)
        }
    }
}

/// Puts all ranked splits of a viable split among the first entries.
pub fn meet_split(
    split: Split<'_, '_>,
    table: &ListTable<'_>,
    listed: &mut Vec<Entry>,
) -> Result<(), AllocError>
    requires laid { IsLaidOut split.lines.now table.now }
    requires small { split.k ≤ 64 }
    requires lists { (child : CellValue) → IsDemandedChild split.lines.now split.cell child
        → HasList split.k table.now child }
    requires span { IsSpan split.lines.now.word split.cell.from split.cell.to }
    requires viable { IsViable split.lines.now split.cell split.choice.alt split.choice.cuts }
    requires term { split.term.now ≡ term_of split.lines.now split.cell.rule split.choice.alt }
    requires listing { IsListing split.lines.now split.k split.cell listed.old.items }
    ensures listing { IfOk result (λ _.
        IsListing split.entry.lines.now split.entry.k split.entry.cell listed.new.items) }
    ensures kept { IfOk result (λ _. (entry : EntryValue)
        → IsSettled (algebra_of split.entry.lines.now).goal split.entry.k listed.old.items entry
        → IsSettled (algebra_of split.entry.lines.now).goal split.entry.k listed.new.items entry) }
    ensures met { IfOk result (λ _. AreSettled split.entry.lines.now split.entry.k split.entry.cell split.entry.choice
        (BeginWith []) listed.new.items) }
{
    let [first, second, third] = split.choice.cuts;
    let ends = [first, second, third, split.cell.to];
    let arguments = split
        .lines
        .problem()
        .arguments(split.cell.rule, split.choice.alt);
    meet_ranked(
        split,
        table,
        arguments,
        split.cell.from,
        &ends,
        Chosen::none(),
        listed,
    )?;
    Ok(())
}
