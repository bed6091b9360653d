//! A viable split at some ranks, by the lists as far as they have grown.

ghost use Rattle.std.specs.Prelude.{◌≡◌, ◌≤◌, ◌++◌, IfOk, true, length};
ghost use Rattle.adp_model.specs.Parts.{algebra_of};
ghost use Rattle.adp_model.specs.PosedProblem.{IsSpan};
ghost use Rattle.adp_model.specs.Splits.{IsViable};
ghost use Rattle.first_trees.specs.Entries.{Entry as EntryValue};
ghost use Rattle.k_best.specs.Chosen.{ranks_of, values_of};
ghost use Rattle.k_best.specs.Growing.{AreHeaded, IsMetKept};
ghost use Rattle.k_best.specs.GrowingLists.{AreGrowing, IsBasis, IsRankedAt};
ghost use Rattle.k_best.specs.RankedRows.{IsBegun, IsListing};

use crate::chosen::Chosen;
use crate::entry::Entry;
use crate::growing::{Basis, Grown, Told, told_at};
use crate::split_ranks::{Split, meet_chosen, token_value};
use adp_model::laws::bounds::words_keep_their_score_bound;
use adp_model::laws::well_formed::arguments_are_few_and_known;
use adp_model::{Arg, Cell};
use first_trees::laws::{entries_are_in_strict_order, lower_ranks_come_first};
use std::alloc::AllocError;
use traceback::NodeAt;

/// What is found of a viable split at some ranks.
#[derive(Clone, Copy)]
pub enum Ranked {
    /// Its values.
    Found(Chosen),
    /// A rule among the arguments has no tree at its rank, nor at a later one.
    Nowhere,
    /// The list of a rule among the arguments hasn't grown up to its rank.
    NotYet,
}

/// The viable split at the chosen ranks and then at these, the other arguments laid from `from` on.
fn split_at(
    basis: &Basis<'_, '_>,
    grown: &Grown,
    node: NodeAt,
    arguments: &[Arg],
    from: u16,
    ends: &[u16],
    ranks: &[u8],
    chosen: Chosen,
) -> Ranked
    requires basis { IsBasis basis.now }
    requires growing { AreGrowing basis.now.lines.now basis.now.k grown.now.lists.items }
    requires span { IsSpan basis.now.lines.now.word node.cell.from node.cell.to }
    requires viable { IsViable basis.now.lines.now node.cell node.choice.alt node.choice.cuts }
    requires few { chosen.ranked ≤ chosen.valued }
    requires room { chosen.valued ≤ 4 }
    requires begun { IsBegun basis.now.lines.now basis.now.k node.cell node.choice (ranks_of chosen) (values_of chosen)
        arguments.now from ends.now }
    ensures { IsRankedAt basis.now.lines.now basis.now.k node.cell node.choice (ranks_of chosen ++ ranks.now) result }
{
    let Some((argument, others)) = arguments.split_first() else {
        return Ranked::Found(chosen);
    };
    let Some((to, later)) = ends.split_first() else {
        unreachable!()
    };
    basis.lines.problem().admissible();
    arguments_are_few_and_known();
    words_keep_their_score_bound();
    match argument {
        Arg::Rule(rule) => {
            let Some((rank, ranks)) = ranks.split_first() else {
                return Ranked::NotYet;
            };
            let child = Cell {
                rule: *rule,
                from,
                to: *to,
            };
            match told_at(basis, grown, child, *rank as usize) {
                Told::Score(score) => {
                    let next = chosen.with_value(score).with_rank(*rank);
                    split_at(basis, grown, node, others, *to, later, ranks, next)
                }
                Told::Nothing => Ranked::Nowhere,
                Told::NotYet => Ranked::NotYet,
            }
        }
        token => {
            let next = chosen.with_value(token_value(basis.lines, token, from, *to));
            split_at(basis, grown, node, others, *to, later, ranks, next)
        }
    }
}

/// Puts the ranked split at these ranks among the first entries, where there is one. Tells whether that is known.
pub fn meet_at(
    basis: &Basis<'_, '_>,
    grown: &Grown,
    node: NodeAt,
    ranks: &[u8],
    found: &mut Vec<Entry>,
) -> Result<bool, AllocError>
    requires basis { IsBasis basis.now }
    requires growing { AreGrowing basis.now.lines.now basis.now.k grown.now.lists.items }
    requires span { IsSpan basis.now.lines.now.word node.cell.from node.cell.to }
    requires viable { IsViable basis.now.lines.now node.cell node.choice.alt node.choice.cuts }
    requires listing { IsListing basis.now.lines.now basis.now.k node.cell found.old.items }
    ensures listing { IfOk result (λ _. IsListing basis.now.lines.now basis.now.k node.cell found.new.items) }
    ensures kept { IfOk result (λ _. IsMetKept basis.now.lines.now basis.now.k node.cell node.choice ranks.now
        found.old.items found.new.items) }
    ensures met { IfOk result (λ is_known. is_known ≡ true
        → AreHeaded basis.now.lines.now basis.now.k node.cell node.choice ranks.now found.new.items) }
{
    let problem = basis.lines.problem();
    problem.admissible();
    entries_are_in_strict_order();
    lower_ranks_come_first();
    let [first, second, third] = node.choice.cuts;
    let ends = [first, second, third, node.cell.to];
    let arguments = problem.arguments(node.cell.rule, node.choice.alt);
    let from = node.cell.from;
    match split_at(
        basis,
        grown,
        node,
        arguments,
        from,
        &ends,
        ranks,
        Chosen::none(),
    ) {
        Ranked::Found(chosen) => {
            let split = Split {
                lines: basis.lines,
                k: basis.k,
                cell: node.cell,
                choice: node.choice,
                term: problem.term(node.cell.rule, node.choice.alt),
            };
            meet_chosen(split, chosen, found)?;
            Ok(true)
        }
        Ranked::Nowhere => Ok(true),
        Ranked::NotYet => Ok(false),
    }
}
