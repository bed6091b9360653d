//! Where the tokens between the arguments of lines match in a word.

ghost use Rattle.std.specs.Prelude.{◌≡◌, ◌<◌, IfOk, List, length, slice_index};
ghost use Rattle.std.specs.List.{AllByRecursion};
ghost use Rattle.adp_model.specs.declared.grammar.Arg.{Arg as Argument};
ghost use Rattle.adp_model.specs.PosedProblem.{PosedProblem};
ghost use Rattle.adp_model.specs.WellFormed.{IsKnown};
ghost use Rattle.split_lines.specs.KeptRules.{AreMiddles, HasAllOf};
ghost use Rattle.split_lines.specs.Found.{AreFound, HasNowhere, IsListOf};
ghost use Rattle.split_lines.specs.Laid.{IsFixed};
ghost use Rattle.split_lines.specs.Matching.{AreMatches};

use crate::classes::ClassTables;
use crate::kept_rules::Middle;
use crate::matches::{Matches, match_nowhere};
use adp_model::Arg;
use std::alloc::{AllocError, Global};

/// Lists that say where tokens match, the first of them that of all tokens which match nowhere, and for each middle the
/// number of its list.
#[derive(Drop)]
pub struct Found {
    pub lists: Vec<Matches>,
    pub numbers: Vec<usize>,
}

/// The number of the list of these tokens, which is put behind the others unless they match nowhere.
fn list_of(
    alloc: Global,
    tables: &ClassTables<'_>,
    tokens: &[Arg],
    lists: &mut Vec<Matches>,
) -> Result<usize, AllocError>
    requires known { AllByRecursion (IsKnown tables.now.grammar) tokens.now }
    requires fixed { AllByRecursion IsFixed tokens.now }
    requires nowhere { HasNowhere tables.now lists.old.items }
    ensures longer { IfOk result (λ _. HasAllOf lists.old.items lists.new.items) }
    ensures number { IfOk result (IsListOf tables.now lists.new.items tokens.now) }
{
    if match_nowhere(tables, tokens) {
        return Ok(0);
    }
    let number = lists.len();
    let matches = Matches::new(alloc, tables, tokens)?;
    lists.push(matches)?;
    Ok(number)
}

impl Found {
    /// Where the middles match, in time for each letter of the word once for each of them, and again where they may
    /// match. Memory is four to six bytes for each letter and middle that may match, and eight for any other. Fails for
    /// want of memory alone.
    pub fn new(
        alloc: Global,
        tables: &ClassTables<'_>,
        middles: &[Middle<'_>],
    ) -> Result<Found, AllocError>
        requires { AreMiddles tables.now.grammar middles.now }
        ensures { IfOk result (AreFound tables.now middles.now (length middles.now)) }
    {
        let mut lists = Vec::new(alloc);
        let nowhere = Matches::nowhere(alloc, tables.problem())?;
        lists.push(nowhere)?;
        let mut numbers = Vec::with_capacity(alloc, middles.len())?;
        for middle in middles {
            let number = list_of(alloc, tables, middle.tokens, &mut lists)?;
            numbers.push(number)?;
        }
        Ok(Found { lists, numbers })
    }

    /// Where the middle of this number matches. Takes constant time and no memory.
    #[inline(always)]
    pub fn of(&self, number: usize) -> &Matches
        requires number { number < length self.now.numbers.items }
        requires list { slice_index self.now.numbers.items number < length self.now.lists.items }
        ensures { (p : PosedProblem) (tokens : List Argument)
            → IsListOf p self.now.lists.items tokens (slice_index self.now.numbers.items number)
            → AreMatches p tokens result.now }
    {
        &self.lists[self.numbers[number]]
    }
}
