//! How the blocks of the counted cells are laid out.

ghost use Rattle.std.specs.Prelude.{◌≡◌, ◌↔◌, ℕ, ◌<◌, ◌≤◌, ◌^◌, IfOk, length};
ghost use Rattle.cell_layouts.specs.Layout.{AreBoundsOf, AreCountedBlocks, AreCountedWords, AreWordBlocks, IsWordBlock};

use crate::cells::{AllBounds, RuleBounds};
use crate::layout::{Block, Laid, Side};
use adp_model::Problem;
use adp_model::laws::sizes::sizes_are_numbers;
use adp_model::laws::well_formed::numbers_fit_together;
use std::alloc::{AllocError, Global};

/// How many far ends share a number.
pub const WORD: u16 = 64;

/// What decides which cells of a rule are counted.
fn bounds_of(problem: &Problem<'_>, rule: u32) -> RuleBounds
    requires { rule < length problem.now.grammar.rules }
    ensures { AreBoundsOf problem.now.grammar (length problem.now.word) rule result }
{
    sizes_are_numbers();
    let all = AllBounds {
        least: problem.least.as_slice(),
        greatest: problem.greatest.as_slice(),
        left: problem.left.as_slice(),
        right: problem.right.as_slice(),
    };
    all.of_rule(rule as usize)
}

/// The blocks of the counted cells of all rules and near ends. Fails for want of memory alone.
pub fn laid_blocks(alloc: Global, problem: &Problem<'_>, side: Side) -> Result<Laid, AllocError>
    ensures { IfOk result (λ laid. AreCountedBlocks problem.now.grammar (length problem.now.word) side laid.count
        laid.blocks.items) }
{
    problem.admissible();
    numbers_fit_together();
    let rules = problem.grammar.rules.as_slice().len();
    let len = problem.letters().len();
    let mut blocks = Vec::with_capacity(alloc, rules * (len + 1))?;
    let mut place = 0;
    for rule in 0..rules {
        let bounds = bounds_of(problem, rule as u32);
        for near in 0..len + 1 {
            let fars = bounds.fars(len as u16, side, near as u16);
            blocks.push(Block {
                place,
                first: fars.start,
                past: fars.end,
            })?;
            place += u32::from(fars.end - fars.start);
        }
    }
    Ok(Laid {
        blocks,
        count: place,
    })
}

/// The block of the numbers that hold a bit for each far end of a block, 64 in a number, from `place` on.
fn word_block(fars: Block, place: u32) -> Block
    ensures place { result.place ≡ place }
    ensures there { IsWordBlock fars result }
{
    if fars.first >= fars.past {
        return Block {
            place,
            first: 0,
            past: 0,
        };
    }
    Block {
        place,
        first: fars.first / WORD,
        past: (fars.past - 1) / WORD + 1,
    }
}

/// The blocks of the numbers that hold a bit for each far end of these blocks, one behind the other. Fails for want of
/// memory alone.
fn word_blocks(alloc: Global, fars: &[Block]) -> Result<Laid, AllocError>
    requires { length fars.now < 2 ^ 21 }
    ensures { IfOk result (λ laid. AreWordBlocks fars.now laid.count laid.blocks.items) }
{
    let mut blocks = Vec::with_capacity(alloc, fars.len())?;
    let mut place = 0;
    for far in fars {
        let block = word_block(*far, place);
        blocks.push(block)?;
        place += u32::from(block.past - block.first);
    }
    Ok(Laid {
        blocks,
        count: place,
    })
}

/// The blocks of the numbers that hold a bit for each counted cell, where these are the blocks of the cells. Fails for
/// want of memory alone.
pub fn laid_words(
    alloc: Global,
    problem: &Problem<'_>,
    side: Side,
    cells: &Laid,
) -> Result<Laid, AllocError>
    requires { AreCountedBlocks problem.now.grammar (length problem.now.word) side cells.now.count
        cells.now.blocks.items }
    ensures { IfOk result (λ laid. AreCountedWords problem.now.grammar (length problem.now.word) side laid.count
        laid.blocks.items) }
{
    problem.admissible();
    numbers_fit_together();
    word_blocks(alloc, &cells.blocks)
}
