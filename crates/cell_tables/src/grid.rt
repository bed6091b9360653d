//! Values for spans of a word, side by side.

ghost use Rattle.std.specs.Prelude.{◌≡◌, ℕ, ◌+◌, ◌-◌, ◌^◌, ◌<◌, ◌≤◌, IfOk, IsSome, Some, MatchOption, length, slice_get};
ghost use Rattle.std.specs.List.{Contains};
ghost use Rattle.std.specs.Arc.{arc_value};
ghost use Rattle.cell_layouts.specs.Layout.{AreLaid};
ghost use Rattle.cell_tables.specs.Spans.{AreSet, IsWritten, Stands, block_at, value_at};

use cell_layouts::{Block, Laid};
use std::alloc::{AllocError, Global};
use std::marker::Model;
use std::sync::Arc;

/// A value for each of some spans, by a rule, a near end and a far end of the span: those of a rule and a near end
/// stand side by side, from the place of their block on. The blocks are shared with others that are laid out alike.
#[derive(Drop)]
pub struct Grid<V> {
    /// How many near ends a rule has.
    positions: u32,
    laid: Arc<Laid, Global>,
    pub(crate) values: Vec<V>,
}

impl<V> Model for Grid<V> {
    ghost use Rattle.cell_tables.specs.Spans.{Spans, AreBlocks};
    ghost use Rattle.cell_tables.specs.GridFields.{grid_spans};

    ghost Value = { Spans V };

    ghost view = { grid_spans };

    ghost invariant = { λ grid. AreBlocks (grid_spans grid) };
}

impl<V: Copy> Grid<V> {
    /// The grid that has these blocks, which are counted up, and one value everywhere. Fails for want of memory alone.
    pub fn new(
        alloc: Global,
        positions: u32,
        laid: &Arc<Laid, Global>,
        value: V,
    ) -> Result<Grid<V>, AllocError>
        requires laid { AreLaid (arc_value laid.now).blocks.items (arc_value laid.now).count }
        requires copied { (other : V) → V.is_clone value other → other ≡ value }
        ensures positions { IfOk result (λ grid. grid.positions ≡ positions) }
        ensures blocks { IfOk result (λ grid. grid.blocks ≡ (arc_value laid.now).blocks.items) }
        ensures count { IfOk result (λ grid. length grid.values ≡ (arc_value laid.now).count) }
        ensures values { IfOk result (λ grid. (place : ℕ) → place < (arc_value laid.now).count
            → slice_get grid.values place ≡ Some value) }
    {
        let values = vec![in alloc; value; laid.count as usize]?;
        let laid = Arc::try_clone(laid)?;
        Ok(Grid {
            positions,
            laid,
            values,
        })
    }

    /// The block of a rule and a near end, where there is one.
    #[inline(always)]
    pub(crate) fn block(&self, rule: u32, near: u16) -> Option<Block>
        ensures { MatchOption result ((far : ℕ) → Stands self.now rule near far → ⊥)
            (λ block. (near < self.now.positions) × (block ≡ block_at self.now rule near)) }
    {
        if u32::from(near) >= self.positions {
            return None;
        }
        let number = rule as usize * self.positions as usize + near as usize;
        self.laid.blocks.get(number).copied()
    }

    /// The value of a span, where it has one. Takes constant time and no memory.
    #[inline]
    pub fn get(&self, rule: u32, near: u16, far: u16) -> Option<V>
        ensures { result ≡ value_at self.now rule near far }
    {
        let block = self.block(rule, near)?;
        if far < block.first || far >= block.past {
            return None;
        }
        Some(self.values[block.place as usize + (far - block.first) as usize])
    }

    /// Gives a span that has a value another one. Takes constant time and no memory.
    pub fn set(&mut self, rule: u32, near: u16, far: u16, value: V)
        requires { IsSome (value_at self.old rule near far) }
        ensures { IsWritten self.old self.new rule near far value }
    {
        if let Some(block) = self.block(rule, near) {
            self.values[block.place as usize + (far - block.first) as usize] = value;
        }
    }

    /// The values of the spans with this near end whose far ends lie from `first` on and before `past`. Takes constant
    /// time and no memory.
    #[inline(always)]
    pub fn between(&self, rule: u32, near: u16, first: u16, past: u16) -> &[V]
        requires first { first < past → IsSome (value_at self.now rule near first) }
        requires last { first < past → IsSome (value_at self.now rule near (past - 1)) }
        ensures as_many { length result.now ≡ past - first }
        ensures values { (k : ℕ) → k < past - first → slice_get result.now k ≡ value_at self.now rule near (first + k) }
    {
        if first >= past {
            return &[];
        }
        let Some(block) = self.block(rule, near) else {
            return &[];
        };
        let start = block.place as usize + (first - block.first) as usize;
        &self.values[start..start + (past - first) as usize]
    }
}

/// Sets the values at these places, each moved ahead and then back.
pub fn set_places<V: Copy>(values: &mut [V], places: &[u16], ahead: usize, back: u16, value: V)
    requires ahead { ahead < 2 ^ 33 }
    requires back { (place : ℕ) → Contains places.now place → back ≤ place + ahead }
    requires within { (place : ℕ) → Contains places.now place → place + ahead - back < length values.old }
    ensures { AreSet values.old values.new
        (λ at. (place : ℕ) × Contains places.now place × (at ≡ place + ahead - back)) value }
{
    for place in places {
        values[*place as usize + ahead - back as usize] = value;
    }
}
