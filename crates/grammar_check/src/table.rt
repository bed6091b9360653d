ghost use Rattle.std.specs.Prelude.{◌≡◌, ◌≢◌, ℕ, ◌+◌, ◌*◌, ◌^◌, ◌<◌, length, vec_len, slice_index, IfOk};

use std::alloc::{AllocError, Global};

/// Rows of numbers, all of one width.
#[derive(Drop)]
pub struct Table {
    pub rows: usize,
    pub width: usize,
    values: Vec<u64>,
    ghost whole: { vec_len values ≡ rows * width },
}

impl Table {
    ghost use Rattle.grammar_check.specs.Tables.{entry};

    /// A table of zeros.
    pub fn new(alloc: Global, rows: usize, width: usize) -> Result<Table, AllocError>
        requires { rows * width < 2 ^ 60 }
        ensures rows { IfOk result (λ table. table.rows ≡ rows) }
        ensures width { IfOk result (λ table. table.width ≡ width) }
        ensures zero { IfOk result (λ table. (row column : ℕ) → entry table row column ≡ 0) }
    {
        let values = vec![in alloc; 0; rows * width]?;
        Ok(Table {
            rows,
            width,
            values,
        })
    }

    /// The number of a row and a column.
    pub fn get(&self, row: usize, column: usize) -> u64
        requires row { row < self.now.rows }
        requires column { column < self.now.width }
        ensures { result ≡ entry self.now row column }
    {
        self.values[row * self.width + column]
    }

    /// The numbers of a row, by column.
    pub fn row(&self, row: usize) -> &[u64]
        requires { row < self.now.rows }
        ensures width { length result.now ≡ self.now.width }
        ensures entries { (column : ℕ) → column < self.now.width
            → slice_index result.now column ≡ entry self.now row column }
    {
        let start = row * self.width;
        &self.values[start..start + self.width]
    }

    /// Writes the number of a row and a column.
    pub fn set(&mut self, row: usize, column: usize, value: u64)
        requires row { row < self.old.rows }
        requires column { column < self.old.width }
        ensures rows { self.new.rows ≡ self.old.rows }
        ensures width { self.new.width ≡ self.old.width }
        ensures here { entry self.new row column ≡ value }
        ensures other_columns { (other : ℕ) → other ≢ column → entry self.new row other ≡ entry self.old row other }
        ensures other_rows { (other at : ℕ) → other ≢ row → at < self.old.width
            → entry self.new other at ≡ entry self.old other at }
    {
        self.values[row * self.width + column] = value;
    }
}
