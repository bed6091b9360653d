//! What is laid out of the counted cells, for words of one grammar and one length.

ghost use Rattle.std.specs.Prelude.{ℕ, IfOk, length};
ghost use Rattle.adp_model.specs.declared.grammar.Grammar.{Grammar};
ghost use Rattle.cell_layouts.specs.Layout.{IsLaidOut};

use crate::laying::{laid_blocks, laid_words};
use crate::layout::{Laid, Side};
use adp_model::Problem;
use std::alloc::{AllocError, Global};
use std::sync::Arc;

/// Where what is kept of the counted cells of words of one grammar and one length lies in rows and in columns: a value
/// for each, or a bit, 64 in a number. Takes 32 bytes for each rule and position.
#[derive(Drop)]
pub struct LaidOut {
    pub(crate) rows: Arc<Laid, Global>,
    pub(crate) columns: Arc<Laid, Global>,
    pub(crate) row_words: Arc<Laid, Global>,
    pub(crate) column_words: Arc<Laid, Global>,
}

impl LaidOut {
    /// What is laid out for words of the problem's grammar that are as long as its word, in constant time for each rule
    /// and position. Fails for want of memory alone.
    pub fn new(alloc: Global, problem: &Problem<'_>) -> Result<LaidOut, AllocError>
        ensures { IfOk result (IsLaidOut problem.now.grammar (length problem.now.word)) }
    {
        let rows = laid_blocks(alloc, problem, Side::Rows)?;
        let columns = laid_blocks(alloc, problem, Side::Columns)?;
        let row_words = laid_words(alloc, problem, Side::Rows, &rows)?;
        let column_words = laid_words(alloc, problem, Side::Columns, &columns)?;
        Ok(LaidOut {
            rows: Arc::new(alloc, rows)?,
            columns: Arc::new(alloc, columns)?,
            row_words: Arc::new(alloc, row_words)?,
            column_words: Arc::new(alloc, column_words)?,
        })
    }

    /// The same once more: it is counted up, and nothing is copied. Fails where it was counted up too often.
    pub fn shared(&self) -> Result<LaidOut, AllocError>
        ensures { (grammar : Grammar) (len : ℕ) → IsLaidOut grammar len self.now → IfOk result (IsLaidOut grammar len) }
    {
        Ok(LaidOut {
            rows: Arc::try_clone(&self.rows)?,
            columns: Arc::try_clone(&self.columns)?,
            row_words: Arc::try_clone(&self.row_words)?,
            column_words: Arc::try_clone(&self.column_words)?,
        })
    }
}
