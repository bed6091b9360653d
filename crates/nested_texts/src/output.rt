// Lines, as they are written: each with its end, and with the number of the line that it comes from.

ghost use Rattle.std.specs.Prelude.{◌≡◌, ◌∷◌, ◌++◌, ◌≤◌, [], drop, length, take, OnOk};
ghost use Rattle.nested_texts.specs.PlainTexts.{line_of};
ghost use Rattle.nested_texts.specs.Seen.{end_of, ended, AddsLines};

use std::alloc::{AllocError, Global};

/// Lines with their ends, and the number of the line that each comes from.
#[derive(Drop)]
pub(crate) struct Lines {
    pub(crate) text: Vec<u8>,
    pub(crate) origins: Vec<u32>,
}

impl Lines {
    pub(crate) fn new(alloc: Global) -> Lines
        ensures text { result.text.items ≡ [] }
        ensures origins { result.origins.items ≡ [] }
    {
        Lines {
            text: Vec::new(alloc),
            origins: Vec::new(alloc),
        }
    }

    pub(crate) fn push_line(&mut self, line: &[u8], origin: u32) -> Result<(), AllocError>
        ensures { OnOk result (AddsLines self.old self.new (line_of origin line.now ∷ [])) }
    {
        let start = self.text.len();
        self.text.extend_from_slice(line)?;
        self.end_line(start, origin)?;
        Ok(())
    }

    /// Ends the line whose bytes stand from `start` on. A CR that is its last byte gets one more behind it, so that it
    /// stays a byte of the line.
    pub(crate) fn end_line(&mut self, start: usize, origin: u32) -> Result<(), AllocError>
        requires { start ≤ length self.old.text.items }
        ensures text { OnOk result (self.new.text.items
            ≡ take start self.old.text.items ++ ended (drop start self.old.text.items)) }
        ensures origins { OnOk result (self.new.origins.items ≡ self.old.origins.items ++ origin ∷ []) }
    {
        let end = end_of(&self.text[start..]);
        self.text.extend_from_slice(end)?;
        self.origins.push(origin)?;
        Ok(())
    }

    /// Adds the lines of another one.
    pub(crate) fn append(&mut self, other: &Lines) -> Result<(), AllocError>
        ensures text { OnOk result (self.new.text.items ≡ self.old.text.items ++ other.now.text.items) }
        ensures origins { OnOk result (self.new.origins.items ≡ self.old.origins.items ++ other.now.origins.items) }
    {
        self.text.extend_from_slice(&other.text)?;
        self.origins.extend_from_slice(&other.origins)
    }
}

// The end of a line.
fn end_of(line: &[u8]) -> &'static [u8]
    ensures { result.now ≡ end_of line.now }
{
    match line {
        [.., b'\r'] => b"\r\n",
        _ => b"\n",
    }
}
