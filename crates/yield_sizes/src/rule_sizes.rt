ghost use Rattle.std.specs.Prelude.{◌≡◌, ◌<◌, length, slice_index, slice_index_or};

use adp_model::Sequence;

/// For each rule of a grammar its least size, and its greatest, which is `None` where it is unbounded. A least size above
/// 4,294,967,295 is kept as 4,294,967,295, a greatest size above 4,000 counts as unbounded.
#[derive(Drop)]
pub struct Sizes {
    pub least: Sequence<u32>,
    pub greatest: Sequence<Option<u32>>,
}

impl Sizes {
    /// The least size of the rule, in letters. Takes no memory.
    pub fn least(&self, rule: u32) -> u32
        requires { rule < length self.now.least }
        ensures { result ≡ slice_index self.now.least rule }
    {
        self.least.as_slice()[rule as usize]
    }

    /// The greatest size of the rule, in letters, or `None` where it is unbounded. Takes no memory.
    pub fn greatest(&self, rule: u32) -> Option<u32>
        requires { rule < length self.now.greatest }
        ensures { result ≡ slice_index_or self.now.greatest rule None }
    {
        self.greatest.as_slice()[rule as usize]
    }
}
