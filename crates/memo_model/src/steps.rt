ghost use Rattle.std.specs.Prelude.{◌<◌};

use std::sync::ledger::{Blank, Book, Ledger, Share};

/// A counter of steps of a memo, without bytes. Contracts see how many it counted (`steps_made`), a whole number
/// without bounds. It knows of no word.
#[derive(Drop)]
pub struct Steps<L: Ledger> {
    book: Book<L>,
    share: Share<L>,
    ghost backed: { 0 < share.parts },
}

impl<L: Ledger> Steps<L> {
    ghost use Rattle.std.specs.Prelude.{◌≡◌, ◌+◌, ◌<◌};
    ghost use Rattle.memo_model.specs.StepsMade.{steps_made};

    /// A counter that has counted nothing.
    pub fn open(blank: Blank) -> Steps<L>
        requires name { blank.name ≡ L.name }
        requires parts { (blank.parts ≡ L.parts) × (0 < blank.parts) }
        ensures { steps_made result ≡ 0 }
    {
        let (book, share) = blank.open::<L>();
        Steps { book, share }
    }

    /// Counts one step.
    pub fn count(&mut self)
        ensures { steps_made self.new ≡ steps_made self.old + 1 }
    {
        let Steps { book, share } = self;
        book.add(share, 1);
    }
}
