ghost use Rattle.std.specs.Prelude.{◌≡◌, ◌+◌, ◌<◌, ◌≤◌, ◌++◌, List, ℕ, length};
ghost use Rattle.std.specs.Fmt.{decimal};

use arrayvec::ArrayVec;
use itoa::Buffer;
use std::marker::Model;

/// The most bytes of a line.
const ROOM: usize = 96;

/// The line that names a fault, with its end. It takes no memory: its bytes, at most 96, are held in place.
#[derive(Drop)]
pub struct Line {
    text: ArrayVec<u8, ROOM>,
}

impl Model for Line {
    ghost Value = { List ℕ };

    ghost view = { λ l. l.text.items };
}

impl Line {
    /// A line that begins with this text.
    pub(crate) fn new(text: &[u8]) -> Line
        requires { length text.now ≤ 96 }
        ensures { result ≡ text.now }
    {
        let mut line = Line {
            text: ArrayVec::new(),
        };
        line.push(text);
        line
    }

    /// Appends a text for which there is room.
    pub(crate) fn push(&mut self, text: &[u8])
        requires { length self.old + length text.now ≤ 96 }
        ensures appended { self.new ≡ self.old ++ text.now }
        ensures len { length self.new ≡ length self.old + length text.now }
    {
        if self.text.try_extend_from_slice(text).is_err() {
            unreachable!()
        }
    }

    /// Appends a number in decimal digits, for which there is room.
    pub(crate) fn push_number(&mut self, number: u64)
        requires { length self.old + 20 ≤ 96 }
        ensures appended { self.new ≡ self.old ++ decimal number }
        ensures len { length self.new ≤ length self.old + 20 }
    {
        let mut digits = Buffer::new();
        self.push(digits.format(number).as_bytes());
    }

    /// The bytes of the line.
    pub fn bytes(&self) -> &[u8]
        ensures { result.now ≡ self.now }
    {
        self.text.as_slice()
    }
}
