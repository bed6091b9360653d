ghost use Rattle.std.specs.Prelude.{◌≡◌, List, ℕ};
ghost use Rattle.std.specs.List.{list_all};
ghost use Rattle.adp_model.specs.Printable.{is_printable_byte, IsPrintable};

use std::marker::Model;

/// A text of printable ASCII, bytes 32 to 126. Contracts see it as the list of its bytes.
#[derive(Drop)]
pub struct Text {
    content: Vec<u8>,
}

impl Model for Text {
    ghost Value = { List ℕ };

    ghost view = { λ text. text.content.items };

    ghost invariant = { λ text. IsPrintable text.content.items };
}

impl Text {
    /// The text of these bytes. Takes no memory.
    pub fn new(bytes: Vec<u8>) -> Text
        requires { IsPrintable bytes.items }
        ensures { result ≡ bytes.items }
    {
        Text { content: bytes }
    }

    /// The bytes of the text. Takes no memory.
    pub fn bytes(&self) -> &[u8]
        ensures bytes { result.now ≡ self.now }
        ensures printable { IsPrintable self.now }
    {
        &self.content
    }
}

/// Whether the byte is printable ASCII, 32 to 126.
pub fn is_printable_byte(byte: u8) -> bool
    ensures { result ≡ is_printable_byte byte }
{
    (32..=126).contains(&byte)
}

/// Whether every byte is printable ASCII, 32 to 126: whether a text can be made of them.
pub fn is_printable(bytes: &[u8]) -> bool
    ensures { result ≡ list_all is_printable_byte bytes.now }
{
    let mut printable = true;
    for byte in bytes {
        printable &= is_printable_byte(*byte);
    }
    printable
}
