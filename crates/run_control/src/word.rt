ghost use Rattle.std.specs.Prelude.{◌≡◌};

use std::marker::Model;
use std::str;

/// A word of a line, as bytes.
#[derive(Debug, Drop)]
pub struct Word<'a> {
    bytes: &'a [u8],
}

impl<'a> Model for Word<'a> {
    ghost use Rattle.std.specs.Prelude.{ℕ, List};

    ghost Value = { List ℕ };

    ghost view = { λ word. word.bytes.now };
}

impl<'a> Word<'a> {
    pub fn new(bytes: &'a [u8]) -> Word<'a>
        ensures { result ≡ bytes.now }
    {
        Word { bytes }
    }

    pub fn as_bytes(&self) -> &[u8]
        ensures { result.now ≡ self.now }
    {
        self.bytes
    }

    /// Returns the word, where it is UTF-8.
    pub fn as_str(&self) -> Option<&str> {
        str::from_utf8(self.bytes).ok()
    }
}
