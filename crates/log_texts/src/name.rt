ghost use Rattle.std.specs.Prelude.{◌≡◌};
ghost use Rattle.log_texts.specs.Steps.{named};

use proxy_words::is_name;
use std::marker::Model;
use std::str;

/// The name of a server: one to 32 letters, digits, `-`, `_`, `.` and `:`.
#[derive(Debug, Drop)]
pub struct Name<'a> {
    text: &'a str,
}

impl<'a> Model for Name<'a> {
    ghost use Rattle.std.specs.Prelude.{ℕ, List};

    ghost Value = { List ℕ };

    ghost view = { λ name. name.text.now };
}

impl<'a> Name<'a> {
    /// Makes a name of a word, if it is one.
    pub fn new(word: &'a [u8]) -> Option<Name<'a>>
        ensures { result ≡ named word.now }
    {
        if !is_name(word) {
            return None;
        }
        match str::from_utf8(word) {
            Ok(text) => Some(Name { text }),
            Err(_) => None,
        }
    }

    pub fn as_str(&self) -> &str
        ensures { result.now ≡ self.now }
    {
        self.text
    }
}
