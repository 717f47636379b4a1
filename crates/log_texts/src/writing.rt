//! Words and numbers at the end of a text, the parts of a trace's lines: only digits are formatted,
//! which is faster than `write!`. After an `Err` a front of what was to be appended stands there.

ghost use Rattle.std.specs.Prelude.{◌≡◌, ◌++◌, OnOk, OnErr, string_bytes, codes, decimal};
ghost use Rattle.std.specs.List.{flat_map};
ghost use Rattle.log_texts.specs.Growth.{GrowsByFront};

use itoa::Buffer;
use std::alloc::AllocError;

/// Appends the words, one behind another.
pub(crate) fn push_words(text: &mut String, words: &[&str]) -> Result<(), AllocError>
    ensures ok { OnOk result (string_bytes text.new ≡ string_bytes text.old ++ flat_map (λ word. word.now) words.now) }
    ensures err { OnErr result (GrowsByFront (string_bytes text.old) (string_bytes text.new) (flat_map (λ word. word.now) words.now)) }
{
    for word in words {
        push_word(text, word)?;
    }
    Ok(())
}

pub(crate) fn push_word(text: &mut String, word: &str) -> Result<(), AllocError>
    ensures ok { OnOk result (string_bytes text.new ≡ string_bytes text.old ++ word.now) }
    ensures err { OnErr result (GrowsByFront (string_bytes text.old) (string_bytes text.new) word.now) }
{
    text.push_str(word)
}

/// Appends `WORD N`, the word with its spaces.
pub(crate) fn push_number(text: &mut String, word: &str, number: u64) -> Result<(), AllocError>
    ensures ok { OnOk result (string_bytes text.new ≡ string_bytes text.old ++ (word.now ++ decimal number)) }
    ensures err { OnErr result (GrowsByFront (string_bytes text.old) (string_bytes text.new) (word.now ++ decimal number)) }
{
    let mut digits = Buffer::new();
    push_words(text, &[word, digits.format(number)])
}

/// Appends the line `WORD N`, the word with its spaces.
pub(crate) fn push_line(text: &mut String, word: &str, number: u64) -> Result<(), AllocError>
    ensures ok { OnOk result (string_bytes text.new ≡ string_bytes text.old ++ (word.now ++ decimal number ++ codes "\n")) }
    ensures err { OnErr result (GrowsByFront (string_bytes text.old) (string_bytes text.new) (word.now ++ decimal number ++ codes "\n")) }
{
    let mut digits = Buffer::new();
    push_words(text, &[word, digits.format(number), "\n"])
}
