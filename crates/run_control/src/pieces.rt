//! The words of a line, read from the left.

ghost use Rattle.std.specs.Prelude.{◌≡◌, position};
ghost use Rattle.std.specs.Str.{bytes_eq};
ghost use Rattle.run_control.specs.Misfits.{Sees};
ghost use Rattle.run_control.specs.Pieces as grammar;

use crate::word::Word;
use log_entries::Intake;
use log_texts::{Name, intake_of};
use proxy_words::{Words, long_number};

/// Why a line isn't a command.
#[derive(Debug, Drop)]
pub enum Misfit<'a> {
    /// The line ends where a word is needed.
    Missing,
    /// The first word that doesn't fit.
    Bad(Word<'a>),
}

/// Takes a word, and returns the words after it too.
pub(crate) fn word<'a>(mut words: Words<'a>) -> Result<(&'a [u8], Words<'a>), Misfit<'a>>
    ensures { Sees (λ x. (x.0.now, x.1)) result (grammar.word_at words.entry) }
{
    match words.next() {
        None => Err(Misfit::Missing),
        Some(word) => Ok((word, words)),
    }
}

/// Takes a word that must be this text.
pub(crate) fn fixed<'a>(text: &str, words: Words<'a>) -> Result<Words<'a>, Misfit<'a>>
    ensures { Sees (λ x. x) result (grammar.fixed_at text.now words.entry) }
{
    let (word, words) = word(words)?;
    if is(word, text) {
        Ok(words)
    } else {
        Err(bad(word))
    }
}

/// Takes a word that must be a name.
pub(crate) fn name<'a>(words: Words<'a>) -> Result<(Name<'a>, Words<'a>), Misfit<'a>>
    ensures { Sees (λ x. x) result (grammar.name_at words.entry) }
{
    let (word, words) = word(words)?;
    match Name::new(word) {
        Some(name) => Ok((name, words)),
        None => Err(bad(word)),
    }
}

/// Takes a word `BACKEND/SERVER`, and returns the second name.
pub(crate) fn name_below<'a>(words: Words<'a>) -> Result<(Name<'a>, Words<'a>), Misfit<'a>>
    ensures { Sees (λ x. x) result (grammar.name_below_at words.entry) }
{
    let (word, words) = word(words)?;
    match below(word) {
        Some(name) => Ok((name, words)),
        None => Err(bad(word)),
    }
}

/// Takes a word that says how many requests a server takes.
pub(crate) fn intake<'a>(words: Words<'a>) -> Result<(Intake, Words<'a>), Misfit<'a>>
    ensures { Sees (λ x. x) result (grammar.intake_at words.entry) }
{
    let (word, words) = word(words)?;
    match intake_of(word) {
        Some(intake) => Ok((intake, words)),
        None => Err(bad(word)),
    }
}

/// Takes a word that is a number of at most 18 digits.
pub(crate) fn millis<'a>(words: Words<'a>) -> Result<(u64, Words<'a>), Misfit<'a>>
    ensures { Sees (λ x. x) result (grammar.millis_at words.entry) }
{
    let (word, words) = word(words)?;
    match long_number(word) {
        Some(number) => Ok((number, words)),
        None => Err(bad(word)),
    }
}

/// Checks that no word is left.
pub(crate) fn end<'a>(mut words: Words<'a>) -> Result<(), Misfit<'a>>
    ensures { Sees (λ x. x) result (grammar.end_at words.entry) }
{
    match words.next() {
        None => Ok(()),
        Some(word) => Err(bad(word)),
    }
}

/// Says whether a word is this text.
pub(crate) fn is(word: &[u8], text: &str) -> bool
    ensures { result ≡ bytes_eq word.now text.now }
{
    word == text.as_bytes()
}

/// Makes the misfit of this word.
pub(crate) fn bad<'a>(word: &'a [u8]) -> Misfit<'a>
    ensures { result ≡ Misfit.Bad word.now }
{
    Misfit::Bad(Word::new(word))
}

// Returns the name after the first slash of a word.
fn below<'a>(word: &'a [u8]) -> Option<Name<'a>>
    ensures { result ≡ grammar.named_below word.now }
{
    let slash = slash_in(word)?;
    Name::new(&word[slash + 1..])
}

fn slash_in(word: &[u8]) -> Option<usize>
    ensures { result ≡ position grammar.is_slash word.now }
{
    word.iter().position(|byte| *byte == b'/')
}
