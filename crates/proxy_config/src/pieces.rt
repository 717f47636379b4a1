//! The words of a line, read from the left.

ghost use Rattle.std.specs.Prelude.{◌≡◌, ◌^◌, ◌<◌, ◌≤◌, ok_or, codes, IfSome};
ghost use Rattle.std.specs.Str.{bytes_eq};
ghost use Rattle.proxy_config.specs.Outcomes.{Sees};
ghost use Rattle.proxy_config.specs.Pieces.{word_at, end_at, number_in as number_within, number_from as number_at_least, time_from as time_at_least};

use crate::faults::FaultCause;
use proxy_words::{Words, milliseconds, number};

pub(crate) fn word<'a>(mut words: Words<'a>) -> Result<(&'a [u8], Words<'a>), FaultCause>
    ensures { Sees (λ x. (x.0.now, x.1)) result (word_at words.entry) }
{
    match words.next() {
        None => Err(FaultCause::Words),
        Some(word) => Ok((word, words)),
    }
}

pub(crate) fn end(mut words: Words) -> Result<(), FaultCause>
    ensures { Sees (λ x. x) result (end_at words.entry) }
{
    match words.next() {
        None => Ok(()),
        Some(_) => Err(FaultCause::Words),
    }
}

pub(crate) fn is(word: &[u8], text: &str) -> bool
    ensures { result ≡ bytes_eq word.now text.now }
{
    word == text.as_bytes()
}

pub(crate) fn number_in(least: u32, most: u32, word: &[u8]) -> Option<u32>
    ensures value { result ≡ number_within least most word.now }
    ensures bounds { IfSome result (λ n. n ≤ most) }
{
    let n = number(word)?;
    if n < least || most < n { None } else { Some(n) }
}

pub(crate) fn number_from(least: u32, word: &[u8]) -> Option<u32>
    ensures { result ≡ number_at_least least word.now }
{
    let n = number(word)?;
    if n < least { None } else { Some(n) }
}

pub(crate) fn time_from(least: u64, word: &[u8]) -> Option<u64>
    ensures { result ≡ time_at_least least word.now }
{
    let time = milliseconds(word)?;
    if time < least { None } else { Some(time) }
}
