//! A fixed number of words of a line.

use crate::fault::{LineError, TraceCause};
use proxy_words::Words;

/// Returns the next word of a line, which must have one.
pub(crate) fn next<'a>(words: &mut Words<'a>) -> Result<&'a [u8], LineError> {
    words.next().ok_or(LineError::Faulty(TraceCause::Form))
}

/// Checks that no word is left.
pub(crate) fn end(mut words: Words) -> Result<(), LineError> {
    match words.next() {
        None => Ok(()),
        Some(_) => Err(LineError::Faulty(TraceCause::Form)),
    }
}

/// Returns the only word that is left.
pub(crate) fn one<'a>(mut words: Words<'a>) -> Result<&'a [u8], LineError> {
    match (words.next(), words.next()) {
        (Some(first), None) => Ok(first),
        _ => Err(LineError::Faulty(TraceCause::Form)),
    }
}

/// Returns the two words that are left.
pub(crate) fn two<'a>(mut words: Words<'a>) -> Result<(&'a [u8], &'a [u8]), LineError> {
    match (words.next(), words.next(), words.next()) {
        (Some(first), Some(second), None) => Ok((first, second)),
        _ => Err(LineError::Faulty(TraceCause::Form)),
    }
}

/// Returns the three words that are left.
pub(crate) fn three<'a>(mut words: Words<'a>) -> Result<(&'a [u8], &'a [u8], &'a [u8]), LineError> {
    let Some(first) = words.next() else {
        return Err(LineError::Faulty(TraceCause::Form));
    };
    let (second, third) = two(words)?;
    Ok((first, second, third))
}
