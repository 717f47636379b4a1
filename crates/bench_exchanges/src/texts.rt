//! Bytes as words of a line: `%` and two digits stand for `%`, for a blank and for a byte that isn't printed.

ghost use Rattle.std.specs.Prelude.{◌<◌};

use std::alloc::{AllocError, Global};

/// Returns the bytes that a word stands for.
pub(crate) fn decoded(alloc: Global, word: &[u8]) -> Result<Vec<u8>, AllocError> {
    let mut bytes = Vec::new(alloc);
    let mut rest = word;
    for _ in 0..word.len() {
        match rest {
            [b'%', high, low, behind @ ..] => {
                bytes.push(digit(*high) * 16 + digit(*low))?;
                rest = behind;
            }
            [byte, behind @ ..] => {
                bytes.push(*byte)?;
                rest = behind;
            }
            [] => break,
        }
    }
    Ok(bytes)
}

fn digit(byte: u8) -> u8
    ensures { result < 16 }
{
    match byte {
        b'0'..=b'9' => byte - b'0',
        b'a'..=b'f' => byte - b'a' + 10,
        _ => 0,
    }
}

const DIGITS: [u8; 16] = *b"0123456789abcdef";

/// Appends the word for these bytes.
pub(crate) fn add_encoded(text: &mut Vec<u8>, bytes: &[u8]) -> Result<(), AllocError> {
    for byte in bytes {
        if byte.is_ascii_graphic() && *byte != b'%' {
            text.push(*byte)?;
        } else {
            text.extend_from_slice(&[
                b'%',
                DIGITS[(*byte / 16) as usize],
                DIGITS[(*byte % 16) as usize],
            ])?;
        }
    }
    Ok(())
}
