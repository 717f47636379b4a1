ghost use Rattle.std.specs.Prelude.{◌≡◌, ◌^◌, ◌<◌, ◌≤◌, length, IfSome};
ghost use Rattle.proxy_words.specs.Times.{digits_len as digits_len_of, in_milliseconds as milliseconds_of, time};

use crate::numerals::number;

/// Reads a word as a time in milliseconds: a number of one to nine digits, and then a unit or nothing.
///
/// The units are `us`, rounded up to whole milliseconds, `ms`, `s`, `m`, `h` and `d`. Without a
/// unit the number is milliseconds.
pub fn milliseconds(word: &[u8]) -> Option<u64>
    ensures value { result ≡ time word.now }
    ensures small { IfSome result (λ t. t < 2 ^ 57) }
{
    let (digits, unit) = word.split_at(digits_len(word));
    let n = number(digits)?;
    in_milliseconds(unit, n.into())
}

fn digits_len(word: &[u8]) -> usize
    ensures count { result ≡ digits_len_of word.now }
    ensures within { result ≤ length word.now }
{
    word.iter()
        .take_while(|byte| b'0' <= **byte && **byte <= b'9')
        .count()
}

fn in_milliseconds(unit: &[u8], n: u64) -> Option<u64>
    requires { n < 10 ^ 9 }
    ensures value { result ≡ milliseconds_of unit.now n }
    ensures small { IfSome result (λ t. t < 2 ^ 57) }
{
    match unit {
        b"us" => Some(n.div_ceil(1000)),
        b"" | b"ms" => Some(n),
        b"s" => Some(n * 1000),
        b"m" => Some(n * 60_000),
        b"h" => Some(n * 3_600_000),
        b"d" => Some(n * 86_400_000),
        _ => None,
    }
}
