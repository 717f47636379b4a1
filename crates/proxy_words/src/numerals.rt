ghost use Rattle.std.specs.Prelude.{◌≡◌, ◌^◌, ◌<◌, ◌≤◌, ◌<ℤ◌, pos, neg_ℤ, length, IsTrue, IfSome};
ghost use Rattle.std.specs.List.{list_all};
ghost use Rattle.proxy_words.specs.Numerals.{is_digit, is_numeral, numeral, signed_numeral, value_of};

/// Reads a word of one to nine digits as a number.
pub fn number(word: &[u8]) -> Option<u32>
    ensures value { result ≡ numeral 9 word.now }
    ensures small { IfSome result (λ n. n < 10 ^ 9) }
{
    if is_number(word, 9) {
        Some(value(word) as u32)
    } else {
        None
    }
}

/// Reads a word of one to eighteen digits as a number.
pub fn long_number(word: &[u8]) -> Option<u64>
    ensures value { result ≡ numeral 18 word.now }
    ensures small { IfSome result (λ n. n < 10 ^ 18) }
{
    if is_number(word, 18) {
        Some(value(word))
    } else {
        None
    }
}

/// Reads a word of one to eighteen digits as a number, with or without a `-` before them. `-0` is 0.
pub fn signed_long_number(word: &[u8]) -> Option<i64>
    ensures { result ≡ signed_numeral 18 word.now }
{
    match word {
        [b'-', digits @ ..] => long_number(digits).map(|n| -(n as i64)),
        _ => long_number(word).map(|n| n as i64),
    }
}

fn is_number(word: &[u8], most: usize) -> bool
    ensures value { result ≡ is_numeral most word.now }
    ensures short { IsTrue result → length word.now ≤ most }
{
    !word.is_empty() && word.len() <= most && all_digits(word)
}

fn all_digits(word: &[u8]) -> bool
    ensures { result ≡ list_all is_digit word.now }
{
    word.iter().all(|byte| b'0' <= *byte && *byte <= b'9')
}

fn value(digits: &[u8]) -> u64
    requires digits { IsTrue (list_all is_digit digits.now) }
    requires short { length digits.now ≤ 18 }
    ensures value { result ≡ value_of digits.now }
    ensures small { result < 10 ^ length digits.now }
{
    let mut n = 0;
    for digit in digits {
        n = n * 10 + u64::from(*digit - b'0');
    }
    n
}
