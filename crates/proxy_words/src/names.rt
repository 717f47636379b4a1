ghost use Rattle.std.specs.Prelude.{◌≡◌};
ghost use Rattle.std.specs.List.{list_all};
ghost use Rattle.proxy_words.specs.Names as names;

/// Says whether a word may name a section or a server: one to 32 letters, digits, `-`, `_`, `.` and `:`.
pub fn is_name(word: &[u8]) -> bool
    ensures { result ≡ names.is_name word.now }
{
    !word.is_empty() && word.len() <= 32 && all_name_bytes(word)
}

fn all_name_bytes(word: &[u8]) -> bool
    ensures { result ≡ list_all names.is_name_byte word.now }
{
    word.iter().all(|byte| is_name_byte(*byte))
}

fn is_name_byte(byte: u8) -> bool
    ensures { result ≡ names.is_name_byte byte }
{
    byte.is_ascii_alphanumeric() || b"-_.:".contains(&byte)
}
