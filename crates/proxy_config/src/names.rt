//! The words that are names, beside those of sections and servers.

ghost use Rattle.std.specs.Prelude.{◌≡◌};
ghost use Rattle.std.specs.List.{list_all};
ghost use Rattle.proxy_config.specs.Names as names;

use crate::pieces::is;
use proxy_words::is_name;

pub(crate) fn is_acl_name(word: &[u8]) -> bool
    ensures { result ≡ names.is_acl_name word.now }
{
    is_name(word) && !is(word, "or")
}

pub(crate) fn is_token(word: &[u8]) -> bool
    ensures { result ≡ names.is_token word.now }
{
    !word.is_empty() && all_token_bytes(word)
}

pub(crate) fn is_host(word: &[u8]) -> bool
    ensures { result ≡ names.is_host word.now }
{
    !word.is_empty() && all_host_bytes(word)
}

fn all_token_bytes(word: &[u8]) -> bool
    ensures { result ≡ list_all names.is_token_byte word.now }
{
    word.iter().all(|byte| is_token_byte(*byte))
}

fn all_host_bytes(word: &[u8]) -> bool
    ensures { result ≡ list_all names.is_host_byte word.now }
{
    word.iter().all(|byte| is_host_byte(*byte))
}

fn is_token_byte(byte: u8) -> bool
    ensures { result ≡ names.is_token_byte byte }
{
    byte.is_ascii_alphanumeric() || b"!#$%&'*+-.^_|~`".contains(&byte)
}

fn is_host_byte(byte: u8) -> bool
    ensures { result ≡ names.is_host_byte byte }
{
    byte.is_ascii_alphanumeric() || b"-.".contains(&byte)
}
