//! The words that may stand at an index of a line, and the one that may have been meant by an unknown word.

use base_advice::nearest;
use std::alloc::{AllocError, Global};
use std::str;

/// The words with which a line may begin.
const LINES: [&str; 15] = [
    "global",
    "defaults",
    "listen",
    "mode",
    "balance",
    "retries",
    "option",
    "timeout",
    "log",
    "description",
    "bind",
    "server",
    "acl",
    "http-request",
    "use-server",
];

const OPTIONS: [&str; 4] = ["redispatch", "abortonclose", "httplog", "dontlognull"];

const TIMES: [&str; 4] = ["queue", "connect", "client", "server"];

const SETTINGS: [&str; 7] = [
    "weight", "maxconn", "maxqueue", "check", "inter", "rise", "fall",
];

const ACTIONS: [&str; 2] = ["set-priority-class", "set-priority-offset"];

/// Returns the known word that may have been meant at this index of a line; `None` where none is near.
pub(crate) fn meant(
    alloc: Global,
    first: &[u8],
    word_index: usize,
    word: &[u8],
) -> Result<Option<&'static str>, AllocError> {
    match str::from_utf8(word) {
        Ok(word) if word_index == 0 => nearest(alloc, word, &LINES),
        Ok(word) => nearest(alloc, word, known_behind(first)),
        Err(_) => Ok(None),
    }
}

fn known_behind(first: &[u8]) -> &'static [&'static str] {
    match first {
        b"option" => &OPTIONS,
        b"timeout" => &TIMES,
        b"server" => &SETTINGS,
        b"http-request" => &ACTIONS,
        b"balance" => &["leastconn"],
        b"mode" => &["http"],
        _ => &[],
    }
}
