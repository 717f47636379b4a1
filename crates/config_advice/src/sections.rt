//! The words that begin a section.

/// The sections that `listen` replaces.
const MERGED: [&str; 3] = ["frontend", "backend", "listen"];

/// All other sections that the configuration's reader knows.
const SECTIONS: [&str; 7] = [
    "global",
    "defaults",
    "peers",
    "resolvers",
    "userlist",
    "cache",
    "program",
];

/// Says whether the lines of a section that begins so are read as the `listen`'s.
pub(crate) fn is_merged(word: &[u8]) -> bool {
    is_one_of(&MERGED, word)
}

/// Says whether the word begins another section.
pub(crate) fn is_other(word: &[u8]) -> bool {
    is_one_of(&SECTIONS, word)
}

/// Says whether the word begins a section.
pub(crate) fn is_section(word: &[u8]) -> bool {
    is_merged(word) || is_other(word)
}

pub(crate) fn is_global(word: &[u8]) -> bool {
    word == b"global".as_slice()
}

/// Says whether a word is one of these.
pub(crate) fn is_one_of(words: &[&'static str], word: &[u8]) -> bool {
    words.iter().any(|name| word == name.as_bytes())
}
