//! Tests and conditions, translated from HAProxy's words to the profile's.

use crate::acls::Acls;
use crate::lines::words_of;
use std::alloc::{AllocError, Global};

/// The methods that HAProxy knows by name.
const METHODS: [&str; 8] = [
    "OPTIONS", "GET", "HEAD", "POST", "PUT", "DELETE", "TRACE", "CONNECT",
];

/// What the next word of a test is read as.
#[derive(Clone, Copy, Debug, PartialEq, Eq)]
enum Stage {
    Flags,
    /// The matching method after `-m`.
    Matching,
    Values,
}

/// The parts of a test.
#[derive(Drop)]
struct Parts<'a> {
    matching: &'a [u8],
    ignores_case: bool,
    stage: Stage,
    values: Vec<Vec<u8>>,
}

impl<'a> Parts<'a> {
    // Takes a word. Says whether the profile allows it there.
    fn take(&mut self, alloc: Global, word: &'a [u8]) -> Result<bool, AllocError> {
        match (self.stage, word) {
            (Stage::Matching, _) => {
                self.matching = word;
                self.stage = Stage::Flags;
            }
            (Stage::Flags, b"-i") => self.ignores_case = true,
            (Stage::Flags, b"-n") => {}
            (Stage::Flags, b"-m") => self.stage = Stage::Matching,
            (Stage::Flags, b"--") => self.stage = Stage::Values,
            _ => {
                if word.starts_with(b"-".as_slice()) {
                    return Ok(false);
                }
                self.stage = Stage::Values;
                self.values.push(Vec::from_slice(alloc, word)?)?;
            }
        }
        Ok(true)
    }
}

/// Translates a test; `None` where the profile doesn't have it.
pub(crate) fn test_of(
    alloc: Global,
    words: &[Vec<u8>],
) -> Result<Option<Vec<Vec<u8>>>, AllocError> {
    let Some((criterion, behind)) = words.split_first() else {
        return Ok(None);
    };
    let mut parts = Parts {
        matching: b"".as_slice(),
        ignores_case: false,
        stage: Stage::Flags,
        values: Vec::new(alloc),
    };
    for word in behind {
        if !parts.take(alloc, word.as_slice())? {
            return Ok(None);
        }
    }
    match keyword_of(alloc, criterion.as_slice(), parts.matching)? {
        Some(keyword) if !parts.values.is_empty() => joined(alloc, keyword, parts),
        _ => Ok(None),
    }
}

// Returns the words of a test, the keyword first.
fn joined(
    alloc: Global,
    keyword: Vec<u8>,
    parts: Parts,
) -> Result<Option<Vec<Vec<u8>>>, AllocError> {
    let Parts {
        matching: _,
        ignores_case,
        stage: _,
        values,
    } = parts;
    let of_method = keyword.as_slice() == b"method".as_slice();
    if of_method && ignores_case && !values.iter().all(|value| is_method(value.as_slice())) {
        return Ok(None);
    }
    let mut all = Vec::new(alloc);
    all.push(keyword)?;
    if ignores_case && !of_method {
        all.push(Vec::from_slice(alloc, b"-i")?)?;
    }
    for value in values {
        all.push(value)?;
    }
    Ok(Some(all))
}

// HAProxy compares the methods that it knows by their numbers, so it distinguishes upper and lower case.
fn is_method(value: &[u8]) -> bool {
    METHODS.iter().any(|name| value == name.as_bytes())
}

fn keyword_of(
    alloc: Global,
    criterion: &[u8],
    matching: &[u8],
) -> Result<Option<Vec<u8>>, AllocError> {
    let plain: &[u8] = match (criterion, matching) {
        (b"path", b"" | b"str") => b"path".as_slice(),
        (b"path", b"beg") | (b"path_beg", b"" | b"beg") => b"path_beg".as_slice(),
        (b"path", b"end") | (b"path_end", b"" | b"end") => b"path_end".as_slice(),
        (b"method", b"") => b"method".as_slice(),
        (_, b"" | b"str") => return field_of(alloc, criterion),
        _ => return Ok(None),
    };
    Ok(Some(Vec::from_slice(alloc, plain)?))
}

// `hdr(FIELD)`, which may have `req.` before it.
fn field_of(alloc: Global, criterion: &[u8]) -> Result<Option<Vec<u8>>, AllocError> {
    let test = criterion
        .strip_prefix(b"req.".as_slice())
        .unwrap_or(criterion);
    let is_whole = test.starts_with(b"hdr(".as_slice())
        && test.ends_with(b")".as_slice())
        && !test.contains(&b',');
    if is_whole {
        Ok(Some(Vec::from_slice(alloc, test)?))
    } else {
        Ok(None)
    }
}

/// A condition that is being translated.
#[derive(Drop)]
struct Condition {
    words: Vec<Vec<u8>>,
    /// The words of a test in braces, from the opening brace on.
    test: Option<Vec<Vec<u8>>>,
}

/// Translates a condition; `None` where the profile doesn't have it.
pub(crate) fn condition_of(
    alloc: Global,
    acls: &Acls,
    words: &[Vec<u8>],
) -> Result<Option<Vec<Vec<u8>>>, AllocError> {
    let mut condition = Condition {
        words: Vec::new(alloc),
        test: None,
    };
    for word in words {
        if !condition.take(alloc, acls, word.as_slice())? {
            return Ok(None);
        }
    }
    let Condition { words, test } = condition;
    if test.is_some() || words.is_empty() {
        Ok(None)
    } else {
        Ok(Some(words))
    }
}

impl Condition {
    // Takes a word. Says whether the profile allows it there.
    fn take(&mut self, alloc: Global, acls: &Acls, word: &[u8]) -> Result<bool, AllocError> {
        if self.test.is_some() {
            return self.take_in_braces(alloc, word);
        }
        match word {
            b"or" | b"||" | b"!" => {
                self.words.push(Vec::from_slice(alloc, word)?)?;
                Ok(true)
            }
            b"{" | b"!{" => {
                self.words.push(Vec::from_slice(alloc, word)?)?;
                self.test = Some(Vec::new(alloc));
                Ok(true)
            }
            _ => self.take_name(alloc, acls, word),
        }
    }

    fn take_in_braces(&mut self, alloc: Global, word: &[u8]) -> Result<bool, AllocError> {
        if word != b"}".as_slice() {
            if let Some(test) = &mut self.test {
                test.push(Vec::from_slice(alloc, word)?)?;
            }
            return Ok(true);
        }
        let words = self.test.take().unwrap_or(Vec::new(alloc));
        let Some(test) = test_of(alloc, &words)? else {
            return Ok(false);
        };
        for word in test {
            self.words.push(word)?;
        }
        self.words.push(Vec::from_slice(alloc, word)?)?;
        Ok(true)
    }

    fn take_name(&mut self, alloc: Global, acls: &Acls, word: &[u8]) -> Result<bool, AllocError> {
        let name = word.strip_prefix(b"!".as_slice()).unwrap_or(word);
        if name.len() < word.len() {
            self.words.push(Vec::from_slice(alloc, b"!")?)?;
        }
        if let Some(name) = acls.named(name) {
            self.words.push(Vec::from_slice(alloc, name)?)?;
            return Ok(true);
        }
        let Some(test) = predefined(name) else {
            return Ok(false);
        };
        for word in words_of(alloc, test)? {
            self.words.push(word)?;
        }
        Ok(true)
    }
}

// HAProxy's predefined ACLs, as far as the profile can express them.
fn predefined(name: &[u8]) -> Option<&'static [u8]> {
    match name {
        b"METH_GET" => Some(b"{ method GET HEAD }".as_slice()),
        b"METH_HEAD" => Some(b"{ method HEAD }".as_slice()),
        b"METH_POST" => Some(b"{ method POST }".as_slice()),
        b"METH_PUT" => Some(b"{ method PUT }".as_slice()),
        b"METH_DELETE" => Some(b"{ method DELETE }".as_slice()),
        b"METH_OPTIONS" => Some(b"{ method OPTIONS }".as_slice()),
        b"METH_TRACE" => Some(b"{ method TRACE }".as_slice()),
        _ => None,
    }
}
