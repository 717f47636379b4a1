//! Rules: classes, offsets and pins.

use crate::acls::Acls;
use crate::conditions::condition_of;
use crate::lines::{Line, copied};
use std::alloc::{AllocError, Global};

/// Translates an `http-request` rule; `None` where the profile doesn't have it.
pub(crate) fn rule_of(
    alloc: Global,
    acls: &Acls,
    line: &Line,
) -> Result<Option<Vec<Vec<u8>>>, AllocError> {
    let is_there = matches!(line.word(1), b"set-priority-class" | b"set-priority-offset");
    if line.is_odd || !is_there {
        return Ok(None);
    }
    let Some(expression) = expression_of(alloc, line.word(2))? else {
        return Ok(None);
    };
    let Some(guard) = guard_of(alloc, acls, line.behind(3))? else {
        return Ok(None);
    };
    let mut words = copied(alloc, line.words.get(..2).unwrap_or(&[]))?;
    words.push(expression)?;
    for word in guard {
        words.push(word)?;
    }
    Ok(Some(words))
}

// Translates `int(N)` or `req.hdr_val(FIELD)`, which HAProxy also writes as `hdr_val(FIELD)`.
fn expression_of(alloc: Global, word: &[u8]) -> Result<Option<Vec<u8>>, AllocError> {
    let whole = word.ends_with(b")".as_slice()) && !word.contains(&b',');
    let short = word.starts_with(b"hdr_val(".as_slice());
    let known = word.starts_with(b"int(".as_slice())
        || word.starts_with(b"req.hdr_val(".as_slice());
    if !whole || !short && !known {
        return Ok(None);
    }
    let mut text = Vec::from_slice(
        alloc,
        if short {
            b"req.".as_slice()
        } else {
            b"".as_slice()
        },
    )?;
    text.extend_from_slice(word)?;
    Ok(Some(text))
}

/// Translates `if` or `unless` with its condition, or nothing.
pub(crate) fn guard_of(
    alloc: Global,
    acls: &Acls,
    words: &[Vec<u8>],
) -> Result<Option<Vec<Vec<u8>>>, AllocError> {
    let Some((first, behind)) = words.split_first() else {
        return Ok(Some(Vec::new(alloc)));
    };
    if !matches!(first.as_slice(), b"if" | b"unless") {
        return Ok(None);
    }
    let Some(condition) = condition_of(alloc, acls, behind)? else {
        return Ok(None);
    };
    let mut all = Vec::new(alloc);
    all.push(Vec::from_slice(alloc, first.as_slice())?)?;
    for word in condition {
        all.push(word)?;
    }
    Ok(Some(all))
}
