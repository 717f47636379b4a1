//! Texts that are put together from pieces.

use crate::assertions::holds;
use std::alloc::Global;
use std::process::Abort;

/// Joins the pieces.
pub fn joined(rt: &impl Abort, alloc: Global, pieces: &[&str]) -> Vec<u8> {
    let mut text = Vec::new(alloc);
    for piece in pieces {
        push_often(rt, &mut text, piece, 1);
    }
    text
}

/// Appends the piece to the text this many times.
pub fn push_often(rt: &impl Abort, text: &mut Vec<u8>, piece: &str, times: usize) {
    for _ in 0..times {
        text.extend_from_slice(piece.as_bytes())
            .expect(rt, "memory");
    }
}

/// Fails the test where the shown text isn't the expected one. An explicit `drop` is proved faster
/// than the drop at the end.
pub fn reads(rt: &impl Abort, shown: String, table: &str, expected: &str) {
    let so = shown.as_str() == expected;
    drop(shown);
    holds(rt, so, table, expected);
}
