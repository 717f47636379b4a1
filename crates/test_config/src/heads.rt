//! Tests of the heads of requests and answers.

mod answers;
mod fields;
mod long;
mod parts;
mod refused;

use req_view::{HeadRefusal, View, Viewed, view};
use std::alloc::Global;

/// What the reader makes of bytes: for a whole head its length and its number of fields.
enum Seen {
    Refused,
    More,
    Whole { length: usize, fields: usize },
}

fn is_seen(viewed: &Viewed<View>, expected: &Seen) -> bool {
    match (viewed, expected) {
        (Viewed::Refused(HeadRefusal::HeadFault), Seen::Refused) => true,
        (Viewed::More, Seen::More) => true,
        (Viewed::Whole(head, len), Seen::Whole { length, fields }) => {
            *len == *length && head.field_count() == *fields
        }
        _ => false,
    }
}

// Says whether the reader makes this of the bytes. An explicit `drop` is proved faster than the
// drop at the end of the function.
fn sees(alloc: Global, bytes: &[u8], expected: &Seen) -> bool {
    let viewed = view(alloc, bytes);
    let so = is_seen(&viewed, expected);
    drop(viewed);
    so
}
