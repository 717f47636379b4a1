use super::{Seen, is_seen, sees};
use crate::assertions::holds;
use req_view::{HeadRefusal, View, Viewed, view};
use std::alloc::Global;
use std::process::Abort;

type TextRow = (&'static str, Seen);

static NO_HEADS: [TextRow; 10] = [
    ("GET  / HTTP/1.1\r\n", Seen::Refused),
    ("GET / HTTP/2.0\r\n", Seen::Refused),
    ("GET / HTTP/1.1\r\nHost : h\r\n", Seen::Refused),
    ("GET / HTTP/1.1\r\n a: b\r\n", Seen::Refused),
    ("", Seen::More),
    // The number of `Host` fields must suit the version.
    ("GET / HTTP/1.1\r\n\r\n", Seen::Refused),
    (
        "GET / HTTP/1.1\r\nHost: h\r\nHOST: h\r\n\r\n",
        Seen::Refused,
    ),
    (
        "GET / HTTP/1.0\r\nHost: h\r\nHost: g\r\n\r\n",
        Seen::Refused,
    ),
    // `CONNECT` is refused.
    ("CONNECT h:1 HTTP/1.1\r\nHost: h\r\n\r\n", Seen::Refused),
    // A target has no fragment.
    (
        "GET /secret.html#.png HTTP/1.1\r\nHost: h\r\n\r\n",
        Seen::Refused,
    ),
];

#[test]
fn what_is_no_head(rt: HostRuntime) {
    for (text, seen) in &NO_HEADS {
        let so = sees(rt.alloc(), text.as_bytes(), seen);
        holds(&rt, so, "no head", text);
    }
}

const PLAIN: &[u8] = b"GET / HTTP/1.1\r\nHost: h\r\n\r\n";

const PLAIN_SEEN: Seen = Seen::Whole {
    length: 27,
    fields: 1,
};

fn waits_for_the_rest(rt: &impl Abort, alloc: Global, front: &[u8], back: &[u8]) {
    let mut bytes = Vec::from_slice(alloc, front).expect(rt, "memory");
    let waits = sees(alloc, &bytes, &Seen::More);
    holds(rt, waits, "a prefix", "waits");
    bytes.extend_from_slice(back).expect(rt, "memory");
    bytes.extend_from_slice(b"rest").expect(rt, "memory");
    let seen = sees(alloc, &bytes, &PLAIN_SEEN);
    drop(bytes);
    holds(rt, seen, "two pieces", "are whole");
}

#[test]
fn each_prefix_waits_and_two_pieces_say_the_same(rt: HostRuntime) {
    for end in 0..PLAIN.len() {
        waits_for_the_rest(&rt, rt.alloc(), &PLAIN[..end], &PLAIN[end..]);
    }
}

const DUE: &[u8] = b"GET / HTTP/1.1\r\nHost: h\r\nX-Due: 5\r\nX-Due: 6\r\nX-T: a\r\n\r\n";

const DUE_SEEN: Seen = Seen::Whole {
    length: DUE.len(),
    fields: 4,
};

fn seen_in_the_end(alloc: Global) -> Viewed<View> {
    match view(alloc, DUE) {
        Viewed::Refused(HeadRefusal::NoMemory) => view(alloc, DUE),
        seen => seen,
    }
}

// The test succeeds whichever single allocation is refused.
#[test]
fn a_refused_growth_is_want_of_memory(rt: HostRuntime) {
    let seen = seen_in_the_end(rt.alloc());
    let so = is_seen(&seen, &DUE_SEEN);
    drop(seen);
    holds(&rt, so, "a head", "in the end");
}
