use super::{Seen, sees};
use crate::assertions::holds;
use crate::texts::{joined, push_often};
use req_view::{HEAD_BYTES, HEAD_FIELDS};
use std::alloc::Global;
use std::process::Abort;

/// A head with a piece that is repeated this many times, of which only this number of bytes is kept.
struct LongHead {
    name: &'static str,
    front: &'static str,
    piece: &'static str,
    times: usize,
    end: &'static str,
    kept: usize,
    seen: Seen,
}

const FIELDS_BEGIN: &str = "GET / HTTP/1.1\r\nHost: h\r\n";

/// With the empty line it has 31 bytes.
const VALUE_BEGINS: &str = "GET / HTTP/1.1\r\nHost: h\r\na:";

static LONG_HEADS: [LongHead; 6] = [
    LongHead {
        name: "sixty-four fields",
        front: FIELDS_BEGIN,
        piece: "a: b\r\n",
        times: HEAD_FIELDS - 1,
        end: "\r\n",
        kept: 405,
        seen: Seen::Whole {
            length: 405,
            fields: 64,
        },
    },
    LongHead {
        name: "sixty-five fields",
        front: FIELDS_BEGIN,
        piece: "a: b\r\n",
        times: HEAD_FIELDS,
        end: "\r\n",
        kept: 411,
        seen: Seen::Refused,
    },
    LongHead {
        name: "the largest head",
        front: VALUE_BEGINS,
        piece: "x",
        times: HEAD_BYTES - 31,
        end: "\r\n\r\n",
        kept: 16_384,
        seen: Seen::Whole {
            length: 16_384,
            fields: 2,
        },
    },
    LongHead {
        name: "the largest head but its last byte",
        front: VALUE_BEGINS,
        piece: "x",
        times: HEAD_BYTES - 31,
        end: "\r\n\r\n",
        kept: HEAD_BYTES - 1,
        seen: Seen::More,
    },
    LongHead {
        name: "a head that is too large",
        front: VALUE_BEGINS,
        piece: "x",
        times: HEAD_BYTES - 30,
        end: "\r\n\r\n",
        kept: 16_385,
        seen: Seen::Refused,
    },
    LongHead {
        name: "a head that is too large but its last byte",
        front: VALUE_BEGINS,
        piece: "x",
        times: HEAD_BYTES - 30,
        end: "\r\n\r\n",
        kept: HEAD_BYTES,
        seen: Seen::Refused,
    },
];

fn has_its_length(rt: &impl Abort, alloc: Global, row: &LongHead) {
    let mut text = joined(rt, alloc, &[row.front]);
    push_often(rt, &mut text, row.piece, row.times);
    push_often(rt, &mut text, row.end, 1);
    text.truncate(row.kept);
    let bytes = text.len();
    let so = sees(alloc, &text, &row.seen);
    drop(text);
    holds(rt, bytes == row.kept, row.name, "its bytes");
    holds(rt, so, row.name, "what is seen");
}

#[test]
fn the_largest_heads(rt: HostRuntime) {
    for row in &LONG_HEADS {
        has_its_length(&rt, rt.alloc(), row);
    }
}
