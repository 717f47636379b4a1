use super::fields::{Named, is_field};
use crate::assertions::holds;
use req_view::{Version, View, Viewed, view};
use std::alloc::Global;
use std::process::Abort;

/// A request's bytes, and the length and the parts of its head.
struct Head {
    text: &'static str,
    length: usize,
    method: &'static [u8],
    target: &'static [u8],
    path: Option<&'static [u8]>,
    version: Version,
    fields: &'static [Named],
}

static HEADS: [Head; 12] = [
    Head {
        text: "\r\nPOST /a?b HTTP/1.1\r\nhOST: h\r\nX-Due: \t5, 70 \r\n\nbody",
        length: 48,
        method: b"POST",
        target: b"/a?b",
        path: Some(b"/a"),
        version: Version::Http11,
        fields: &[(b"hOST", b"h"), (b"X-Due", b"5, 70")],
    },
    Head {
        text: "GET / HTTP/1.1\r\nHost: h\r\n\r\n",
        length: 27,
        method: b"GET",
        target: b"/",
        path: Some(b"/"),
        version: Version::Http11,
        fields: &[(b"Host", b"h")],
    },
    // HTTP/1.0 needs no `Host` field, and an empty one counts as one.
    Head {
        text: "GET / HTTP/1.0\r\n\r\n",
        length: 18,
        method: b"GET",
        target: b"/",
        path: Some(b"/"),
        version: Version::Http10,
        fields: &[],
    },
    Head {
        text: "GET / HTTP/1.0\r\nHost:\r\n\r\n",
        length: 25,
        method: b"GET",
        target: b"/",
        path: Some(b"/"),
        version: Version::Http10,
        fields: &[(b"Host", b"")],
    },
    // Methods are case-sensitive.
    Head {
        text: "connect h:1 HTTP/1.1\r\nHost: h\r\n\r\n",
        length: 33,
        method: b"connect",
        target: b"h:1",
        path: None,
        version: Version::Http11,
        fields: &[(b"Host", b"h")],
    },
    // The paths of targets in absolute form, with and without a path.
    Head {
        text: "GET http://h/a?b HTTP/1.0\r\n\r\n",
        length: 29,
        method: b"GET",
        target: b"http://h/a?b",
        path: Some(b"/a"),
        version: Version::Http10,
        fields: &[],
    },
    Head {
        text: "GET https://h/a/?b/c HTTP/1.0\r\n\r\n",
        length: 33,
        method: b"GET",
        target: b"https://h/a/?b/c",
        path: Some(b"/a/"),
        version: Version::Http10,
        fields: &[],
    },
    Head {
        text: "GET http://h?b/c HTTP/1.0\r\n\r\n",
        length: 29,
        method: b"GET",
        target: b"http://h?b/c",
        path: Some(b""),
        version: Version::Http10,
        fields: &[],
    },
    Head {
        text: "GET http://h HTTP/1.0\r\n\r\n",
        length: 25,
        method: b"GET",
        target: b"http://h",
        path: Some(b""),
        version: Version::Http10,
        fields: &[],
    },
    Head {
        text: "GET /?/a HTTP/1.0\r\n\r\n",
        length: 21,
        method: b"GET",
        target: b"/?/a",
        path: Some(b"/"),
        version: Version::Http10,
        fields: &[],
    },
    Head {
        text: "OPTIONS * HTTP/1.0\r\n\r\n",
        length: 22,
        method: b"OPTIONS",
        target: b"*",
        path: None,
        version: Version::Http10,
        fields: &[],
    },
    Head {
        text: "GET HTTP://h/a HTTP/1.0\r\n\r\n",
        length: 27,
        method: b"GET",
        target: b"HTTP://h/a",
        path: None,
        version: Version::Http10,
        fields: &[],
    },
];

fn has_line(rt: &impl Abort, head: &View, row: &Head) {
    holds(rt, head.method() == row.method, "method", row.text);
    holds(rt, head.target() == row.target, "target", row.text);
    holds(rt, head.path() == row.path, "path", row.text);
    holds(rt, head.version() == row.version, "version", row.text);
}

fn has_fields(rt: &impl Abort, head: &View, row: &Head) {
    let count = row.fields.len();
    holds(rt, head.field_count() == count, "fields", row.text);
    for (i, named) in row.fields.iter().enumerate() {
        is_field(rt, head.field(i), named, row.text);
    }
    holds(rt, head.field(count).is_none(), "no field", row.text);
}

fn tells_its_parts(rt: &impl Abort, alloc: Global, row: &Head) {
    let Viewed::Whole(head, length) = view(alloc, row.text.as_bytes()) else {
        panic!(rt; "no head: {}", row.text);
    };
    holds(rt, length == row.length, "length", row.text);
    has_line(rt, &head, row);
    has_fields(rt, &head, row);
    drop(head);
}

#[test]
fn a_whole_head_tells_its_parts(rt: HostRuntime) {
    for row in &HEADS {
        tells_its_parts(&rt, rt.alloc(), row);
    }
}
