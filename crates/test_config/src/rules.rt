//! Tests from the bytes of a configuration and of a request's head to the wish.

use crate::assertions::holds;
use crate::texts::joined;
use due_key::{Class, Offset};
use prio_rules::{Wish, decide};
use proxy_config::{Config, read};
use req_view::{Viewed, view};
use std::alloc::Global;
use std::process::Abort;

/// A request's first line and fields, and its wish.
struct Expected {
    line: &'static str,
    fields: &'static str,
    class: i64,
    offset: i64,
    pin: Option<usize>,
}

/// The wishes under a configuration of the servers a, b and c with these lines.
struct Case {
    name: &'static str,
    lines: &'static str,
    rows: &'static [Expected],
}

static CASES: [Case; 8] = [
    Case {
        name: "the sample",
        lines: "\
http-request set-priority-class int(-9999)\n\
http-request set-priority-offset req.hdr_val(x-due) if { path_beg /a }\n\
acl slow hdr(x-t) slow\n\
use-server b if slow or { method POST }\n",
        rows: &[
            Expected {
                line: "GET /a?b",
                fields: "X-Due: 5, 70\r\nX-T: fast , slow\r\n",
                class: -2047,
                offset: 70,
                pin: Some(1),
            },
            Expected {
                line: "GET /a?b",
                fields: "X-Due: 5, abc\r\nX-T: fast , slow\r\n",
                class: -2047,
                offset: 0,
                pin: Some(1),
            },
            Expected {
                line: "POST /b",
                fields: "X-Due: 5\r\n",
                class: -2047,
                offset: 0,
                pin: Some(1),
            },
            Expected {
                line: "post /b",
                fields: "",
                class: -2047,
                offset: 0,
                pin: None,
            },
        ],
    },
    Case {
        name: "no rule wishes nothing",
        lines: "",
        rows: &[Expected {
            line: "GET /",
            fields: "",
            class: 0,
            offset: 0,
            pin: None,
        }],
    },
    Case {
        name: "paths end before the query",
        lines: "\
use-server b if { path /a }\n\
use-server c if { path_end ? b }\n",
        rows: &[
            Expected {
                line: "GET /a?b",
                fields: "",
                class: 0,
                offset: 0,
                pin: Some(1),
            },
            Expected {
                line: "GET http://h/a?b",
                fields: "",
                class: 0,
                offset: 0,
                pin: Some(1),
            },
            Expected {
                line: "GET /c?b",
                fields: "",
                class: 0,
                offset: 0,
                pin: None,
            },
            Expected {
                line: "GET /b",
                fields: "",
                class: 0,
                offset: 0,
                pin: Some(2),
            },
        ],
    },
    Case {
        name: "where there is no path",
        lines: "\
use-server b if { path_beg * } or { path_end * } or { path * }\n\
use-server c if ! { path_beg / }\n",
        rows: &[
            Expected {
                line: "OPTIONS *",
                fields: "",
                class: 0,
                offset: 0,
                pin: Some(2),
            },
            Expected {
                line: "GET /",
                fields: "",
                class: 0,
                offset: 0,
                pin: None,
            },
        ],
    },
    Case {
        name: "each field of a name counts",
        lines: "\
http-request set-priority-offset req.hdr_val(x-due)\n\
use-server b if { hdr(x-t) slow }\n",
        rows: &[
            Expected {
                line: "GET /",
                fields: "x-due: 5, 6\r\nX-T: fast\r\nX-DUE: 7,-8\r\nx-t: a,slow ,b\r\n",
                class: 0,
                offset: -8,
                pin: Some(1),
            },
            Expected {
                line: "GET /",
                fields: "x-due: 5\r\nX-T: slow b\r\nx-due: 7,\r\n",
                class: 0,
                offset: 0,
                pin: None,
            },
        ],
    },
    Case {
        name: "letters in either case",
        lines: "\
use-server b if { method -i get } { path_beg -i /AB } { path_end -i .JPG }\n\
use-server c if { method get }\n",
        rows: &[
            Expected {
                line: "GET /ab/c.jpg",
                fields: "",
                class: 0,
                offset: 0,
                pin: Some(1),
            },
            Expected {
                line: "GET /ab/c.gif",
                fields: "",
                class: 0,
                offset: 0,
                pin: None,
            },
            Expected {
                line: "get /",
                fields: "",
                class: 0,
                offset: 0,
                pin: Some(2),
            },
        ],
    },
    Case {
        name: "unless reverses the whole",
        lines: "\
acl a path_beg /a\n\
acl b path_end b\n\
use-server b unless a b or { method POST }\n",
        rows: &[
            Expected {
                line: "GET /a/b",
                fields: "",
                class: 0,
                offset: 0,
                pin: None,
            },
            Expected {
                line: "GET /a/c",
                fields: "",
                class: 0,
                offset: 0,
                pin: Some(1),
            },
            Expected {
                line: "POST /c",
                fields: "",
                class: 0,
                offset: 0,
                pin: None,
            },
        ],
    },
    Case {
        name: "the last action and the first pin stand",
        lines: "\
http-request set-priority-class int(3)\n\
http-request set-priority-class int(4) if { method GET }\n\
http-request set-priority-class int(5) if { method POST }\n\
http-request set-priority-class req.hdr_val(x-class)\n\
http-request set-priority-offset int(600000)\n\
use-server c if { method POST }\n\
use-server b if { path_beg / }\n\
use-server a if { path_beg / }\n",
        rows: &[
            Expected {
                line: "GET /",
                fields: "x-class: 7x\r\n",
                class: 4,
                offset: 524_287,
                pin: Some(1),
            },
            Expected {
                line: "POST /",
                fields: "x-class: -0000000000000000006\r\n",
                class: 5,
                offset: 524_287,
                pin: Some(2),
            },
            Expected {
                line: "POST /",
                fields: "x-class: -000000000000000006\r\n",
                class: -6,
                offset: 524_287,
                pin: Some(2),
            },
        ],
    },
];

const SERVERS: &str = "listen front\nbind :80\n\
server a 127.0.0.1:1\nserver b 127.0.0.1:2\nserver c 127.0.0.1:3\n";

fn wishes(rt: &impl Abort, alloc: Global, name: &str, config: &Config, row: &Expected) {
    let pieces = [row.line, " HTTP/1.1\r\nHost: h\r\n", row.fields, "\r\n"];
    let text = joined(rt, alloc, &pieces);
    let Viewed::Whole(head, _) = view(alloc, &text) else {
        panic!(rt; "not a head");
    };
    drop(text);
    let wish = Wish {
        class: Class::clamp(row.class),
        offset: Offset::clamp(row.offset),
        pin: row.pin,
    };
    let so = decide(config, &head) == wish;
    drop(head);
    holds(rt, so, name, row.line);
}

fn wishes_each(rt: &impl Abort, alloc: Global, case: &Case) {
    let text = joined(rt, alloc, &[SERVERS, case.lines]);
    let config = read(alloc, &text).expect(rt, case.name);
    drop(text);
    for row in case.rows {
        wishes(rt, alloc, case.name, &config, row);
    }
    drop(config);
}

#[test]
fn a_request_gets_the_wish_of_the_rules(rt: HostRuntime) {
    for case in &CASES {
        wishes_each(&rt, rt.alloc(), case);
    }
}
