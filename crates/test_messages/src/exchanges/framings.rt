use crate::assertions::same;
use relay_http::{Framing, Plan, answer_plan, request_framing};
use req_view::{Viewed, answer_head, view};

// heads of requests, and their framings
static OF_REQUESTS: [(&[u8], Option<Framing>); 20] = [
    (b"POST / HTTP/1.1\r\nHost: h\r\n\r\n", Some(Framing::Empty)),
    (
        b"POST / HTTP/1.1\r\nHost: h\r\nContent-Length: 3\r\n\r\n",
        Some(Framing::Length(3)),
    ),
    (
        b"POST / HTTP/1.1\r\nHost: h\r\ncontent-length: 003\r\n\r\n",
        Some(Framing::Length(3)),
    ),
    (
        b"POST / HTTP/1.1\r\nHost: h\r\nContent-Length: 5, 05\r\nContent-Length: 5\r\n\r\n",
        Some(Framing::Length(5)),
    ),
    (
        b"POST / HTTP/1.1\r\nHost: h\r\nContent-Length: 999999999999999999\r\n\r\n",
        Some(Framing::Length(999_999_999_999_999_999)),
    ),
    (
        b"POST / HTTP/1.1\r\nHost: h\r\nContent-Length: 1000000000000000000\r\n\r\n",
        None,
    ),
    (
        b"POST / HTTP/1.1\r\nHost: h\r\nContent-Length: 3\r\nContent-Length: 4\r\n\r\n",
        None,
    ),
    (
        b"POST / HTTP/1.1\r\nHost: h\r\nContent-Length: 3, 4\r\n\r\n",
        None,
    ),
    (
        b"POST / HTTP/1.1\r\nHost: h\r\nContent-Length: +3\r\n\r\n",
        None,
    ),
    (
        b"POST / HTTP/1.1\r\nHost: h\r\nContent-Length: -3\r\n\r\n",
        None,
    ),
    (
        b"POST / HTTP/1.1\r\nHost: h\r\nContent-Length: 3 3\r\n\r\n",
        None,
    ),
    (
        b"POST / HTTP/1.1\r\nHost: h\r\nContent-Length: 0x3\r\n\r\n",
        None,
    ),
    (
        b"POST / HTTP/1.1\r\nHost: h\r\nContent-Length:\r\n\r\n",
        None,
    ),
    (
        b"POST / HTTP/1.1\r\nHost: h\r\nContent-Length: 3,\r\n\r\n",
        None,
    ),
    (
        b"POST / HTTP/1.1\r\nHost: h\r\nTransfer-Encoding: chunked\r\n\r\n",
        Some(Framing::Chunked),
    ),
    (
        b"POST / HTTP/1.1\r\nHost: h\r\ntransfer-encoding: \t CHUNKED \r\n\r\n",
        Some(Framing::Chunked),
    ),
    (
        b"POST / HTTP/1.1\r\nHost: h\r\nTransfer-Encoding: chunked\r\nContent-Length: 3\r\n\r\n",
        None,
    ),
    (
        b"POST / HTTP/1.1\r\nHost: h\r\nContent-Length: 3\r\nTransfer-Encoding: chunked\r\n\r\n",
        None,
    ),
    (
        b"POST / HTTP/1.1\r\nHost: h\r\nTransfer-Encoding: chunked\r\nTransfer-Encoding: chunked\r\n\r\n",
        None,
    ),
    (
        b"POST / HTTP/1.1\r\nHost: h\r\nTransfer-Encoding: gzip, chunked\r\n\r\n",
        None,
    ),
];

#[test]
fn framings_of_requests(rt: HostRuntime) {
    for (number, (head, expected)) in OF_REQUESTS.iter().enumerate() {
        let Viewed::Whole(view, _) = view(rt.alloc(), head) else {
            panic!(rt; "no head");
        };
        let framing = request_framing(&view);
        same(&rt, (number, framing), (number, *expected), "a row");
    }
}

/// A request's method, the head of an answer to it, and the plan for the answer.
type PlanRow = (&'static [u8], &'static [u8], Option<Plan>);

static PLANS: [PlanRow; 14] = [
    (
        b"GET",
        b"HTTP/1.1 200 OK\r\n\r\n",
        Some(Plan {
            body: Framing::ToEnd,
            stated: Framing::ToEnd,
        }),
    ),
    (
        b"GET",
        b"HTTP/1.1 200 OK\r\nContent-Length: 3\r\n\r\n",
        Some(Plan {
            body: Framing::Length(3),
            stated: Framing::Length(3),
        }),
    ),
    (
        b"GET",
        b"HTTP/1.1 200 OK\r\nTransfer-Encoding: chunked\r\n\r\n",
        Some(Plan {
            body: Framing::Chunked,
            stated: Framing::Chunked,
        }),
    ),
    (
        b"GET",
        b"HTTP/1.0 200 OK\r\nTransfer-Encoding: chunked\r\n\r\n",
        None,
    ),
    (
        b"GET",
        b"HTTP/1.1 200 OK\r\nContent-Length: 3\r\nTransfer-Encoding: chunked\r\n\r\n",
        None,
    ),
    // by their status
    (
        b"GET",
        b"HTTP/1.1 304 No\r\nContent-Length: 5\r\n\r\n",
        Some(Plan {
            body: Framing::Empty,
            stated: Framing::Length(5),
        }),
    ),
    (
        b"GET",
        b"HTTP/1.1 204 No\r\nContent-Length: x\r\n\r\n",
        Some(Plan {
            body: Framing::Empty,
            stated: Framing::Empty,
        }),
    ),
    (
        b"GET",
        b"HTTP/1.1 103 X\r\nContent-Length: 5\r\n\r\n",
        Some(Plan {
            body: Framing::Empty,
            stated: Framing::Empty,
        }),
    ),
    (b"GET", b"HTTP/1.1 101 X\r\n\r\n", None),
    // answers to HEAD
    (
        b"HEAD",
        b"HTTP/1.0 204 OK\r\nTransfer-Encoding: x\r\n\r\n",
        None,
    ),
    (
        b"HEAD",
        b"HTTP/1.1 200 OK\r\nTransfer-Encoding: chunked\r\n\r\n",
        Some(Plan {
            body: Framing::Empty,
            stated: Framing::Empty,
        }),
    ),
    (
        b"HEAD",
        b"HTTP/1.1 200 OK\r\nContent-Length: 7\r\n\r\n",
        Some(Plan {
            body: Framing::Empty,
            stated: Framing::Length(7),
        }),
    ),
    (
        b"HEAD",
        b"HTTP/1.1 200 OK\r\nContent-Length: x\r\n\r\n",
        None,
    ),
    // Methods are case-sensitive.
    (
        b"head",
        b"HTTP/1.1 200 OK\r\nContent-Length: 7\r\n\r\n",
        Some(Plan {
            body: Framing::Length(7),
            stated: Framing::Length(7),
        }),
    ),
];

#[test]
fn plans_of_answers(rt: HostRuntime) {
    for (number, (method, head, expected)) in PLANS.iter().enumerate() {
        let Viewed::Whole(head, _) = answer_head(rt.alloc(), head) else {
            panic!(rt; "no head");
        };
        let plan = answer_plan(method, &head);
        same(&rt, (number, plan), (number, *expected), "a row");
    }
}
