//! Tests of requests one after another on a client's connection, each cut in many ways.

use crate::exchanges::{BAD, GET, HI, Row, first_fault};
use crate::playing::{Move, Stage};
use std::test::Fail;

const OLD: &[u8] = b"GET /a HTTP/1.0\r\nHost: h\r\n\r\n";

const OLD_KEPT: &[u8] = b"GET /a HTTP/1.0\r\nHost: h\r\nConnection: Keep-Alive\r\n\r\n";

// requests that came one after the other, and their answers
static CHAINS: [Row; 8] = [
    Row {
        name: "two requests in one piece",
        moves: &[
            Move::Silent(true),
            Move::Client(b"GET /a HTTP/1.1\r\nHost: h\r\n\r\nGET /b HTTP/1.1\r\nHost: h\r\n\r\n"),
            Move::Silent(false),
            Move::Barred,
            Move::Grant,
            Move::Connected(true),
            Move::Barred,
            Move::Server(HI),
            Move::Answered(true),
            Move::Again,
            Move::Answered(false),
            Move::Grant,
            Move::Connected(true),
            Move::Server(b"HTTP/1.1 200 OK\r\nContent-Length: 3\r\n\r\nyes"),
            Move::Answered(true),
            Move::Again,
            Move::Silent(true),
        ],
        aborts: false,
        sent: b"GET /a HTTP/1.1\r\nHost: h\r\n\r\nGET /b HTTP/1.1\r\nHost: h\r\n\r\n",
        told: b"HTTP/1.1 200 OK\r\nContent-Length: 2\r\n\r\nhiHTTP/1.1 200 OK\r\nContent-Length: 3\r\n\r\nyes",
        counts: (2, 0, 0),
        stage: Stage::Asking,
    },
    Row {
        name: "three requests in one piece, the first two with a body",
        moves: &[
            Move::Client(
                b"POST /a HTTP/1.1\r\nHost: h\r\nContent-Length: 2\r\n\r\nabPOST /b HTTP/1.1\r\nHost: h\r\nTransfer-Encoding: chunked\r\n\r\n2\r\ncd\r\n0\r\n\r\nGET /a HTTP/1.1\r\nHost: h\r\n\r\n",
            ),
            Move::Grant,
            Move::Used(false),
            Move::Connected(true),
            Move::Server(HI),
            Move::Clean(false),
            Move::Again,
            Move::Grant,
            Move::Connected(true),
            Move::Server(
                b"HTTP/1.1 200 OK\r\nTransfer-Encoding: chunked\r\n\r\n2\r\nhi\r\n0\r\n\r\n",
            ),
            Move::Again,
            Move::Clean(false),
            Move::Used(false),
            Move::Grant,
            Move::Used(true),
            Move::Connected(true),
            Move::Server(HI),
        ],
        aborts: false,
        sent: b"POST /a HTTP/1.1\r\nHost: h\r\nContent-Length: 2\r\n\r\nabPOST /b HTTP/1.1\r\nHost: h\r\nTransfer-Encoding: chunked\r\n\r\n2\r\ncd\r\n0\r\n\r\nGET /a HTTP/1.1\r\nHost: h\r\n\r\n",
        told: b"HTTP/1.1 200 OK\r\nContent-Length: 2\r\n\r\nhiHTTP/1.1 200 OK\r\nTransfer-Encoding: chunked\r\n\r\n2\r\nhi\r\n0\r\n\r\nHTTP/1.1 200 OK\r\nContent-Length: 2\r\n\r\nhi",
        counts: (3, 0, 0),
        stage: Stage::Settling,
    },
    Row {
        name: "a server that says close, to a client that stays",
        moves: &[
            Move::Client(GET),
            Move::Grant,
            Move::Connected(true),
            Move::Server(b"HTTP/1.1 200 OK\r\nContent-Length: 2\r\nConnection: close\r\n\r\nhi"),
            Move::Clean(false),
            Move::Again,
        ],
        aborts: false,
        sent: GET,
        told: HI,
        counts: (1, 0, 0),
        stage: Stage::Asking,
    },
    Row {
        name: "an old client that asks to stay, twice",
        moves: &[
            Move::Client(OLD_KEPT),
            Move::Grant,
            Move::Connected(true),
            Move::Server(HI),
            Move::Again,
            Move::Silent(true),
            Move::Client(OLD),
            Move::Grant,
            Move::Connected(true),
            Move::Server(HI),
            Move::Answered(true),
            Move::Barred,
        ],
        aborts: false,
        sent: b"GET /a HTTP/1.1\r\nHost: h\r\n\r\nGET /a HTTP/1.1\r\nHost: h\r\n\r\n",
        told: b"HTTP/1.1 200 OK\r\nContent-Length: 2\r\nConnection: keep-alive\r\n\r\nhiHTTP/1.1 200 OK\r\nContent-Length: 2\r\nConnection: close\r\n\r\nhi",
        counts: (2, 0, 0),
        stage: Stage::Leaving,
    },
    Row {
        name: "a server is told whose request it is, and another isn't",
        moves: &[
            Move::Client(
                b"POST /a HTTP/1.1\r\nX-Forwarded-For: 10.0.0.1\r\nHost: h\r\nContent-Length: 2\r\n\r\nabGET /a HTTP/1.1\r\nHost: h\r\n\r\n",
            ),
            Move::Grant,
            Move::Named([192, 0, 2, 7]),
            Move::Server(HI),
            Move::Again,
            Move::Grant,
            Move::Connected(true),
            Move::Server(HI),
        ],
        aborts: false,
        sent: b"POST /a HTTP/1.1\r\nX-Forwarded-For: 10.0.0.1\r\nHost: h\r\nX-Forwarded-For: 192.0.2.7\r\nContent-Length: 2\r\n\r\nabGET /a HTTP/1.1\r\nHost: h\r\n\r\n",
        told: b"HTTP/1.1 200 OK\r\nContent-Length: 2\r\n\r\nhiHTTP/1.1 200 OK\r\nContent-Length: 2\r\n\r\nhi",
        counts: (2, 0, 0),
        stage: Stage::Settling,
    },
    Row {
        name: "a request that is none is refused, and is the last",
        moves: &[
            Move::Client(
                b"GET /a HTTP/1.1\r\nHost: h\r\n\r\nGET\r\n\r\nGET /b HTTP/1.1\r\nHost: h\r\n\r\n",
            ),
            Move::Grant,
            Move::Connected(true),
            Move::Server(HI),
            Move::Again,
            Move::Barred,
            Move::Answered(false),
        ],
        aborts: false,
        sent: GET,
        told: b"HTTP/1.1 200 OK\r\nContent-Length: 2\r\n\r\nhiHTTP/1.1 400 Bad Request\r\nContent-Length: 0\r\nConnection: close\r\n\r\n",
        counts: (1, 0, 0),
        stage: Stage::Telling,
    },
    Row {
        name: "a request whose length isn't certain is refused, and is the last",
        moves: &[
            Move::Client(
                b"GET /a HTTP/1.1\r\nHost: h\r\n\r\nPOST /b HTTP/1.1\r\nHost: h\r\nContent-Length: x\r\n\r\n",
            ),
            Move::Grant,
            Move::Connected(true),
            Move::Server(HI),
            Move::Again,
            Move::Barred,
            Move::Answered(false),
        ],
        aborts: false,
        sent: GET,
        told: b"HTTP/1.1 200 OK\r\nContent-Length: 2\r\n\r\nhiHTTP/1.1 400 Bad Request\r\nContent-Length: 0\r\nConnection: close\r\n\r\n",
        counts: (1, 0, 0),
        stage: Stage::Telling,
    },
    Row {
        name: "a refusal for want of a pass is the last",
        moves: &[
            Move::Client(b"GET /a HTTP/1.1\r\nHost: h\r\n\r\nGET /b HTTP/1.1\r\nHost: h\r\n\r\n"),
            Move::Grant,
            Move::Connected(true),
            Move::Server(HI),
            Move::Again,
            Move::Unserved,
            Move::Barred,
            Move::Answered(false),
        ],
        aborts: false,
        sent: GET,
        told: b"HTTP/1.1 200 OK\r\nContent-Length: 2\r\n\r\nhiHTTP/1.1 503 Service Unavailable\r\nContent-Length: 0\r\nConnection: close\r\n\r\n",
        counts: (1, 0, 0),
        stage: Stage::Telling,
    },
];

// exchanges after which the client may not ask again
static LAST: [Row; 8] = [
    Row {
        name: "a client that says close",
        moves: &[
            Move::Client(b"GET /a HTTP/1.1\r\nHost: h\r\nConnection: close\r\n\r\n"),
            Move::Grant,
            Move::Connected(true),
            Move::Server(HI),
            Move::Answered(true),
            Move::Clean(true),
            Move::Barred,
        ],
        aborts: false,
        sent: GET,
        told: b"HTTP/1.1 200 OK\r\nContent-Length: 2\r\nConnection: close\r\n\r\nhi",
        counts: (1, 0, 0),
        stage: Stage::Leaving,
    },
    Row {
        name: "a client that says close, and a server that took nothing",
        moves: &[
            Move::Client(b"GET /a HTTP/1.1\r\nHost: h\r\nConnection: close\r\n\r\n"),
            Move::Grant,
            Move::Hold,
            Move::Connected(true),
            Move::Server(HI),
            Move::Answered(true),
            Move::Clean(false),
            Move::Barred,
        ],
        aborts: false,
        sent: b"",
        told: b"HTTP/1.1 200 OK\r\nContent-Length: 2\r\nConnection: close\r\n\r\nhi",
        counts: (1, 0, 0),
        stage: Stage::Leaving,
    },
    Row {
        name: "an early answer: the request isn't read to its end",
        moves: &[
            Move::Client(b"POST /a HTTP/1.1\r\nHost: h\r\nContent-Length: 5\r\n\r\nab"),
            Move::Grant,
            Move::Connected(true),
            Move::Server(HI),
            Move::Answered(true),
            Move::Clean(false),
            Move::Barred,
        ],
        aborts: false,
        sent: b"POST /a HTTP/1.1\r\nHost: h\r\nContent-Length: 5\r\n\r\nab",
        told: HI,
        counts: (1, 0, 0),
        stage: Stage::Leaving,
    },
    Row {
        name: "an answer to the end, which is there",
        moves: &[
            Move::Client(GET),
            Move::Grant,
            Move::Connected(true),
            Move::Server(b"HTTP/1.1 200 OK\r\n\r\nhi"),
            Move::ServerEnd,
            Move::Answered(true),
            Move::Clean(false),
            Move::Barred,
        ],
        aborts: false,
        sent: GET,
        told: b"HTTP/1.1 200 OK\r\nConnection: close\r\n\r\nhi",
        counts: (1, 0, 0),
        stage: Stage::Leaving,
    },
    Row {
        name: "an answer to the end, where the connection breaks",
        moves: &[
            Move::Client(GET),
            Move::Grant,
            Move::Connected(true),
            Move::Server(b"HTTP/1.1 200 OK\r\n\r\nhi"),
            Move::ServerFailed,
            Move::Answered(false),
            Move::Barred,
        ],
        aborts: false,
        sent: GET,
        told: b"HTTP/1.1 200 OK\r\nConnection: close\r\n\r\nhi",
        counts: (1, 0, 0),
        stage: Stage::Leaving,
    },
    Row {
        name: "an answer that breaks off",
        moves: &[
            Move::Client(GET),
            Move::Grant,
            Move::Connected(true),
            Move::Server(b"HTTP/1.1 200 OK\r\nContent-Length: 3\r\n\r\nhi"),
            Move::ServerEnd,
            Move::Answered(false),
            Move::Clean(false),
            Move::Barred,
        ],
        aborts: false,
        sent: GET,
        told: b"HTTP/1.1 200 OK\r\nContent-Length: 3\r\n\r\nhi",
        counts: (1, 0, 0),
        stage: Stage::Leaving,
    },
    Row {
        name: "chunks to an old client that asks to stay",
        moves: &[
            Move::Client(OLD_KEPT),
            Move::Grant,
            Move::Connected(true),
            Move::Server(
                b"HTTP/1.1 200 OK\r\nTransfer-Encoding: chunked\r\n\r\n2\r\nhi\r\n0\r\n\r\n",
            ),
            Move::Answered(true),
            Move::Clean(true),
            Move::Barred,
        ],
        aborts: false,
        sent: GET,
        told: b"HTTP/1.1 200 OK\r\nConnection: close\r\n\r\nhi",
        counts: (1, 0, 0),
        stage: Stage::Leaving,
    },
    Row {
        name: "no request",
        moves: &[
            Move::Client(b"GET\r\n\r\n"),
            Move::Answered(false),
            Move::Barred,
        ],
        aborts: false,
        sent: b"",
        told: BAD,
        counts: (0, 0, 0),
        stage: Stage::Telling,
    },
];

#[test]
fn requests_one_after_another(rt: HostRuntime) -> Result<(), Fail> {
    let fault = first_fault(&rt, rt.alloc(), &CHAINS);
    assert_eq!(rt; fault, None);
    Ok(())
}

#[test]
fn last_requests(rt: HostRuntime) -> Result<(), Fail> {
    let fault = first_fault(&rt, rt.alloc(), &LAST);
    assert_eq!(rt; fault, None);
    Ok(())
}
