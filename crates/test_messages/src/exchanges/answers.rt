use crate::exchanges::relays::{GET, OLD_GET, Row, Side, become_of_each};
use relay_http::Fault;

const HEAD: &[u8] = b"HEAD / HTTP/1.1\r\nHost: h\r\n\r\n";

// answers that are handed on (RFC 9112, sections 4 to 7)
static WHOLE: [Row; 14] = [
    (
        "an answer to the end",
        b"HTTP/1.1 200 OK\r\n\r\nabc",
        Ok(b"HTTP/1.1 200 OK\r\nConnection: close\r\n\r\nabc"),
    ),
    (
        "a length",
        b"HTTP/1.1 200 OK\r\nContent-Length: 3\r\n\r\nabcd",
        Ok(b"HTTP/1.1 200 OK\r\nContent-Length: 3\r\nConnection: close\r\n\r\nabc"),
    ),
    (
        "chunks",
        b"HTTP/1.1 200 OK\r\nTransfer-Encoding: chunked\r\n\r\n3;x\r\nabc\r\n0\r\nT: 1\r\n\r\n",
        Ok(
            b"HTTP/1.1 200 OK\r\nTransfer-Encoding: chunked\r\nConnection: close\r\n\r\n3\r\nabc\r\n0\r\n\r\n",
        ),
    ),
    (
        "an answer of version 1.0",
        b"HTTP/1.0 200 OK\r\nContent-Length: 1\r\n\r\na",
        Ok(b"HTTP/1.1 200 OK\r\nContent-Length: 1\r\nConnection: close\r\n\r\na"),
    ),
    (
        "no reason",
        b"HTTP/1.1 200\r\nContent-Length: 0\r\n\r\n",
        Ok(b"HTTP/1.1 200 \r\nContent-Length: 0\r\nConnection: close\r\n\r\n"),
    ),
    (
        "a long reason",
        b"HTTP/1.1 404 Not  Found!\r\nContent-Length: 0\r\n\r\n",
        Ok(b"HTTP/1.1 404 Not  Found!\r\nContent-Length: 0\r\nConnection: close\r\n\r\n"),
    ),
    (
        "an empty line before it",
        b"\r\nHTTP/1.1 200 OK\r\nContent-Length: 0\r\n\r\n",
        Ok(b"HTTP/1.1 200 OK\r\nContent-Length: 0\r\nConnection: close\r\n\r\n"),
    ),
    (
        "fields of the connection",
        b"HTTP/1.1 200 OK\r\nConnection: x-a\r\nX-A: 1\r\nKeep-Alive: 1\r\nUpgrade: h\r\nTE: x\r\nContent-Length: 0\r\n\r\n",
        Ok(b"HTTP/1.1 200 OK\r\nTE: x\r\nContent-Length: 0\r\nConnection: close\r\n\r\n"),
    ),
    (
        "no content",
        b"HTTP/1.1 204 No\r\nContent-Length: 5\r\n\r\nhello",
        Ok(b"HTTP/1.1 204 No\r\nConnection: close\r\n\r\n"),
    ),
    (
        "no content, of no length",
        b"HTTP/1.1 204 No\r\nContent-Length: x\r\n\r\n",
        Ok(b"HTTP/1.1 204 No\r\nConnection: close\r\n\r\n"),
    ),
    (
        "not modified",
        b"HTTP/1.1 304 No\r\nContent-Length: 5\r\n\r\nhello",
        Ok(b"HTTP/1.1 304 No\r\nContent-Length: 5\r\nConnection: close\r\n\r\n"),
    ),
    (
        "not modified, in chunks",
        b"HTTP/1.1 304 No\r\nTransfer-Encoding: chunked\r\n\r\n3\r\nabc\r\n0\r\n\r\n",
        Ok(b"HTTP/1.1 304 No\r\nConnection: close\r\n\r\n"),
    ),
    (
        "a 100 before it",
        b"HTTP/1.1 100 Continue\r\n\r\nHTTP/1.1 200 OK\r\nContent-Length: 0\r\n\r\n",
        Ok(b"HTTP/1.1 200 OK\r\nContent-Length: 0\r\nConnection: close\r\n\r\n"),
    ),
    (
        "hints before it",
        b"HTTP/1.1 103 X\r\nLink: a\r\nContent-Length: 3\r\n\r\nHTTP/1.1 200 OK\r\nContent-Length: 0\r\n\r\n",
        Ok(
            b"HTTP/1.1 103 X\r\nLink: a\r\n\r\nHTTP/1.1 200 OK\r\nContent-Length: 0\r\nConnection: close\r\n\r\n",
        ),
    ),
];

// answers that are not
static BROKEN: [Row; 19] = [
    (
        "another protocol",
        b"HTTP/1.1 101 X\r\nUpgrade: h2c\r\n\r\n",
        Err(Fault::Framing),
    ),
    (
        "a coding of version 1.0",
        b"HTTP/1.0 200 OK\r\nTransfer-Encoding: chunked\r\n\r\n3\r\nabc\r\n0\r\n\r\n",
        Err(Fault::Framing),
    ),
    (
        "a coding of version 1.0 before it",
        b"HTTP/1.0 103 X\r\nTransfer-Encoding: chunked\r\n\r\nHTTP/1.1 200 OK\r\n\r\n",
        Err(Fault::Framing),
    ),
    (
        "a length and a coding",
        b"HTTP/1.1 200 OK\r\nContent-Length: 3\r\nTransfer-Encoding: chunked\r\n\r\n3\r\nabc\r\n0\r\n\r\n",
        Err(Fault::Framing),
    ),
    (
        "two lengths",
        b"HTTP/1.1 200 OK\r\nContent-Length: 3\r\nContent-Length: 4\r\n\r\nabcd",
        Err(Fault::Framing),
    ),
    (
        "not modified, of no length",
        b"HTTP/1.1 304 No\r\nContent-Length: x\r\n\r\n",
        Err(Fault::Framing),
    ),
    (
        "another coding",
        b"HTTP/1.1 200 OK\r\nTransfer-Encoding: gzip\r\n\r\n",
        Err(Fault::Framing),
    ),
    (
        "a status of four digits",
        b"HTTP/1.1 2000 OK\r\n\r\n",
        Err(Fault::Head),
    ),
    (
        "a status of two",
        b"HTTP/1.1 20 OK\r\n\r\n",
        Err(Fault::Head),
    ),
    (
        "a later version",
        b"HTTP/1.2 200 OK\r\n\r\n",
        Err(Fault::Head),
    ),
    ("no head at all", b"SSH-2.0-x\r\n", Err(Fault::Head)),
    (
        "a folded line",
        b"HTTP/1.1 200 OK\r\nX: 1\r\n 2\r\n\r\n",
        Err(Fault::Head),
    ),
    (
        "a blank before the colon",
        b"HTTP/1.1 200 OK\r\nContent-Length : 3\r\n\r\nabc",
        Err(Fault::Head),
    ),
    ("no head", b"", Err(Fault::Read)),
    (
        "a head without an end",
        b"HTTP/1.1 200 OK\r\nX: 1\r\n",
        Err(Fault::Read),
    ),
    (
        "a 100 alone",
        b"HTTP/1.1 100 Continue\r\n\r\n",
        Err(Fault::Read),
    ),
    (
        "a short body",
        b"HTTP/1.1 200 OK\r\nContent-Length: 3\r\n\r\nab",
        Err(Fault::Read),
    ),
    (
        "a body without its last chunk",
        b"HTTP/1.1 200 OK\r\nTransfer-Encoding: chunked\r\n\r\n3\r\nabc\r\n",
        Err(Fault::Read),
    ),
    (
        "a line feed behind the data",
        b"HTTP/1.1 200 OK\r\nTransfer-Encoding: chunked\r\n\r\n3\r\nabc\n0\r\n\r\n",
        Err(Fault::Framing),
    ),
];

// answers to a client of version 1.0
static TO_OLD_CLIENTS: [Row; 3] = [
    (
        "chunks for an old client",
        b"HTTP/1.1 200 OK\r\nTransfer-Encoding: chunked\r\n\r\n3\r\nabc\r\n0\r\n\r\n",
        Ok(b"HTTP/1.1 200 OK\r\nConnection: close\r\n\r\nabc"),
    ),
    (
        "hints for an old client",
        b"HTTP/1.1 103 X\r\n\r\nHTTP/1.1 200 OK\r\nContent-Length: 0\r\n\r\n",
        Ok(b"HTTP/1.1 200 OK\r\nContent-Length: 0\r\nConnection: close\r\n\r\n"),
    ),
    (
        "a length for an old client",
        b"HTTP/1.1 200 OK\r\nContent-Length: 1\r\n\r\na",
        Ok(b"HTTP/1.1 200 OK\r\nContent-Length: 1\r\nConnection: close\r\n\r\na"),
    ),
];

// answers to HEAD
static TO_HEAD: [Row; 6] = [
    (
        "the length of the body",
        b"HTTP/1.1 200 OK\r\nContent-Length: 7\r\n\r\n",
        Ok(b"HTTP/1.1 200 OK\r\nContent-Length: 7\r\nConnection: close\r\n\r\n"),
    ),
    (
        "no body of it",
        b"HTTP/1.1 200 OK\r\nContent-Length: 3\r\n\r\nabc",
        Ok(b"HTTP/1.1 200 OK\r\nContent-Length: 3\r\nConnection: close\r\n\r\n"),
    ),
    (
        "chunks",
        b"HTTP/1.1 200 OK\r\nTransfer-Encoding: chunked\r\n\r\n",
        Ok(b"HTTP/1.1 200 OK\r\nConnection: close\r\n\r\n"),
    ),
    (
        "chunks and a length",
        b"HTTP/1.1 200 OK\r\nTransfer-Encoding: chunked\r\nContent-Length: 7\r\n\r\n",
        Ok(b"HTTP/1.1 200 OK\r\nContent-Length: 7\r\nConnection: close\r\n\r\n"),
    ),
    (
        "to the end",
        b"HTTP/1.1 200 OK\r\n\r\nabc",
        Ok(b"HTTP/1.1 200 OK\r\nConnection: close\r\n\r\n"),
    ),
    (
        "no length",
        b"HTTP/1.1 200 OK\r\nContent-Length: x\r\n\r\n",
        Err(Fault::Framing),
    ),
];

#[test]
fn answers_are_handed_on(rt: HostRuntime) {
    become_of_each(&rt, rt.alloc(), &Side::AnswerTo(GET), &WHOLE);
}

#[test]
fn broken_answers(rt: HostRuntime) {
    become_of_each(&rt, rt.alloc(), &Side::AnswerTo(GET), &BROKEN);
}

#[test]
fn answers_to_old_clients(rt: HostRuntime) {
    become_of_each(&rt, rt.alloc(), &Side::AnswerTo(OLD_GET), &TO_OLD_CLIENTS);
}

#[test]
fn answers_to_head(rt: HostRuntime) {
    become_of_each(&rt, rt.alloc(), &Side::AnswerTo(HEAD), &TO_HEAD);
}
