use crate::exchanges::relays::{Row, Side, become_of_each};
use relay_http::Fault;

// first lines (RFC 9112, sections 2.2 and 3)
static LINES: [Row; 18] = [
    (
        "a request without a body",
        b"GET / HTTP/1.1\r\nHost: h\r\n\r\n",
        Ok(b"GET / HTTP/1.1\r\nHost: h\r\nConnection: close\r\n\r\n"),
    ),
    (
        "bytes behind it",
        b"GET / HTTP/1.1\r\nHost: h\r\n\r\nGET",
        Ok(b"GET / HTTP/1.1\r\nHost: h\r\nConnection: close\r\n\r\n"),
    ),
    (
        "an empty line before it",
        b"\r\nGET / HTTP/1.1\r\nHost: h\r\n\r\n",
        Ok(b"GET / HTTP/1.1\r\nHost: h\r\nConnection: close\r\n\r\n"),
    ),
    (
        "lines that end in a line feed",
        b"GET / HTTP/1.1\nHost: h\n\n",
        Ok(b"GET / HTTP/1.1\r\nHost: h\r\nConnection: close\r\n\r\n"),
    ),
    (
        "a request of version 1.0",
        b"GET /a HTTP/1.0\r\n\r\n",
        Ok(b"GET /a HTTP/1.1\r\nHost:\r\nConnection: close\r\n\r\n"),
    ),
    (
        "one of version 1.0 with a host",
        b"GET /a HTTP/1.0\r\nHost: h\r\n\r\n",
        Ok(b"GET /a HTTP/1.1\r\nHost: h\r\nConnection: close\r\n\r\n"),
    ),
    ("no host", b"GET / HTTP/1.1\r\n\r\n", Err(Fault::Head)),
    (
        "two hosts",
        b"GET / HTTP/1.1\r\nHost: h\r\nHost: h\r\n\r\n",
        Err(Fault::Head),
    ),
    (
        "an absolute target",
        b"GET http://h/a?q HTTP/1.1\r\nHost: h\r\n\r\n",
        Ok(b"GET http://h/a?q HTTP/1.1\r\nHost: h\r\nConnection: close\r\n\r\n"),
    ),
    (
        "the server as target",
        b"OPTIONS * HTTP/1.1\r\nHost: h\r\n\r\n",
        Ok(b"OPTIONS * HTTP/1.1\r\nHost: h\r\nConnection: close\r\n\r\n"),
    ),
    (
        "a tunnel",
        b"CONNECT h:1 HTTP/1.1\r\nHost: h\r\n\r\n",
        Err(Fault::Head),
    ),
    (
        "a later version",
        b"GET / HTTP/2.0\r\nHost: h\r\n\r\n",
        Err(Fault::Head),
    ),
    ("no version", b"GET /\r\nHost: h\r\n\r\n", Err(Fault::Head)),
    (
        "two spaces",
        b"GET  / HTTP/1.1\r\nHost: h\r\n\r\n",
        Err(Fault::Head),
    ),
    (
        "a bare CR in the first line",
        b"GET /\rHTTP/1.1\r\nHost: h\r\n\r\n",
        Err(Fault::Head),
    ),
    (
        "a control byte in the target",
        b"GET /\x01 HTTP/1.1\r\nHost: h\r\n\r\n",
        Err(Fault::Head),
    ),
    (
        "a fragment in the target",
        b"GET /secret.html#.png HTTP/1.1\r\nHost: h\r\n\r\n",
        Err(Fault::Head),
    ),
    ("no head at all", b"\x16\x03\x01", Err(Fault::Head)),
];

// fields (RFC 9112, section 5)
static FIELDS: [Row; 16] = [
    (
        "a folded line",
        b"POST / HTTP/1.1\r\nHost: h\r\nX: 1\r\n 2\r\n\r\n",
        Err(Fault::Head),
    ),
    (
        "a blank before the colon",
        b"POST / HTTP/1.1\r\nHost: h\r\nTransfer-Encoding : chunked\r\n\r\n",
        Err(Fault::Head),
    ),
    (
        "no colon",
        b"POST / HTTP/1.1\r\nHost: h\r\nX 1\r\n\r\n",
        Err(Fault::Head),
    ),
    (
        "an empty name",
        b"POST / HTTP/1.1\r\nHost: h\r\n: 1\r\n\r\n",
        Err(Fault::Head),
    ),
    (
        "a zero byte in a value",
        b"POST / HTTP/1.1\r\nHost: h\r\nX: a\x00b\r\n\r\n",
        Err(Fault::Head),
    ),
    (
        "a bare CR in a value",
        b"POST / HTTP/1.1\r\nHost: h\r\nX: a\rb\r\n\r\n",
        Err(Fault::Head),
    ),
    (
        "a bare CR before the line feed",
        b"POST / HTTP/1.1\r\nHost: h\r\nX: a\r\r\n\r\n",
        Err(Fault::Head),
    ),
    (
        "bytes past ASCII in a value",
        b"POST / HTTP/1.1\r\nHost: h\r\nX: \xff\xfe\r\n\r\n",
        Ok(b"POST / HTTP/1.1\r\nHost: h\r\nX: \xff\xfe\r\nConnection: close\r\n\r\n"),
    ),
    (
        "blanks around a value",
        b"POST / HTTP/1.1\r\nHost: h\r\nX: \t 1 \t\r\n\r\n",
        Ok(b"POST / HTTP/1.1\r\nHost: h\r\nX: 1\r\nConnection: close\r\n\r\n"),
    ),
    (
        "an empty value",
        b"POST / HTTP/1.1\r\nHost: h\r\nX:\r\n\r\n",
        Ok(b"POST / HTTP/1.1\r\nHost: h\r\nX: \r\nConnection: close\r\n\r\n"),
    ),
    (
        "names as they came",
        b"POST / HTTP/1.1\r\nHost: h\r\nx-A: 1\r\nX-a: 2\r\n\r\n",
        Ok(b"POST / HTTP/1.1\r\nHost: h\r\nx-A: 1\r\nX-a: 2\r\nConnection: close\r\n\r\n"),
    ),
    (
        "a name more than once",
        b"POST / HTTP/1.1\r\nHost: h\r\nA: 1\r\nB: 2\r\nA: 3\r\n\r\n",
        Ok(b"POST / HTTP/1.1\r\nHost: h\r\nA: 1\r\nB: 2\r\nA: 3\r\nConnection: close\r\n\r\n"),
    ),
    (
        "fields of the connection",
        b"POST / HTTP/1.1\r\nHost: h\r\nKeep-Alive: 1\r\nPROXY-Connection: x\r\nUpgrade: h2c\r\nTrailer: T\r\nTE: x\r\nExpect: y\r\nA: 1\r\n\r\n",
        Ok(b"POST / HTTP/1.1\r\nHost: h\r\nA: 1\r\nConnection: close\r\n\r\n"),
    ),
    (
        "fields that Connection names",
        b"POST / HTTP/1.1\r\nHost: h\r\nConnection: x-a, ,X-B\r\nX-A: 1\r\nx-b: 2\r\nX-C: 3\r\n\r\n",
        Ok(b"POST / HTTP/1.1\r\nHost: h\r\nX-C: 3\r\nConnection: close\r\n\r\n"),
    ),
    (
        "the host that Connection names",
        b"POST / HTTP/1.1\r\nHost: h\r\nConnection: host\r\n\r\n",
        Ok(b"POST / HTTP/1.1\r\nHost:\r\nConnection: close\r\n\r\n"),
    ),
    (
        "the length that Connection names",
        b"POST / HTTP/1.1\r\nHost: h\r\nConnection: content-length\r\nContent-Length: 1\r\n\r\nab",
        Ok(b"POST / HTTP/1.1\r\nHost: h\r\nContent-Length: 1\r\nConnection: close\r\n\r\na"),
    ),
];

// bodies of a length (RFC 9112, section 6)
static LENGTHS: [Row; 15] = [
    (
        "a length",
        b"POST / HTTP/1.1\r\nHost: h\r\nContent-Length: 3\r\n\r\nabcd",
        Ok(b"POST / HTTP/1.1\r\nHost: h\r\nContent-Length: 3\r\nConnection: close\r\n\r\nabc"),
    ),
    (
        "a length of 0",
        b"POST / HTTP/1.1\r\nHost: h\r\nContent-Length: 0\r\n\r\na",
        Ok(b"POST / HTTP/1.1\r\nHost: h\r\nContent-Length: 0\r\nConnection: close\r\n\r\n"),
    ),
    (
        "zeros in front",
        b"POST / HTTP/1.1\r\nHost: h\r\nContent-Length: 003\r\n\r\nabc",
        Ok(b"POST / HTTP/1.1\r\nHost: h\r\nContent-Length: 3\r\nConnection: close\r\n\r\nabc"),
    ),
    (
        "the same length twice",
        b"POST / HTTP/1.1\r\nHost: h\r\nContent-Length: 3\r\nContent-Length: 3\r\n\r\nabc",
        Ok(b"POST / HTTP/1.1\r\nHost: h\r\nContent-Length: 3\r\nConnection: close\r\n\r\nabc"),
    ),
    (
        "and in a list",
        b"POST / HTTP/1.1\r\nHost: h\r\nContent-Length: 3, 03\r\n\r\nabc",
        Ok(b"POST / HTTP/1.1\r\nHost: h\r\nContent-Length: 3\r\nConnection: close\r\n\r\nabc"),
    ),
    (
        "two lengths",
        b"POST / HTTP/1.1\r\nHost: h\r\nContent-Length: 3\r\nContent-Length: 4\r\n\r\nabcd",
        Err(Fault::Framing),
    ),
    (
        "two in a list",
        b"POST / HTTP/1.1\r\nHost: h\r\nContent-Length: 3, 4\r\n\r\nabcd",
        Err(Fault::Framing),
    ),
    (
        "an empty length",
        b"POST / HTTP/1.1\r\nHost: h\r\nContent-Length: \r\n\r\n",
        Err(Fault::Framing),
    ),
    (
        "an empty part",
        b"POST / HTTP/1.1\r\nHost: h\r\nContent-Length: 3,\r\n\r\nabc",
        Err(Fault::Framing),
    ),
    (
        "a plus",
        b"POST / HTTP/1.1\r\nHost: h\r\nContent-Length: +3\r\n\r\nabc",
        Err(Fault::Framing),
    ),
    (
        "a minus",
        b"POST / HTTP/1.1\r\nHost: h\r\nContent-Length: -3\r\n\r\nabc",
        Err(Fault::Framing),
    ),
    (
        "a blank inside",
        b"POST / HTTP/1.1\r\nHost: h\r\nContent-Length: 3 3\r\n\r\nabc",
        Err(Fault::Framing),
    ),
    (
        "a base",
        b"POST / HTTP/1.1\r\nHost: h\r\nContent-Length: 0x3\r\n\r\nabc",
        Err(Fault::Framing),
    ),
    (
        "past 64 bits",
        b"POST / HTTP/1.1\r\nHost: h\r\nContent-Length: 18446744073709551619\r\n\r\nabc",
        Err(Fault::Framing),
    ),
    (
        "a short body",
        b"POST / HTTP/1.1\r\nHost: h\r\nContent-Length: 3\r\n\r\nab",
        Err(Fault::Read),
    ),
];

// bodies in chunks (RFC 9112, sections 6.1 and 7.1)
static CHUNKS: [Row; 23] = [
    (
        "chunks",
        b"POST / HTTP/1.1\r\nHost: h\r\nTransfer-Encoding: chunked\r\n\r\n3\r\nabc\r\n0\r\n\r\nmore",
        Ok(
            b"POST / HTTP/1.1\r\nHost: h\r\nTransfer-Encoding: chunked\r\nConnection: close\r\n\r\n3\r\nabc\r\n0\r\n\r\n",
        ),
    ),
    (
        "an extension and a trailer",
        b"POST / HTTP/1.1\r\nHost: h\r\nTransfer-Encoding: chunked\r\n\r\n3;x=1\r\nabc\r\n0\r\nT: 1\r\n\r\n",
        Ok(
            b"POST / HTTP/1.1\r\nHost: h\r\nTransfer-Encoding: chunked\r\nConnection: close\r\n\r\n3\r\nabc\r\n0\r\n\r\n",
        ),
    ),
    (
        "a size with zeros and capitals",
        b"POST / HTTP/1.1\r\nHost: h\r\nTransfer-Encoding: chunked\r\n\r\n00A\r\n0123456789\r\n000\r\n\r\n",
        Ok(
            b"POST / HTTP/1.1\r\nHost: h\r\nTransfer-Encoding: chunked\r\nConnection: close\r\n\r\na\r\n0123456789\r\n0\r\n\r\n",
        ),
    ),
    (
        "a coding in odd case",
        b"POST / HTTP/1.1\r\nHost: h\r\nTransfer-Encoding: cHuNkEd\r\n\r\n3\r\nabc\r\n0\r\n\r\n",
        Ok(
            b"POST / HTTP/1.1\r\nHost: h\r\nTransfer-Encoding: chunked\r\nConnection: close\r\n\r\n3\r\nabc\r\n0\r\n\r\n",
        ),
    ),
    (
        "a tab before the coding",
        b"POST / HTTP/1.1\r\nHost: h\r\nTransfer-Encoding: \tchunked\r\n\r\n3\r\nabc\r\n0\r\n\r\n",
        Ok(
            b"POST / HTTP/1.1\r\nHost: h\r\nTransfer-Encoding: chunked\r\nConnection: close\r\n\r\n3\r\nabc\r\n0\r\n\r\n",
        ),
    ),
    (
        "a coding of version 1.0",
        b"POST / HTTP/1.0\r\nTransfer-Encoding: chunked\r\n\r\n3\r\nabc\r\n0\r\n\r\n",
        Err(Fault::Framing),
    ),
    (
        "a length behind the coding",
        b"POST / HTTP/1.1\r\nHost: h\r\nTransfer-Encoding: chunked\r\nContent-Length: 3\r\n\r\n3\r\nabc\r\n0\r\n\r\n",
        Err(Fault::Framing),
    ),
    (
        "a length before it",
        b"POST / HTTP/1.1\r\nHost: h\r\nContent-Length: 3\r\nTransfer-Encoding: chunked\r\n\r\n3\r\nabc\r\n0\r\n\r\n",
        Err(Fault::Framing),
    ),
    (
        "two codings",
        b"POST / HTTP/1.1\r\nHost: h\r\nTransfer-Encoding: chunked\r\nTransfer-Encoding: chunked\r\n\r\n3\r\nabc\r\n0\r\n\r\n",
        Err(Fault::Framing),
    ),
    (
        "a list of codings",
        b"POST / HTTP/1.1\r\nHost: h\r\nTransfer-Encoding: gzip, chunked\r\n\r\n3\r\nabc\r\n0\r\n\r\n",
        Err(Fault::Framing),
    ),
    (
        "another coding",
        b"POST / HTTP/1.1\r\nHost: h\r\nTransfer-Encoding: identity\r\n\r\n3\r\nabc\r\n0\r\n\r\n",
        Err(Fault::Framing),
    ),
    (
        "a coding that begins like it",
        b"POST / HTTP/1.1\r\nHost: h\r\nTransfer-Encoding: chunked;q=1\r\n\r\n3\r\nabc\r\n0\r\n\r\n",
        Err(Fault::Framing),
    ),
    (
        "a size with a base",
        b"POST / HTTP/1.1\r\nHost: h\r\nTransfer-Encoding: chunked\r\n\r\n0x3\r\nabc\r\n0\r\n\r\n",
        Err(Fault::Framing),
    ),
    (
        "a blank before the size",
        b"POST / HTTP/1.1\r\nHost: h\r\nTransfer-Encoding: chunked\r\n\r\n 3\r\nabc\r\n0\r\n\r\n",
        Err(Fault::Framing),
    ),
    (
        "a sign before the size",
        b"POST / HTTP/1.1\r\nHost: h\r\nTransfer-Encoding: chunked\r\n\r\n+3\r\nabc\r\n0\r\n\r\n",
        Err(Fault::Framing),
    ),
    (
        "a size past 64 bits",
        b"POST / HTTP/1.1\r\nHost: h\r\nTransfer-Encoding: chunked\r\n\r\n10000000000000003\r\nabc\r\n",
        Err(Fault::Framing),
    ),
    (
        "no size",
        b"POST / HTTP/1.1\r\nHost: h\r\nTransfer-Encoding: chunked\r\n\r\n\r\nabc\r\n",
        Err(Fault::Framing),
    ),
    (
        "a size line that ends in a line feed",
        b"POST / HTTP/1.1\r\nHost: h\r\nTransfer-Encoding: chunked\r\n\r\n3\nabc\r\n0\r\n\r\n",
        Err(Fault::Framing),
    ),
    (
        "data that ends in a line feed",
        b"POST / HTTP/1.1\r\nHost: h\r\nTransfer-Encoding: chunked\r\n\r\n3\r\nabc\n0\r\n\r\n",
        Err(Fault::Framing),
    ),
    (
        "more data than the size",
        b"POST / HTTP/1.1\r\nHost: h\r\nTransfer-Encoding: chunked\r\n\r\n3\r\nabcd\r\n0\r\n\r\n",
        Err(Fault::Framing),
    ),
    (
        "less data than the size",
        b"POST / HTTP/1.1\r\nHost: h\r\nTransfer-Encoding: chunked\r\n\r\n4\r\nabc\r\n0\r\n\r\n",
        Err(Fault::Framing),
    ),
    (
        "no last chunk",
        b"POST / HTTP/1.1\r\nHost: h\r\nTransfer-Encoding: chunked\r\n\r\n3\r\nabc\r\n",
        Err(Fault::Read),
    ),
    (
        "no end of the trailers",
        b"POST / HTTP/1.1\r\nHost: h\r\nTransfer-Encoding: chunked\r\n\r\n3\r\nabc\r\n0\r\nT: 1\r\n",
        Err(Fault::Read),
    ),
];

#[test]
fn first_lines_of_requests(rt: HostRuntime) {
    become_of_each(&rt, rt.alloc(), &Side::Request, &LINES);
}

#[test]
fn fields_of_requests(rt: HostRuntime) {
    become_of_each(&rt, rt.alloc(), &Side::Request, &FIELDS);
}

#[test]
fn requests_of_a_length(rt: HostRuntime) {
    become_of_each(&rt, rt.alloc(), &Side::Request, &LENGTHS);
}

#[test]
fn requests_in_chunks(rt: HostRuntime) {
    become_of_each(&rt, rt.alloc(), &Side::Request, &CHUNKS);
}
