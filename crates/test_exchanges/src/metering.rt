//! Tests of the counters of a connection.

use exchange_driver::{Live, ReadResult, Socket, WriteResult};
use std::io::Write;
use std::net::{Net, TcpListener, TcpStream};
use std::process::Abort;

/// More bytes than the buffers of a connection hold.
const MANY: usize = 1 << 25;

// Returns a connection whose other end is returned too.
fn connected<R: Abort + Net<Listener = TcpListener, Stream = TcpStream>>(
    rt: &R,
) -> (Live, TcpStream) {
    let listener = TcpListener::bind(rt, "127.0.0.1:0").expect(rt, "a listener");
    let address = listener.local_addr().expect(rt, "an address");
    let stream = TcpStream::connect(rt, address).expect(rt, "a connection");
    stream.set_nonblocking(true).expect(rt, "a mode");
    let (other, _) = listener.accept().expect(rt, "a client");
    (Live::new(stream), other)
}

#[test]
fn bytes_that_find_no_room_are_not_counted_as_sent(rt: HostRuntime) {
    let (mut live, _other) = connected(&rt);
    live.count_anew();
    let bytes = vec![in rt.alloc(); b'x'; MANY].expect(&rt, "memory");
    let mut sent = 0u64;
    for _ in 0..8 {
        if let WriteResult::Bytes(count) = live.write_now(bytes.as_slice()) {
            sent = sent.saturating_add(count as u64);
        }
    }
    let meter = live.meter().expect(&rt, "a meter");
    assert_eq!(rt; meter.sent, sent);
}

// Reads from the connection until this number of bytes came, and returns how many did. The system may
// bring them late, so it is asked many times.
fn read_all(live: &mut Live, wanted: u64) -> u64 {
    let mut buffer = [0; 4];
    let mut came = 0u64;
    for _ in 0..1_000_000 {
        if came >= wanted {
            return came;
        }
        if let ReadResult::Bytes(count) = live.read_now(&mut buffer) {
            came = came.saturating_add(count as u64);
        }
    }
    came
}

#[test]
fn bytes_of_each_read_are_counted_and_told_more_than_once(rt: HostRuntime) {
    let (mut live, mut other) = connected(&rt);
    live.count_anew();
    other.write_all(b"ten bytes.").expect(&rt, "a write");
    assert_eq!(rt; read_all(&mut live, 10), 10);
    assert_eq!(rt; live.meter().map(|meter| meter.received), Some(10));
    other.write_all(b"more").expect(&rt, "a write");
    assert_eq!(rt; read_all(&mut live, 4), 4);
    assert_eq!(rt; live.meter().map(|meter| meter.received), Some(14));
}

#[test]
fn a_count_begins_from_0_for_each_exchange(rt: HostRuntime) {
    let (mut live, mut other) = connected(&rt);
    assert!(rt; live.meter().is_none());
    live.count_anew();
    other.write_all(b"a request").expect(&rt, "a write");
    assert_eq!(rt; read_all(&mut live, 9), 9);
    assert!(rt; live.write_now(b"HTTP/1.1 404 No\r\n\r\n") == WriteResult::Bytes(19));
    let first = live.meter().expect(&rt, "a meter");
    assert_eq!(rt;
        (first.received, first.sent, first.status()),
        (9, 19, Some(404))
    );
    live.count_anew();
    let next = live.meter().expect(&rt, "a meter");
    assert_eq!(rt; (next.received, next.sent, next.status()), (0, 0, None));
    assert!(rt; live.write_now(b"HTTP/1.1 200 OK\r\n\r\n") == WriteResult::Bytes(19));
    let next = live.meter().expect(&rt, "a meter");
    assert_eq!(rt; (next.sent, next.status()), (19, Some(200)));
}
