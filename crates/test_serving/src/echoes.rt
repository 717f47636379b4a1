//! Tests of a server that sends back what it gets, while it gets it.

use crate::peers::Step;
use crate::runs::serve_text;
use crate::stories::{address, listening, tell};
use std::alloc::Global;
use std::io::{Read, Write};
use std::net::{Net, TcpListener, TcpStream};
use std::process::Abort;
use std::sync::Wait;
use std::thread;
use std::thread::Threads;
use std::time::Clock;

/// More bytes than all sockets on the way have room for: 24 MiB.
const BYTES: usize = 25_165_824;

const PIECE: usize = 65_536;

const SAYS: &[u8] = b"PUT / HTTP/1.1\r\nHost: h\r\nContent-Length: 25165824\r\n\r\n";

const TOLD: &[u8] = b"HTTP/1.1 200 OK\r\nContent-Length: 25165824\r\nConnection: close\r\n\r\n";

const STEPS: &[Step] = &[
    Step::Takes(b"PUT / HTTP/1.1\r\n"),
    Step::Answers(0, b"HTTP/1.1 200 OK\r\nContent-Length: 25165824\r\n\r\n"),
    Step::Echoes(0, BYTES),
];

// Sends the request, with all of its body.
fn pour(alloc: Global, mut client: TcpStream) -> Option<()> {
    let piece = vec![in alloc; b'a'; PIECE].ok()?;
    client.write_all(SAYS).ok()?;
    for _ in 0..BYTES / PIECE {
        client.write_all(&piece).ok()?;
    }
    Some(())
}

// Returns how many bytes come, to the end.
fn drain(alloc: Global, mut client: TcpStream) -> Option<usize> {
    let mut piece = vec![in alloc; 0u8; PIECE].ok()?;
    let mut came = 0usize;
    for _ in 0..BYTES {
        match client.read(&mut piece).ok()? {
            0 => return Some(came),
            count => came = came.checked_add(count)?,
        }
    }
    None
}

fn play<
    R: Net<Listener = TcpListener, Stream = TcpStream>
        + Clock
        + Print
        + Eprint
        + AllocGlobal
        + Threads
        + Wait
        + Abort
        + Sync
        + Copy
        + Send
        + 'static,
>(rt: &R) {
    let alloc = rt.alloc();
    let far = listening(rt);
    far.set_nonblocking(true)
        .expect(rt, "a listener that doesn't wait");
    let near = listening(rt);
    let proxy = address(rt, &near);
    let server = address(rt, &far);
    let text = format!(in alloc; "listen w\n bind :1\n server it {server} maxconn 1\n").expect(
        rt, "memory",
    );
    let client = TcpStream::connect(rt, proxy).expect(rt, "a connection");
    let other = client.try_clone().expect(rt, "the same once more");
    let came = thread::scope(thread::scope_env(), rt, |scope| {
        let server = &far;
        let telling = scope
            .spawn(move || tell(rt, alloc, proxy, server, STEPS))
            .ok();
        let pouring = scope.spawn(move || pour(alloc, other)).ok();
        let draining = scope.spawn(move || drain(alloc, client)).ok();
        let ended = serve_text(rt, text.as_str(), near, 1, 8);
        let wrong = telling.map(|handle| handle.join(rt));
        let poured = pouring.map(|handle| handle.join(rt));
        let came = draining.map(|handle| handle.join(rt));
        (ended, wrong, poured, came)
    });
    assert_eq!(rt;
        came,
        (
            true,
            Some(None),
            Some(Some(())),
            Some(Some(TOLD.len() + BYTES))
        )
    );
}

#[test]
fn an_echo_longer_than_all_buffers_comes_back(rt: HostRuntime) {
    play(&rt);
}
