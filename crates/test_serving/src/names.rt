//! A test of a server whose name comes to mean another address.

use crate::faked::Faked;
use crate::runs::{answer_each, serve_text};
use crate::stories::{address, listening};
use std::alloc::Global;
use std::io::{Read, Write};
use std::net::{Net, SocketAddr, TcpStream};
use std::thread;
use std::time::{Clock, Duration};

const REQUEST: &[u8] = b"GET / HTTP/1.1\r\nHost: h\r\n\r\n";

const ANSWER: &[u8] = b"HTTP/1.1 200 OK\r\nContent-Length: 2\r\n\r\nhi";

const CLIENTS: u32 = 200;

// Says whether a client gets a server's answer.
fn is_answered<R: Net<Stream = TcpStream>>(
    rt: &R,
    alloc: Global,
    proxy: SocketAddr,
) -> Option<bool> {
    let mut client = TcpStream::connect(rt, proxy).ok()?;
    client.write_all(REQUEST).ok()?;
    let mut got = Vec::new(alloc);
    client.read_to_end(&mut got).ok()?;
    Some(got.starts_with(b"HTTP/1.1 200 "))
}

// Clients come one after the other until one is answered; the others only connect. Where none is,
// a connection lets the server end.
fn is_one_answered<R: Net<Stream = TcpStream> + Clock>(
    rt: &R,
    alloc: Global,
    proxy: SocketAddr,
    server: SocketAddr,
) -> bool {
    let mut answered = false;
    for _ in 0..CLIENTS {
        if answered {
            let _ = TcpStream::connect(rt, proxy);
        } else {
            answered = is_answered(rt, alloc, proxy) == Some(true);
            thread::sleep(rt, Duration::from_millis(20));
        }
    }
    if !answered {
        let _ = TcpStream::connect(rt, server);
    }
    answered
}

#[test]
fn a_name_is_looked_up_again_where_its_server_is_not_there(rt: HostRuntime) {
    let alloc = rt.alloc();
    let now = rt.monotonic().expect(&rt, "a clock");
    let at = now.saturating_add(Duration::from_millis(300));
    let moving = &Faked::moving(rt, at);
    let far = &listening(&rt);
    let near = listening(&rt);
    let (proxy, server) = (address(&rt, &near), address(&rt, far));
    let port = server.port();
    let text = format!(in alloc;
        "listen w\n bind :1\n retries 0\n server it a.name:{port} maxconn 1\n"
    ).expect(&rt, "memory");
    let rt = &rt;
    let is_served = thread::scope(thread::scope_env(), rt, |scope| {
        let answering = scope.spawn(move || answer_each(far, 1, ANSWER)).ok();
        let asking = scope
            .spawn(move || is_one_answered(rt, alloc, proxy, server))
            .ok();
        let ended = serve_text(moving, text.as_str(), near, CLIENTS, 8);
        match (answering, asking) {
            (Some(answering), Some(asking)) => asking.join(rt) && answering.join(rt) && ended,
            (_, _) => false,
        }
    });
    assert!(rt; is_served);
}
