//! What exists before the first request: the sockets, and the proxy's configuration.

use crate::acting::act;
use crate::ending::Telling;
use crate::fault::DemoFault;
use demo_words::{Looks, Server};
use std::alloc::{AllocError, Global};
use std::io;
use std::net::{Ipv4Addr, Net, SocketAddr, TcpListener, TcpStream};
use std::rt::Files;
use std::sync::Wait;
use std::thread::Threads;
use std::time::Clock;

/// The servers, and the address where clients connect to the proxy.
#[derive(Drop)]
pub(crate) struct Stage {
    pub(crate) servers: (Server, Server, Server),
    pub(crate) address: SocketAddr,
    pub(crate) listener: TcpListener,
    /// The proxy's configuration.
    pub(crate) config: String,
}

/// Plays the demo: prints what happens and its outcome, and draws it into this file. It succeeds
/// only where each request was answered, and of any two that waited together the one with the
/// smaller key got its slot first. With `keep` proxy and servers then go on for visitors, without
/// end.
pub fn demo<
    R: Files
        + Net<Listener = TcpListener, Stream = TcpStream>
        + Clock
        + Print
        + Eprint
        + AllocGlobal
        + Threads
        + Wait
        + Sync
        + Copy
        + Send
        + 'static,
>(rt: &R, looks: Looks, file: &str, keep: bool) -> Result<(), DemoFault> {
    let stage = match stage_of(rt, rt.alloc()) {
        Ok(stage) => stage,
        Err(error) => return Err(DemoFault::Socket(error)),
    };
    act(rt, stage, Telling { looks, file }, keep)
}

fn stage_of<R: Net<Listener = TcpListener, Stream = TcpStream>>(
    rt: &R,
    alloc: Global,
) -> io::Result<Stage> {
    let listener = listening(rt)?;
    let address = listener.local_addr()?;
    let servers = (
        server(rt, "a", 300)?,
        server(rt, "b", 340)?,
        server(rt, "c", 380)?,
    );
    let config = config_of(
        alloc,
        address.port(),
        [
            port_of(&servers.0)?,
            port_of(&servers.1)?,
            port_of(&servers.2)?,
        ],
    )?;
    Ok(Stage {
        servers,
        address,
        listener,
        config,
    })
}

// Listens at a free port of this machine.
fn listening<R: Net<Listener = TcpListener, Stream = TcpStream>>(
    rt: &R,
) -> io::Result<TcpListener> {
    TcpListener::bind(rt, (Ipv4Addr::LOCALHOST, 0))
}

fn server<R: Net<Listener = TcpListener, Stream = TcpStream>>(
    rt: &R,
    name: &'static str,
    millis: u64,
) -> io::Result<Server> {
    let listener = listening(rt)?;
    listener.set_nonblocking(true)?;
    Ok(Server {
        name,
        millis,
        listener,
    })
}

fn port_of(server: &Server) -> io::Result<u16> {
    Ok(server.listener.local_addr()?.port())
}

// No timeout is longer than the demo may take.
fn config_of(alloc: Global, proxy: u16, servers: [u16; 3]) -> Result<String, AllocError> {
    let [a, b, c] = servers;
    format!(in alloc;
        "\
defaults
    timeout connect 2s
    timeout queue 8s
    timeout client 8s
    timeout server 8s

listen demo
    bind 127.0.0.1:{proxy}
    http-request set-priority-class req.hdr_val(x-class)
    http-request set-priority-offset req.hdr_val(x-due)
    server a 127.0.0.1:{a} maxconn 1
    server b 127.0.0.1:{b} maxconn 1
    server c 127.0.0.1:{c} maxconn 1
"
    )
}
