//! The threads of the demo.

use crate::conducting::{Seen, conduct};
use crate::ending::{Telling, tell_end};
use crate::fault::DemoFault;
use crate::keeping::keep_on;
use crate::stage::Stage;
use demo_words::{Looks, Server, VISITS};
use late_cert::Reports;
use proxy_config::read;
use run_parts::RunLimits;
use run_service::{LogCopy, ServeFault, serve_recorded};
use std::net::{Net, SocketAddr, TcpListener, TcpStream};
use std::rt::Files;
use std::sync::Wait;
use std::sync::atomic::{AtomicBool, Ordering};
use std::thread::Threads;
use std::time::Clock;
use std::{io, thread};

/// The number of requests that may live at once.
const PLACES: u32 = 64;

/// The proxy's address and its configuration.
#[derive(Drop)]
pub(crate) struct Front {
    pub(crate) address: SocketAddr,
    pub(crate) listener: TcpListener,
    pub(crate) config: String,
}

/// What the proxy decided, and what it reports.
#[derive(Drop)]
pub(crate) struct Played {
    pub(crate) seen: Seen,
    pub(crate) reports: Reports,
}

/// Plays the demo, with servers that answer until it is over.
pub(crate) fn act<
    R: Files
        + Net<Listener = TcpListener, Stream = TcpStream>
        + Clock
        + Print
        + Eprint
        + AllocGlobal
        + Threads
        + Wait
        + Sync
        + Copy
        + Send
        + 'static,
>(rt: &R, stage: Stage, telling: Telling<'_>, keep: bool) -> Result<(), DemoFault> {
    let Stage {
        servers: (first, second, third),
        address,
        listener,
        config,
    } = stage;
    let front = Front {
        address,
        listener,
        config,
    };
    let alloc = rt.alloc();
    let over = AtomicBool::new(false);
    let told = &over;
    thread::scope(thread::scope_env(), rt, move |scope| {
        let first = scope.spawn(move || first.run(rt, alloc, told)).ok();
        let second = scope.spawn(move || second.run(rt, alloc, told)).ok();
        let third = scope.spawn(move || third.run(rt, alloc, told)).ok();
        let played = if first.is_some() && second.is_some() && third.is_some() {
            play(rt, front, telling, keep)
        } else {
            Err(DemoFault::NoThread)
        };
        told.store(true, Ordering::SeqCst);
        played
    })
}

// Plays the twelve requests, ends them, and then serves further visitors.
fn play<
    R: Files
        + Net<Listener = TcpListener, Stream = TcpStream>
        + Clock
        + Print
        + Eprint
        + AllocGlobal
        + Threads
        + Wait
        + Sync
        + Copy
        + Send
        + 'static,
>(rt: &R, front: Front, telling: Telling<'_>, keep: bool) -> Result<(), DemoFault> {
    let listener = match front.listener.try_clone() {
        Ok(listener) => listener,
        Err(error) => return Err(DemoFault::Socket(error)),
    };
    let looks = telling.looks;
    let played = serve_visits(rt, &front, listener, looks)?;
    tell_end(rt, &played, telling)?;
    if keep {
        return keep_on(rt, front, looks);
    }
    Ok(())
}

// The clients connect before the proxy starts, so that all clients that it counts are there,
// whatever becomes of them.
fn serve_visits<
    R: Net<Listener = TcpListener, Stream = TcpStream>
        + Clock
        + Print
        + Eprint
        + AllocGlobal
        + Threads
        + Wait
        + Sync
        + Copy
        + Send
        + 'static,
>(rt: &R, front: &Front, listener: TcpListener, looks: Looks) -> Result<Played, DemoFault> {
    let clients = match clients_of(rt, front.address) {
        Ok(clients) => clients,
        Err(error) => return Err(DemoFault::Socket(error)),
    };
    let address = front.address;
    println!(rt;
        "Three servers, a, b and c: each takes one request at a time, and needs some 300 ms for it.\nBefore them the proxy, at {address}. {VISITS} requests come:\n"
    ).or(Err(DemoFault::Write))?;
    let alloc = rt.alloc();
    let copy = LogCopy::new(alloc);
    let shared = &copy;
    let config = front.config.as_str();
    let (seen, served) = thread::scope(thread::scope_env(), rt, move |scope| {
        let conducting = scope
            .spawn(move || conduct(rt, alloc, shared, clients, looks))
            .ok();
        let served = serve(rt, config, listener, VISITS as u32, shared);
        match conducting {
            Some(handle) => (handle.join(rt), served),
            None => (Err(DemoFault::NoThread), served),
        }
    });
    let seen = seen?;
    match served {
        Ok(reports) => Ok(Played { seen, reports }),
        Err(fault) => Err(DemoFault::Proxy(fault)),
    }
}

fn clients_of<R: Net<Listener = TcpListener, Stream = TcpStream> + AllocGlobal>(
    rt: &R,
    address: SocketAddr,
) -> io::Result<Vec<TcpStream>> {
    let mut clients = Vec::with_capacity(rt.alloc(), VISITS)?;
    for _ in 0..VISITS {
        clients.push(TcpStream::connect(rt, address)?)?;
    }
    Ok(clients)
}

/// Serves as the configuration text says, until this number of clients were served; 0 is without end.
pub(crate) fn serve<
    R: Net<Listener = TcpListener, Stream = TcpStream>
        + Clock
        + Print
        + Eprint
        + AllocGlobal
        + Threads
        + Wait
        + Sync
        + Copy
        + Send
        + 'static,
>(
    rt: &R,
    config: &str,
    listener: TcpListener,
    clients: u32,
    copy: &LogCopy,
) -> Result<Reports, ServeFault> {
    match (
        read(rt.alloc(), config.as_bytes()),
        RunLimits::new(None, None, None, PLACES, clients),
    ) {
        (Ok(config), Some(sizes)) => serve_recorded(rt, config, listener, sizes, copy),
        // The program's own configuration is sound, and so are the sizes: only memory can be short.
        _ => Err(ServeFault::NoMemory),
    }
}
