//! Proxy and servers for visitors after the demo.

use crate::acting::{Front, serve};
use crate::fault::DemoFault;
use crate::watcher::Watcher;
use demo_words::Looks;
use run_service::LogCopy;
use std::alloc::Global;
use std::net::{Net, SocketAddr, TcpListener, TcpStream};
use std::sync::Wait;
use std::thread;
use std::thread::Threads;
use std::time::{Clock, Duration};

/// The log is read each time this number of milliseconds has passed.
const PAUSE: u64 = 20;

/// Serves visitors, and tells of them, without end.
pub(crate) fn keep_on<
    R: Net<Listener = TcpListener, Stream = TcpStream>
        + Clock
        + Print
        + Eprint
        + AllocGlobal
        + Threads
        + Wait
        + Sync
        + Copy
        + Send
        + 'static,
>(rt: &R, front: Front, looks: Looks) -> Result<(), DemoFault> {
    let Front {
        address,
        listener,
        config,
    } = front;
    invite(rt, address)?;
    let alloc = rt.alloc();
    let copy = LogCopy::new(alloc);
    let shared = &copy;
    let config = config.as_str();
    thread::scope(thread::scope_env(), rt, move |scope| {
        let telling = scope.spawn(move || tell_all(rt, alloc, shared, looks)).ok();
        let served = serve(rt, config, listener, 0, shared);
        match telling {
            Some(handle) => handle.join(rt)?,
            None => return Err(DemoFault::NoThread),
        }
        match served {
            Ok(_) => Ok(()),
            Err(fault) => Err(DemoFault::Proxy(fault)),
        }
    })
}

fn invite(rt: &(impl Print + AllocGlobal), address: SocketAddr) -> Result<(), DemoFault> {
    let alloc = rt.alloc();
    let mut text = format!(in alloc;
        "\nProxy and servers go on, with tickets from 1 again; Ctrl-C ends them. In another terminal:\n  curl -H 'X-Class: 0' -H 'X-Due: 500' http://{address}/hello\n"
    )?;
    text.push_str(
        "or six at once, of which the last one is due first:\n  for n in 1 2 3 4 5 6; do curl -s -H \"X-Due: -${n}000\" ",
    )?;
    writeln!(text, "http://{address}/$n & done; wait\n")?;
    match rt.print(text.as_str()) {
        Ok(()) => Ok(()),
        Err(_) => Err(DemoFault::Write),
    }
}

// Tells what comes into the log, until nothing more does.
fn tell_all<R: Clock + Print + Wait>(
    rt: &R,
    alloc: Global,
    copy: &LogCopy,
    looks: Looks,
) -> Result<(), DemoFault> {
    let mut watcher = Watcher::new(rt, alloc, copy, looks)?;
    for _ in rt.forever() {
        let is_over = watcher.is_over();
        watcher.look()?;
        if is_over {
            return Ok(());
        }
        thread::sleep(rt, Duration::from_millis(PAUSE));
    }
    unreachable!()
}
