//! `dueproxy demo`.

use demo::{DemoFault, Looks, demo};
use std::net::{Net, TcpListener, TcpStream};
use std::rt::Files;
use std::sync::Wait;
use std::thread::Threads;
use std::time::Clock;

/// The file of the picture.
const FILE: &str = "dueproxy-demo.svg";

/// Plays the demo, and returns the exit status: 1 where it failed.
pub(crate) fn show<
    R: Files
        + Net<Listener = TcpListener, Stream = TcpStream>
        + Clock
        + Print
        + Eprint
        + AllocGlobal
        + Threads
        + Wait
        + Sync
        + Copy
        + Send
        + 'static,
>(rt: &R, looks: Looks, keep: bool) -> u8 {
    let Err(fault) = demo(rt, looks, FILE, keep) else {
        return 0;
    };
    if let DemoFault::Picture(_) = fault {
        let _ = rt.eprint(FILE);
        let _ = rt.eprint(": ");
    }
    let _ = rt.eprintln(fault);
    1
}
