//! The servers of the demo.

use std::alloc::Global;
use std::io::{Read, Write};
use std::net::{TcpListener, TcpStream};
use std::sync::Wait;
use std::sync::atomic::{AtomicBool, Ordering};
use std::time::{Clock, Duration};
use std::{io, str, thread};

/// The server looks for a request each time this number of milliseconds has passed.
const PAUSE: u64 = 2;

/// The server waits this number of milliseconds for the rest of a request.
const PATIENCE: u64 = 2000;

/// The most reads for one head.
const PIECES: usize = 16;

const PIECE: usize = 1024;

/// A server that takes one request at a time.
#[derive(Drop)]
pub struct Server {
    pub name: &'static str,
    /// The number of milliseconds that it needs for each request.
    pub millis: u64,
    /// It is non-blocking.
    pub listener: TcpListener,
}

impl Server {
    /// Answers one request after the other, until the demo is over.
    pub fn run<R: Clock + Wait>(self, rt: &R, alloc: Global, over: &AtomicBool) {
        for _ in rt.forever() {
            if over.load(Ordering::SeqCst) {
                return;
            }
            match self.listener.accept() {
                // A client that has left meanwhile gets no answer.
                Ok((stream, _)) => {
                    let _ = self.answer(rt, alloc, stream);
                }
                Err(_) => thread::sleep(rt, Duration::from_millis(PAUSE)),
            }
        }
    }

    fn answer<R: Clock>(&self, rt: &R, alloc: Global, stream: TcpStream) -> io::Result<()> {
        let mut stream = stream;
        stream.set_read_timeout(Some(Duration::from_millis(PATIENCE)))?;
        let head = read_head(alloc, &mut stream)?;
        thread::sleep(rt, Duration::from_millis(self.millis));
        let name = self.name;
        let path = path_of(head.as_slice());
        let body = format!(in alloc; "{name} answers {path}\n")?;
        let length = body.len();
        let answer = format!(in alloc;
            "HTTP/1.1 200 OK\r\nContent-Type: text/plain\r\nContent-Length: {length}\r\nConnection: close\r\n\r\n{body}"
        )?;
        stream.write_all(answer.as_bytes())
    }
}

// Reads a head, and what comes with it.
fn read_head<S: Read>(alloc: Global, stream: &mut S) -> io::Result<Vec<u8>> {
    let mut head = Vec::new(alloc);
    let mut piece = [0u8; PIECE];
    for _ in 0..PIECES {
        let count = stream.read(&mut piece)?;
        head.extend_from_slice(&piece[..count])?;
        if count == 0 || head.as_slice().ends_with(b"\r\n\r\n") {
            break;
        }
    }
    Ok(head)
}

// Returns the second word of a head.
fn path_of(head: &[u8]) -> &str {
    let text = str::from_utf8(head).unwrap_or_default();
    text.split(' ').nth(1).unwrap_or_default()
}
