//! Clients before a proxy and a server behind it, which make one step after the other.

use std::alloc::Global;
use std::io::{ErrorKind, Read, Write};
use std::net::{Net, Shutdown, SocketAddr, TcpListener, TcpStream};
use std::thread;
use std::time::{Clock, Duration};

/// The longest wait for something that has to come, in milliseconds.
const PATIENCE: u64 = 20_000;

/// The longest wait for something that is already there, in milliseconds.
const ALREADY: u64 = 100;

const MOST_PIECES: usize = 1 << 20;

/// A step of a client or of the server. Both clients and the server's connections are numbered in
/// the order in which they came.
#[derive(Clone, Copy, Debug)]
pub(crate) enum Step {
    /// A client connects and sends this.
    Comes(&'static [u8]),
    /// It sends more.
    Says(usize, &'static [u8]),
    /// It sends this in pieces of two bytes.
    SaysInPairs(usize, &'static [u8]),
    /// The next bytes that it gets are these.
    Gets(usize, &'static [u8]),
    /// The same, and then the end.
    Ends(usize, &'static [u8]),
    /// The same, and it has come already.
    EndsAlready(usize, &'static [u8]),
    /// Nothing has come for it since.
    IsSilent(usize),
    /// It sends no more, and says so.
    Finishes(usize),
    /// It closes its connection: by a reset, where bytes came that it hasn't read.
    Goes(usize),
    /// The server accepts a connection, with a request's head that begins so. Checks that come
    /// before it are accepted as well.
    Takes(&'static [u8]),
    /// The server accepts a connection that ends without a byte, as a check does.
    IsChecked,
    /// The next bytes from it are these.
    Hears(usize, &'static [u8]),
    /// The server answers with this.
    Answers(usize, &'static [u8]),
    /// It sends back this number of bytes that it gets.
    Echoes(usize, usize),
    /// It closes the connection.
    Leaves(usize),
    /// This number of milliseconds pass.
    Passes(u64),
}

/// All clients and server's connections that are there.
#[derive(Drop)]
pub(crate) struct Peers<'a> {
    alloc: Global,
    proxy: SocketAddr,
    listener: &'a TcpListener,
    clients: Vec<Option<TcpStream>>,
    servers: Vec<Option<TcpStream>>,
}

impl<'a> Peers<'a> {
    /// Makes an empty set of peers.
    pub(crate) fn new(alloc: Global, proxy: SocketAddr, listener: &'a TcpListener) -> Peers<'a> {
        Peers {
            alloc,
            proxy,
            listener,
            clients: Vec::new(alloc),
            servers: Vec::new(alloc),
        }
    }

    /// Makes a step. `None` where it failed.
    pub(crate) fn step<R: Net<Stream = TcpStream> + Clock>(
        &mut self,
        rt: &R,
        step: Step,
    ) -> Option<()> {
        match step {
            Step::Comes(text) => self.come(rt, text),
            Step::Says(client, text) => of(&mut self.clients, client)?.write_all(text).ok(),
            Step::SaysInPairs(client, text) => in_pairs(of(&mut self.clients, client)?, text),
            Step::Gets(client, text) => gets(self.alloc, of(&mut self.clients, client)?, text),
            Step::Ends(client, text) => ends(self.alloc, of(&mut self.clients, client)?, text),
            Step::EndsAlready(client, text) => {
                let client = of(&mut self.clients, client)?;
                client
                    .set_read_timeout(Some(Duration::from_millis(ALREADY)))
                    .ok()?;
                ends(self.alloc, client, text)
            }
            Step::IsSilent(client) => is_silent(of(&mut self.clients, client)?),
            Step::Finishes(client) => of(&mut self.clients, client)?
                .shutdown(Shutdown::Write)
                .ok(),
            Step::Goes(client) => self.go(client),
            Step::Takes(text) => self.take(rt, text),
            Step::IsChecked => {
                let check = patient(accepted(rt, self.listener)?)?;
                ends_at_once(&check).then_some(())
            }
            Step::Hears(server, text) => gets(self.alloc, of(&mut self.servers, server)?, text),
            Step::Answers(server, text) => of(&mut self.servers, server)?.write_all(text).ok(),
            Step::Echoes(server, count) => echo(self.alloc, of(&mut self.servers, server)?, count),
            Step::Leaves(server) => self.leave(server),
            Step::Passes(millis) => {
                thread::sleep(rt, Duration::from_millis(millis));
                Some(())
            }
        }
    }

    // A client connects and sends this.
    fn come<R: Net<Stream = TcpStream>>(&mut self, rt: &R, text: &[u8]) -> Option<()> {
        let mut client = patient(TcpStream::connect(rt, self.proxy).ok()?)?;
        client.write_all(text).ok()?;
        self.clients.push(Some(client)).ok()
    }

    fn go(&mut self, client: usize) -> Option<()> {
        *self.clients.get_mut(client)? = None;
        Some(())
    }

    fn leave(&mut self, server: usize) -> Option<()> {
        *self.servers.get_mut(server)? = None;
        Some(())
    }

    // Accepts connections until one isn't a check's, and reads its head, which begins so.
    fn take<R: Clock>(&mut self, rt: &R, text: &[u8]) -> Option<()> {
        for _ in 0..MOST_PIECES {
            let mut server = patient(accepted(rt, self.listener)?)?;
            if !ends_at_once(&server) {
                let head = head_of(self.alloc, &mut server)?;
                self.servers.push(Some(server)).ok()?;
                return head.starts_with(text).then_some(());
            }
        }
        None
    }
}

// Returns the peer with this number.
fn of(peers: &mut Vec<Option<TcpStream>>, number: usize) -> Option<&mut TcpStream> {
    peers.get_mut(number)?.as_mut()
}

// Makes the reads and writes of a connection fail where they take too long.
fn patient(stream: TcpStream) -> Option<TcpStream> {
    stream.set_nodelay(true).ok()?;
    let patience = Some(Duration::from_millis(PATIENCE));
    stream.set_read_timeout(patience).ok()?;
    stream.set_write_timeout(patience).ok()?;
    Some(stream)
}

// Returns the next connection of a non-blocking listener, within some time.
fn accepted<R: Clock>(rt: &R, listener: &TcpListener) -> Option<TcpStream> {
    for _ in 0..PATIENCE {
        if let Ok((stream, _)) = listener.accept() {
            return Some(stream);
        }
        thread::sleep(rt, Duration::from_millis(1));
    }
    None
}

// Says whether a connection ends before its first byte.
fn ends_at_once(stream: &TcpStream) -> bool {
    let mut byte = [0u8; 1];
    !matches!(stream.peek(&mut byte), Ok(count) if count > 0)
}

// Reads a head, to its empty line.
fn head_of(alloc: Global, stream: &mut TcpStream) -> Option<Vec<u8>> {
    let mut head = Vec::new(alloc);
    let mut byte = [0u8; 1];
    for _ in 0..MOST_PIECES {
        stream.read_exact(&mut byte).ok()?;
        head.extend_from_slice(&byte).ok()?;
        if head.ends_with(b"\r\n\r\n") {
            return Some(head);
        }
    }
    None
}

fn in_pairs(stream: &mut TcpStream, text: &[u8]) -> Option<()> {
    for pair in text.chunks(2) {
        stream.write_all(pair).ok()?;
    }
    Some(())
}

fn gets(alloc: Global, stream: &mut TcpStream, expected: &[u8]) -> Option<()> {
    let mut got = Vec::from_slice(alloc, expected).ok()?;
    got.fill(0);
    stream.read_exact(&mut got).ok()?;
    (got.as_slice() == expected).then_some(())
}

fn is_silent(stream: &TcpStream) -> Option<()> {
    stream.set_nonblocking(true).ok()?;
    let mut byte = [0u8; 1];
    let is_silent = match stream.peek(&mut byte) {
        Ok(_) => false,
        Err(error) => error.kind() == ErrorKind::WouldBlock,
    };
    stream.set_nonblocking(false).ok()?;
    is_silent.then_some(())
}

fn ends(alloc: Global, stream: &mut TcpStream, expected: &[u8]) -> Option<()> {
    let mut got = Vec::new(alloc);
    stream.read_to_end(&mut got).ok()?;
    (got.as_slice() == expected).then_some(())
}

// Sends back what comes, until this number of bytes were sent.
fn echo(alloc: Global, stream: &mut TcpStream, count: usize) -> Option<()> {
    let mut buffer = vec![in alloc; 0u8; 65536].ok()?;
    let mut left = count;
    for _ in 0..MOST_PIECES {
        if left == 0 {
            return Some(());
        }
        let came = stream.read(&mut buffer).ok()?;
        let piece = buffer.get(..came)?;
        stream.write_all(piece).ok()?;
        left = left.checked_sub(came)?;
    }
    None
}
