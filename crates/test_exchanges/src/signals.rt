//! Tests of calls that a signal interrupts.

use exchange_driver::{Duplex, ReadResult, Socket, WriteResult};
use std::alloc::Global;
use std::io;
use std::io::{Read, Write};

/// A source that returns two bytes, and then the end.
#[derive(Drop)]
struct Giver {
    /// This number of calls are interrupted by a signal first.
    signals: u32,
    given: bool,
}

/// A sink that keeps its bytes.
#[derive(Drop)]
struct Taker {
    signals: u32,
    bytes: Vec<u8>,
}

impl Read for Giver {
    fn read(&mut self, buf: &mut [u8]) -> io::Result<usize> {
        if self.signals > 0 {
            self.signals = self.signals.saturating_sub(1);
            return Err(io::Error::from(io::ErrorKind::Interrupted));
        }
        if self.given || buf.len() < 2 {
            return Ok(0);
        }
        buf[0] = b'h';
        buf[1] = b'i';
        self.given = true;
        Ok(2)
    }
}

impl Write for Taker {
    fn write(&mut self, buf: &[u8]) -> io::Result<usize> {
        if self.signals > 0 {
            self.signals = self.signals.saturating_sub(1);
            return Err(io::Error::from(io::ErrorKind::Interrupted));
        }
        match self.bytes.extend_from_slice(buf) {
            Ok(()) => Ok(buf.len()),
            Err(_) => Err(io::Error::from(io::ErrorKind::OutOfMemory)),
        }
    }

    fn flush(&mut self) -> io::Result<()> {
        Ok(())
    }
}

fn signalled(alloc: Global, signals: u32) -> Duplex<Giver, Taker> {
    let giver = Giver {
        signals,
        given: false,
    };
    let taker = Taker {
        signals,
        bytes: Vec::new(alloc),
    };
    Duplex::new(giver, taker)
}

#[test]
fn a_signal_is_neither_an_end_nor_a_failure(rt: HostRuntime) {
    let mut side = signalled(rt.alloc(), 3);
    let mut buffer = [0u8; 4];
    assert_eq!(rt; side.read_now(&mut buffer), ReadResult::Bytes(2));
    assert_eq!(rt; &buffer[..2], b"hi".as_slice());
    assert_eq!(rt;
        side.read_now(&mut buffer),
        ReadResult::Ended { well: true }
    );
    assert_eq!(rt; side.write_now(b"yes"), WriteResult::Bytes(3));
    assert_eq!(rt; side.writes.bytes.as_slice(), b"yes".as_slice());
}
