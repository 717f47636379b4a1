use crate::assertions::same;
use replay::{Fault, replay};
use std::alloc::Global;
use std::io;
use std::io::{Read, Write};
use std::process::Abort;

const SCRIPT: &[u8] = b"0 arrive 0 0\n9 done 1";

const TRACE: &[u8] = b"0 arrive 1 0 0\n  direct 1 s1\n9 done 1\n  free 1 s1\n  end 1\n";

// A reader of a text in pieces, until its turns are spent: the next read fails.
#[derive(Drop)]
struct Source<'a> {
    rest: &'a [u8],
    piece: usize,
    turns: usize,
}

impl<'a> Read for Source<'a> {
    fn read(&mut self, buf: &mut [u8]) -> io::Result<usize> {
        if self.turns == 0 {
            return Err(io::Error::from(io::ErrorKind::BrokenPipe));
        }
        self.turns -= 1;
        let count = self.piece.min(buf.len()).min(self.rest.len());
        let (front, rest) = self.rest.split_at(count);
        buf[..count].copy_from_slice(front);
        self.rest = rest;
        Ok(count)
    }
}

// A writer that takes bytes in pieces, until its turns are spent: the next write fails, or takes nothing.
#[derive(Drop)]
struct Sink {
    taken: Vec<u8>,
    piece: usize,
    turns: usize,
    fails: bool,
}

impl Write for Sink {
    fn write(&mut self, buf: &[u8]) -> io::Result<usize> {
        if self.turns == 0 {
            return if self.fails {
                Err(io::Error::from(io::ErrorKind::BrokenPipe))
            } else {
                Ok(0)
            };
        }
        self.turns -= 1;
        let count = self.piece.min(buf.len());
        self.taken.extend_from_slice(&buf[..count])?;
        Ok(count)
    }

    fn flush(&mut self) -> io::Result<()> {
        Ok(())
    }
}

/// The sizes of the pieces in which the script is read and its trace written, the number of each,
/// and whether the next write fails.
#[derive(Clone, Copy)]
struct Streams {
    read: usize,
    reads: usize,
    written: usize,
    writes: usize,
    fails: bool,
}

const UNBROKEN: Streams = Streams {
    read: 1000,
    reads: 1000,
    written: 1,
    writes: 1000,
    fails: true,
};

// Checks how the replay over these streams ends, and that this number of bytes of the trace are written.
fn ends(rt: &impl Abort, alloc: Global, streams: Streams, end: Result<(), Fault>, count: usize) {
    let mut source = Source {
        rest: SCRIPT,
        piece: streams.read,
        turns: streams.reads,
    };
    let mut sink = Sink {
        taken: Vec::new(alloc),
        piece: streams.written,
        turns: streams.writes,
        fails: streams.fails,
    };
    same(rt, replay(alloc, &mut source, &mut sink), end);
    same(rt, Some(sink.taken.as_slice()), TRACE.get(..count));
}

#[test]
fn pieces_are_joined(rt: HostRuntime) {
    for piece in 1..25usize {
        // The last read finds the end, after which none is made.
        let reads = SCRIPT.len().div_ceil(piece).saturating_add(1);
        let streams = Streams {
            read: piece,
            reads,
            written: piece,
            writes: TRACE.len().div_ceil(piece),
            fails: true,
        };
        ends(&rt, rt.alloc(), streams, Ok(()), TRACE.len());
    }
}

#[test]
fn a_failed_read_leaves_nothing_written(rt: HostRuntime) {
    for reads in 0..5usize {
        let streams = Streams {
            read: 5,
            reads,
            ..UNBROKEN
        };
        ends(&rt, rt.alloc(), streams, Err(Fault::Read), 0);
    }
}

#[test]
fn a_failed_write_leaves_a_front(rt: HostRuntime) {
    for writes in 0..11usize {
        for fails in [true, false] {
            let streams = Streams {
                written: 5,
                writes,
                fails,
                ..UNBROKEN
            };
            ends(&rt, rt.alloc(), streams, Err(Fault::Write), 5 * writes);
        }
    }
}
