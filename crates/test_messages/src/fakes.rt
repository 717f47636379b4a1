//! The sources and sinks of the tests.
use std::alloc::Global;
use std::io;
use std::io::{Read, Write};

/// A source of bytes, after which comes their end, or one byte a read for ever.
#[derive(Drop)]
pub(crate) struct Feed<'b> {
    pub(crate) bytes: &'b [u8],
    pub(crate) for_ever: Option<u8>,
    /// The most bytes of one read.
    pub(crate) most: usize,
    pub(crate) reads: usize,
    /// The read that fails, counted from 1.
    pub(crate) fails_at: usize,
}

impl<'b> Feed<'b> {
    /// Makes a source that returns all at once.
    pub(crate) fn of(bytes: &'b [u8]) -> Feed<'b> {
        Feed {
            bytes,
            for_ever: None,
            most: usize::MAX,
            reads: 0,
            fails_at: 0,
        }
    }
}

impl Read for Feed<'_> {
    fn read(&mut self, buf: &mut [u8]) -> io::Result<usize> {
        self.reads = self.reads.saturating_add(1);
        if self.reads == self.fails_at {
            return Err(io::Error::from(io::ErrorKind::BrokenPipe));
        }
        match self.for_ever {
            Some(byte) if self.bytes.is_empty() && !buf.is_empty() => {
                buf[0] = byte;
                Ok(1)
            }
            _ => {
                let count = self.bytes.len().min(buf.len()).min(self.most);
                buf[..count].copy_from_slice(&self.bytes[..count]);
                self.bytes = &self.bytes[count..];
                Ok(count)
            }
        }
    }
}

/// A sink that keeps its bytes.
#[derive(Drop)]
pub(crate) struct Log {
    pub(crate) bytes: Vec<u8>,
    /// The most bytes of one write.
    pub(crate) most: usize,
    pub(crate) writes: usize,
    /// The write that fails, counted from 1.
    pub(crate) fails_at: usize,
}

impl Log {
    /// Makes a sink that takes all at once.
    pub(crate) fn new(alloc: Global) -> Log {
        Log {
            bytes: Vec::new(alloc),
            most: usize::MAX,
            writes: 0,
            fails_at: 0,
        }
    }
}

impl Write for Log {
    fn write(&mut self, buf: &[u8]) -> io::Result<usize> {
        self.writes = self.writes.saturating_add(1);
        if self.writes == self.fails_at {
            return Err(io::Error::from(io::ErrorKind::BrokenPipe));
        }
        let count = buf.len().min(self.most);
        match self.bytes.extend_from_slice(&buf[..count]) {
            Ok(()) => Ok(count),
            Err(_) => Err(io::Error::from(io::ErrorKind::OutOfMemory)),
        }
    }

    fn flush(&mut self) -> io::Result<()> {
        Ok(())
    }
}
