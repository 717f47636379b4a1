//! A reader that keeps what it read, and the last failure.

use std::alloc::Global;
use std::io;
use std::io::{Error, Read};

/// Reads from another reader, and keeps the bytes, so that a line of them can be shown. Where there
/// is no memory for that, nothing is kept, and the reading goes on.
#[derive(Drop)]
pub struct Kept<'r, R> {
    reader: &'r mut R,
    bytes: Option<Vec<u8>>,
    failure: Option<Error>,
}

impl<'r, R: Read> Kept<'r, R> {
    pub fn new(alloc: Global, reader: &'r mut R) -> Self {
        Kept {
            reader,
            bytes: Some(Vec::new(alloc)),
            failure: None,
        }
    }

    /// Returns all that was read; `None` where there was no memory for it.
    pub fn seen(&self) -> Option<&[u8]> {
        match &self.bytes {
            Some(bytes) => Some(bytes.as_slice()),
            None => None,
        }
    }

    /// Returns the error of the last read that failed.
    pub fn failure(&self) -> Option<Error> {
        self.failure
    }
}

// Adds read bytes to those that are kept; where there is no memory for them, nothing is kept from then on.
fn keep(kept: &mut Option<Vec<u8>>, read: &[u8]) {
    let full = match kept {
        Some(bytes) => bytes.extend_from_slice(read).is_err(),
        None => false,
    };
    if full {
        *kept = None;
    }
}

impl<'r, R: Read> Read for Kept<'r, R> {
    ghost remaining = { λ kept. R.remaining kept.reader.now };

    fn read(&mut self, buf: &mut [u8]) -> io::Result<usize> {
        match self.reader.read(buf) {
            Ok(count) => {
                keep(&mut self.bytes, &buf[..count]);
                Ok(count)
            }
            Err(error) => {
                self.failure = Some(error);
                Err(error)
            }
        }
    }
}
