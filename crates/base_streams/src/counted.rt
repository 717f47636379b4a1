ghost use Rattle.std.specs.Prelude.{◌≡◌, ◌≤◌};

use crate::streams::{Failed, Sink, Source};
use std::io::{Read, Write};

/// A reader or a writer of the standard library, as a source or a sink.
#[derive(Drop)]
pub struct Counted<'s, S> {
    stream: &'s mut S,
    calls: u64,
    failures: u64,
    ghost few: { failures ≤ calls },
}

impl<'s, S> Counted<'s, S> {
    /// Wraps a stream on which no call was made yet.
    pub fn new(stream: &'s mut S) -> Self
        ensures same { result.stream.ghost_name ≡ stream.entry.ghost_name }
        ensures now { result.stream.now ≡ stream.old }
        ensures calls { result.calls ≡ 0 }
        ensures failures { result.failures ≡ 0 }
    {
        Counted {
            stream,
            calls: 0,
            failures: 0,
        }
    }
}

impl<'s, R: Read> Source for Counted<'s, R> {
    ghost stream = { λ c. record { name = c.stream.ghost_name; bytes = R.remaining c.stream.now; calls = c.calls; failures = c.failures } };

    fn take(&mut self, buf: &mut [u8]) -> Result<usize, Failed> {
        self.calls += 1;
        match self.stream.read(buf) {
            Ok(count) => Ok(count),
            Err(_) => {
                self.failures += 1;
                Err(Failed)
            }
        }
    }
}

impl<'s, W: Write> Sink for Counted<'s, W> {
    ghost stream = { λ c. record { name = c.stream.ghost_name; bytes = W.contents c.stream.now; calls = c.calls; failures = c.failures } };

    fn put(&mut self, bytes: &[u8]) -> Result<usize, Failed> {
        self.calls += 1;
        match self.stream.write(bytes) {
            Ok(count) if 0 < count => Ok(count),
            _ => {
                self.failures += 1;
                Err(Failed)
            }
        }
    }

    fn successes(&self) -> u64 {
        self.calls - self.failures
    }
}
