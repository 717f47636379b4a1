ghost use Rattle.std.specs.Prelude.{◌≡◌, ◌+◌, ◌-◌, ◌^◌, ◌<◌, length, IfOk};
ghost use Rattle.std.specs.Io.{ReadsAtMost, WritesAtMost};
ghost use Rattle.std.specs.Io.KnownBytes.{ReadConsumes, WriteAppends};
ghost use Rattle.base_streams.specs.Streams.{Stream, Counts};

/// A call failed. For a write also: it took no byte.
#[derive(Clone, Copy, Debug, PartialEq, Eq)]
pub struct Failed;

/// A source of bytes.
pub trait Source {
    // The bytes that it has left, and the calls that were made.
    ghost stream: { Self → Stream };

    /// Reads once, into the front of the buffer.
    fn take(&mut self, buf: &mut [u8]) -> Result<usize, Failed>
        requires { (stream self.old).calls < 2 ^ 64 - 1 }
        ensures bound { ReadsAtMost result buf.new }
        ensures bytes { ReadConsumes (stream self.old).bytes (stream self.new).bytes result buf.new }
        ensures counted { Counts (stream self.old) (stream self.new) result };
}

/// A sink for bytes.
pub trait Sink {
    // The bytes that it has taken, and the calls that were made.
    ghost stream: { Self → Stream };

    /// Writes once, a front of the bytes with at least one of them.
    fn put(&mut self, bytes: &[u8]) -> Result<usize, Failed>
        requires some { 0 < length bytes.now }
        requires countable { (stream self.old).calls < 2 ^ 64 - 1 }
        ensures bound { WritesAtMost result bytes.now }
        ensures moves { IfOk result (λ count. 0 < count) }
        ensures bytes { WriteAppends (stream self.old).bytes (stream self.new).bytes result bytes.now }
        ensures counted { Counts (stream self.old) (stream self.new) result };

    /// Returns the number of its writes that succeeded.
    fn successes(&self) -> u64
        ensures { result + (stream self.now).failures ≡ (stream self.now).calls };
}
