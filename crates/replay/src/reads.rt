ghost use Rattle.std.specs.Prelude.{◌≡◌, ◌+◌, ◌-◌, ◌^◌, ◌<◌, true, false, IfOk, Ok};
ghost use Rattle.std.specs.Io.{ReadsAtMost};
ghost use Rattle.std.specs.Io.KnownBytes.{ReadConsumes};
ghost use Rattle.base_streams.specs.Streams.{Counts};

use base_streams::{Failed, Source};

/// The reads of one source, which isn't asked again after its end.
#[derive(Drop)]
pub(crate) struct Reads {
    ended: bool,
}

impl Reads {
    /// Begins with a source of which nothing was read.
    pub(crate) fn new<S: Source>(_source: &S) -> Reads
        requires { (S.stream _source.now).calls ≡ 0 }
        ensures { result.ended ≡ false }
    {
        Reads { ended: false }
    }

    /// Reads once, into the front of the buffer.
    pub(crate) fn take<S: Source>(
        &mut self,
        source: &mut S,
        buf: &mut [u8],
    ) -> Result<usize, Failed>
        requires goes_on { self.old.ended ≡ false }
        requires countable { (S.stream source.old).calls < 2 ^ 64 - 1 }
        ensures bound { ReadsAtMost result buf.new }
        ensures bytes { ReadConsumes (S.stream source.old).bytes (S.stream source.new).bytes result buf.new }
        ensures counted { Counts (S.stream source.old) (S.stream source.new) result }
        ensures ended { result ≡ Ok 0 → self.new.ended ≡ true }
        ensures goes_on { IfOk result (λ read. 0 < read → self.new.ended ≡ false) }
    {
        let taken = source.take(buf);
        if let Ok(0) = taken {
            self.ended = true;
        }
        taken
    }
}
