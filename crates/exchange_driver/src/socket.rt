ghost use Rattle.std.specs.Prelude.{◌≡◌, ◌≤◌, ◌<◌, ◌∷◌, ℕ, List, [], Option, Bool, true, length, take};
ghost use Rattle.std.specs.Io.KnownBytes.{Consumes, Appends, IsAtEnd};
ghost use Rattle.exchange_driver.specs.Answers.{SocketAnswer, Heard, Said, came, went, is_nothing, is_full, is_still, with_answers};

/// The result of a read.
#[derive(Clone, Copy, Debug, PartialEq, Eq)]
pub enum ReadResult {
    /// This number of bytes, at least one.
    Bytes(usize),
    /// Nothing is there.
    Nothing,
    /// The end of the input, or a failure.
    Ended { well: bool },
}

/// The result of a write.
#[derive(Clone, Copy, Debug, PartialEq, Eq)]
pub enum WriteResult {
    /// This number of bytes, at least one.
    Bytes(usize),
    /// It is full.
    Full,
    /// It will never take any more.
    Failed,
}

/// A non-blocking stream in both directions. A call that a signal interrupts is made again.
pub trait Socket: Drop {
    /// The bytes that it has left to give, where they are known.
    ghost left: { Self → Option (List ℕ) };

    /// The bytes that it has taken, where they are known.
    ghost taken: { Self → Option (List ℕ) };

    /// Its last read answered that nothing is there, and nothing was reported since.
    ghost dry: { Self → Bool };

    /// Its last write answered that it is full, and nothing was reported since.
    ghost full: { Self → Bool };

    /// The answers that it gave, where it remembers them.
    ghost answers: { Self → Option (List SocketAnswer) };

    fn read_now(&mut self, buffer: &mut [u8]) -> ReadResult
        requires { 0 < length buffer.old }
        ensures within { came result ≤ length buffer.new }
        ensures length { length buffer.new ≡ length buffer.old }
        ensures some { (count : ℕ) → result ≡ ReadResult.Bytes count → 0 < count }
        ensures left { Consumes (left self.old) (left self.new) (take (came result) buffer.new) }
        ensures dry { dry self.new ≡ is_nothing result }
        ensures end { result ≡ ReadResult.Ended true → IsAtEnd (left self.new) }
        ensures taken { taken self.new ≡ taken self.old }
        ensures full { full self.new ≡ full self.old }
        ensures answers { answers self.new ≡ with_answers (Heard result ∷ []) (answers self.old) };

    fn write_now(&mut self, bytes: &[u8]) -> WriteResult
        requires { 0 < length bytes.now }
        ensures within { went result ≤ length bytes.now }
        ensures some { (count : ℕ) → result ≡ WriteResult.Bytes count → 0 < count }
        ensures taken { Appends (taken self.old) (taken self.new) (take (went result) bytes.now) }
        ensures full { full self.new ≡ is_full result }
        ensures left { left self.new ≡ left self.old }
        ensures dry { dry self.new ≡ dry self.old }
        ensures answers { answers self.new ≡ with_answers (Said result ∷ []) (answers self.old) };

    /// The poll reports it as ready to read or to write: the last answer of that kind no longer stands.
    fn wake(&mut self, reads: bool, writes: bool)
        ensures dry { dry self.new ≡ is_still (dry self.old) reads }
        ensures full { full self.new ≡ is_still (full self.old) writes }
        ensures left { left self.new ≡ left self.old }
        ensures taken { taken self.new ≡ taken self.old }
        ensures answers { answers self.new ≡ answers self.old };

    fn is_dry(&self) -> bool
        ensures { result ≡ dry self.now };

    fn is_full(&self) -> bool
        ensures { result ≡ full self.now };
}
