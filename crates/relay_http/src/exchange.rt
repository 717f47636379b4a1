ghost use Rattle.std.specs.Prelude.{◌≡◌, ◌≢◌, None, ◌≤◌, length, [], false, IfOk, IsTrue, ◌↔◌};
ghost use Rattle.relay_http.specs.declared.exchange.Stage.TheVariants.{Failed};

use crate::closing::Closing;
use base_verdict::Verdict;
use http_bodies::{INBOX_BYTES, Pipe};
use http_texts::Code;
use std::alloc::{AllocError, Global};

/// The stage of an exchange.
#[derive(Clone, Copy, Debug, PartialEq, Eq)]
pub enum Stage {
    New,
    /// The request's head was read.
    Asked,
    /// The request was handed on, under the pass of this ticket and this verdict.
    Forwarded { ticket: u64, verdict: Verdict },
    /// The answer was handed on.
    Answered,
    /// A fault was met, or the request was refused.
    Failed,
}

/// One request and its answer, between a client and a server.
///
/// Its calls are `read_request`, `go_on` or not, `forward` and `answer`, in this order and each at
/// most once. The last two require a pass for a slot, with the same ticket and verdict; while one
/// of them runs, its pass is borrowed and can't be posted. After a fault they answer `Closed`, and
/// `refuse` works once, as long as no byte of an answer was written.
#[derive(Drop)]
pub struct Exchange {
    pub(crate) pipe: Pipe,
    pub(crate) most: u64,
    pub(crate) stage: Stage,
    pub(crate) begun: bool,
    /// The fault that closed it.
    pub(crate) closing: Option<Closing>,
    /// The refusal that it was asked for.
    pub(crate) refused: Option<Code>,
    /// Whether that refusal was written whole.
    pub(crate) reached: bool,
    ghost drained: { pipe.outbox ≡ [] },
    pub ghost unclosed: { stage ≢ Failed → (closing ≡ None) × (refused ≡ None) },
}

impl Exchange {
    ghost use Rattle.relay_http.specs.States.{IsFresh, IsOpen};

    /// Makes an exchange that makes at most this number of reads and writes. It takes 84 KiB, once for its life.
    pub fn new(alloc: Global, turns: u64) -> Result<Exchange, AllocError>
        ensures fresh { IfOk result (IsFresh turns) }
        ensures unreached { IfOk result (λ exchange. exchange.reached ≡ false) }
    {
        let pipe = Pipe::new(alloc, turns)?;
        Ok(Exchange {
            pipe,
            most: turns,
            stage: Stage::New,
            begun: false,
            closing: None,
            refused: None,
            reached: false,
        })
    }

    /// Makes it new for the next client, without allocating.
    pub fn renew(&mut self)
        ensures fresh { IsFresh self.old.most self.new }
        ensures unreached { self.new.reached ≡ false }
    {
        self.pipe.renew(self.most);
        self.stage = Stage::New;
        self.begun = false;
        self.closing = None;
        self.refused = None;
        self.reached = false;
    }

    /// Returns the bytes that were read and aren't used yet: after a request's head, those of its
    /// body that came with it.
    pub fn held(&self) -> &[u8]
        ensures value { result.now ≡ self.now.pipe.inbox }
        ensures small { length self.now.pipe.inbox ≤ INBOX_BYTES }
    {
        self.pipe.held()
    }

    /// Continues in this new exchange a request that was read elsewhere, with the bytes after its head. `O(n)`.
    pub fn take_up(&mut self, bytes: &[u8])
        requires fresh { IsFresh self.old.most self.old }
        requires few { length bytes.now ≤ INBOX_BYTES }
        ensures held { self.new.pipe.inbox ≡ bytes.now }
        ensures stage { self.new.stage ≡ Stage.Asked }
        ensures turns { self.new.pipe.turns ≡ self.old.most }
        ensures most { self.new.most ≡ self.old.most }
        ensures begun { self.new.begun ≡ false }
        ensures unclosed { IsOpen self.new }
    {
        self.pipe.hold(bytes);
        self.stage = Stage::Asked;
    }

    /// Says whether a byte of an answer was written to the client.
    pub fn begun(&self) -> bool
        ensures { result ≡ self.now.begun }
    {
        self.begun
    }

    /// Returns the stage.
    pub fn stage(&self) -> Stage
        ensures { result ≡ self.now.stage }
    {
        self.stage
    }

    /// Returns the number of reads and writes that it may still make.
    pub fn turns(&self) -> u64
        ensures { result ≡ self.now.pipe.turns }
    {
        self.pipe.turns()
    }

    /// Returns the fault that closed it. A refusal doesn't replace it.
    pub fn closing(&self) -> Option<Closing>
        ensures { result ≡ self.now.closing }
    {
        self.closing
    }

    /// Says whether a fault or a refusal closed it. Until it is renewed, every call except a first `refuse` answers `Closed` then.
    pub fn is_closed(&self) -> bool
        ensures { IsTrue result ↔ (self.now.stage ≡ Stage.Failed) }
    {
        matches!(self.stage, Stage::Failed)
    }
}
