ghost use Rattle.std.specs.Prelude.{◌≡◌, ◌≢◌, ◌≤◌, [], length, take, drop};
ghost use Rattle.exchange_machine.specs.Histories.{ExchangeHistory, client_got, signed};
ghost use Rattle.exchange_machine.specs.Stages as stages;
ghost use Rattle.http_texts.specs.Replies.{refusal_text};
ghost use Rattle.http_texts.specs.declared.fault.Fault as faults;

use crate::signs::Sign;
use http_texts::{Code, Fault};

/// A refusal that is sent before an outbox was made: the bytes of it that are still to be sent.
#[derive(Drop)]
pub struct Telling {
    rest: &'static [u8],
}

impl Telling {
    pub(crate) fn of(code: Code) -> Telling
        ensures { result.rest.now ≡ refusal_text code }
    {
        Telling { rest: code.text() }
    }

    /// Refuses bytes that the proxy doesn't accept: 400.
    pub fn of_fault(fault: Fault) -> Telling
        requires { fault ≢ Fault.NoMemory }
        ensures tells { (h : ExchangeHistory) → stages.IsUnread fault h → stages.IsTelling result h }
        ensures told { result.rest.now ≡ refusal_text Code.BadRequest }
    {
        Telling::of(Code::BadRequest)
    }

    /// Refuses a request for want of memory: 503.
    pub fn starved() -> Telling
        ensures tells { (fault : faults.Fault) (h : ExchangeHistory) → stages.IsUnread fault h → stages.IsTelling result (signed h Sign.NoMemory) }
        ensures told { result.rest.now ≡ refusal_text Code.Unavailable }
    {
        Telling::of(Code::Unavailable)
    }

    /// Returns the bytes that the client is still to be sent.
    pub fn to_client(&self) -> &[u8]
        ensures { result.now ≡ self.now.rest.now }
    {
        self.rest
    }

    /// The client took this number of them.
    pub fn client_took(&mut self, count: usize)
        requires { count ≤ length self.old.rest.now }
        ensures took { (h : ExchangeHistory) → stages.IsTelling self.old h → stages.IsTelling self.new (client_got h (take count self.old.rest.now)) }
        ensures rest { self.new.rest.now ≡ drop count self.old.rest.now }
    {
        let (_, rest) = self.rest.split_at(count);
        self.rest = rest;
    }
}
