ghost use Rattle.std.specs.Prelude.{◌≡◌, ℕ, []};
ghost use Rattle.exchange_machine.specs.Histories.{ExchangeHistory};
ghost use Rattle.exchange_events.specs.Passes.{came_with};
ghost use Rattle.exchange_events.specs.Steps.{IsOwn, IsOwnOf, heard};
ghost use Rattle.exchange_events.specs.declared.exchange.Exchange.{Exchange};
ghost use Rattle.exchange_events.specs.declared.exchange.Outcome.{Outcome};
ghost use Rattle.exchange_seated.specs.Notices.{event_of};

use exchange_events::{Event, TimeoutKind};
use exchange_machine::Terms;

/// An event of an exchange without bytes and passes.
#[derive(Clone, Copy)]
pub enum Notice {
    /// No pass comes.
    Unserved,
    /// The server was reached, on a connection with these terms.
    Connected(Terms),
    /// The server can't be reached.
    Unreachable,
    /// The client sends no more.
    ClientEnd,
    /// The client's connection broke.
    ClientFailed,
    /// A timeout expired.
    TimeOver(TimeoutKind),
}

impl Notice {
    pub(crate) fn event(self) -> Event<'static>
        ensures of { result ≡ event_of self }
        ensures none { (used : ℕ) → came_with result used ≡ [] }
        ensures own { (outcome : Outcome) → IsOwnOf result outcome → IsOwn outcome }
        ensures sent { (x : Exchange) (used : ℕ) (h : ExchangeHistory) → (heard x result used h).to_server ≡ h.to_server }
        ensures came { (x : Exchange) (used : ℕ) (h : ExchangeHistory) → (heard x result used h).server_in ≡ h.server_in }
    {
        match self {
            Notice::Unserved => Event::Unserved,
            Notice::Connected(terms) => Event::Connected(terms),
            Notice::Unreachable => Event::Unreachable,
            Notice::ClientEnd => Event::ClientEnd,
            Notice::ClientFailed => Event::ClientFailed,
            Notice::TimeOver(clock) => Event::TimeOver(clock),
        }
    }
}
