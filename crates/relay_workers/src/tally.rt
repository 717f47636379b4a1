ghost use Rattle.std.specs.Prelude.{◌≡◌};
ghost use Rattle.relay_workers.specs.Tallies.{tally_noted, together};

use crate::outcome::Outcome;
use relay_http::Code;

/// The outcomes of a thread's clients. Each number saturates at its greatest value.
#[derive(Clone, Copy, Debug, PartialEq, Eq)]
pub struct Tally {
    /// All clients.
    pub clients: u64,
    /// Clients whose answers were handed on whole.
    pub answered: u64,
    /// Clients that were sent 400, 502 and 503, even where they left before they read it.
    pub bad_requests: u64,
    pub bad_gateways: u64,
    pub unavailable: u64,
}

impl Tally {
    /// Makes a tally without a client.
    pub fn zero() -> Tally
        ensures { result ≡ record { clients = 0; answered = 0; bad_requests = 0; bad_gateways = 0; unavailable = 0 } }
    {
        Tally {
            clients: 0,
            answered: 0,
            bad_requests: 0,
            bad_gateways: 0,
            unavailable: 0,
        }
    }

    /// Counts one more client with this outcome.
    pub fn note(&mut self, outcome: Outcome)
        ensures { self.new ≡ tally_noted outcome self.old }
    {
        self.clients = self.clients.saturating_add(1);
        match outcome {
            Outcome::Answered => self.answered = self.answered.saturating_add(1),
            Outcome::Refused(Code::BadRequest) => {
                self.bad_requests = self.bad_requests.saturating_add(1);
            }
            Outcome::Refused(Code::BadGateway) => {
                self.bad_gateways = self.bad_gateways.saturating_add(1);
            }
            Outcome::Refused(Code::Unavailable) => {
                self.unavailable = self.unavailable.saturating_add(1);
            }
            Outcome::Cut => {}
        }
    }

    /// Returns the sum of the two.
    pub fn sum(self, other: Tally) -> Tally
        ensures { result ≡ together self other }
    {
        Tally {
            clients: self.clients.saturating_add(other.clients),
            answered: self.answered.saturating_add(other.answered),
            bad_requests: self.bad_requests.saturating_add(other.bad_requests),
            bad_gateways: self.bad_gateways.saturating_add(other.bad_gateways),
            unavailable: self.unavailable.saturating_add(other.unavailable),
        }
    }
}
