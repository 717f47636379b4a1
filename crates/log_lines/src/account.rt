ghost use Rattle.std.specs.Prelude.{◌≡◌, ◌≢◌};
ghost use Rattle.log_lines.specs.Accounts as accounts;
ghost use Rattle.log_lines.specs.Letters.{well};

use crate::letters::{During, EndedBy, ExchangeEnd};
use due_key::{Class, Moment, Offset};
use std::net::SocketAddr;

/// The first line of a request.
#[derive(Debug, Drop)]
pub struct Asked {
    pub method: Vec<u8>,
    pub target: Vec<u8>,
    /// The digit after the dot: 0 or 1, of HTTP/1.0 or HTTP/1.1.
    pub minor: u8,
}

/// When each step of an exchange first happened; `None` where it didn't.
#[derive(Clone, Copy, Debug, PartialEq, Eq)]
pub struct Moments {
    /// The first byte of its request, or its client, came.
    pub began: Moment,
    /// Its whole head had come.
    pub asked: Option<Moment>,
    /// It got its last slot.
    pub granted: Option<Moment>,
    /// Its server was connected.
    pub connected: Option<Moment>,
    /// The first byte came from its server.
    pub answered: Option<Moment>,
    /// Its client was sent the whole answer, or it ended otherwise.
    pub ended: Moment,
}

/// A loop's record of an exchange.
#[derive(Debug, Drop)]
pub struct Account {
    pub client: Option<SocketAddr>,
    /// `None`: no head came that the proxy accepts.
    pub asked: Option<Asked>,
    /// The rules' decision; `None` where they weren't applied.
    pub wish: Option<(Class, Offset)>,
    /// The ticket of its request; `None` where it had no place.
    pub ticket: Option<u64>,
    /// The server that it was last given to.
    pub server: Option<usize>,
    pub moments: Moments,
    /// The status that its client was sent.
    pub status: Option<u16>,
    /// The number of bytes that were read from its client, and written to it.
    pub received: u64,
    pub sent: u64,
    pub ended: ExchangeEnd,
    /// The number of clients when it ended.
    pub clients: u64,
    /// No byte of it has come yet.
    pub is_silent: bool,
}

impl Account {
    /// Notes that it ended early, unless a cause is noted already.
    pub fn end_by(&mut self, by: EndedBy, during: During)
        ensures { self.new ≡ accounts.ended_by (record { by = by; during = during }) self.old }
    {
        if !is_early(self.ended.by) && is_early(by) {
            self.ended = ExchangeEnd { by, during };
        }
    }

    /// Returns what is under way, where its client wasn't sent its whole answer.
    pub fn under_way(&self) -> During
        ensures { result ≡ accounts.under_way self.now }
    {
        let moments = self.moments;
        if moments.asked.is_none() {
            During::Request
        } else if moments.granted.is_none() {
            During::Queue
        } else if moments.connected.is_none() {
            During::Connect
        } else if moments.answered.is_none() || self.status.is_none() {
            During::Head
        } else {
            During::Data
        }
    }

    /// Notes that its client was sent 400 though its server answered nothing: the request was at fault.
    pub fn blame_request(&mut self)
        ensures blamed { self.old.ended ≡ accounts.unanswered → self.old.status ≡ Some 400 → self.new ≡ record self.old { ended = accounts.refused } }
        ensures answered { self.old.ended ≢ accounts.unanswered → self.new ≡ self.old }
        ensures told { self.old.status ≢ Some 400 → self.new ≡ self.old }
    {
        let told_nothing = self.ended.by == EndedBy::Server && self.ended.during == During::Head;
        if told_nothing && self.status == Some(400) {
            self.ended = ExchangeEnd {
                by: EndedBy::Proxy,
                during: During::Request,
            };
        }
    }

    /// Notes the server that it is given to, whatever was noted of an earlier one.
    pub fn grant(&mut self, server: usize, now: Moment)
        ensures { self.new ≡ accounts.granted server now self.old }
    {
        self.server = Some(server);
        self.ended = ExchangeEnd::well();
        self.moments.granted = Some(now);
        self.moments.connected = None;
        self.moments.answered = None;
    }

    /// Makes the record of an exchange that begins.
    pub fn new(client: Option<SocketAddr>, began: Moment) -> Account
        ensures { result ≡ accounts.account_from client began }
    {
        Account {
            client,
            asked: None,
            wish: None,
            ticket: None,
            server: None,
            moments: Moments {
                began,
                asked: None,
                granted: None,
                connected: None,
                answered: None,
                ended: began,
            },
            status: None,
            received: 0,
            sent: 0,
            ended: ExchangeEnd::well(),
            clients: 0,
            is_silent: true,
        }
    }
}

// Says whether something ended it before its proper end.
fn is_early(by: EndedBy) -> bool
    ensures { result ≡ accounts.is_early by }
{
    by != EndedBy::Nobody
}
