//! The clients of a loop in their stages.
//!
//! A `Guest` is a client from its first byte to its last, except while its request waits: then it
//! is `Parked` at its place, or an `Outsider`. A client whose exchange is over is `Lingering` until
//! it closes its side. An unused connection of a server has a cell too, so that the poll can report
//! it.

ghost use Rattle.std.specs.Prelude.{◌≡◌, ◌&&◌};
ghost use Rattle.exchange_events.specs.Chains as chains;
ghost use Rattle.exchange_seated.specs.Seats.{stage_of};
ghost use Rattle.loop_events.specs.Silent.{is_silent};
ghost use Rattle.loop_events.specs.Visits.{new_visit, without_server, renewed, redialed, watch_after};

use crate::resetting::reset;
use dispatch_state::Ticketed;
use due_key::Moment;
use exchange_driver::{Line, Live};
use exchange_seated::{Linked, Stage, Unused};
use grant_board::BoardName;
use loop_shared::Presence;
use std::os::fd::AsRawFd;
use std::sync::ledger::Ledger;

/// The most connections that are opened in place of ones that broke before the server got a byte.
const MOST_REDIALS: u32 = 1;

/// The timeouts of a loop.
#[derive(Clone, Copy, Debug, PartialEq, Eq)]
pub(crate) enum Keyword {
    /// `timeout client`.
    Client,
    /// `timeout connect`.
    Connect,
    /// `timeout server`.
    Server,
    /// The longest pause of a client between two requests.
    KeepAlive,
    /// How long a client lingers after its last answer.
    Linger,
    /// How long a request waits before it tries the server again that has just failed it.
    Turnaround,
    /// How long an unused connection of a server stays open.
    Unused,
}

/// The state of a client beside its exchange. It has no `Drop`, since its presence has none.
pub(crate) struct Visit {
    pub(crate) presence: Presence,
    pub(crate) client: Line<Live>,
    /// Its place and its ticket, where it has them.
    pub(crate) at: Option<Ticketed>,
    /// The server that it was last given to.
    pub(crate) tried: Option<usize>,
    /// When it began to wait for a place, if it had to.
    pub(crate) came: Option<Moment>,
    /// The client sends no more.
    pub(crate) ended: bool,
    /// The client has had an earlier request on this connection.
    pub(crate) asked_before: bool,
    /// It waits before it tries that server again.
    pub(crate) pauses: bool,
    /// The number of connections that were opened on its pass in place of ones that broke.
    pub(crate) redials: u32,
    /// Its server's connection was opened for this request, or there is none.
    pub(crate) fresh: bool,
    /// A used connection broke: it gets no other used one.
    pub(crate) spoilt: bool,
    /// What is to be done next.
    pub(crate) task: Task,
    /// What the poll watches of its client's and its server's connection.
    pub(crate) client_watch: Watch,
    pub(crate) server_watch: Watch,
    /// The timeout that runs.
    pub(crate) timer: Option<Keyword>,
}

/// What is to be done for a guest.
#[derive(Clone, Copy, Debug, PartialEq, Eq)]
pub(crate) enum Task {
    /// Read and write.
    Serve,
    /// Ask for a place for its request.
    Arrive,
    /// Connect to the server of its pass.
    Dial,
    /// Tell it that no pass comes.
    Refuse,
    /// Give its pass up, since its server can't be reached.
    GiveUp,
    /// End it: its client sends no more, and doesn't wait for an answer.
    Leave,
    /// End it: its client's connection broke.
    Fail,
}

/// What the poll watches of a socket.
#[derive(Clone, Copy, Debug, PartialEq, Eq)]
pub(crate) enum Watch {
    Nothing,
    Reads,
    Both,
}

/// A client that is served.
pub(crate) struct Guest<N: BoardName + Ledger> {
    pub(crate) linked: Linked<N, Live>,
    pub(crate) visit: Visit,
}

/// A client whose answer was sent whole: what it still sends is thrown away.
#[derive(Drop)]
pub(crate) struct Lingering {
    pub(crate) client: Live,
    /// The number of bytes that are still thrown away.
    pub(crate) left: usize,
    /// The moment when it began to linger.
    pub(crate) since: Moment,
}

/// The occupant of a loop's cell. Each is boxed, so that it isn't copied from call to call.
pub(crate) enum Resident<N: BoardName + Ledger> {
    Guest(Box<Guest<N>>),
    Lingering(Box<Lingering>),
    Unused(Box<Unused<Live>>),
}

impl<N: BoardName + Ledger> Resident<N> {
    /// Says whether it is a client between two requests, or an unused connection of a server.
    pub(crate) fn is_silent(&self) -> bool
        ensures { result ≡ is_silent self.now }
    {
        match self {
            Resident::Lingering(_) => false,
            Resident::Unused(_) => true,
            Resident::Guest(guest) => guest.is_silent(),
        }
    }
}

impl<N: BoardName + Ledger> Guest<N> {
    // Says whether its client had an earlier request, and has sent no byte of the next one.
    fn is_silent(&self) -> bool
        ensures { result ≡ (self.now.visit.asked_before && chains.is_silent self.now.linked.seated.exchange) }
    {
        self.visit.asked_before && self.linked.seated().is_silent()
    }

    /// Returns the stage of its exchange.
    pub(crate) fn stage(&self) -> Stage
        ensures { result ≡ stage_of self.now.linked.seated.exchange }
    {
        self.linked.seated().stage()
    }
}

impl Visit {
    /// Drops the connection to its server; the state of the next one begins anew.
    pub(crate) fn forget_server(&mut self)
        ensures { self.new ≡ without_server self.old }
    {
        self.server_watch = Watch::Nothing;
        self.fresh = true;
    }

    /// Prepares the visit for the client's next request.
    pub(crate) fn renew(&mut self)
        ensures { self.new ≡ renewed self.old }
    {
        self.forget_server();
        self.at = None;
        self.tried = None;
        self.came = None;
        self.asked_before = true;
        self.pauses = false;
        self.redials = 0;
        self.spoilt = false;
        self.task = Task::Serve;
    }

    /// Prepares it for another connection in place of one that broke before it got a byte of the
    /// request, or was used before and broke before a byte of the answer came: once for each of the
    /// two causes. Then its server counts as one that can't be reached.
    pub(crate) fn redial(&mut self)
        ensures { self.new ≡ redialed self.old }
    {
        let fresh = self.fresh;
        self.forget_server();
        if fresh {
            self.redials = self.redials.saturating_add(1);
        }
        self.spoilt = self.spoilt || !fresh;
        self.task = if self.redials <= MOST_REDIALS {
            Task::Dial
        } else {
            Task::GiveUp
        };
    }

    /// Separates what waits with its request: the presence of its client, and the client's connection.
    pub(crate) fn into_client(self) -> (Presence, Line<Live>)
        ensures { result ≡ (self.presence, self.client) }
    {
        let Visit {
            presence,
            client,
            at: _,
            tried: _,
            came: _,
            ended: _,
            asked_before: _,
            pauses: _,
            redials: _,
            fresh: _,
            spoilt: _,
            task: _,
            client_watch: _,
            server_watch: _,
            timer: _,
        } = self;
        (presence, client)
    }

    /// Makes the visit of a client that has asked for nothing yet.
    pub(crate) fn new(presence: Presence, client: Line<Live>) -> Visit
        ensures { result ≡ new_visit presence client }
    {
        Visit {
            presence,
            client,
            at: None,
            tried: None,
            came: None,
            ended: false,
            asked_before: false,
            pauses: false,
            redials: 0,
            fresh: true,
            spoilt: false,
            task: Task::Serve,
            client_watch: Watch::Nothing,
            server_watch: Watch::Nothing,
            timer: None,
        }
    }
}

impl Watch {
    /// Returns what the poll watches once it is asked to watch reads, or both reads and writes: what
    /// it watches already stays.
    pub(crate) fn after(self, writes: bool) -> Watch
        ensures { result ≡ watch_after self writes }
    {
        match (self, writes) {
            (Watch::Both, _) | (_, true) => Watch::Both,
            (Watch::Nothing | Watch::Reads, false) => Watch::Reads,
        }
    }
}

/// Resets an exchange's connection to its server amid a message.
pub(crate) fn break_off<N: BoardName + Ledger>(linked: &Linked<N, Live>) {
    if let Some(live) = linked.socket() {
        reset(live.stream().as_raw_fd());
    }
}
