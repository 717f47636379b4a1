ghost use Rattle.std.specs.Prelude.{◌≡◌, ◌<◌, ◌≤◌, ◌↔◌, IsTrue, if◌then◌else◌, Some, None, is_some, true, vec_len};

use crate::descriptors::ConnectionBounds;
use crate::mail::Mailbox;
use crate::outside::Outside;
use crate::owed::OwedLook;
use crate::owed_looks::OwedLooks;
use crate::parked::Parked;
use crate::parked_cells::leave_all;
use crate::presence::Presence;
use crate::unused::UnusedCounts;
use base_places::PlaceSet;
use board_seats::{Idle, Lent, Seats};
use exchange_machine::Terms;
use locked_book::DeskName;
use relay_http::{Additions, Persistence};
use relay_workers::Proxy;
use run_gate::GateShared;
use std::alloc::AllocError;
use std::net::IpAddr;
use std::sync::atomic::{AtomicBool, AtomicU64, Ordering};
use std::sync::ledger::{Blank, Ledger};
use std::sync::{Condvar, Mutex, Wait};

/// The parts that it is made of. It has no `Drop`, since `Outside` has none.
pub struct SharedParts {
    /// A cell for each place.
    pub cells: Vec<Mutex<Option<Parked>>>,
    /// A mailbox for each loop.
    pub mail: Vec<Mailbox>,
    /// The most connections of clients at a time.
    pub most: ConnectionBounds,
    /// The requests that wait for a place, and how many of them stop the accepting of clients.
    pub outside: Outside,
    pub most_outside: u64,
    /// The counts of unused connections of servers.
    pub unused: UnusedCounts,
}

/// The state that all threads share.
pub struct Shared<'a, N: DeskName + Ledger> {
    pub proxy: &'a Proxy<N>,
    pub front: &'a GateShared<'a>,
    /// The cell of each place, where its request lies until its pass is there.
    pub(crate) cells: Vec<Mutex<Option<Parked>>>,
    /// The seats: the idle ones and the lent ones.
    pub(crate) seats: Mutex<Seats<N>>,
    /// The requests that wait for a place, and their number.
    pub(crate) outside: Mutex<Outside>,
    pub(crate) outsiders: AtomicU64,
    /// The number of waiting requests at which no client is accepted.
    pub(crate) most_outside: u64,
    /// The counts of unused connections of servers.
    pub(crate) unused: UnusedCounts,
    pub(crate) mail: Vec<Mailbox>,
    /// The most connections of clients at a time.
    pub most: ConnectionBounds,
    /// The number of clients that came, and of those that are done.
    pub(crate) came: AtomicU64,
    pub(crate) ended: AtomicU64,
    /// Requests wait that may time out, so the first loop looks at the queues.
    pub(crate) waits: AtomicBool,
    /// No new clients are accepted; no more can come.
    pub(crate) stopping: AtomicBool,
    pub(crate) deaf: AtomicBool,
    /// Waiting requests are told that they aren't served.
    pub(crate) refusing: AtomicBool,
    pub(crate) over: AtomicBool,
    /// The end of the proxy, for threads that wait for it.
    pub(crate) ended_all: Mutex<bool>,
    pub(crate) bell: Condvar,
    /// The proxy ended for want of memory or of a thread.
    pub(crate) failed: AtomicBool,
    ghost sized: { vec_len cells ≡ N.terms.places },
    /// The gates have the proxy's configuration.
    pub ghost of_config: { front.now.config.now ≡ proxy.now.config },
}

impl<'a, N: DeskName + Ledger> Shared<'a, N> {
    /// Makes the shared state of a proxy, with these seats, which are accounted for on this blank.
    pub fn new(
        proxy: &'a Proxy<N>,
        front: &'a GateShared<'a>,
        seats: (Vec<Idle<N>>, Blank),
        parts: SharedParts,
    ) -> Shared<'a, N>
        requires config { front.now.config.now ≡ proxy.now.config }
        requires cells { vec_len parts.cells ≡ N.terms.places }
        requires ledger { (seats.1.name ≡ N.name) × (seats.1.parts ≡ N.parts) }
        requires seats { vec_len seats.0 ≤ seats.1.parts }
    {
        let SharedParts {
            cells,
            mail,
            most,
            outside,
            most_outside,
            unused,
        } = parts;
        Shared {
            proxy,
            front,
            cells,
            seats: Mutex::new(Seats::open(seats.0, seats.1)),
            outside: Mutex::new(outside),
            outsiders: AtomicU64::new(0),
            most_outside,
            unused,
            mail,
            most,
            came: AtomicU64::new(0),
            ended: AtomicU64::new(0),
            waits: AtomicBool::new(false),
            stopping: AtomicBool::new(false),
            deaf: AtomicBool::new(false),
            refusing: AtomicBool::new(false),
            over: AtomicBool::new(false),
            ended_all: Mutex::new(false),
            bell: Condvar::new(),
            failed: AtomicBool::new(false),
        }
    }

    /// Ends what was still to be done, and returns the idle seats. `Ok`: nothing was short.
    pub fn end(self) -> (Vec<Idle<N>>, Result<(), AllocError>) {
        let Shared {
            proxy: _,
            front: _,
            cells,
            seats,
            outside,
            outsiders: _,
            most_outside: _,
            unused: _,
            mail: _,
            most: _,
            came: _,
            ended: _,
            waits: _,
            stopping: _,
            deaf: _,
            refusing: _,
            over: _,
            ended_all: _,
            bell: _,
            failed,
        } = self;
        outside.into_inner().end();
        leave_all(cells);
        let seats = seats.into_inner().end();
        if failed.load(Ordering::SeqCst) {
            (seats, Err(AllocError))
        } else {
            (seats, Ok(()))
        }
    }
}

impl<N: DeskName + Ledger> Shared<'_, N> {
    /// Says whether a place is one of the board's.
    pub fn has(&self, place: usize) -> bool
        ensures { IsTrue result ↔ (place < N.terms.places) }
    {
        place < self.cells.len()
    }

    /// Returns the number of places.
    pub fn places(&self) -> usize {
        self.cells.len()
    }

    /// Returns the number of loops.
    pub fn loops(&self) -> usize {
        self.mail.len()
    }

    // Takes a lent seat back. There is room for each.
    pub(crate) fn return_seat<R: Wait>(&self, rt: &R, lent: Lent<N>) {
        self.seats.lock(rt).give_back(lent);
    }

    /// Says whether some server is checked.
    pub fn has_checks(&self) -> bool {
        let servers = self.front.config.servers.as_slice();
        servers.iter().any(|server| server.check.is_some())
    }

    /// Says whether the proxy is steered while it serves.
    pub fn has_controls(&self) -> bool {
        self.front.controls.is_some()
    }

    /// Returns the terms of a server's connection, which was opened for this request or is used
    /// again: whether its server is told the client's address, whether it may stay open for other
    /// requests, and whether the client may stay. A client may stay only as long as there is room
    /// for others.
    pub fn terms(&self, presence: &Presence, fresh: bool) -> Terms
        ensures fresh { result.fresh ≡ fresh }
        ensures adds { result.adds ≡ record { asks = if is_some self.now.front.now.reusing then Persistence.Persist else Persistence.Close; client = if self.now.front.now.forwarded_for then Some presence.now.address else None } }
        ensures willing { result.willing ≡ true → is_some self.now.front.now.keeping ≡ true }
    {
        let asks = if self.front.reusing.is_some() {
            Persistence::Persist
        } else {
            Persistence::Close
        };
        Terms {
            adds: additions(asks, self.front.forwarded_for, presence.address()),
            willing: self.front.keeping.is_some()
                && self.has_room()
                && self.seen_stopping().is_none(),
            fresh,
        }
    }

    /// Has each place looked at by some loop.
    pub fn send_places<R: Wait>(&self, rt: &R, owed: OwedLooks) {
        let mut owed = owed;
        for _ in rt.forever() {
            let Some(look) = owed.next() else {
                return owed.end();
            };
            let home = look.place() % self.mail.len().max(1);
            self.look_again(rt, home, look);
        }
        unreachable!()
    }

    /// Takes the looks that a loop was asked for since the last call.
    pub fn take_mail<R: Wait>(&self, rt: &R, home: usize) -> OwedLooks {
        match self.mail.as_slice().get(home) {
            Some(mail) => mail.take_all(rt),
            None => OwedLooks::of(PlaceSet::new()),
        }
    }

    /// Has a loop look at a place in its next round. Without such a loop nobody looks.
    pub fn look_again<R: Wait>(&self, rt: &R, home: usize, look: OwedLook) {
        match self.mail.as_slice().get(home) {
            Some(mail) => mail.send(rt, look),
            None => look.end_without_loop(self, home),
        }
    }
}

// Returns the additions to a request: whether its server's connection stays open, and its client's
// address, where these are wanted.
fn additions(asks: Persistence, names: bool, client: IpAddr) -> Additions
    ensures { result ≡ record { asks = asks; client = if names then Some client else None } }
{
    Additions {
        asks,
        client: if names { Some(client) } else { None },
    }
}
