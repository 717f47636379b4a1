//! From a pass to a connection to its server.

ghost use Rattle.std.specs.Prelude.{◌≡◌, ◌≢◌, IfSome, Some, true};
ghost use Rattle.std.specs.Bool.{OnTrue};
ghost use Rattle.exchange_events.specs.Passes.{held_by};
ghost use Rattle.exchange_seated.specs.Seats.{server_of};
ghost use Rattle.loop_events.specs.Rests.{goes_on};
ghost use Rattle.loop_events.specs.Visits.{redialed};

use crate::guest::{Guest, Task, Watch};
use crate::keeping::NextLook;
use crate::looping::Looper;
use crate::serving::MoreToDo;
use exchange_driver::Live;
use exchange_seated::{Linked, Notice};
use grant_board::BoardName;
use locked_book::DeskName;
use loop_shared::{DialFault, Dialed};
use loop_table::{Hole, Token};
use std::alloc::Global;
use std::net::{Net, TcpListener, TcpStream};
use std::sync::Wait;
use std::sync::ledger::Ledger;
use std::time::Clock;

/// The connection that a guest was given.
#[derive(Clone, Copy, Debug, PartialEq, Eq)]
enum ConnectionOrigin {
    /// A new one, which may still fail.
    Fresh,
    /// One that was used before.
    Used,
}

impl<
    'a,
    N: DeskName + Ledger,
    R: Net<Listener = TcpListener, Stream = TcpStream> + Clock + Print + Wait,
> Looper<'a, N, R> {
    /// Begins a connection to the server of a guest's pass, without waiting, where no used one is
    /// free. Where that server has just failed the guest, it waits a while first.
    pub(crate) fn dial(&mut self, guest: Box<Guest<N>>, hole: Hole) -> MoreToDo<N> {
        if guest.visit.pauses || guest.linked.socket().is_some() {
            return self.keep(guest, hole, NextLook::Rests);
        }
        let mut guest = guest;
        match self.begin(&mut guest) {
            None => self.tell_of_no_connection(guest, hole),
            Some(begun) => {
                if self.teller.is_some() {
                    count_anew(guest.linked.socket());
                }
                guest.visit.fresh = begun == ConnectionOrigin::Fresh;
                guest.visit.server_watch = self.watch_of(&guest, hole.token());
                match begun {
                    ConnectionOrigin::Fresh => self.look_at_connection(guest, hole, false),
                    ConnectionOrigin::Used => self.tell_of_connection(guest, hole),
                }
            }
        }
    }

    // Begins a connection, where the last look-up of the server's name found an address. `None`
    // where no connection can be had. By its type the guest's connection is one to the server of
    // its pass.
    fn begin(&mut self, guest: &mut Guest<N>) -> Option<ConnectionOrigin>
        ensures { IfSome result (λ _. guest.new.linked.line.there ≡ true) }
    {
        let server = guest.linked.seated().server()?;
        if self.takes_up(guest, server) {
            return Some(ConnectionOrigin::Used);
        }
        let server = guest.linked.seated().server()?;
        let dialed = self.opened(server)?;
        if link(&mut guest.linked, self.settings.alloc, dialed) {
            Some(ConnectionOrigin::Fresh)
        } else {
            None
        }
    }

    // Opens a connection. Where the system is short of descriptors, an unused connection is closed first.
    fn opened(&mut self, server: usize) -> Option<Dialed>
        ensures { IfSome result (λ dialed. dialed.server ≡ server) }
    {
        match self.shared.dial(self.rt, server) {
            Ok(dialed) => Some(dialed),
            Err(DialFault::NoConnection) if self.close_any() => {
                self.shared.dial(self.rt, server).ok()
            }
            Err(_) => None,
        }
    }

    // Registers a new connection with the poll.
    fn watch_of(&self, guest: &Guest<N>, token: Token) -> Watch
        ensures fresh { guest.now.visit.fresh ≡ true → result ≡ Watch.Nothing }
        ensures reads { result ≢ Watch.Both }
    {
        if !guest.visit.fresh && self.is_watched_anew(guest, token) {
            Watch::Reads
        } else {
            Watch::Nothing
        }
    }

    /// Finds out whether a connection that was begun has succeeded.
    pub(crate) fn look_at_connection(
        &mut self,
        guest: Box<Guest<N>>,
        hole: Hole,
        broken: bool,
    ) -> MoreToDo<N> {
        let is_there = match guest.linked.socket() {
            None => return self.keep(guest, hole, NextLook::Rests),
            Some(live) => live.stream().peer_addr().is_ok(),
        };
        if is_there {
            self.tell_of_connection(guest, hole)
        } else if broken {
            self.tell_of_no_connection(guest, hole)
        } else {
            self.keep(guest, hole, NextLook::Rests)
        }
    }

    fn tell_of_connection(&mut self, guest: Box<Guest<N>>, hole: Hole) -> MoreToDo<N> {
        let mut guest = guest;
        guest.visit.task = Task::Dial;
        let fresh = guest.visit.fresh;
        let terms = self.shared.terms(&guest.visit.presence, fresh);
        self.tell(guest, hole, Notice::Connected(terms))
    }

    /// Handles the failure of a connection to a guest's server, whose name is looked up again.
    pub(crate) fn tell_of_no_connection(
        &mut self,
        guest: Box<Guest<N>>,
        hole: Hole,
    ) -> MoreToDo<N> {
        if let Some(number) = guest.linked.seated().server() {
            self.shared.front.addresses.look_again(self.rt, number);
        }
        let mut guest = guest;
        guest.visit.task = Task::GiveUp;
        self.tell(guest, hole, Notice::Unreachable)
    }

    /// Opens another connection in place of one that broke before it got a byte of the request, or
    /// was used before and broke before a byte of the answer came: once for each of the two causes.
    pub(crate) fn redial(&mut self, guest: Box<Guest<N>>, hole: Hole) -> MoreToDo<N>
        ensures goes { goes_on result ≡ true }
        ensures guest { (it : _) (at : _) → result ≡ MoreToDo.Goes it at → (it.value ≡ record guest.value { visit = redialed guest.value.visit }) × (at ≡ hole) }
    {
        let mut guest = guest;
        guest.visit.redial();
        MoreToDo::Goes(guest, hole)
    }
}

// Makes a connection to the server of its pass the connection of an exchange.
fn link<N: BoardName + Ledger>(linked: &mut Linked<N, Live>, alloc: Global, dialed: Dialed) -> bool
    requires { server_of (held_by linked.old.seated.exchange) ≡ Some dialed.server }
    ensures { OnTrue result (linked.new.line.there ≡ true) }
{
    linked.open(alloc, dialed.into_live())
}

// Counts the connection's bytes from 0 for this exchange.
fn count_anew(server: Option<&Live>) {
    if let Some(live) = server {
        live.count_anew();
    }
}
