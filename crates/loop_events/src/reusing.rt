//! Connections of servers that stay open for further requests (`run --reuse`).
//!
//! A connection whose exchange ended clean gets a cell of its loop, and the poll watches it: bytes
//! or an end on it close it. The last one used is the first to be used again, once a read has found
//! nothing on it.

ghost use Rattle.std.specs.Bool.{OnTrue, OnFalse};
ghost use Rattle.std.specs.Prelude.{◌≡◌, ◌≢◌, ◌<◌, ◌+◌, ◌-◌, ℕ, [], ◌∷◌, ◌++◌, true, length, slice_get, MatchOption, IfOk};
ghost use Rattle.loop_table.specs.TokenTables.{IsOut, closed};
ghost use Rattle.loop_events.specs.Shelves.{shelf_at, without};
ghost use Rattle.loop_events.specs.Timeouts.{number_of};
ghost use Rattle.loop_shared.specs.Timed.{Stops};

use crate::accounting::note_unanswered;
use crate::guest::{Guest, Keyword, Resident, break_off};
use crate::looping::Looper;
use exchange_driver::Live;
use exchange_seated::Unused;
use locked_book::DeskName;
use loop_shared::watch_anew;
use loop_table::{Hole, Subject, Token};
use mio::Interest;
use std::alloc::{AllocError, Global};
use std::net::{Net, TcpListener, TcpStream};
use std::os::fd::AsRawFd;
use std::sync::Wait;
use std::sync::ledger::Ledger;
use std::time::Clock;

/// The unused connections of a loop: the cells of each server's, the last one used last.
#[derive(Drop)]
pub(crate) struct UnusedConnections {
    shelves: Vec<Vec<Token>>,
    /// The number of all of them, and the most that there may be.
    count: usize,
    most: usize,
}

impl UnusedConnections {
    /// Makes empty shelves for this number of servers and at most this number of connections.
    pub(crate) fn empty(
        alloc: Global,
        servers: usize,
        most: usize,
    ) -> Result<UnusedConnections, AllocError>
        ensures empty { IfOk result (λ made. (server : ℕ) → shelf_at made.shelves.items server ≡ []) }
        ensures servers { IfOk result (λ made. length made.shelves.items ≡ servers) }
        ensures bounds { IfOk result (λ made. (made.count ≡ 0) × (made.most ≡ most)) }
    {
        let mut shelves = Vec::with_capacity(alloc, servers)?;
        for _ in 0..servers {
            shelves.push(Vec::new(alloc))?;
        }
        Ok(UnusedConnections {
            shelves,
            count: 0,
            most,
        })
    }

    // Returns the number of servers.
    fn servers(&self) -> usize
        ensures { result ≡ length self.now.shelves.items }
    {
        self.shelves.len()
    }

    /// Adds a connection. False where there are as many as there may be, or no memory for one more.
    fn put(&mut self, server: usize, token: Token) -> bool
        ensures put { OnTrue result (shelf_at self.new.shelves.items server ≡ shelf_at self.old.shelves.items server ++ token ∷ []) }
        ensures others { (other : ℕ) → other ≢ server → shelf_at self.new.shelves.items other ≡ shelf_at self.old.shelves.items other }
        ensures count { OnTrue result (self.new.count ≡ self.old.count + 1) }
        ensures few { OnTrue result (self.old.count < self.old.most) }
        ensures most { self.new.most ≡ self.old.most }
        ensures refused { OnFalse result ((self.new.count ≡ self.old.count) × (shelf_at self.new.shelves.items server ≡ shelf_at self.old.shelves.items server)) }
    {
        if self.most <= self.count {
            return false;
        }
        let is_put = match self.shelves.get_mut(server) {
            None => false,
            Some(shelf) => shelf.push(token).is_ok(),
        };
        if is_put {
            self.count = self.count.saturating_add(1);
        }
        is_put
    }

    /// Takes the last used connection of a server.
    fn take(&mut self, server: usize) -> Option<Token>
        ensures last { MatchOption result (shelf_at self.old.shelves.items server ≡ []) (λ token. shelf_at self.old.shelves.items server ≡ shelf_at self.new.shelves.items server ++ token ∷ []) }
        ensures others { (other : ℕ) → other ≢ server → shelf_at self.new.shelves.items other ≡ shelf_at self.old.shelves.items other }
        ensures count { MatchOption result (self.new.count ≡ self.old.count) (λ _. self.new.count ≡ self.old.count - 1) }
    {
        let token = self.shelves.get_mut(server)?.pop()?;
        self.count = self.count.saturating_sub(1);
        Some(token)
    }

    /// Returns the connection that has been unused for longest. `O(n)`.
    fn oldest(&self, server: usize) -> Option<Token>
        ensures { result ≡ slice_get (shelf_at self.now.shelves.items server) 0 }
    {
        self.shelves.get(server)?.first().copied()
    }

    /// Removes a connection. `O(n)`.
    fn forget(&mut self, server: usize, token: Token)
        ensures gone { shelf_at self.new.shelves.items server ≡ without token (shelf_at self.old.shelves.items server) }
        ensures others { (other : ℕ) → other ≢ server → shelf_at self.new.shelves.items other ≡ shelf_at self.old.shelves.items other }
        ensures count { self.new.count ≡ self.old.count - (length (shelf_at self.old.shelves.items server) - length (shelf_at self.new.shelves.items server)) }
    {
        if let Some(shelf) = self.shelves.get_mut(server) {
            let before = shelf.len();
            remove(shelf, token);
            let gone = before.saturating_sub(shelf.len());
            self.count = self.count.saturating_sub(gone);
        }
    }
}

impl<
    'a,
    N: DeskName + Ledger,
    R: Net<Listener = TcpListener, Stream = TcpStream> + Clock + Print + Wait,
> Looper<'a, N, R> {
    /// Takes the server's connection from a guest: it is kept where reuse is on and the exchange
    /// ended clean, and reset where the answer isn't whole.
    pub(crate) fn release_server(&mut self, guest: &mut Guest<N>) {
        let Guest { linked, visit } = guest;
        if !linked.seated().is_answered() {
            break_off(linked);
            note_unanswered(visit);
        }
        visit.forget_server();
        let unused = linked.release(self.settings.alloc);
        if let (Some(unused), Some(_)) = (unused, self.shared.front.reusing) {
            self.set_aside(unused);
        }
    }

    // Keeps a connection, or closes it where the server has as many as it may, or where memory or
    // the system is short.
    fn set_aside(&mut self, unused: Unused<Live>) {
        let server = unused.server();
        if self.shared.seen_stopping().is_some() || !self.shared.note_unused(server) {
            return;
        }
        let Some(hole) = self.guests.open() else {
            return self.shared.note_used(server);
        };
        let token = hole.token();
        let descriptor = unused.socket().stream().as_raw_fd();
        let subject = Subject::Server(token);
        let is_kept = watch_anew(&self.registry, descriptor, subject, Interest::READABLE).is_some()
            && self.shelves.put(server, token);
        if !is_kept {
            self.guests.close(hole);
            return self.shared.note_used(server);
        }
        match Box::new(self.settings.alloc, unused) {
            Err(_) => {
                self.guests.close(hole);
                self.shared.note_used(server);
            }
            Ok(unused) => {
                self.begin_time(Some(Keyword::Unused), token.index());
                self.lay(Resident::Unused(unused), hole);
            }
        }
    }

    /// Gives the guest a used connection to its server, where its request may have one. Where there
    /// is none and the server has too many, an unused one is closed to make room for a new one.
    pub(crate) fn takes_up(&mut self, guest: &mut Guest<N>, server: usize) -> bool
        ensures { OnTrue result (guest.new.linked.line.there ≡ true) }
    {
        if !guest.visit.spoilt && guest.linked.seated().takes_used() {
            for _ in self.rt.forever() {
                let Some(unused) = self.take_unused(server) else {
                    break;
                };
                let buffer = self.buffer.as_mut_slice();
                if let Ok(()) = guest.linked.take_up(self.settings.alloc, unused, buffer) {
                    return true;
                }
            }
        }
        if self.shared.is_crowded_at(self.rt, server) && !self.close_oldest(server) {
            self.shared.call_for_one(server);
        }
        false
    }

    /// Closes the connections that other loops ask for.
    pub(crate) fn close_called_for(&mut self) {
        for server in 0..self.shelves.servers() {
            if self.shelves.oldest(server).is_some() && self.shared.is_one_called_for(server) {
                self.close_oldest(server);
            }
        }
    }

    /// Closes an unused connection of any server. False where there is none.
    pub(crate) fn close_any(&mut self) -> bool {
        for server in 0..self.shelves.servers() {
            if self.close_oldest(server) {
                return true;
            }
        }
        false
    }

    // Closes a server's connection that has been unused for longest.
    fn close_oldest(&mut self, server: usize) -> bool {
        let Some(token) = self.shelves.oldest(server) else {
            return false;
        };
        self.shelves.forget(server, token);
        let Some((resident, hole)) = self.guests.lend(token) else {
            return false;
        };
        match resident {
            Resident::Unused(unused) => {
                self.end_unused(unused, hole);
                true
            }
            resident => {
                self.lay(resident, hole);
                false
            }
        }
    }

    // Takes the last used connection out of its cell.
    fn take_unused(&mut self, server: usize) -> Option<Unused<Live>> {
        for _ in self.rt.forever() {
            let token = self.shelves.take(server)?;
            let Some((resident, hole)) = self.guests.lend(token) else {
                continue;
            };
            match resident {
                Resident::Unused(unused) => {
                    self.close_cell(hole, Some(Keyword::Unused));
                    self.shared.note_used(unused.server());
                    return Some(Box::into_inner(unused));
                }
                resident => self.lay(resident, hole),
            }
        }
        unreachable!()
    }

    /// Closes an unused connection on which something came, or whose time is over.
    pub(crate) fn end_unused(&mut self, unused: Box<Unused<Live>>, hole: Hole)
        ensures gone { shelf_at self.new.shelves.shelves.items unused.value.server ≡ without hole.token (shelf_at self.old.shelves.shelves.items unused.value.server) }
        ensures stops { Stops self.old.timers self.new.timers (number_of self.old.keywords Keyword.Unused) hole.token.index }
        ensures closed { IsOut self.old.guests hole.token → self.new.guests ≡ closed self.old.guests hole.token }
    {
        let server = unused.server();
        self.shelves.forget(server, hole.token());
        self.close_cell(hole, Some(Keyword::Unused));
        self.shared.note_used(server);
    }

    /// Registers a connection that is used again with the poll.
    pub(crate) fn is_watched_anew(&self, guest: &Guest<N>, token: Token) -> bool {
        match guest.linked.socket() {
            None => false,
            Some(live) => {
                let descriptor = live.stream().as_raw_fd();
                let subject = Subject::Server(token);
                watch_anew(&self.registry, descriptor, subject, Interest::READABLE).is_some()
            }
        }
    }
}

// Takes a token out of a list.
fn remove(tokens: &mut Vec<Token>, token: Token)
    ensures { tokens.new.items ≡ without token tokens.old.items }
{
    tokens.retain(|it| *it != token);
}
