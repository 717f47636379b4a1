//! From a pass at a place to its guest, and back to the dispatcher.

ghost use Rattle.std.specs.Prelude.{◌≡◌, [], None};
ghost use Rattle.loop_shared.specs.Looks.{OwesNoLook};

use crate::accounting::note_cause;
use crate::guest::{Guest, Task, Visit, Watch};
use crate::keeping::NextLook;
use crate::looping::Looper;
use crate::serving::MoreToDo;
use base_verdict::{Cause, Verdict};
use board_seats::Taken;
use exchange_seated::{Linked, Posting, Stage};
use locked_book::DeskName;
use log_lines::{During, EndedBy};
use loop_shared::{GrantedRequest, Looked, OwedAdmission, OwedLook, OwedLooks, Parked};
use loop_table::Hole;
use std::net::{Net, TcpListener, TcpStream};
use std::sync::Wait;
use std::sync::ledger::Ledger;
use std::time::Clock;

impl<
    'a,
    N: DeskName + Ledger,
    R: Net<Listener = TcpListener, Stream = TcpStream> + Clock + Print + Wait,
> Looper<'a, N, R> {
    /// Looks at each place that the gate reported, and goes on with the guests that are ready, until none is left.
    pub(crate) fn go_on(&mut self)
        ensures told { OwesNoLook self.new.gate.woken }
        ensures soon { self.new.agenda.soon ≡ [] }
    {
        for _ in self.rt.forever() {
            let mut owed = OwedLooks::of_gate(&mut self.gate);
            match owed.next() {
                Some(look) => {
                    self.look_at(look);
                    self.look_at_all(owed);
                }
                None => {
                    owed.end();
                    let Some(number) = self.agenda.take() else {
                        return;
                    };
                    if let Some(token) = self.guests.token_of(number) {
                        self.work(token);
                    }
                }
            }
        }
    }

    /// The same; and gives places that came free meanwhile to requests that wait for one.
    pub(crate) fn go_on_with_places(&mut self)
        ensures told { OwesNoLook self.new.gate.woken }
        ensures soon { self.new.agenda.soon ≡ [] }
        ensures freed { self.new.freed ≡ None }
    {
        for _ in self.rt.forever() {
            self.go_on();
            let Some(owed) = self.freed.take() else {
                return;
            };
            self.admit_all(owed);
        }
    }

    fn look_at_all(&mut self, owed: OwedLooks) {
        let mut owed = owed;
        for _ in self.rt.forever() {
            match owed.next() {
                Some(look) => self.look_at(look),
                None => return owed.end(),
            }
        }
        unreachable!()
    }

    fn look_at(&mut self, owed: OwedLook) {
        match self.granted_at(owed) {
            Some(granted) => self.take_in(granted),
            None => {}
        }
    }

    /// Looks at a place, and returns the request that waits there with its pass; `None` where no
    /// request waits there, or it waits on.
    pub(crate) fn granted_at(&mut self, owed: OwedLook) -> Option<GrantedRequest<N>> {
        let looked = self
            .shared
            .look_at(self.rt, &self.registry, &mut self.gate, owed);
        match looked {
            Looked::Granted(granted) => Some(granted),
            Looked::Waits | Looked::Unwatched(_) | Looked::Nobody(_) => None,
            Looked::NoSeat(owed) => {
                self.shared.look_again(self.rt, self.home, owed);
                None
            }
        }
    }

    // Puts a request with its verdict into a cell of this loop.
    fn take_in(&mut self, granted: GrantedRequest<N>) {
        match self.guests.open() {
            Some(hole) => {
                let then = self.welcome(granted, hole, Watch::Nothing);
                self.go(then);
            }
            None => {
                // There is no free cell: a loop has as many as its clients may have descriptors.
                let GrantedRequest { taken, parked } = granted;
                let mut parked = parked;
                self.give_back(taken);
                self.tell_end(
                    &mut parked.presence,
                    &parked.client,
                    EndedBy::Shortage,
                    Some(During::Queue),
                );
                self.shared.note_end(self.rt, parked.leave());
            }
        }
    }

    /// Goes on with a request that has its verdict: with its pass, or with the reason why it has
    /// none. Its client is watched under this cell's token.
    pub(crate) fn welcome(
        &mut self,
        granted: GrantedRequest<N>,
        hole: Hole,
        watch: Watch,
    ) -> MoreToDo<N> {
        let GrantedRequest { taken, parked } = granted;
        let Parked {
            presence,
            queued,
            client,
            at,
            failed,
            watched: _,
            came,
            late,
        } = parked;
        let mut visit = Visit::new(presence, client);
        visit.client_watch = watch;
        match taken.verdict() {
            Verdict::Serve(number) => {
                self.note_granted(&mut visit, number);
                visit.at = Some(at);
                visit.came = came;
                visit.tried = Some(number);
                visit.pauses = failed == Some(number);
                visit.task = Task::Dial;
                let linked = Linked::granted(self.settings.alloc, queued, taken);
                self.as_guest(linked, visit, hole)
            }
            Verdict::Told(cause) => {
                let stops = self.shared.seen_refusing().is_some();
                note_cause(&mut visit.presence, cause, !late, stops);
                self.give_back(taken);
                let linked = Linked::unseated(self.settings.alloc, queued);
                if cause == Cause::Aborted && !late {
                    return self.close_on(linked, visit, hole);
                }
                visit.task = Task::Refuse;
                self.as_guest(linked, visit, hole)
            }
        }
    }

    /// Posts a pass, and looks at what that freed before the client is told more.
    pub(crate) fn part(
        &mut self,
        posting: Posting<N>,
        guest: Box<Guest<N>>,
        hole: Hole,
    ) -> MoreToDo<N> {
        match guest.stage() {
            Stage::Waiting => {
                let Guest { linked, visit } = Box::into_inner(guest);
                match linked.into_queued() {
                    Ok(queued) => self.fail(posting, queued, visit, hole),
                    Err(linked) => {
                        self.post(posting);
                        self.close_on(linked, visit, hole)
                    }
                }
            }
            Stage::Over => {
                self.post(posting);
                self.close(guest, hole)
            }
            _ => {
                let mut guest = guest;
                self.release_server(&mut guest);
                guest.visit.at = None;
                guest.visit.task = Task::Serve;
                self.post(posting);
                self.keep(guest, hole, NextLook::Next)
            }
        }
    }

    /// Posts how an exchange ended, and collects it at its own place.
    pub(crate) fn post(&mut self, posting: Posting<N>) {
        let owed = self.shared.post(self.rt, &mut self.gate, posting);
        self.owe(owed);
    }

    // Posts a pass that no exchange used.
    fn give_back(&mut self, taken: Taken<N>) {
        let owed = self.shared.give_back(self.rt, &mut self.gate, taken);
        self.owe(owed);
    }

    /// Notes that a place may have come free.
    pub(crate) fn owe(&mut self, owed: OwedAdmission) {
        let all = match self.freed.take() {
            None => owed,
            Some(earlier) => earlier.and(owed),
        };
        match self.freed.replace(all) {
            None => {}
            Some(_) => unreachable!(),
        }
    }
}
