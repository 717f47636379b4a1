//! From a request to a place, and requests that wait there for their pass.

use crate::accounting::note_ticket;
use crate::guest::{Guest, Task, Visit};
use crate::keeping::NextLook;
use crate::looping::Looper;
use crate::serving::MoreToDo;
use dispatch_state::Ticketed;
use exchange_seated::{Linked, Posting, WaitingExchange};
use locked_book::DeskName;
use log_entries::Refusal;
use log_lines::EndedBy;
use loop_shared::{Gate, Outsider, Parked};
use loop_table::Hole;
use prio_rules::{Wish, decide};
use std::net::{Net, TcpListener, TcpStream};
use std::sync::Wait;
use std::sync::ledger::Ledger;
use std::time::Clock;

impl<
    'a,
    N: DeskName + Ledger,
    R: Net<Listener = TcpListener, Stream = TcpStream> + Clock + Print + Wait,
> Looper<'a, N, R> {
    /// Asks for a place for a guest's request. Where there is none, or others wait for one, it waits outside.
    pub(crate) fn arrive(&mut self, guest: Box<Guest<N>>, hole: Hole) -> MoreToDo<N> {
        let Guest { linked, visit } = Box::into_inner(guest);
        match linked.into_queued() {
            Err(linked) => self.close_on(linked, visit, hole),
            Ok(queued) => self.enter(queued, visit, hole),
        }
    }

    fn enter(&mut self, queued: WaitingExchange, visit: Visit, hole: Hole) -> MoreToDo<N> {
        let mut visit = visit;
        if self.shared.seen_refusing().is_some() {
            self.note_asked(&mut visit, queued.view(), None);
            return self.turn_away(queued, visit, hole);
        }
        let wish = decide(&self.shared.proxy.config, queued.view());
        self.note_asked(&mut visit, queued.view(), Some(&wish));
        let Some(nobody) = self.shared.seen_nobody_outside() else {
            return self.go_outside(queued, visit, &wish, hole);
        };
        match self.shared.arrive(self.rt, &mut self.gate, &wish, nobody) {
            Ok(at) => self.park(queued, visit, at, hole),
            Err(Refusal::PlacesFull) => self.go_outside(queued, visit, &wish, hole),
            Err(_) => self.turn_away(queued, visit, hole),
        }
    }

    // Ends a request that the dispatcher refuses for another cause than want of places.
    fn turn_away(&mut self, queued: WaitingExchange, visit: Visit, hole: Hole) -> MoreToDo<N> {
        let mut visit = visit;
        visit.task = Task::Refuse;
        self.as_guest(Linked::unseated(self.settings.alloc, queued), visit, hole)
    }

    // Lets a request wait for a place.
    fn go_outside(
        &mut self,
        queued: WaitingExchange,
        visit: Visit,
        wish: &Wish,
        hole: Hole,
    ) -> MoreToDo<N> {
        self.untime(visit.timer, hole.token().index());
        let (presence, client) = visit.into_client();
        let mut client = client;
        client.rest();
        let outsider = Outsider {
            presence,
            queued,
            client,
            came: self.gate.moment(),
            pin: wish.pin,
        };
        match self.wait_outside(wish, outsider) {
            Ok(()) => {
                self.guests.close(hole);
                MoreToDo::Rests
            }
            Err(outsider) => {
                let Outsider {
                    presence,
                    queued,
                    client,
                    came: _,
                    pin: _,
                } = outsider;
                let visit = Visit::new(presence, client);
                self.turn_away(queued, visit, hole)
            }
        }
    }

    // Puts the request at its place, and looks at the place afterwards.
    fn park(
        &mut self,
        queued: WaitingExchange,
        visit: Visit,
        at: Ticketed,
        hole: Hole,
    ) -> MoreToDo<N> {
        self.untime(visit.timer, hole.token().index());
        let watch = visit.client_watch;
        let (presence, client) = visit.into_client();
        let mut presence = presence;
        note_ticket(&mut presence, at);
        let mut client = client;
        client.rest();
        let look = self.shared.park(
            self.rt,
            Parked {
                presence,
                queued,
                client,
                at,
                failed: None,
                watched: None,
                came: None,
                late: false,
            },
        );
        match self.granted_at(look) {
            Some(granted) => self.welcome(granted, hole, watch),
            None => {
                self.guests.close(hole);
                self.shared.note_wait();
                MoreToDo::Rests
            }
        }
    }

    /// Handles a request whose server couldn't be reached: it is put at its place again, then its
    /// pass is posted, and then the place is looked at.
    pub(crate) fn fail(
        &mut self,
        posting: Posting<N>,
        queued: WaitingExchange,
        visit: Visit,
        hole: Hole,
    ) -> MoreToDo<N> {
        self.close_cell(hole, visit.timer);
        let (at, tried, came) = (visit.at, visit.tried, visit.came);
        let (presence, client) = visit.into_client();
        let look = match at {
            None => {
                let mut presence = presence;
                self.tell_end(&mut presence, &client, EndedBy::Client, None);
                self.shared.note_end(self.rt, presence);
                None
            }
            Some(at) => {
                let look = self.shared.park(
                    self.rt,
                    Parked {
                        presence,
                        queued,
                        client,
                        at,
                        failed: tried,
                        watched: None,
                        came,
                        late: false,
                    },
                );
                self.shared.note_wait();
                Some(look)
            }
        };
        self.post(posting);
        // Another thread that collected the failure before may have found no request here yet.
        if let Some(look) = look {
            look.put_off(&mut self.gate);
        }
        MoreToDo::Rests
    }

    /// The poll reports a client whose request waits. Where it has left, its request is aborted.
    pub(crate) fn hear_waiting(&mut self, place: usize, ticket: u64) {
        if self.shared.lies_left(self.rt, place, ticket).is_some() {
            let _ = self.shared.proxy.give_up(self.rt, &mut self.gate, ticket);
            self.go_on();
        }
    }
}
