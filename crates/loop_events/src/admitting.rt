//! Requests that wait outside for a place: they come, get one, leave, or are told that they get none.

use crate::accounting::{note_refused, note_ticket};
use crate::guest::{Task, Visit};
use crate::looping::Looper;
use dispatch_state::Ticketed;
use due_key::Moment;
use exchange_seated::Linked;
use locked_book::DeskName;
use log_lines::{During, EndedBy};
use loop_shared::{Admission, Outsider, OwedAdmission, Parked, Refusing};
use loop_table::Token;
use prio_rules::Wish;
use std::net::{Net, TcpListener, TcpStream};
use std::sync::Wait;
use std::sync::ledger::Ledger;
use std::time::Clock;

impl<
    'a,
    N: DeskName + Ledger,
    R: Net<Listener = TcpListener, Stream = TcpStream> + Clock + Print + Wait,
> Looper<'a, N, R> {
    /// Gives places to the requests that wait for one, in the order of those outside, as long as there are places.
    pub(crate) fn admit_all(&mut self, owed: OwedAdmission) {
        let mut owed = owed;
        for _ in self.rt.forever() {
            match self.shared.admit_first(self.rt, &mut self.gate, owed) {
                Admission::Rests(_) => return,
                Admission::Admitted(outsider, at, left) => {
                    self.lay_down(outsider, at);
                    owed = left;
                }
                Admission::Refused(outsider, left) => {
                    self.refuse(outsider);
                    owed = left;
                }
            }
        }
        unreachable!()
    }

    // Puts the request at its place, and looks at the place afterwards.
    fn lay_down(&mut self, outsider: Outsider, at: Ticketed) {
        let Outsider {
            presence,
            queued,
            client,
            came,
            pin: _,
        } = outsider;
        let mut presence = presence;
        note_ticket(&mut presence, at);
        let look = self.shared.park(
            self.rt,
            Parked {
                presence,
                queued,
                client,
                at,
                failed: None,
                watched: None,
                came: Some(came),
                late: false,
            },
        );
        self.shared.note_wait();
        look.put_off(&mut self.gate);
    }

    // Tells a request that it gets no place.
    fn refuse(&mut self, outsider: Outsider) {
        let Outsider {
            presence,
            queued,
            client,
            came: _,
            pin: _,
        } = outsider;
        let mut presence = presence;
        note_refused(&mut presence, self.shared.seen_refusing().is_some());
        let Some(hole) = self.guests.open() else {
            self.tell_end(&mut presence, &client, EndedBy::Shortage, None);
            return self.shared.note_end(self.rt, presence);
        };
        let mut visit = Visit::new(presence, client);
        visit.task = Task::Refuse;
        let then = self.as_guest(Linked::unseated(self.settings.alloc, queued), visit, hole);
        self.go(then);
    }

    /// Lets a request wait for a place. It comes back where there is no memory or no room for it.
    pub(crate) fn wait_outside(&mut self, wish: &Wish, outsider: Outsider) -> Result<(), Outsider> {
        let owed = self
            .shared
            .come_outside(self.rt, &self.registry, wish, outsider)?;
        self.shared.note_wait();
        self.owe(owed);
        Ok(())
    }

    /// The poll reports a client that waits for a place. Where it has left, its request ends.
    pub(crate) fn hear_outside(&mut self, token: Token) {
        if let Some((outsider, _left)) = self.shared.leave_outside(self.rt, token) {
            let mut outsider = outsider;
            self.tell_end(
                &mut outsider.presence,
                &outsider.client,
                EndedBy::Client,
                Some(During::Queue),
            );
            self.shared.note_end(self.rt, outsider.leave());
        }
    }

    /// Tells all requests that wait for a place that they get none.
    pub(crate) fn refuse_outside(&mut self, refusing: Refusing) {
        for _ in self.rt.forever() {
            let Some(outsider) = self.shared.take_first(self.rt, refusing) else {
                return;
            };
            self.refuse(outsider);
        }
    }

    /// Tells the requests that waited too long for a place.
    pub(crate) fn refuse_late(&mut self, now: &Moment) {
        for _ in self.rt.forever() {
            let Some(outsider) = self.shared.take_late(self.rt, now) else {
                return;
            };
            self.refuse(outsider);
        }
    }
}
