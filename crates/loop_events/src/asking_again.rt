//! Clients that stay for another request on the same connection (`run --keep-alive`).

ghost use Rattle.std.specs.Prelude.{◌≡◌, true};
ghost use Rattle.loop_events.specs.Silent.{is_silent};

use crate::accounting::{client_of, note_come};
use crate::guest::{Guest, Resident};
use crate::looping::Looper;
use crate::serving::MoreToDo;
use locked_book::DeskName;
use log_lines::EndedBy;
use loop_shared::Stopping;
use loop_table::Hole;
use std::net::{Net, TcpListener, TcpStream};
use std::sync::Wait;
use std::sync::ledger::Ledger;
use std::time::Clock;

impl<
    'a,
    N: DeskName + Ledger,
    R: Net<Listener = TcpListener, Stream = TcpStream> + Clock + Print + Wait,
> Looper<'a, N, R> {
    /// Ends a guest's exchange: its client may ask again where both sides keep the connection, and else lingers.
    pub(crate) fn end_or_ask_again(&mut self, guest: Box<Guest<N>>, hole: Hole) -> MoreToDo<N> {
        let Guest { linked, visit } = Box::into_inner(guest);
        match linked.ask_again(self.settings.alloc) {
            Err(linked) => self.finish_on(linked, visit, hole),
            Ok(linked) => {
                let mut visit = visit;
                let client = client_of(&visit.presence);
                self.tell_end(&mut visit.presence, &visit.client, EndedBy::Nobody, None);
                visit.renew();
                self.begin_account(&mut visit.presence, &visit.client, client);
                if !linked.seated().is_silent() {
                    note_come(&mut visit.presence);
                }
                if self.shared.seen_stopping().is_some() && linked.seated().is_silent() {
                    self.finish_on(linked, visit, hole)
                } else {
                    self.as_guest(linked, visit, hole)
                }
            }
        }
    }

    /// Closes clients between two requests, and unused connections of servers.
    pub(crate) fn dismiss_silent(&mut self, stopping: Stopping) {
        for index in 0..self.room {
            self.dismiss_silent_at(index, stopping);
        }
    }

    fn dismiss_silent_at(&mut self, index: usize, stopping: Stopping) {
        let Some(token) = self.guests.token_of(index) else {
            return;
        };
        let Some((resident, hole)) = self.guests.lend(token) else {
            return;
        };
        if resident.is_silent() {
            self.let_go_silent(resident, hole, stopping);
        } else {
            self.lay(resident, hole);
        }
    }

    // Closes one of them.
    fn let_go_silent(&mut self, resident: Resident<N>, hole: Hole, _stopping: Stopping)
        requires { is_silent resident ≡ true }
    {
        match resident {
            Resident::Lingering(lingering) => self.listen(lingering, hole),
            Resident::Unused(unused) => self.end_unused(unused, hole),
            Resident::Guest(guest) => {
                let then = self.finish(guest, hole);
                self.go(then);
            }
        }
    }
}
