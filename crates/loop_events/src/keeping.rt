//! Guests in their cells: they are kept until there is more to do, and closed.

ghost use Rattle.std.specs.Prelude.{◌≡◌, ◌<◌, ◌||◌, true, MatchOption, Contains};
ghost use Rattle.loop_table.specs.TokenTables.{IsOut, closed, filled};
ghost use Rattle.loop_events.specs.Rests.{goes_on};
ghost use Rattle.loop_events.specs.Timeouts.{number_at};
ghost use Rattle.loop_shared.specs.Timed.{Stops};
ghost use Rattle.loop_events.specs.Visits.{watch_after};

use crate::accounting::last_at;
use crate::guest::{Guest, Keyword, Resident, Visit, Watch, break_off};
use crate::looping::Looper;
use crate::serving::MoreToDo;
use exchange_driver::{Live, Socket};
use exchange_seated::{Linked, Stage};
use locked_book::DeskName;
use log_lines::EndedBy;
use loop_shared::{watch, watch_anew};
use loop_table::{Hole, Subject, Token};
use mio::Interest;
use std::net::{Net, TcpListener, TcpStream};
use std::os::fd::AsRawFd;
use std::sync::Wait;
use std::sync::ledger::Ledger;
use std::time::Clock;

/// When there is more to do for a guest.
#[derive(Clone, Copy, Debug, PartialEq, Eq)]
pub(crate) enum NextLook {
    /// At once.
    AtOnce,
    /// Once the places that a returned slot woke were looked at.
    Next,
    /// Once the others have had their turn.
    Later,
    /// Once the poll reports one of its sockets, or a timeout expires.
    Rests,
}

impl<
    'a,
    N: DeskName + Ledger,
    R: Net<Listener = TcpListener, Stream = TcpStream> + Clock + Print + Wait,
> Looper<'a, N, R> {
    /// Makes a guest of an exchange and its visit. Where there is no memory for it, the exchange ends.
    pub(crate) fn as_guest(
        &mut self,
        linked: Linked<N, Live>,
        visit: Visit,
        hole: Hole,
    ) -> MoreToDo<N>
        ensures { (it : _) (at : _) → result ≡ MoreToDo.Goes it at → (it.value.linked ≡ linked) × (it.value.visit ≡ visit) × (at ≡ hole) × (self.new.guests ≡ self.old.guests) }
    {
        match Box::new(self.settings.alloc, Guest { linked, visit }) {
            Ok(guest) => MoreToDo::Goes(guest, hole),
            Err(refused) => {
                let Guest { linked, visit } = refused.value;
                self.close_on(linked, visit, hole)
            }
        }
    }

    /// Puts a guest into its cell until there is more to do.
    pub(crate) fn keep(&mut self, guest: Box<Guest<N>>, hole: Hole, soon: NextLook) -> MoreToDo<N>
        ensures next { soon ≡ NextLook.Next → hole.token.index < self.new.agenda.room → Contains self.new.agenda.soon hole.token.index }
        ensures later { soon ≡ NextLook.Later → hole.token.index < self.new.agenda.room → Contains self.new.agenda.later hole.token.index }
        ensures once { soon ≡ NextLook.AtOnce → goes_on result ≡ true }
        ensures same { (it : _) (at : _) → soon ≡ NextLook.AtOnce → result ≡ MoreToDo.Goes it at → (it.value.linked ≡ guest.value.linked) × (at ≡ hole) }
    {
        let mut guest = guest;
        let token = hole.token();
        let it = &mut *guest;
        self.time(it.linked.seated(), &mut it.visit, token.index());
        match soon {
            NextLook::AtOnce => return MoreToDo::Goes(guest, hole),
            NextLook::Rests if !self.is_watched(&mut guest, token) => {
                return self.close(guest, hole);
            }
            NextLook::Next | NextLook::Later | NextLook::Rests => {}
        }
        self.lay(Resident::Guest(guest), hole);
        self.note_look(token.index(), soon);
        MoreToDo::Rests
    }

    // Notes a cell for its next look, where no poll or timeout brings that.
    fn note_look(&mut self, cell: usize, soon: NextLook)
        ensures next { soon ≡ NextLook.Next → cell < self.new.agenda.room → Contains self.new.agenda.soon cell }
        ensures later { soon ≡ NextLook.Later → cell < self.new.agenda.room → Contains self.new.agenda.later cell }
    {
        match soon {
            NextLook::Next => self.agenda.note(cell),
            NextLook::Later => self.agenda.put_off(cell),
            NextLook::AtOnce | NextLook::Rests => {}
        }
    }

    // Registers its sockets with the poll. Says whether that succeeded.
    fn is_watched(&self, guest: &mut Guest<N>, token: Token) -> bool {
        let dials = guest.stage() == Stage::Dialing;
        let Guest { linked, visit } = guest;
        let Visit {
            client,
            client_watch,
            server_watch,
            ..
        } = visit;
        let subject = Subject::Client(token);
        self.watches(client.socket(), client_watch, subject, false)
            && self.watches(linked.socket(), server_watch, Subject::Server(token), dials)
    }

    // Registers a socket with the poll; for writing too, where its last write was full, or where it
    // is being opened.
    fn watches(
        &self,
        socket: Option<&Live>,
        told: &mut Watch,
        subject: Subject,
        opens: bool,
    ) -> bool
        ensures { MatchOption socket.entry (told.new ≡ told.old) (λ live. told.new ≡ watch_after told.old (opens || live.now.is_full)) }
    {
        let Some(socket) = socket else {
            return true;
        };
        let before = *told;
        let after = before.after(opens || socket.is_full());
        *told = after;
        if before == after {
            return true;
        }
        let connection = socket.stream().as_raw_fd();
        let interest = match after {
            Watch::Both => Interest::READABLE | Interest::WRITABLE,
            Watch::Nothing | Watch::Reads => Interest::READABLE,
        };
        let watched = if before == Watch::Nothing {
            watch(&self.registry, connection, subject, interest)
        } else {
            watch_anew(&self.registry, connection, subject, interest)
        };
        watched.is_some()
    }

    /// Puts the occupant of a cell back there.
    pub(crate) fn lay(&mut self, resident: Resident<N>, hole: Hole)
        ensures { IsOut self.old.guests hole.token → (self.new.guests ≡ filled self.old.guests hole.token resident) × (self.new.agenda ≡ self.old.agenda) × (self.new.timers ≡ self.old.timers) }
    {
        match self.guests.fill(hole, resident) {
            Ok(()) => {}
            Err(resident) => self.let_go(resident),
        }
    }

    fn let_go(&mut self, resident: Resident<N>) {
        match resident {
            Resident::Lingering(_lingering) => self.lingering = self.lingering.saturating_sub(1),
            Resident::Unused(unused) => self.shared.note_used(unused.server()),
            Resident::Guest(guest) => {
                let Guest { linked, visit } = Box::into_inner(guest);
                self.dismiss(linked, visit);
            }
        }
    }

    /// Ends a guest at any stage: its pass is posted, and its client's connection is closed.
    pub(crate) fn close(&mut self, guest: Box<Guest<N>>, hole: Hole) -> MoreToDo<N>
        ensures { result ≡ MoreToDo.Rests }
    {
        let Guest { linked, visit } = Box::into_inner(guest);
        self.close_on(linked, visit, hole)
    }

    /// The same for a guest that isn't boxed.
    pub(crate) fn close_on(
        &mut self,
        linked: Linked<N, Live>,
        visit: Visit,
        hole: Hole,
    ) -> MoreToDo<N>
        ensures { result ≡ MoreToDo.Rests }
    {
        self.close_cell(hole, visit.timer);
        self.dismiss(linked, visit);
        MoreToDo::Rests
    }

    fn dismiss(&mut self, linked: Linked<N, Live>, visit: Visit) {
        break_off(&linked);
        let during = last_at(linked.seated().stage());
        let (presence, client) = visit.into_client();
        let mut presence = presence;
        self.tell_end(&mut presence, &client, EndedBy::Client, during);
        match linked.abandon() {
            Some(posting) => self.post(posting),
            None => {}
        }
        self.shared.note_end(self.rt, presence);
    }

    /// Frees a cell and stops its timeout.
    pub(crate) fn close_cell(&mut self, hole: Hole, timer: Option<Keyword>)
        ensures stops { Stops self.old.timers self.new.timers (number_at self.old.keywords timer) hole.token.index }
        ensures closed { IsOut self.old.guests hole.token → self.new.guests ≡ closed self.old.guests hole.token }
        ensures cells { (self.new.agenda ≡ self.old.agenda) × (self.new.shelves ≡ self.old.shelves) }
        ensures others { (self.new.gate ≡ self.old.gate) × (self.new.keywords ≡ self.old.keywords) × (self.new.lingering ≡ self.old.lingering) }
    {
        self.untime(timer, hole.token().index());
        self.guests.close(hole);
    }
}
