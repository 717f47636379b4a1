//! Clients whose answers were sent whole. The sending side is closed first, and what comes is read
//! and thrown away: closing a connection with unread bytes resets it, and may cut the answer off
//! (RFC 9112, section 9.6).

ghost use Rattle.std.specs.Prelude.{◌≡◌, ◌-◌};
ghost use Rattle.loop_table.specs.TokenTables.{IsOut, closed};
ghost use Rattle.loop_events.specs.Timeouts.{number_of, lingers_on};
ghost use Rattle.loop_shared.specs.Timed.{Stops};

use crate::guest::{Guest, Keyword, Lingering, Resident, Visit};
use crate::looping::Looper;
use crate::serving::MoreToDo;
use due_key::Moment;
use exchange_driver::{Live, ReadResult, Socket};
use exchange_seated::Linked;
use locked_book::DeskName;
use log_lines::EndedBy;
use loop_shared::{Gate, watch};
use loop_table::{Hole, Subject};
use mio::Interest;
use std::net::{Net, Shutdown, TcpListener, TcpStream};
use std::os::fd::AsRawFd;
use std::sync::Wait;
use std::sync::ledger::Ledger;
use std::time::Clock;

/// The most bytes of a lingering client that are thrown away.
const MOST_THROWN: usize = 1 << 26;

/// The longest time that a client lingers while it sends, in milliseconds.
const MOST_MILLIS: u64 = 30_000;

/// The most reads in a row before the others get their turn.
const READS: usize = 64;

impl<
    'a,
    N: DeskName + Ledger,
    R: Net<Listener = TcpListener, Stream = TcpStream> + Clock + Print + Wait,
> Looper<'a, N, R> {
    /// Lets a guest linger whose answer was sent whole.
    pub(crate) fn finish(&mut self, guest: Box<Guest<N>>, hole: Hole) -> MoreToDo<N> {
        let Guest { linked, visit } = Box::into_inner(guest);
        self.finish_on(linked, visit, hole)
    }

    /// The same for a guest that isn't boxed.
    pub(crate) fn finish_on(
        &mut self,
        linked: Linked<N, Live>,
        visit: Visit,
        hole: Hole,
    ) -> MoreToDo<N> {
        let cell = hole.token().index();
        let mut visit = visit;
        self.tell_end(&mut visit.presence, &visit.client, EndedBy::Nobody, None);
        self.untime(visit.timer, cell);
        match linked.abandon() {
            Some(posting) => self.post(posting),
            None => {}
        }
        let (presence, client) = visit.into_client();
        self.shared.note_end(self.rt, presence);
        match client.into_socket() {
            Some(client) if client.stream().shutdown(Shutdown::Write).is_ok() => {
                let since = self.gate.moment();
                let lingering = Lingering {
                    client,
                    left: MOST_THROWN,
                    since,
                };
                match Box::new(self.settings.alloc, lingering) {
                    Ok(lingering) => {
                        self.lingering = self.lingering.saturating_add(1);
                        self.begin_time(Some(Keyword::Linger), cell);
                        self.listen(lingering, hole);
                    }
                    Err(_) => self.guests.close(hole),
                }
            }
            _ => self.guests.close(hole),
        }
        MoreToDo::Rests
    }

    /// Reads and throws away what a lingering client sends.
    pub(crate) fn listen(&mut self, lingering: Box<Lingering>, hole: Hole) {
        let mut lingering = lingering;
        for _ in 0..READS {
            match lingering.client.read_now(self.buffer.as_mut_slice()) {
                ReadResult::Bytes(count) => {
                    self.linger_on(&lingering, hole.token().index());
                    lingering.left = lingering.left.saturating_sub(count);
                    if lingering.left == 0 {
                        return self.end_lingering(hole);
                    }
                }
                ReadResult::Nothing => return self.linger(lingering, hole),
                ReadResult::Ended { .. } => return self.end_lingering(hole),
            }
        }
        self.agenda.put_off(hole.token().index());
        self.lay(Resident::Lingering(lingering), hole);
    }

    // Restarts its timeout since it sent something, within a limit.
    fn linger_on(&mut self, lingering: &Lingering, cell: usize) {
        if lingers_on(lingering.since, self.gate.moment()) {
            self.untime(Some(Keyword::Linger), cell);
            self.begin_time(Some(Keyword::Linger), cell);
        }
    }

    // Puts it into its cell until the poll reports more bytes. Where too many linger, it is closed at once.
    fn linger(&mut self, lingering: Box<Lingering>, hole: Hole) {
        let connection = lingering.client.stream().as_raw_fd();
        let subject = Subject::Client(hole.token());
        if self.lingering <= self.most_lingering
            && watch(&self.registry, connection, subject, Interest::READABLE).is_some()
        {
            self.lay(Resident::Lingering(lingering), hole);
        } else {
            self.end_lingering(hole);
        }
    }

    /// Closes a lingering client.
    pub(crate) fn end_lingering(&mut self, hole: Hole)
        ensures fewer { self.new.lingering ≡ self.old.lingering - 1 }
        ensures stops { Stops self.old.timers self.new.timers (number_of self.old.keywords Keyword.Linger) hole.token.index }
        ensures closed { IsOut self.old.guests hole.token → self.new.guests ≡ closed self.old.guests hole.token }
    {
        self.lingering = self.lingering.saturating_sub(1);
        self.close_cell(hole, Some(Keyword::Linger));
    }
}

// Says whether a client that began to linger at one moment may linger on at another.
fn lingers_on(since: Moment, now: Moment) -> bool
    ensures { result ≡ lingers_on since now }
{
    now.get().saturating_sub(since.get()) < MOST_MILLIS
}
