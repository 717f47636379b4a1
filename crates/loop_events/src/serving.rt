//! The events and results of a guest's exchange.

ghost use Rattle.std.specs.Prelude.{◌≡◌, ◌||◌, true, Some};
ghost use Rattle.exchange_seated.specs.Seats.{stage_of};
ghost use Rattle.loop_events.specs.Rests.{goes_on};
ghost use Rattle.loop_events.specs.Tasks.{MayTell, has_left, task_after, task_heard};
ghost use Rattle.loop_events.specs.Told.{socket_events};
ghost use Rattle.loop_events.specs.Visits.{with_task};

use crate::accounting::has_received;
use crate::guest::{Guest, Keyword, Resident, Task, Visit};
use crate::keeping::NextLook;
use crate::looping::Looper;
use exchange_driver::{Live, Rest};
use exchange_seated::{Carried, Given, Notice, Stage};
use grant_board::BoardName;
use locked_book::DeskName;
use loop_table::{Hole, Token};
use mio::event::Event;
use std::net::{Net, TcpListener, TcpStream};
use std::sync::Wait;
use std::sync::ledger::Ledger;
use std::time::Clock;

/// Whether there is more to do for a guest.
pub(crate) enum MoreToDo<N: BoardName + Ledger> {
    /// There is more to do at once.
    Goes(Box<Guest<N>>, Hole),
    /// It was put away, or is over.
    Rests,
}

/// What the poll tells of a socket.
#[derive(Clone, Copy)]
pub(crate) struct SocketEvents {
    pub(crate) reads: bool,
    pub(crate) writes: bool,
    /// The other end sends no more.
    pub(crate) closed: bool,
    /// The connection failed.
    pub(crate) broken: bool,
}

impl SocketEvents {
    /// Returns what an event of the poll tells.
    pub(crate) fn of(event: &Event) -> SocketEvents
        ensures { result ≡ socket_events event.now }
    {
        let broken = event.is_error() || event.is_write_closed();
        let closed = event.is_read_closed();
        SocketEvents {
            reads: broken || closed || event.is_readable(),
            writes: broken || event.is_writable(),
            closed,
            broken,
        }
    }
}

impl<
    'a,
    N: DeskName + Ledger,
    R: Net<Listener = TcpListener, Stream = TcpStream> + Clock + Print + Wait,
> Looper<'a, N, R> {
    /// Handles the poll's report of a client. A reset ends its exchange at any stage; an end of its
    /// input only under `option abortonclose`.
    pub(crate) fn hear_client(&mut self, token: Token, told: SocketEvents) {
        let Some((resident, hole)) = self.guests.lend(token) else {
            return;
        };
        match resident {
            Resident::Lingering(lingering) => self.listen(lingering, hole),
            Resident::Unused(unused) => self.lay(Resident::Unused(unused), hole),
            Resident::Guest(guest) => {
                let mut guest = guest;
                self.note_told(&mut guest, told);
                self.go(MoreToDo::Goes(guest, hole));
            }
        }
    }

    // Notes at a guest what the poll tells of its client.
    fn note_told(&self, guest: &mut Guest<N>, told: SocketEvents)
        ensures exchange { guest.new.linked ≡ guest.old.linked }
        ensures ended { guest.new.visit.ended ≡ (guest.old.visit.ended || told.closed) }
        ensures task { guest.new.visit.task ≡ task_heard told.broken (has_left (guest.old.visit.ended || told.closed) self.now.settings.rules.aborts guest.old.linked.seated.exchange) guest.old.visit.task }
        ensures others { guest.new.visit ≡ record guest.old.visit { client = guest.new.visit.client; ended = guest.new.visit.ended; task = guest.new.visit.task } }
    {
        guest.visit.client.wake(told.reads, told.writes);
        guest.visit.ended = guest.visit.ended || told.closed;
        guest.visit.task = task_heard(told.broken, self.has_left(guest), guest.visit.task);
    }

    // Says whether a client sends no more and, under `option abortonclose`, waits for no answer.
    fn has_left(&self, guest: &Guest<N>) -> bool
        ensures { result ≡ has_left guest.now.visit.ended self.now.settings.rules.aborts guest.now.linked.seated.exchange }
    {
        guest.visit.ended && self.settings.rules.aborts && guest.linked.seated().has_asked()
    }

    /// Handles the poll's report of a server's connection.
    pub(crate) fn hear_server(&mut self, token: Token, told: SocketEvents) {
        let Some((resident, hole)) = self.guests.lend(token) else {
            return;
        };
        match resident {
            Resident::Lingering(lingering) => self.listen(lingering, hole),
            Resident::Unused(unused) => self.end_unused(unused, hole),
            Resident::Guest(guest) => {
                let mut guest = guest;
                guest.linked.wake(told.reads, told.writes);
                let then = match guest.stage() {
                    Stage::Dialing => self.look_at_connection(guest, hole, told.broken),
                    _ => MoreToDo::Goes(guest, hole),
                };
                self.go(then);
            }
        }
    }

    /// Goes on with the occupant of a cell.
    pub(crate) fn work(&mut self, token: Token) {
        let Some((resident, hole)) = self.guests.lend(token) else {
            return;
        };
        match resident {
            Resident::Lingering(lingering) => self.listen(lingering, hole),
            Resident::Unused(unused) => self.lay(Resident::Unused(unused), hole),
            Resident::Guest(guest) => self.go(MoreToDo::Goes(guest, hole)),
        }
    }

    /// Goes on with a guest as long as there is more to do at once.
    pub(crate) fn go(&mut self, then: MoreToDo<N>) {
        let mut then = then;
        for _ in self.rt.forever() {
            match then {
                MoreToDo::Rests => return,
                MoreToDo::Goes(guest, hole) => then = self.act(guest, hole),
            }
        }
        unreachable!()
    }

    fn act(&mut self, guest: Box<Guest<N>>, hole: Hole) -> MoreToDo<N> {
        match guest.visit.task {
            Task::Serve => self.serve(guest, hole),
            Task::Arrive => self.arrive(guest, hole),
            Task::Dial => self.dial(guest, hole),
            Task::Refuse => self.tell(guest, hole, Notice::Unserved),
            Task::GiveUp => self.tell_of_no_connection(guest, hole),
            Task::Leave => self.tell(guest, hole, Notice::ClientEnd),
            Task::Fail => self.tell(guest, hole, Notice::ClientFailed),
        }
    }

    // Reads and writes.
    fn serve(&mut self, guest: Box<Guest<N>>, hole: Hole) -> MoreToDo<N> {
        let Guest { linked, visit } = Box::into_inner(guest);
        let mut visit = visit;
        let carried = linked.drive(self.settings, &mut visit.client, self.buffer.as_mut_slice());
        let soon = match carried.rest {
            Rest::Waits => NextLook::Rests,
            Rest::Again => NextLook::Later,
        };
        self.settle(carried, visit, hole, soon)
    }

    /// Reports an event to a guest's exchange.
    pub(crate) fn tell(&mut self, guest: Box<Guest<N>>, hole: Hole, notice: Notice) -> MoreToDo<N>
        requires { MayTell guest.value.visit.task notice }
    {
        let Guest { linked, visit } = Box::into_inner(guest);
        let mut visit = visit;
        visit.task = Task::Serve;
        self.note_notice(&mut visit, linked.seated().stage(), &notice);
        let carried = linked.notify(self.settings, notice);
        self.settle(carried, visit, hole, NextLook::AtOnce)
    }

    fn settle(
        &mut self,
        carried: Carried<N, Live>,
        visit: Visit,
        hole: Hole,
        soon: NextLook,
    ) -> MoreToDo<N> {
        let Carried {
            linked,
            given,
            client,
            server,
            rest: _,
        } = carried;
        let cell = hole.token().index();
        let mut visit = visit;
        let answers = server.is_some() && has_received(linked.socket());
        self.note_bytes(&mut visit, client.is_some(), answers);
        self.note_moved(&visit, cell, client, Keyword::Client);
        self.note_moved(&visit, cell, server, Keyword::Server);
        match self.as_guest(linked, visit, hole) {
            MoreToDo::Goes(guest, hole) => self.give(given, guest, hole, soon),
            MoreToDo::Rests => {
                self.give_up_with(given);
                MoreToDo::Rests
            }
        }
    }

    fn give(
        &mut self,
        given: Given<N>,
        guest: Box<Guest<N>>,
        hole: Hole,
        soon: NextLook,
    ) -> MoreToDo<N> {
        match given {
            Given::Nothing => self.decide_next(guest, hole, soon),
            Given::Posts(posting) => self.part(posting, guest, hole),
            Given::Retries => self.redial(guest, hole),
        }
    }

    // Posts the pass of an exchange that ended for want of memory.
    fn give_up_with(&mut self, given: Given<N>) {
        match given {
            Given::Nothing | Given::Retries => {}
            Given::Posts(posting) => self.post(posting),
        }
    }

    // Decides by its stage where a guest goes next.
    fn decide_next(&mut self, guest: Box<Guest<N>>, hole: Hole, soon: NextLook) -> MoreToDo<N> {
        let stage = guest.stage();
        if let Some(task) = task_after(self.has_left(&guest), stage) {
            return self.next(guest, hole, task);
        }
        if stage == Stage::Over {
            return self.close(guest, hole);
        }
        if stage == Stage::Telling && guest.linked.seated().has_told() {
            return self.end_or_ask_again(guest, hole);
        }
        self.keep(guest, hole, soon)
    }

    // Sets the guest's next task. That its client sends no more is told once.
    fn next(&self, guest: Box<Guest<N>>, hole: Hole, task: Task) -> MoreToDo<N>
        requires { task_after (has_left guest.value.visit.ended self.now.settings.rules.aborts guest.value.linked.seated.exchange) (stage_of guest.value.linked.seated.exchange) ≡ Some task }
        ensures goes { goes_on result ≡ true }
        ensures guest { (it : _) (at : _) → result ≡ MoreToDo.Goes it at → (it.value ≡ record guest.value { visit = with_task guest.value.visit task }) × (at ≡ hole) }
    {
        let mut guest = guest;
        guest.visit.ended = false;
        guest.visit.task = task;
        MoreToDo::Goes(guest, hole)
    }
}

// Returns what is to be done for a guest, where the poll told that its client's connection broke,
// or where its client has left.
fn task_heard(broken: bool, left: bool, task: Task) -> Task
    ensures { result ≡ task_heard broken left task }
{
    match (broken, left) {
        (true, _) => Task::Fail,
        (false, true) => Task::Leave,
        (false, false) => task,
    }
}

// Returns what is to be done next for a guest whose client has left, or which is in this stage.
fn task_after(left: bool, stage: Stage) -> Option<Task>
    ensures { result ≡ task_after left stage }
{
    match stage {
        _ if left => Some(Task::Leave),
        Stage::Waiting => Some(Task::Arrive),
        Stage::Dialing => Some(Task::Dial),
        Stage::Asking | Stage::Forwarding | Stage::Telling | Stage::Over => None,
    }
}
