ghost use Rattle.std.specs.Prelude.{◌≡◌, ◌↔◌, ◌<◌, [], None, false, vec_len};
ghost use Rattle.loop_shared.specs.Looks.{OwesNoLook};

use crate::guest::{Guest, Resident};
use crate::reusing::UnusedConnections;
use crate::serving::SocketEvents;
use crate::timing::Keywords;
use due_key::Moment;
use exchange_driver::Settings;
use locked_book::DeskName;
use log_requests::RecordSink;
use loop_shared::{Gate, Over, OwedAdmission, Shared, SocketGate};
use loop_table::{Agenda, Subject, Timers, TokenTable};
use mio::{Events, Poll, Registry};
use std::net::{Net, TcpListener, TcpStream};
use std::sync::Wait;
use std::sync::ledger::Ledger;
use std::time::{Clock, Duration};

const EVENTS: usize = 256;

/// The most batches of events that are read before timeouts are judged.
const BATCHES: u32 = 64;

/// A loop: a thread's guests, and its tools.
pub(crate) struct Looper<'a, N: DeskName + Ledger, R> {
    pub(crate) rt: &'a R,
    pub(crate) shared: &'a Shared<'a, N>,
    /// The number of its mailbox.
    pub(crate) home: usize,
    pub(crate) registry: Registry,
    pub(crate) gate: SocketGate<'a, R>,
    pub(crate) settings: Settings,
    pub(crate) guests: TokenTable<Resident<N>>,
    /// The number of cells.
    pub(crate) room: usize,
    pub(crate) timers: Timers,
    pub(crate) keywords: Keywords,
    /// The buffer for reads.
    pub(crate) buffer: Vec<u8>,
    /// The unused connections of servers.
    pub(crate) shelves: UnusedConnections,
    /// The guests with more to do, by their cells: those for after the look at the woken places,
    /// and those for after the others' turn.
    pub(crate) agenda: Agenda,
    /// More clients may wait at the listener.
    pub(crate) more: bool,
    /// Descriptors or cells were short.
    pub(crate) short: bool,
    /// When the loop last tried again after a shortage.
    pub(crate) tried: Moment,
    /// A place may have come free for a request that waits for one.
    pub(crate) freed: Option<OwedAdmission>,
    /// The number of lingering clients, and the most that there may be.
    pub(crate) lingering: usize,
    pub(crate) most_lingering: usize,
    /// The sink for records of ended exchanges, where lines of them are wanted.
    pub(crate) teller: Option<RecordSink<'a>>,
    ghost buffered: { 0 < vec_len buffer },
}

impl<
    'a,
    N: DeskName + Ledger,
    R: Net<Listener = TcpListener, Stream = TcpStream> + Clock + Print + Wait,
> Looper<'a, N, R> {
    /// Runs until all clients that may come were served. Then it ends what is still under way, and
    /// posts its passes.
    pub(crate) fn run(self, poll: Poll) {
        let mut looper = self;
        let over = looper.go_round(poll);
        looper.tell_of_rest();
        let Looper {
            rt,
            shared,
            home: _,
            registry: _,
            gate: _,
            settings: _,
            guests,
            room: _,
            timers: _,
            keywords: _,
            buffer: _,
            shelves: _,
            agenda: _,
            more: _,
            short: _,
            tried: _,
            freed,
            lingering: _,
            most_lingering: _,
            teller: _,
        } = looper;
        if let Some(owed) = freed {
            owed.end_last(over);
        }
        let mut residents = guests.into_values();
        while let Some(resident) = residents.pop() {
            match resident {
                None => {}
                Some(resident) => part_with(rt, shared, resident, over),
            }
        }
        residents.destroy_empty();
    }

    fn go_round(&mut self, poll: Poll) -> Over {
        let mut poll = poll;
        let Ok(mut events) = Events::with_capacity(self.shared.proxy.alloc, EVENTS) else {
            return self.shared.give_up(self.rt);
        };
        let mut batches = 0;
        self.go_on_with_places();
        for _ in self.rt.forever() {
            if let Some(over) = self.shared.seen_over() {
                return over;
            }
            self.sleep(&mut poll, &mut events, batches != 0);
            let now = self.gate.moment();
            self.timers.look_at_clock(now);
            let is_full = EVENTS <= events.iter().count();
            batches = if is_full && batches < BATCHES {
                batches.saturating_add(1)
            } else {
                0
            };
            self.attend(&events);
            if batches == 0 {
                self.look_at_timers();
            }
            self.go_on_with_places();
        }
        unreachable!()
    }

    // Waits until the poll reports something or a timeout expires, unless there is more to do. No
    // look at a place is owed then, and no guest waits for its turn.
    fn sleep(&mut self, poll: &mut Poll, events: &mut Events, is_more: bool)
        requires told { OwesNoLook self.old.gate.woken }
        requires soon { self.old.agenda.soon ≡ [] }
        requires freed { self.old.freed ≡ None }
    {
        let wait = if is_more { Some(0) } else { self.patience() };
        let _ = poll.poll(events, wait.map(Duration::from_millis));
        if events.iter().count() == 0 {
            // A wait that a signal ended reports nothing, whatever there is. So the poll is asked
            // again before timeouts are judged.
            let _ = poll.poll(events, Some(Duration::from_millis(0)));
        }
    }

    /// Says whether there is something to do at once.
    pub(crate) fn has_more(&self) -> bool
        ensures { (result ≡ false) ↔ ((self.now.more ≡ false) × (self.now.agenda.later ≡ [])) }
    {
        self.more || !self.agenda.puts_nothing_off()
    }

    // Attends to servers, clients and waiting requests first, then to the mailbox, and to the listener last.
    fn attend(&mut self, events: &Events) {
        self.agenda.turn_over();
        self.go_on_with_places();
        let mut has_mail = false;
        for event in events.iter() {
            let told = SocketEvents::of(event);
            match Subject::of(event.token().0) {
                Some(Subject::Listener) => self.more = true,
                Some(Subject::Mailbox) => has_mail = true,
                Some(Subject::Client(token)) => self.hear_client(token, told),
                Some(Subject::Server(token)) => self.hear_server(token, told),
                Some(Subject::Waiting { place, ticket }) => self.hear_waiting(place, ticket),
                Some(Subject::Outside(token)) => self.hear_outside(token),
                None => {}
            }
            self.go_on_with_places();
        }
        if has_mail {
            self.open_mail();
        }
        self.go_on_with_places();
        if self.more {
            self.accept_some();
        }
    }

    // Reads what other loops report of places.
    fn open_mail(&mut self) {
        let owed = self.shared.take_mail(self.rt, self.home);
        owed.put_off(&mut self.gate);
        if let Some(stopping) = self.shared.seen_stopping() {
            self.more = true;
            self.dismiss_silent(stopping);
        }
        self.close_called_for();
        if self.home != 0 {
            return;
        }
        if let Some(refusing) = self.shared.seen_refusing() {
            self.refuse_waiting(refusing);
        }
    }
}

// Ends a guest when the loop ends: its pass is posted, and its seat is returned.
fn part_with<R: Wait, N: DeskName + Ledger>(
    rt: &R,
    shared: &Shared<'_, N>,
    resident: Resident<N>,
    over: Over,
) {
    match resident {
        Resident::Lingering(_lingering) => {}
        Resident::Unused(_unused) => {}
        Resident::Guest(guest) => {
            let Guest { linked, visit } = Box::into_inner(guest);
            let (presence, _client) = visit.into_client();
            match linked.abandon() {
                None => {}
                Some(posting) => shared.post_last(rt, posting, over),
            }
            shared.note_end(rt, presence);
        }
    }
}
