use super::calls::Call;
use super::servers::waits;
use super::state::Plain;
use base_verdict::Cause;
use due_key::{Due, Moment};
use log_entries::{Arrival, Entry, Intake, Phase, Queue, Refusal};

/// The stage of an event: what comes next in it.
#[derive(Clone, Copy)]
pub enum Stage {
    Placing(u64),
    Returning(u64),
    Ending(u64),
    Failing(u64),
    /// The ticket's slot at the server was freed, because its connection failed.
    Leaving(u64, usize),
    Aborting(u64),
    Telling,
    Checking(usize),
    Emptying(usize),
    Granting,
}

impl Stage {
    /// Returns the stage after an entry.
    pub fn after(self, entry: Entry) -> Stage {
        match (self, entry) {
            (_, Entry::Arrive(_, arrival)) => Stage::Placing(arrival.ticket),
            (_, Entry::Done(_, ticket)) => Stage::Returning(ticket),
            (_, Entry::Fail(_, ticket)) => Stage::Failing(ticket),
            (_, Entry::Abort(_, ticket)) => Stage::Aborting(ticket),
            (_, Entry::Tick(_)) => Stage::Telling,
            (_, Entry::Check(_, server, _)) => Stage::Checking(server),
            (Stage::Failing(_), Entry::Freed(ticket, server)) => Stage::Leaving(ticket, server),
            (_, Entry::Freed(ticket, _)) => Stage::Ending(ticket),
            (Stage::Leaving(ticket, server), Entry::Granted(_, _, _)) => Stage::Leaving(
                ticket, server,
            ),
            (Stage::Telling, Entry::Left(_, _)) => Stage::Telling,
            (_, Entry::Health(server, false))
            | (_, Entry::Moved(_, server))
            | (_, Entry::Limit(_, server, Intake::Closed)) => Stage::Emptying(server),
            _ => Stage::Granting,
        }
    }
}

impl Plain {
    pub fn effective(&self, moment: Moment) -> Moment {
        self.moment.later(moment)
    }

    /// Returns the first refusal that applies.
    pub fn refuses(&self, call: Call) -> Option<Refusal> {
        let needed = self.setup.places.saturating_mul(2).saturating_add(8);
        if self.setup.log.saturating_sub(self.used) < needed {
            return Some(Refusal::LogFull);
        }
        match call {
            Call::Arrive(_, _, pin) => self.refuses_arrival(pin),
            Call::Tick => None,
            Call::Check(server, _) => self.refuses_check(server),
            Call::Limit(server, _) if self.servers() <= server => Some(Refusal::NoSuchServer),
            Call::Limit(_, _) => None,
            Call::Done(ticket) | Call::Fail(ticket) | Call::Abort(ticket) => {
                match self.row_of(ticket) {
                    None => Some(Refusal::NoSuchTicket),
                    Some(row) if !suits(call, row.phase) => Some(Refusal::WrongPhase),
                    Some(_) => None,
                }
            }
        }
    }

    fn refuses_arrival(&self, pin: Option<usize>) -> Option<Refusal> {
        match pin {
            Some(server) if self.servers() <= server => Some(Refusal::NoSuchServer),
            _ if self.ticket.saturating_add(1) >= 1 << 40 => Some(Refusal::TicketsSpent),
            _ if self.is_full() => Some(Refusal::PlacesFull),
            _ => None,
        }
    }

    fn refuses_check(&self, server: usize) -> Option<Refusal> {
        match self.server(server) {
            None => Some(Refusal::NoSuchServer),
            Some(it) if it.rise_fall.is_none() => Some(Refusal::WrongPhase),
            Some(_) => None,
        }
    }

    /// Returns the entry with which an accepted call begins its event; an arrival gets this place.
    pub fn event(&self, moment: Moment, call: Call, place: usize) -> Entry {
        let moment = self.effective(moment);
        match call {
            Call::Arrive(class, offset, pin) => {
                let arrival = Arrival {
                    ticket: self.ticket.saturating_add(1),
                    class,
                    due: Due::of(moment, offset),
                    pin: number_of(pin),
                    place: u16::try_from(place).unwrap_or(0),
                };
                Entry::Arrive(moment, arrival)
            }
            Call::Done(ticket) => Entry::Done(moment, ticket),
            Call::Fail(ticket) => Entry::Fail(moment, ticket),
            Call::Abort(ticket) => Entry::Abort(moment, ticket),
            Call::Tick => Entry::Tick(moment),
            Call::Check(server, ok) => Entry::Check(moment, server, ok),
            Call::Limit(server, limit) => Entry::Limit(moment, server, limit),
        }
    }

    /// Says whether the place of an arrival is free.
    pub fn has_place_for(&self, event: &Entry) -> bool {
        match event {
            Entry::Arrive(_, arrival) => matches!(
                self.rows.get(usize::from(arrival.place)),
                Some(None)
            ),
            _ => true,
        }
    }

    /// Returns the next entry of an event; `None` where it is over.
    pub fn next(&self, stage: Stage) -> Option<Entry> {
        match stage {
            Stage::Placing(ticket) => Some(self.placement(ticket, self.pin_of(ticket), None)),
            Stage::Returning(ticket) => Some(match self.server_of(ticket) {
                Some(server) => Entry::Freed(ticket, server),
                None => Entry::Ended(ticket),
            }),
            Stage::Ending(ticket) => Some(Entry::Ended(ticket)),
            Stage::Failing(ticket) => self.retry(ticket),
            Stage::Leaving(ticket, _) if self.failures_of(ticket) > self.setup.retries => {
                Some(Entry::Left(ticket, Cause::Retries))
            }
            Stage::Leaving(ticket, server) => match self.grant() {
                Some(grant) => Some(grant),
                None => Some(self.placement(ticket, None, Some(server))),
            },
            Stage::Aborting(ticket) => Some(Entry::Left(ticket, Cause::Aborted)),
            Stage::Telling => match self.first_expired() {
                Some(ticket) => Some(Entry::Left(ticket, Cause::Timeout)),
                None => self.grant(),
            },
            Stage::Checking(server) if self.is_up_by_results(server, true) != self.is_up(server) =>
                { Some(Entry::Health(server, self.is_up(server))) }
            Stage::Emptying(server) if self.setup.redispatch => {
                match self.first_in(Queue::Server(server)) {
                    Some(row) => Some(Entry::Moved(row.key.ticket, server)),
                    None => self.grant(),
                }
            }
            Stage::Checking(_) | Stage::Emptying(_) | Stage::Granting => self.grant(),
        }
    }

    fn server_of(&self, ticket: u64) -> Option<usize> {
        self.row_of(ticket)?.phase.server()
    }

    fn failures_of(&self, ticket: u64) -> u32 {
        match self.row_of(ticket) {
            Some(row) => row.failures,
            None => 0,
        }
    }

    // Returns the first entry after the failure of a connection.
    fn retry(&self, ticket: u64) -> Option<Entry> {
        let server = self.server_of(ticket)?;
        let failures = self.failures_of(ticket);
        let again = failures <= self.setup.retries && !self.is_redispatched(failures);
        Some(if again {
            Entry::Retried(ticket, server, failures)
        } else {
            Entry::Freed(ticket, server)
        })
    }
}

// Returns the pin as an entry has it.
fn number_of(pin: Option<usize>) -> Option<u8> {
    u8::try_from(pin?).ok()
}

// Says whether a request in this phase may be returned, fail, or be given up.
fn suits(call: Call, phase: Phase) -> bool {
    match call {
        Call::Done(_) => !waits(phase),
        Call::Fail(_) => phase.server().is_some(),
        Call::Abort(_) => waits(phase),
        Call::Arrive(_, _, _) | Call::Tick | Call::Check(_, _) | Call::Limit(_, _) => true,
    }
}
