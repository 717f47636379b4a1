use crate::colour::{Looks, Tone};
use crate::seconds::{push_moment, push_seconds};
use due_key::{Key, Moment};
use log_entries::{Arrival, Entry, Queue};
use log_texts::Names;
use std::alloc::{AllocError, Global};

/// A request that came and isn't over.
#[derive(Clone, Copy)]
struct Live {
    key: Key,
    came: Moment,
    /// The queue that it waits in.
    waits: Option<Queue>,
}

/// Tells of a log, a line for each entry: who comes, who waits, and who is next and why.
#[derive(Drop)]
pub struct Teller {
    names: Names,
    looks: Looks,
    now: Moment,
    live: Vec<Live>,
}

impl Teller {
    /// Makes the teller of an empty log, of servers with these names.
    pub fn new(alloc: Global, names: Names, looks: Looks) -> Teller {
        Teller {
            names,
            looks,
            now: Moment::zero(),
            live: Vec::new(alloc),
        }
    }

    /// Takes the next entry, and appends its line, where it has one.
    pub fn push_line(&mut self, text: &mut String, entry: Entry) -> Result<(), AllocError> {
        match entry {
            Entry::Arrive(moment, arrival) => self.come(moment, &arrival),
            Entry::Done(moment, _)
            | Entry::Fail(moment, _)
            | Entry::Abort(moment, _)
            | Entry::Tick(moment)
            | Entry::Check(moment, _, _)
            | Entry::Limit(moment, _, _) => {
                self.now = moment;
                Ok(())
            }
            Entry::Direct(ticket, server) => self.push_direct(text, ticket, server),
            Entry::Joined(ticket, queue) => self.push_joined(text, ticket, queue),
            Entry::Granted(ticket, queue, server) => self.push_granted(text, ticket, queue, server),
            Entry::Left(ticket, cause) => {
                self.push_front(text, Tone::Wrong)?;
                write!(
                    text,
                    "request {ticket} is told that it isn't served: {cause}"
                )?;
                self.push_end(text)
            }
            Entry::Ended(ticket) => {
                self.live.retain(|live| live.key.ticket != ticket);
                Ok(())
            }
            _ => Ok(()),
        }
    }

    fn come(&mut self, moment: Moment, arrival: &Arrival) -> Result<(), AllocError> {
        self.now = moment;
        self.live.push(Live {
            key: arrival.key(),
            came: moment,
            waits: None,
        })?;
        Ok(())
    }

    fn push_direct(&self, text: &mut String, ticket: u64, server: usize) -> Result<(), AllocError> {
        self.push_front(text, Tone::Served)?;
        self.push_request(text, ticket)?;
        write!(
            text,
            " comes: {} is free and takes it",
            self.names.of(server)
        )?;
        self.push_end(text)
    }

    fn push_joined(
        &mut self,
        text: &mut String,
        ticket: u64,
        queue: Queue,
    ) -> Result<(), AllocError> {
        self.set_waits(ticket, Some(queue));
        self.push_front(text, Tone::Waits)?;
        self.push_request(text, ticket)?;
        match queue {
            Queue::Backend => text.push_str(" waits in *: ")?,
            Queue::Server(server) => write!(text, " waits for {}: ", self.names.of(server))?,
        }
        match self.count_before(ticket) {
            0 => text.push_str("it is next")?,
            1 => text.push_str("1 goes before it")?,
            count => write!(text, "{count} go before it")?,
        }
        self.push_end(text)
    }

    fn push_granted(
        &mut self,
        text: &mut String,
        ticket: u64,
        queue: Queue,
        server: usize,
    ) -> Result<(), AllocError> {
        self.set_waits(ticket, None);
        self.push_front(text, Tone::Next)?;
        let name = self.names.of(server);
        write!(text, "{name} is free: request {ticket} goes next, ")?;
        match (self.of(ticket), self.first_in(queue)) {
            (Some(live), Some(other)) => self.push_reason(text, live.key, other)?,
            _ => text.push_str("nobody else waits there")?,
        }
        self.push_end(text)
    }

    // Writes why a request with this key goes before the first one that still waits in its queue.
    fn push_reason(&self, text: &mut String, key: Key, other: Key) -> Result<(), AllocError> {
        let Key { class, due, .. } = key;
        let Key {
            class: other_class,
            due: other_due,
            ticket,
        } = other;
        if class != other_class {
            return write!(
                text,
                "class {class} goes before class {other_class} of request {ticket}"
            );
        }
        let late = due.lateness(self.now);
        let sooner = late.saturating_sub(other_due.lateness(self.now));
        if sooner == 0 {
            return write!(text, "due with request {ticket}, and came before it");
        }
        text.push_str("due ")?;
        push_seconds(text, sooner.unsigned_abs())?;
        write!(text, " before request {ticket}")
    }

    // Writes a request's number, with its class and its due date.
    fn push_request(&self, text: &mut String, ticket: u64) -> Result<(), AllocError> {
        write!(text, "request {ticket}")?;
        let Some(live) = self.of(ticket) else {
            return Ok(());
        };
        let class = live.key.class;
        let late = live.key.due.lateness(live.came);
        write!(text, " (class {class}, due ")?;
        if late <= 0 {
            text.push_str("in ")?;
        }
        push_seconds(text, late.unsigned_abs())?;
        if 0 < late {
            text.push_str(" before it came")?;
        }
        text.push_str(")")
    }

    fn push_front(&self, text: &mut String, tone: Tone) -> Result<(), AllocError> {
        let colour = self.looks.before(tone);
        push_moment(text, self.now.get())?;
        write!(text, "  {colour}")
    }

    fn push_end(&self, text: &mut String) -> Result<(), AllocError> {
        let plain = self.looks.after();
        writeln!(text, "{plain}")
    }

    fn of(&self, ticket: u64) -> Option<Live> {
        self.live
            .iter()
            .find(|live| live.key.ticket == ticket)
            .copied()
    }

    fn set_waits(&mut self, ticket: u64, waits: Option<Queue>) {
        for live in self.live.iter_mut() {
            if live.key.ticket == ticket {
                live.waits = waits;
            }
        }
    }

    // Returns the number of requests that wait in its queue and go before it.
    fn count_before(&self, ticket: u64) -> usize {
        let Some(it) = self.of(ticket) else {
            return 0;
        };
        self.live
            .iter()
            .filter(|live| live.waits.is_some() && live.waits == it.waits && live.key < it.key)
            .count()
    }

    fn first_in(&self, queue: Queue) -> Option<Key> {
        self.live
            .iter()
            .filter(|live| live.waits == Some(queue))
            .map(|live| live.key)
            .min()
    }
}
