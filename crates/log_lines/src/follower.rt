ghost use Rattle.std.specs.Prelude.{◌≡◌, ◌+◌, ◌-◌, ◌^◌, min, ◌++◌, ◌==◌, ℕ, List, [], ◌∷◌, None, Some, OnOk, if◌then◌else◌};
ghost use Rattle.std.specs.Option.{option_to_list};
ghost use Rattle.log_entries.specs.declared.entry.Entry.{Entry};
ghost use Rattle.log_stretches.specs.Courses.{later};
ghost use Rattle.log_lines.specs.Following as following;
ghost use Rattle.log_lines.specs.Following.{Follows, FollowsLog, came_by, given_by, known, known_after, grants_since, named_in, numbers_after, overtakes, new_numbers, given_slot, put_into};

use crate::numbers::{GrantNumbers, Numbers, SlotNumbers, StayNumbers};
use due_key::Moment;
use log_entries::{Entry, Queue};
use log_stretches::Came;
use std::alloc::{AllocError, Global};
use std::collections::BTreeMap;
use std::marker::Model;

/// The knowledge of a log that is read entry by entry: each request's numbers, until they are taken.
#[derive(Drop)]
pub struct Follower {
    moment: Moment,
    window: u64,
    given: Vec<GrantNumbers>,
    numbers: BTreeMap<u64, Numbers>,
}

impl Model for Follower {
    ghost use Rattle.log_lines.specs.Following.{Following};

    ghost Value = { Following };

    ghost view = { λ it. record {
      moment = it.moment;
      window = record { number = it.window; given = it.given.items };
      numbers = it.numbers.entries;
    } };
}

impl Follower {
    /// Makes the knowledge before the first entry. Windows are counted from 1.
    pub fn new(alloc: Global) -> Follower
        ensures window { result.window ≡ record { number = 1; given = [] } }
        ensures log { FollowsLog [] result }
    {
        Follower {
            moment: Moment::zero(),
            window: 1,
            given: Vec::new(alloc),
            numbers: BTreeMap::new(alloc),
        }
    }

    /// Takes the next entry. `O(log n)` in the requests with numbers; at a grant also in the grants
    /// since its request joined its queue. Where memory is refused, the numbers of some request may
    /// lack this entry.
    pub fn follow(&mut self, entry: Entry) -> Result<(), AllocError>
        ensures follows { OnOk result (Follows self.old entry self.new) }
        ensures log { OnOk result ((log : List Entry) → FollowsLog log self.old → FollowsLog (log ++ entry ∷ []) self.new) }
    {
        self.go_on(entry)
    }

    fn go_on(&mut self, entry: Entry) -> Result<(), AllocError>
        ensures { OnOk result (Follows self.old entry self.new) }
    {
        let moment = later(&entry, self.moment);
        let given = self.given_by(&entry);
        self.note(moment, entry)?;
        self.moment = moment;
        if let Some(given) = given {
            self.given.push(given)?;
        }
        Ok(())
    }

    /// Begins the next window.
    pub fn roll(&mut self)
        ensures window { self.new.window ≡ record { number = min (self.old.window.number + 1) (2 ^ 64 - 1); given = [] } }
        ensures same { (self.new.moment ≡ self.old.moment) × (self.new.numbers ≡ self.old.numbers) }
    {
        self.given.clear();
        self.window = self.window.saturating_add(1);
    }

    /// Returns the number of the present window.
    pub fn window(&self) -> u64
        ensures { result ≡ self.now.window.number }
    {
        self.window
    }

    /// Returns the moment of the last event.
    pub fn moment(&self) -> Moment
        ensures { result ≡ self.now.moment }
    {
        self.moment
    }

    /// Returns the numbers of a request.
    pub fn numbers(&self, ticket: u64) -> Option<Numbers>
        ensures { result ≡ known self.now ticket }
    {
        self.numbers.get(&ticket).copied()
    }

    /// Takes the numbers of a request, which is forgotten.
    pub fn take(&mut self, ticket: u64) -> Option<Numbers>
        ensures taken { result ≡ known self.old ticket }
        ensures others { (other : ℕ) → known self.new other ≡ (if ticket == other then None else known self.old other) }
        ensures same { (self.new.moment ≡ self.old.moment) × (self.new.window ≡ self.old.window) }
        ensures log { (log : List Entry) → FollowsLog log self.old → FollowsLog log self.new }
    {
        self.remove(ticket)
    }

    fn remove(&mut self, ticket: u64) -> Option<Numbers>
        ensures taken { result ≡ known self.old ticket }
        ensures others { (other : ℕ) → known self.new other ≡ (if ticket == other then None else known self.old other) }
        ensures same { (self.new.moment ≡ self.old.moment) × (self.new.window ≡ self.old.window) }
    {
        self.numbers.remove(&ticket)
    }

    /// Returns the number of requests with numbers.
    pub fn len(&self) -> usize {
        self.numbers.len()
    }

    /// Forgets the request that came first, of those with numbers.
    pub fn forget_first(&mut self)
        ensures same { (self.new.moment ≡ self.old.moment) × (self.new.window ≡ self.old.window) }
    {
        let _ = self.numbers.pop_first();
    }

    /// Forgets all requests that came before, since entries were lost.
    pub fn forget(&mut self)
        ensures none { (ticket : ℕ) → known self.new ticket ≡ None }
        ensures same { (self.new.moment ≡ self.old.moment) × (self.new.window ≡ record { number = self.old.window.number; given = [] }) }
    {
        self.given.clear();
        self.numbers.clear();
    }

    // Returns the grant of an entry, if it is one.
    fn given_by(&self, entry: &Entry) -> Option<GrantNumbers>
        ensures { option_to_list result ≡ given_by (known self.now) entry.now }
    {
        let Entry::Granted(ticket, queue, _) = *entry else {
            return None;
        };
        let it = self.numbers.get(&ticket)?;
        Some(GrantNumbers {
            queue,
            class: it.came.arrival.class,
            ticket,
        })
    }

    // Notes an entry in the numbers of its request.
    fn note(&mut self, moment: Moment, entry: Entry) -> Result<(), AllocError>
        ensures numbers { OnOk result ((ticket : ℕ) → known self.new ticket ≡ known_after ticket moment self.old.window (known self.old ticket) entry) }
        ensures same { (self.new.moment ≡ self.old.moment) × (self.new.window ≡ self.old.window) }
    {
        if let Some(came) = came_by(&entry) {
            let ticket = came.arrival.ticket;
            return self.put(ticket, Numbers::new(came));
        }
        let Some(ticket) = named_in(&entry) else {
            return Ok(());
        };
        let Some(before) = self.numbers.get(&ticket).copied() else {
            return Ok(());
        };
        let after = self.after(moment, before, &entry);
        self.put(ticket, after)
    }

    fn put(&mut self, ticket: u64, numbers: Numbers) -> Result<(), AllocError>
        ensures numbers { OnOk result ((other : ℕ) → known self.new other ≡ (if ticket == other then Some numbers else known self.old other)) }
        ensures same { (self.new.moment ≡ self.old.moment) × (self.new.window ≡ self.old.window) }
    {
        let _slot: Option<SlotNumbers> = numbers.slot;
        self.numbers.insert(ticket, numbers)?;
        Ok(())
    }

    // Returns the numbers of a request after an entry that names it.
    fn after(&self, moment: Moment, before: Numbers, entry: &Entry) -> Numbers
        ensures { result ≡ numbers_after moment self.now.window before entry.now }
    {
        match *entry {
            Entry::Fail(_, _) => Numbers {
                failures: before.failures.saturating_add(1),
                ..before
            },
            Entry::Direct(_, server) => self.served(moment, before, server, None),
            Entry::Joined(_, queue) => self.queued(before, queue),
            Entry::Granted(_, _, server) => self.served(moment, before, server, before.stay),
            Entry::Moved(_, _) => self.queued(before, Queue::Backend),
            Entry::Left(_, cause) => Numbers {
                stay: None,
                cause: Some(cause),
                ..before
            },
            _ => before,
        }
    }

    fn queued(&self, before: Numbers, queue: Queue) -> Numbers
        ensures { result ≡ put_into self.now.window queue before }
    {
        let stay = StayNumbers {
            queue,
            window: self.window,
            since: self.given.len(),
        };
        Numbers {
            stay: Some(stay),
            ..before
        }
    }

    fn served(
        &self,
        moment: Moment,
        before: Numbers,
        server: usize,
        stay: Option<StayNumbers>,
    ) -> Numbers
        ensures { result ≡ given_slot moment self.now.window server stay before }
    {
        let (ahead, overtakers) = match stay {
            None => (0, 0),
            Some(stay) => (self.ahead(stay), self.overtakers(before.came, stay)),
        };
        let slot = SlotNumbers {
            moment,
            server,
            window: self.window,
            stay,
            ahead,
            overtakers,
        };
        Numbers {
            slots: before.slots.saturating_add(1),
            stay: None,
            slot: Some(slot),
            ..before
        }
    }

    // Returns the grants of this window since a stay began.
    fn grants_since(&self, stay: StayNumbers) -> &[GrantNumbers]
        ensures { result.now ≡ grants_since self.now.window stay }
    {
        let given = self.given.as_slice();
        if stay.window == self.window {
            let since = stay.since.min(given.len());
            &given[since..]
        } else {
            given
        }
    }

    fn ahead(&self, stay: StayNumbers) -> usize
        ensures { result ≡ following.ahead self.now.window stay }
    {
        self.grants_since(stay)
            .iter()
            .filter(|given| given.queue == stay.queue)
            .count()
    }

    fn overtakers(&self, came: Came, stay: StayNumbers) -> usize
        ensures { result ≡ following.overtakers self.now.window came stay }
    {
        self.grants_since(stay)
            .iter()
            .filter(|given| overtakes(stay.queue, came, given))
            .count()
    }
}

impl Numbers {
    fn new(came: Came) -> Numbers
        ensures { result ≡ new_numbers came }
    {
        Numbers {
            came,
            failures: 0,
            slots: 0,
            stay: None,
            slot: None,
            cause: None,
        }
    }
}

fn overtakes(queue: Queue, came: Came, given: &GrantNumbers) -> bool
    ensures { result ≡ overtakes queue came given.now }
{
    queue == given.queue && came.arrival.class == given.class && came.arrival.ticket < given.ticket
}

// Returns the arrival of an entry, if it is one.
fn came_by(entry: &Entry) -> Option<Came>
    ensures { result ≡ came_by entry.now }
{
    match *entry {
        Entry::Arrive(moment, arrival) => Some(Came { moment, arrival }),
        _ => None,
    }
}

fn named_in(entry: &Entry) -> Option<u64>
    ensures { result ≡ named_in entry.now }
{
    match *entry {
        Entry::Fail(_, ticket)
        | Entry::Direct(ticket, _)
        | Entry::Joined(ticket, _)
        | Entry::Granted(ticket, _, _)
        | Entry::Moved(ticket, _)
        | Entry::Left(ticket, _) => Some(ticket),
        _ => None,
    }
}

// Returns the moment of an event, and for any other entry that of the event before it.
fn later(entry: &Entry, last: Moment) -> Moment
    ensures { result ≡ later entry.now last }
{
    match entry {
        Entry::Arrive(moment, _)
        | Entry::Done(moment, _)
        | Entry::Fail(moment, _)
        | Entry::Abort(moment, _)
        | Entry::Tick(moment)
        | Entry::Check(moment, _, _)
        | Entry::Limit(moment, _, _) => *moment,
        _ => last,
    }
}
