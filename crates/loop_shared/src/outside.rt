//! Requests beyond the places. They wait by class and due date, those of all loops in one order,
//! and the next free place goes to the first.

ghost use Rattle.std.specs.Prelude.{◌≡◌, ◌⊎◌, ℕ, length, min, Option, IfOk, IfErr, IfSome, IfNone, None};
ghost use Rattle.due_key.specs.declared.key.Key.{Key};
ghost use Rattle.loop_table.specs.Timers.{later_at, AreQuiet, IsOverdueAt};
ghost use Rattle.loop_table.specs.TokenTables.{fresh};
ghost use Rattle.loop_table.specs.declared.subject.Subject.TheVariants as subjects;
ghost use Rattle.loop_table.specs.declared.token.Token.{Token};
ghost use Rattle.locked_book.specs.declared.book.Deferred.{Deferred};
ghost use Rattle.loop_shared.specs.Outsides.{HasCome, HasGone, IsFirstOutside, IsGoneOutside, NobodyIsFirst};
ghost use Rattle.loop_shared.specs.Timed.{IsTimed, Begins, Stops};
ghost use Rattle.queue_outside.specs.Rooms.{nobody};

use crate::leaving::{HasLeft, left};
use crate::presence::Presence;
use crate::timeouts::timed;
use due_key::{Key, Moment};
use exchange_driver::{Line, Live};
use exchange_seated::WaitingExchange;
use locked_book::Deferred;
use loop_table::{Overdue, Subject, Timers, Token, TokenTable};
use pend_queue::ListQueue;
use prio_rules::Wish;
use proxy_config::Config;
use queue_outside::OutsideOrder;
use std::alloc::{AllocError, Global};

/// The most requests that wait for a place.
pub(crate) const MOST_OUTSIDE: usize = 131_072;

/// A client whose request waits for a place. It has no `Drop`, since its presence has none.
pub struct Outsider {
    pub presence: Presence,
    pub queued: WaitingExchange,
    pub client: Line<Live>,
    /// When it began to wait.
    pub came: Moment,
    /// The server that its request is pinned to.
    pub pin: Option<usize>,
}

/// A client with its request's key in the common order.
struct Standing {
    key: Key,
    outsider: Outsider,
}

/// All clients whose requests wait for a place. It has no `Drop`, since its table has none.
pub struct Outside {
    order: OutsideOrder<ListQueue<Key, usize>>,
    standing: TokenTable<Box<Standing>>,
    timers: Timers,
    /// The number of `timeout queue` among the timers. `None`: without limit.
    patience: Option<usize>,
}

impl Outside {
    /// Makes an empty one, with room for all clients, each for this number of milliseconds.
    /// Fails only where memory is refused.
    pub fn new(alloc: Global, clients: u64, millis: Option<u64>) -> Result<Outside, AllocError>
        ensures empty { IfOk result (λ made. (made.order ≡ nobody (min clients 131072)) × (made.standing ≡ fresh (min clients 131072))) }
        ensures timed { IfOk result (λ made. IsTimed made.timers (min clients 131072) millis made.patience) }
    {
        let room = room_for(clients);
        let mut timers = Timers::new(alloc);
        let patience = timed(alloc, &mut timers, millis, room)?;
        let order = OutsideOrder::with_room(alloc, room)?;
        let standing = TokenTable::with_room(alloc, room)?;
        Ok(Outside {
            order,
            standing,
            timers,
            patience,
        })
    }

    /// Returns the number of requests that wait.
    pub(crate) fn len(&self) -> usize
        ensures { result ≡ length self.now.order.pairs }
    {
        self.order.len()
    }

    /// Adds a request, and returns the token that names it. It comes back where there is no memory
    /// or no room for it.
    pub(crate) fn come(
        &mut self,
        alloc: Global,
        wish: &Wish,
        outsider: Outsider,
    ) -> Result<Token, Outsider>
        ensures ok { IfOk result (λ token. HasCome self.old self.new wish.now outsider token) }
        ensures err { IfErr result (λ back. back ≡ outsider) }
    {
        let Some(hole) = self.standing.open() else {
            return Err(outsider);
        };
        let token = hole.token();
        let now = outsider.came;
        let came = self
            .order
            .come(alloc, wish.class, wish.offset, now, token.index());
        let Ok(key) = came else {
            self.standing.close(hole);
            return Err(outsider);
        };
        match Box::new(alloc, Standing { key, outsider }) {
            Err(refused) => {
                let Standing { key, outsider } = refused.value;
                let _ = self.order.leave(key);
                self.standing.close(hole);
                Err(outsider)
            }
            Ok(standing) => match self.standing.fill(hole, standing) {
                Ok(()) => {
                    self.begin_time(token.index(), now);
                    Ok(token)
                }
                Err(standing) => {
                    let Standing { key, outsider } = Box::into_inner(standing);
                    let _ = self.order.leave(key);
                    Err(outsider)
                }
            },
        }
    }

    // Begins its timeout. The clock may not have been read for long.
    fn begin_time(&mut self, number: usize, now: Moment)
        ensures same { self.new ≡ record self.old { timers = self.new.timers } }
        ensures begins { Begins (later_at self.old.timers now) self.new.timers self.old.patience number }
    {
        self.timers.look_at_clock(now);
        if let Some(patience) = self.patience {
            self.timers.begin(patience, number);
        }
    }

    // Ends its timeout.
    fn end_time(&mut self, number: usize)
        ensures same { self.new ≡ record self.old { timers = self.new.timers } }
        ensures stops { Stops self.old.timers self.new.timers self.old.patience number }
    {
        if let Some(patience) = self.patience {
            self.timers.stop(patience, number);
        }
    }

    /// Returns the wish of the first request, for the next free place.
    pub(crate) fn next(&mut self) -> Option<(Deferred, Token)>
        ensures some { IfSome result (λ it. IsFirstOutside self.old it.0 it.1) }
        ensures none { IfNone result ((first : Option (Key × ℕ)) × NobodyIsFirst self.old first) }
        ensures same { self.new ≡ self.old }
    {
        let (key, number) = self.order.first()?;
        let token = self.standing.token_of(number)?;
        let standing = self.standing.get(token)?;
        let deferred = Deferred {
            class: key.class,
            due: key.due,
            pin: standing.outsider.pin,
        };
        Some((deferred, token))
    }

    /// Takes a request out. `None`: it is gone already.
    pub(crate) fn take(&mut self, token: Token) -> Option<Outsider>
        ensures some { IfSome result (λ outsider. HasGone self.old self.new token outsider) }
        ensures none { IfNone result (IsGoneOutside self.old token × (self.new ≡ self.old)) }
        ensures untimed { IfSome result (λ _. Stops self.old.timers self.new.timers self.old.patience token.index) }
    {
        let (standing, hole) = self.standing.lend(token)?;
        self.standing.close(hole);
        self.end_time(token.index());
        let Standing { key, outsider } = Box::into_inner(standing);
        let _ = self.order.leave(key);
        Some(outsider)
    }

    /// Takes out the request that gets the next free place.
    pub(crate) fn take_first(&mut self) -> Option<Outsider>
        ensures some { IfSome result (λ outsider. (deferred : Deferred) × (token : Token) × IsFirstOutside self.old deferred token × HasGone self.old self.new token outsider) }
        ensures none { IfNone result (((first : Option (Key × ℕ)) × NobodyIsFirst self.old first) ⊎ ((deferred : Deferred) × (token : Token) × IsFirstOutside self.old deferred token × IsGoneOutside self.old token)) }
    {
        let (_, token) = self.next()?;
        let outsider = self.take(token)?;
        Some(outsider)
    }

    /// Returns the client of a request that waits.
    pub(crate) fn client(&self, token: Token) -> Option<&Live> {
        let standing = self.standing.get(token)?;
        standing.outsider.client.socket()
    }

    /// Asks the system whether the client of a request that waits has left.
    pub(crate) fn left(&self, token: Token, config: &Config) -> Option<HasLeft>
        ensures { IfSome result (λ it. it.subject ≡ subjects.Outside token) }
    {
        left(self.client(token)?, Subject::Outside(token), config)
    }

    /// Takes out a request that has waited too long at this moment.
    pub(crate) fn take_late(&mut self, now: Moment) -> Option<Outsider>
        ensures some { IfSome result (λ outsider. (keyword : ℕ) × (token : Token) × IsOverdueAt (later_at self.old.timers now) keyword token.index × HasGone self.old self.new token outsider) }
        ensures none { IfNone result (AreQuiet (later_at self.old.timers now).clock self.old.timers.timed
            ⊎ ((keyword cell : ℕ) × IsOverdueAt (later_at self.old.timers now) keyword cell × ((token : Token) → token.index ≡ cell → IsGoneOutside self.old token))) }
    {
        self.timers.look_at_clock(now);
        let Some(overdue) = self.timers.take_overdue() else {
            return None;
        };
        let Overdue { keyword: _, cell } = overdue;
        let token = self.standing.token_of(cell)?;
        let outsider = self.take(token)?;
        Some(outsider)
    }

    /// Ends the presence of all clients that still wait.
    pub fn end(self) {
        let Outside {
            order: _,
            standing,
            timers: _,
            patience: _,
        } = self;
        let mut standing = standing.into_values();
        while let Some(stands) = standing.pop() {
            match stands {
                None => {}
                Some(stands) => Box::into_inner(stands).end(),
            }
        }
        standing.destroy_empty();
    }
}

// Returns the room for the requests of this number of clients.
fn room_for(clients: u64) -> usize
    ensures { result ≡ min clients 131072 }
{
    usize::try_from(clients)
        .unwrap_or(MOST_OUTSIDE)
        .min(MOST_OUTSIDE)
}

impl Outsider {
    /// Takes the request out of its wait, and returns its client's presence.
    pub fn leave(self) -> Presence {
        let Outsider {
            presence,
            queued: _,
            client: _,
            came: _,
            pin: _,
        } = self;
        presence
    }
}

impl Standing {
    // Ends the presence together with the proxy.
    fn end(self) {
        let Standing { key: _, outsider } = self;
        outsider.leave().end();
    }
}
