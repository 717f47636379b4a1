ghost use Rattle.std.specs.Prelude.{◌≡◌, ◌<◌, ◌≤◌, ◌↔◌, [], ◌∷◌, ◌++◌, IfOk, IsTrue, MatchOption, Contains, slice_get};
ghost use Rattle.queue_waits.specs.Order.{places_without};
ghost use Rattle.loop_table.specs.Agendas.{nothing_noted, with_soon, with_later, turned_over};

use queue_waits::JoinOrder;
use std::alloc::{AllocError, Global};
use std::marker::Model;
use std::mem;

/// A list of numbers below a bound that are to be looked at, soon or in the next round. Each number
/// stands at most once in each list, so none is looked at more often than others. All calls but
/// `with_room` are `O(1)`.
#[derive(Drop)]
pub struct Agenda {
    soon: JoinOrder,
    later: JoinOrder,
    room: usize,
}

impl Model for Agenda {
    ghost use Rattle.loop_table.specs.Agendas.{Notes, IsAgenda};

    ghost Value = { Notes };

    ghost view = { λ it. record { soon = it.soon.places; later = it.later.places; room = it.room } };

    ghost invariant = { λ it. IsAgenda it.soon.room it.later.room it.room };
}

impl Agenda {
    /// Makes an empty agenda. Fails only where memory is refused. `O(n)`.
    pub fn with_room(alloc: Global, room: usize) -> Result<Agenda, AllocError>
        ensures { IfOk result (λ made. made ≡ nothing_noted room) }
    {
        Ok(Agenda {
            soon: JoinOrder::with_room(alloc, room)?,
            later: JoinOrder::with_room(alloc, room)?,
            room,
        })
    }

    /// Notes a number to be looked at soon, after those that are noted already.
    pub fn note(&mut self, number: usize)
        ensures noted { number < self.old.room → ¬ (Contains self.old.soon number) → self.new ≡ with_soon self.old (self.old.soon ++ number ∷ []) }
        ensures there { Contains self.old.soon number → self.new ≡ self.old }
        ensures listed { number < self.old.room → Contains self.new.soon number }
        ensures beyond { self.old.room ≤ number → self.new ≡ self.old }
    {
        if number < self.room && !self.soon.contains(number) {
            self.soon.append(number);
        }
    }

    /// Notes a number to be looked at in the next round, after those that are noted already.
    pub fn put_off(&mut self, number: usize)
        ensures noted { number < self.old.room → ¬ (Contains self.old.later number) → self.new ≡ with_later self.old (self.old.later ++ number ∷ []) }
        ensures there { Contains self.old.later number → self.new ≡ self.old }
        ensures listed { number < self.old.room → Contains self.new.later number }
        ensures beyond { self.old.room ≤ number → self.new ≡ self.old }
    {
        if number < self.room && !self.later.contains(number) {
            self.later.append(number);
        }
    }

    /// Takes the next number to be looked at; `None` only where there is none.
    pub fn take(&mut self) -> Option<usize>
        ensures first { result ≡ slice_get self.old.soon 0 }
        ensures left { MatchOption result (self.new ≡ self.old) (λ number. self.new ≡ with_soon self.old (places_without number self.old.soon)) }
    {
        let Some(number) = self.soon.first() else {
            return None;
        };
        self.soon.remove(number);
        Some(number)
    }

    /// Begins a round: the numbers that were put off are to be looked at soon, and those that are
    /// left are put off.
    pub fn turn_over(&mut self)
        ensures { self.new ≡ turned_over self.old }
    {
        mem::swap(&mut self.soon, &mut self.later);
    }

    /// Says whether no number is put off.
    pub fn puts_nothing_off(&self) -> bool
        ensures { IsTrue result ↔ (self.now.later ≡ []) }
    {
        self.later.first().is_none()
    }
}
