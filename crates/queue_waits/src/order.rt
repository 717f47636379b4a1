ghost use Rattle.std.specs.Prelude.{◌≡◌, ◌<◌, ◌↔◌, List, [], ◌∷◌, ◌++◌, slice_get, slice_set, Contains, IfOk, IsTrue, vec_len};
ghost use Rattle.queue_waits.specs.Order.{IsOrder, places_without, next_after, with_places};

use std::alloc::{AllocError, Global};
use std::marker::Model;

/// Places in the order in which they joined.
#[derive(Drop)]
pub struct JoinOrder {
    room: usize,
    // The links form a ring through the places of the order and the cell at `room`, which stands
    // before the first and after the last. A place that isn't in the order leads to itself.
    next: Vec<usize>,
    previous: Vec<usize>,
}

impl Model for JoinOrder {
    ghost use Rattle.queue_waits.specs.Order.{Order};
    ghost use Rattle.queue_waits.specs.Links.{places_of, IsLinked};

    ghost Value = { Order };

    ghost view = { λ order. record { places = places_of order.next.items order.room; room = order.room } };

    ghost invariant = { λ order. IsLinked order.next.items order.previous.items order.room (places_of order.next.items order.room) };
}

impl JoinOrder {
    /// Makes an empty order of the places below `room`. Fails only where memory is refused; so
    /// always for `usize::MAX` places, which take one cell more than can be counted. `O(n)`.
    pub fn with_room(alloc: Global, room: usize) -> Result<JoinOrder, AllocError>
        ensures { IfOk result (λ made. made ≡ record { places = []; room = room }) }
    {
        let Some(cells) = room.checked_add(1) else {
            return Err(AllocError);
        };
        let mut next = Vec::with_capacity(alloc, cells)?;
        let mut previous = Vec::with_capacity(alloc, cells)?;
        for cell in 0..cells {
            next.push_reserved(cell);
            previous.push_reserved(cell);
        }
        Ok(JoinOrder {
            room,
            next,
            previous,
        })
    }

    /// Says whether a place is in the order. `O(1)`.
    pub fn contains(&self, place: usize) -> bool
        ensures { IsTrue result ↔ Contains self.now.places place }
    {
        place < self.room && self.next[place] != place
    }

    /// Returns the place that joined first. `O(1)`.
    pub fn first(&self) -> Option<usize>
        ensures first { result ≡ slice_get self.now.places 0 }
        ensures order { IsOrder self.now }
    {
        let at = self.next[self.room];
        if at == self.room { None } else { Some(at) }
    }

    /// Returns the place that joined next after this one. `O(1)`.
    pub fn after(&self, place: usize) -> Option<usize>
        requires { Contains self.now.places place }
        ensures { result ≡ next_after place self.now.places }
    {
        let at = self.next[place];
        if at == self.room { None } else { Some(at) }
    }

    /// Appends a place. `O(1)`.
    pub fn append(&mut self, place: usize)
        requires room { place < self.old.room }
        requires absent { ¬ (Contains self.old.places place) }
        ensures { self.new ≡ with_places self.old (self.old.places ++ place ∷ []) }
    {
        let last = self.previous[self.room];
        link(&mut self.next, &mut self.previous, last, place);
        link(&mut self.next, &mut self.previous, place, self.room);
    }

    /// Takes a place out; the others keep their order. `O(1)`.
    pub fn remove(&mut self, place: usize)
        requires { Contains self.old.places place }
        ensures { self.new ≡ with_places self.old (places_without place self.old.places) }
    {
        let before = self.previous[place];
        let after = self.next[place];
        link(&mut self.next, &mut self.previous, before, after);
        self.next[place] = place;
    }
}

// Links two cells in both directions.
fn link(next: &mut Vec<usize>, previous: &mut Vec<usize>, from: usize, to: usize)
    requires from { from < vec_len next.old }
    requires to { to < vec_len previous.old }
    ensures next { next.new.items ≡ slice_set next.old.items from to }
    ensures previous { previous.new.items ≡ slice_set previous.old.items to from }
{
    next[from] = to;
    previous[to] = from;
}
