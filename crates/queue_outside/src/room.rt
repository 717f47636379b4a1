ghost use Rattle.std.specs.Prelude.{◌≡◌, ◌↔◌, Err, IfOk, OnErr, IfSome, IsTrue, length, option_map, slice_get};
ghost use Rattle.due_key.specs.Order.{key_cmp};
ghost use Rattle.pend_queue.specs.Pairs.{pair_at};
ghost use Rattle.queue_outside.specs.Rooms.{IsFull, AllComeAfter, nobody, outsider_key, came, first_gone, left};

use due_key::{Class, Due, Key, Moment, Offset};
use pend_queue::PendQueue;
use std::alloc::{AllocError, Global};
use std::marker::Model;

/// The outsiders by class, due date and order of coming, the least first. The caller gives each outsider a number.
#[derive(Drop)]
pub struct OutsideOrder<Q: PendQueue<Key, usize>> {
    queue: Q,
    room: usize,
    number: u64,
}

/// Why an outsider is refused.
#[derive(Clone, Copy, Debug, PartialEq, Eq)]
pub enum RoomFault {
    /// No more clients have room.
    Full,
    /// The system refuses memory.
    NoMemory,
}

impl<Q: PendQueue<Key, usize>> Model for OutsideOrder<Q> {
    ghost use Rattle.queue_outside.specs.Rooms.{Outsiders, IsOutsideOrder};

    ghost Value = { Outsiders };

    ghost view = { λ it. record { pairs = Q.pairs it.queue; room = it.room; number = it.number } };

    ghost invariant = { λ it. IsOutsideOrder (Q.pairs it.queue) (Q.room it.queue) it.room it.number };
}

impl<Q: PendQueue<Key, usize>> OutsideOrder<Q> {
    ghost use Rattle.queue_outside.specs.declared.room.RoomFault.TheVariants.{Full};

    /// Makes an empty order with this room. Fails only where memory is refused.
    pub fn with_room(alloc: Global, room: usize) -> Result<OutsideOrder<Q>, AllocError>
        ensures { IfOk result (λ made. made ≡ nobody room) }
    {
        Ok(OutsideOrder {
            queue: Q::with_room(alloc, room)?,
            room,
            number: 0,
        })
    }

    /// Says whether it is full; the caller accepts no more clients then.
    pub fn is_full(&self) -> bool
        ensures { IsTrue result ↔ IsFull self.now }
    {
        self.room <= self.queue.len() || self.number == u64::MAX
    }

    /// Returns the number of outsiders.
    pub fn len(&self) -> usize
        ensures { result ≡ length self.now.pairs }
    {
        self.queue.len()
    }

    /// Adds an outsider that comes now, and returns its key.
    pub fn come(
        &mut self,
        alloc: Global,
        class: Class,
        offset: Offset,
        now: Moment,
        outsider: usize,
    ) -> Result<Key, RoomFault>
        ensures key { IfOk result (λ key. key ≡ outsider_key self.old class now offset) }
        ensures ok { IfOk result (λ key. self.new ≡ came self.old key outsider) }
        ensures full { (result ≡ Err Full) ↔ IsFull self.old }
        ensures err { OnErr result (self.new ≡ self.old) }
    {
        if self.is_full() {
            return Err(RoomFault::Full);
        }
        let due = Due::of(now, offset);
        let Ok(node) = Q::node(alloc, class.key(due, self.number), outsider) else {
            return Err(RoomFault::NoMemory);
        };
        let key = *Q::pair(&node).0;
        self.queue.push(node);
        self.number += 1;
        Ok(key)
    }

    /// Returns the outsider that gets the next place, and leaves it in the room. `None` only where the room is empty.
    pub fn first(&mut self) -> Option<(Key, usize)>
        ensures first { result ≡ slice_get self.old.pairs 0 }
        ensures same { self.new ≡ self.old }
    {
        let node = self.queue.pop()?;
        let (key, outsider) = Q::pair(&node);
        let first = (*key, *outsider);
        self.queue.push(node);
        Some(first)
    }

    /// Takes out the outsider that gets the next place: the keys of all others are after its own.
    /// `None` only where the room is empty.
    pub fn next(&mut self) -> Option<(Key, usize)>
        ensures first { result ≡ slice_get self.old.pairs 0 }
        ensures order { IfSome result (λ it. AllComeAfter it.0 self.new.pairs) }
        ensures rest { self.new ≡ first_gone self.old }
    {
        let node = self.queue.pop()?;
        Some(Q::into_pair(node))
    }

    /// Takes out an outsider that leaves or has waited too long. `None` only where no outsider has the key.
    pub fn leave(&mut self, key: Key) -> Option<usize>
        ensures its { result ≡ option_map (λ p. p.1) (pair_at key_cmp key self.old.pairs) }
        ensures rest { self.new ≡ left self.old key }
    {
        let node = self.queue.remove(&key)?;
        Some(Q::into_pair(node).1)
    }
}
