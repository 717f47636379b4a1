ghost use Rattle.std.specs.Prelude.{◌≡◌, ◌≤◌, ◌<◌, ◌+◌, ◌++◌, [], None, Some, IsSome, IfOk, length, drop, vec_capacity};
ghost use Rattle.std.specs.Option.{option_map};
ghost use Rattle.log_reading.specs.Tails.{one_more};

use log_entries::Entry;
use std::alloc::{AllocError, Global};
use std::marker::Model;
use std::mem;

/// The result of one read of a log.
#[derive(Drop)]
pub struct Batch {
    /// The next entries.
    pub entries: Vec<Entry>,
    /// How many of them are before the end of a window. `None`: no window ended.
    pub end: Option<usize>,
    /// Entries after these were lost, and this number of ends of windows with them.
    pub lost: Option<u64>,
}

/// The part of a log that waits to be read.
#[derive(Drop)]
pub struct Tail {
    entries: Vec<Entry>,
    end: Option<usize>,
    lost: Option<u64>,
    seen: usize,
    room: usize,
}

impl Model for Tail {
    ghost use Rattle.std.specs.Prelude.{◌≤◌, length, vec_capacity};
    ghost use Rattle.log_reading.specs.Tails.{Waiting};

    ghost Value = { Waiting };

    ghost view = { λ tail. record { entries = tail.entries.items; end = tail.end; lost = tail.lost; seen = tail.seen; room = tail.room } };

    ghost invariant = { λ tail. (tail.room ≤ vec_capacity tail.entries) × (length tail.entries.items ≤ tail.room) };
}

impl Batch {
    /// Makes an empty batch for a tail with room for this number of entries.
    pub fn with_room(alloc: Global, room: usize) -> Result<Batch, AllocError>
        ensures none { IfOk result (λ batch. (batch.entries.items ≡ []) × (batch.end ≡ None) × (batch.lost ≡ None)) }
        ensures room { IfOk result (λ batch. vec_capacity batch.entries ≡ room) }
    {
        Ok(Batch {
            entries: Vec::with_capacity(alloc, room)?,
            end: None,
            lost: None,
        })
    }

    /// Empties the batch, and keeps its room.
    pub fn clear(&mut self)
        ensures none { (self.new.entries.items ≡ []) × (self.new.end ≡ None) × (self.new.lost ≡ None) }
        ensures room { vec_capacity self.new.entries ≡ vec_capacity self.old.entries }
    {
        self.entries.clear();
        self.end = None;
        self.lost = None;
    }
}

impl Tail {
    /// Makes the tail of a window without an entry, with room for this number of entries.
    pub fn with_room(alloc: Global, room: usize) -> Result<Tail, AllocError>
        ensures { IfOk result (λ tail. tail ≡ record { entries = []; end = None; lost = None; seen = 0; room = room }) }
    {
        Ok(Tail {
            entries: Vec::with_capacity(alloc, room)?,
            end: None,
            lost: None,
            seen: 0,
            room,
        })
    }

    /// Returns the number of entries that it has room for.
    pub fn room(&self) -> usize
        ensures { result ≡ self.now.room }
    {
        self.room
    }

    /// Takes the entries of the present window beyond those that it has taken. Where there is no
    /// room for all of them, or some were lost before, they are lost. `O(n)` in the entries taken,
    /// without allocating.
    pub fn catch_up(&mut self, entries: &[Entry])
        ensures seen { self.new.seen ≡ length entries.now }
        ensures fits { self.old.lost ≡ None → length self.old.entries + length (drop self.old.seen entries.now) ≤ self.old.room
            → (self.new.entries ≡ self.old.entries ++ drop self.old.seen entries.now) × (self.new.lost ≡ None) }
        ensures full { self.old.lost ≡ None → self.old.room < length self.old.entries + length (drop self.old.seen entries.now)
            → (self.new.entries ≡ self.old.entries) × (self.new.lost ≡ Some 0) }
        ensures lost { IsSome self.old.lost → (self.new.entries ≡ self.old.entries) × (self.new.lost ≡ self.old.lost) }
        ensures same { (self.new.end ≡ self.old.end) × (self.new.room ≡ self.old.room) }
    {
        let seen = self.seen.min(entries.len());
        let more = &entries[seen..];
        self.seen = entries.len();
        if self.lost.is_some() {
            return;
        }
        if more.len() <= self.room - self.entries.len() {
            put_all(&mut self.entries, more);
        } else {
            self.lost = Some(0);
        }
    }

    /// Notes that the window ended, all of which was taken. Where an earlier end isn't read yet, this one is lost.
    pub fn turn(&mut self)
        ensures seen { self.new.seen ≡ 0 }
        ensures first { self.old.lost ≡ None → self.old.end ≡ None → (self.new.end ≡ Some (length self.old.entries)) × (self.new.lost ≡ None) }
        ensures second { self.old.lost ≡ None → IsSome self.old.end → (self.new.end ≡ self.old.end) × (self.new.lost ≡ Some 1) }
        ensures lost { IsSome self.old.lost → (self.new.end ≡ self.old.end) × (self.new.lost ≡ option_map one_more self.old.lost) }
        ensures same { (self.new.entries ≡ self.old.entries) × (self.new.room ≡ self.old.room) }
    {
        self.seen = 0;
        match (self.lost, self.end) {
            (Some(ends), _) => self.lost = Some(ends.saturating_add(1)),
            (None, Some(_)) => self.lost = Some(1),
            (None, None) => self.end = Some(self.entries.len()),
        }
    }

    /// Moves the waiting entries into an empty batch. From then on new entries are taken again.
    pub fn take(&mut self, batch: &mut Batch)
        requires empty { batch.old.entries.items ≡ [] }
        requires room { self.old.room ≤ vec_capacity batch.old.entries }
        ensures batch { (batch.new.entries.items ≡ self.old.entries) × (batch.new.end ≡ self.old.end) × (batch.new.lost ≡ self.old.lost) }
        ensures room { self.new.room ≤ vec_capacity batch.new.entries }
        ensures none { (self.new.entries ≡ []) × (self.new.end ≡ None) × (self.new.lost ≡ None) }
        ensures same { (self.new.seen ≡ self.old.seen) × (self.new.room ≡ self.old.room) }
    {
        mem::swap(&mut self.entries, &mut batch.entries);
        batch.end = self.end.take();
        batch.lost = self.lost.take();
    }
}

// Appends entries within the room that is there.
fn put_all(entries: &mut Vec<Entry>, more: &[Entry])
    requires { length entries.old.items + length more.now ≤ vec_capacity entries.old }
    ensures items { entries.new.items ≡ entries.old.items ++ more.now }
    ensures room { vec_capacity entries.old ≤ vec_capacity entries.new }
{
    match entries.extend_from_slice(more) {
        Ok(()) => {}
        Err(_) => unreachable!(),
    }
}
