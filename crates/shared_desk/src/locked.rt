//! A lock that changes nothing unseen. It lends what it holds to look at; who changes that gets in
//! return what was changed, which can't be dropped. What it holds is of any type, so that no call
//! here can change it.

ghost use Rattle.std.specs.Prelude.{◌≡◌};
ghost use Rattle.std.specs.Sync.Mutex.{mutex_guard_value};

use crate::keys::{LogKey, WakeKey};
use std::snapshot::Snapshot;
use std::sync::{Mutex, MutexGuard, Wait};

/// A book behind a lock.
#[derive(Drop)]
pub(crate) struct Locked<B: Drop> {
    book: Mutex<B>,
    // The book that it was made with.
    first: Snapshot<B>,
}

/// A book whose lock is held, so that it can be looked at. The lock is free again where this is
/// dropped; a thread that takes it again before that waits for ever.
#[derive(Drop)]
pub struct Looking<'a, B> {
    guard: MutexGuard<'a, B>,
}

/// A book whose lock is held to change it. `end` alone frees the lock.
pub(crate) struct Changing<'a, B> {
    pub(crate) guard: MutexGuard<'a, B>,
    // The book that the lock held.
    found: Snapshot<B>,
}

/// The book that a lock held before a change, and the one after it. It can't be dropped.
pub(crate) struct Step<B> {
    old: Snapshot<B>,
    new: Snapshot<B>,
}

/// The book that a lock held at first, and the last one. Only contracts see it.
#[derive(Drop)]
pub struct Held<B> {
    first: Snapshot<B>,
    last: Snapshot<B>,
}

impl<B: Drop> Locked<B> {
    pub(crate) fn new(book: B) -> Locked<B>
        ensures { result.first.value ≡ book }
    {
        let first = Snapshot::of(&book);
        Locked {
            book: Mutex::new(book),
            first,
        }
    }

    /// Takes the lock to look at the book.
    pub(crate) fn look<R: Wait>(&self, rt: &R) -> Looking<'_, B> {
        Looking {
            guard: self.book.lock(rt),
        }
    }

    /// Takes the lock to change the book.
    pub(crate) fn change<R: Wait>(&self, rt: &R) -> Changing<'_, B>
        ensures { result.found.value ≡ mutex_guard_value result.guard }
    {
        let guard = self.book.lock(rt);
        let found = Snapshot::of(&*guard);
        Changing { guard, found }
    }

    /// Returns the book.
    pub(crate) fn into_book(self) -> (B, Held<B>)
        ensures first { result.1.first.value ≡ self.first.value }
        ensures last { result.1.last.value ≡ result.0 }
    {
        let Locked { book, first } = self;
        let book = book.into_inner();
        let last = Snapshot::of(&book);
        (book, Held { first, last })
    }
}

impl<B> Looking<'_, B> {
    /// Returns the book.
    pub fn book(&self) -> &B
        ensures { result.now ≡ mutex_guard_value self.now.guard }
    {
        &self.guard
    }
}

impl<B> Changing<'_, B> {
    /// Frees the lock, and returns what was changed while it was held.
    pub(crate) fn end(self) -> Step<B>
        ensures old { result.old.value ≡ self.entry.found.value }
        ensures new { result.new.value ≡ mutex_guard_value self.entry.guard }
    {
        let Changing { guard, found } = self;
        let new = Snapshot::of(&*guard);
        Step { old: found, new }
    }
}

impl<B> Step<B> {
    /// Forgets the change, which a gate was told of.
    pub(crate) fn forget(self, _key: &WakeKey) {
        let Step { old: _, new: _ } = self;
    }

    /// Forgets the change, which the reader of a log made.
    pub(crate) fn forget_read<N>(self, _key: &LogKey<N>) {
        let Step { old: _, new: _ } = self;
    }
}
