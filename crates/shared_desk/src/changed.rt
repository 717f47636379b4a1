ghost use Rattle.std.specs.Prelude.{◌≡◌, None, Some};
ghost use Rattle.std.specs.Option.{option_map};
ghost use Rattle.shared_desk.specs.Changes.{AreNone, tail_change};

use crate::desk::DeskBook;
use crate::keys::{LogKey, WakeKey};
use crate::locked::Step;
use crate::unread::Unread;
use base_places::PlaceSet;
use locked_book::DeskName;
use std::marker::Model;
use std::snapshot::Snapshot;

/// What a call changed of what a desk's lock holds, and of the entries that wait to be read where it
/// reached them; and the places with its offers. It can't be dropped: who has the desk's `WakeKey`
/// takes the places.
pub struct Changed<N: DeskName> {
    book: Step<DeskBook<N>>,
    tail: Option<Step<Unread>>,
    places: PlaceSet,
}

impl<N: DeskName> Model for Changed<N> {
    ghost use Rattle.std.specs.Option.{option_map};
    ghost use Rattle.shared_desk.specs.Changes.{Change, tail_change};

    ghost Value = { Change };

    ghost view = { λ changed. record { old = changed.book.old.value; new = changed.book.new.value; tail = option_map (λ tail. tail_change tail.old.value.tail tail.new.value.tail) changed.tail; places = changed.places } };
}

impl<N: DeskName> Changed<N> {
    /// Tells what was changed of the book alone.
    pub(crate) fn of(book: Step<DeskBook<N>>, places: PlaceSet) -> Changed<N>
        ensures old { result.old ≡ book.old.value }
        ensures new { result.new ≡ book.new.value }
        ensures tail { result.tail ≡ None }
        ensures places { result.places ≡ places }
    {
        Changed {
            book,
            tail: None,
            places,
        }
    }

    /// Tells what was changed of the book and of the entries that wait to be read.
    pub(crate) fn with_tail(book: Step<DeskBook<N>>, tail: Step<Unread>) -> Changed<N>
        ensures old { result.old ≡ book.old.value }
        ensures new { result.new ≡ book.new.value }
        ensures tail { result.tail ≡ Some (tail_change tail.old.value.tail tail.new.value.tail) }
        ensures places { AreNone result.places }
    {
        Changed {
            book,
            tail: Some(tail),
            places: PlaceSet::new(),
        }
    }

    /// Takes the places with the offers.
    pub fn take(self, key: &WakeKey) -> PlaceSet
        ensures { result ≡ self.places }
    {
        let Changed { book, tail, places } = self;
        book.forget(key);
        if let Some(tail) = tail {
            tail.forget(key);
        }
        places
    }
}

/// What a call changed of the entries that wait to be read. It can't be dropped: who has the `LogKey`
/// forgets it.
pub struct TailChanged {
    tail: Step<Unread>,
}

impl Model for TailChanged {
    ghost use Rattle.shared_desk.specs.Changes.{TailChange, tail_change};

    ghost Value = { TailChange };

    ghost view = { λ changed. tail_change changed.tail.old.value.tail changed.tail.new.value.tail };
}

impl TailChanged {
    /// Tells what was changed.
    pub(crate) fn of(tail: Step<Unread>) -> TailChanged
        ensures { result ≡ tail_change tail.old.value.tail tail.new.value.tail }
    {
        TailChanged { tail }
    }

    /// Forgets what was changed.
    pub fn forget<N>(self, key: &LogKey<N>) {
        let TailChanged { tail } = self;
        tail.forget_read(key);
    }
}

/// What a read changed of the entries that wait to be read, and the book that it looked at, if it
/// did. It can't be dropped: who has the desk's `LogKey` forgets it.
pub struct LogRead<N: DeskName> {
    tail: TailChanged,
    seen: Option<Snapshot<DeskBook<N>>>,
}

impl<N: DeskName> Model for LogRead<N> {
    ghost use Rattle.std.specs.Option.{option_map};
    ghost use Rattle.shared_desk.specs.Changes.{LogRead};

    ghost Value = { LogRead };

    ghost view = { λ read. record { tail = read.tail; seen = option_map (λ seen. seen.value) read.seen } };
}

impl<N: DeskName> LogRead<N> {
    /// Tells what was changed, and what was looked at.
    pub(crate) fn of(tail: Step<Unread>, seen: Option<Snapshot<DeskBook<N>>>) -> LogRead<N>
        ensures tail { result.tail ≡ tail_change tail.old.value.tail tail.new.value.tail }
        ensures seen { result.seen ≡ option_map (λ seen. seen.value) seen }
    {
        LogRead {
            tail: TailChanged::of(tail),
            seen,
        }
    }

    /// Forgets what was read.
    pub fn forget(self, key: &LogKey<N>) {
        let LogRead { tail, seen: _ } = self;
        tail.forget(key);
    }
}
