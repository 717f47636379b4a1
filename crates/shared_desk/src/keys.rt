ghost use Rattle.std.specs.Prelude.{◌≡◌};

use crate::desk::DeskBook;
use crate::locked::{Locked, Step};
use locked_book::DeskName;
use std::marker::PhantomData;

/// Opens a desk for calls that change what its lock holds. Only who is lent it makes such calls.
#[derive(Drop)]
pub struct DeskKey<N> {
    of: PhantomData<N>,
}

/// Opens what reads of a desk's log return, to get rid of it. Each entry is read once, so that only
/// one thread has this key, and reads.
#[derive(Drop)]
pub struct LogKey<N> {
    of: PhantomData<N>,
}

/// Opens what a call of a desk changed, to take the places with its offers. The gates of threads
/// have it.
#[derive(Drop)]
pub struct WakeKey {
    of: PhantomData<()>,
}

/// The keys of a desk.
#[derive(Drop)]
pub struct DeskKeys<N> {
    pub desk: DeskKey<N>,
    pub log: LogKey<N>,
    pub wake: WakeKey,
}

impl<N: DeskName> DeskKeys<N> {
    // Makes the keys of the desk that has this lock, and returns the lock. Who is only lent a desk
    // can't make any.
    pub(crate) fn of(lock: Locked<DeskBook<N>>) -> (Locked<DeskBook<N>>, DeskKeys<N>)
        ensures { result.0 ≡ lock }
    {
        let keys = DeskKeys {
            desk: DeskKey { of: PhantomData },
            log: LogKey { of: PhantomData },
            wake: WakeKey { of: PhantomData },
        };
        (lock, keys)
    }
}
