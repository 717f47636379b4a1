use crate::owed::OwedLook;
use crate::owed_looks::OwedLooks;
use base_places::PlaceSet;
use mio::Waker;
use std::sync::{Mutex, Wait};

/// A loop's mailbox: the places that it is asked to look at.
#[derive(Drop)]
pub struct Mailbox {
    pub(crate) places: Mutex<PlaceSet>,
    pub(crate) waker: Waker,
}

impl Mailbox {
    /// Asks the loop to look at one more place.
    pub(crate) fn send<R: Wait>(&self, rt: &R, look: OwedLook) {
        look.note(&mut *self.places.lock(rt));
        self.ring();
    }

    /// Ends the loop's wait.
    pub(crate) fn ring(&self) {
        // A wake fails only where an earlier one is still pending.
        let _ = self.waker.wake();
    }

    /// Takes all places since the last call.
    pub(crate) fn take_all<R: Wait>(&self, rt: &R) -> OwedLooks {
        OwedLooks::of_mail(&mut *self.places.lock(rt))
    }
}
