//! The end of a proxy in stages: first no new clients are accepted, then waiting requests are
//! refused, then all ends.

use crate::shared::Shared;
use libc::net::{SHUT_RDWR, shutdown};
use locked_book::DeskName;
use std::os::fd::AsRawFd;
use std::sync::Wait;
use std::sync::atomic::Ordering;
use std::sync::ledger::Ledger;

/// The proxy accepts no more clients, except for those that waited at the listener.
#[derive(Clone, Copy)]
pub struct Stopping {
    // It is private, so no other module makes one.
    seen: (),
}

/// Waiting requests are told that they aren't served.
#[derive(Clone, Copy)]
pub struct Refusing {
    // It is private, so no other module makes one.
    seen: (),
}

/// The proxy has ended.
#[derive(Clone, Copy)]
pub struct Over {
    // It is private, so no other module makes one.
    seen: (),
}

impl<N: DeskName + Ledger> Shared<'_, N> {
    /// Accepts no more clients except those that wait at the listener by now.
    pub fn stop(&self) {
        self.stopping.store(true, Ordering::SeqCst);
        if let Some(log) = self.front.log {
            log.note_stop();
        }
        for mail in self.mail.as_slice() {
            mail.ring();
        }
    }

    /// Says whether the proxy accepts no more clients.
    pub fn seen_stopping(&self) -> Option<Stopping> {
        if self.stopping.load(Ordering::SeqCst) {
            Some(Stopping { seen: () })
        } else {
            None
        }
    }

    /// Notes that no client waits at the listener. Where no more are accepted, the system refuses
    /// new connections from now on.
    pub fn note_nobody_comes(&self) {
        if self.seen_stopping().is_some() && !self.deaf.swap(true, Ordering::SeqCst) {
            let _ = shutdown(self.front.listener.as_raw_fd(), SHUT_RDWR);
        }
    }

    /// Says whether no more clients can come.
    pub fn is_deaf(&self) -> bool {
        self.deaf.load(Ordering::SeqCst)
    }

    /// Tells each waiting request that it isn't served, and so each one that comes to wait later.
    pub fn refuse_all(&self) {
        self.refusing.store(true, Ordering::SeqCst);
        if let Some(mail) = self.mail.as_slice().first() {
            mail.ring();
        }
    }

    /// Says whether waiting requests are told that they aren't served.
    pub fn seen_refusing(&self) -> Option<Refusing> {
        if self.refusing.load(Ordering::SeqCst) {
            Some(Refusing { seen: () })
        } else {
            None
        }
    }

    /// Ends the proxy: each thread is told.
    pub fn close<R: Wait>(&self, rt: &R) -> Over {
        self.over.store(true, Ordering::SeqCst);
        *self.ended_all.lock(rt) = true;
        self.bell.notify_all();
        for mail in self.mail.as_slice() {
            mail.ring();
        }
        if let Some(controls) = self.front.controls {
            controls.ring();
        }
        Over { seen: () }
    }

    /// The same, because memory or a thread was refused.
    pub fn give_up<R: Wait>(&self, rt: &R) -> Over {
        self.failed.store(true, Ordering::SeqCst);
        self.close(rt)
    }

    /// Says whether the proxy has ended.
    pub fn seen_over(&self) -> Option<Over> {
        if self.over.load(Ordering::SeqCst) {
            Some(Over { seen: () })
        } else {
            None
        }
    }
}
