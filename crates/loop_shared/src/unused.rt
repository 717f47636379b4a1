//! The count of servers' connections that no exchange uses.

use crate::shared::Shared;
use locked_book::DeskName;
use std::alloc::{AllocError, Global};
use std::sync::Wait;
use std::sync::atomic::{AtomicBool, AtomicU64, Ordering};
use std::sync::ledger::Ledger;

/// The number of unused connections, of each server and in all.
#[derive(Drop)]
pub struct UnusedCounts {
    each: Vec<AtomicU64>,
    all: AtomicU64,
    /// The most of them in all.
    most: u64,
    /// Some loop is to close one of this server's.
    called_for: Vec<AtomicBool>,
}

impl UnusedCounts {
    /// Makes the counts for this number of servers, with none in use and this number at most in all.
    pub fn none(alloc: Global, servers: usize, most: u64) -> Result<UnusedCounts, AllocError> {
        let mut each = Vec::with_capacity(alloc, servers)?;
        let mut called_for = Vec::with_capacity(alloc, servers)?;
        for _ in 0..servers {
            each.push(AtomicU64::new(0))?;
            called_for.push(AtomicBool::new(false))?;
        }
        Ok(UnusedCounts {
            each,
            all: AtomicU64::new(0),
            most,
            called_for,
        })
    }

    fn of(&self, server: usize) -> u64 {
        match self.each.as_slice().get(server) {
            None => 0,
            Some(count) => count.load(Ordering::SeqCst),
        }
    }
}

impl<N: DeskName + Ledger> Shared<'_, N> {
    /// Counts one more unused connection of a server. False where there are as many as there may be.
    pub fn note_unused(&self, server: usize) -> bool {
        let (Some(most), Some(count)) = (
            self.front.reusing,
            self.unused.each.as_slice().get(server),
        ) else {
            return false;
        };
        if !rises(&self.unused.all, self.unused.most) {
            return false;
        }
        if rises(count, most) {
            return true;
        }
        self.unused.all.fetch_sub(1, Ordering::SeqCst);
        false
    }

    /// Counts one fewer, since it is used or closed.
    pub fn note_used(&self, server: usize) {
        if let Some(count) = self.unused.each.as_slice().get(server) {
            count.fetch_sub(1, Ordering::SeqCst);
            self.unused.all.fetch_sub(1, Ordering::SeqCst);
        }
    }

    /// Says whether a server has more connections than its limit of requests, where each request
    /// that it serves has one and the unused ones count too.
    pub fn is_crowded_at<R: Wait>(&self, rt: &R, server: usize) -> bool {
        let unused = self.unused.of(server);
        if unused == 0 {
            return false;
        }
        match self.front.config.servers.as_slice().get(server) {
            Some(config) if config.maxconn != 0 => {
                let served = self.proxy.desk.look(rt).book().served(server) as u64;
                u64::from(config.maxconn) < served.saturating_add(unused)
            }
            _ => false,
        }
    }

    /// Asks some loop that has an unused connection of a server to close it.
    pub fn call_for_one(&self, server: usize) {
        if let Some(called) = self.unused.called_for.as_slice().get(server) {
            called.store(true, Ordering::SeqCst);
        }
        for mail in self.mail.as_slice() {
            mail.ring();
        }
    }

    /// Says whether a loop was asked to. Whoever gets that answer closes one.
    pub fn is_one_called_for(&self, server: usize) -> bool {
        match self.unused.called_for.as_slice().get(server) {
            None => false,
            Some(called) => called.swap(false, Ordering::SeqCst),
        }
    }
}

// Adds one to a count, where it is below `most`. Says whether it did.
fn rises(count: &AtomicU64, most: u64) -> bool {
    if count.fetch_add(1, Ordering::SeqCst) < most {
        return true;
    }
    count.fetch_sub(1, Ordering::SeqCst);
    false
}
