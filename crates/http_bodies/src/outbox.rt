ghost use Rattle.std.specs.Prelude.{◌≡◌, ◌+◌, ◌≤◌, ◌++◌, [], length, take, drop, IfOk};

use std::alloc::{AllocError, Global};
use std::marker::Model;

/// The most bytes that wait to be sent. It has room for the text of a head, which can be some
/// hundred bytes longer than the head.
pub const OUTBOX_BYTES: usize = 20_480;

/// The bytes that wait to be sent.
#[derive(Drop)]
pub struct Outbox {
    bytes: Vec<u8>,
}

impl Model for Outbox {
    ghost use Rattle.std.specs.Prelude.{◌≤◌, ℕ, List, length, vec_capacity};

    ghost Value = { List ℕ };

    ghost view = { λ o. o.bytes.items };

    ghost invariant = { λ o. (length o.bytes.items ≤ 20480) × (20480 ≤ vec_capacity o.bytes) };
}

impl Outbox {
    /// Allocates its memory, once for its life.
    pub fn new(alloc: Global) -> Result<Outbox, AllocError>
        ensures { IfOk result (λ outbox. outbox ≡ []) }
    {
        let bytes = Vec::with_capacity(alloc, OUTBOX_BYTES)?;
        Ok(Outbox { bytes })
    }

    /// Returns the bytes that wait.
    pub fn as_slice(&self) -> &[u8]
        ensures { result.now ≡ self.now }
    {
        self.bytes.as_slice()
    }

    /// Returns the number of bytes that it still takes.
    pub fn room(&self) -> usize
        ensures { length self.now + result ≡ OUTBOX_BYTES }
    {
        OUTBOX_BYTES - self.bytes.len()
    }

    /// Appends the bytes.
    pub fn push(&mut self, bytes: &[u8])
        requires { length self.old + length bytes.now ≤ OUTBOX_BYTES }
        ensures { self.new ≡ self.old ++ bytes.now }
    {
        match self.bytes.extend_from_slice(bytes) {
            Ok(()) => {}
            Err(_) => unreachable!(),
        }
    }

    /// Removes the first bytes, which were sent. `O(n)`.
    pub fn sent(&mut self, count: usize)
        requires { count ≤ length self.old }
        ensures { self.new ≡ drop count self.old }
    {
        let len = self.bytes.len();
        self.bytes.copy_within(count..len, 0);
        self.bytes.truncate(len - count);
    }

    /// Keeps the first bytes alone, and removes those after them.
    pub fn keep_front(&mut self, count: usize)
        ensures { self.new ≡ take count self.old }
    {
        self.bytes.truncate(count);
    }
}
