ghost use Rattle.std.specs.Prelude.{◌≡◌, ◌+◌, ◌-◌, ◌^◌, ◌<◌, ◌≤◌, ◌++◌, ℕ, List, [], length, drop, IfOk, OnErr, vec_len, slice_range, take};
ghost use Rattle.std.specs.Io.KnownBytes.{Consumes, Keeps, IsAtEnd};
ghost use Rattle.base_streams.specs.Streams.{Counts};

use base_streams::{Failed, Source};
use std::alloc::{AllocError, Global};
use std::marker::Model;

/// The most bytes that are held.
pub const INBOX_BYTES: usize = 65_536;

/// The bytes that were read and aren't used yet.
#[derive(Drop)]
pub struct Inbox {
    buf: Vec<u8>,
    start: usize,
    end: usize,
}

impl Model for Inbox {
    ghost use Rattle.std.specs.Prelude.{◌≡◌, ◌≤◌, ℕ, List, slice_range, vec_len};

    ghost Value = { List ℕ };

    ghost view = { λ i. slice_range i.buf.items i.start i.end };

    ghost invariant = { λ i. (i.start ≤ i.end) × (i.end ≤ 65536) × (vec_len i.buf ≡ 65536) };
}

impl Inbox {
    /// Allocates its memory, once for its life.
    pub(crate) fn new(alloc: Global) -> Result<Inbox, AllocError>
        ensures { IfOk result (λ inbox. inbox ≡ []) }
    {
        let mut buf = Vec::with_capacity(alloc, INBOX_BYTES)?;
        buf.resize(INBOX_BYTES, 0)?;
        Ok(Inbox {
            buf,
            start: 0,
            end: 0,
        })
    }

    pub(crate) fn clear(&mut self)
        ensures { self.new ≡ [] }
    {
        self.start = 0;
        self.end = 0;
    }

    pub(crate) fn as_slice(&self) -> &[u8]
        ensures value { result.now ≡ self.now }
        ensures small { length self.now ≤ INBOX_BYTES }
    {
        &self.buf[self.start..self.end]
    }

    pub(crate) fn consume(&mut self, count: usize)
        requires { count ≤ length self.old }
        ensures { self.new ≡ drop count self.old }
    {
        self.start += count;
    }

    /// Holds these bytes in place of the old ones.
    pub(crate) fn hold(&mut self, bytes: &[u8])
        requires { length bytes.now ≤ INBOX_BYTES }
        ensures { self.new ≡ bytes.now }
    {
        put_at(&mut self.buf, 0, bytes);
        self.start = 0;
        self.end = bytes.len();
    }

    /// Reads once, after the bytes that are held.
    pub(crate) fn fill<S: Source>(&mut self, source: &mut S) -> Result<usize, Failed>
        requires room { length self.old < INBOX_BYTES }
        requires countable { (S.stream source.old).calls < 2 ^ 64 - 1 }
        ensures ok { IfOk result (λ count. (taken : List ℕ) × Consumes (S.stream source.old).bytes (S.stream source.new).bytes taken
            × (length taken ≡ count) × (self.new ≡ self.old ++ taken)) }
        ensures end { IfOk result (λ count. count ≡ 0 → IsAtEnd (S.stream source.new).bytes) }
        ensures err { OnErr result (Keeps (S.stream source.old).bytes (S.stream source.new).bytes) }
        ensures kept { OnErr result (self.new ≡ self.old) }
        ensures small { length self.new ≤ INBOX_BYTES }
        ensures counted { Counts (S.stream source.old) (S.stream source.new) result }
    {
        let held = self.end - self.start;
        move_to_front(&mut self.buf, self.start, self.end);
        self.start = 0;
        self.end = held;
        let count = read_at(source, &mut self.buf, held)?;
        self.end = held + count;
        Ok(count)
    }
}

fn move_to_front(buf: &mut Vec<u8>, start: usize, end: usize)
    requires ordered { start ≤ end }
    requires within { end ≤ vec_len buf.old }
    ensures front { take (end - start) buf.new.items ≡ slice_range buf.old.items start end }
    ensures len { vec_len buf.new ≡ vec_len buf.old }
{
    buf.copy_within(start..end, 0);
}

fn read_at<S: Source>(source: &mut S, buf: &mut Vec<u8>, at: usize) -> Result<usize, Failed>
    requires room { at < vec_len buf.old }
    requires countable { (S.stream source.old).calls < 2 ^ 64 - 1 }
    ensures ok { IfOk result (λ count. (at + count ≤ vec_len buf.new)
        × Consumes (S.stream source.old).bytes (S.stream source.new).bytes (take count (drop at buf.new.items))) }
    ensures end { IfOk result (λ count. count ≡ 0 → IsAtEnd (S.stream source.new).bytes) }
    ensures err { OnErr result (Keeps (S.stream source.old).bytes (S.stream source.new).bytes) }
    ensures front { take at buf.new.items ≡ take at buf.old.items }
    ensures len { vec_len buf.new ≡ vec_len buf.old }
    ensures counted { Counts (S.stream source.old) (S.stream source.new) result }
{
    source.take(&mut buf.as_mut_slice()[at..])
}

// Writes the bytes into the buffer, from a position on.
fn put_at(buf: &mut Vec<u8>, at: usize, bytes: &[u8])
    requires { at + length bytes.now ≤ vec_len buf.old }
    ensures front { take (at + length bytes.now) buf.new.items ≡ take at buf.old.items ++ bytes.now }
    ensures len { vec_len buf.new ≡ vec_len buf.old }
{
    let all = buf.as_mut_slice();
    let end = at + bytes.len();
    all[at..end].copy_from_slice(bytes);
}
