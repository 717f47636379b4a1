ghost use Rattle.std.specs.Prelude.{◌≡◌, ◌<◌, ◌≤◌, ◌++◌, [], ◌∷◌, None, length, position, IfSome, IfNone, IfOk, OnOk, OnErr, IsTrue, ◌↔◌, ◌+◌, take, drop};
ghost use Rattle.run_control.specs.Inboxes.{is_line_feed, IsFirstLine};

use std::alloc::{AllocError, Global};
use std::marker::Model;

/// The most bytes of a line without its line feed.
pub const MOST_LINE: usize = 4096;

/// The bytes that a client sent and that weren't looked at yet.
#[derive(Debug, Drop)]
pub struct Inbox {
    alloc: Global,
    bytes: Vec<u8>,
}

impl Model for Inbox {
    ghost use Rattle.std.specs.Prelude.{ℕ, List};

    ghost Value = { List ℕ };

    ghost view = { λ inbox. inbox.bytes.items };
}

impl Inbox {
    pub fn new(alloc: Global) -> Inbox
        ensures { result ≡ [] }
    {
        Inbox {
            alloc,
            bytes: Vec::new(alloc),
        }
    }

    /// Appends bytes.
    pub fn add(&mut self, more: &[u8]) -> Result<(), AllocError>
        ensures ok { OnOk result (self.new ≡ self.old ++ more.now) }
        ensures err { OnErr result (self.new ≡ self.old) }
    {
        self.bytes.extend_from_slice(more)
    }

    /// Takes the first line, without its line feed. `None` where there is no whole line.
    pub fn take_line(&mut self) -> Result<Option<Vec<u8>>, AllocError>
        ensures line { IfOk result (λ found. IfSome found (λ line. IsFirstLine self.old line.items self.new)) }
        ensures none { IfOk result (λ found. IfNone found ((position is_line_feed self.old ≡ None) × (self.new ≡ self.old))) }
        ensures err { OnErr result (self.new ≡ self.old) }
    {
        let Some(end) = line_end(&self.bytes) else {
            return Ok(None);
        };
        let (line, rest) = parts_at(self.alloc, &self.bytes, end)?;
        self.bytes = rest;
        Ok(Some(line))
    }

    /// Says whether the line that begins here has more than [`MOST_LINE`] bytes.
    pub fn is_too_long(&self) -> bool
        ensures { IsTrue result ↔ (MOST_LINE < length self.now) }
    {
        MOST_LINE < self.bytes.len()
    }
}

fn line_end(bytes: &[u8]) -> Option<usize>
    ensures { result ≡ position is_line_feed bytes.now }
{
    bytes.iter().position(|byte| *byte == b'\n')
}

// Splits the bytes at a place: those before it, and those after it.
fn parts_at(alloc: Global, bytes: &[u8], end: usize) -> Result<(Vec<u8>, Vec<u8>), AllocError>
    requires { end < length bytes.now }
    ensures { IfOk result (λ parts. (parts.0.items ≡ take end bytes.now) × (parts.1.items ≡ drop (end + 1) bytes.now)) }
{
    let line = Vec::from_slice(alloc, &bytes[..end])?;
    let rest = Vec::from_slice(alloc, &bytes[end + 1..])?;
    Ok((line, rest))
}
