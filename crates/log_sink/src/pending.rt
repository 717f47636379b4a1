ghost use Rattle.std.specs.Prelude.{◌≡◌, ◌++◌, true, false, string_bytes};

use std::alloc::{AllocError, Global};
use std::mem;

/// The lines that wait to be written, and the orders to their writer.
#[derive(Drop)]
pub struct Pending {
    text: String,
    room: usize,
    /// The number of lines in the text, and of those that the writer has now.
    waiting: u64,
    at_writer: u64,
    /// The line that reports lost lines, where the text has one, and its position there.
    tally: Option<LostNotice>,
    lost: u64,
    fails: bool,
    reopens: bool,
    is_over: bool,
    is_through: bool,
}

/// A line that reports how many lines were lost: where it is lost itself, that many are lost again.
#[derive(Clone, Copy, Debug, PartialEq, Eq)]
pub struct LostNotice {
    /// Its position in the text, in bytes.
    pub at: usize,
    pub lost: u64,
}

/// What a writer does next.
#[derive(Clone, Copy, Debug, PartialEq, Eq)]
pub enum Next {
    /// It opens its file again.
    Reopens,
    /// It writes; the text may contain a notice of lost lines.
    Writes(Option<LostNotice>),
    /// It ends: no more lines come.
    Ends,
}

impl Pending {
    /// Makes an empty text with room for this number of bytes.
    pub fn with_room(alloc: Global, room: usize) -> Result<Pending, AllocError> {
        Ok(Pending {
            text: String::with_capacity(alloc, room)?,
            room,
            waiting: 0,
            at_writer: 0,
            tally: None,
            lost: 0,
            fails: false,
            reopens: false,
            is_over: false,
            is_through: false,
        })
    }

    /// Adds `count` whole lines, where there is room for all of them, and says whether there is.
    pub fn add(&mut self, lines: &str, count: u64) -> bool
        ensures added { result ≡ true → string_bytes self.new.text ≡ string_bytes self.old.text ++ lines.now }
        ensures refused { result ≡ false → string_bytes self.new.text ≡ string_bytes self.old.text }
    {
        if self.room.saturating_sub(self.text.len()) < lines.len() {
            return false;
        }
        let added = self.text.push_str(lines).is_ok();
        if added {
            self.waiting = self.waiting.saturating_add(count);
        }
        added
    }

    /// Adds the line that reports `lost` lost lines, where there is room for it and no such line
    /// waits. Says whether it was added.
    pub fn add_tally(&mut self, line: &str, lost: u64) -> bool
        ensures added { result ≡ true → string_bytes self.new.text ≡ string_bytes self.old.text ++ line.now }
        ensures refused { result ≡ false → string_bytes self.new.text ≡ string_bytes self.old.text }
    {
        if self.tally.is_some() {
            return false;
        }
        let at = self.text.len();
        let added = self.add(line, 1);
        if added {
            self.tally = Some(LostNotice { at, lost });
        }
        added
    }

    /// Says whether the writer has nothing to do.
    pub fn rests(&self) -> bool {
        self.text.is_empty() && !self.reopens && !self.is_over
    }

    /// Returns what the writer does next. The text that it is to write replaces what `text` holds.
    pub fn next(&mut self, text: &mut String) -> Next {
        if mem::replace(&mut self.reopens, false) {
            return Next::Reopens;
        }
        if self.text.is_empty() {
            return Next::Ends;
        }
        text.clear();
        mem::swap(&mut self.text, text);
        self.at_writer = mem::replace(&mut self.waiting, 0);
        Next::Writes(mem::replace(&mut self.tally, None))
    }

    /// Notes that the writer wrote its lines except for `lost` of them. Returns true where this is
    /// the first loss since a success.
    pub fn note_written(&mut self, lost: u64) -> bool {
        let begins_to_fail = lost != 0 && !self.fails;
        self.lost = self.lost.saturating_add(lost);
        self.fails = lost != 0;
        self.at_writer = 0;
        begins_to_fail
    }

    /// Says whether the last write lost lines.
    pub fn is_failing(&self) -> bool {
        self.fails
    }

    /// Returns how many lines were lost since the last call.
    pub fn take_lost(&mut self) -> u64 {
        mem::replace(&mut self.lost, 0)
    }

    /// Returns how many lines aren't written yet.
    pub fn unwritten(&self) -> u64 {
        let told = match self.tally {
            None => 0,
            Some(tally) => tally.lost.saturating_sub(1),
        };
        let held = self.waiting.saturating_add(self.at_writer);
        held.saturating_add(told).saturating_add(self.lost)
    }

    /// Orders the writer to open the file again.
    pub fn reopen(&mut self) {
        self.reopens = true;
    }

    /// Notes that no more lines come.
    pub fn end(&mut self) {
        self.is_over = true;
    }

    /// Notes that the writer has ended.
    pub fn note_through(&mut self) {
        self.is_through = true;
    }

    /// Says whether the writer still works.
    pub fn is_writing(&self) -> bool {
        !self.is_through
    }
}

/// Returns how many lines of a text were lost, of which `kept` bytes, whole lines, were written.
pub(crate) fn lost_of(lines: &str, kept: usize, tally: Option<LostNotice>) -> u64 {
    let rest = match lines.as_bytes().get(kept..) {
        Some(rest) => rest.iter().filter(|byte| **byte == b'\n').count() as u64,
        None => 0,
    };
    match tally {
        Some(tally) if kept <= tally.at => rest.saturating_add(tally.lost).saturating_sub(1),
        _ => rest,
    }
}
