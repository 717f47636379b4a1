use crate::pending::{Next, Pending, lost_of};
use crate::target::{Target, Way};
use std::alloc::{AllocError, Global};
use std::io;
use std::rt::Files;
use std::sync::{Condvar, CondvarTimeouts, Mutex, Wait};
use std::time::{Clock, Duration};

/// The most bytes that wait to be written.
const ROOM: usize = 1 << 20;

/// The longest wait for the last lines at the end, in milliseconds.
const PATIENCE: u64 = 2000;

/// The meeting point of the threads that add lines and the one that writes them. The writer has the
/// lock while it takes them, and never while it writes.
#[derive(Drop)]
pub struct Sink {
    pending: Mutex<Pending>,
    bell: Condvar,
    /// Signals that the writer has ended.
    through: Condvar,
    is_file: bool,
}

impl Sink {
    /// Makes an empty sink for this way. It allocates the memory for all lines that may wait.
    pub fn new(alloc: Global, way: &Way) -> Result<Sink, AllocError> {
        Ok(Sink {
            pending: Mutex::new(Pending::with_room(alloc, ROOM)?),
            bell: Condvar::new(),
            through: Condvar::new(),
            is_file: matches!(way, Way::File(_)),
        })
    }

    /// Adds `count` whole lines. False where there is no room for them.
    pub fn add<R: Wait>(&self, rt: &R, lines: &str, count: u64) -> bool {
        let added = self.pending.lock(rt).add(lines, count);
        self.bell.notify_all();
        added
    }

    /// Adds the line that reports lost lines. Where it is lost itself, they count as lost again.
    /// False where there is no room for it, or one waits.
    pub fn add_tally<R: Wait>(&self, rt: &R, line: &str, lost: u64) -> bool {
        let added = self.pending.lock(rt).add_tally(line, lost);
        self.bell.notify_all();
        added
    }

    /// Returns how many lines couldn't be written since the last call.
    pub fn take_lost<R: Wait>(&self, rt: &R) -> u64 {
        self.pending.lock(rt).take_lost()
    }

    /// Says whether the last write lost lines.
    pub fn is_failing<R: Wait>(&self, rt: &R) -> bool {
        self.pending.lock(rt).is_failing()
    }

    /// Has the file opened again by its name, before the waiting lines are written. False where the
    /// lines don't go to a file.
    pub fn reopen<R: Wait>(&self, rt: &R) -> bool {
        if !self.is_file {
            return false;
        }
        self.pending.lock(rt).reopen();
        self.bell.notify_all();
        true
    }

    /// Notes that no more lines come. Returns once all are written, or after two seconds: a reader
    /// that hangs holds nobody up. Returns how many lines weren't written and weren't reported as
    /// lost.
    pub fn end<R: Wait + Clock>(&self, rt: &R) -> u64 {
        let mut pending = self.pending.lock(rt);
        pending.end();
        self.bell.notify_all();
        let patience = Duration::from_millis(PATIENCE);
        let (pending, _) = self
            .through
            .wait_timeout_while(rt, pending, patience, |pending| pending.is_writing());
        pending.unwritten()
    }

    fn next<R: Wait>(&self, rt: &R, text: &mut String) -> Next {
        let mut pending = self
            .bell
            .wait_while(rt, self.pending.lock(rt), |pending| pending.rests());
        pending.next(text)
    }

    /// Allocates the buffer of a writer.
    pub fn room(alloc: Global) -> Result<String, AllocError> {
        String::with_capacity(alloc, ROOM)
    }

    /// Writes all lines, until no more come. The calling thread waits for a disk or a reader as
    /// long as these take.
    pub fn write_to<H: Files + Print + Eprint, R: Wait>(
        &self,
        host: &H,
        rt: &R,
        way: Way,
        room: String,
    ) {
        let mut text = room;
        let mut target = Target::open(host, way);
        self.write_all(host, rt, &mut target, &mut text);
    }

    fn write_all<H: Files + Print + Eprint, R: Wait>(
        &self,
        host: &H,
        rt: &R,
        target: &mut Target<H>,
        text: &mut String,
    ) {
        for _ in rt.forever() {
            match self.next(rt, text) {
                Next::Reopens => {
                    let reopened = target.reopen(host);
                    say_unopened(host, target.name(), reopened);
                }
                Next::Ends => break,
                Next::Writes(tally) => {
                    let kept = target.write(host, text.as_str());
                    let lost = lost_of(text.as_str(), kept, tally);
                    if self.pending.lock(rt).note_written(lost) {
                        say_failing(host, target.name());
                    }
                }
            }
        }
        self.pending.lock(rt).note_through();
        self.through.notify_all();
    }
}

// Reports that lines are being lost: once, until some are written again.
fn say_failing<H: Eprint>(host: &H, path: &str) {
    let name = if path.is_empty() { "the log" } else { path };
    let _ = eprintln!(host; "{name}: lines can't be written, and are counted");
}

// Reports a file that couldn't be opened again, with the system's message.
fn say_unopened<H: Eprint>(host: &H, path: &str, reopened: io::Result<()>) {
    if let Err(error) = reopened {
        let _ = eprintln!(host;
            "{path}: not opened anew: {error}\n  Lines go on into the file that was open."
        );
    }
}
