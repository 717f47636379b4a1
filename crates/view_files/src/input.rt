//! The input of `draw` and `explain`: a script, which is replayed first, or a trace.

ghost use Rattle.std.specs.Prelude.{◌≡◌};
ghost use Rattle.view_files.specs.Statuses.{status_of};

use binom_queue::BinomQueue;
use dispatch_core::Core;
use due_key::Key;
use log_entries::Queue;
use log_texts::{Names, ScriptError};
use replay::{Fault, Replayed, replay, replay_events, reports_of};
use std::alloc::Global;
use std::io::Read;
use thiserror::Error;
use view_traces::{
    MOST_BYTES, Trace, TraceCause, TraceError, has_roll, is_trace, read_trace, trace_of_window,
};

/// The number of bytes of one read.
const PIECE: usize = 65_536;

/// Why there is nothing to show.
#[derive(Clone, Copy, Debug, PartialEq, Eq, Error)]
pub enum InputFault {
    #[error("no memory")]
    NoMemory,
    #[error("read fault")]
    Unread,
    #[error("write fault")]
    Unwritten,
    #[error("script line {line}")]
    Script { line: usize },
    #[error("trace line {line}: {cause}")]
    Trace { line: usize, cause: TraceCause },
}

impl InputFault {
    /// Returns the exit status of a program without anything to show: 1 where memory is refused, or
    /// a read or a write failed; 5 where the script or the trace is faulty.
    pub fn status(self) -> u8
        ensures { result ≡ status_of self }
    {
        match self {
            InputFault::NoMemory | InputFault::Unread | InputFault::Unwritten => 1,
            InputFault::Script { .. } | InputFault::Trace { .. } => 5,
        }
    }
}

/// Reads a script or a trace to its end, and returns the contents of the trace.
pub(crate) fn read_input<R: Read>(alloc: Global, reader: &mut R) -> Result<Trace, InputFault> {
    let bytes = read_bytes(alloc, reader)?;
    told_by(alloc, &bytes)
}

fn told_by(alloc: Global, bytes: &[u8]) -> Result<Trace, InputFault> {
    if is_trace(bytes) {
        read_lines(alloc, Vec::new(alloc), bytes)
    } else if has_roll(bytes) {
        windows_of(alloc, bytes)
    } else {
        window_of(alloc, bytes)
    }
}

// Returns the contents of a script's trace, with all its windows.
fn windows_of(alloc: Global, script: &[u8]) -> Result<Trace, InputFault> {
    let trace = replayed(alloc, script)?;
    read_named(alloc, script, &trace)
}

// Reads a trace whose servers have the names of the script.
fn read_named(alloc: Global, script: &[u8], trace: &[u8]) -> Result<Trace, InputFault> {
    let names = names_in(alloc, script)?;
    read_lines(alloc, names, trace)
}

// Returns the contents of a script with one window, from its dispatcher.
fn window_of(alloc: Global, script: &[u8]) -> Result<Trace, InputFault> {
    match replay_events(alloc, script) {
        Ok(Replayed { core, names, .. }) => told_of(alloc, &core, names),
        Err(fault) => Err(fault_of(fault)),
    }
}

fn told_of(
    alloc: Global,
    core: &Core<BinomQueue<Key, usize>>,
    names: Names,
) -> Result<Trace, InputFault> {
    let Ok(reports) = reports_of(alloc, core) else {
        return Err(InputFault::NoMemory);
    };
    match trace_of_window(alloc, names, core.log().entries(), reports.as_slice()) {
        Ok(trace) => Ok(trace),
        Err(_) => Err(InputFault::NoMemory),
    }
}

// Reads all bytes. One byte more than a trace may have is enough to tell that there are too many.
fn read_bytes<R: Read>(alloc: Global, reader: &mut R) -> Result<Vec<u8>, InputFault> {
    let mut all = Vec::new(alloc);
    let mut piece = [0u8; PIECE];
    for _ in 0..u64::MAX {
        let Ok(count) = reader.read(&mut piece) else {
            return Err(InputFault::Unread);
        };
        if count == 0 || MOST_BYTES < all.len() {
            return Ok(all);
        }
        if all.extend_from_slice(&piece[..count]).is_err() {
            return Err(InputFault::NoMemory);
        }
    }
    Ok(all)
}

fn read_lines(alloc: Global, names: Vec<String>, bytes: &[u8]) -> Result<Trace, InputFault> {
    match read_trace(alloc, names, bytes) {
        Ok(trace) => Ok(trace),
        Err(TraceError::NoMemory) => Err(InputFault::NoMemory),
        Err(TraceError::Fault { line, cause }) => Err(InputFault::Trace { line, cause }),
    }
}

// Returns the names of the servers that the header lines of a script declare.
fn names_in(alloc: Global, bytes: &[u8]) -> Result<Vec<String>, InputFault> {
    let header = match log_texts::read(alloc, bytes) {
        Ok((header, _)) => header,
        Err(ScriptError::NoMemory) => return Err(InputFault::NoMemory),
        Err(ScriptError::Fault { line }) => return Err(InputFault::Script { line }),
    };
    let (names, _) = header.into_servers();
    match texts_of(alloc, &names) {
        Some(texts) => Ok(texts),
        None => Err(InputFault::NoMemory),
    }
}

fn texts_of(alloc: Global, names: &Names) -> Option<Vec<String>> {
    let mut texts = Vec::new(alloc);
    for server in 0..names.len() {
        texts
            .push(String::from_str(alloc, names.of(server)).ok()?)
            .ok()?;
    }
    Some(texts)
}

// Returns the trace of a script.
fn replayed(alloc: Global, bytes: &[u8]) -> Result<Vec<u8>, InputFault> {
    let mut rest = bytes;
    let mut trace = Vec::new(alloc);
    match replay(alloc, &mut rest, &mut trace) {
        Ok(()) => Ok(trace),
        Err(fault) => Err(fault_of(fault)),
    }
}

fn fault_of(fault: Fault) -> InputFault {
    match fault {
        Fault::Script { line } => InputFault::Script { line },
        // A reader over bytes in memory never fails, and a writer into memory fails only for want of memory.
        Fault::NoMemory | Fault::Read | Fault::Write => InputFault::NoMemory,
    }
}

/// Returns the queue with this name, if the trace knows it: `*` is the backend's.
pub(crate) fn queue_of(names: &Names, name: &str) -> Option<Queue> {
    if name == "*" {
        return Some(Queue::Backend);
    }
    (0..names.len())
        .find(|server| names.of(*server) == name)
        .map(Queue::Server)
}
