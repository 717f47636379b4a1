//! The reading of a whole file.

ghost use Rattle.std.specs.Prelude.{◌≡◌, ◌≤◌, length, count_by, IfOk, IfErr};
ghost use Rattle.proxy_words.specs.Text.{is_line_feed};
ghost use Rattle.proxy_config.specs.File as grammar;
ghost use Rattle.proxy_config.specs.Laws.{Says, Blames};
ghost use Rattle.proxy_config.specs.Sound.{IsSoundConfig};

use crate::faults::ReadError;
use crate::parts::Config;
use crate::progress::Progress;
use proxy_words::Lines;
use std::alloc::Global;

/// The most bytes of a file.
pub const MOST_BYTES: usize = 1_048_576;

/// Reads a configuration, in time linear in its bytes.
///
/// Each line is read once. A `use-server` line may name a server that stands later: until all lines
/// are read it is kept with the name, in at most 256 texts of 32 bytes. All other memory is for the
/// configuration itself.
pub fn read(alloc: Global, bytes: &[u8]) -> Result<Config, ReadError>
    // The meaning of each line decides the answer, except for want of memory.
    ensures exact { grammar.FileAnswers result (grammar.reading bytes.now) }
    // An accepted file has no faulty line.
    ensures says { IfOk result (Says bytes.now) }
    // An accepted configuration is within the limits, so callers need no test of their own.
    ensures sound { IfOk result IsSoundConfig }
    // A fault is that of the first faulty line, whatever follows it; only where there is none, something
    // is missing.
    ensures blames { IfErr result (Blames bytes.now) }
{
    read_lines(alloc, bytes)
}

fn read_lines(alloc: Global, bytes: &[u8]) -> Result<Config, ReadError>
    ensures { grammar.FileAnswers result (grammar.reading bytes.now) }
{
    let long = long_line(bytes);
    let mut progress = Progress::new(alloc);
    let mut number = 0;
    let mut lines = Lines::new(bytes);
    'lines: while let Some(line) = lines.next() {
        number += 1;
        progress.take(alloc, is_line(long, number), number, line)?;
        if let Some(fault) = progress.decided() {
            return Err(ReadError::Fault(fault));
        }
    }
    progress.finish(alloc)
}

// Returns the number of the line with the first byte past the limit.
fn long_line(bytes: &[u8]) -> Option<u64>
    ensures { result ≡ grammar.long_line bytes.now }
{
    if bytes.len() <= MOST_BYTES {
        return None;
    }
    let (front, _) = bytes.split_at(MOST_BYTES);
    Some(line_feeds(front) as u64 + 1)
}

fn line_feeds(bytes: &[u8]) -> usize
    ensures count { result ≡ count_by is_line_feed bytes.now }
    ensures within { result ≤ length bytes.now }
{
    bytes.iter().filter(|byte| **byte == b'\n').count()
}

fn is_line(line: Option<u64>, number: u64) -> bool
    ensures { result ≡ grammar.is_line line number }
{
    match line {
        None => false,
        Some(line) => line == number,
    }
}
