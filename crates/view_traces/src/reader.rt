ghost use Rattle.std.specs.Prelude.{IfOk};
ghost use Rattle.view_traces.specs.Timed.{IsTimed};

use crate::decision::decision_of;
use crate::event::{event_of, moment_of, ticket};
use crate::fault::{LineError, TraceCause, TraceError};
use crate::fields::{end, one};
use crate::report::{ReportLine, report_of};
use crate::servers::Servers;
use crate::timed::Timed;
use crate::trace::Trace;
use proxy_words::{Lines, Words};
use std::alloc::Global;

/// The most bytes of a trace.
pub const MOST_BYTES: usize = 67_108_864;

/// The part of a trace that was read so far.
#[derive(Drop)]
struct Reader {
    alloc: Global,
    servers: Servers,
    entries: Timed,
    rolls: Vec<usize>,
    reports: Vec<ReportLine>,
    // The number of entries before the present window, and before the one that ended last.
    start: usize,
    ended: usize,
}

/// Reads the lines of a trace, where servers with these names are known already. Lines without
/// words and lines whose first byte is `#` are skipped. The first faulty line is named, with its
/// cause; a trace of more than [`MOST_BYTES`] bytes is faulty as a whole, as line 0. One pass over
/// the bytes, and over the names for each name.
pub fn read_trace(alloc: Global, names: Vec<String>, text: &[u8]) -> Result<Trace, TraceError>
    ensures { IfOk result (λ trace. IsTimed trace.entries.items) }
{
    if MOST_BYTES < text.len() {
        return Err(TraceError::at(0, TraceCause::Length));
    }
    let mut reader = Reader::new(alloc, names);
    let mut number = 0;
    let mut lines = Lines::new(text);
    'lines: while let Some(line) = lines.next() {
        number += 1;
        if let Err(error) = reader.take(line) {
            return Err(error.on(number));
        }
    }
    Ok(reader.into_trace())
}

impl Reader {
    fn new(alloc: Global, names: Vec<String>) -> Reader {
        Reader {
            alloc,
            servers: Servers::new(alloc, names),
            entries: Timed::new(alloc),
            rolls: Vec::new(alloc),
            reports: Vec::new(alloc),
            start: 0,
            ended: 0,
        }
    }

    fn into_trace(self) -> Trace
        ensures { IsTimed result.entries.items }
    {
        let Reader {
            alloc: _,
            servers,
            entries,
            rolls,
            reports,
            start: _,
            ended: _,
        } = self;
        Trace {
            names: servers.into_names(),
            entries: entries.into_entries(),
            rolls,
            reports,
        }
    }

    fn take(&mut self, line: &[u8]) -> Result<(), LineError> {
        let mut words = Words::new(line);
        let Some(first) = words.next() else {
            return Ok(());
        };
        if line[0] == b'#' {
            return Ok(());
        }
        match first {
            [b'0'..=b'9', ..] => self.take_event(first, words),
            _ => self.take_other(first, words),
        }
    }

    fn take_event(&mut self, first: &[u8], words: Words) -> Result<(), LineError> {
        let moment = moment_of(first)?;
        let entry = event_of(&mut self.servers, moment, words)?;
        self.entries.note_event(moment, entry)
    }

    fn take_other(&mut self, first: &[u8], words: Words) -> Result<(), LineError> {
        if first == b"refused".as_slice() {
            let _ = ticket(one(words)?)?;
            Ok(())
        } else if first == b"roll".as_slice() {
            end(words)?;
            self.roll()
        } else if first == b"queue".as_slice() {
            self.take_report(words)
        } else {
            let entry = decision_of(&mut self.servers, first, words)?;
            self.entries.note_decision(entry)
        }
    }

    // The reports on a window stand after the roll that ends it, or at the end.
    fn take_report(&mut self, words: Words) -> Result<(), LineError> {
        if self.entries.len() == 0 {
            return Err(LineError::Faulty(TraceCause::Place));
        }
        let before = if self.entries.len() == self.start {
            self.ended
        } else {
            self.start
        };
        let report = report_of(self.alloc, &mut self.servers, before, words)?;
        if self.reports.push(report).is_err() {
            return Err(LineError::NoMemory);
        }
        Ok(())
    }

    fn roll(&mut self) -> Result<(), LineError> {
        self.ended = self.start;
        self.start = self.entries.len();
        if self.rolls.push(self.start).is_err() {
            return Err(LineError::NoMemory);
        }
        Ok(())
    }
}
