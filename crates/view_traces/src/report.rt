use crate::event::{class_of, due_of, signed_number, small_number, ticket};
use crate::fault::{LineError, TraceCause};
use crate::fields::next;
use crate::servers::Servers;
use due_key::{Class, Due};
use log_entries::Queue;
use proxy_words::Words;
use std::alloc::Global;

/// The line of a report, on the requests of one class that were granted slots from one queue in a window.
#[derive(Debug, Drop)]
pub struct ReportLine {
    /// The number of entries before the window.
    pub before: usize,
    pub queue: Queue,
    pub class: Class,
    /// The number of requests that were granted slots.
    pub granted: usize,
    /// The greatest lateness in milliseconds.
    pub worst: i64,
    /// The due date of the request with that lateness.
    pub due: Due,
    /// The position of the cut in the window, from 1; 0 where there is none.
    pub after: usize,
    /// The position of the worst slot in the window.
    pub to: usize,
    /// The tickets of the critical set, in the order of their slots.
    pub critical: Vec<u64>,
}

/// Reads the report of a line, by the words after `queue`.
pub(crate) fn report_of(
    alloc: Global,
    servers: &mut Servers,
    before: usize,
    mut words: Words,
) -> Result<ReportLine, LineError> {
    let queue = servers.queue(next(&mut words)?)?;
    let class = class_of(behind(&mut words, b"class")?)?;
    let granted = position(&mut words, b"granted")?;
    let worst = signed_number(behind(&mut words, b"worst")?)?;
    let due = due_of(behind(&mut words, b"due")?)?;
    let after = position(&mut words, b"after")?;
    let to = position(&mut words, b"to")?;
    let critical = critical_of(alloc, words)?;
    Ok(ReportLine {
        before,
        queue,
        class,
        granted,
        worst,
        due,
        after,
        to,
        critical,
    })
}

// Reads `critical T1 T2 ..`, to the end of the line.
fn critical_of(alloc: Global, mut words: Words) -> Result<Vec<u64>, LineError> {
    if next(&mut words)? != b"critical".as_slice() {
        return Err(LineError::Faulty(TraceCause::Form));
    }
    let mut tickets = Vec::new(alloc);
    for word in words {
        if tickets.push(ticket(word)?).is_err() {
            return Err(LineError::NoMemory);
        }
    }
    Ok(tickets)
}

// Returns the word after this one, which must come next.
fn behind<'a>(words: &mut Words<'a>, name: &[u8]) -> Result<&'a [u8], LineError> {
    if next(words)? == name {
        next(words)
    } else {
        Err(LineError::Faulty(TraceCause::Form))
    }
}

// Reads the number after this word.
fn position(words: &mut Words, name: &[u8]) -> Result<usize, LineError> {
    let number = small_number(behind(words, name)?)?;
    Ok(number as usize)
}
