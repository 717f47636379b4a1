//! `draw`: a script or a trace as a picture.

use crate::input::{InputFault, queue_of, read_input};
use crate::there::is_waited_in;
use config_command::DrawnQueue;
use due_key::Class;
use log_entries::Queue;
use std::alloc::Global;
use std::io::{Read, Write};
use thiserror::Error;
use view_drawing::{Subject, push_drawing};
use view_traces::Trace;

/// Why no picture was written.
#[derive(Clone, Copy, Debug, PartialEq, Eq, Error)]
pub enum DrawFault {
    #[error("{0}")]
    Input(InputFault),
    #[error("there is no such queue")]
    NoQueue,
    #[error("no request of this class waits in this queue")]
    NoClass,
}

/// Reads a script or a trace, and writes its picture: of everything, or of the requests of one
/// class that wait in the queue with this name.
pub fn draw<R: Read, W: Write>(
    alloc: Global,
    reader: &mut R,
    writer: &mut W,
    only: &Option<DrawnQueue>,
) -> Result<(), DrawFault> {
    let trace = match read_input(alloc, reader) {
        Ok(trace) => trace,
        Err(fault) => return Err(DrawFault::Input(fault)),
    };
    let only = match only {
        None => None,
        Some(only) => Some(subject_of(alloc, &trace, only)?),
    };
    write_picture(alloc, &trace, only, writer)
}

// Returns the queue and the class of these words, if a request of the class waits in the queue.
fn subject_of(
    alloc: Global,
    trace: &Trace,
    only: &DrawnQueue,
) -> Result<(Queue, Class), DrawFault> {
    let Some(queue) = queue_of(&trace.names, only.queue.as_str()) else {
        return Err(DrawFault::NoQueue);
    };
    match is_waited_in(alloc, trace, queue, only.class.get()) {
        Ok(true) => Ok((queue, only.class)),
        Ok(false) => Err(DrawFault::NoClass),
        Err(_) => Err(DrawFault::Input(InputFault::NoMemory)),
    }
}

fn write_picture<W: Write>(
    alloc: Global,
    trace: &Trace,
    only: Option<(Queue, Class)>,
    writer: &mut W,
) -> Result<(), DrawFault> {
    let subject = Subject {
        names: &trace.names,
        entries: trace.entries.as_slice(),
        rolls: trace.rolls.as_slice(),
        reports: trace.reports.as_slice(),
        only,
    };
    let mut text = String::new(alloc);
    if push_drawing(alloc, &mut text, &subject).is_err() {
        return Err(DrawFault::Input(InputFault::NoMemory));
    }
    match writer.write_all(text.as_bytes()) {
        Ok(()) => Ok(()),
        Err(_) => Err(DrawFault::Input(InputFault::Unwritten)),
    }
}
