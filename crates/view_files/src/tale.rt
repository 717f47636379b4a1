//! `explain`: the story of one request of a script or a trace.

use crate::input::{InputFault, read_input};
use std::alloc::Global;
use std::io::{Read, Write};
use thiserror::Error;
use view_stories::{Telling, push_story};
use view_traces::Trace;

/// Why no story was written.
#[derive(Clone, Copy, Debug, PartialEq, Eq, Error)]
pub enum StoryFault {
    #[error("{0}")]
    Input(InputFault),
    #[error("no request has this ticket")]
    NoTicket,
}

/// Reads a script or a trace, and writes the story of a ticket.
pub fn write_story<R: Read, W: Write>(
    alloc: Global,
    reader: &mut R,
    writer: &mut W,
    ticket: u64,
) -> Result<(), StoryFault> {
    match read_input(alloc, reader) {
        Ok(trace) => tell_trace(alloc, &trace, writer, ticket),
        Err(fault) => Err(StoryFault::Input(fault)),
    }
}

fn tell_trace<W: Write>(
    alloc: Global,
    trace: &Trace,
    writer: &mut W,
    ticket: u64,
) -> Result<(), StoryFault> {
    let story = story_of(alloc, trace, ticket)?;
    match writer.write_all(story.as_bytes()) {
        Ok(()) => Ok(()),
        Err(_) => Err(StoryFault::Input(InputFault::Unwritten)),
    }
}

fn story_of(alloc: Global, trace: &Trace, ticket: u64) -> Result<String, StoryFault> {
    let telling = Telling {
        names: &trace.names,
        entries: trace.entries.as_slice(),
        reports: trace.reports.as_slice(),
    };
    let mut text = String::new(alloc);
    match push_story(alloc, &mut text, &telling, ticket) {
        Ok(true) => Ok(text),
        Ok(false) => Err(StoryFault::NoTicket),
        Err(_) => Err(StoryFault::Input(InputFault::NoMemory)),
    }
}
