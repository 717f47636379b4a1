//! The queues and classes of which there can be a picture.

use crate::input::{InputFault, read_input};
use log_entries::Queue;
use log_stretches::{Course, Lane, Stretch};
use log_texts::Names;
use std::alloc::{AllocError, Global};
use std::collections::BTreeSet;
use std::io::Read;
use view_traces::Trace;

/// The most queues and classes that are named.
const MOST_NAMED: usize = 64;

/// Returns the names of the queues and classes of a script or a trace in which requests wait, each
/// in the form of `--of`; an empty text where there are none.
pub fn waits_in<R: Read>(alloc: Global, reader: &mut R) -> Result<String, InputFault> {
    let trace = read_input(alloc, reader)?;
    match waits_of(alloc, &trace) {
        Ok(text) => Ok(text),
        Err(_) => Err(InputFault::NoMemory),
    }
}

fn waits_of(alloc: Global, trace: &Trace) -> Result<String, AllocError> {
    let course = Course::new(alloc, trace.entries.as_slice())?;
    let mut waits = BTreeSet::new(alloc);
    for stretch in course.stretches() {
        if let Some(wait) = wait_of(&course, stretch) {
            waits.insert(wait)?;
        }
    }
    let mut text = String::new(alloc);
    for (at, (queue, class)) in waits.iter().take(MOST_NAMED).enumerate() {
        let between = if at == 0 { "" } else { ", " };
        let name = name_of(&trace.names, *queue);
        write!(text, "{between}{name} {class}")?;
    }
    if MOST_NAMED < waits.len() {
        text.push_str(", and others")?;
    }
    Ok(text)
}

/// Says whether a request of this class waits in this queue.
pub(crate) fn is_waited_in(
    alloc: Global,
    trace: &Trace,
    queue: Queue,
    class: i64,
) -> Result<bool, AllocError> {
    let course = Course::new(alloc, trace.entries.as_slice())?;
    let wanted = (number_of(queue), class);
    Ok(
        course
            .stretches()
            .iter()
            .any(|stretch| wait_of(&course, stretch) == Some(wanted)),
    )
}

// Returns the queue of a stay, by its number, and the request's class.
fn wait_of(course: &Course, stretch: &Stretch) -> Option<(usize, i64)> {
    let Lane::Queue(queue) = stretch.lane else {
        return None;
    };
    let came = course.arrival(stretch.ticket)?;
    Some((number_of(queue), came.arrival.class.get()))
}

// The backend's queue is the first one, and the servers' follow in their order.
fn number_of(queue: Queue) -> usize {
    match queue {
        Queue::Backend => 0,
        Queue::Server(server) => server.saturating_add(1),
    }
}

fn name_of(names: &Names, queue: usize) -> &str {
    match queue.checked_sub(1) {
        None => "*",
        Some(server) => names.of(server),
    }
}
