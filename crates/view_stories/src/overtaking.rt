use crate::lines::Story;
use crate::teller::Telling;
use log_entries::{Arrival, Entry, Queue};
use log_stretches::{Came, Course, Lane, Stretch};
use std::alloc::AllocError;
use std::cmp::Ordering;

/// The most requests that are named for one stay.
const MOST_TOLD: usize = 8;

/// Adds the requests that were granted a slot while this one waited, and why; of many the first
/// ones, and the number of the others.
pub(crate) fn push_overtakings(
    story: &mut Story,
    telling: &Telling,
    course: &Course,
    came: &Came,
    stretch: &Stretch,
) -> Result<(), AllocError> {
    let end = stretch
        .to
        .unwrap_or(telling.entries.len().saturating_add(1));
    let mut ahead = 0usize;
    for (number, entry) in telling.entries.iter().enumerate() {
        let position = number.saturating_add(1);
        if stretch.from < position && position < end && takes_slot(entry, stretch) {
            if ahead < MOST_TOLD {
                add_overtaking(story, telling, course, came, position)?;
            }
            ahead = ahead.saturating_add(1);
        }
    }
    if MOST_TOLD < ahead {
        let more = ahead - MOST_TOLD;
        let mut line = story.line();
        write!(line, "  and {more} more go first")?;
        story.add(line)?;
    }
    Ok(())
}

// Says whether an entry grants a slot that a request in this queue waits for: any slot for the
// backend's queue, and the own server's for a server's queue.
fn takes_slot(entry: &Entry, stretch: &Stretch) -> bool {
    let Entry::Granted(ticket, queue, server) = *entry else {
        return false;
    };
    if ticket == stretch.ticket {
        return false;
    }
    match stretch.lane {
        Lane::Queue(Queue::Backend) => true,
        Lane::Queue(Queue::Server(own)) => server == own || queue == Queue::Server(own),
        Lane::Server(_) => false,
    }
}

fn add_overtaking(
    story: &mut Story,
    telling: &Telling,
    course: &Course,
    came: &Came,
    position: usize,
) -> Result<(), AllocError> {
    let Some(Entry::Granted(ticket, queue, server)) = telling
        .entries
        .get(position.saturating_sub(1))
    else {
        return Ok(());
    };
    let mut line = story.line();
    let moment = course.moment(position);
    let from = telling.queue(*queue);
    let to = telling.names.of(*server);
    write!(
        line,
        "  {moment} ms: ticket {ticket} goes first, from {from} to {to}"
    )?;
    if let Some(other) = course.arrival(*ticket) {
        write_reason(&mut line, &other.arrival, &came.arrival)?;
    }
    story.add(line)
}

// Writes why one request goes before another: the first difference of their keys.
fn write_reason(line: &mut String, first: &Arrival, second: &Arrival) -> Result<(), AllocError> {
    match first.key().cmp(&second.key()) {
        Ordering::Less => write_lesser(line, first, second),
        _ => {
            let ticket = second.ticket;
            write!(line, ": that slot could not go to ticket {ticket}")
        }
    }
}

fn write_lesser(line: &mut String, first: &Arrival, second: &Arrival) -> Result<(), AllocError> {
    let class = first.class;
    let due = first.due;
    if class < second.class {
        write!(line, ": its class is {class}")
    } else if due < second.due {
        write!(line, ": due earlier, at {due} ms")
    } else {
        write!(line, ": due at the same time, it came first")
    }
}
