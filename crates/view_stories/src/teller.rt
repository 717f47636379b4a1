ghost use Rattle.std.specs.Prelude.{◌≡◌, Ok, true, false, IfOk, is_some, string_bytes};
ghost use Rattle.log_stretches.specs.Courses.{came_in};
ghost use Rattle.view_stories.specs.Stories.{AddsStory};

use crate::chapter::push_chapter;
use crate::critical::push_critical;
use crate::lines::Story;
use due_key::Moment;
use log_entries::{Arrival, Entry, Queue};
use log_stretches::{Came, Course};
use log_texts::Names;
use std::alloc::{AllocError, Global};
use view_traces::ReportLine;

/// The subject of a story.
#[derive(Clone, Copy)]
pub struct Telling<'a> {
    /// The names of the servers.
    pub names: &'a Names,
    /// The entries of a log, all its windows one after the other.
    pub entries: &'a [Entry],
    pub reports: &'a [ReportLine],
}

/// Appends the story of a ticket, in at most [`crate::MOST_LINES`] lines. False where the log has
/// no such arrival, and then nothing is written. After an `Err` a part may stand there. `O(n log
/// n)` in the entries.
pub fn push_story(
    alloc: Global,
    text: &mut String,
    telling: &Telling,
    ticket: u64,
) -> Result<bool, AllocError>
    ensures told { IfOk result (λ told. told ≡ is_some (came_in telling.now.entries.now ticket)) }
    ensures untold { result ≡ Ok false → string_bytes text.new ≡ string_bytes text.old }
    ensures short { result ≡ Ok true → AddsStory (string_bytes text.old) (string_bytes text.new) }
{
    let course = Course::new(alloc, telling.entries)?;
    let Some(came) = course.arrival(ticket) else {
        return Ok(false);
    };
    let mut story = Story::new(alloc);
    add_arrival(&mut story, telling, &came)?;
    for stretch in course.stretches() {
        if stretch.ticket == ticket {
            push_chapter(&mut story, telling, &course, &came, stretch)?;
        }
    }
    push_critical(&mut story, telling, &course, ticket)?;
    story.push_to(text)?;
    Ok(true)
}

fn add_arrival(story: &mut Story, telling: &Telling, came: &Came) -> Result<(), AllocError> {
    let arrival = came.arrival;
    let moment = came.moment;
    let pin = arrival.pin();
    let mut line = story.line();
    write_arrival(&mut line, moment, arrival)?;
    if let Some(server) = pin {
        let name = telling.names.of(server);
        write!(line, ", bound to {name}")?;
    }
    story.add(line)
}

fn write_arrival(line: &mut String, moment: Moment, arrival: Arrival) -> Result<(), AllocError> {
    let ticket = arrival.ticket;
    let class = arrival.class;
    let due = arrival.due;
    write!(
        line,
        "Ticket {ticket} of class {class} comes at {moment} ms and is due at {due} ms"
    )
}

impl<'a> Telling<'a> {
    /// Returns the name of a queue: `*` is the backend's.
    pub(crate) fn queue(&self, queue: Queue) -> &str {
        match queue {
            Queue::Backend => "*",
            Queue::Server(server) => self.names.of(server),
        }
    }
}
