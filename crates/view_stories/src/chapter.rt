use crate::lines::Story;
use crate::overtaking::push_overtakings;
use crate::teller::Telling;
use due_key::Due;
use log_entries::{Entry, Queue};
use log_stretches::{Came, Course, Lane, Stretch};
use std::alloc::AllocError;

/// Adds the line of one of a request's stretches.
pub(crate) fn push_chapter(
    story: &mut Story,
    telling: &Telling,
    course: &Course,
    came: &Came,
    stretch: &Stretch,
) -> Result<(), AllocError> {
    match stretch.lane {
        Lane::Queue(queue) => {
            add_joining(story, telling, course, stretch, queue)?;
            push_overtakings(story, telling, course, came, stretch)?;
            add_stay_end(story, telling, course, came, stretch)
        }
        Lane::Server(server) => {
            add_service(story, telling, course, stretch, server)?;
            push_retries(story, telling, course, stretch)?;
            add_service_end(story, telling, course, stretch)
        }
    }
}

fn add_joining(
    story: &mut Story,
    telling: &Telling,
    course: &Course,
    stretch: &Stretch,
    queue: Queue,
) -> Result<(), AllocError> {
    let mut line = story.line();
    let moment = course.moment(stretch.from);
    write!(line, "{moment} ms: it waits in {}", telling.queue(queue))?;
    if stretch.to.is_none() {
        write!(line, ", and still does at the end")?;
    }
    story.add(line)
}

fn add_stay_end(
    story: &mut Story,
    telling: &Telling,
    course: &Course,
    came: &Came,
    stretch: &Stretch,
) -> Result<(), AllocError> {
    let Some(position) = stretch.to else {
        return Ok(());
    };
    let mut line = story.line();
    let moment = course.moment(position);
    write!(line, "{moment} ms: ")?;
    match telling.entries.get(position.saturating_sub(1)) {
        Some(Entry::Granted(_, _, server)) => {
            let lateness = due_in(came).lateness(moment);
            write!(line, "it gets a slot of {}", telling.names.of(*server))?;
            write_lateness(&mut line, lateness)?;
        }
        Some(Entry::Moved(_, server)) => {
            let name = telling.names.of(*server);
            let cause = emptying_cause(telling.entries, position);
            write!(line, "{name} is {cause}, so it moves to *")?;
        }
        Some(Entry::Left(_, cause)) => write!(line, "it is told that it isn't served: {cause}")?,
        _ => write!(line, "it waits there no more")?,
    }
    story.add(line)
}

// Returns why the queue of a server is moved: the moves of an event stand right after it.
fn emptying_cause(entries: &[Entry], position: usize) -> &'static str {
    let before = entries.get(..position).unwrap_or(&[]);
    let event = before
        .iter()
        .rev()
        .find(|entry| !matches!(entry, Entry::Moved(_, _)));
    match event {
        Some(Entry::Limit(_, _, _)) => "closed",
        _ => "down",
    }
}

fn due_in(came: &Came) -> Due {
    came.arrival.due
}

fn write_lateness(line: &mut String, lateness: i64) -> Result<(), AllocError> {
    if lateness > 0 {
        write!(line, ", {lateness} ms late")
    } else if lateness == 0 {
        write!(line, ", just in time")
    } else {
        let early = lateness.unsigned_abs();
        write!(line, ", {early} ms early")
    }
}

fn add_service(
    story: &mut Story,
    telling: &Telling,
    course: &Course,
    stretch: &Stretch,
    server: usize,
) -> Result<(), AllocError> {
    let Some(Entry::Direct(_, _)) = telling.entries.get(stretch.from.saturating_sub(1)) else {
        return Ok(());
    };
    let mut line = story.line();
    let moment = course.moment(stretch.from);
    write!(
        line,
        "{moment} ms: {} is free and serves it at once",
        telling.names.of(server)
    )?;
    story.add(line)
}

fn push_retries(
    story: &mut Story,
    telling: &Telling,
    course: &Course,
    stretch: &Stretch,
) -> Result<(), AllocError> {
    let end = stretch
        .to
        .unwrap_or(telling.entries.len().saturating_add(1));
    for (number, entry) in telling.entries.iter().enumerate() {
        if let Entry::Retried(ticket, server, failures) = *entry {
            let position = number.saturating_add(1);
            if ticket == stretch.ticket && stretch.from < position && position < end {
                let mut line = story.line();
                let moment = course.moment(position);
                write!(
                    line,
                    "{moment} ms: connection {failures} fails, and {} is tried again",
                    telling.names.of(server)
                )?;
                story.add(line)?;
            }
        }
    }
    Ok(())
}

fn add_service_end(
    story: &mut Story,
    telling: &Telling,
    course: &Course,
    stretch: &Stretch,
) -> Result<(), AllocError> {
    let mut line = story.line();
    let Lane::Server(server) = stretch.lane else {
        return Ok(());
    };
    let name = telling.names.of(server);
    match stretch.to {
        None => write!(line, "It is served by {name} at the end")?,
        Some(position) => {
            let moment = course.moment(position);
            write!(line, "{moment} ms: its slot of {name} is free again")?;
        }
    }
    story.add(line)
}
