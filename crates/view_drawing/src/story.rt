use crate::bar::{Bar, class_of, due_of};
use crate::drawing::Scene;
use crate::escape::push_escaped;
use due_key::{Class, Moment};
use log_entries::{Arrival, Entry, Queue};
use log_stretches::{Came, Lane};
use log_texts::Names;
use std::alloc::AllocError;
use view_traces::ReportLine;

/// Draws the bars, each with its story as its title.
pub(crate) fn push_bars(text: &mut String, scene: &Scene) -> Result<(), AllocError> {
    for bar in scene.bars {
        push_bar(text, scene, bar)?;
        push_late_part(text, scene, bar)?;
    }
    Ok(())
}

fn push_bar(text: &mut String, scene: &Scene, bar: &Bar) -> Result<(), AllocError> {
    let (from, to) = scene.times(bar);
    let y = scene.sheet.row(bar.stretch.lane, bar.row);
    let lasts = to.saturating_sub(from);
    let colour = bar.colour;
    let kind = match bar.stretch.lane {
        Lane::Queue(_) if scene.is_critical(bar) => "w c",
        Lane::Queue(_) => "w",
        Lane::Server(_) => "s",
    };
    let thick = scene.sheet.thick;
    write!(
        text,
        "<path class=\"k{colour} {kind}\" d=\"M{from} {y}h{lasts}v{thick}h-{lasts}z\"><title>"
    )?;
    push_story(text, scene, bar)?;
    text.push_str("</title></path>\n")
}

// The part of a stay after its due date is highlighted.
fn push_late_part(text: &mut String, scene: &Scene, bar: &Bar) -> Result<(), AllocError> {
    let Lane::Queue(_) = bar.stretch.lane else {
        return Ok(());
    };
    let Some(due) = due_of(scene.course, bar.stretch.ticket) else {
        return Ok(());
    };
    let (from, to) = scene.times(bar);
    let late = scene.sheet.due_within(due).max(from);
    if to <= late {
        return Ok(());
    }
    let lasts = to - late;
    let y = scene.sheet.row(bar.stretch.lane, bar.row);
    let colour = bar.colour;
    let thick = scene.sheet.thick;
    writeln!(
        text,
        "<path class=\"k{colour} l\" d=\"M{late} {y}h{lasts}v{thick}h-{lasts}z\"/>"
    )
}

fn push_story(text: &mut String, scene: &Scene, bar: &Bar) -> Result<(), AllocError> {
    let ticket = bar.stretch.ticket;
    write!(text, "ticket {ticket}")?;
    if let Some(came) = scene.course.arrival(ticket) {
        push_arrival(text, scene.subject.names, came)?;
    }
    push_stretch(text, scene, bar)?;
    push_end(text, scene, bar)
}

fn push_arrival(text: &mut String, names: &Names, came: Came) -> Result<(), AllocError> {
    let moment = came.moment;
    let arrival = came.arrival;
    let pin = arrival.pin();
    push_came(text, moment, arrival)?;
    push_pin(text, names, pin)
}

fn push_pin(text: &mut String, names: &Names, pin: Option<usize>) -> Result<(), AllocError> {
    match pin {
        None => Ok(()),
        Some(server) => {
            text.push_str(", bound to ")?;
            push_escaped(text, names.of(server))
        }
    }
}

fn push_came(text: &mut String, moment: Moment, arrival: Arrival) -> Result<(), AllocError> {
    let class = arrival.class;
    let due = arrival.due;
    write!(
        text,
        ", class {class}: came at {moment} ms, due at {due} ms"
    )
}

fn push_stretch(text: &mut String, scene: &Scene, bar: &Bar) -> Result<(), AllocError> {
    match bar.stretch.lane {
        Lane::Queue(queue) => {
            text.push_str("\nwaited in ")?;
            push_queue(text, scene.subject.names, queue)?;
        }
        Lane::Server(server) => {
            text.push_str("\nserved by ")?;
            push_escaped(text, scene.subject.names.of(server))?;
        }
    }
    let from = scene.course.moment(bar.stretch.from);
    write!(text, " from {from} ms")?;
    if let Some(position) = bar.stretch.to {
        let to = scene.course.moment(position);
        write!(text, " to {to} ms")?;
    }
    Ok(())
}

fn push_end(text: &mut String, scene: &Scene, bar: &Bar) -> Result<(), AllocError> {
    let names = scene.subject.names;
    match scene.ending(bar) {
        None => text.push_str(", and still at the end"),
        Some(Entry::Granted(_, _, server)) => {
            text.push_str(", then a slot of ")?;
            push_escaped(text, names.of(server))?;
            push_lateness(text, scene, bar)
        }
        Some(Entry::Moved(_, _)) => text.push_str(", then moved to *"),
        Some(Entry::Left(_, cause)) => write!(text, ", then told {cause}"),
        Some(_) => Ok(()),
    }
}

fn push_lateness(text: &mut String, scene: &Scene, bar: &Bar) -> Result<(), AllocError> {
    let Some(due) = due_of(scene.course, bar.stretch.ticket) else {
        return Ok(());
    };
    let Some(position) = bar.stretch.to else {
        return Ok(());
    };
    let lateness = due.lateness(scene.course.moment(position));
    if lateness > 0 {
        write!(text, "\n{lateness} ms late")?;
    } else {
        write!(text, "\nin time, lateness {lateness} ms")?;
    }
    if scene.is_critical(bar) {
        text.push_str(", in a critical set")?;
    }
    Ok(())
}

/// Writes the name of a queue: `*` is the backend's.
pub(crate) fn push_queue(text: &mut String, names: &Names, queue: Queue) -> Result<(), AllocError> {
    match queue {
        Queue::Backend => text.push_str("*"),
        Queue::Server(server) => push_escaped(text, names.of(server)),
    }
}

impl<'a> Scene<'a> {
    /// Returns the milliseconds from the left end at which a bar begins and ends.
    pub(crate) fn times(&self, bar: &Bar) -> (u64, u64) {
        let from = self.sheet.since(self.course.moment(bar.stretch.from));
        let to = match bar.stretch.to {
            Some(position) => self.sheet.since(self.course.moment(position)),
            None => self.sheet.span,
        };
        (from, to)
    }

    /// Returns the entry that ends a bar.
    pub(crate) fn ending(&self, bar: &Bar) -> Option<Entry> {
        let position = bar.stretch.to?;
        self.subject
            .entries
            .get(position.saturating_sub(1))
            .copied()
    }

    /// Says whether a bar is a stay of a critical set.
    pub(crate) fn is_critical(&self, bar: &Bar) -> bool {
        let class = class_of(self.course, bar.stretch.ticket);
        self.subject
            .reports
            .iter()
            .any(|report| stands_in(report, bar, class))
    }
}

// Says whether a bar is a stay of a report's critical set: of its queue and class, with a slot
// after the cut up to the worst one's.
fn stands_in(report: &ReportLine, bar: &Bar, class: Option<Class>) -> bool {
    let (Lane::Queue(queue), Some(slot)) = (bar.stretch.lane, bar.stretch.to) else {
        return false;
    };
    queue == report.queue
        && class == Some(report.class)
        && report.before.saturating_add(report.after) < slot
        && slot <= report.before.saturating_add(report.to)
        && report.critical.contains(&bar.stretch.ticket)
}
