use crate::drawing::Subject;
use crate::palette::Palette;
use due_key::{Class, Due, Moment};
use log_entries::{Entry, Queue};
use log_stretches::{Course, Lane, Stretch};
use std::alloc::{AllocError, Global};

/// A bar: a stretch of a request that is drawn.
#[derive(Clone, Copy)]
pub(crate) struct Bar {
    pub(crate) stretch: Stretch,
    /// The colour of its class, as its number in the palette.
    pub(crate) colour: usize,
    /// Its row in its lane, counted from the top.
    pub(crate) row: usize,
}

/// The most bars of a picture that shows due dates after bars that end earlier.
pub(crate) const MOST_WITH_DUE_DATES: usize = 400;

impl Bar {
    /// Returns the due date of a stay that ended before it, where the log goes on until then.
    pub(crate) fn early_due(&self, course: &Course) -> Option<Moment> {
        let Lane::Queue(_) = self.stretch.lane else {
            return None;
        };
        let due = Moment::new(u64::try_from(due_of(course, self.stretch.ticket)?.get()).ok()?)?;
        let last = course.moment(course.entries().len());
        if course.moment(self.stretch.to?) < due && due <= last {
            Some(due)
        } else {
            None
        }
    }
}

/// Returns the wanted stretches as bars without rows.
pub(crate) fn bars_of(
    alloc: Global,
    subject: &Subject,
    course: &Course,
    palette: &Palette,
) -> Result<Vec<Bar>, AllocError> {
    let mut bars = Vec::with_capacity(alloc, course.stretches().len())?;
    for stretch in course.stretches() {
        if is_asked_for(subject, course, stretch) {
            bars.push(bar_of(course, palette, *stretch))?;
        }
    }
    Ok(bars)
}

fn bar_of(course: &Course, palette: &Palette, stretch: Stretch) -> Bar {
    let colour = palette.colour(class_of(course, stretch.ticket));
    Bar {
        stretch,
        colour,
        row: 0,
    }
}

/// Returns the class of a ticket, where the log has its arrival.
pub(crate) fn class_of(course: &Course, ticket: u64) -> Option<Class> {
    Some(course.arrival(ticket)?.arrival.class)
}

/// Returns the due date of a ticket, where the log has its arrival.
pub(crate) fn due_of(course: &Course, ticket: u64) -> Option<Due> {
    Some(course.arrival(ticket)?.arrival.due)
}

// For one queue and class these are the stays of the class in the queue, and the services that follow from them.
fn is_asked_for(subject: &Subject, course: &Course, stretch: &Stretch) -> bool {
    let Some((queue, asked)) = subject.only else {
        return true;
    };
    class_of(course, stretch.ticket) == Some(asked)
        && queue_behind(subject.entries, stretch) == Some(queue)
}

/// Returns the queue of a stay, or the queue from which a service got its slot.
pub(crate) fn queue_behind(entries: &[Entry], stretch: &Stretch) -> Option<Queue> {
    match stretch.lane {
        Lane::Queue(queue) => Some(queue),
        Lane::Server(_) => match entries.get(stretch.from.saturating_sub(1)) {
            Some(Entry::Granted(_, queue, _)) => Some(*queue),
            _ => None,
        },
    }
}
