use crate::drawing::Scene;
use crate::sheet::Band;
use log_entries::{Entry, Intake};
use log_stretches::Lane;
use std::alloc::AllocError;

/// Why a server takes no requests for a time.
#[derive(Clone, Copy)]
enum Pause {
    Down(usize),
    Closed(usize),
}

impl Pause {
    // Returns the pause that an entry begins.
    fn begun_by(entry: &Entry) -> Option<Pause> {
        match *entry {
            Entry::Health(server, false) => Some(Pause::Down(server)),
            Entry::Limit(_, server, Intake::Closed) => Some(Pause::Closed(server)),
            _ => None,
        }
    }

    // Closing a closed server again begins another pause, so that no stretch is hatched twice.
    fn is_ended_by(&self, entry: &Entry) -> bool {
        match *self {
            Pause::Down(server) => *entry == Entry::Health(server, true),
            Pause::Closed(server) => match *entry {
                Entry::Limit(_, other, _) => other == server,
                _ => false,
            },
        }
    }

    fn lane(&self) -> Lane {
        match *self {
            Pause::Down(server) | Pause::Closed(server) => Lane::Server(server),
        }
    }

    fn style(&self) -> &'static str {
        match *self {
            Pause::Down(_) => "y",
            Pause::Closed(_) => "j",
        }
    }
}

/// Draws a hatched stretch over the lane of each server while it is down, and another while it is closed.
pub(crate) fn push_hatches(text: &mut String, scene: &Scene) -> Result<(), AllocError> {
    for (number, entry) in scene.subject.entries.iter().enumerate() {
        if let Some(pause) = Pause::begun_by(entry) {
            push_pause(text, scene, pause, number)?;
        }
    }
    Ok(())
}

fn push_pause(
    text: &mut String,
    scene: &Scene,
    pause: Pause,
    number: usize,
) -> Result<(), AllocError> {
    let Some(band) = scene.sheet.band(pause.lane()) else {
        return Ok(());
    };
    let until = end_of(scene.subject.entries, pause, number);
    let sheet = scene.sheet;
    let from = sheet.since(scene.course.moment(number.saturating_add(1)));
    let to = until.map_or(sheet.span, |number| {
        sheet.since(scene.course.moment(number.saturating_add(1)))
    });
    push_hatch(text, pause, &band, sheet.pixel(from), sheet.pixel(to))
}

// Returns the position of the later entry that ends the pause.
fn end_of(entries: &[Entry], pause: Pause, number: usize) -> Option<usize> {
    let next = number.saturating_add(1);
    let behind = entries.get(next..)?;
    let after = behind.iter().position(|entry| pause.is_ended_by(entry))?;
    Some(next.saturating_add(after))
}

fn push_hatch(
    text: &mut String,
    pause: Pause,
    band: &Band,
    left: u64,
    right: u64,
) -> Result<(), AllocError> {
    let style = pause.style();
    let width = right.saturating_sub(left).max(1);
    let top = band.top;
    let height = band.height;
    writeln!(
        text,
        "<rect class=\"{style}\" x=\"{left}\" y=\"{top}\" width=\"{width}\" height=\"{height}\"/>"
    )
}
