use due_key::{Due, Moment};
use log_entries::Queue;
use log_stretches::{Course, Lane};
use std::alloc::{AllocError, Global};

/// The least and the greatest distance of the plot from the left, in pixels.
pub(crate) const LEFT: u64 = 150;

pub(crate) const RIGHT: u64 = LEFT + PLOT;

/// The width of the plot in pixels.
pub(crate) const PLOT: u64 = 1200;

/// The width of the picture.
pub(crate) const WIDTH: u64 = RIGHT + 40;

/// The distance of the first lane from the top, and of lanes from each other.
const TOP: usize = 120;

const GAP: usize = 14;

/// The least height of bars with numbers in them.
const LEAST_FOR_LABELS: usize = 13;

/// The least height of bars with outlines.
const LEAST_FOR_LINES: usize = 5;

/// The height of a line of text.
pub(crate) const LINE: usize = 17;

/// The rows of a lane on the picture.
#[derive(Clone, Copy)]
pub(crate) struct Band {
    pub(crate) lane: Lane,
    pub(crate) top: usize,
    pub(crate) height: usize,
}

/// The layout of the picture: time from left to right, lanes from top to bottom.
#[derive(Drop)]
pub(crate) struct Sheet {
    /// The moment at the left end.
    pub(crate) first: u64,
    /// The number of milliseconds up to the right end.
    pub(crate) span: u64,
    /// The distance of rows from each other, and the height of a bar.
    pub(crate) pitch: usize,
    pub(crate) thick: usize,
    // The lanes' positions by number; `None` where a lane isn't drawn.
    bands: Vec<Option<Band>>,
    pub(crate) height: usize,
}

/// Returns the number of a lane, from the top: the backend's queue, then each server's own queue and its slots.
pub(crate) fn lane_number(lane: Lane) -> usize {
    match lane {
        Lane::Queue(Queue::Backend) => 0,
        Lane::Queue(Queue::Server(server)) => server.saturating_mul(2).saturating_add(1),
        Lane::Server(server) => server.saturating_mul(2).saturating_add(2),
    }
}

/// Returns the number of lanes for this number of servers.
pub(crate) fn lanes_of(servers: usize) -> usize {
    servers.saturating_mul(2).saturating_add(1)
}

fn lane_of(number: usize) -> Lane {
    if number == 0 {
        Lane::Queue(Queue::Backend)
    } else if number % 2 == 1 {
        Lane::Queue(Queue::Server(number / 2))
    } else {
        Lane::Server(number / 2 - 1)
    }
}

impl Sheet {
    /// Lays out lanes with these numbers of rows and of lines of text below.
    pub(crate) fn new(
        alloc: Global,
        course: &Course,
        rows: &[usize],
        lines: &[usize],
    ) -> Result<Sheet, AllocError> {
        let first = course.moment(1).get();
        let lasting = course
            .moment(course.entries().len())
            .get()
            .saturating_sub(first);
        let (pitch, thick) = sizes(rows);
        let mut bands = Vec::with_capacity(alloc, rows.len())?;
        let mut top = TOP;
        for (number, count) in rows.iter().enumerate() {
            let below = lines.get(number).copied().unwrap_or(0).saturating_mul(LINE);
            let band = band_of(lane_of(number), *count, top, pitch);
            if let Some(band) = band {
                top = top
                    .saturating_add(band.height)
                    .saturating_add(below)
                    .saturating_add(GAP);
            }
            bands.push(band)?;
        }
        Ok(Sheet {
            first,
            span: lasting.saturating_add((lasting / 40).max(1)),
            pitch,
            thick,
            bands,
            height: top.saturating_add(GAP),
        })
    }

    /// Returns the lanes, each with its position where it is drawn.
    pub(crate) fn bands(&self) -> &[Option<Band>] {
        self.bands.as_slice()
    }

    pub(crate) fn band(&self, lane: Lane) -> Option<Band> {
        self.bands.get(lane_number(lane)).copied().flatten()
    }

    /// Returns the distance of a row of a lane from the top.
    pub(crate) fn row(&self, lane: Lane, row: usize) -> usize {
        let top = self.band(lane).map_or(0, |band| band.top);
        top.saturating_add(row.saturating_mul(self.pitch))
    }

    /// Returns the milliseconds from the left end to a moment.
    pub(crate) fn since(&self, moment: Moment) -> u64 {
        moment.get().saturating_sub(self.first).min(self.span)
    }

    /// Returns the milliseconds from the left end to a due date, where that is on the picture.
    pub(crate) fn due(&self, due: Due) -> Option<u64> {
        let after = u64::try_from(self.after(due)).ok()?;
        if after <= self.span {
            Some(after)
        } else {
            None
        }
    }

    /// The same, with the nearer end for a date off the picture.
    pub(crate) fn due_within(&self, due: Due) -> u64 {
        match u64::try_from(self.after(due)) {
            Ok(after) => after.min(self.span),
            Err(_) => 0,
        }
    }

    // Returns the milliseconds from the left end, negative for an earlier date.
    fn after(&self, due: Due) -> i64 {
        due.get().saturating_sub_unsigned(self.first)
    }

    /// Returns the distance in pixels from the left of a time after the left end.
    pub(crate) fn pixel(&self, after: u64) -> u64 {
        let across = u128::from(after.min(self.span)) * u128::from(PLOT)
            / u128::from(self.span.max(1));
        LEFT.saturating_add(u64::try_from(across).unwrap_or(PLOT))
    }

    /// Says whether bars are so thin that outlines would hide them.
    pub(crate) fn is_dense(&self) -> bool {
        self.thick < LEAST_FOR_LINES
    }

    /// Says whether there is room for numbers in the bars.
    pub(crate) fn has_labels(&self) -> bool {
        LEAST_FOR_LABELS <= self.thick
    }
}

// A queue in which nobody waits isn't drawn, and a server that serves nobody has an empty row.
fn band_of(lane: Lane, rows: usize, top: usize, pitch: usize) -> Option<Band> {
    let rows = match lane {
        Lane::Queue(_) if rows == 0 => return None,
        Lane::Queue(_) => rows,
        Lane::Server(_) => rows.max(1),
    };
    Some(Band {
        lane,
        top,
        height: rows.saturating_mul(pitch).max(LINE),
    })
}

// Returns the distance of rows and the height of bars for these rows.
fn sizes(rows: &[usize]) -> (usize, usize) {
    let all = rows
        .iter()
        .fold(0, |all: usize, rows| all.saturating_add(*rows));
    match all {
        0..=30 => (20, 16),
        31..=60 => (16, 13),
        61..=150 => (9, 7),
        151..=400 => (5, 4),
        401..=1000 => (3, 2),
        _ => (1, 1),
    }
}
