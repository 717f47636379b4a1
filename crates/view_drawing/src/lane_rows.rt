use crate::bar::{Bar, MOST_WITH_DUE_DATES};
use crate::sheet::lane_number;
use due_key::Moment;
use log_stretches::Course;
use std::alloc::{AllocError, Global};
use std::collections::BinaryHeap;

/// The rows of one lane. The heaps return their greatest item first, so they keep the distance of
/// each number from the greatest one.
#[derive(Drop)]
struct LaneRows {
    /// The rows in use, each with the position at which its bar ends.
    taken: BinaryHeap<(usize, usize)>,
    /// The rows that are free again.
    free: BinaryHeap<usize>,
    used: usize,
}

/// Gives each bar the topmost free row of its lane, and returns the number of rows of each lane.
/// The bars come in the order in which they begin. Where there are few bars, each keeps its row up
/// to its due date, which is drawn there.
pub(crate) fn lay_rows(
    alloc: Global,
    course: &Course,
    bars: &mut [Bar],
    lanes: usize,
) -> Result<Vec<usize>, AllocError> {
    let mut all = empty_lanes(alloc, lanes)?;
    let few = bars.len() <= MOST_WITH_DUE_DATES;
    for bar in bars.iter_mut() {
        let end = end_of(course, bar, few);
        if let Some(rows) = all.get_mut(lane_number(bar.stretch.lane)) {
            bar.row = rows.take(bar.stretch.from, end)?;
        }
    }
    counts_of(alloc, all.as_slice())
}

// Returns the number of rows of each lane.
fn counts_of(alloc: Global, all: &[LaneRows]) -> Result<Vec<usize>, AllocError> {
    let mut counts = Vec::with_capacity(alloc, all.len())?;
    for rows in all {
        counts.push(rows.used)?;
    }
    Ok(counts)
}

// Returns the position up to which a bar uses its row.
fn end_of(course: &Course, bar: &Bar, few: bool) -> usize {
    let end = bar.stretch.to.unwrap_or(usize::MAX);
    if !few {
        return end;
    }
    match bar.early_due(course) {
        Some(due) => end.max(position_after(course, due)),
        None => end,
    }
}

// Returns the position of the first entry after a moment, where moments never fall.
fn position_after(course: &Course, moment: Moment) -> usize {
    let before = course.moments().partition_point(|at| *at <= moment);
    before.saturating_add(1)
}

fn empty_lanes(alloc: Global, lanes: usize) -> Result<Vec<LaneRows>, AllocError> {
    let mut all = Vec::with_capacity(alloc, lanes)?;
    for _ in 0..lanes {
        all.push(LaneRows {
            taken: BinaryHeap::new(alloc),
            free: BinaryHeap::new(alloc),
            used: 0,
        })?;
    }
    Ok(all)
}

impl LaneRows {
    // Takes the topmost row that is free at a position, for a bar that ends at another.
    fn take(&mut self, from: usize, end: usize) -> Result<usize, AllocError> {
        self.release(from)?;
        let row = match self.free.pop() {
            Some(below) => usize::MAX - below,
            None => self.used,
        };
        self.used = self.used.max(row.saturating_add(1));
        self.taken.push((usize::MAX - end, row))?;
        Ok(row)
    }

    // Frees the rows whose bars end up to a position.
    fn release(&mut self, position: usize) -> Result<(), AllocError> {
        for _ in 0..self.taken.len() {
            let Some((below, row)) = self.taken.peek().copied() else {
                return Ok(());
            };
            if position < usize::MAX - below {
                return Ok(());
            }
            let _ = self.taken.pop();
            self.free.push(usize::MAX - row)?;
        }
        Ok(())
    }
}
