use crate::bar::{Bar, MOST_WITH_DUE_DATES, due_of};
use crate::drawing::Scene;
use crate::palette::is_dark;
use log_entries::Entry;
use log_stretches::Lane;
use std::alloc::AllocError;

/// The width of a label's digit in pixels, and the margin at both ends of a bar.
const DIGIT: u64 = 7;

const ROOM: u64 = 6;

/// Draws the due dates of stays as ticks on their rows, and a mark at the end of each stay that was
/// told why it isn't served.
pub(crate) fn push_marks(text: &mut String, scene: &Scene) -> Result<(), AllocError> {
    let few = scene.bars.len() <= MOST_WITH_DUE_DATES;
    for bar in scene.bars {
        push_due(text, scene, bar)?;
        if few {
            push_early_due(text, scene, bar)?;
        }
        if let Some(Entry::Left(_, _)) = scene.ending(bar) {
            let (_, to) = scene.times(bar);
            push_tick(text, scene, bar, "x", to)?;
        }
    }
    Ok(())
}

fn push_tick(
    text: &mut String,
    scene: &Scene,
    bar: &Bar,
    kind: &str,
    at: u64,
) -> Result<(), AllocError> {
    let y = scene.sheet.row(bar.stretch.lane, bar.row);
    let thick = scene.sheet.thick;
    writeln!(text, "<path class=\"{kind}\" d=\"M{at} {y}v{thick}\"/>")
}

// Draws the due date of a stay that lasts until then.
fn push_due(text: &mut String, scene: &Scene, bar: &Bar) -> Result<(), AllocError> {
    let Lane::Queue(_) = bar.stretch.lane else {
        return Ok(());
    };
    let Some(date) = due_of(scene.course, bar.stretch.ticket) else {
        return Ok(());
    };
    let (from, to) = scene.times(bar);
    match scene.sheet.due(date) {
        Some(due) if from <= due && due <= to => push_tick(text, scene, bar, "d", due),
        _ => Ok(()),
    }
}

// Draws a due date after the end of its stay, and a line up to it.
fn push_early_due(text: &mut String, scene: &Scene, bar: &Bar) -> Result<(), AllocError> {
    let Some(due) = bar.early_due(scene.course) else {
        return Ok(());
    };
    let due = scene.sheet.since(due);
    let (_, to) = scene.times(bar);
    let lasts = due.saturating_sub(to);
    let middle = scene
        .sheet
        .row(bar.stretch.lane, bar.row)
        .saturating_add(scene.sheet.thick / 2);
    let colour = bar.colour;
    writeln!(
        text,
        "<path class=\"k{colour} e\" d=\"M{to} {middle}h{lasts}\"/>"
    )?;
    push_tick(text, scene, bar, "d", due)
}

/// Writes the tickets into the bars that have room for them.
pub(crate) fn push_labels(text: &mut String, scene: &Scene) -> Result<(), AllocError> {
    if !scene.sheet.has_labels() {
        return Ok(());
    }
    for bar in scene.bars {
        push_label(text, scene, bar)?;
    }
    Ok(())
}

fn push_label(text: &mut String, scene: &Scene, bar: &Bar) -> Result<(), AllocError> {
    let (from, to) = scene.times(bar);
    let left = scene.sheet.pixel(from);
    let right = scene.sheet.pixel(to);
    let ticket = bar.stretch.ticket;
    let needed = digits(ticket).saturating_mul(DIGIT).saturating_add(ROOM);
    if right.saturating_sub(left) < needed {
        return Ok(());
    }
    let class = match bar.stretch.lane {
        Lane::Server(_) if is_dark(bar.colour) => "n v",
        _ => "n",
    };
    let x = left.saturating_add(4);
    let y = scene
        .sheet
        .row(bar.stretch.lane, bar.row)
        .saturating_add(scene.sheet.thick.saturating_sub(4));
    writeln!(
        text,
        "<text class=\"{class}\" x=\"{x}\" y=\"{y}\">{ticket}</text>"
    )
}

fn digits(number: u64) -> u64 {
    number
        .checked_ilog10()
        .map_or(1, |tens| u64::from(tens).saturating_add(1))
}
