use crate::drawing::{Scene, Subject};
use crate::sheet::{Band, LEFT, LINE, lane_number, lanes_of};
use log_stretches::Lane;
use std::alloc::{AllocError, Global};
use view_traces::ReportLine;

/// The most reports of a queue with captions, and the most tickets in one.
const MOST_CAPTIONS: usize = 6;

const MOST_TICKETS: usize = 16;

/// Returns the number of lines of text below each lane.
pub(crate) fn lines_below(alloc: Global, subject: &Subject) -> Result<Vec<usize>, AllocError> {
    let lanes = lanes_of(subject.names.len());
    let mut lines: Vec<usize> = Vec::new(alloc);
    lines.resize(lanes, 0)?;
    for report in subject.reports {
        if is_captioned(subject, report) {
            if let Some(count) = lines.get_mut(lane_number(Lane::Queue(report.queue))) {
                *count = count.saturating_add(1).min(MOST_CAPTIONS + 1);
            }
        }
    }
    Ok(lines)
}

fn is_captioned(subject: &Subject, report: &ReportLine) -> bool {
    match subject.only {
        None => true,
        Some((queue, class)) => queue == report.queue && class == report.class,
    }
}

/// Draws below each queue a line for each of its reports, and marks the cut and the worst slot.
pub(crate) fn push_captions(text: &mut String, scene: &Scene) -> Result<(), AllocError> {
    for band in scene.sheet.bands() {
        if let Some(band) = band {
            push_lane(text, scene, band)?;
        }
    }
    Ok(())
}

fn push_lane(text: &mut String, scene: &Scene, band: &Band) -> Result<(), AllocError> {
    let mut written = 0usize;
    for report in scene.subject.reports {
        if Lane::Queue(report.queue) == band.lane && is_captioned(scene.subject, report) {
            if written < MOST_CAPTIONS {
                push_cut(text, scene, band, report)?;
                push_caption(text, scene, band, written, report)?;
            }
            written = written.saturating_add(1);
        }
    }
    if MOST_CAPTIONS < written {
        let more = written - MOST_CAPTIONS;
        push_band_lane(text, band, MOST_CAPTIONS)?;
        writeln!(text, "and {more} more</text>")?;
    }
    Ok(())
}

// Writes the beginning of a line of text below a lane.
fn push_band_lane(text: &mut String, band: &Band, line: usize) -> Result<(), AllocError> {
    let below = line
        .saturating_add(1)
        .saturating_mul(LINE)
        .saturating_sub(3);
    let y = band.top.saturating_add(band.height).saturating_add(below);
    write!(text, "<text class=\"m\" x=\"{LEFT}\" y=\"{y}\">")
}

fn push_caption(
    text: &mut String,
    scene: &Scene,
    band: &Band,
    line: usize,
    report: &ReportLine,
) -> Result<(), AllocError> {
    push_band_lane(text, band, line)?;
    if !scene.subject.rolls.is_empty() {
        let window = window_of(scene.subject.rolls, report.before);
        write!(text, "window {window}, ")?;
    }
    let class = report.class;
    write!(text, "class {class}: worst ")?;
    push_lateness(text, report.worst)?;
    text.push_str(": ")?;
    push_tickets(text, report.critical.as_slice())?;
    push_needed(text, report)?;
    if report.after != 0 {
        let after = report.after;
        let moment = scene.course.moment(report.before.saturating_add(after));
        write!(text, " after {after} (at {moment} ms)")?;
    }
    text.push_str("</text>\n")
}

fn push_lateness(text: &mut String, lateness: i64) -> Result<(), AllocError> {
    let apart = lateness.unsigned_abs();
    if lateness < 0 {
        write!(text, "{apart} ms early")
    } else {
        write!(text, "{apart} ms late")
    }
}

fn push_tickets(text: &mut String, tickets: &[u64]) -> Result<(), AllocError> {
    for (number, ticket) in tickets.iter().enumerate() {
        if number == MOST_TICKETS {
            let more = tickets.len() - MOST_TICKETS;
            return write!(text, " and {more} more");
        }
        if number != 0 {
            text.push_str(", ")?;
        }
        write!(text, "{ticket}")?;
    }
    Ok(())
}

fn push_needed(text: &mut String, report: &ReportLine) -> Result<(), AllocError> {
    let few = [
        "no", "one", "two", "three", "four", "five", "six", "seven", "eight", "nine", "ten",
    ];
    let count = report.critical.len();
    match few.get(count) {
        Some(word) => write!(text, " needed {word} slot")?,
        None => write!(text, " needed {count} slot")?,
    }
    if count == 1 {
        Ok(())
    } else {
        text.push_str("s")
    }
}

// Returns the number of the window with this number of entries before it, from 1.
fn window_of(rolls: &[usize], before: usize) -> usize {
    if before == 0 {
        return 1;
    }
    rolls
        .iter()
        .position(|roll| *roll == before)
        .map_or(1, |roll| roll.saturating_add(2))
}

// Draws the cut as a dashed line, and the worst slot as an arrow that points at it.
fn push_cut(
    text: &mut String,
    scene: &Scene,
    band: &Band,
    report: &ReportLine,
) -> Result<(), AllocError> {
    let sheet = scene.sheet;
    let top = band.top;
    let height = band.height;
    let above = top.saturating_sub(8);
    if report.after != 0 {
        let cut = scene
            .course
            .moment(report.before.saturating_add(report.after));
        let x = sheet.pixel(sheet.since(cut));
        let long = height.saturating_add(8);
        writeln!(text, "<path class=\"u\" d=\"M{x} {above}v{long}\"/>")?;
    }
    let worst = scene.course.moment(report.before.saturating_add(report.to));
    let x = sheet.pixel(sheet.since(worst));
    let left = x.saturating_sub(5);
    writeln!(text, "<path class=\"t\" d=\"M{left} {above}h10l-5 8z\"/>")
}
