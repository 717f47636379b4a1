use crate::drawing::Scene;
use crate::escape::push_escaped;
use crate::sheet::{Band, LEFT, LINE, PLOT, RIGHT, Sheet};
use log_entries::Queue;
use log_stretches::Lane;
use std::alloc::AllocError;

/// The most lines of the grid, and the distance of the numbers from the top.
const MOST_LINES: u64 = 12;

const NUMBERS: usize = 106;

/// Draws the lanes with their names, the grid of moments, and the rolls.
pub(crate) fn push_axis(text: &mut String, scene: &Scene) -> Result<(), AllocError> {
    for band in scene.sheet.bands() {
        if let Some(band) = band {
            push_band(text, scene, band)?;
        }
    }
    push_grid(text, scene)?;
    let x = LEFT - 10;
    let y = NUMBERS - 5;
    writeln!(text, "<text class=\"r m\" x=\"{x}\" y=\"{y}\">ms</text>")?;
    push_rolls(text, scene)
}

fn push_rolls(text: &mut String, scene: &Scene) -> Result<(), AllocError> {
    for roll in scene.subject.rolls {
        push_roll(text, scene, *roll)?;
    }
    Ok(())
}

fn push_roll(text: &mut String, scene: &Scene, roll: usize) -> Result<(), AllocError> {
    let sheet = scene.sheet;
    let x = sheet.pixel(sheet.since(scene.course.moment(roll)));
    let height = sheet.height.saturating_sub(NUMBERS);
    writeln!(
        text,
        "<path class=\"o\" d=\"M{x} {NUMBERS}v{height}\"><title>the next window</title></path>"
    )
}

fn push_band(text: &mut String, scene: &Scene, band: &Band) -> Result<(), AllocError> {
    let top = band.top;
    let height = band.height;
    let kind = match band.lane {
        Lane::Queue(_) => "b",
        Lane::Server(_) => "a",
    };
    writeln!(
        text,
        "<rect class=\"{kind}\" x=\"{LEFT}\" y=\"{top}\" width=\"{PLOT}\" height=\"{height}\"/>"
    )?;
    let x = LEFT - 10;
    let y = top.saturating_add(LINE - 4);
    write!(text, "<text class=\"r\" x=\"{x}\" y=\"{y}\">")?;
    match band.lane {
        Lane::Queue(Queue::Backend) => text.push_str("queue *")?,
        Lane::Queue(Queue::Server(server)) => {
            text.push_str("queue of ")?;
            push_escaped(text, scene.subject.names.of(server))?;
        }
        Lane::Server(server) => {
            text.push_str("server ")?;
            push_escaped(text, scene.subject.names.of(server))?;
        }
    }
    text.push_str("</text>\n")
}

fn push_grid(text: &mut String, scene: &Scene) -> Result<(), AllocError> {
    let sheet = scene.sheet;
    let step = step_for(sheet.span);
    let over = sheet.first % step.max(1);
    let mut after = if over == 0 { 0 } else { step - over };
    for _ in 0..=MOST_LINES {
        if sheet.span < after {
            return Ok(());
        }
        push_grid_line(text, sheet, after)?;
        after = after.saturating_add(step);
    }
    Ok(())
}

// Draws the grid line at a time after the first moment, with its moment above it.
fn push_grid_line(text: &mut String, sheet: &Sheet, after: u64) -> Result<(), AllocError> {
    let x = sheet.pixel(after);
    let height = sheet.height.saturating_sub(NUMBERS);
    writeln!(text, "<path class=\"g\" d=\"M{x} {NUMBERS}v{height}\"/>")?;
    let y = NUMBERS - 5;
    let moment = sheet.first.saturating_add(after);
    writeln!(
        text,
        "<text class=\"i m\" x=\"{x}\" y=\"{y}\">{moment}</text>"
    )
}

// Returns the least of 1, 2, 5, 10, 20, .. milliseconds at which the grid has few enough lines.
fn step_for(span: u64) -> u64 {
    let mut step: u64 = 1;
    for turn in 0..60 {
        if span / step.max(1) <= MOST_LINES {
            return step;
        }
        step = if turn % 3 == 1 {
            (step / 2).saturating_mul(5).max(1)
        } else {
            step.saturating_mul(2).max(1)
        };
    }
    step
}
