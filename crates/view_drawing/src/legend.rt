use crate::drawing::Scene;
use crate::palette::{COLOURS, Palette};
use crate::sheet::LEFT;
use crate::story::push_queue;
use log_entries::Entry;
use std::alloc::AllocError;

/// The most classes in the legend.
const MOST_CLASSES: usize = 12;

/// Draws the legend: the subject of the picture, and the meaning of its colours and signs.
pub(crate) fn push_key(
    text: &mut String,
    scene: &Scene,
    palette: &Palette,
) -> Result<(), AllocError> {
    push_heading(text, scene)?;
    push_classes(text, palette)?;
    push_signs(text)
}

fn push_heading(text: &mut String, scene: &Scene) -> Result<(), AllocError> {
    let requests = arrivals_in(scene.subject.entries);
    let first = scene.course.moment(1);
    let last = scene.course.moment(scene.subject.entries.len());
    write!(text, "<text class=\"h\" x=\"{LEFT}\" y=\"28\">")?;
    match scene.subject.only {
        None => write!(text, "{requests} requests")?,
        Some((queue, class)) => {
            text.push_str("Queue ")?;
            push_queue(text, scene.subject.names, queue)?;
            write!(text, ", class {class}")?;
        }
    }
    writeln!(text, ", {first} to {last} ms</text>")
}

fn arrivals_in(entries: &[Entry]) -> usize {
    entries
        .iter()
        .filter(|entry| matches!(entry, Entry::Arrive(_, _)))
        .count()
}

fn push_classes(text: &mut String, palette: &Palette) -> Result<(), AllocError> {
    let mut x = LEFT;
    for (number, class) in palette.classes().iter().enumerate() {
        if number == MOST_CLASSES {
            let more = palette.classes().len().saturating_sub(MOST_CLASSES);
            return writeln!(
                text,
                "<text class=\"m\" x=\"{x}\" y=\"54\">and {more} more</text>"
            );
        }
        let colour = number % COLOURS;
        writeln!(
            text,
            "<rect class=\"k{colour}\" x=\"{x}\" y=\"43\" width=\"14\" height=\"12\"/>"
        )?;
        x = x.saturating_add(20);
        writeln!(text, "<text x=\"{x}\" y=\"54\">class {class}</text>")?;
        x = x.saturating_add(72);
    }
    Ok(())
}

const SIGNS: &str = "\
<rect class=\"k7 w\" x=\"150\" y=\"65\" width=\"14\" height=\"12\"/><text x=\"170\" y=\"76\">waits</text>
<rect class=\"k7 w\" x=\"218\" y=\"65\" width=\"14\" height=\"12\"/><rect class=\"k7 l\" x=\"218\" y=\"65\" width=\"14\" height=\"12\"/><text x=\"238\" y=\"76\">past its due date</text>
<rect class=\"k7 s\" x=\"352\" y=\"65\" width=\"14\" height=\"12\"/><text x=\"372\" y=\"76\">is served</text>
<path class=\"d\" d=\"M444 65v12\"/><text x=\"452\" y=\"76\">due date</text>
<path class=\"x\" d=\"M524 65v12\"/><text x=\"532\" y=\"76\">told that it isn't served</text>
<rect class=\"k7 w c\" x=\"684\" y=\"65\" width=\"14\" height=\"12\"/><text x=\"704\" y=\"76\">critical set</text>
<path class=\"t\" d=\"M788 67h10l-5 8z\"/><text x=\"804\" y=\"76\">worst slot</text>
<path class=\"u\" d=\"M884 64v14\"/><text x=\"892\" y=\"76\">cut</text>
<rect class=\"y\" x=\"930\" y=\"65\" width=\"14\" height=\"12\"/><text x=\"950\" y=\"76\">server is down</text>
<rect class=\"j\" x=\"1052\" y=\"65\" width=\"14\" height=\"12\"/><text x=\"1072\" y=\"76\">server is closed</text>
";

fn push_signs(text: &mut String) -> Result<(), AllocError> {
    text.push_str(SIGNS)
}
