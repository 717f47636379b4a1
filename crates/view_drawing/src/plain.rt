use crate::bar::Bar;
use crate::drawing::Scene;
use crate::palette::COLOURS;
use log_stretches::Lane;
use std::alloc::{AllocError, Global};

/// Draws the bars alone, those of one colour and kind as one path: that is far shorter than a shape for each.
pub(crate) fn push_plain_bars(
    alloc: Global,
    text: &mut String,
    scene: &Scene,
) -> Result<(), AllocError> {
    let mut groups = empty_groups(alloc)?;
    for bar in scene.bars {
        if let Some(group) = groups.get_mut(group_of(bar)) {
            push_line(group, scene, bar)?;
        }
    }
    push_groups(text, scene.sheet.thick, groups.as_slice())
}

// Makes an empty group for the stays and for the services of each colour.
fn empty_groups(alloc: Global) -> Result<Vec<String>, AllocError> {
    let mut groups: Vec<String> = Vec::new(alloc);
    for _ in 0..=2 * COLOURS + 1 {
        groups.push(String::new(alloc))?;
    }
    Ok(groups)
}

fn push_groups(text: &mut String, thick: usize, groups: &[String]) -> Result<(), AllocError> {
    for (number, group) in groups.iter().enumerate() {
        if !group.is_empty() {
            push_group(text, thick, number, group.as_str())?;
        }
    }
    Ok(())
}

fn push_group(
    text: &mut String,
    thick: usize,
    number: usize,
    group: &str,
) -> Result<(), AllocError> {
    let kind = if number % 2 == 0 { "p" } else { "q" };
    let colour = number / 2;
    write!(
        text,
        "<path class=\"k{colour} {kind}\" stroke-width=\"{thick}\" d=\""
    )?;
    text.push_str(group)?;
    text.push_str("\"/>\n")
}

// Returns the number of a bar's group.
fn group_of(bar: &Bar) -> usize {
    let service = match bar.stretch.lane {
        Lane::Queue(_) => 0,
        Lane::Server(_) => 1,
    };
    bar.colour.saturating_mul(2).saturating_add(service)
}

fn push_line(group: &mut String, scene: &Scene, bar: &Bar) -> Result<(), AllocError> {
    let (from, to) = scene.times(bar);
    let y = scene.sheet.row(bar.stretch.lane, bar.row);
    let lasts = to.saturating_sub(from);
    write!(group, "M{from} {y}h{lasts}")
}
