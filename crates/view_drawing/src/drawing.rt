use crate::axis::push_axis;
use crate::bar::{Bar, bars_of};
use crate::caption::{lines_below, push_captions};
use crate::hatches::push_hatches;
use crate::lane_rows::lay_rows;
use crate::legend::push_key;
use crate::marks::{push_labels, push_marks};
use crate::palette::{COLOUR_STYLE, Palette};
use crate::plain::push_plain_bars;
use crate::sheet::{LEFT, PLOT, Sheet, WIDTH, lanes_of};
use crate::story::push_bars;
use due_key::Class;
use log_entries::{Entry, Queue};
use log_stretches::Course;
use log_texts::Names;
use std::alloc::{AllocError, Global};
use view_traces::ReportLine;

/// The most bars with titles, due dates and outlines; a picture with more has the bars alone.
pub(crate) const MOST_TITLED: usize = 8192;

/// The subject of a picture.
#[derive(Clone, Copy)]
pub struct Subject<'a> {
    /// The names of the servers.
    pub names: &'a Names,
    /// The entries of a log, all its windows one after the other.
    pub entries: &'a [Entry],
    /// For each roll the number of entries before it.
    pub rolls: &'a [usize],
    pub reports: &'a [ReportLine],
    /// The one queue and class that are drawn; `None` for all.
    pub only: Option<(Queue, Class)>,
}

/// The data that the parts of a picture use.
#[derive(Clone, Copy)]
pub(crate) struct Scene<'a> {
    pub(crate) subject: &'a Subject<'a>,
    pub(crate) course: &'a Course<'a>,
    pub(crate) sheet: &'a Sheet,
    pub(crate) bars: &'a [Bar],
}

const STYLE: &str = "\
text{font:12px system-ui,-apple-system,'Segoe UI',Roboto,Helvetica,Arial,sans-serif;fill:#222}\
.h{font-size:15px;font-weight:600}.m{fill:#666}.r{text-anchor:end}.i{text-anchor:middle}\
.n{font-size:11px;pointer-events:none;fill:#111}.v{fill:#fff}\
.g{stroke:#e3e3e3;fill:none}.b{fill:#f6f6f6}.a{fill:#eef2f5}\
rect,path{vector-effect:non-scaling-stroke}\
.w{fill-opacity:.28;stroke-opacity:.75}.s{stroke:#222;stroke-opacity:.6}.l{fill-opacity:.55;stroke:none;pointer-events:none}\
.c{stroke:#000;stroke-opacity:1;stroke-width:2}.d{stroke:#111;stroke-width:2;fill:none;pointer-events:none}\
.x{stroke:#c00000;stroke-width:3;fill:none;pointer-events:none}\
.u{stroke:#111;stroke-dasharray:4 3;fill:none}.t{fill:#111;stroke:none}.y{fill:url(#down);pointer-events:none}.j{fill:url(#closed);pointer-events:none}.e{stroke-opacity:.8;fill:none;pointer-events:none}.o{stroke:#999;stroke-dasharray:1 3;fill:none}\
.z .w,.z .s{stroke-width:.4}.z .c{stroke-width:1}.z .d{stroke-width:1;stroke-opacity:.5}.p{stroke-opacity:.4;fill:none}.q{fill:none}\
";

// The hatching of a server that is down, and of one that is closed.
const HATCHES: &str = "\
<defs><pattern id=\"down\" width=\"8\" height=\"8\" patternUnits=\"userSpaceOnUse\" patternTransform=\"rotate(45)\"><path d=\"M1 0v8\" stroke=\"#333\" stroke-opacity=\".55\" stroke-width=\"2\"/><path d=\"M5 0v8\" stroke=\"#fff\" stroke-opacity=\".6\" stroke-width=\"2\"/></pattern>
<pattern id=\"closed\" width=\"6\" height=\"6\" patternUnits=\"userSpaceOnUse\"><path d=\"M0 1h6\" stroke=\"#333\" stroke-opacity=\".55\" stroke-width=\"1.5\"/><path d=\"M0 4h6\" stroke=\"#fff\" stroke-opacity=\".6\" stroke-width=\"1.5\"/></pattern></defs>
";

/// Appends the picture. After an `Err` a part of it may stand there. `O(n log n)` in the entries,
/// times the reports where titles are written.
pub fn push_drawing(alloc: Global, text: &mut String, subject: &Subject) -> Result<(), AllocError> {
    let course = Course::new(alloc, subject.entries)?;
    let palette = Palette::new(alloc, subject.entries)?;
    let mut bars = bars_of(alloc, subject, &course, &palette)?;
    let rows = lay_rows(alloc, &course, &mut bars, lanes_of(subject.names.len()))?;
    let lines = lines_below(alloc, subject)?;
    let sheet = Sheet::new(alloc, &course, rows.as_slice(), lines.as_slice())?;
    let scene = Scene {
        subject,
        course: &course,
        sheet: &sheet,
        bars: bars.as_slice(),
    };
    push_head(text, &sheet)?;
    push_key(text, &scene, &palette)?;
    push_axis(text, &scene)?;
    push_plot(alloc, text, &scene)?;
    push_hatches(text, &scene)?;
    push_captions(text, &scene)?;
    text.push_str("</svg>\n")
}

// Writes the beginning of the file, with the styles of all that follows.
fn push_head(text: &mut String, sheet: &Sheet) -> Result<(), AllocError> {
    let height = sheet.height;
    write!(
        text,
        "<svg xmlns=\"http://www.w3.org/2000/svg\" width=\"{WIDTH}\" height=\"{height}\" viewBox=\"0 0 {WIDTH} {height}\">\n<style>"
    )?;
    text.push_str(COLOUR_STYLE)?;
    text.push_str(STYLE)?;
    text.push_str("</style>\n")?;
    text.push_str(HATCHES)?;
    text.push_str("<rect width=\"100%\" height=\"100%\" fill=\"#fff\"/>\n")
}

// Draws what depends on time. In the inner picture one unit to the right is one millisecond.
fn push_plot(alloc: Global, text: &mut String, scene: &Scene) -> Result<(), AllocError> {
    let sheet = scene.sheet;
    let height = sheet.height;
    let span = sheet.span;
    writeln!(
        text,
        "<svg x=\"{LEFT}\" y=\"0\" width=\"{PLOT}\" height=\"{height}\" viewBox=\"0 0 {span} {height}\" preserveAspectRatio=\"none\">"
    )?;
    if MOST_TITLED < scene.bars.len() {
        push_plain_bars(alloc, text, scene)?;
        return text.push_str("</svg>\n");
    }
    text.push_str(if sheet.is_dense() {
        "<g class=\"z\">\n"
    } else {
        "<g>\n"
    })?;
    push_bars(text, scene)?;
    push_marks(text, scene)?;
    text.push_str("</g>\n</svg>\n")?;
    push_labels(text, scene)
}
