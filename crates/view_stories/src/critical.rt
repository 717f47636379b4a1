use crate::lines::Story;
use crate::teller::Telling;
use log_stretches::Course;
use std::alloc::AllocError;
use view_traces::ReportLine;

/// Adds for each report whose critical set contains the request what that proves, or that there is none.
pub(crate) fn push_critical(
    story: &mut Story,
    telling: &Telling,
    course: &Course,
    ticket: u64,
) -> Result<(), AllocError> {
    let mut found = false;
    for report in telling.reports {
        if report.critical.contains(&ticket) {
            add_report(story, telling, course, report)?;
            found = true;
        }
    }
    if found {
        return Ok(());
    }
    let mut line = story.line();
    line.push_str("It stands in no critical set")?;
    story.add(line)
}

fn add_report(
    story: &mut Story,
    telling: &Telling,
    course: &Course,
    report: &ReportLine,
) -> Result<(), AllocError> {
    let mut line = story.line();
    let queue = telling.queue(report.queue);
    let class = report.class;
    let worst = report.worst;
    let count = report.critical.len();
    let to = course.moment(report.before.saturating_add(report.to));
    write!(
        line,
        "It stands in the critical set of {queue} class {class}: {count} requests had {count} slots up to {to} ms, "
    )?;
    write_least(&mut line, worst)?;
    story.add(line)
}

fn write_least(line: &mut String, worst: i64) -> Result<(), AllocError> {
    let apart = worst.unsigned_abs();
    if worst < 0 {
        write!(line, "so one of them is {apart} ms early at most")
    } else {
        write!(line, "so one of them is {apart} ms late at least")
    }
}
