ghost use Rattle.std.specs.Prelude.{◌≡◌, [], map, IfOk};
ghost use Rattle.view_traces.specs.Windows.{ticket_of, told_by, told_of};

use crate::report::ReportLine;
use crate::trace::Trace;
use late_cert::Report;
use log_entries::Entry;
use log_reading::Stay;
use log_texts::Names;
use std::alloc::{AllocError, Global};

/// Makes the contents of a trace of a log whose first window is its only one, without writing or
/// reading a line. Arrivals keep their places, which no line tells. `O(n)` in the entries and the
/// stays of critical sets.
pub fn trace_of_window(
    alloc: Global,
    names: Names,
    entries: &[Entry],
    reports: &[Report],
) -> Result<Trace, AllocError>
    ensures names { IfOk result (λ trace. trace.names ≡ names) }
    ensures entries { IfOk result (λ trace. trace.entries.items ≡ entries.now) }
    ensures rolls { IfOk result (λ trace. trace.rolls.items ≡ []) }
    ensures reports { IfOk result (λ trace. map told_by trace.reports.items ≡ map told_of reports.now) }
{
    let entries = Vec::from_slice(alloc, entries)?;
    let reports = lines_of(alloc, reports)?;
    Ok(Trace {
        names,
        entries,
        rolls: Vec::new(alloc),
        reports,
    })
}

fn lines_of(alloc: Global, reports: &[Report]) -> Result<Vec<ReportLine>, AllocError>
    ensures { IfOk result (λ lines. map told_by lines.items ≡ map told_of reports.now) }
{
    let mut lines = Vec::with_capacity(alloc, reports.len())?;
    for report in reports {
        lines.push(line_of(alloc, report)?)?;
    }
    Ok(lines)
}

fn line_of(alloc: Global, report: &Report) -> Result<ReportLine, AllocError>
    ensures { IfOk result (λ line. told_by line ≡ told_of report.now) }
{
    let critical = tickets_of(alloc, report.critical.as_slice())?;
    Ok(ReportLine {
        before: 0,
        queue: report.queue,
        class: report.class,
        granted: report.granted,
        worst: report.worst,
        due: report.due,
        after: report.after,
        to: report.to,
        critical,
    })
}

fn tickets_of(alloc: Global, stays: &[Stay]) -> Result<Vec<u64>, AllocError>
    ensures { IfOk result (λ tickets. tickets.items ≡ map ticket_of stays.now) }
{
    let mut tickets = Vec::with_capacity(alloc, stays.len())?;
    for stay in stays {
        tickets.push(stay.ticket)?;
    }
    Ok(tickets)
}
