//! The table of waits, and the reports, in words.

use crate::colour::{Looks, Tone};
use crate::seconds::{push_due, push_lateness, push_moment};
use late_cert::{Report, Stay};
use log_entries::Queue;
use log_stretches::Served;
use log_texts::Names;
use std::alloc::AllocError;

/// Appends the table: a line for each slot, in the order in which they were given.
pub fn push_table(
    text: &mut String,
    names: &Names,
    services: &[Served],
    looks: Looks,
) -> Result<(), AllocError> {
    push_title(text, looks, "Who waited how long")?;
    text.push_str("  request  class       came        due     waited  got a slot of\n")?;
    for service in services {
        push_service(text, names, service)?;
    }
    Ok(())
}

fn push_title(text: &mut String, looks: Looks, title: &str) -> Result<(), AllocError> {
    let before = looks.before(Tone::Title);
    let after = looks.after();
    writeln!(text, "\n{before}{title}{after}")
}

fn push_service(text: &mut String, names: &Names, service: &Served) -> Result<(), AllocError> {
    let ticket = service.ticket;
    let class = service.class.get();
    write!(text, "  {ticket:>7}  {class:>5}  ")?;
    push_moment(text, service.came.get())?;
    text.push_str("    ")?;
    push_due(text, service.due)?;
    text.push_str("  ")?;
    push_moment(
        text,
        service.slot_moment.get().saturating_sub(service.came.get()),
    )?;
    write!(text, "  {}, ", names.of(service.server))?;
    push_lateness(text, service.due.lateness(service.slot_moment))?;
    text.push_str("\n")
}

/// Appends the reports in words.
pub fn push_reports(
    text: &mut String,
    names: &Names,
    reports: &[Report],
    looks: Looks,
) -> Result<(), AllocError> {
    push_title(text, looks, "What the proxy reports, class by class")?;
    for report in reports {
        push_report(text, names, report)?;
        push_proof(text, report)?;
    }
    Ok(())
}

fn push_report(text: &mut String, names: &Names, report: &Report) -> Result<(), AllocError> {
    let class = report.class;
    let granted = report.granted;
    write!(text, "  class {class}: {granted} waited ")?;
    match report.queue {
        Queue::Backend => text.push_str("in *")?,
        Queue::Server(server) => write!(text, "for {}", names.of(server))?,
    }
    text.push_str(", and the latest got its slot ")?;
    push_lateness(text, report.worst)?;
    text.push_str("\n")
}

// Writes why the worst lateness couldn't have been less.
fn push_proof(text: &mut String, report: &Report) -> Result<(), AllocError> {
    let stays = report.critical.as_slice();
    text.push_str("      no other order is better: ")?;
    push_tickets(text, stays)?;
    if stays.len() == 1 {
        return text.push_str(" had just this slot\n");
    }
    write!(
        text,
        " had just these {} slots, and were due by ",
        stays.len()
    )?;
    push_due(text, report.due)?;
    text.push_str("\n")
}

fn push_tickets(text: &mut String, stays: &[Stay]) -> Result<(), AllocError> {
    for (number, stay) in stays.iter().enumerate() {
        let between = if number == 0 { "" } else { ", " };
        let ticket = stay.ticket;
        write!(text, "{between}{ticket}")?;
    }
    Ok(())
}
