//! The picture of the demo.

use crate::fault::DemoFault;
use demo_words::names_of;
use late_cert::Report;
use log_entries::Entry;
use std::alloc::{AllocError, Global};
use std::fs;
use std::rt::Files;
use view_drawing::{Subject, push_drawing};
use view_traces::trace_of_window;

/// Draws a log and its reports into a file, as `dueproxy draw` does.
pub(crate) fn write_picture<R: Files + AllocGlobal>(
    rt: &R,
    file: &str,
    entries: &[Entry],
    reports: &[Report],
) -> Result<(), DemoFault> {
    let picture = picture_of(rt.alloc(), entries, reports)?;
    match fs::write(rt, file, picture.as_str()) {
        Ok(()) => Ok(()),
        Err(error) => Err(DemoFault::Picture(error)),
    }
}

fn picture_of(alloc: Global, entries: &[Entry], reports: &[Report]) -> Result<String, AllocError> {
    let trace = trace_of_window(alloc, names_of(alloc)?, entries, reports)?;
    let subject = Subject {
        names: &trace.names,
        entries: trace.entries.as_slice(),
        rolls: trace.rolls.as_slice(),
        reports: trace.reports.as_slice(),
        only: None,
    };
    let mut text = String::new(alloc);
    push_drawing(alloc, &mut text, &subject)?;
    Ok(text)
}
