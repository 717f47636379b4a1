//! What is printed at the end.

use crate::fault::ServeFault;
use locked_book::DeskName;
use log_sink::Sink;
use relay_workers::Proxy;
use run_windows::{WindowPrinter, end_text, lines_of};
use std::sync::ledger::Ledger;
use std::sync::{Arc, Wait};

/// Prints the servers' lines, summed over all windows, and the reports of the last one.
pub fn tell_all<R: Print + Wait, N: DeskName + Ledger>(
    rt: &R,
    proxy: &Proxy<N>,
    windows: WindowPrinter,
) -> Result<(), ServeFault> {
    let (names, told, sink) = windows.into_told();
    let lines = proxy.desk.look(rt).book().servers(proxy.alloc)?;
    let reports = proxy.desk.look(rt).book().report(proxy.alloc)?;
    let mut told = told;
    told.sums.add(lines.as_slice());
    let text = end_text(proxy.alloc, &names, &told.sums, reports.as_slice())?;
    if !has_printed(rt, sink.as_ref(), text.as_str()) {
        return Err(ServeFault::Write);
    }
    match told.fault {
        Some(fault) => Err(ServeFault::from(fault)),
        None => Ok(()),
    }
}

// Where the access log goes to standard output too, one writer writes all of it, so that no line is
// torn. False where there was no room, or printing failed.
fn has_printed<R: Print + Wait>(rt: &R, sink: Option<&Arc<Sink>>, text: &str) -> bool {
    match sink {
        Some(sink) => sink.add(rt, text, lines_of(text)),
        None => rt.print(text).is_ok(),
    }
}
