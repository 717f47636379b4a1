ghost use Rattle.std.specs.Prelude.{◌≡◌, ◌++◌, IfOk, OnOk, string_bytes};
ghost use Rattle.log_texts.specs.Reports.{reports_text};
ghost use Rattle.run_windows.specs.Texts.{window_text, server_text, servers_text};

use crate::sums::Sums;
use dispatch_reports::ServerLine;
use late_cert::Report;
use log_texts::{Names, push_reports};
use std::alloc::{AllocError, Global};

/// Appends the line of a window and those of its reports. After the number stands `span`: nothing,
/// or the time of the window. After an `Err` some of them may stand there.
pub fn push_window(
    text: &mut String,
    names: &Names,
    number: u64,
    span: &str,
    reports: &[Report],
) -> Result<(), AllocError>
    ensures { OnOk result (string_bytes text.new ≡ string_bytes text.old ++ window_text names.now number span.now reports.now) }
{
    writeln!(text, "window {number}{span}")?;
    push_reports(text, names, reports)
}

/// Appends a line for each server, in file order. After an `Err` some of them may stand there.
#[tactic(auto, unfolding(crate::specs::Texts::servers_text))]
pub fn push_servers(
    text: &mut String,
    names: &Names,
    lines: &[ServerLine],
) -> Result<(), AllocError>
    ensures { OnOk result (string_bytes text.new ≡ string_bytes text.old ++ servers_text names.now 0 lines.now) }
{
    for (number, line) in lines.iter().enumerate() {
        push_server(text, names.of(number), line)?;
    }
    Ok(())
}

fn push_server(text: &mut String, name: &str, line: &ServerLine) -> Result<(), AllocError>
    ensures { OnOk result (string_bytes text.new ≡ string_bytes text.old ++ server_text name.now line.now) }
{
    let health = if line.up { "up" } else { "down" };
    let direct = line.direct;
    let granted = line.granted;
    writeln!(
        text,
        "server {name} {health} direct {direct} granted {granted}"
    )
}

/// Returns the text at the end: a line for each server, summed over all windows, and the reports of the last one.
pub fn end_text(
    alloc: Global,
    names: &Names,
    sums: &Sums,
    reports: &[Report],
) -> Result<String, AllocError>
    ensures { IfOk result (λ text. string_bytes text ≡ servers_text names.now 0 sums.now ++ reports_text names.now reports.now) }
{
    let mut text = String::new(alloc);
    push_servers(&mut text, names, sums.lines())?;
    push_reports(&mut text, names, reports)?;
    Ok(text)
}
