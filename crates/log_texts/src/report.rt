ghost use Rattle.std.specs.Prelude.{◌≡◌, ◌++◌, OnOk, OnErr, string_bytes, codes};
ghost use Rattle.log_texts.specs.Growth.{GrowsByFront};
ghost use Rattle.log_texts.specs.Reports.{tickets_text, group_text, worst_text, report_text, reports_text, roll_text};

use crate::names::Names;
use crate::trace::name_of;
use crate::writing::{push_number, push_word, push_words};
use itoa::Buffer;
use late_cert::{Report, Stay};
use std::alloc::AllocError;

/// Appends the lines of reports. After an `Err` a front of them stands there.
pub fn push_reports(text: &mut String, names: &Names, reports: &[Report]) -> Result<(), AllocError>
    ensures ok { OnOk result (string_bytes text.new ≡ string_bytes text.old ++ reports_text names.now reports.now) }
    ensures err { OnErr result (GrowsByFront (string_bytes text.old) (string_bytes text.new) (reports_text names.now reports.now)) }
{
    for report in reports {
        push_report(text, names, report)?;
    }
    Ok(())
}

/// Appends the line of a roll, and those of the reports on the window that it ends. After an `Err`
/// a front of them stands there.
pub fn push_roll(text: &mut String, names: &Names, reports: &[Report]) -> Result<(), AllocError>
    ensures ok { OnOk result (string_bytes text.new ≡ string_bytes text.old ++ roll_text names.now reports.now) }
    ensures err { OnErr result (GrowsByFront (string_bytes text.old) (string_bytes text.new) (roll_text names.now reports.now)) }
{
    push_word(text, "roll\n")?;
    push_reports(text, names, reports)
}

fn push_report(text: &mut String, names: &Names, report: &Report) -> Result<(), AllocError>
    ensures ok { OnOk result (string_bytes text.new ≡ string_bytes text.old ++ report_text names.now report.now) }
    ensures err { OnErr result (GrowsByFront (string_bytes text.old) (string_bytes text.new) (report_text names.now report.now)) }
{
    push_claim(text, names, report)?;
    push_critical(text, report.critical.as_slice())
}

fn push_claim(text: &mut String, names: &Names, report: &Report) -> Result<(), AllocError>
    ensures ok { OnOk result (string_bytes text.new ≡ string_bytes text.old ++ (group_text names.now report.now ++ worst_text report.now)) }
    ensures err { OnErr result (GrowsByFront (string_bytes text.old) (string_bytes text.new) (group_text names.now report.now ++ worst_text report.now)) }
{
    push_group(text, names, report)?;
    push_worst(text, report)
}

// Writes the subject of the report.
fn push_group(text: &mut String, names: &Names, report: &Report) -> Result<(), AllocError>
    ensures ok { OnOk result (string_bytes text.new ≡ string_bytes text.old ++ (group_text names.now report.now)) }
    ensures err { OnErr result (GrowsByFront (string_bytes text.old) (string_bytes text.new) (group_text names.now report.now)) }
{
    let mut class = Buffer::new();
    let mut granted = Buffer::new();
    push_words(
        text,
        &[
            "queue ",
            name_of(names, report.queue),
            " class ",
            class.format(report.class.get()),
            " granted ",
            granted.format(report.granted),
        ],
    )
}

fn push_worst(text: &mut String, report: &Report) -> Result<(), AllocError>
    ensures ok { OnOk result (string_bytes text.new ≡ string_bytes text.old ++ (worst_text report.now)) }
    ensures err { OnErr result (GrowsByFront (string_bytes text.old) (string_bytes text.new) (worst_text report.now)) }
{
    let mut worst = Buffer::new();
    let mut due = Buffer::new();
    let mut after = Buffer::new();
    let mut to = Buffer::new();
    push_words(
        text,
        &[
            " worst ",
            worst.format(report.worst),
            " due ",
            due.format(report.due.get()),
            " after ",
            after.format(report.after),
            " to ",
            to.format(report.to),
        ],
    )
}

// Appends the tickets, and the line's end.
fn push_critical(text: &mut String, stays: &[Stay]) -> Result<(), AllocError>
    ensures ok { OnOk result (string_bytes text.new ≡ string_bytes text.old ++ (codes " critical" ++ tickets_text stays.now ++ codes "\n")) }
    ensures err { OnErr result (GrowsByFront (string_bytes text.old) (string_bytes text.new) (codes " critical" ++ tickets_text stays.now ++ codes "\n")) }
{
    push_word(text, " critical")?;
    push_tickets(text, stays)?;
    push_word(text, "\n")
}

fn push_tickets(text: &mut String, stays: &[Stay]) -> Result<(), AllocError>
    ensures ok { OnOk result (string_bytes text.new ≡ string_bytes text.old ++ tickets_text stays.now) }
    ensures err { OnErr result (GrowsByFront (string_bytes text.old) (string_bytes text.new) (tickets_text stays.now)) }
{
    for stay in stays {
        push_number(text, " ", stay.ticket)?;
    }
    Ok(())
}
