ghost use Rattle.std.specs.Prelude.{◌≡◌, ◌↔◌, IsTrue, pos, ◌-ℤ◌, count_by};
ghost use Rattle.std.specs.List.{list_all, list_any};
ghost use Rattle.log_reading.specs.Windows.{window_of};
ghost use Rattle.late_cert.specs.Reports.{IsSoundReport, IsLeast};
ghost use Rattle.late_cert.specs.Tests.{is_about, late_by, keeps_worst, is_worst, is_listed, listed_of, is_urgent, PassesEachTest};

use crate::report::Report;
use log_reading::{Log, SlotGrant, Stay};

/// Says whether a report is sound, whoever made it: it counts the stays of its queue and class,
/// none of them is later than its worst, one of them has exactly that lateness, slot and due date,
/// and its critical stays are those with slots after its cut up to there, each due no later and,
/// where the cut isn't 0, joined after the cut. Then no assignment of the slots has a smaller
/// greatest lateness. Linear in the log's grants; allocates nothing.
pub fn audit(log: &Log, report: &Report) -> bool
    ensures exact { IsTrue result ↔ IsSoundReport (window_of log.now) report.now }
    ensures least { IsTrue result → IsLeast (window_of log.now) report.now }
{
    passes(log.grants(), report)
}

fn passes(grants: &[SlotGrant], report: &Report) -> bool
    ensures { IsTrue result ↔ PassesEachTest report.now grants.now }
{
    if report.granted == 0 || report.to <= report.after {
        return false;
    }
    if report.granted != count(grants, report) {
        return false;
    }
    if !are_bounded(grants, report) || !has_worst(grants, report) {
        return false;
    }
    lists(grants, report.critical.as_slice(), report)
        && are_urgent(report.critical.as_slice(), report)
}

/// Returns the number of grants that the report is about.
fn count(grants: &[SlotGrant], report: &Report) -> usize
    ensures { result ≡ count_by (is_about report.now) grants.now }
{
    grants
        .iter()
        .filter(|grant| is_about(grant, report))
        .count()
}

fn are_bounded(grants: &[SlotGrant], report: &Report) -> bool
    ensures { result ≡ list_all (keeps_worst report.now) grants.now }
{
    grants.iter().all(|grant| !(is_about(grant, report) && lateness(grant) > report.worst))
}

fn has_worst(grants: &[SlotGrant], report: &Report) -> bool
    ensures { result ≡ list_any (is_worst report.now) grants.now }
{
    grants.iter().any(|grant| is_worst(grant, report))
}

/// Says whether these are the stays that the report has to list.
fn lists(grants: &[SlotGrant], stays: &[Stay], report: &Report) -> bool
    ensures { IsTrue result ↔ (stays.now ≡ listed_of report.now grants.now) }
{
    let mut next = 0;
    for grant in grants {
        if is_listed(grant, report) {
            if next == stays.len() || stays[next] != grant.stay {
                return false;
            }
            next += 1;
        }
    }
    next == stays.len()
}

fn are_urgent(stays: &[Stay], report: &Report) -> bool
    ensures { result ≡ list_all (is_urgent report.now) stays.now }
{
    stays.iter().all(|stay| {
        stay.due <= report.due && (report.after == 0 || report.after < stay.joined)
    })
}

fn is_about(grant: &SlotGrant, report: &Report) -> bool
    ensures { result ≡ is_about report.now grant.now }
{
    report.queue == grant.queue && report.class == grant.class
}

fn is_worst(grant: &SlotGrant, report: &Report) -> bool
    ensures { result ≡ is_worst report.now grant.now }
{
    is_about(grant, report)
        && grant.stay.slot == report.to
        && grant.stay.due == report.due
        && lateness(grant) == report.worst
}

fn is_listed(grant: &SlotGrant, report: &Report) -> bool
    ensures { result ≡ is_listed report.now grant.now }
{
    is_about(grant, report) && report.after < grant.stay.slot && grant.stay.slot <= report.to
}

/// Returns the lateness of a grant's slot in milliseconds.
pub(crate) fn lateness(grant: &SlotGrant) -> i64
    ensures { result ≡ late_by grant.now }
{
    grant.stay.due.lateness(grant.moment)
}
