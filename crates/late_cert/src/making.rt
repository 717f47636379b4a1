ghost use Rattle.std.specs.Prelude.{◌≡◌, ◌<◌, IfOk, length, map, ℤ, ℕ, Option};
ghost use Rattle.std.specs.List.{filter, prefix_len, IsFirstBest};
ghost use Rattle.std.specs.List.Sorted.{IsPermutation, IsSortedBy, IsStableBy};
ghost use Rattle.log_reading.specs.Grants.{is_of};
ghost use Rattle.log_reading.specs.Windows.{window_of};
ghost use Rattle.late_cert.specs.Reports.{AreReports, is_within, last_cut};
ghost use Rattle.late_cert.specs.Groups.{is_before, is_later, IsReportOf, AreGroups};

use crate::check::lateness;
use crate::report::{Report, Reports, Stays};
use due_key::{Class, Due};
use log_entries::Queue;
use log_reading::{Log, SlotGrant, Stay};
use std::alloc::{AllocError, Global};

/// Makes the reports of a log: one for each queue and class with a grant, the backend's queue
/// first, then the servers' in order, and in a queue by rising class. Each names the first of the
/// latest stays, and the last of the cuts. `O(n log n)` in the log's grants; fails only where
/// memory is refused.
pub fn certify(alloc: Global, log: &Log) -> Result<Reports, AllocError>
    ensures { IfOk result (AreReports (window_of log.now)) }
{
    let sorted = sorted_grants(alloc, log.grants())?;
    Ok(Reports::from_vec(reports_of(alloc, sorted.as_slice())?))
}

/// Sorts the grants by queue and class, and keeps their order within each.
fn sorted_grants(alloc: Global, grants: &[SlotGrant]) -> Result<Vec<SlotGrant>, AllocError>
    ensures permutation { IfOk result (λ sorted. IsPermutation grants.now sorted.items) }
    ensures sorted { IfOk result (λ sorted. IsSortedBy is_before sorted.items) }
    ensures stable { IfOk result (λ sorted. IsStableBy is_before grants.now sorted.items) }
{
    let mut sorted = Vec::from_slice(alloc, grants)?;
    sorted.sort_by_key(|grant| (grant.queue, grant.class))?;
    Ok(sorted)
}

/// Makes a report for each group of grants of one queue and class.
fn reports_of(alloc: Global, grants: &[SlotGrant]) -> Result<Vec<Report>, AllocError>
    ensures { IfOk result (λ reports. AreGroups grants.now reports.items) }
{
    let mut reports = Vec::new(alloc);
    let mut rest = grants;
    'groups: while let Some(first) = rest.first() {
        let (group, more) = rest.split_at(group_len(rest, first.queue, first.class));
        reports.push(report_of(alloc, first.queue, first.class, group)?)?;
        rest = more;
    }
    Ok(reports)
}

/// Returns the number of grants at the front that are of this queue and class.
fn group_len(grants: &[SlotGrant], queue: Queue, class: Class) -> usize
    ensures { result ≡ prefix_len (is_of queue class) grants.now }
{
    grants
        .iter()
        .take_while(|grant| queue == grant.queue && class == grant.class)
        .count()
}

/// Makes the report on all of these grants.
fn report_of(
    alloc: Global,
    queue: Queue,
    class: Class,
    group: &[SlotGrant],
) -> Result<Report, AllocError>
    requires { 0 < length group.now }
    ensures report { IfOk result (IsReportOf group.now) }
    ensures queue { IfOk result (λ it. it.queue ≡ queue) }
    ensures class { IfOk result (λ it. it.class ≡ class) }
{
    let at = first_latest(group);
    let grant = &group[at];
    let (earlier, _) = group.split_at(at);
    let after = last_cut(earlier, grant.stay.due);
    let critical = Stays::from_vec(critical(alloc, group, after, grant.stay.slot)?);
    let worst = lateness(grant);
    let granted = group.len();
    Ok(Report {
        queue,
        class,
        granted,
        worst,
        due: grant.stay.due,
        after,
        to: grant.stay.slot,
        critical,
    })
}

/// Returns the position of the first of the latest grants.
fn first_latest(group: &[SlotGrant]) -> usize
    requires { 0 < length group.now }
    ensures { IsFirstBest is_later group.now (length group.now) result }
{
    let mut best = 0;
    for i in 1..group.len() {
        if is_later(&group[i], &group[best]) {
            best = i;
        }
    }
    best
}

fn is_later(grant: &SlotGrant, other: &SlotGrant) -> bool
    ensures { result ≡ is_later grant.now other.now }
{
    lateness(grant) > lateness(other)
}

/// Returns the slot of the last grant that is due after a date; 0 where none is.
fn last_cut(earlier: &[SlotGrant], due: Due) -> usize
    ensures { result ≡ last_cut due (map (λ it. it.stay) earlier.now) }
{
    let mut last = None;
    for grant in earlier {
        if due < grant.stay.due {
            last = Some(grant.stay.slot);
        }
    }
    last.unwrap_or(0)
}

/// Returns the stays whose slots lie after the cut, up to the end.
fn critical(
    alloc: Global,
    group: &[SlotGrant],
    after: usize,
    to: usize,
) -> Result<Vec<Stay>, AllocError>
    ensures { IfOk result (λ stays. stays.items ≡ map (λ it. it.stay) (filter (λ it. is_within after to it.stay) group.now)) }
{
    group
        .iter()
        .filter(|grant| after < grant.stay.slot && grant.stay.slot <= to)
        .map(|grant| grant.stay)
        .collect(alloc)
}
