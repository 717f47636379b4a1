//! The longest waits, in milliseconds.

ghost use Rattle.std.specs.Prelude.{◌≡◌, ◌<◌, ◌/◌, ◌^◌, ◌↔◌, IsTrue};
ghost use Rattle.std.specs.Duration.{as_nanos};
ghost use Rattle.std.specs.Option.{SomeIff};
ghost use Rattle.run_gate.specs.Waits.{turnaround, patience, left, IsTimeOf};

use due_key::Moment;
use proxy_config::Checks;
use std::time::Duration;

const SECOND: u64 = 1000;

/// Returns the time of a configured number of milliseconds.
pub(crate) fn duration(millis: Option<u64>) -> Option<Duration>
    ensures { IsTimeOf millis result }
{
    millis.map(Duration::from_millis)
}

/// Returns the moment after this time; `None` where there is none.
pub(crate) fn moment_of(passed: Duration) -> Option<Moment>
    ensures { SomeIff result (as_nanos passed / 1_000_000 < 2 ^ 62) (as_nanos passed / 1_000_000) }
{
    Moment::new(u64::try_from(passed.as_millis()).ok()?)
}

/// Returns how long a request waits before it tries the server again that failed it, by `timeout connect`.
pub(crate) fn turnaround(connect: Option<u64>) -> u64
    ensures { result ≡ turnaround connect }
{
    match connect {
        None => SECOND,
        Some(connect) => connect.min(SECOND),
    }
}

/// Returns how long a check may take, by `timeout connect` and its `inter`; `None` is without limit.
pub(crate) fn patience(connect: Option<u64>, checks: Option<Checks>) -> Option<u64>
    ensures { result ≡ patience connect checks }
{
    match (connect, checks) {
        (None, None) => None,
        (None, Some(checks)) => Some(checks.inter),
        (Some(connect), None) => Some(connect),
        (Some(connect), Some(checks)) => Some(checks.inter.min(connect)),
    }
}

/// Returns what is left of this number of milliseconds since a moment.
pub(crate) fn left(since: Moment, millis: u64, now: Moment) -> u64
    ensures { result ≡ left since millis now }
{
    millis.saturating_sub(now.get().saturating_sub(since.get()))
}

/// Says whether this number of milliseconds have passed since a moment.
pub(crate) fn has_passed(since: Moment, millis: u64, now: Moment) -> bool
    ensures { IsTrue result ↔ (left since millis now ≡ 0) }
{
    left(since, millis, now) == 0
}
