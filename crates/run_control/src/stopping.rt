//! The end that was asked for.

ghost use Rattle.std.specs.Prelude.{◌≡◌, ◌+◌, ◌^◌, ◌-◌, min};
ghost use Rattle.run_control.specs.Endings.{next_stop_step, has_come};

/// The time for clients to read that they aren't served, in milliseconds.
pub(crate) const GRACE: u64 = 500;

/// The stage of the end, with its moments in milliseconds.
#[derive(Clone, Copy, Debug, PartialEq, Eq)]
pub(crate) enum StopStage {
    /// No end was asked for.
    Serves,
    /// No new clients are accepted. Those that are there are served, until a moment where there is
    /// one. The flag says whether none was there at the last look.
    Stops { until: Option<u64>, was_empty: bool },
    /// Waiting requests were refused, and the proxy ends at this moment.
    Refuses { until: u64 },
}

/// The next step of an end.
#[derive(Clone, Copy, Debug, PartialEq, Eq)]
pub(crate) enum StopStep {
    Nothing,
    /// A look later on.
    Look(StopStage),
    /// Waiting requests are refused.
    Refusals,
    /// The proxy ends.
    End,
}

/// Returns the next step of an end at a moment. The proxy ends once no client was there at two
/// looks in a row: a client that came just before the first look is counted by the second.
pub(crate) fn next_stop_step(ending: StopStage, is_empty: bool, now: u64) -> StopStep
    ensures { result ≡ next_stop_step ending is_empty now }
{
    match ending {
        StopStage::Serves => StopStep::Nothing,
        StopStage::Stops { until, was_empty } => step_after_stop(until, was_empty, is_empty, now),
        StopStage::Refuses { until } => step_after_refusals(until, is_empty, now),
    }
}

fn step_after_stop(until: Option<u64>, was_empty: bool, is_empty: bool, now: u64) -> StopStep
    ensures { result ≡ next_stop_step (StopStage.Stops until was_empty) is_empty now }
{
    if was_empty && is_empty {
        return StopStep::End;
    }
    if has_come(until, now) {
        return StopStep::Refusals;
    }
    let was_empty = is_empty;
    StopStep::Look(StopStage::Stops { until, was_empty })
}

fn step_after_refusals(until: u64, is_empty: bool, now: u64) -> StopStep
    ensures { result ≡ next_stop_step (StopStage.Refuses until) is_empty now }
{
    if is_empty || until <= now {
        StopStep::End
    } else {
        StopStep::Look(StopStage::Refuses { until })
    }
}

fn has_come(until: Option<u64>, now: u64) -> bool
    ensures { result ≡ has_come until now }
{
    match until {
        Some(until) => until <= now,
        None => false,
    }
}

/// Returns a moment this number of milliseconds later, or the greatest number.
pub(crate) fn later(moment: u64, millis: u64) -> u64
    ensures { result ≡ min (moment + millis) (2 ^ 64 - 1) }
{
    moment.saturating_add(millis)
}
