//! The end of a proxy, from the command to its steps.

use crate::helm::CommandExecutor;
use crate::steered::Steered;
use crate::steering::Tended;
use crate::stopping::{GRACE, StopStage, StopStep, later, next_stop_step};

impl<P: Steered + Drop> CommandExecutor<P> {
    /// Accepts no new clients, and ends once no client is there, or this number of milliseconds
    /// from now, or at the moment that was set before where that is earlier.
    pub(crate) fn stop(&mut self, within: Option<u64>) {
        let now = self.proxy.moment().get();
        self.proxy.stop();
        if matches!(self.ending, StopStage::Refuses { .. }) {
            return;
        }
        let before = match self.ending {
            StopStage::Stops { until, .. } => until,
            StopStage::Serves | StopStage::Refuses { .. } => None,
        };
        let asked = match within {
            Some(millis) => Some(later(now, millis)),
            None => None,
        };
        self.ending = StopStage::Stops {
            until: earlier(before, asked),
            was_empty: false,
        };
    }

    /// Says whether no new clients are accepted.
    pub(crate) fn is_stopping(&self) -> bool {
        self.ending != StopStage::Serves
    }

    /// Makes the next step of the end, where it is due.
    pub(crate) fn go_on_ending(&mut self) -> Tended {
        if self.proxy.is_over() {
            return Tended::Over;
        }
        let now = self.proxy.moment().get();
        match next_stop_step(self.ending, self.proxy.is_empty(), now) {
            StopStep::Nothing => return Tended::Rests,
            StopStep::Look(ending) => self.ending = ending,
            StopStep::End => self.proxy.close(),
            StopStep::Refusals => {
                self.proxy.refuse();
                self.ending = StopStage::Refuses {
                    until: later(now, GRACE),
                };
            }
        }
        Tended::Soon
    }
}

// Returns the earlier of two moments, where there are both.
fn earlier(one: Option<u64>, other: Option<u64>) -> Option<u64> {
    match (one, other) {
        (Some(first), Some(second)) => Some(first.min(second)),
        (Some(first), None) => Some(first),
        (None, second) => second,
    }
}
