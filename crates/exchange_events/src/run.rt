ghost use Rattle.std.specs.Prelude.{◌≡◌, ◌++◌, ◌∷◌, List, []};
ghost use Rattle.exchange_machine.specs.Histories.{ExchangeHistory};
ghost use Rattle.exchange_events.specs.Runs.{Ran};
ghost use Rattle.exchange_events.specs.Steps as steps;
ghost use Rattle.exchange_events.specs.declared.exchange.Outcome as outcomes;

use crate::event::{Event, Rules};
use crate::exchange::{Exchange, Outcome, Step};
use std::alloc::Global;

/// The events of an exchange, one after the other.
pub enum Events<'a> {
    End,
    Then(Event<'a>, Box<Events<'a>>),
}

/// A receiver of what exchanges give away.
pub trait OutcomeReceiver {
    // What it was handed.
    ghost told: { Self → List outcomes.Outcome };

    fn take(&mut self, outcome: Outcome)
        ensures { told self.new ≡ told self.old ++ outcome ∷ [] };
}

impl Exchange {
    /// Runs the exchange over all events, whatever they are and in whatever order: the history that
    /// they make is sound.
    pub fn run<D: OutcomeReceiver>(
        self,
        alloc: Global,
        rules: Rules,
        receiver: &mut D,
        events: Events,
    ) -> Exchange
        ensures { (h : ExchangeHistory) → steps.IsAtItsStage self h → Ran rules.aborts self h events.entry (D.told receiver.old) (D.told receiver.new) result }
    {
        match events {
            Events::End => self,
            Events::Then(event, rest) => {
                let Step {
                    next,
                    used: _,
                    outcome,
                } = self.step(alloc, rules, event);
                receiver.take(outcome);
                next.run(alloc, rules, receiver, Box::into_inner(rest))
            }
        }
    }
}
