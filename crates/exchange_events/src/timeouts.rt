//! Timeouts that expired.

ghost use Rattle.std.specs.Prelude.{◌≡◌};
ghost use Rattle.exchange_machine.specs.Histories.{ExchangeHistory, signed};
ghost use Rattle.exchange_machine.specs.declared.signs.Sign.{Sign};
ghost use Rattle.exchange_machine.specs.Stages.{IsAsking};
ghost use Rattle.exchange_events.specs.Answers as answers;
ghost use Rattle.exchange_events.specs.Steps as steps;

use crate::calls::{gone, quiet, unmoved, unreachable, unserved};
use crate::event::TimeoutKind;
use crate::exchange::{Exchange, Step};
use crate::relaying::{Turned, refused_late};
use exchange_machine::{Asking, Sign};

pub(crate) fn time_over(exchange: Exchange, clock: TimeoutKind) -> Step
    ensures at { (h : ExchangeHistory) → steps.IsAtItsStage exchange h → steps.IsAtItsStage result.next (steps.ended result.outcome (signed h (steps.over clock))) }
    ensures does { answers.IsOverdue clock exchange result.used result.outcome result.next }
    ensures unused { result.used ≡ 0 }
    ensures fails { steps.FailsInTurn result.outcome result.next }
{
    match clock {
        TimeoutKind::Client => client_over(exchange),
        TimeoutKind::Queue => unserved(exchange, Sign::QueueOver),
        TimeoutKind::Connect => unreachable(exchange, Sign::ConnectOver),
        TimeoutKind::Server => server_over(exchange),
    }
}

fn client_over(exchange: Exchange) -> Step
    ensures at { (h : ExchangeHistory) → steps.IsAtItsStage exchange h → steps.IsAtItsStage result.next (steps.ended result.outcome (signed h Sign.ClientOver)) }
    ensures does { answers.IsSilent exchange result.used result.outcome result.next }
    ensures unused { result.used ≡ 0 }
    ensures fails { steps.FailsInTurn result.outcome result.next }
{
    match exchange {
        Exchange::Asking(asking) => asked_late(asking),
        Exchange::Waiting(waiting) => unmoved(Exchange::Waiting(waiting)),
        Exchange::Dialing(dialing) => unmoved(Exchange::Dialing(dialing)),
        other => gone(other, Sign::ClientOver),
    }
}

// A client that sent nothing at all is told nothing.
fn asked_late(asking: Asking) -> Step
    ensures at { (h : ExchangeHistory) → IsAsking asking h → steps.IsAtItsStage result.next (steps.ended result.outcome (signed h Sign.ClientOver)) }
    ensures does { answers.IsSilent (Exchange.Asking asking) result.used result.outcome result.next }
    ensures unused { result.used ≡ 0 }
    ensures fails { steps.FailsInTurn result.outcome result.next }
{
    if asking.is_silent() {
        quiet(Exchange::Over, 0)
    } else {
        quiet(Exchange::Telling(asking.late()), 0)
    }
}

fn server_over(exchange: Exchange) -> Step
    ensures at { (h : ExchangeHistory) → steps.IsAtItsStage exchange h → steps.IsAtItsStage result.next (steps.ended result.outcome (signed h Sign.ServerOver)) }
    ensures does { answers.IsMute exchange result.used result.outcome result.next }
    ensures unused { result.used ≡ 0 }
    ensures fails { steps.FailsInTurn result.outcome result.next }
{
    match exchange {
        Exchange::Forwarding(forwarding) => {
            let Turned { next, outcome } = refused_late(forwarding);
            Step {
                next,
                used: 0,
                outcome,
            }
        }
        other => unmoved(other),
    }
}
