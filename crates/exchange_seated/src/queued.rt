ghost use Rattle.std.specs.Prelude.{◌≡◌, ◌∷◌, [], false};
ghost use Rattle.exchange_machine.specs.Histories.{ExchangeHistory, granted};
ghost use Rattle.exchange_machine.specs.Stages.{IsWaiting};
ghost use Rattle.exchange_events.specs.Passes.{held_by};
ghost use Rattle.relay_http.specs.States.{Serves};
ghost use Rattle.exchange_seated.specs.Connections.{IsUnsentYet};
ghost use Rattle.exchange_seated.specs.Seats.{HasWaited, IsDialingAt};

use crate::seated::Seated;
use board_seats::Taken;
use exchange_events::Exchange;
use exchange_machine::Waiting;
use grant_board::BoardName;
use req_view::View;
use std::sync::ledger::Ledger;

/// An exchange that waits for a pass: it holds none, so it may be dropped.
#[derive(Drop)]
pub struct WaitingExchange {
    waiting: Waiting,
    ghost waited: { HasWaited waiting },
}

impl WaitingExchange {
    pub(crate) fn of(waiting: Waiting) -> WaitingExchange
        requires { HasWaited waiting }
        ensures { result.waiting ≡ waiting }
    {
        WaitingExchange { waiting }
    }

    /// Returns its request.
    pub fn view(&self) -> &View
        ensures { result.now ≡ self.now.waiting.asked.view }
    {
        self.waiting.view()
    }

    /// Continues the exchange with its pass, which is for a slot of a server.
    pub fn grant<N: BoardName + Ledger>(self, taken: Taken<N>) -> Seated<N>
        requires { Serves taken.held.pass.verdict }
        ensures pass { held_by result.exchange ≡ taken.held.pass ∷ [] }
        ensures grants { result.exchange ≡ Exchange.Dialing (record { waiting = self.waiting; pass = taken.held.pass; reached = false }) }
        ensures dials { (h : ExchangeHistory) → IsWaiting self.waiting h → IsDialingAt result.exchange (granted h taken.held.pass) }
        ensures unsent { IsUnsentYet result.exchange }
    {
        let WaitingExchange { waiting } = self;
        let (seat, pass, out) = taken.into_parts();
        let seat = Some(seat);
        Seated::of(Exchange::Dialing(waiting.grant(pass)), seat, Some(out))
    }

    /// Continues the exchange without a pass: its client is told why.
    pub fn unseated<N: BoardName + Ledger>(self) -> Seated<N>
        ensures none { held_by result.exchange ≡ [] }
        ensures waits { result.exchange ≡ Exchange.Waiting self.waiting }
    {
        let WaitingExchange { waiting } = self;
        Seated::of(Exchange::Waiting(waiting), None, None)
    }
}
