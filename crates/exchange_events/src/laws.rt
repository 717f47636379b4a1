ghost use Rattle.std.specs.Prelude.{◌≡◌, ◌++◌, ℕ};
ghost use Rattle.exchange_machine.specs.Histories.{ExchangeHistory};
ghost use Rattle.exchange_events.specs.Passes.{held_by, came_with, gone_with};
ghost use Rattle.exchange_events.specs.Steps.{IsAtItsStage, history_after};
ghost use Rattle.exchange_events.specs.declared.event.Event as events;
ghost use Rattle.exchange_events.specs.declared.exchange.Exchange as exchanges;
ghost use Rattle.exchange_events.specs.declared.exchange.Outcome as outcomes;

/// With the clauses of a step: the pass that it held and the one that was handed in are those that
/// it gives away and still holds. So none is lost, and only a pass that was handed in is posted.
pub fn passes_go_on()
    ensures { (x y : exchanges.Exchange) (h : ExchangeHistory) (event : events.Event) (used : ℕ) (outcome : outcomes.Outcome) → IsAtItsStage x h
        → IsAtItsStage y (history_after x event used outcome h) → held_by x ++ came_with event used ≡ gone_with outcome ++ held_by y }
{}
