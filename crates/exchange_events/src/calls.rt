ghost use Rattle.std.specs.Prelude.{◌≡◌, ◌≢◌, ◌≤◌, ◌⊎◌, ◌++◌, ℕ, List, [], true, false, Some, IsTrue, length, min, take, drop};
ghost use Rattle.exchange_machine.specs.Changes.{Uses};
ghost use Rattle.exchange_machine.specs.Histories.{ExchangeHistory, client_came, server_came, server_got, client_got, signed};
ghost use Rattle.exchange_machine.specs.Reasons.{told_for};
ghost use Rattle.exchange_machine.specs.declared.dialing.Terms.{Terms};
ghost use Rattle.exchange_machine.specs.declared.signs.Sign.{Sign};
ghost use Rattle.exchange_machine.specs.Stages.{IsAsking, IsChecked, IsDialing, IsForwarding, IsTurn, IsUnread};
ghost use Rattle.exchange_machine.specs.Ways.{IsUsedUp};
ghost use Rattle.exchange_machine.specs.declared.sides.Down.TheVariants as down;
ghost use Rattle.exchange_events.specs.Answers as answers;
ghost use Rattle.exchange_events.specs.Steps as steps;
ghost use Rattle.http_texts.specs.declared.additions.Additions as additions;
ghost use Rattle.http_texts.specs.declared.refusals.Code as codes;

use crate::exchange::{Exchange, Outcome, Step};
use crate::relaying::{Turned, go_on, not_redialed};
use base_verdict::Ending;
use exchange_machine::{Asking, Dialing, Forwarding, Sign, Telling, Terms, Turn, Way};
use grant_board::Pass;
use http_texts::{Code, Fault};
use std::alloc::Global;

pub(crate) fn quiet(next: Exchange, used: usize) -> Step
    ensures used { result.used ≡ used }
    ensures same { result.next ≡ next }
    ensures at { (h : ExchangeHistory) → steps.IsAtItsStage next h → steps.IsAtItsStage result.next (steps.ended result.outcome h) }
    ensures does { (result.outcome ≡ Outcome.Quiet) }
    ensures fails { steps.FailsInTurn result.outcome result.next }
{
    Step {
        next,
        used,
        outcome: Outcome::Quiet,
    }
}

// The event changes nothing.
pub(crate) fn unmoved(exchange: Exchange) -> Step
    ensures same { result.next ≡ exchange }
    ensures none { result.used ≡ 0 }
    ensures signs { (h : ExchangeHistory) (sign : Sign) → steps.IsAtItsStage exchange h → steps.IsAtItsStage result.next (steps.ended result.outcome (signed h sign)) }
    ensures client_bytes { (h : ExchangeHistory) (bytes : List ℕ) → steps.IsAtItsStage exchange h
        → steps.IsAtItsStage result.next (steps.ended result.outcome (client_came h (take result.used bytes))) }
    ensures server_bytes { (h : ExchangeHistory) (bytes : List ℕ) → steps.IsAtItsStage exchange h
        → steps.IsAtItsStage result.next (steps.ended result.outcome (server_came h (take result.used bytes))) }
    ensures client_took { (h : ExchangeHistory) (count : ℕ) → steps.IsAtItsStage exchange h
        → steps.IsAtItsStage result.next (steps.ended result.outcome (client_got h (take count []))) }
    ensures server_took { (h : ExchangeHistory) (count : ℕ) → steps.IsAtItsStage exchange h
        → steps.IsAtItsStage result.next (steps.ended result.outcome (server_got h (take count []))) }
    ensures connected { (h : ExchangeHistory) (adds : additions.Additions) → steps.IsAtItsStage exchange h
        → steps.IsAtItsStage result.next (steps.ended result.outcome (steps.connected_with result.used adds h)) }
    ensures does { answers.Stays exchange result.used result.outcome result.next }
    ensures fails { steps.FailsInTurn result.outcome result.next }
{
    Step {
        next: exchange,
        used: 0,
        outcome: Outcome::Quiet,
    }
}

pub(crate) fn client_bytes(exchange: Exchange, alloc: Global, input: &[u8]) -> Step
    ensures within { result.used ≤ length input.now }
    ensures at { (h : ExchangeHistory) → steps.IsAtItsStage exchange h → steps.IsAtItsStage result.next (steps.ended result.outcome (client_came h (take result.used input.now))) }
    ensures does { answers.HearsClient input.now exchange result.used result.outcome result.next }
    ensures fails { steps.FailsInTurn result.outcome result.next }
{
    match exchange {
        Exchange::Asking(asking) => asking_bytes(asking, alloc, input),
        Exchange::Forwarding(forwarding) => request_bytes(forwarding, alloc, input),
        other => unmoved(other),
    }
}

fn asking_bytes(asking: Asking, alloc: Global, input: &[u8]) -> Step
    ensures within { result.used ≤ length input.now }
    ensures at { (h : ExchangeHistory) → IsAsking asking h → steps.IsAtItsStage result.next (steps.ended result.outcome (client_came h (take result.used input.now))) }
    ensures does { answers.HearsClient input.now (Exchange.Asking asking) result.used result.outcome result.next }
    ensures fails { steps.FailsInTurn result.outcome result.next }
{
    let (used, turn) = asking.client_bytes(alloc, input);
    let Turned { next, outcome } = begun(turn);
    Step {
        next,
        used,
        outcome,
    }
}

fn begun(turn: Turn) -> Turned
    ensures at { (h : ExchangeHistory) → IsTurn turn h → steps.IsAtItsStage result.next (steps.ended result.outcome h) }
    ensures does { IsChecked turn → answers.HasReadOn result.outcome result.next }
    ensures starved { turn ≡ Turn.Refused Fault.NoMemory → result.outcome ≡ Outcome.Starved }
    ensures fails { steps.FailsInTurn result.outcome result.next }
{
    match turn {
        Turn::More(asking) => Turned {
            next: Exchange::Asking(asking),
            outcome: Outcome::Quiet,
        },
        Turn::Whole(waiting) => Turned {
            next: Exchange::Waiting(waiting),
            outcome: Outcome::Quiet,
        },
        Turn::Refused(why) => unread(why),
    }
}

fn unread(why: Fault) -> Turned
    ensures starved { why ≡ Fault.NoMemory → result.outcome ≡ Outcome.Starved }
    ensures at { (h : ExchangeHistory) → IsUnread why h → steps.IsAtItsStage result.next (steps.ended result.outcome h) }
    ensures does { answers.HasReadOn result.outcome result.next }
    ensures fails { steps.FailsInTurn result.outcome result.next }
{
    if why == Fault::NoMemory {
        return Turned {
            next: Exchange::Telling(Telling::starved()),
            outcome: Outcome::Starved,
        };
    }
    Turned {
        next: Exchange::Telling(Telling::of_fault(why)),
        outcome: Outcome::Quiet,
    }
}

fn request_bytes(mut forwarding: Forwarding, alloc: Global, input: &[u8]) -> Step
    ensures within { result.used ≤ length input.now }
    ensures at { (h : ExchangeHistory) → IsForwarding forwarding h → steps.IsAtItsStage result.next (steps.ended result.outcome (client_came h (take result.used input.now))) }
    ensures does { answers.HearsClient input.now (Exchange.Forwarding forwarding) result.used result.outcome result.next }
    ensures fails { steps.FailsInTurn result.outcome result.next }
{
    let used = take_request(&mut forwarding, input);
    let Turned { next, outcome } = go_on(forwarding, alloc);
    Step {
        next,
        used,
        outcome,
    }
}

fn take_request(forwarding: &mut Forwarding, input: &[u8]) -> usize
    ensures within { result ≤ length input.now }
    ensures uses { Uses forwarding.old forwarding.new }
    ensures phase { forwarding.new.phase ≡ forwarding.old.phase }
    ensures cut { forwarding.old.cut ≡ true → result ≡ 0 }
    ensures all { forwarding.old.cut ≡ false → IsUsedUp forwarding.new.up (forwarding.new.up_held.items ++ drop result input.now) }
    ensures passes { (h : ExchangeHistory) → IsForwarding forwarding.old h → IsForwarding forwarding.new (client_came h (take result input.now)) }
{
    forwarding.use_held();
    if !forwarding.holds_none() {
        return 0;
    }
    forwarding.client_bytes(input)
}

pub(crate) fn server_bytes(exchange: Exchange, alloc: Global, input: &[u8]) -> Step
    ensures within { result.used ≤ length input.now }
    ensures at { (h : ExchangeHistory) → steps.IsAtItsStage exchange h → steps.IsAtItsStage result.next (steps.ended result.outcome (server_came h (take result.used input.now))) }
    ensures does { answers.HearsServer input.now exchange result.used result.outcome result.next }
    ensures fails { steps.FailsInTurn result.outcome result.next }
{
    match exchange {
        Exchange::Forwarding(forwarding) => answer_bytes(forwarding, alloc, input),
        other => unmoved(other),
    }
}

fn answer_bytes(mut forwarding: Forwarding, alloc: Global, input: &[u8]) -> Step
    ensures within { result.used ≤ length input.now }
    ensures at { (h : ExchangeHistory) → IsForwarding forwarding h → steps.IsAtItsStage result.next (steps.ended result.outcome (server_came h (take result.used input.now))) }
    ensures does { answers.HearsServer input.now (Exchange.Forwarding forwarding) result.used result.outcome result.next }
    ensures fails { steps.FailsInTurn result.outcome result.next }
{
    let used = take_answer(&mut forwarding, input);
    let Turned { next, outcome } = go_on(forwarding, alloc);
    Step {
        next,
        used,
        outcome,
    }
}

fn take_answer(forwarding: &mut Forwarding, input: &[u8]) -> usize
    ensures within { result ≤ length input.now }
    ensures uses { Uses forwarding.old forwarding.new }
    ensures phase { forwarding.new.phase ≡ forwarding.old.phase }
    ensures all { forwarding.old.phase ≡ down.Body → forwarding.old.down_held.items ≡ [] → IsUsedUp forwarding.new.down (drop result input.now) }
    ensures held { (forwarding.old.phase ≡ down.Body → forwarding.old.down_held.items ≢ []) → answers.Fills forwarding.old.down_held.items result input.now ⊎ (result ≡ 0) }
    ensures passes { (h : ExchangeHistory) → IsForwarding forwarding.old h → IsForwarding forwarding.new (server_came h (take result input.now)) }
{
    if forwarding.is_at_body() && forwarding.holds_no_answer() {
        return forwarding.server_bytes(input);
    }
    match forwarding.server_head_bytes(input) {
        Ok(used) => used,
        Err(_) => 0,
    }
}

// Returns `count`, or the number of waiting bytes where that is less.
fn fitting(count: usize, waiting: &[u8]) -> usize
    ensures least { result ≡ min count (length waiting.now) }
    ensures within { result ≤ length waiting.now }
    ensures same { take result waiting.now ≡ take count waiting.now }
{
    if count < waiting.len() {
        count
    } else {
        waiting.len()
    }
}

pub(crate) fn client_took(exchange: Exchange, alloc: Global, count: usize) -> Step
    ensures at { (h : ExchangeHistory) → steps.IsAtItsStage exchange h
        → steps.IsAtItsStage result.next (steps.ended result.outcome (client_got h (take count (steps.to_client exchange)))) }
    ensures does { answers.TellsClient count exchange result.used result.outcome result.next }
    ensures within { result.used ≤ count }
    ensures fails { steps.FailsInTurn result.outcome result.next }
{
    match exchange {
        Exchange::Forwarding(mut forwarding) => {
            let used = fitting(count, forwarding.to_client());
            forwarding.client_took(used);
            let Turned { next, outcome } = go_on(forwarding, alloc);
            Step {
                next,
                used,
                outcome,
            }
        }
        Exchange::Settling(mut settling) => {
            let used = fitting(count, settling.to_client());
            settling.client_took(used);
            quiet(Exchange::Settling(settling), used)
        }
        Exchange::Leaving(mut leaving) => {
            let used = fitting(count, leaving.to_client());
            leaving.client_took(used);
            quiet(Exchange::Leaving(leaving), used)
        }
        Exchange::Telling(mut telling) => {
            let used = fitting(count, telling.to_client());
            telling.client_took(used);
            quiet(Exchange::Telling(telling), used)
        }
        Exchange::Asking(asking) => unmoved(Exchange::Asking(asking)),
        Exchange::Waiting(waiting) => unmoved(Exchange::Waiting(waiting)),
        Exchange::Dialing(dialing) => unmoved(Exchange::Dialing(dialing)),
        Exchange::Over => unmoved(Exchange::Over),
    }
}

pub(crate) fn server_took(exchange: Exchange, alloc: Global, count: usize) -> Step
    ensures at { (h : ExchangeHistory) → steps.IsAtItsStage exchange h
        → steps.IsAtItsStage result.next (steps.ended result.outcome (server_got h (take count (steps.to_server exchange)))) }
    ensures does { answers.RelayHears (answers.HasServed count) exchange result.used result.outcome result.next }
    ensures within { result.used ≤ count }
    ensures fails { steps.FailsInTurn result.outcome result.next }
{
    match exchange {
        Exchange::Forwarding(mut forwarding) => {
            let used = fitting(count, forwarding.to_server());
            forwarding.server_took(used);
            let Turned { next, outcome } = go_on(forwarding, alloc);
            Step {
                next,
                used,
                outcome,
            }
        }
        Exchange::Asking(asking) => unmoved(Exchange::Asking(asking)),
        Exchange::Waiting(waiting) => unmoved(Exchange::Waiting(waiting)),
        Exchange::Dialing(dialing) => unmoved(Exchange::Dialing(dialing)),
        Exchange::Settling(settling) => unmoved(Exchange::Settling(settling)),
        Exchange::Leaving(leaving) => unmoved(Exchange::Leaving(leaving)),
        Exchange::Telling(telling) => unmoved(Exchange::Telling(telling)),
        Exchange::Over => unmoved(Exchange::Over),
    }
}

pub(crate) fn granted(exchange: Exchange, pass: Pass) -> Step
    ensures at { (h : ExchangeHistory) → steps.IsAtItsStage exchange h → steps.IsAtItsStage result.next (steps.ended result.outcome (steps.came_pass result.used pass h)) }
    ensures does { answers.IsGranted exchange pass result.used result.outcome result.next }
    ensures within { result.used ≤ 1 }
    ensures fails { steps.MayReturn result.outcome result.next }
{
    match exchange {
        Exchange::Waiting(waiting) => quiet(Exchange::Dialing(waiting.grant(pass)), 1),
        other => Step {
            next: other,
            used: 0,
            outcome: Outcome::Returns(pass),
        },
    }
}

pub(crate) fn unserved(exchange: Exchange, sign: Sign) -> Step
    requires { told_for sign ≡ Some codes.Code.Unavailable }
    ensures at { (h : ExchangeHistory) → steps.IsAtItsStage exchange h → steps.IsAtItsStage result.next (steps.ended result.outcome (signed h sign)) }
    ensures does { answers.IsUnserved exchange result.used result.outcome result.next }
    ensures unused { result.used ≡ 0 }
    ensures fails { steps.FailsInTurn result.outcome result.next }
{
    match exchange {
        Exchange::Waiting(waiting) => {
            quiet(Exchange::Telling(waiting.refuse(Code::Unavailable)), 0)
        }
        other => unmoved(other),
    }
}

pub(crate) fn connected(exchange: Exchange, alloc: Global, terms: Terms) -> Step
    ensures at { (h : ExchangeHistory) → steps.IsAtItsStage exchange h
        → steps.IsAtItsStage result.next (steps.ended result.outcome (steps.connected_with result.used terms.adds h)) }
    ensures does { answers.IsConnected exchange terms result.used result.outcome result.next }
    ensures within { result.used ≤ 1 }
    ensures fails { steps.FailsInTurn result.outcome result.next }
{
    match exchange {
        Exchange::Dialing(dialing) => begin(dialing, alloc, terms),
        Exchange::Forwarding(forwarding) => reconnected(forwarding, alloc, terms),
        other => unmoved(other),
    }
}

// On a connection in place of one that broke the waiting bytes are sent as they are.
fn reconnected(mut forwarding: Forwarding, alloc: Global, terms: Terms) -> Step
    ensures at { (h : ExchangeHistory) → IsForwarding forwarding h
        → steps.IsAtItsStage result.next (steps.ended result.outcome (steps.connected_with result.used terms.adds h)) }
    ensures does { answers.GoesOnOn forwarding terms result.used result.outcome result.next }
    ensures within { result.used ≤ 1 }
    ensures fails { steps.FailsInTurn result.outcome result.next }
{
    if !forwarding.is_dialing() {
        return unmoved(Exchange::Forwarding(forwarding));
    }
    forwarding.connect(terms.fresh);
    let Turned { next, outcome } = go_on(forwarding, alloc);
    Step {
        next,
        used: 0,
        outcome,
    }
}

fn begin(dialing: Dialing, alloc: Global, terms: Terms) -> Step
    ensures at { (h : ExchangeHistory) → IsDialing dialing h
        → steps.IsAtItsStage result.next (steps.ended result.outcome (steps.connected_with result.used terms.adds h)) }
    ensures does { answers.StartsOn dialing terms result.used result.outcome result.next }
    ensures within { result.used ≤ 1 }
    ensures fails { steps.FailsInTurn result.outcome result.next }
{
    let Ok(up) = Way::new(alloc) else {
        return short(dialing);
    };
    let Ok(down) = Way::new(alloc) else {
        return short(dialing);
    };
    match dialing.connected(alloc, up, down, terms) {
        Ok(forwarding) => {
            let Turned { next, outcome } = go_on(forwarding, alloc);
            Step {
                next,
                used: 1,
                outcome,
            }
        }
        Err(dialing) => short(dialing),
    }
}

fn short(dialing: Dialing) -> Step
    ensures at { (h : ExchangeHistory) (adds : additions.Additions) → IsDialing dialing h
        → steps.IsAtItsStage result.next (steps.ended result.outcome (steps.connected_with result.used adds h)) }
    ensures does { (result.used ≡ 0) × (result.outcome ≡ Outcome.StarvedPosts dialing.pass Ending.Done) × answers.IsSentRefusal codes.Code.Unavailable result.next }
    ensures fails { steps.FailsInTurn result.outcome result.next }
{
    let (waiting, pass) = dialing.give_up();
    Step {
        next: Exchange::Telling(waiting.refuse(Code::Unavailable)),
        used: 0,
        outcome: Outcome::StarvedPosts(pass, Ending::Done),
    }
}

pub(crate) fn unreachable(exchange: Exchange, sign: Sign) -> Step
    requires { told_for sign ≡ Some codes.Code.Unavailable }
    ensures at { (h : ExchangeHistory) → steps.IsAtItsStage exchange h → steps.IsAtItsStage result.next (steps.ended result.outcome (signed h sign)) }
    ensures does { answers.IsUnreached exchange result.used result.outcome result.next }
    ensures unused { result.used ≡ 0 }
    ensures fails { steps.FailsInTurn result.outcome result.next }
{
    match exchange {
        Exchange::Dialing(dialing) => { unreached_at_first(dialing, sign) }
        Exchange::Forwarding(forwarding) => unreached(forwarding, sign),
        other => unmoved(other),
    }
}

// Where no byte reached a server the exchange may wait for another pass; otherwise its client is told.
fn unreached_at_first(dialing: Dialing, sign: Sign) -> Step
    requires { told_for sign ≡ Some codes.Code.Unavailable }
    ensures at { (h : ExchangeHistory) → IsDialing dialing h → steps.IsAtItsStage result.next (steps.ended result.outcome (signed h sign)) }
    ensures does { answers.MissesServer dialing result.outcome result.next }
    ensures unused { result.used ≡ 0 }
    ensures fails { steps.FailsInTurn result.outcome result.next }
{
    if dialing.has_reached() {
        let (waiting, pass) = dialing.give_up();
        return Step {
            next: Exchange::Telling(waiting.refuse(Code::Unavailable)),
            used: 0,
            outcome: Outcome::Posts(pass, Ending::Done),
        };
    }
    let (waiting, pass) = dialing.fail();
    Step {
        next: Exchange::Waiting(waiting),
        used: 0,
        outcome: Outcome::Posts(pass, Ending::Failed),
    }
}

fn unreached(forwarding: Forwarding, sign: Sign) -> Step
    requires { told_for sign ≡ Some codes.Code.Unavailable }
    ensures at { (h : ExchangeHistory) → IsForwarding forwarding h → steps.IsAtItsStage result.next (steps.ended result.outcome (signed h sign)) }
    ensures does { answers.LosesServer forwarding result.used result.outcome result.next }
    ensures unused { result.used ≡ 0 }
    ensures fails { steps.FailsInTurn result.outcome result.next }
{
    if !forwarding.is_dialing() {
        return unmoved(Exchange::Forwarding(forwarding));
    }
    let Turned { next, outcome } = not_redialed(forwarding, sign);
    Step {
        next,
        used: 0,
        outcome,
    }
}

/// The client has left: nothing more is written, and a pass is posted as done.
pub(crate) fn gone(exchange: Exchange, sign: Sign) -> Step
    ensures over { result.next ≡ Exchange.Over }
    ensures at { (h : ExchangeHistory) → steps.IsAtItsStage exchange h → steps.IsAtItsStage result.next (steps.ended result.outcome (signed h sign)) }
    ensures does { answers.LosesClient exchange result.outcome result.next }
    ensures unused { result.used ≡ 0 }
    ensures fails { steps.FailsInTurn result.outcome result.next }
{
    match exchange {
        Exchange::Dialing(dialing) => {
            let pass = dialing.abandon();
            Step {
                next: Exchange::Over,
                used: 0,
                outcome: Outcome::Posts(pass, Ending::Done),
            }
        }
        Exchange::Forwarding(forwarding) => {
            let pass = forwarding.abandon();
            Step {
                next: Exchange::Over,
                used: 0,
                outcome: Outcome::Posts(pass, Ending::Done),
            }
        }
        Exchange::Asking(_asking) => quiet(Exchange::Over, 0),
        Exchange::Waiting(_waiting) => quiet(Exchange::Over, 0),
        Exchange::Settling(_settling) => quiet(Exchange::Over, 0),
        Exchange::Leaving(_leaving) => quiet(Exchange::Over, 0),
        Exchange::Telling(_telling) => quiet(Exchange::Over, 0),
        Exchange::Over => quiet(Exchange::Over, 0),
    }
}

pub(crate) fn client_ended(exchange: Exchange, aborts: bool) -> Step
    ensures at { (h : ExchangeHistory) → steps.IsAtItsStage exchange h → steps.IsAtItsStage result.next (steps.ended result.outcome (signed h Sign.ClientEnded)) }
    ensures leaves { steps.is_left aborts exchange ≡ true → result.next ≡ Exchange.Over }
    ensures stays { steps.is_left aborts exchange ≡ false → result.next ≡ exchange }
    ensures does { answers.IsHalfClosed aborts exchange result.used result.outcome result.next }
    ensures unused { result.used ≡ 0 }
    ensures fails { steps.FailsInTurn result.outcome result.next }
{
    if is_left(&exchange, aborts) {
        gone(exchange, Sign::ClientEnded)
    } else {
        unmoved(exchange)
    }
}

// Says whether an exchange ends when its client sends no more.
fn is_left(exchange: &Exchange, aborts: bool) -> bool
    ensures { result ≡ steps.is_left aborts exchange.now }
{
    match exchange {
        Exchange::Asking(_) => true,
        Exchange::Waiting(_) => aborts,
        Exchange::Dialing(_) => aborts,
        Exchange::Forwarding(forwarding) => aborts || !forwarding.is_asked(),
        Exchange::Settling(_) => false,
        Exchange::Leaving(_) => false,
        Exchange::Telling(_) => false,
        Exchange::Over => false,
    }
}

pub(crate) fn server_ended(exchange: Exchange, alloc: Global, sign: Sign) -> Step
    requires { told_for sign ≡ Some codes.Code.BadGateway }
    ensures at { (h : ExchangeHistory) → steps.IsAtItsStage exchange h → steps.IsAtItsStage result.next (steps.ended result.outcome (signed h sign)) }
    ensures does { answers.RelayHears (answers.HasHeardEnd (answers.is_end_sign sign)) exchange result.used result.outcome result.next }
    ensures unused { result.used ≡ 0 }
    ensures fails { steps.FailsInTurn result.outcome result.next }
{
    match exchange {
        Exchange::Forwarding(mut forwarding) => {
            forwarding.server_ended(is_end(sign));
            let Turned { next, outcome } = go_on(forwarding, alloc);
            Step {
                next,
                used: 0,
                outcome,
            }
        }
        other => unmoved(other),
    }
}

// Says whether the server's input came to its end without an error.
fn is_end(sign: Sign) -> bool
    ensures same { result ≡ answers.is_end_sign sign }
    ensures end { IsTrue result → sign ≡ Sign.ServerEnded }
{
    match sign {
        Sign::ServerEnded => true,
        _ => false,
    }
}

pub(crate) fn server_deaf(exchange: Exchange, alloc: Global) -> Step
    ensures at { (h : ExchangeHistory) → steps.IsAtItsStage exchange h → steps.IsAtItsStage result.next (steps.ended result.outcome (signed h Sign.ServerDeaf)) }
    ensures does { answers.RelayHears answers.IsCutOff exchange result.used result.outcome result.next }
    ensures unused { result.used ≡ 0 }
    ensures fails { steps.FailsInTurn result.outcome result.next }
{
    match exchange {
        Exchange::Forwarding(mut forwarding) => {
            forwarding.cut_off();
            let Turned { next, outcome } = go_on(forwarding, alloc);
            Step {
                next,
                used: 0,
                outcome,
            }
        }
        other => unmoved(other),
    }
}
