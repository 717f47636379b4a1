//! Requests one after another on a client's and on a server's connection: how an exchange ended, and the next one.

ghost use Rattle.std.specs.Prelude.{◌≡◌, ◌++◌, ℕ, List, [], true, false, IfOk, IfErr, IsTrue};
ghost use Rattle.exchange_machine.specs.Answerings.{TellsAnswer};
ghost use Rattle.exchange_machine.specs.Histories.{ExchangeHistory};
ghost use Rattle.exchange_machine.specs.Stages.{IsChecked, IsTurn, IsUnread};
ghost use Rattle.exchange_machine.specs.Wholes.{EndsClean, begun};
ghost use Rattle.exchange_events.specs.Answers as answers;
ghost use Rattle.exchange_events.specs.Chains as chains;
ghost use Rattle.exchange_events.specs.Passes.{held_by};
ghost use Rattle.exchange_events.specs.Steps as steps;

use crate::exchange::Exchange;
use exchange_machine::{Telling, Turn};
use http_texts::Fault;
use std::alloc::Global;

impl Exchange {
    /// Says whether its client is or was sent the whole answer of its server, and not a refusal or
    /// an answer that broke off.
    pub fn is_answered(&self) -> bool
        ensures answered { result ≡ chains.is_answered self.now }
        ensures whole { IsTrue result → (h : ExchangeHistory) → steps.IsAtItsStage self.now h
            → TellsAnswer h.signs h.client_in h.server_in (h.to_client ++ steps.to_client self.now) }
    {
        match self {
            Exchange::Settling(_) => true,
            Exchange::Leaving(leaving) => leaving.is_answered(),
            Exchange::Asking(_)
            | Exchange::Waiting(_)
            | Exchange::Dialing(_)
            | Exchange::Forwarding(_)
            | Exchange::Telling(_)
            | Exchange::Over => false,
        }
    }

    /// Says whether no byte has come from its client yet.
    pub fn is_silent(&self) -> bool
        ensures silent { result ≡ chains.is_silent self.now }
        ensures none { IsTrue result → (h : ExchangeHistory) → steps.IsAtItsStage self.now h → (h.client_in ≡ []) × (h.to_client ≡ []) × (h.grants ≡ []) }
    {
        match self {
            Exchange::Asking(asking) => asking.is_silent(),
            Exchange::Waiting(_)
            | Exchange::Dialing(_)
            | Exchange::Forwarding(_)
            | Exchange::Settling(_)
            | Exchange::Leaving(_)
            | Exchange::Telling(_)
            | Exchange::Over => false,
        }
    }

    /// Says whether its server's connection can be used again: both messages were whole, the
    /// request was sent whole, nothing came after the answer, and both sides agreed to keep the
    /// connection open.
    pub fn is_clean(&self) -> bool
        ensures clean { result ≡ chains.is_clean self.now }
        ensures ends { IsTrue result → (h : ExchangeHistory) → steps.IsAtItsStage self.now h → EndsClean h (steps.to_client self.now) }
    {
        match self {
            Exchange::Settling(settling) => settling.is_clean(),
            Exchange::Leaving(leaving) => leaving.is_clean(),
            Exchange::Asking(_)
            | Exchange::Waiting(_)
            | Exchange::Dialing(_)
            | Exchange::Forwarding(_)
            | Exchange::Telling(_)
            | Exchange::Over => false,
        }
    }

    /// Says whether its request may go out on a used connection of a server: it waits for a
    /// connection, has no body, and is idempotent.
    pub fn takes_used(&self) -> bool
        ensures { result ≡ chains.takes_used self.now }
    {
        match self {
            Exchange::Dialing(dialing) => dialing.takes_used(),
            Exchange::Asking(_)
            | Exchange::Waiting(_)
            | Exchange::Forwarding(_)
            | Exchange::Settling(_)
            | Exchange::Leaving(_)
            | Exchange::Telling(_)
            | Exchange::Over => false,
        }
    }

    /// Says whether its client may ask again: both messages were whole, both sides agreed to keep
    /// the connection open, and the client was sent the whole answer.
    pub fn may_ask_again(&self) -> bool
        ensures { result ≡ chains.may_ask_again self.now }
    {
        match self {
            Exchange::Settling(settling) => settling.to_client().is_empty(),
            Exchange::Asking(_)
            | Exchange::Waiting(_)
            | Exchange::Dialing(_)
            | Exchange::Forwarding(_)
            | Exchange::Leaving(_)
            | Exchange::Telling(_)
            | Exchange::Over => false,
        }
    }

    /// Makes the next exchange of a client that may ask again. It begins with the bytes after the
    /// request, so it may wait for a pass at once, or be refused.
    pub fn ask_again(self, alloc: Global) -> Result<Exchange, Exchange>
        ensures next { IfOk result (λ next. (h : ExchangeHistory) → steps.IsAtItsStage self h → chains.IsNext h next) }
        ensures history { IfOk result (λ next. steps.HasHistory next) }
        ensures none { IfOk result (λ next. held_by next ≡ []) }
        ensures reads { IfOk result (λ next. answers.IsReadOn next) }
        ensures may { IfOk result (λ next. chains.may_ask_again self ≡ true) }
        ensures same { IfErr result (λ exchange. (exchange ≡ self) × (chains.may_ask_again self ≡ false)) }
    {
        match self {
            Exchange::Settling(settling) => {
                if settling.to_client().is_empty() {
                    Ok(turned(settling.next(alloc)))
                } else {
                    Err(Exchange::Settling(settling))
                }
            }
            other => Err(other),
        }
    }
}

fn turned(turn: Turn) -> Exchange
    ensures begun { (behind : List ℕ) → IsTurn turn (begun behind) → chains.IsBegun result behind }
    ensures none { held_by result ≡ [] }
    ensures reads { IsChecked turn → answers.IsReadOn result }
{
    match turn {
        Turn::More(asking) => Exchange::Asking(asking),
        Turn::Whole(waiting) => Exchange::Waiting(waiting),
        Turn::Refused(why) => unread(why),
    }
}

fn unread(why: Fault) -> Exchange
    ensures begun { (behind : List ℕ) → IsUnread why (begun behind) → chains.IsBegun result behind }
    ensures none { held_by result ≡ [] }
    ensures reads { answers.IsReadOn result }
{
    if why == Fault::NoMemory {
        Exchange::Telling(Telling::starved())
    } else {
        Exchange::Telling(Telling::of_fault(why))
    }
}
