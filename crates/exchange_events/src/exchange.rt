ghost use Rattle.std.specs.Prelude.{◌≡◌, ◌≢◌, ◌++◌, [], true, false, Some, IsFalse, IsTrue};
ghost use Rattle.exchange_machine.specs.Histories.{ExchangeHistory, nothing_yet};
ghost use Rattle.exchange_events.specs.Answers.{Does};
ghost use Rattle.exchange_events.specs.Chains as chains;
ghost use Rattle.exchange_events.specs.Passes.{held_by, came_with, gone_with};
ghost use Rattle.exchange_events.specs.Rooms.{takes_from_client, takes_from_server};
ghost use Rattle.exchange_events.specs.Steps as steps;

use crate::calls::{
    client_bytes, client_ended, client_took, connected, gone, granted, server_bytes, server_deaf,
    server_ended, server_took, unreachable, unserved,
};
use crate::event::{Event, Rules, TimeoutKind};
use crate::timeouts::time_over;
use base_verdict::Ending;
use exchange_machine::{Asking, Dialing, Forwarding, Leaving, Settling, Sign, Telling, Waiting};
use grant_board::Pass;
use std::alloc::Global;

/// One request and its answer, in their stage.
pub enum Exchange {
    Asking(Asking),
    Waiting(Waiting),
    Dialing(Dialing),
    Forwarding(Forwarding),
    /// Both messages were whole, and its client may ask again once all is sent.
    Settling(Settling),
    /// Its client's connection is closed once all is sent.
    Leaving(Leaving),
    /// Its client is sent a refusal, and its connection closed.
    Telling(Telling),
    /// Nothing more is done.
    Over,
}

/// What a step gives away.
pub enum Outcome {
    Quiet,
    /// The pass is to be posted.
    Posts(Pass, Ending),
    /// There is no memory for the request.
    Starved,
    /// There is no memory or no room for the request's or the answer's head: the pass is to be posted.
    StarvedPosts(Pass, Ending),
    /// The server's connection is to be given up, and another one opened on the same pass.
    Retries,
    /// This pass wasn't waited for.
    Returns(Pass),
}

/// The result of an event: the exchange, what it gave away, and how much of the event it took.
pub struct Step {
    pub next: Exchange,
    pub used: usize,
    pub outcome: Outcome,
}

/// The bytes that it waits for, those that it has for a side that takes them, and the timeout that runs.
#[derive(Clone, Copy, Debug, PartialEq, Eq)]
pub struct Wants {
    pub clock: Option<TimeoutKind>,
    pub reads_client: bool,
    pub writes_client: bool,
    pub reads_server: bool,
    pub writes_server: bool,
}

impl Exchange {
    /// Makes an exchange without a pass, a connection or a byte.
    pub fn new(alloc: Global) -> Exchange
        ensures at { steps.IsAtItsStage result nothing_yet }
        ensures silent { chains.is_silent result ≡ true }
    {
        Exchange::Asking(Asking::new(alloc))
    }

    /// Returns the bytes that its client is to be sent next.
    pub fn to_client(&self) -> &[u8]
        ensures { result.now ≡ steps.to_client self.now }
    {
        match self {
            Exchange::Asking(_) | Exchange::Waiting(_) | Exchange::Dialing(_) | Exchange::Over => {
                b""
            }
            Exchange::Forwarding(forwarding) => forwarding.to_client(),
            Exchange::Settling(settling) => settling.to_client(),
            Exchange::Leaving(leaving) => leaving.to_client(),
            Exchange::Telling(telling) => telling.to_client(),
        }
    }

    /// Returns the bytes that its server is to be sent next.
    pub fn to_server(&self) -> &[u8]
        ensures { result.now ≡ steps.to_server self.now }
    {
        match self {
            Exchange::Forwarding(forwarding) => forwarding.to_server(),
            Exchange::Asking(_)
            | Exchange::Waiting(_)
            | Exchange::Dialing(_)
            | Exchange::Settling(_)
            | Exchange::Leaving(_)
            | Exchange::Telling(_)
            | Exchange::Over => b"",
        }
    }

    /// Returns which bytes it waits for.
    pub fn wants(&self) -> Wants
        ensures reads_client { result.reads_client ≡ steps.reads_client self.now }
        ensures writes_client { IsFalse result.writes_client → steps.to_client self.now ≡ [] }
        ensures some { IsTrue result.writes_client → steps.to_client self.now ≢ [] }
        ensures reads_server { result.reads_server ≡ steps.reads_server self.now }
        ensures writes_server { result.writes_server ≡ steps.writes_server self.now }
        ensures clock { result.clock ≡ steps.clock_of self.now }
    {
        Wants {
            clock: self.clock(),
            reads_client: self.reads_client(),
            writes_client: !self.to_client().is_empty(),
            reads_server: self.reads_server(),
            writes_server: self.writes_server(),
        }
    }

    fn reads_client(&self) -> bool
        ensures { result ≡ steps.reads_client self.now }
    {
        match self {
            Exchange::Asking(_) => true,
            Exchange::Forwarding(forwarding) => forwarding.takes_request(),
            Exchange::Waiting(_)
            | Exchange::Dialing(_)
            | Exchange::Settling(_)
            | Exchange::Leaving(_)
            | Exchange::Telling(_)
            | Exchange::Over => false,
        }
    }

    fn reads_server(&self) -> bool
        ensures { result ≡ steps.reads_server self.now }
    {
        match self {
            Exchange::Forwarding(forwarding) => forwarding.takes_answer(),
            Exchange::Asking(_)
            | Exchange::Waiting(_)
            | Exchange::Dialing(_)
            | Exchange::Settling(_)
            | Exchange::Leaving(_)
            | Exchange::Telling(_)
            | Exchange::Over => false,
        }
    }

    fn writes_server(&self) -> bool
        ensures { result ≡ steps.writes_server self.now }
    {
        match self {
            Exchange::Forwarding(forwarding) => forwarding.sends_request(),
            Exchange::Asking(_)
            | Exchange::Waiting(_)
            | Exchange::Dialing(_)
            | Exchange::Settling(_)
            | Exchange::Leaving(_)
            | Exchange::Telling(_)
            | Exchange::Over => false,
        }
    }

    /// Returns about how many bytes of its client it takes at once, where it takes any.
    pub fn request_room(&self) -> usize
        ensures { takes_from_client self.now ≡ false → result ≡ 0 }
    {
        match self {
            Exchange::Asking(asking) => asking.room(),
            Exchange::Forwarding(forwarding) => forwarding.request_room(),
            _ => 0,
        }
    }

    /// Returns about how many bytes of its server it takes at once, where it takes any.
    pub fn answer_room(&self) -> usize
        ensures { takes_from_server self.now ≡ false → result ≡ 0 }
    {
        match self {
            Exchange::Forwarding(forwarding) => forwarding.answer_room(),
            _ => 0,
        }
    }

    // Returns the timeout that runs: that of the side that is waited for.
    fn clock(&self) -> Option<TimeoutKind>
        ensures { result ≡ steps.clock_of self.now }
    {
        match self {
            Exchange::Asking(_) => Some(TimeoutKind::Client),
            Exchange::Waiting(_) => Some(TimeoutKind::Queue),
            Exchange::Dialing(_) => Some(TimeoutKind::Connect),
            Exchange::Forwarding(forwarding) => Some(clock_between(forwarding)),
            Exchange::Settling(_) => Some(TimeoutKind::Client),
            Exchange::Leaving(_) => Some(TimeoutKind::Client),
            Exchange::Telling(_) => Some(TimeoutKind::Client),
            Exchange::Over => None,
        }
    }

    /// Handles any event at any stage: where the history before is sound, so is the history with this event.
    pub fn step(self, alloc: Global, rules: Rules, event: Event) -> Step
        ensures at { (h : ExchangeHistory) → steps.IsAtItsStage self h → steps.IsAtItsStage result.next (steps.history_after self event.entry result.used result.outcome h) }
        ensures history { steps.HasHistory self → steps.HasHistory result.next }
        ensures passes { steps.HasHistory self → held_by self ++ came_with event.entry result.used ≡ gone_with result.outcome ++ held_by result.next }
        ensures fails { steps.TellsInTurn event.entry result.outcome result.next }
        ensures own { steps.IsOwnOf event.entry result.outcome }
        ensures within { steps.TakesNoMore event.entry result.used }
        ensures leaves { event.entry ≡ Event.ClientEnd → steps.is_left rules.aborts self ≡ true → result.next ≡ Exchange.Over }
        ensures stays { event.entry ≡ Event.ClientEnd → steps.is_left rules.aborts self ≡ false → result.next ≡ self }
        ensures does { Does rules.aborts self event.entry result.used result.outcome result.next }
    {
        self.go_on(alloc, rules, event)
    }

    fn go_on(self, alloc: Global, rules: Rules, event: Event) -> Step
        ensures at { (h : ExchangeHistory) → steps.IsAtItsStage self h → steps.IsAtItsStage result.next (steps.history_after self event.entry result.used result.outcome h) }
        ensures fails { steps.TellsInTurn event.entry result.outcome result.next }
        ensures within { steps.TakesNoMore event.entry result.used }
        ensures leaves { event.entry ≡ Event.ClientEnd → steps.is_left rules.aborts self ≡ true → result.next ≡ Exchange.Over }
        ensures stays { event.entry ≡ Event.ClientEnd → steps.is_left rules.aborts self ≡ false → result.next ≡ self }
        ensures does { Does rules.aborts self event.entry result.used result.outcome result.next }
    {
        match event {
            Event::ClientBytes(input) => client_bytes(self, alloc, input),
            Event::ServerBytes(input) => server_bytes(self, alloc, input),
            Event::ClientTook(count) => client_took(self, alloc, count),
            Event::ServerTook(count) => server_took(self, alloc, count),
            Event::Granted(pass) => granted(self, pass),
            Event::Unserved => unserved(self, Sign::Unserved),
            Event::Connected(terms) => connected(self, alloc, terms),
            Event::Unreachable => unreachable(self, Sign::Unreachable),
            Event::ClientEnd => client_ended(self, rules.aborts),
            Event::ClientFailed => gone(self, Sign::ClientFailed),
            Event::ServerEnd => server_ended(self, alloc, Sign::ServerEnded),
            Event::ServerFailed => server_ended(self, alloc, Sign::ServerFailed),
            Event::ServerDeaf => server_deaf(self, alloc),
            Event::TimeOver(clock) => time_over(self, clock),
        }
    }
}

fn clock_between(forwarding: &Forwarding) -> TimeoutKind
    ensures { Some result ≡ steps.clock_of (Exchange.Forwarding forwarding.now) }
{
    if forwarding.is_dialing() {
        return TimeoutKind::Connect;
    }
    forwarding_clock(
        waits(forwarding.to_client()),
        waits(forwarding.to_server()),
        forwarding.is_asked(),
    )
}

fn waits(bytes: &[u8]) -> bool
    ensures { result ≡ steps.waits bytes.now }
{
    !bytes.is_empty()
}

fn forwarding_clock(for_client: bool, for_server: bool, asked: bool) -> TimeoutKind
    ensures { result ≡ steps.forwarding_clock for_client for_server asked }
{
    if for_client {
        TimeoutKind::Client
    } else if for_server || asked {
        TimeoutKind::Server
    } else {
        TimeoutKind::Client
    }
}
