ghost use Rattle.std.specs.Prelude.{◌≡◌, ◌≢◌, ◌⊎◌, ◌+◌, ◌<◌, ◌≤◌, ℕ, Some, true, false, []};
ghost use Rattle.http_bodies.specs.Stops.{is_bad};
ghost use Rattle.exchange_machine.specs.Changes.{Uses};
ghost use Rattle.exchange_machine.specs.Findings.{LacksHeadRoom};
ghost use Rattle.exchange_machine.specs.declared.forwarding.Forwarding as forwardings;
ghost use Rattle.exchange_machine.specs.Histories.{ExchangeHistory, posted, signed};
ghost use Rattle.exchange_machine.specs.Reasons.{LacksAnswer, NoneFollows, told_for};
ghost use Rattle.exchange_machine.specs.Repeatables.{IsRepeatable, IsUntouched};
ghost use Rattle.exchange_machine.specs.Settlings.{IsRest};
ghost use Rattle.exchange_machine.specs.Stages.{IsLeaving, IsForwarding};
ghost use Rattle.exchange_machine.specs.Ways.{IsUsedUp};
ghost use Rattle.exchange_events.specs.Answers as answers;
ghost use Rattle.exchange_events.specs.Steps as steps;
ghost use Rattle.http_texts.specs.declared.refusals.Code as codes;
ghost use Rattle.base_verdict.specs.declared.Ending.TheVariants as ending;

use crate::exchange::{Exchange, Outcome};
use base_verdict::Ending;
use exchange_machine::{Down, Ended, Forwarding, Headed, Rest, Settled, Sign};
use http_texts::Code;
use std::alloc::Global;

/// The next exchange, and what it gives away.
pub(crate) struct Turned {
    pub(crate) next: Exchange,
    pub(crate) outcome: Outcome,
}

/// Uses the held bytes as far as it may, and judges the server's side where it is over.
pub(crate) fn go_on(mut forwarding: Forwarding, alloc: Global) -> Turned
    ensures at { (h : ExchangeHistory) → IsForwarding forwarding h → steps.IsAtItsStage result.next (steps.ended result.outcome h) }
    ensures judged { answers.IsRelayJudged forwarding result.outcome result.next }
    ensures fails { steps.FailsInTurn result.outcome result.next }
{
    forwarding.use_held();
    match read_heads(&mut forwarding, alloc, 9) {
        Headed::Answer => body_goes_on(forwarding),
        Headed::More => head_goes_on(forwarding),
        Headed::Interim => no_room(forwarding),
        Headed::Full => no_room(forwarding),
        Headed::Short => refused_short(forwarding),
        Headed::Refused => refused_badly(forwarding),
    }
}

fn read_heads(forwarding: &mut Forwarding, alloc: Global, left: u8) -> Headed
    ensures body { result ≡ Headed.Answer → forwarding.new.phase ≡ Down.Body }
    ensures heads { result ≢ Headed.Answer → forwarding.new.phase ≢ Down.Body }
    ensures more { result ≡ Headed.More → forwarding.new.looks ≡ false }
    ensures full { result ≡ Headed.Full → (count : ℕ) × (forwarding.new.phase ≡ Down.Heads count) × LacksHeadRoom count forwarding.new }
    ensures few { result ≡ Headed.Interim → (before : ℕ) × (count : ℕ) × (forwarding.old.phase ≡ Down.Heads before) × (forwarding.new.phase ≡ Down.Heads count) × (before + left < count) × (count ≤ 8) }
    ensures none { result ≡ Headed.Refused → (count : ℕ) × (forwarding.new.phase ≡ Down.Heads count) × NoneFollows forwarding.new.view.method count forwarding.new.down_held.items }
    ensures uses { Uses forwarding.old forwarding.new }
    ensures up { (forwarding.new.up ≡ forwarding.old.up) × (forwarding.new.up_held ≡ forwarding.old.up_held) }
    ensures stays { forwarding.old.phase ≡ Down.Body → forwarding.new.phase ≡ Down.Body }
    ensures passes { (h : ExchangeHistory) → IsForwarding forwarding.old h → IsForwarding forwarding.new h }
    ensures refused { result ≡ Headed.Refused → (h : ExchangeHistory) → IsForwarding forwarding.old h → LacksAnswer forwarding.new.view.method h.server_in }
{
    let headed = forwarding.read_head(alloc);
    if headed == Headed::Interim && left > 0 {
        return read_heads(forwarding, alloc, left - 1);
    }
    headed
}

fn still_forwarding(forwarding: Forwarding) -> Turned
    ensures at { (h : ExchangeHistory) → IsForwarding forwarding h → steps.IsAtItsStage result.next (steps.ended result.outcome h) }
    ensures does { (result.next ≡ Exchange.Forwarding forwarding) × (result.outcome ≡ Outcome.Quiet) }
    ensures fails { steps.FailsInTurn result.outcome result.next }
{
    Turned {
        next: Exchange::Forwarding(forwarding),
        outcome: Outcome::Quiet,
    }
}

// A head's text waits for room, where bytes are to be sent before it; otherwise there is never room for it.
fn no_room(forwarding: Forwarding) -> Turned
    ensures at { (h : ExchangeHistory) → IsForwarding forwarding h → steps.IsAtItsStage result.next (steps.ended result.outcome h) }
    ensures waits { forwarding.down.out ≢ [] → answers.RelaysOn forwarding result.outcome result.next }
    ensures starves { forwarding.down.out ≡ [] → answers.StarvesIn forwarding result.outcome result.next }
    ensures fails { steps.FailsInTurn result.outcome result.next }
{
    if forwarding.to_client().is_empty() {
        refused_short(forwarding)
    } else {
        still_forwarding(forwarding)
    }
}

fn head_goes_on(forwarding: Forwarding) -> Turned
    ensures at { (h : ExchangeHistory) → IsForwarding forwarding h → steps.IsAtItsStage result.next (steps.ended result.outcome h) }
    ensures does { answers.AwaitsHead forwarding result.outcome result.next }
    ensures fails { steps.FailsInTurn result.outcome result.next }
{
    if forwarding.is_asked_badly() {
        return asked_badly(forwarding);
    }
    if !forwarding.has_ended() {
        return still_forwarding(forwarding);
    }
    if forwarding.can_repeat() {
        return again(forwarding);
    }
    if forwarding.is_untouched() {
        return redials(forwarding);
    }
    breaks_off(forwarding)
}

// The bytes that wait for the server are sent on another connection as they are.
fn redials(mut forwarding: Forwarding) -> Turned
    requires { IsUntouched forwarding }
    ensures at { (h : ExchangeHistory) → IsForwarding forwarding h → steps.IsAtItsStage result.next (steps.ended result.outcome h) }
    ensures does { answers.Redials forwarding result.outcome result.next }
    ensures fails { steps.FailsInTurn result.outcome result.next }
{
    forwarding.redial();
    Turned {
        next: Exchange::Forwarding(forwarding),
        outcome: Outcome::Retries,
    }
}

// The server's input ended before the answer did.
fn breaks_off(forwarding: Forwarding) -> Turned
    requires { forwarding.ended ≡ true }
    ensures at { (h : ExchangeHistory) → IsForwarding forwarding h → steps.IsAtItsStage result.next (steps.ended result.outcome h) }
    ensures does { answers.StopsWith codes.Code.BadGateway forwarding result.outcome result.next }
    ensures fails { steps.FailsInTurn result.outcome result.next }
{
    if forwarding.has_begun() {
        return ends(forwarding);
    }
    left(forwarding.refuse_unanswered())
}

fn asked_badly(forwarding: Forwarding) -> Turned
    requires { is_bad forwarding.up.coding ≡ true }
    ensures at { (h : ExchangeHistory) → IsForwarding forwarding h → steps.IsAtItsStage result.next (steps.ended result.outcome h) }
    ensures does { answers.StopsWith codes.Code.BadRequest forwarding result.outcome result.next }
    ensures fails { steps.FailsInTurn result.outcome result.next }
{
    if forwarding.has_begun() {
        return ends(forwarding);
    }
    left(forwarding.refuse_request())
}

fn left(ended: Ended) -> Turned
    ensures at { (h : ExchangeHistory) → IsLeaving ended.rest (posted h ended.pass ending.Done) → steps.IsAtItsStage result.next (steps.ended result.outcome h) }
    ensures does { (result.next ≡ Exchange.Leaving ended.rest) × (result.outcome ≡ Outcome.Posts ended.pass Ending.Done) }
    ensures fails { steps.FailsInTurn result.outcome result.next }
{
    let Ended { pass, rest } = ended;
    Turned {
        next: Exchange::Leaving(rest),
        outcome: Outcome::Posts(pass, Ending::Done),
    }
}

fn again(forwarding: Forwarding) -> Turned
    requires { IsRepeatable forwarding }
    ensures at { (h : ExchangeHistory) → IsForwarding forwarding h → steps.IsAtItsStage result.next (steps.ended result.outcome h) }
    ensures does { answers.Repeats forwarding result.outcome result.next }
    ensures fails { steps.FailsInTurn result.outcome result.next }
{
    let dialing = forwarding.again();
    Turned {
        next: Exchange::Dialing(dialing),
        outcome: Outcome::Retries,
    }
}

fn body_goes_on(mut forwarding: Forwarding) -> Turned
    ensures at { (h : ExchangeHistory) → IsForwarding forwarding h → steps.IsAtItsStage result.next (steps.ended result.outcome h) }
    ensures does { forwarding.phase ≡ Down.Body
        → (now : forwardings.Forwarding) × Uses forwarding now × (now.phase ≡ Down.Body) × (now.up ≡ forwarding.up) × (now.up_held ≡ forwarding.up_held)
        × IsUsedUp now.down now.down_held.items × ((h : ExchangeHistory) → IsForwarding forwarding h → IsForwarding now h)
        × answers.AwaitsBody now result.outcome result.next }
    ensures fails { steps.FailsInTurn result.outcome result.next }
{
    if !forwarding.is_at_body() {
        return still_forwarding(forwarding);
    }
    forwarding.use_answer_held();
    body_is_used(forwarding)
}

// The bytes that came of the answer's body were used, as far as there was room.
fn body_is_used(forwarding: Forwarding) -> Turned
    requires { forwarding.phase ≡ Down.Body }
    ensures at { (h : ExchangeHistory) → IsForwarding forwarding h → steps.IsAtItsStage result.next (steps.ended result.outcome h) }
    ensures does { answers.AwaitsBody forwarding result.outcome result.next }
    ensures fails { steps.FailsInTurn result.outcome result.next }
{
    if forwarding.is_answered_badly() {
        return answered_badly(forwarding);
    }
    if forwarding.is_answered() {
        return settles(forwarding);
    }
    if !forwarding.has_ended() || !forwarding.holds_no_answer() {
        return still_forwarding(forwarding);
    }
    if forwarding.goes_to_end() {
        return settles(forwarding);
    }
    breaks_off(forwarding)
}

// The bytes after the answer's head can't be its body.
fn answered_badly(forwarding: Forwarding) -> Turned
    requires body { forwarding.phase ≡ Down.Body }
    requires bad { is_bad forwarding.down.coding ≡ true }
    ensures at { (h : ExchangeHistory) → IsForwarding forwarding h → steps.IsAtItsStage result.next (steps.ended result.outcome h) }
    ensures does { answers.StopsWith codes.Code.BadGateway forwarding result.outcome result.next }
    ensures fails { steps.FailsInTurn result.outcome result.next }
{
    if forwarding.has_begun() {
        return ends(forwarding);
    }
    left(forwarding.refuse_broken())
}

fn settles(forwarding: Forwarding) -> Turned
    ensures at { (h : ExchangeHistory) → IsForwarding forwarding h → steps.IsAtItsStage result.next (steps.ended result.outcome h) }
    ensures does { answers.EndsWhole forwarding result.outcome result.next }
    ensures fails { steps.FailsInTurn result.outcome result.next }
{
    let Settled { pass, rest } = forwarding.settle();
    let outcome = Outcome::Posts(pass, Ending::Done);
    match rest {
        Rest::Settling(settling) => Turned {
            next: Exchange::Settling(settling),
            outcome,
        },
        Rest::Leaving(leaving) => Turned {
            next: Exchange::Leaving(leaving),
            outcome,
        },
    }
}

/// The answer can't go on: the part that was handed on is still sent.
pub(crate) fn ends(forwarding: Forwarding) -> Turned
    ensures at { (h : ExchangeHistory) → IsForwarding forwarding h → steps.IsAtItsStage result.next (steps.ended result.outcome h) }
    ensures does { (result.next ≡ Exchange.Leaving (record { out = forwarding.down; whole = false; clean = false })) × (result.outcome ≡ Outcome.Posts forwarding.pass Ending.Done) }
    ensures fails { steps.FailsInTurn result.outcome result.next }
{
    left(forwarding.end())
}

fn refused_short(forwarding: Forwarding) -> Turned
    ensures at { (h : ExchangeHistory) → IsForwarding forwarding h → steps.IsAtItsStage result.next (steps.ended result.outcome h) }
    ensures does { answers.StarvesIn forwarding result.outcome result.next }
    ensures fails { steps.FailsInTurn result.outcome result.next }
{
    if forwarding.has_begun() {
        return ends(forwarding);
    }
    let Ended { pass, rest } = forwarding.refuse(Code::Unavailable);
    Turned {
        next: Exchange::Leaving(rest),
        outcome: Outcome::StarvedPosts(pass, Ending::Done),
    }
}

fn refused_badly(forwarding: Forwarding) -> Turned
    ensures at { (h : ExchangeHistory) → IsForwarding forwarding h → LacksAnswer forwarding.view.method h.server_in → steps.IsAtItsStage result.next (steps.ended result.outcome h) }
    ensures does { answers.StopsWith codes.Code.BadGateway forwarding result.outcome result.next }
    ensures fails { steps.FailsInTurn result.outcome result.next }
{
    if forwarding.has_begun() {
        return ends(forwarding);
    }
    left(forwarding.refuse(Code::BadGateway))
}

/// The server is silent for too long.
pub(crate) fn refused_late(forwarding: Forwarding) -> Turned
    ensures at { (h : ExchangeHistory) → IsForwarding forwarding h → steps.IsAtItsStage result.next (steps.ended result.outcome (signed h Sign.ServerOver)) }
    ensures does { answers.StopsWith codes.Code.BadGateway forwarding result.outcome result.next }
    ensures fails { steps.FailsInTurn result.outcome result.next }
{
    if forwarding.has_begun() {
        return ends(forwarding);
    }
    left(forwarding.refuse(Code::BadGateway))
}

/// No connection was made in place of one that broke, for this reason.
pub(crate) fn not_redialed(forwarding: Forwarding, sign: Sign) -> Turned
    requires { told_for sign ≡ Some codes.Code.Unavailable }
    ensures at { (h : ExchangeHistory) → IsForwarding forwarding h → steps.IsAtItsStage result.next (steps.ended result.outcome (signed h sign)) }
    ensures does { answers.StopsWith codes.Code.Unavailable forwarding result.outcome result.next }
    ensures fails { steps.FailsInTurn result.outcome result.next }
{
    if forwarding.has_begun() {
        return ends(forwarding);
    }
    left(forwarding.refuse(Code::Unavailable))
}
