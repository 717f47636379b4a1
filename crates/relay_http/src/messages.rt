ghost use Rattle.std.specs.Prelude.{◌≡◌, ◌<◌, ◌+◌, ◌^◌, ◌++◌, ℕ, List, [], IfOk, OnOk, IfErr};
ghost use Rattle.std.specs.Io.KnownBytes.{IsAtEnd};
ghost use Rattle.httparse.specs.Grammar.{ResponseHead, print_response};
ghost use Rattle.http_bodies.specs.Framings.{IsBody, PartOfBody, IsUnfinished};
ghost use Rattle.http_bodies.specs.Runs.{IsSent};
ghost use Rattle.http_bodies.specs.Steps.{ends, Countable, HoldsBack, Moves};
ghost use Rattle.http_bodies.specs.Texts.{Wrote};
ghost use Rattle.http_texts.specs.Emissions.{Sends, Halts};
ghost use Rattle.relay_http.specs.Calls.{HoldsHead, HandsRequest, HandsAnswer};
ghost use Rattle.relay_http.specs.Failures.{Fails};
ghost use Rattle.relay_http.specs.Wants.{WantsBody, WantsAnswer};
ghost use Rattle.http_texts.specs.Messages as messages;
ghost use Rattle.http_texts.specs.Texts.{answer_text, interim_text, framed_for, unnamed};
ghost use Rattle.req_view.specs.Answer.{answer_of};
ghost use Rattle.req_view.specs.AnswerHeads.{HasNoAnswer};

use crate::sending::{forward_interim, send};
use base_streams::{Sink, Source};
use exchange_machine::{Seen, see_head};
use http_bodies::{Fault as BodyFault, Framing, Pipe};
use http_texts::{
    Added, Fault, Persistence, Plan, Wording, is_framed, put_answer, put_request, request_framing,
};
use req_view::{AnswerHead, View};
use std::alloc::Global;

/// An answer's head, and the plan for its body.
#[derive(Drop)]
pub(crate) struct Planned {
    head: AnswerHead,
    plan: Plan,
}

/// Hands on a request whose head was read, and writes all of it.
pub(crate) fn forward_request<S: Source, K: Sink>(
    pipe: &mut Pipe,
    view: &View,
    source: &mut S,
    sink: &mut K,
) -> Result<(), Fault>
    requires { Countable (ends pipe.old (S.stream source.old) (K.stream sink.old)) }
    ensures ok { OnOk result ((used : List ℕ) × (text : List ℕ) × messages.IsForwarded (unnamed Persistence.Close) view.now used text
        × Moves (ends pipe.old (S.stream source.old) (K.stream sink.old)) (ends pipe.new (S.stream source.new) (K.stream sink.new)) used text) }
    ensures empty { OnOk result (pipe.new.outbox ≡ []) }
    ensures unread { ¬ (WantsBody view.now pipe.old.inbox) → S.stream source.new ≡ S.stream source.old }
    ensures err { IfErr result (λ fault. (used : List ℕ) × (text : List ℕ) × (part : messages.PartOfForwarded (unnamed Persistence.Close) view.now used text)
        × (fails : Fails (ends pipe.old (S.stream source.old) (K.stream sink.old)) (ends pipe.new (S.stream source.new) (K.stream sink.new)) used text
        (messages.LacksForwarded view.now) (WantsBody view.now) fault)
        × (fault ≡ Fault.Framing → HoldsBack (ends pipe.old (S.stream source.old) (K.stream sink.old)) (ends pipe.new (S.stream source.new) (K.stream sink.new))
        text)
        × (fault ≡ Fault.Read → HandsRequest part fails.rest)) }
{
    let Some(framing) = request_framing(view) else {
        return Err(Fault::Framing);
    };
    let added = Added {
        asks: Persistence::Close,
        client: b"",
    };
    put_request(pipe, sink, view, framing, added)?;
    pipe.forward_body(source, sink, framing, true)?;
    send(pipe, sink)?;
    Ok(())
}

/// Hands on the answer to a request, with its interim heads, and writes all of it.
pub(crate) fn forward_answer<S: Source, K: Sink>(
    pipe: &mut Pipe,
    alloc: Global,
    view: &View,
    source: &mut S,
    sink: &mut K,
) -> Result<(), Fault>
    requires { Countable (ends pipe.old (S.stream source.old) (K.stream sink.old)) }
    ensures ok { OnOk result ((used : List ℕ) × (text : List ℕ)
        × (answered : messages.IsAnswered Persistence.Close view.now.method (framed_for view.now.version) used text)
        × Moves (ends pipe.old (S.stream source.old) (K.stream sink.old)) (ends pipe.new (S.stream source.new) (K.stream sink.new)) used text
        × (answered.plan.body ≡ Framing.ToEnd → IsAtEnd (S.stream source.new).bytes)
        × (answered.plan.body ≡ Framing.ToEnd → pipe.new.inbox ≡ [])) }
    ensures empty { OnOk result (pipe.new.outbox ≡ []) }
    ensures err { IfErr result (λ fault. (used : List ℕ) × (text : List ℕ)
        × (part : messages.PartOfAnswered Persistence.Close view.now.method (framed_for view.now.version) used text)
        × (fails : Fails (ends pipe.old (S.stream source.old) (K.stream sink.old)) (ends pipe.new (S.stream source.new) (K.stream sink.new)) used text
        (messages.LacksAnswer view.now.method) (WantsAnswer view.now.method) fault)
        × (fault ≡ Fault.Framing → pipe.old.inbox ≡ [] → pipe.old.outbox ≡ []
        → HoldsHead (S.stream source.old) (S.stream source.new) (K.stream sink.old) (K.stream sink.new) part)
        × (fault ≡ Fault.Read → HandsAnswer part fails.rest)) }
{
    let planned = read_answer(pipe, alloc, view, source, sink)?;
    forward_planned(pipe, &planned, is_framed(view.version()), source, sink)
}

// Hands on the answer whose head was read, and writes all of it.
fn forward_planned<S: Source, K: Sink>(
    pipe: &mut Pipe,
    planned: &Planned,
    framed: bool,
    source: &mut S,
    sink: &mut K,
) -> Result<(), Fault>
    requires { Countable (ends pipe.old (S.stream source.old) (K.stream sink.old)) }
    ensures ok { OnOk result ((body : List ℕ) × (sent_on : List ℕ) × IsBody planned.now.plan.body framed body sent_on
        × Moves (ends pipe.old (S.stream source.old) (K.stream sink.old)) (ends pipe.new (S.stream source.new) (K.stream sink.new)) body
        (answer_text Persistence.Close framed planned.now.head planned.now.plan ++ sent_on)
        × (planned.now.plan.body ≡ Framing.ToEnd → IsAtEnd (S.stream source.new).bytes)
        × (planned.now.plan.body ≡ Framing.ToEnd → pipe.new.inbox ≡ [])) }
    ensures empty { OnOk result (pipe.new.outbox ≡ []) }
    ensures unread { ¬ (IsUnfinished planned.now.plan.body pipe.old.inbox) → S.stream source.new ≡ S.stream source.old }
    ensures err { IfErr result (λ fault. (body : List ℕ) × (sent_on : List ℕ) × PartOfBody planned.now.plan.body framed body sent_on
        × (fails : Fails (ends pipe.old (S.stream source.old) (K.stream sink.old)) (ends pipe.new (S.stream source.new) (K.stream sink.new)) body
        (answer_text Persistence.Close framed planned.now.head planned.now.plan ++ sent_on) (messages.NoBody planned.now.plan.body)
        (IsUnfinished planned.now.plan.body) fault)
        × (fault ≡ Fault.Framing → HoldsBack (ends pipe.old (S.stream source.old) (K.stream sink.old)) (ends pipe.new (S.stream source.new) (K.stream sink.new))
        (answer_text Persistence.Close framed planned.now.head planned.now.plan ++ sent_on))
        × (fault ≡ Fault.Read → IsSent planned.now.plan.body framed (body ++ fails.rest) sent_on)) }
{
    let plan = planned.plan;
    let wording = Wording {
        plan,
        framed,
        says: Persistence::Close,
    };
    put_answer(pipe, sink, &planned.head, wording)?;
    pipe.forward_body(source, sink, plan.body, framed)?;
    send(pipe, sink)?;
    Ok(())
}

// Reads the answer's head, and hands on the interim heads before it.
fn read_answer<S: Source, K: Sink>(
    pipe: &mut Pipe,
    alloc: Global,
    view: &View,
    source: &mut S,
    sink: &mut K,
) -> Result<Planned, Fault>
    requires { Countable (ends pipe.old (S.stream source.old) (K.stream sink.old)) }
    ensures ok { IfOk result (λ planned. (hs : List ResponseHead) × (h : ResponseHead) × messages.AreInterims view.now.method hs
        × messages.IsFinal view.now.method h planned.plan
        × (planned.head ≡ answer_of h)
        × Moves (ends pipe.old (S.stream source.old) (K.stream sink.old)) (ends pipe.new (S.stream source.new) (K.stream sink.new))
        (messages.print_heads hs ++ print_response h) (messages.interims_text (framed_for view.now.version) hs)) }
    ensures empty { OnOk result (pipe.old.outbox ≡ [] → pipe.new.outbox ≡ []) }
    ensures err { IfErr result (λ fault. (hs : List ResponseHead) × messages.AreInterims view.now.method hs
        × (fails : Fails (ends pipe.old (S.stream source.old) (K.stream sink.old)) (ends pipe.new (S.stream source.new) (K.stream sink.new))
        (messages.print_heads hs) (messages.interims_text (framed_for view.now.version) hs) (messages.LacksAnswer view.now.method) (WantsAnswer view.now.method) fault)
        × (fault ≡ Fault.Framing → pipe.old.outbox ≡ []
        → Wrote (K.stream sink.old) (K.stream sink.new) (messages.interims_text (framed_for view.now.version) hs))
        × (fault ≡ Fault.Read → HasNoAnswer fails.rest)) }
{
    let framed = is_framed(view.version());
    let mut count = 0;
    'heads: loop {
        match see_head(alloc, view.method(), pipe.held(), count) {
            Seen::Final(head, len, plan) => {
                pipe.consume(len);
                return Ok(Planned { head, plan });
            }
            Seen::Interim(head, len) => {
                pipe.consume(len);
                forward_before(pipe, sink, head, framed)?;
                count += 1;
            }
            Seen::Refused(fault) => return Err(fault),
            Seen::More => {
                let came = pipe.fill(source)?;
                if came == 0 {
                    return Err(Fault::Read);
                }
            }
        }
    }
}

// Takes the head by value, so that nothing of it is left at the exits of the caller's loop: these
// are proved faster.
fn forward_before<K: Sink>(
    pipe: &mut Pipe,
    sink: &mut K,
    head: AnswerHead,
    framed: bool,
) -> Result<(), BodyFault>
    requires { (K.stream sink.old).calls + pipe.old.turns < 2 ^ 64 }
    ensures ok { OnOk result (Sends pipe.old pipe.new (K.stream sink.old) (K.stream sink.new) (interim_text framed head)) }
    ensures empty { OnOk result (pipe.new.outbox ≡ []) }
    ensures err { IfErr result (Halts pipe.old pipe.new (K.stream sink.old) (K.stream sink.new) (interim_text framed head)) }
{
    forward_interim(pipe, sink, &head, framed)
}
