ghost use Rattle.std.specs.Prelude.{◌≡◌, ◌≢◌, ◌+◌, ◌^◌, ◌<◌, ◌≤◌, ℕ, Bool, ◌||◌, nat_lt, List, [], Err, IfOk, OnOk, IfErr, OnErr, IsSome, Some, IsTrue, Option, ◌⊎◌};
ghost use Rattle.std.specs.Io.KnownBytes.{IsAtEnd};
ghost use Rattle.exchange_machine.specs.Requests.{MayCome};
ghost use Rattle.base_streams.specs.Streams.{Stream};
ghost use Rattle.httparse.specs.Grammar.{RequestHead, print_request};
ghost use Rattle.http_bodies.specs.Steps.{ends, Countable, HoldsBack, Moves, LacksNothing};
ghost use Rattle.relay_http.specs.Calls.{HoldsHead, HandsRequest, HandsAnswer};
ghost use Rattle.relay_http.specs.Failures.{Conveys, Fails, NoCause};
ghost use Rattle.relay_http.specs.Wants.{WantsBody, WantsAnswer};
ghost use Rattle.http_texts.specs.Framings as framings;
ghost use Rattle.http_texts.specs.Heads.{IsRequest, LacksRequest};
ghost use Rattle.http_texts.specs.Messages as messages;
ghost use Rattle.http_texts.specs.Replies.{leave_text};
ghost use Rattle.relay_http.specs.States as states;
ghost use Rattle.relay_http.specs.States.{IsAtOrFailed, Serves, emptied, Marks};
ghost use Rattle.http_texts.specs.Texts.{framed_for, unnamed};
ghost use Rattle.req_view.specs.Heads.{HasNoHead, Waits};
ghost use Rattle.req_view.specs.Request.{request_of};

use crate::asking::read_request;
use crate::closing::{Closing, closed_answer};
use crate::exchange::{Exchange, Stage};
use crate::leave::give_leave;
use crate::messages::{forward_answer, forward_request};
use base_streams::{Sink, Source};
use grant_board::Pass;
use http_bodies::Framing;
use http_texts::{Fault, Persistence};
use req_view::View;
use std::alloc::Global;

impl Exchange {
    /// `read_request` with a counting source.
    pub fn read_request_from<S: Source>(
        &mut self,
        alloc: Global,
        source: &mut S,
    ) -> Result<View, Fault>
        requires ready { IsAtOrFailed Stage.New self.old }
        requires countable { (S.stream source.old).calls + self.old.pipe.turns < 2 ^ 64 }
        ensures ok { IfOk result (λ view. (h : RequestHead) × IsRequest h × (view ≡ request_of h) × IsSome (framings.request_framing view)
            × ((w : Stream) → Moves (ends self.old.pipe (S.stream source.old) w) (ends self.new.pipe (S.stream source.new) w) (print_request h) [])) }
        ensures asked { OnOk result (self.new.stage ≡ Stage.Asked) }
        ensures closed { self.old.stage ≡ Stage.Failed → result ≡ Err Fault.Closed }
        ensures untouched { self.old.stage ≡ Stage.Failed → (self.new ≡ self.old) × (S.stream source.new ≡ S.stream source.old) }
        ensures err { self.old.stage ≢ Stage.Failed → (w : Stream)
            → IfErr result (Fails (ends self.old.pipe (S.stream source.old) w) (ends self.new.pipe (S.stream source.new) w) [] [] LacksRequest HasNoHead) }
        ensures kept { (w : Option (List ℕ))
            → OnErr result (Conveys self.old.pipe.inbox self.new.pipe.inbox (S.stream source.old).bytes (S.stream source.new).bytes w w [] []) }
        ensures failed { OnErr result (self.new.stage ≡ Stage.Failed) }
        ensures turns { self.new.pipe.turns ≤ self.old.pipe.turns }
        ensures spent { result ≡ Err Fault.Turns → self.new.pipe.turns ≡ 0 }
        ensures same_source { (S.stream source.new).name ≡ (S.stream source.old).name }
        ensures most { self.new.most ≡ self.old.most }
        ensures begun { self.new.begun ≡ self.old.begun }
        ensures unwritten { IfErr result (λ fault. fault ≢ Fault.Write) }
        ensures closes { self.old.stage ≢ Stage.Failed → IfErr result (λ fault. self.new.closing ≡ Some (Closing.Reading fault)) }
        ensures unclosed { OnOk result (self.new.closing ≡ self.old.closing) }
        ensures refused { self.new.refused ≡ self.old.refused }
        ensures needed { (S.stream source.new ≡ S.stream source.old) ⊎ MayCome Waits self.old.pipe.inbox }
    {
        if self.is_closed() {
            return Err(Fault::Closed);
        }
        match read_request(&mut self.pipe, alloc, source) {
            Ok(view) => {
                self.stage = Stage::Asked;
                Ok(view)
            }
            Err(fault) => {
                self.pipe.forget_waiting();
                self.stage = Stage::Failed;
                self.closing = Some(Closing::Reading(fault));
                Err(fault)
            }
        }
    }

    /// `go_on` with a counting sink.
    pub fn go_on_to<K: Sink>(&mut self, view: &View, sink: &mut K) -> Result<(), Fault>
        requires ready { IsAtOrFailed Stage.Asked self.old }
        requires countable { (K.stream sink.old).calls + self.old.pipe.turns < 2 ^ 64 }
        ensures ok { (s : Stream)
            → OnOk result (Moves (ends self.old.pipe s (K.stream sink.old)) (ends self.new.pipe s (K.stream sink.new)) [] (leave_text view.now)) }
        ensures asked { OnOk result (self.new.stage ≡ Stage.Asked) }
        ensures closed { self.old.stage ≡ Stage.Failed → result ≡ Err Fault.Closed }
        ensures untouched { self.old.stage ≡ Stage.Failed → (self.new ≡ self.old) × (K.stream sink.new ≡ K.stream sink.old) }
        ensures err { self.old.stage ≢ Stage.Failed → (s : Stream)
            → IfErr result (Fails (ends self.old.pipe s (K.stream sink.old)) (ends self.new.pipe s (K.stream sink.new)) [] (leave_text view.now) NoCause LacksNothing) }
        ensures unread { self.old.stage ≢ Stage.Failed → IfErr result (λ fault. fault ≢ Fault.Read) }
        ensures held { self.new.pipe.inbox ≡ self.old.pipe.inbox }
        ensures failed { OnErr result (self.new.stage ≡ Stage.Failed) }
        ensures turns { self.new.pipe.turns ≤ self.old.pipe.turns }
        ensures spent { result ≡ Err Fault.Turns → self.new.pipe.turns ≡ 0 }
        ensures same_sink { (K.stream sink.new).name ≡ (K.stream sink.old).name }
        ensures most { self.new.most ≡ self.old.most }
        ensures begun { self.new.begun ≡ self.old.begun }
        ensures closes { self.old.stage ≢ Stage.Failed → IfErr result (λ fault. self.new.closing ≡ Some (Closing.Leaving fault)) }
        ensures unclosed { OnOk result (self.new.closing ≡ self.old.closing) }
        ensures refused { self.new.refused ≡ self.old.refused }
    {
        if self.is_closed() {
            return Err(Fault::Closed);
        }
        match give_leave(&mut self.pipe, view, sink) {
            Ok(()) => Ok(()),
            Err(fault) => {
                self.pipe.forget_waiting();
                self.stage = Stage::Failed;
                self.closing = Some(Closing::Leaving(fault));
                Err(fault)
            }
        }
    }

    /// `forward` between a counting source and a counting sink. The exchange keeps the pass's ticket and verdict.
    pub fn forward_between<S: Source, K: Sink>(
        &mut self,
        pass: &Pass,
        view: &View,
        source: &mut S,
        sink: &mut K,
    ) -> Result<(), Fault>
        requires ready { IsAtOrFailed Stage.Asked self.old }
        requires serves { Serves pass.now.verdict }
        requires countable { Countable (ends self.old.pipe (S.stream source.old) (K.stream sink.old)) }
        ensures ok { OnOk result ((used : List ℕ) × (text : List ℕ) × messages.IsForwarded (unnamed Persistence.Close) view.now used text
            × Moves (ends self.old.pipe (S.stream source.old) (K.stream sink.old)) (ends self.new.pipe (S.stream source.new) (K.stream sink.new)) used text) }
        ensures forwarded { OnOk result (self.new.stage ≡ states.forwarded_on pass.now) }
        ensures closed { self.old.stage ≡ Stage.Failed → result ≡ Err Fault.Closed }
        ensures untouched { self.old.stage ≡ Stage.Failed
            → (self.new ≡ self.old) × (S.stream source.new ≡ S.stream source.old) × (K.stream sink.new ≡ K.stream sink.old) }
        ensures err { self.old.stage ≢ Stage.Failed
            → IfErr result (λ fault. (used : List ℕ) × (text : List ℕ) × (part : messages.PartOfForwarded (unnamed Persistence.Close) view.now used text)
            × (fails : Fails (ends self.old.pipe (S.stream source.old) (K.stream sink.old)) (ends self.new.pipe (S.stream source.new) (K.stream sink.new)) used text
            (messages.LacksForwarded view.now) (WantsBody view.now) fault)
            × (fault ≡ Fault.Framing → HoldsBack (ends self.old.pipe (S.stream source.old) (K.stream sink.old)) (ends self.new.pipe (S.stream source.new)
            (K.stream sink.new)) text)
            × (fault ≡ Fault.Read → HandsRequest part fails.rest)) }
        ensures held { self.old.stage ≢ Stage.Failed → OnErr result (self.new.pipe.inbox ≡ []) }
        ensures unread { ¬ (WantsBody view.now self.old.pipe.inbox) → S.stream source.new ≡ S.stream source.old }
        ensures failed { OnErr result (self.new.stage ≡ Stage.Failed) }
        ensures turns { self.new.pipe.turns ≤ self.old.pipe.turns }
        ensures spent { result ≡ Err Fault.Turns → self.new.pipe.turns ≡ 0 }
        ensures same_source { (S.stream source.new).name ≡ (S.stream source.old).name }
        ensures same_sink { (K.stream sink.new).name ≡ (K.stream sink.old).name }
        ensures most { self.new.most ≡ self.old.most }
        ensures begun { self.new.begun ≡ self.old.begun }
        ensures closes { self.old.stage ≢ Stage.Failed → IfErr result (λ fault. self.new.closing ≡ Some (Closing.Forwarding fault)) }
        ensures unclosed { OnOk result (self.new.closing ≡ self.old.closing) }
        ensures refused { self.new.refused ≡ self.old.refused }
    {
        if self.is_closed() {
            return Err(Fault::Closed);
        }
        match forward_request(&mut self.pipe, view, source, sink) {
            Ok(()) => {
                self.stage = forwarded_on(pass);
                Ok(())
            }
            Err(fault) => {
                self.pipe.forget_waiting();
                self.pipe.hold(b"");
                self.stage = Stage::Failed;
                self.closing = Some(Closing::Forwarding(fault));
                Err(fault)
            }
        }
    }

    /// `answer` between a counting source and a counting sink. What the client sent after its request isn't used.
    pub fn answer_between<S: Source, K: Sink>(
        &mut self,
        alloc: Global,
        pass: &Pass,
        view: &View,
        source: &mut S,
        sink: &mut K,
    ) -> Result<(), Fault>
        requires ready { IsAtOrFailed (states.forwarded_on pass.now) self.old }
        requires serves { Serves pass.now.verdict }
        requires countable { Countable (ends self.old.pipe (S.stream source.old) (K.stream sink.old)) }
        ensures ok { OnOk result ((used : List ℕ) × (text : List ℕ)
            × (answered : messages.IsAnswered Persistence.Close view.now.method (framed_for view.now.version) used text)
            × Moves (ends (emptied self.old.pipe) (S.stream source.old) (K.stream sink.old)) (ends self.new.pipe (S.stream source.new)
            (K.stream sink.new)) used text
            × (answered.plan.body ≡ Framing.ToEnd → IsAtEnd (S.stream source.new).bytes)
            × (answered.plan.body ≡ Framing.ToEnd → self.new.pipe.inbox ≡ [])) }
        ensures answered { OnOk result (self.new.stage ≡ Stage.Answered) }
        ensures closed { self.old.stage ≡ Stage.Failed → result ≡ Err Fault.Closed }
        ensures untouched { self.old.stage ≡ Stage.Failed
            → (self.new ≡ self.old) × (S.stream source.new ≡ S.stream source.old) × (K.stream sink.new ≡ K.stream sink.old) }
        ensures err { self.old.stage ≢ Stage.Failed → IfErr result (λ fault. (used : List ℕ) × (text : List ℕ)
            × (part : messages.PartOfAnswered Persistence.Close view.now.method (framed_for view.now.version) used text)
            × (fails : Fails (ends (emptied self.old.pipe) (S.stream source.old) (K.stream sink.old)) (ends self.new.pipe (S.stream source.new)
            (K.stream sink.new)) used text (messages.LacksAnswer view.now.method) (WantsAnswer view.now.method) fault)
            × (fault ≡ Fault.Framing → HoldsHead (S.stream source.old) (S.stream source.new) (K.stream sink.old) (K.stream sink.new) part)
            × (fault ≡ Fault.Read → HandsAnswer part fails.rest)) }
        ensures held { self.old.stage ≢ Stage.Failed → OnErr result (self.new.pipe.inbox ≡ []) }
        ensures failed { OnErr result (self.new.stage ≡ Stage.Failed) }
        ensures turns { self.new.pipe.turns ≤ self.old.pipe.turns }
        ensures spent { result ≡ Err Fault.Turns → self.new.pipe.turns ≡ 0 }
        ensures same_source { (S.stream source.new).name ≡ (S.stream source.old).name }
        ensures same_sink { (K.stream sink.new).name ≡ (K.stream sink.old).name }
        ensures most { self.new.most ≡ self.old.most }
        ensures marks { self.old.stage ≢ Stage.Failed → Marks (K.stream sink.old) (K.stream sink.new) self.old.begun self.new.begun }
        ensures begun { OnOk result (IsTrue self.new.begun) }
        ensures stays { IsTrue self.old.begun → IsTrue self.new.begun }
        ensures closes { self.old.stage ≢ Stage.Failed → IfErr result (λ fault. self.new.closing ≡ Some (states.closed_answer self.new.begun fault)) }
        ensures unclosed { OnOk result (self.new.closing ≡ self.old.closing) }
        ensures refused { self.new.refused ≡ self.old.refused }
    {
        if self.is_closed() {
            return Err(Fault::Closed);
        }
        self.pipe.hold(b"");
        let before = sink.successes();
        let result = forward_answer(&mut self.pipe, alloc, view, source, sink);
        self.begun = has_begun(self.begun, before, sink.successes());
        match result {
            Ok(()) => {
                self.stage = Stage::Answered;
                Ok(())
            }
            Err(fault) => {
                self.pipe.forget_waiting();
                self.pipe.hold(b"");
                self.stage = Stage::Failed;
                self.closing = Some(closed_answer(self.begun, fault));
                Err(fault)
            }
        }
    }
}

pub(crate) fn has_begun(begun: bool, before: u64, after: u64) -> bool
    ensures { result ≡ (begun || nat_lt before after) }
{
    begun || before < after
}

// Returns the stage of an exchange whose request was handed on under this pass.
fn forwarded_on(pass: &Pass) -> Stage
    ensures { result ≡ states.forwarded_on pass.now }
{
    Stage::Forwarded {
        ticket: pass.ticket(),
        verdict: pass.verdict(),
    }
}
