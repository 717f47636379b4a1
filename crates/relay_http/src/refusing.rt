ghost use Rattle.std.specs.Prelude.{◌≡◌, ◌≤◌, ◌<◌, ◌+◌, ◌^◌, length, [], false, true, None, Some, Err, OnOk, IfErr, OnErr, IsSome, IsTrue, ◌↔◌};
ghost use Rattle.http_bodies.specs.Texts.{Wrote, WritesFront};
ghost use Rattle.http_texts.specs.Replies.{refusal_text};
ghost use Rattle.relay_http.specs.States.{Marks};

use crate::exchange::{Exchange, Stage};
use crate::sending::send_text;
use crate::steps::has_begun;
use base_streams::Sink;
use http_bodies::Fault as BodyFault;
use http_texts::{Code, Fault};

impl Exchange {
    /// `refuse` with a counting sink.
    pub fn refuse_to<K: Sink>(&mut self, code: Code, sink: &mut K) -> Result<(), Fault>
        requires unbegun { self.old.begun ≡ false }
        requires countable { (K.stream sink.old).calls + length (refusal_text code) < 2 ^ 64 }
        ensures ok { OnOk result (Wrote (K.stream sink.old) (K.stream sink.new) (refusal_text code)) }
        ensures closed { IsSome self.old.refused → result ≡ Err Fault.Closed }
        ensures untouched { IsSome self.old.refused → (self.new ≡ self.old) × (K.stream sink.new ≡ K.stream sink.old) }
        ensures err { self.old.refused ≡ None → IfErr result (λ fault. (fault ≡ Fault.Write) × ((K.stream sink.new).failures ≡ (K.stream sink.old).failures + 1)
            × WritesFront (K.stream sink.old) (K.stream sink.new) (refusal_text code)) }
        ensures few { (K.stream sink.new).calls ≤ (K.stream sink.old).calls + length (refusal_text code) }
        ensures held { self.old.refused ≡ None → self.new.pipe.inbox ≡ [] }
        ensures stage { self.new.stage ≡ Stage.Failed }
        ensures turns { self.old.refused ≡ None → self.new.pipe.turns ≤ length (refusal_text code) }
        ensures spent { self.old.refused ≡ None → (K.stream sink.new).calls + self.new.pipe.turns ≡ (K.stream sink.old).calls + length (refusal_text code) }
        ensures same_sink { (K.stream sink.new).name ≡ (K.stream sink.old).name }
        ensures most { self.new.most ≡ self.old.most }
        ensures marks { Marks (K.stream sink.old) (K.stream sink.new) self.old.begun self.new.begun }
        ensures closing { self.new.closing ≡ self.old.closing }
        ensures refused { self.old.refused ≡ None → self.new.refused ≡ Some code }
        ensures reached { OnOk result (self.new.reached ≡ true) }
        ensures unreached { self.old.refused ≡ None → OnErr result (self.new.reached ≡ false) }
    {
        if self.refused.is_some() {
            return Err(Fault::Closed);
        }
        let text = code.text();
        // As many turns as bytes, of which each write takes one or more: when the turns end, the text is written.
        self.pipe.renew(text.len() as u64);
        let before = sink.successes();
        let result = send_text(&mut self.pipe, sink, text);
        self.begun = has_begun(self.begun, before, sink.successes());
        self.pipe.forget_waiting();
        self.stage = Stage::Failed;
        self.refused = Some(code);
        self.reached = true;
        if let Err(fault) = result {
            if is_failed_write(fault) {
                self.reached = false;
                return Err(Fault::Write);
            }
        }
        Ok(())
    }
}

fn is_failed_write(fault: BodyFault) -> bool
    ensures { IsTrue result ↔ (fault ≡ BodyFault.Write) }
{
    matches!(fault, BodyFault::Write)
}
