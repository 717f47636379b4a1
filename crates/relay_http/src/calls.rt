ghost use Rattle.std.specs.Prelude.{◌≡◌, ◌≢◌, ◌≤◌, ℕ, List, [], None, Err, IfOk, OnOk, IfErr, OnErr, IsSome, Some, IsTrue, IsFalse, false, true, Option, ◌<◌, length};
ghost use Rattle.std.specs.Io.KnownBytes.{Appends, Keeps};
ghost use Rattle.httparse.specs.Grammar.{RequestHead, print_request};
ghost use Rattle.http_bodies.specs.Steps.{LacksNothing};
ghost use Rattle.relay_http.specs.Calls.{Forwards, FailsToForward, Answers, FailsToAnswer};
ghost use Rattle.relay_http.specs.Failures.{Conveys, Misses, NoCause, WrotePrefix};
ghost use Rattle.http_texts.specs.Framings as framings;
ghost use Rattle.http_texts.specs.Heads.{IsRequest, LacksRequest};
ghost use Rattle.http_texts.specs.Replies.{leave_text, refusal_text};
ghost use Rattle.relay_http.specs.States as states;
ghost use Rattle.relay_http.specs.States.{IsAtOrFailed, Serves};
ghost use Rattle.relay_http.specs.Wants.{WantsBody};
ghost use Rattle.req_view.specs.Heads.{HasNoHead};
ghost use Rattle.req_view.specs.Request.{request_of};

use crate::closing::Closing;
use crate::exchange::{Exchange, Stage};
use base_streams::Counted;
use grant_board::Pass;
use http_texts::{Code, Fault};
use req_view::View;
use std::alloc::Global;
use std::io::{Read, Write};

// Each call reads the number of turns that are left, so the proof knows that they can be counted.
impl Exchange {
    /// Reads the request's head (RFC 9112, sections 2 to 5). Bytes after it from the same reads
    /// are held. `O(n)` for each read.
    ///
    /// Faults: `Head` once the bytes can't become a head, `Framing` where the head's framing is
    /// unsound, `Read` where a read fails or the input ends before the head does, `Turns`, and
    /// `NoMemory` where memory for the head is refused. After a fault all bytes that were held and
    /// read are held.
    pub fn read_request<R: Read>(&mut self, alloc: Global, reader: &mut R) -> Result<View, Fault>
        requires { IsAtOrFailed Stage.New self.old }
        ensures ok { IfOk result (λ view. (h : RequestHead) × IsRequest h × (view ≡ request_of h) × IsSome (framings.request_framing view)
            × ((w : Option (List ℕ))
            → Conveys self.old.pipe.inbox self.new.pipe.inbox (R.remaining reader.old) (R.remaining reader.new) w w (print_request h) [])) }
        ensures asked { OnOk result (self.new.stage ≡ Stage.Asked) }
        ensures closed { self.old.stage ≡ Stage.Failed → result ≡ Err Fault.Closed }
        ensures untouched { self.old.stage ≡ Stage.Failed → (self.new ≡ self.old) × (R.remaining reader.new ≡ R.remaining reader.old) }
        ensures err { self.old.stage ≢ Stage.Failed → (w : Option (List ℕ))
            → IfErr result (Misses self.old.pipe.inbox (R.remaining reader.old) (R.remaining reader.new) w w [] [] LacksRequest HasNoHead) }
        ensures kept { (w : Option (List ℕ))
            → OnErr result (Conveys self.old.pipe.inbox self.new.pipe.inbox (R.remaining reader.old) (R.remaining reader.new) w w [] []) }
        ensures failed { OnErr result (self.new.stage ≡ Stage.Failed) }
        ensures turns { self.new.pipe.turns ≤ self.old.pipe.turns }
        ensures spent { result ≡ Err Fault.Turns → self.new.pipe.turns ≡ 0 }
        ensures most { self.new.most ≡ self.old.most }
        ensures begun { self.new.begun ≡ self.old.begun }
        ensures unwritten { IfErr result (λ fault. fault ≢ Fault.Write) }
        ensures closes { self.old.stage ≢ Stage.Failed → IfErr result (λ fault. self.new.closing ≡ Some (Closing.Reading fault)) }
        ensures unclosed { OnOk result (self.new.closing ≡ self.old.closing) }
        ensures refused { self.new.refused ≡ self.old.refused }
    {
        let _turns = self.turns();
        let mut source = Counted::new(reader);
        self.read_request_from(alloc, &mut source)
    }

    /// Hands the request on to the server: its head, the held bytes, and the rest of its body (RFC
    /// 9112, sections 6 and 7). The pass must be for a slot at a server.
    ///
    /// Faults: `Framing` once the bytes can't be such a body, `Read`, `Write` and `Turns`. After a
    /// fault no bytes are held. It allocates nothing.
    pub fn forward<R: Read, W: Write>(
        &mut self,
        pass: &Pass,
        view: &View,
        reader: &mut R,
        writer: &mut W,
    ) -> Result<(), Fault>
        requires ready { IsAtOrFailed Stage.Asked self.old }
        requires serves { Serves pass.now.verdict }
        ensures ok { OnOk result (Forwards view.now self.old.pipe.inbox self.new.pipe.inbox (R.remaining reader.old) (R.remaining reader.new)
            (W.contents writer.old) (W.contents writer.new)) }
        ensures forwarded { OnOk result (self.new.stage ≡ states.forwarded_on pass.now) }
        ensures closed { self.old.stage ≡ Stage.Failed → result ≡ Err Fault.Closed }
        ensures untouched { self.old.stage ≡ Stage.Failed
            → (self.new ≡ self.old) × (R.remaining reader.new ≡ R.remaining reader.old) × (W.contents writer.new ≡ W.contents writer.old) }
        ensures err { self.old.stage ≢ Stage.Failed
            → IfErr result (FailsToForward view.now self.old.pipe.inbox (R.remaining reader.old) (R.remaining reader.new) (W.contents writer.old)
            (W.contents writer.new)) }
        ensures held { self.old.stage ≢ Stage.Failed → OnErr result (self.new.pipe.inbox ≡ []) }
        ensures unread { ¬ (WantsBody view.now self.old.pipe.inbox) → R.remaining reader.new ≡ R.remaining reader.old }
        ensures failed { OnErr result (self.new.stage ≡ Stage.Failed) }
        ensures turns { self.new.pipe.turns ≤ self.old.pipe.turns }
        ensures spent { result ≡ Err Fault.Turns → self.new.pipe.turns ≡ 0 }
        ensures most { self.new.most ≡ self.old.most }
        ensures begun { self.new.begun ≡ self.old.begun }
        ensures closes { self.old.stage ≢ Stage.Failed → IfErr result (λ fault. self.new.closing ≡ Some (Closing.Forwarding fault)) }
        ensures unclosed { OnOk result (self.new.closing ≡ self.old.closing) }
        ensures refused { self.new.refused ≡ self.old.refused }
    {
        let _turns = self.turns();
        let mut source = Counted::new(reader);
        let mut sink = Counted::new(writer);
        self.forward_between(pass, view, &mut source, &mut sink)
    }

    /// Sends the `100` to a client that waits for it before it sends its body (RFC 9110, section
    /// 10.1.1): 25 bytes, which don't count as begun.
    ///
    /// Faults: `Write` and `Turns`. It allocates nothing.
    pub fn go_on<W: Write>(&mut self, view: &View, writer: &mut W) -> Result<(), Fault>
        requires { IsAtOrFailed Stage.Asked self.old }
        ensures ok { (r : Option (List ℕ))
            → OnOk result (Conveys self.old.pipe.inbox self.new.pipe.inbox r r (W.contents writer.old) (W.contents writer.new) [] (leave_text view.now)) }
        ensures asked { OnOk result (self.new.stage ≡ Stage.Asked) }
        ensures closed { self.old.stage ≡ Stage.Failed → result ≡ Err Fault.Closed }
        ensures untouched { self.old.stage ≡ Stage.Failed → (self.new ≡ self.old) × (W.contents writer.new ≡ W.contents writer.old) }
        ensures err { self.old.stage ≢ Stage.Failed → (r : Option (List ℕ))
            → IfErr result (Misses self.old.pipe.inbox r r (W.contents writer.old) (W.contents writer.new) [] (leave_text view.now) NoCause LacksNothing) }
        ensures unread { self.old.stage ≢ Stage.Failed → IfErr result (λ fault. fault ≢ Fault.Read) }
        ensures held { self.new.pipe.inbox ≡ self.old.pipe.inbox }
        ensures failed { OnErr result (self.new.stage ≡ Stage.Failed) }
        ensures turns { self.new.pipe.turns ≤ self.old.pipe.turns }
        ensures spent { result ≡ Err Fault.Turns → self.new.pipe.turns ≡ 0 }
        ensures most { self.new.most ≡ self.old.most }
        ensures begun { self.new.begun ≡ self.old.begun }
        ensures closes { self.old.stage ≢ Stage.Failed → IfErr result (λ fault. self.new.closing ≡ Some (Closing.Leaving fault)) }
        ensures unclosed { OnOk result (self.new.closing ≡ self.old.closing) }
        ensures refused { self.new.refused ≡ self.old.refused }
    {
        let _turns = self.turns();
        let mut sink = Counted::new(writer);
        self.go_on_to(view, &mut sink)
    }

    /// Hands the server's answer on to the client: at most eight interim heads, its own head, and
    /// its body (RFC 9110, section 15; RFC 9112, sections 6 and 7). The pass has the ticket and the
    /// verdict of the one under which the request was handed on.
    ///
    /// Faults: `Head` once the bytes can't become a head, `Framing` where a head's framing is
    /// unsound or it is the ninth interim head, or once the bytes after it can't be its body,
    /// `Read`, `Write`, `Turns`, and `NoMemory` where memory for a whole head is refused. After a
    /// fault no bytes are held.
    pub fn answer<R: Read, W: Write>(
        &mut self,
        alloc: Global,
        pass: &Pass,
        view: &View,
        reader: &mut R,
        writer: &mut W,
    ) -> Result<(), Fault>
        requires ready { IsAtOrFailed (states.forwarded_on pass.now) self.old }
        requires serves { Serves pass.now.verdict }
        ensures ok { OnOk result (Answers view.now self.new.pipe.inbox (R.remaining reader.old) (R.remaining reader.new) (W.contents writer.old)
            (W.contents writer.new)) }
        ensures answered { OnOk result (self.new.stage ≡ Stage.Answered) }
        ensures closed { self.old.stage ≡ Stage.Failed → result ≡ Err Fault.Closed }
        ensures untouched { self.old.stage ≡ Stage.Failed
            → (self.new ≡ self.old) × (R.remaining reader.new ≡ R.remaining reader.old) × (W.contents writer.new ≡ W.contents writer.old) }
        ensures err { self.old.stage ≢ Stage.Failed
            → IfErr result (FailsToAnswer view.now (R.remaining reader.old) (R.remaining reader.new) (W.contents writer.old) (W.contents writer.new)) }
        ensures held { self.old.stage ≢ Stage.Failed → OnErr result (self.new.pipe.inbox ≡ []) }
        ensures failed { OnErr result (self.new.stage ≡ Stage.Failed) }
        ensures turns { self.new.pipe.turns ≤ self.old.pipe.turns }
        ensures spent { result ≡ Err Fault.Turns → self.new.pipe.turns ≡ 0 }
        ensures most { self.new.most ≡ self.old.most }
        ensures begun { OnOk result (IsTrue self.new.begun) }
        ensures stays { IsTrue self.old.begun → IsTrue self.new.begun }
        ensures silent { self.old.stage ≢ Stage.Failed → IsFalse self.new.begun → Keeps (W.contents writer.old) (W.contents writer.new) }
        ensures rose { self.old.stage ≢ Stage.Failed → IsFalse self.old.begun → IsTrue self.new.begun
            → (front : List ℕ) × (0 < length front) × Appends (W.contents writer.old) (W.contents writer.new) front }
        ensures closes { self.old.stage ≢ Stage.Failed → IfErr result (λ fault. self.new.closing ≡ Some (states.closed_answer self.new.begun fault)) }
        ensures unclosed { OnOk result (self.new.closing ≡ self.old.closing) }
        ensures refused { self.new.refused ≡ self.old.refused }
    {
        let _turns = self.turns();
        let mut source = Counted::new(reader);
        let mut sink = Counted::new(writer);
        self.answer_between(alloc, pass, view, &mut source, &mut sink)
    }

    /// Tells the client why there is no answer, by at most as many writes as the text has bytes.
    /// The exchange is over then, and holds no bytes.
    ///
    /// Faults: `Write`, and `Closed` where it was asked for a refusal before: nothing is written
    /// then, and nothing changes.
    pub fn refuse<W: Write>(&mut self, code: Code, writer: &mut W) -> Result<(), Fault>
        requires { self.old.begun ≡ false }
        ensures ok { OnOk result (Appends (W.contents writer.old) (W.contents writer.new) (refusal_text code)) }
        ensures closed { IsSome self.old.refused → result ≡ Err Fault.Closed }
        ensures untouched { IsSome self.old.refused → (self.new ≡ self.old) × (W.contents writer.new ≡ W.contents writer.old) }
        ensures err { self.old.refused ≡ None
            → IfErr result (λ fault. (fault ≡ Fault.Write) × WrotePrefix (W.contents writer.old) (W.contents writer.new) (refusal_text code)) }
        ensures held { self.old.refused ≡ None → self.new.pipe.inbox ≡ [] }
        ensures stage { self.new.stage ≡ Stage.Failed }
        ensures turns { self.old.refused ≡ None → self.new.pipe.turns ≤ length (refusal_text code) }
        ensures most { self.new.most ≡ self.old.most }
        ensures silent { IsFalse self.new.begun → Keeps (W.contents writer.old) (W.contents writer.new) }
        ensures rose { IsTrue self.new.begun → (front : List ℕ) × (0 < length front) × Appends (W.contents writer.old) (W.contents writer.new) front }
        ensures closing { self.new.closing ≡ self.old.closing }
        ensures refused { self.old.refused ≡ None → self.new.refused ≡ Some code }
        ensures reached { OnOk result (self.new.reached ≡ true) }
        ensures unreached { self.old.refused ≡ None → OnErr result (self.new.reached ≡ false) }
    {
        let mut sink = Counted::new(writer);
        self.refuse_to(code, &mut sink)
    }
}
