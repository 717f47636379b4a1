ghost use Rattle.std.specs.Prelude.{◌≡◌, ◌≢◌, ◌⊎◌, ◌+◌, ◌<◌, ℕ, List, [], length, ◌≤◌, true, false, IfOk, OnOk, IfErr};
ghost use Rattle.std.specs.Io.KnownBytes.{IsAtEnd};
ghost use Rattle.http_bodies.specs.Steps.{ends, Countable, Moves, Breaks, HoldsBack, LacksNothing, IsAll, AsksAtNeed};
ghost use Rattle.http_bodies.specs.Framings.{IsBody, LacksBody, IsUnfinished};
ghost use Rattle.http_bodies.specs.Runs.{IsTaken};

use crate::coding::Coding;
use crate::fault::Fault;
use crate::framing::Framing;
use crate::outbox::OUTBOX_BYTES;
use crate::pipe::Pipe;
use base_streams::{Sink, Source};

impl Pipe {
    /// Hands on a body. A chunked body is written in chunks, or for an HTTP/1.0 client as its data
    /// alone. The last bytes may still wait in the pipe.
    pub fn forward_body<S: Source, K: Sink>(
        &mut self,
        source: &mut S,
        sink: &mut K,
        framing: Framing,
        framed: bool,
    ) -> Result<(), Fault>
        requires { Countable (ends self.old (S.stream source.old) (K.stream sink.old)) }
        ensures ok { OnOk result ((used : List ℕ) × (text : List ℕ) × IsBody framing framed used text
            × Moves (ends self.old (S.stream source.old) (K.stream sink.old)) (ends self.new (S.stream source.new) (K.stream sink.new)) used text
            × HoldsBack (ends self.old (S.stream source.old) (K.stream sink.old)) (ends self.new (S.stream source.new) (K.stream sink.new)) text) }
        ensures end { framing ≡ Framing.ToEnd → OnOk result (IsAtEnd (S.stream source.new).bytes) }
        ensures all { framing ≡ Framing.ToEnd → OnOk result (self.new.inbox ≡ []) }
        ensures unread { ¬ (IsUnfinished framing self.old.inbox) → S.stream source.new ≡ S.stream source.old }
        ensures asked { AsksAtNeed (S.stream source.old) (S.stream source.new) self.old.inbox (IsUnfinished framing) }
        ensures err { IfErr result (λ fault. (used : List ℕ) × (text : List ℕ) × IsTaken framing framed used text
            × Breaks (ends self.old (S.stream source.old) (K.stream sink.old)) (ends self.new (S.stream source.new) (K.stream sink.new)) used text (LacksBody framing) (IsUnfinished framing) fault
            × (fault ≡ Fault.Framing → HoldsBack (ends self.old (S.stream source.old) (K.stream sink.old)) (ends self.new (S.stream source.new) (K.stream sink.new)) text)) }

        // A read that fails, or meets the end too early, comes after all held bytes were used and all their text was written.
        ensures told { IfErr result (λ fault. fault ≡ Fault.Read → (self.new.inbox ≡ []) × (self.new.outbox ≡ [])) }
    {
        let mut coding = Coding::new(framing, framed);
        'forwarding: loop {
            let whole = self.feed(&mut coding)?;
            if whole {
                return Ok(());
            }
            let more = self.advance(source, sink)?;
            if !more {
                return ended(framing);
            }
        }
    }

    // Writes all that waits, and reads once where nothing is held. Returns false at the end of the input.
    fn advance<S: Source, K: Sink>(&mut self, source: &mut S, sink: &mut K) -> Result<bool, Fault>
        requires some { (self.old.inbox ≡ []) ⊎ (OUTBOX_BYTES < length self.old.outbox + 18) }
        requires countable { Countable (ends self.old (S.stream source.old) (K.stream sink.old)) }
        ensures ok { OnOk result (Moves (ends self.old (S.stream source.old) (K.stream sink.old)) (ends self.new (S.stream source.new) (K.stream sink.new)) [] []) }
        ensures spent { OnOk result (self.new.turns < self.old.turns) }
        ensures read { self.old.inbox ≡ [] → OnOk result ((S.stream source.old).calls < (S.stream source.new).calls) }
        ensures unread { self.old.inbox ≢ [] → S.stream source.new ≡ S.stream source.old }
        ensures once { (S.stream source.new).calls ≤ (S.stream source.old).calls + 1 }
        ensures brought { self.old.inbox ≡ [] → IfOk result (λ more. more ≡ true → 0 < length self.new.inbox) }
        ensures end { IfOk result (λ more. more ≡ false → IsAtEnd (S.stream source.new).bytes) }
        ensures none { IfOk result (λ more. more ≡ false → self.new.inbox ≡ []) }
        ensures err { IfErr result (Breaks (ends self.old (S.stream source.old) (K.stream sink.old)) (ends self.new (S.stream source.new) (K.stream sink.new)) [] [] LacksNothing (IsAll [])) }
        ensures empty { OnOk result (self.new.outbox ≡ []) }
        ensures told { IfErr result (λ fault. fault ≡ Fault.Read → (self.new.inbox ≡ []) × (self.new.outbox ≡ [])) }
    {
        let is_hungry = self.held().is_empty();
        self.flush(sink)?;
        if !is_hungry {
            return Ok(true);
        }
        let count = self.fill(source)?;
        Ok(0 < count)
    }
}

// What it means for the body that the input ended.
fn ended(framing: Framing) -> Result<(), Fault>
    ensures ok { OnOk result (framing ≡ Framing.ToEnd) }
    ensures err { IfErr result (λ fault. (fault ≡ Fault.Read) × (framing ≢ Framing.ToEnd)) }
{
    match framing {
        Framing::ToEnd => Ok(()),
        Framing::Empty | Framing::Length(_) | Framing::Chunked => Err(Fault::Read),
    }
}
