//! The heads that a server sends: they are found in its bytes, and handed on.

ghost use Rattle.std.specs.Prelude.{◌≡◌, ◌≢◌, ◌<◌, ◌+◌, ◌++◌, ◌⊎◌, ℕ, length, true, false, Some, IsSome};
ghost use Rattle.exchange_machine.specs.Changes.{HasHeaded, Uses};
ghost use Rattle.exchange_machine.specs.Histories.{ExchangeHistory};
ghost use Rattle.exchange_machine.specs.Reasons.{LacksAnswer, NoneFollows};
ghost use Rattle.exchange_machine.specs.Findings.{IsSeen, LacksHeadRoom};
ghost use Rattle.exchange_machine.specs.Stages as stages;
ghost use Rattle.http_bodies.specs.declared.outbox.TheConstants.{OUTBOX_BYTES};
ghost use Rattle.http_texts.specs.Framings.{answer_plan, is_interim};
ghost use Rattle.http_texts.specs.Persistences.{answer_says};
ghost use Rattle.http_texts.specs.Texts.{answer_text, framed_for, interim_text};
ghost use Rattle.req_view.specs.AnswerHeads.{SaysAnswer, WaitsForAnswer};

use crate::forwarding::Forwarding;
use crate::held::forget;
use crate::sides::Down;
use crate::texts::put_text;
use http_texts::{
    Fault, Plan, Role, Wording, answer_head_text, answer_says, fault_of, interim_head, is_framed,
    is_kept_by_server, role_of,
};
use req_view::{AnswerHead, Viewed, answer_head};
use std::alloc::Global;

/// The result of looking for a head of an answer.
#[derive(Clone, Copy, Debug, PartialEq, Eq)]
pub enum Headed {
    More,
    Interim,
    /// The answer's own head was handed on.
    Answer,
    /// There is no room for its text until more is sent.
    Full,
    /// Memory is short.
    Short,
    /// The bytes have no answer that is handed on.
    Refused,
}

/// What stands at the front of a server's bytes, after a number of interim heads.
#[derive(Drop)]
pub enum Seen {
    /// No whole head yet.
    More,
    /// An interim head, of this number of bytes.
    Interim(AnswerHead, usize),
    /// The answer's own head, of this number of bytes, and the plan for its body.
    Final(AnswerHead, usize, Plan),
    /// No head that is handed on, whatever follows, for this reason; or memory is short.
    Refused(Fault),
}

/// Looks for the next head of an answer to a request with this method. `O(n)`.
pub fn see_head(alloc: Global, method: &[u8], held: &[u8], count: u64) -> Seen
    ensures { IsSeen method.now count held.now result }
{
    match answer_head(alloc, held) {
        Viewed::More => Seen::More,
        Viewed::Refused(why) => Seen::Refused(fault_of(why)),
        Viewed::Whole(head, len) => match role_of(method, &head, count) {
            Role::Refused => Seen::Refused(Fault::Framing),
            Role::Interim => Seen::Interim(head, len),
            Role::Final(plan) => Seen::Final(head, len, plan),
        },
    }
}

impl Forwarding {
    /// Looks for a head in the held bytes, where a line has ended since the last look, and hands it
    /// on. Nothing else changes.
    pub fn read_head(&mut self, alloc: Global) -> Headed
        ensures passes { (h : ExchangeHistory) → stages.IsForwarding self.old h → stages.IsForwarding self.new h }
        ensures uses { Uses self.old self.new }
        ensures up { (self.new.up ≡ self.old.up) × (self.new.up_held ≡ self.old.up_held) }
        ensures stays { self.old.phase ≡ Down.Body → self.new.phase ≡ Down.Body }
        ensures body { result ≡ Headed.Answer → self.new.phase ≡ Down.Body }
        ensures heads { result ≢ Headed.Answer → self.new.phase ≢ Down.Body }
        ensures more { result ≡ Headed.More → self.new.looks ≡ false }
        ensures awaits { result ≡ Headed.More → self.old.looks ≡ true → WaitsForAnswer self.old.down_held.items }
        ensures looks { result ≢ Headed.More → self.new.looks ≡ self.old.looks }
        ensures interim { result ≡ Headed.Interim → (count : ℕ) × (self.old.phase ≡ Down.Heads count) × (self.new.phase ≡ Down.Heads (count + 1)) × (count < 8) }
        ensures headed { result ≡ Headed.Answer → (self.new ≡ self.old) ⊎ HasHeaded self.old self.new }
        ensures full { result ≡ Headed.Full → (count : ℕ) × (self.new.phase ≡ Down.Heads count) × LacksHeadRoom count self.new }
        ensures none { result ≡ Headed.Refused → (count : ℕ) × (self.new.phase ≡ Down.Heads count) × NoneFollows self.new.view.method count self.new.down_held.items }
        ensures refused { result ≡ Headed.Refused → (h : ExchangeHistory) → stages.IsForwarding self.old h → LacksAnswer self.new.view.method h.server_in }
    {
        let Down::Heads(count) = self.phase else {
            return Headed::Answer;
        };
        if !self.looks {
            return Headed::More;
        }
        match see_head(alloc, self.view.method(), self.down_held.as_slice(), count) {
            Seen::More => {
                self.looks = false;
                Headed::More
            }
            Seen::Interim(head, len) => self.forward_interim(alloc, &head, len, count),
            Seen::Final(head, len, plan) => self.forward_final(alloc, &head, len, plan),
            Seen::Refused(why) => headed_for(why),
        }
    }

    fn forward_interim(
        &mut self,
        alloc: Global,
        head: &AnswerHead,
        len: usize,
        count: u64,
    ) -> Headed
        requires looks { self.old.looks ≡ true }
        requires phase { self.old.phase ≡ Down.Heads count }
        requires says { SaysAnswer self.old.down_held.items head.now len }
        requires planned { IsSome (answer_plan self.old.view.method head.now) }
        requires interim { is_interim head.now.status ≡ true }
        requires few { count < 8 }
        ensures one { result ≡ Headed.Interim → self.new.phase ≡ Down.Heads (count + 1) }
        ensures answered { (result ≢ Headed.Refused) × (result ≢ Headed.More) × (result ≢ Headed.Answer) }
        ensures body { result ≡ Headed.Answer → self.new.phase ≡ Down.Body }
        ensures heads { result ≢ Headed.Answer → self.new.phase ≢ Down.Body }
        ensures passes { (h : ExchangeHistory) → stages.IsForwarding self.old h → stages.IsForwarding self.new h }
        ensures uses { Uses self.old self.new }
        ensures up { (self.new.up ≡ self.old.up) × (self.new.up_held ≡ self.old.up_held) }
        ensures looks { self.new.looks ≡ self.old.looks }
        ensures full { result ≡ Headed.Full → self.new ≡ self.old }
        ensures room { result ≡ Headed.Full → OUTBOX_BYTES < length (self.old.down.out ++ interim_text (framed_for self.old.view.version) head.now) }
    {
        let framed = is_framed(self.view.version());
        let Ok(text) = interim_head(alloc, head, framed) else {
            return Headed::Short;
        };
        if !put_text(&mut self.down, text.as_slice()) {
            return Headed::Full;
        }
        forget(&mut self.down_held, len);
        self.phase = Down::Heads(count + 1);
        Headed::Interim
    }

    fn forward_final(&mut self, alloc: Global, head: &AnswerHead, len: usize, plan: Plan) -> Headed
        requires phase { (count : ℕ) × (self.old.phase ≡ Down.Heads count) }
        requires says { SaysAnswer self.old.down_held.items head.now len }
        requires planned { answer_plan self.old.view.method head.now ≡ Some plan }
        requires last { is_interim head.now.status ≡ false }
        ensures headed { result ≡ Headed.Answer → HasHeaded self.old self.new }
        ensures answered { (result ≢ Headed.Refused) × (result ≢ Headed.More) × (result ≢ Headed.Interim) }
        ensures body { result ≡ Headed.Answer → self.new.phase ≡ Down.Body }
        ensures heads { result ≢ Headed.Answer → self.new.phase ≢ Down.Body }
        ensures passes { (h : ExchangeHistory) → stages.IsForwarding self.old h → stages.IsForwarding self.new h }
        ensures uses { Uses self.old self.new }
        ensures up { (self.new.up ≡ self.old.up) × (self.new.up_held ≡ self.old.up_held) }
        ensures looks { self.new.looks ≡ self.old.looks }
        ensures full { result ≡ Headed.Full → self.new ≡ self.old }
        ensures room { result ≡ Headed.Full → OUTBOX_BYTES < length (self.old.down.out ++ answer_text (answer_says self.old.willing self.old.view plan) (framed_for self.old.view.version) head.now plan) }
    {
        let framed = is_framed(self.view.version());
        let says = answer_says(self.willing, &self.view, plan);
        let wording = Wording { plan, framed, says };
        let Ok(text) = answer_head_text(alloc, head, wording) else {
            return Headed::Short;
        };
        if !put_text(&mut self.down, text.as_slice()) {
            return Headed::Full;
        }
        self.says = says;
        self.kept = is_kept_by_server(head, plan);
        self.down.begin(plan.body, framed);
        forget(&mut self.down_held, len);
        self.phase = Down::Body;
        Headed::Answer
    }
}

fn headed_for(why: Fault) -> Headed
    ensures memory { result ≡ Headed.Refused → why ≢ Fault.NoMemory }
    ensures unanswered { (result ≢ Headed.Answer) × (result ≢ Headed.More) × (result ≢ Headed.Interim) × (result ≢ Headed.Full) }
{
    if why == Fault::NoMemory {
        Headed::Short
    } else {
        Headed::Refused
    }
}
