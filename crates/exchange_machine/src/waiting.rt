ghost use Rattle.std.specs.Prelude.{◌≡◌, false};
ghost use Rattle.exchange_machine.specs.Histories.{ExchangeHistory, granted};
ghost use Rattle.exchange_machine.specs.Reasons.{Reason};
ghost use Rattle.exchange_machine.specs.Stages as stages;
ghost use Rattle.http_texts.specs.Replies.{refusal_text};

use crate::dialing::Dialing;
use crate::telling::Telling;
use grant_board::Pass;
use http_bodies::Framing;
use http_texts::Code;
use req_view::View;

/// A request whose head was read, and the bytes after it.
#[derive(Drop)]
pub struct Asked {
    pub(crate) view: View,
    pub(crate) framing: Framing,
    pub(crate) held: Vec<u8>,
}

/// A request that waits for a pass. Nothing more is read but the end of the client's input.
#[derive(Drop)]
pub struct Waiting {
    pub(crate) asked: Asked,
}

impl Waiting {
    /// Returns its request.
    pub fn view(&self) -> &View
        ensures { result.now ≡ self.now.asked.view }
    {
        &self.asked.view
    }

    /// Returns its request, and the bytes after the head.
    pub fn parts(self) -> (View, Vec<u8>)
        ensures view { result.0 ≡ self.asked.view }
        ensures behind { result.1.items ≡ self.asked.held.items }
    {
        let Waiting { asked } = self;
        (asked.view, asked.held)
    }

    /// A pass comes.
    pub fn grant(self, pass: Pass) -> Dialing
        ensures dials { (h : ExchangeHistory) → stages.IsWaiting self h → stages.IsDialing result (granted h pass) }
        ensures pass { result.pass ≡ pass }
        ensures same { (result.waiting ≡ self) × (result.reached ≡ false) }
    {
        Dialing {
            waiting: self,
            pass,
            reached: false,
        }
    }

    /// No pass comes, for this reason.
    pub fn refuse(self, code: Code) -> Telling
        ensures told { result.rest.now ≡ refusal_text code }
        ensures tells { (h : ExchangeHistory) → stages.IsWaiting self h → Reason h.signs self.asked.view self.asked.held.items h.server_in code → stages.IsTelling result h }
    {
        Telling::of(code)
    }
}
