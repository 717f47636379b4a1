ghost use Rattle.std.specs.Prelude.{◌≡◌, [], false};
ghost use Rattle.grant_board.specs.Views.{Grant};
ghost use Rattle.relay_http.specs.Asides.{aside_stage};
ghost use Rattle.relay_http.specs.States as states;
ghost use Rattle.relay_http.specs.States.{IsFresh, IsOpen};

use crate::exchange::{Exchange, Stage};
use base_verdict::Verdict;

/// What an exchange whose request was handed on keeps until the answer comes.
#[derive(Clone, Copy, Debug, PartialEq, Eq)]
pub struct Aside {
    ticket: u64,
    verdict: Verdict,
}

impl Exchange {
    /// Returns what another exchange needs to go on, where this one is renewed for other clients
    /// between the request and its answer.
    pub fn set_aside(&self) -> Aside
        requires forwarded { (pass : Grant) × (self.now.stage ≡ states.forwarded_on pass) }
        requires unbegun { self.now.begun ≡ false }
        ensures { aside_stage result ≡ self.now.stage }
    {
        match self.stage {
            Stage::Forwarded { ticket, verdict } => Aside { ticket, verdict },
            _ => unreachable!(),
        }
    }

    /// Continues in this new exchange one whose request was handed on elsewhere: it requires the
    /// same pass for the answer.
    pub fn resume(&mut self, aside: &Aside)
        requires fresh { IsFresh self.old.most self.old }
        ensures stage { self.new.stage ≡ aside_stage aside.now }
        ensures held { self.new.pipe.inbox ≡ [] }
        ensures turns { self.new.pipe.turns ≡ self.old.most }
        ensures most { self.new.most ≡ self.old.most }
        ensures begun { self.new.begun ≡ false }
        ensures unclosed { IsOpen self.new }
    {
        self.stage = Stage::Forwarded {
            ticket: aside.ticket,
            verdict: aside.verdict,
        };
    }
}
