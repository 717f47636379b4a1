ghost use Rattle.std.specs.Prelude.{◌≡◌};

use base_verdict::Verdict;
use std::marker::Model;

/// The right to act on one verdict. It has no `Drop`: a pass that was taken has to be posted.
/// Contracts see its place, ticket and verdict.
pub struct Pass {
    pub(crate) place: usize,
    pub(crate) ticket: u64,
    pub(crate) verdict: Verdict,
}

impl Model for Pass {
    ghost use Rattle.grant_board.specs.Views.{Grant, grant};

    ghost Value = { Grant };

    ghost view = { λ p. grant p.place p.ticket p.verdict };
}

impl Pass {
    pub fn place(&self) -> usize
        ensures { result ≡ self.now.place }
    {
        self.place
    }

    pub fn ticket(&self) -> u64
        ensures { result ≡ self.now.ticket }
    {
        self.ticket
    }

    pub fn verdict(&self) -> Verdict
        ensures { result ≡ self.now.verdict }
    {
        self.verdict
    }
}

/// The answer to a seat that asked for a ticket.
pub enum Taking {
    /// The seat has the pass.
    Taken(Pass),
    /// The ticket isn't offered, or another seat was faster.
    NotYet,
}
