//! The knowledge of a name's address.

ghost use Rattle.std.specs.Prelude.{◌≡◌, ◌↔◌, false, true, IsTrue};
ghost use Rattle.run_gate.specs.Answers.{address_in, answer_of};
ghost use Rattle.run_gate.specs.declared.answer.Answer.TheVariants as answers;

use std::net::SocketAddr;

/// The last answer for a name.
#[derive(Clone, Copy, Debug)]
pub(crate) enum Answer {
    /// There is none yet.
    Nothing,
    /// The name has no address, or the look-up failed.
    Failed,
    /// Its first address.
    At(SocketAddr),
}

/// The knowledge of a name's address, and what is still to be done for it.
#[derive(Drop)]
pub(crate) struct Lookup {
    answer: Answer,
    is_wanted: bool,
    is_over: bool,
}

impl Lookup {
    /// Makes the state of a name that is to be looked up for the first time.
    pub(crate) fn new() -> Lookup
        ensures { (result.answer ≡ answers.Nothing) × (result.is_wanted ≡ true) × (result.is_over ≡ false) }
    {
        Lookup {
            answer: Answer::Nothing,
            is_wanted: true,
            is_over: false,
        }
    }

    /// Asks for another look-up.
    pub(crate) fn want(&mut self)
        ensures { self.new ≡ record self.old { is_wanted = true } }
    {
        self.is_wanted = true;
    }

    /// Notes that the look-up begins.
    pub(crate) fn begin(&mut self)
        ensures { self.new ≡ record self.old { is_wanted = false } }
    {
        self.is_wanted = false;
    }

    /// Notes the result. A look-up that was asked for meanwhile is still to be done.
    pub(crate) fn note(&mut self, found: Option<SocketAddr>)
        ensures { self.new ≡ record self.old { answer = answer_of found } }
    {
        self.answer = match found {
            Some(address) => Answer::At(address),
            None => Answer::Failed,
        };
    }

    /// Ends the look-ups of the name.
    pub(crate) fn end(&mut self)
        ensures { self.new ≡ record self.old { is_over = true } }
    {
        self.is_over = true;
    }

    /// Says whether there is nothing to do for it now.
    pub(crate) fn rests(&self) -> bool
        ensures { IsTrue result ↔ ((self.now.is_wanted ≡ false) × (self.now.is_over ≡ false)) }
    {
        !self.is_wanted && !self.is_over
    }

    pub(crate) fn is_over(&self) -> bool
        ensures { result ≡ self.now.is_over }
    {
        self.is_over
    }

    /// Says whether there is no answer yet.
    pub(crate) fn is_unanswered(&self) -> bool
        ensures { IsTrue result ↔ (self.now.answer ≡ answers.Nothing) }
    {
        matches!(&self.answer, Answer::Nothing)
    }

    /// Returns the address of the last answer, where that had one.
    pub(crate) fn address(&self) -> Option<SocketAddr>
        ensures { result ≡ address_in self.now.answer }
    {
        match self.answer {
            Answer::At(address) => Some(address),
            Answer::Nothing | Answer::Failed => None,
        }
    }
}
