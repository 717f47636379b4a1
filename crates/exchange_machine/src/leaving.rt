ghost use Rattle.std.specs.Prelude.{◌≡◌, ◌≤◌, length, take, drop};
ghost use Rattle.exchange_machine.specs.Histories.{ExchangeHistory, client_got};
ghost use Rattle.exchange_machine.specs.Stages as stages;

use crate::way::Way;

/// The bytes that the client is still to be sent before its connection is closed.
#[derive(Drop)]
pub struct Leaving {
    pub(crate) out: Way,
    /// They end the whole answer of its server.
    pub(crate) whole: bool,
    /// Its server's connection can be used again.
    pub(crate) clean: bool,
}

impl Leaving {
    /// Says whether the client is sent the whole answer of its server, and not a refusal or an
    /// answer that broke off.
    pub fn is_answered(&self) -> bool
        ensures { result ≡ self.now.whole }
    {
        self.whole
    }

    /// Says whether its server's connection can be used again: both messages were whole, the
    /// request was sent whole, and nothing came after the answer.
    pub fn is_clean(&self) -> bool
        ensures { result ≡ self.now.clean }
    {
        self.clean
    }

    /// Returns the bytes that the client is still to be sent.
    pub fn to_client(&self) -> &[u8]
        ensures { result.now ≡ self.now.out.out }
    {
        self.out.waiting()
    }

    /// The client took this number of them.
    pub fn client_took(&mut self, count: usize)
        requires { count ≤ length self.old.out.out }
        ensures took { (h : ExchangeHistory) → stages.IsLeaving self.old h → stages.IsLeaving self.new (client_got h (take count self.old.out.out)) }
        ensures out { self.new.out.out ≡ drop count self.old.out.out }
        ensures whole { self.new.whole ≡ self.old.whole }
        ensures clean { self.new.clean ≡ self.old.clean }
    {
        self.out.went(count);
    }
}
