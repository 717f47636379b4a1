ghost use Rattle.std.specs.Prelude.{◌≡◌, ◌≤◌, length, take, drop};
ghost use Rattle.exchange_machine.specs.Histories.{ExchangeHistory, client_got};
ghost use Rattle.exchange_machine.specs.Settlings as settling;
ghost use Rattle.exchange_machine.specs.Stages as stages;
ghost use Rattle.exchange_machine.specs.Wholes.{begun};

use crate::asking::{Turn, look_on};
use crate::way::Way;
use std::alloc::Global;

/// An exchange whose messages were both whole. The last bytes for the client wait, and the next
/// request may stand after this one.
#[derive(Drop)]
pub struct Settling {
    pub(crate) out: Way,
    pub(crate) behind: Vec<u8>,
    pub(crate) clean: bool,
}

impl Settling {
    /// Says whether its server's connection can be used again: the request was sent whole, and
    /// nothing came after the answer.
    pub fn is_clean(&self) -> bool
        ensures { result ≡ self.now.clean }
    {
        self.clean
    }

    /// Returns the bytes that the client is still to be sent.
    pub fn to_client(&self) -> &[u8]
        ensures { result.now ≡ self.now.out.out }
    {
        self.out.waiting()
    }

    /// The client took this number of them.
    pub fn client_took(&mut self, count: usize)
        requires { count ≤ length self.old.out.out }
        ensures took { (h : ExchangeHistory) → settling.IsSettling self.old h → settling.IsSettling self.new (client_got h (take count self.old.out.out)) }
        ensures behind { self.new.behind ≡ self.old.behind }
        ensures out { self.new.out.out ≡ drop count self.old.out.out }
        ensures clean { self.new.clean ≡ self.old.clean }
    {
        self.out.went(count);
    }

    /// All was sent: looks for the next request in the bytes after the last one.
    pub fn next(self, alloc: Global) -> Turn
        ensures turn { stages.IsTurn result (begun self.behind.items) }
        ensures checked { stages.IsChecked result }
    {
        let Settling { behind, .. } = self;
        look_on(alloc, behind)
    }
}
