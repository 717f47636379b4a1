ghost use Rattle.std.specs.Prelude.{◌↔◌, IsTrue};
ghost use Rattle.loop_shared.specs.Hopeless.{IsHopeless};

use crate::presence::Presence;
use crate::stopping::Refusing;
use crate::watching::Watched;
use dispatch_state::Ticketed;
use due_key::Moment;
use exchange_driver::{Line, Live};
use exchange_seated::WaitingExchange;

/// A client whose request waits for its pass. It has no `Drop`, since its presence has none.
pub struct Parked {
    pub presence: Presence,
    pub queued: WaitingExchange,
    pub client: Line<Live>,
    pub at: Ticketed,
    /// The server that was last tried for it without success.
    pub failed: Option<usize>,
    /// Some loop's poll watches its client.
    pub watched: Option<Watched>,
    /// When it began to wait for its place, if it had to.
    pub came: Option<Moment>,
    /// It is given up, and its client is told so.
    pub late: bool,
}

/// Which requests are given up, and told that they aren't served.
#[derive(Drop)]
pub enum GivenUpSet {
    /// All.
    All(Refusing),
    /// Those that had to wait for their place, and came at least this number of milliseconds before this moment.
    Late { now: Moment, millis: u64 },
}

impl Parked {
    /// Takes the request out of its wait, and returns its client's presence.
    pub fn leave(self) -> Presence {
        let Parked {
            presence,
            queued: _,
            client: _,
            at: _,
            failed: _,
            watched: _,
            came: _,
            late: _,
        } = self;
        presence
    }

    /// Says whether its request is one of those, and isn't given up yet.
    pub(crate) fn is_hopeless(&self, hopeless: &GivenUpSet) -> bool
        ensures { IsTrue result ↔ IsHopeless self.now hopeless.now }
    {
        if self.late {
            return false;
        }
        match (hopeless, &self.came) {
            (GivenUpSet::All(_), _) => true,
            (GivenUpSet::Late { .. }, None) => false,
            (GivenUpSet::Late { now, millis }, Some(came)) => {
                *millis <= now.get().saturating_sub(came.get())
            }
        }
    }
}
