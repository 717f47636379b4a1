ghost use Rattle.std.specs.Prelude.{◌≡◌, ◌+◌, ℕ, Bool, List, None, Option, IfSome, IfNone};
ghost use Rattle.std.specs.Bool.{OnTrue, OnFalse};
ghost use Rattle.base_places.specs.Sets.{Has};
ghost use Rattle.relay_workers.specs.Carrying.{IsUntouched};
ghost use Rattle.relay_workers.specs.Gates.{Notice, noted};
ghost use Rattle.relay_workers.specs.Gates.Notice.{Came, NoMore, IsThere, HasLeft, Released, Connected, Missing, Disconnected, Posted, Found, NotYet, Now, Told, Ended};
ghost use Rattle.relay_workers.specs.Windows.{WindowHasEnded};

use crate::slot::Slot;
use dispatch_reports::EndedWindow;
use due_key::Moment;
use grant_board::RelaySeat;
use locked_book::DeskName;
use shared_desk::Changed;
use std::io::{Read, Write};

/// How a check of a server ended.
pub trait EndedCheck {
    /// That it passed.
    ghost passed: { Self → Bool };

    /// Says whether it passed.
    fn has_passed(&self) -> bool
        ensures { result ≡ passed self.now };
}

/// The source of a thread's clients, connections and moments. Each thread has its own.
pub trait Gate {
    /// A client can't be dropped: the gate takes it back.
    type Client: Read + Write + Send;

    /// A connection can't be dropped either.
    type Server: Read + Write + Send;

    /// What shows how a check ended.
    type Check: EndedCheck + Send + Drop;

    /// What shows that a window was taken.
    type Receipt: Send + Drop;

    /// All that passed between it and the thread that asks it, in order. `None` where it notes
    /// nothing.
    ghost notes: { Self → Option (List (Notice Self.Client Self.Server)) } = { λ _. None };

    /// That a look is owed at a place, since it was told of offers there. `Unit` where it keeps no
    /// places: who makes it looks at them otherwise.
    ghost owes: { Self → ℕ → Type 0 } = { λ _ _. Unit {0} };

    /// Returns the next client; `None` where no more come to this thread. It may wait without limit.
    fn next(&mut self) -> Option<Self::Client>
        ensures some { IfSome result (λ client. notes self.new ≡ noted (Came client) (notes self.old)) }
        ensures none { IfNone result (notes self.new ≡ noted NoMore (notes self.old)) }
        ensures kept { (place : ℕ) → owes self.old place → owes self.new place };

    /// Takes back a client, and closes its connection.
    fn release(&mut self, client: Self::Client)
        ensures told { notes self.new ≡ noted (Released client) (notes self.old) }
        ensures kept { (place : ℕ) → owes self.old place → owes self.new place };

    /// Returns a connection to the server of a slot; `None` where there is none, and the request is
    /// retried there or elsewhere.
    fn connect<N: DeskName>(&mut self, slot: &Slot<'_, N>) -> Option<Self::Server>
        ensures some { IfSome result (λ server. notes self.new ≡ noted (Connected slot.now.pass.now server) (notes self.old)) }
        ensures none { IfNone result (notes self.new ≡ noted (Missing slot.now.pass.now) (notes self.old)) }
        ensures kept { (place : ℕ) → owes self.old place → owes self.new place };

    /// Takes back a connection to a server, and closes it.
    fn disconnect(&mut self, server: Self::Server)
        ensures told { notes self.new ≡ noted (Disconnected server) (notes self.old) }
        ensures kept { (place : ℕ) → owes self.old place → owes self.new place };

    /// Is shown the thread's seat, which has just posted a pass.
    fn posted(&mut self, seat: &RelaySeat)
        ensures told { notes self.new ≡ noted (Posted seat.now.view) (notes self.old) }
        ensures kept { (place : ℕ) → owes self.old place → owes self.new place };

    /// Looks at the check of a server, and begins one where none runs; `None` where it isn't over
    /// yet. It doesn't wait, so no server's checks delay another's.
    fn probe(&mut self, server: usize) -> Option<Self::Check>
        ensures found { IfSome result (λ check. notes self.new ≡ noted (Found server (Self.Check.passed check)) (notes self.old)) }
        ensures none { IfNone result (notes self.new ≡ noted (NotYet server) (notes self.old)) }
        ensures kept { (place : ℕ) → owes self.old place → owes self.new place };

    /// Says whether a client that waits has left. What it sent meanwhile can still be read.
    fn gone(&mut self, client: &mut Self::Client) -> bool
        ensures left { OnTrue result (notes self.new ≡ noted HasLeft (notes self.old)) }
        ensures there { OnFalse result (notes self.new ≡ noted IsThere (notes self.old)) }
        ensures untouched { IsUntouched Self.Client.remaining Self.Client.contents client.old client.new }
        ensures kept { (place : ℕ) → owes self.old place → owes self.new place };

    /// Returns the present moment.
    fn moment(&mut self) -> Moment
        ensures told { notes self.new ≡ noted (Now result) (notes self.old) }
        ensures kept { (place : ℕ) → owes self.old place → owes self.new place };

    /// Takes what is told of a window that ended, because the log was full or its time was over.
    /// Each window goes to the gate of one thread, and they may come to the gates in another order
    /// than they ended.
    fn window<N: DeskName>(&mut self, window: EndedWindow, changed: Changed<N>) -> Self::Receipt
        requires { WindowHasEnded window }
        ensures told { notes self.new ≡ noted (Ended window changed) (notes self.old) }
        ensures kept { (place : ℕ) → owes self.old place → owes self.new place };

    /// Is told after a call of the desk what it changed, and at which places it offered verdicts.
    /// The lock is free then.
    fn wake<N: DeskName>(&mut self, changed: Changed<N>)
        ensures told { notes self.new ≡ noted (Told changed) (notes self.old) }
        ensures owed { (place : ℕ) → Has changed.places place → owes self.new place }
        ensures kept { (place : ℕ) → owes self.old place → owes self.new place };
}

/// A bound on the pauses of a thread.
pub trait Pause {
    /// The number of pauses after each beginning.
    ghost most: { Self → ℕ };

    /// The number of pauses that are left.
    ghost left: { Self → ℕ };

    /// Begins to count anew.
    fn begin(&mut self)
        ensures left { left self.new ≡ most self.old }
        ensures most { most self.new ≡ most self.old };

    /// Pauses; returns false, without a pause, where none is left.
    fn turn(&mut self) -> bool
        ensures more { OnTrue result (left self.old ≡ left self.new + 1) }
        ensures spent { OnFalse result ((left self.old ≡ 0) × (left self.new ≡ 0)) };
}
