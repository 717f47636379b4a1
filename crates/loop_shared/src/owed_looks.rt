//! The looks that are owed at several places. Like a single one they have no `Drop`.

ghost use Rattle.std.specs.Prelude.{◌≡◌, ◌≢◌, ◌↔◌, ℕ, MatchOption};
ghost use Rattle.loop_shared.specs.Looks.{OwesNoLook};
ghost use Rattle.base_places.specs.Sets.{Has};

use crate::owed::OwedLook;
use base_places::PlaceSet;
use run_gate::SocketGate;
use std::mem;
use std::net::{Net, TcpListener, TcpStream};
use std::time::Clock;

/// The places at which looks are owed. It can be ended only once no look is.
pub struct OwedLooks {
    places: PlaceSet,
}

impl OwedLooks {
    pub(crate) fn of(places: PlaceSet) -> OwedLooks
        ensures { result.places ≡ places }
    {
        OwedLooks { places }
    }

    /// Takes the looks that a gate owes.
    pub fn of_gate<'a, R: Net<Listener = TcpListener, Stream = TcpStream> + Clock>(
        gate: &mut SocketGate<'a, R>,
    ) -> OwedLooks
        ensures taken { result.places ≡ gate.old.woken }
        ensures none { OwesNoLook gate.new.woken }
    {
        OwedLooks {
            places: gate.take_woken(),
        }
    }

    // Takes the looks that a loop was asked for at these places.
    pub(crate) fn of_mail(places: &mut PlaceSet) -> OwedLooks
        ensures taken { result.places ≡ places.old }
        ensures none { OwesNoLook places.new }
    {
        OwedLooks {
            places: mem::replace(places, PlaceSet::new()),
        }
    }

    /// Takes a look out. `None`: no look is owed.
    pub fn next(&mut self) -> Option<OwedLook>
        ensures none { MatchOption result (OwesNoLook self.old.places) (λ it. Has self.old.places it.place) }
        ensures left { MatchOption result (self.new ≡ self.old) (λ it. (other : ℕ) → Has self.new.places other ↔ ((other ≢ it.place) × Has self.old.places other)) }
    {
        let Some(place) = self.places.next(0) else {
            return None;
        };
        self.places.remove(place);
        Some(OwedLook::at(place))
    }

    /// Has the gate's loop look at the places later.
    pub fn put_off<'a, R: Net<Listener = TcpListener, Stream = TcpStream> + Clock>(
        self,
        gate: &mut SocketGate<'a, R>,
    )
        ensures owed { (place : ℕ) → Has self.places place → Has gate.new.woken place }
        ensures kept { (place : ℕ) → Has gate.old.woken place → Has gate.new.woken place }
    {
        let OwedLooks { places } = self;
        gate.add_woken(&places);
    }

    pub fn end(self)
        requires { OwesNoLook self.places }
    {
        let OwedLooks { places: _ } = self;
    }
}
