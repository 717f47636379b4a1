//! Passes that go back to the board with their seats.

ghost use Rattle.loop_shared.specs.Looks.{Collects};

use crate::owed_admission::OwedAdmission;
use crate::shared::Shared;
use crate::stopping::Over;
use base_verdict::Ending;
use board_seats::{Lent, Taken};
use exchange_seated::Posting;
use locked_book::DeskName;
use relay_workers::Gate;
use std::sync::Wait;
use std::sync::ledger::Ledger;

impl<N: DeskName + Ledger> Shared<'_, N> {
    /// Posts the pass of an exchange that ended, and collects it at its place.
    pub fn post<R: Wait, G: Gate>(&self, rt: &R, gate: &mut G, posting: Posting<N>) -> OwedAdmission
        ensures { Collects N.terms N.setup posting.taken.held.pass.place (G.notes gate.old) (G.notes gate.new) }
    {
        let place = posting.place();
        let lent = posting.post(self.proxy.desk.board());
        self.collect(rt, gate, lent, place)
    }

    /// The same for a pass that no exchange used.
    pub fn give_back<R: Wait, G: Gate>(
        &self,
        rt: &R,
        gate: &mut G,
        taken: Taken<N>,
    ) -> OwedAdmission
        ensures { Collects N.terms N.setup taken.held.pass.place (G.notes gate.old) (G.notes gate.new) }
    {
        let place = taken.place();
        let lent = taken.post(self.proxy.desk.board(), Ending::Done);
        self.collect(rt, gate, lent, place)
    }

    /// Posts the pass of an exchange that ended with the proxy. Nobody collects it.
    pub fn post_last<R: Wait>(&self, rt: &R, posting: Posting<N>, _over: Over) {
        self.return_seat(rt, posting.post(self.proxy.desk.board()));
    }

    // Takes a seat back, and collects what it posted at this place.
    fn collect<R: Wait, G: Gate>(
        &self,
        rt: &R,
        gate: &mut G,
        lent: Lent<N>,
        place: usize,
    ) -> OwedAdmission
        ensures { Collects N.terms N.setup place (G.notes gate.old) (G.notes gate.new) }
    {
        self.return_seat(rt, lent);
        if !self.has(place) {
            return OwedAdmission::new();
        }
        let _ = self.proxy.collect(rt, gate, place);
        OwedAdmission::new()
    }
}
