ghost use Rattle.std.specs.Prelude.{◌≡◌};

use crate::parked::Parked;
use board_seats::Taken;
use grant_board::BoardName;
use std::sync::ledger::Ledger;

/// A request whose verdict was found at its place, and a lent seat with its pass. It has no `Drop`:
/// its pass has to be posted.
pub struct GrantedRequest<N: BoardName + Ledger> {
    pub taken: Taken<N>,
    pub parked: Parked,
    ghost its_place: { taken.held.pass.place ≡ parked.at.place },
    ghost its_ticket: { taken.held.pass.ticket ≡ parked.at.ticket },
}
