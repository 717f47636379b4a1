ghost use Rattle.std.specs.Prelude.{◌≡◌, ◌≤◌, length, drop};
ghost use Rattle.locked_book.specs.Books.{IsOwing};
ghost use Rattle.locked_book.specs.Calls.{grants_in, with_offers, Wakes};

use crate::keeping::Keeping;
use crate::verdicts::verdict_in;
use base_places::PlaceSet;
use dispatch_reports::ReportingCore;
use due_key::Key;
use grant_board::Board;
use pend_queue::PendQueue;

/// Offers the verdicts of the entries from this position on. `O(log n)` in the live requests for each.
pub fn offer_from<Q: PendQueue<Key, usize>>(
    core: &ReportingCore<Q>,
    keeping: &mut Keeping,
    board: &Board,
    from: usize,
    woken: &mut PlaceSet,
)
    requires same_board { keeping.old.board ≡ board.now }
    requires from { from ≤ length core.now.log }
    requires owing { IsOwing core.now keeping.old.view (drop from core.now.log) }
    ensures offered { keeping.new ≡ record keeping.old { view = with_offers keeping.old.view (grants_in core.now (drop from core.now.log)) } }
    ensures woken { Wakes (grants_in core.now (drop from core.now.log)) woken.old woken.new }
{
    let entries = core.log().entries();
    for number in from..entries.len() {
        let Some(told) = verdict_in(entries[number]) else {
            continue;
        };
        let Some(place) = core.place(told.0) else {
            unreachable!()
        };
        keeping.offer(board, place, told, woken);
    }
}
