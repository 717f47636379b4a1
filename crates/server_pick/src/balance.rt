ghost use Rattle.std.specs.Prelude.{◌≡◌, ℕ, ◌<◌, ◌↔◌, IsTrue, IfSome, MatchOption, length};
ghost use Rattle.log_entries.specs.Picks.{IsPick};
ghost use Rattle.log_entries.specs.Placement.{IsCandidate};
ghost use Rattle.log_entries.specs.Scenes.{is_usable};
ghost use Rattle.slot_ledger.specs.Ledgers.{scene_in};
ghost use Rattle.server_pick.specs.Order.{HasRoomBut, better_of, beats, goes_before};
ghost use Rattle.server_pick.specs.Picked.{IsMoved};
ghost use Rattle.server_pick.specs.Sets.{has, IsIn};

use crate::cursor::Cursor;
use crate::server_set::Set64;
use crate::servers::{has_room, load, weight};
use slot_ledger::Ledger;

/// Returns the servers that balancing may choose from: the usable ones with room, and the one to
/// avoid only where it is the only one.
pub fn candidates<H: Drop>(ledger: &Ledger<H>, avoid: Option<usize>) -> Set64
    ensures { (server : ℕ) → IsIn result server ↔ IsCandidate (scene_in ledger.now) avoid server }
{
    let others = with_room(ledger, avoid);
    match avoid {
        Some(server) if others.is_empty() && has_room(ledger, server) => Set64::of(server),
        _ => others,
    }
}

/// Returns the server of a set that balancing picks, and moves the cursor to it; `None` only for the empty set.
pub fn pick<H: Drop>(ledger: &Ledger<H>, cursor: &mut Cursor, among: &Set64) -> Option<usize>
    requires usable { (server : ℕ) → IsIn among.now server → IsTrue (is_usable (scene_in ledger.now) server) }
    ensures picked { MatchOption result ((server : ℕ) → IsIn among.now server → ⊥) (λ server. IsPick (scene_in ledger.now) cursor.old (IsIn among.now) server) }
    ensures moved { IsMoved cursor.old cursor.new result }
{
    if among.is_empty() {
        return None;
    }
    let best = best_of(ledger, *cursor, among);
    if let Some(server) = best {
        cursor.move_to(server);
    }
    best
}

/// Returns the usable servers with room, without the one to avoid.
fn with_room<H: Drop>(ledger: &Ledger<H>, avoid: Option<usize>) -> Set64
    ensures { (server : ℕ) → IsIn result server ↔ HasRoomBut (scene_in ledger.now) avoid server }
{
    let mut set = Set64::new();
    'filling: for server in 0..ledger.setup().servers.len() {
        set.insert_if(server, has_room_but(ledger, avoid, server));
    }
    set
}

/// Says whether a server is usable, has room and isn't the one to avoid.
fn has_room_but<H: Drop>(ledger: &Ledger<H>, avoid: Option<usize>, server: usize) -> bool
    ensures { IsTrue result ↔ HasRoomBut (scene_in ledger.now) avoid server }
{
    has_room(ledger, server) && avoid != Some(server)
}

/// Returns the server of a set that goes before all others.
fn best_of<H: Drop>(ledger: &Ledger<H>, cursor: Cursor, among: &Set64) -> Option<usize>
    requires usable { (server : ℕ) → IsIn among.now server → IsTrue (is_usable (scene_in ledger.now) server) }
    ensures { MatchOption result ((server : ℕ) → IsIn among.now server → ⊥) (λ server. IsPick (scene_in ledger.now) cursor (IsIn among.now) server) }
{
    let mut best = None;
    'comparing: for server in 0..ledger.setup().servers.len() {
        best = better_of(ledger, cursor, best, among, server);
    }
    best
}

/// Returns the best so far, or the next server where it is in the set and goes before.
fn better_of<H: Drop>(
    ledger: &Ledger<H>,
    cursor: Cursor,
    best: Option<usize>,
    among: &Set64,
    server: usize,
) -> Option<usize>
    requires server { server < length ledger.now.setup.servers }
    requires best { IfSome best (λ other. other < length ledger.now.setup.servers) }
    ensures { result ≡ better_of (scene_in ledger.now) cursor best (has among.now server) server }
{
    if among.contains(server) && beats(ledger, cursor, server, best) {
        Some(server)
    } else {
        best
    }
}

/// Says whether a server goes before the best so far.
fn beats<H: Drop>(ledger: &Ledger<H>, cursor: Cursor, server: usize, best: Option<usize>) -> bool
    requires server { server < length ledger.now.setup.servers }
    requires best { IfSome best (λ other. other < length ledger.now.setup.servers) }
    ensures { result ≡ beats (scene_in ledger.now) cursor server best }
{
    match best {
        None => true,
        Some(best) => goes_before(ledger, cursor, server, best),
    }
}

/// Says whether a server is less loaded than another, or equally loaded and nearer after the
/// cursor. Loads are compared relative to the weights, without a division.
fn goes_before<H: Drop>(ledger: &Ledger<H>, cursor: Cursor, server: usize, other: usize) -> bool
    requires server { server < length ledger.now.setup.servers }
    requires other { other < length ledger.now.setup.servers }
    ensures { result ≡ goes_before (scene_in ledger.now) cursor server other }
{
    let own = load(ledger, server) * weight(ledger, other);
    let its = load(ledger, other) * weight(ledger, server);
    let servers = ledger.setup().servers.len();
    own < its || own == its && cursor.steps_to(server, servers) < cursor.steps_to(other, servers)
}
