ghost use Rattle.std.specs.Prelude.{◌≡◌, ℕ, ◌↔◌, IsTrue, true, false};
ghost use Rattle.log_entries.specs.Scenes.{working_pin, is_usable, is_free};
ghost use Rattle.slot_ledger.specs.Ledgers.{scene_in};
ghost use Rattle.server_pick.specs.Picked.{IsPlacement, cursor_placed, placed_on};

use crate::balance::{candidates, pick};
use crate::cursor::Cursor;
use crate::servers::{is_free, is_usable, takes_pinned};
use slot_ledger::Ledger;

/// The placement of a request without a phase.
#[derive(Clone, Copy, Debug, PartialEq, Eq)]
pub enum Placement {
    /// A slot of this server.
    Slot(usize),
    /// This server's own queue, where it has no free slot.
    OwnQueue(usize),
    /// The backend's queue: no usable server has room.
    BackendQueue,
    /// Nowhere: no server is usable.
    Nowhere,
}

/// Returns the placement of a request with this pin, and with a server that it avoids where another
/// has room. Its pin decides where that server takes it (`use-server`), and balancing otherwise.
pub fn place<H: Drop>(
    ledger: &Ledger<H>,
    cursor: &mut Cursor,
    pin: Option<usize>,
    avoid: Option<usize>,
) -> Placement
    ensures placed { IsPlacement (scene_in ledger.now) cursor.old pin avoid result }
    ensures cursor { cursor.new ≡ cursor_placed pin result cursor.old }
{
    if let Some(server) = working_pin(ledger, pin) {
        return put_on(ledger, server);
    }
    match pick(ledger, cursor, &candidates(ledger, avoid)) {
        Some(server) => put_on(ledger, server),
        None if some_usable(ledger) => Placement::BackendQueue,
        None => Placement::Nowhere,
    }
}

/// Returns the pin, where its server takes the request.
fn working_pin<H: Drop>(ledger: &Ledger<H>, pin: Option<usize>) -> Option<usize>
    ensures { result ≡ working_pin (scene_in ledger.now) pin }
{
    match pin {
        Some(server) if takes_pinned(ledger, server) => Some(server),
        _ => None,
    }
}

/// Returns a slot of a server where one is free, otherwise its queue.
fn put_on<H: Drop>(ledger: &Ledger<H>, server: usize) -> Placement
    ensures { result ≡ placed_on (scene_in ledger.now) server }
{
    if is_free(ledger, server) {
        Placement::Slot(server)
    } else {
        Placement::OwnQueue(server)
    }
}

/// Says whether some server is usable.
fn some_usable<H: Drop>(ledger: &Ledger<H>) -> bool
    ensures yes { result ≡ true → (server : ℕ) × IsTrue (is_usable (scene_in ledger.now) server) }
    ensures no { result ≡ false → (server : ℕ) → IsTrue (is_usable (scene_in ledger.now) server) → ⊥ }
{
    'looking: for server in 0..ledger.setup().servers.len() {
        if is_usable(ledger, server) {
            return true;
        }
    }
    false
}
