ghost use Rattle.std.specs.Prelude.{◌≡◌, ◌≤◌, ◌==◌, ◌||◌, nat_lt, All, IsTrue, length};
ghost use Rattle.log_entries.specs.declared.queue.Queue.TheVariants.{Server};
ghost use Rattle.log_entries.specs.Rows.{queued};
ghost use Rattle.log_entries.specs.Setups.{is_within};
ghost use Rattle.log_entries.specs.Picks.{weight_of, load};
ghost use Rattle.log_entries.specs.Scenes.{of_server, limit_of, is_open, serves_beside, holds_beside, is_usable, is_free, has_room, takes_pinned};
ghost use Rattle.slot_ledger.specs.Ledgers.{scene_in};

use log_entries::{Intake, Queue, ServerSet};
use slot_ledger::Ledger;

/// Returns the weight of a server; 0 where no server has the number.
pub(crate) fn weight<H: Drop>(ledger: &Ledger<H>, server: usize) -> u64
    ensures weight { result ≡ weight_of (scene_in ledger.now) server }
    ensures limit { result ≤ 256 }
{
    match settings(ledger).get(server) {
        None => 0,
        Some(it) => u64::from(it.weight),
    }
}

/// Returns the number of requests that a server serves and that are in its own queue.
pub(crate) fn load<H: Drop>(ledger: &Ledger<H>, server: usize) -> u64
    ensures load { result ≡ load (scene_in ledger.now) server }
    ensures limit { result ≤ 8192 }
{
    ledger.served(server) as u64 + ledger.queued(Queue::Server(server)) as u64
}

pub(crate) fn is_usable<H: Drop>(ledger: &Ledger<H>, server: usize) -> bool
    ensures { result ≡ is_usable (scene_in ledger.now) server }
{
    ledger.up(server) && takes_part(ledger, server)
}

/// Says whether balancing gives a server any requests while it is up.
fn takes_part<H: Drop>(ledger: &Ledger<H>, server: usize) -> bool
    ensures { result ≡ of_server (scene_in ledger.now) server (λ it. nat_lt 0 it.weight) }
{
    match settings(ledger).get(server) {
        None => false,
        Some(it) => 0 < it.weight,
    }
}

pub(crate) fn is_free<H: Drop>(ledger: &Ledger<H>, server: usize) -> bool
    ensures { result ≡ is_free (scene_in ledger.now) server }
{
    match settings(ledger).get(server) {
        None => false,
        Some(_) => serves_beside(ledger.limit(server), ledger.served(server) as u64),
    }
}

pub(crate) fn has_room<H: Drop>(ledger: &Ledger<H>, server: usize) -> bool
    ensures room { result ≡ has_room (scene_in ledger.now) server }
    ensures few { length ledger.now.setup.servers ≤ 64 }
{
    has_queue_room(ledger, server) && is_usable(ledger, server)
}

/// Says whether a server serves and queues fewer requests than balancing may give it.
fn has_queue_room<H: Drop>(ledger: &Ledger<H>, server: usize) -> bool
    ensures places { result ≡ of_server (scene_in ledger.now) server (λ it. holds_beside (limit_of (scene_in ledger.now) server) it.maxqueue (load (scene_in ledger.now) server)) }
    ensures few { length ledger.now.setup.servers ≤ 64 }
{
    match settings(ledger).get(server) {
        None => false,
        Some(it) => holds_beside(ledger.limit(server), it.maxqueue, load(ledger, server)),
    }
}

/// Says whether a server with this limit serves one more request beside `count`.
fn serves_beside(limit: Intake, count: u64) -> bool
    ensures { result ≡ serves_beside limit count }
{
    match limit {
        Intake::Open(limit) => limit == 0 || count < u64::from(limit),
        Intake::Closed => false,
    }
}

/// Says whether balancing gives a server with this limit and maxqueue one more request beside `count`.
fn holds_beside(limit: Intake, maxqueue: u32, count: u64) -> bool
    ensures { result ≡ holds_beside limit maxqueue count }
{
    match limit {
        Intake::Open(limit) => {
            let limit = u64::from(limit);
            limit == 0 || count < limit || count - limit < u64::from(maxqueue)
        }
        Intake::Closed => false,
    }
}

fn is_open(limit: Intake) -> bool
    ensures { result ≡ is_open limit }
{
    match limit {
        Intake::Open(_) => true,
        Intake::Closed => false,
    }
}

pub(crate) fn takes_pinned<H: Drop>(ledger: &Ledger<H>, server: usize) -> bool
    ensures { result ≡ takes_pinned (scene_in ledger.now) server }
{
    ledger.up(server)
        && is_open(ledger.limit(server))
        && (is_free(ledger, server) || queues_pinned(ledger, server))
}

/// Says whether a server's queue takes a request that is pinned to it.
fn queues_pinned<H: Drop>(ledger: &Ledger<H>, server: usize) -> bool
    ensures { result ≡ of_server (scene_in ledger.now) server (λ it. (it.maxqueue == 0) || nat_lt (queued (Server server) (scene_in ledger.now).rows) it.maxqueue) }
{
    match settings(ledger).get(server) {
        None => false,
        Some(it) => {
            let queued = ledger.queued(Queue::Server(server)) as u64;
            it.maxqueue == 0 || queued < u64::from(it.maxqueue)
        }
    }
}

/// Returns the setup of each server.
fn settings<H: Drop>(ledger: &Ledger<H>) -> &[ServerSet]
    ensures servers { result.now ≡ ledger.now.setup.servers }
    ensures few { length ledger.now.setup.servers ≤ 64 }
    ensures within { All (λ server. IsTrue (is_within server)) ledger.now.setup.servers }
{
    ledger.setup().servers.as_slice()
}
