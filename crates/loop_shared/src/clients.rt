//! The count of the present clients.

ghost use Rattle.std.specs.Prelude.{◌≡◌};

use crate::presence::Presence;
use crate::shared::Shared;
use locked_book::DeskName;
use std::net::IpAddr;
use std::sync::Wait;
use std::sync::atomic::Ordering;
use std::sync::ledger::Ledger;

impl<N: DeskName + Ledger> Shared<'_, N> {
    /// Returns the number of present clients.
    pub fn clients(&self) -> u64 {
        let ended = self.ended.load(Ordering::SeqCst);
        self.came.load(Ordering::SeqCst).saturating_sub(ended)
    }

    /// Says whether there are descriptors for one more client.
    pub fn has_room(&self) -> bool {
        self.clients() < self.most.clients
    }

    /// Notes that a client came from this address.
    pub fn note_client(&self, address: IpAddr) -> Presence
        ensures { result.address ≡ address }
    {
        self.came.fetch_add(1, Ordering::SeqCst);
        Presence::begin(address)
    }

    /// Notes that a client is done. Where it was the last one that may come, all threads are told.
    pub fn note_end<R: Wait>(&self, rt: &R, presence: Presence) {
        presence.end();
        let before = self.ended.fetch_add(1, Ordering::SeqCst);
        let most = self.front.clients.most();
        if most != 0 && most <= before.saturating_add(1) {
            self.close(rt);
        }
    }
}
