ghost use Rattle.std.specs.Prelude.{◌≡◌};

use log_lines::Account;
use std::net::IpAddr;

/// The presence of a client that was accepted and isn't done. It has no `Drop`: its end has to be
/// noted (`Shared::note_end`), so none is forgotten.
pub struct Presence {
    // It is private, so no other module makes one.
    address: IpAddr,
    /// The record of its exchange, where lines of exchanges are wanted.
    pub account: Option<Box<Account>>,
}

impl Presence {
    pub(crate) fn begin(address: IpAddr) -> Presence
        ensures { result.address ≡ address }
    {
        Presence {
            address,
            account: None,
        }
    }

    /// Returns the address that the client had when it came. (The system doesn't tell the address
    /// of a peer that has gone.)
    pub fn address(&self) -> IpAddr
        ensures { result ≡ self.now.address }
    {
        self.address
    }

    pub(crate) fn end(self) {
        let Presence {
            address: _,
            account: _,
        } = self;
    }
}
