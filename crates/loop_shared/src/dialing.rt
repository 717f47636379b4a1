//! Connections to servers, which are begun without waiting.

ghost use Rattle.std.specs.Prelude.{◌≡◌, IfOk, IfSome, None, slice_get};
ghost use Rattle.run_gate.specs.Numbers.{IsAddressOf};

use crate::shared::Shared;
use exchange_driver::Live;
use locked_book::DeskName;
use mio::net::TcpStream as Dialing;
use std::net::{Net, SocketAddr, TcpListener, TcpStream};
use std::sync::Wait;
use std::sync::ledger::Ledger;

/// A connection that was begun to a server.
#[derive(Drop)]
pub struct Dialed {
    server: usize,
    live: Live,
}

impl Dialed {
    /// Returns the number of the server.
    pub fn server(&self) -> usize
        ensures { result ≡ self.now.server }
    {
        self.server
    }

    /// Returns the connection.
    pub fn into_live(self) -> Live
        ensures { result ≡ self.live }
    {
        let Dialed { server: _, live } = self;
        live
    }
}

/// Why no connection was begun.
#[derive(Clone, Copy, Debug, PartialEq, Eq)]
pub enum DialFault {
    /// The last look-up of the server's name found no address, or isn't over, or there is no such server.
    NoAddress,
    /// The system refuses a connection.
    NoConnection,
}

impl<N: DeskName + Ledger> Shared<'_, N> {
    /// Begins a connection to a server, at the address of the last look-up of its name.
    pub fn dial<R: Net<Listener = TcpListener, Stream = TcpStream> + Wait>(
        &self,
        rt: &R,
        server: usize,
    ) -> Result<Dialed, DialFault>
        ensures { IfOk result (λ dialed. dialed.server ≡ server) }
    {
        let Some(address) = self.address_of(rt, server) else {
            return Err(DialFault::NoAddress);
        };
        let Ok(stream) = Dialing::connect(rt, address) else {
            return Err(DialFault::NoConnection);
        };
        let _ = stream.set_nodelay(true);
        Ok(Dialed {
            server,
            live: Live::new(TcpStream::from(stream)),
        })
    }

    // Returns a server's address, where it is known. It doesn't wait for a look-up.
    fn address_of<R: Wait>(&self, rt: &R, server: usize) -> Option<SocketAddr>
        ensures numbers { IfSome (slice_get self.now.front.now.config.now.servers server) (λ it. IsAddressOf it.address result) }
        ensures nobody { slice_get self.now.front.now.config.now.servers server ≡ None → result ≡ None }
    {
        self.front.addresses.of(rt, self.front.config, server)
    }
}
