ghost use Rattle.std.specs.Prelude.{◌≡◌};

use crate::answer::Lookup;
use std::net::{Net, SocketAddr, ToSocketAddrs};
use std::sync::{Condvar, CondvarTimeouts, Mutex, Wait};
use std::time::{Clock, Duration};
use std::{str, thread};

/// The least time between two look-ups of a name, in milliseconds.
const PAUSE: u64 = 100;

/// A server's name, and the knowledge of its address. The threads that ask and the one that looks it up share it.
#[derive(Drop)]
pub(crate) struct Name {
    host: Vec<u8>,
    port: u16,
    lookup: Mutex<Lookup>,
    bell: Condvar,
}

impl Name {
    /// Makes the name of this host, whose addresses have this port, before any look-up.
    pub(crate) fn new(host: Vec<u8>, port: u16) -> Name
        ensures { (result.host ≡ host) × (result.port ≡ port) }
    {
        Name {
            host,
            port,
            lookup: Mutex::new(Lookup::new()),
            bell: Condvar::new(),
        }
    }

    /// Returns the address of its last answer.
    pub(crate) fn address<R: Wait>(&self, rt: &R) -> Option<SocketAddr> {
        self.lookup.lock(rt).address()
    }

    /// Asks for another look-up.
    pub(crate) fn look_again<R: Wait>(&self, rt: &R) {
        self.lookup.lock(rt).want();
        self.bell.notify_all();
    }

    /// Ends its thread, once that doesn't wait for an answer.
    pub(crate) fn close<R: Wait>(&self, rt: &R) {
        self.lookup.lock(rt).end();
        self.bell.notify_all();
    }

    /// Waits until there is an answer, or for this time.
    pub(crate) fn wait_for_answer<R: Wait + Clock>(&self, rt: &R, limit: Duration) {
        let _lookup = self
            .bell
            .wait_timeout_while(rt, self.lookup.lock(rt), limit, |lookup| {
                lookup.is_unanswered()
            });
    }

    /// Looks it up each time that is asked for, until it is closed.
    pub(crate) fn look_up_all<R: Net + Wait + Clock>(&self, rt: &R) {
        for _ in rt.forever() {
            if !self.begin(rt) {
                return;
            }
            let found = self.look_up(rt);
            self.lookup.lock(rt).note(found);
            self.bell.notify_all();
            thread::sleep(rt, Duration::from_millis(PAUSE));
        }
        unreachable!()
    }

    // Waits until it is to be looked up. False where it is closed.
    fn begin<R: Wait>(&self, rt: &R) -> bool {
        let mut lookup = self
            .bell
            .wait_while(rt, self.lookup.lock(rt), |lookup| lookup.rests());
        lookup.begin();
        !lookup.is_over()
    }

    fn look_up<R: Net>(&self, rt: &R) -> Option<SocketAddr> {
        let host = str::from_utf8(self.host.as_slice()).ok()?;
        let mut found = (host, self.port).to_socket_addrs(rt).ok()?;
        found.next()
    }
}
