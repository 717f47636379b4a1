//! The acceptance of clients.

use crate::guest::Visit;
use crate::looping::Looper;
use exchange_driver::{Line, Live};
use exchange_seated::Linked;
use locked_book::DeskName;
use std::io::ErrorKind;
use std::net::{Net, SocketAddr, TcpListener, TcpStream};
use std::sync::Wait;
use std::sync::ledger::Ledger;
use std::time::Clock;

/// The most clients that are accepted at once before the others get their turn.
const BURST: usize = 64;

impl<
    'a,
    N: DeskName + Ledger,
    R: Net<Listener = TcpListener, Stream = TcpStream> + Clock + Print + Wait,
> Looper<'a, N, R> {
    /// Accepts clients that wait at the listener. Where descriptors, cells or memory are short it
    /// stops, and tries again soon.
    pub(crate) fn accept_some(&mut self) {
        for _ in 0..BURST {
            if self.short || self.shared.is_deaf() || self.shared.front.clients.are_all_taken() {
                self.more = false;
                return;
            }
            if !self.shared.has_room() || self.shared.is_crowded() || self.guests.is_full() {
                self.short = true;
                self.more = false;
                return;
            }
            match self.shared.front.listener.accept() {
                Ok((client, address)) => self.greet(client, address),
                Err(error) => {
                    self.more = error.kind() == ErrorKind::Interrupted;
                    let nobody = error.kind() == ErrorKind::WouldBlock;
                    if nobody {
                        self.shared.note_nobody_comes();
                    }
                    self.short = !self.more && !nobody;
                    return;
                }
            }
        }
    }

    // Makes an accepted client a guest, and reads what it has already sent.
    fn greet(&mut self, client: TcpStream, address: SocketAddr) {
        if !self.shared.front.clients.take() {
            return;
        }
        let presence = self.shared.note_client(address.ip());
        let _ = client.set_nodelay(true);
        if client.set_nonblocking(true).is_err() {
            return self.shared.note_end(self.rt, presence);
        }
        let Some(hole) = self.guests.open() else {
            return self.shared.note_end(self.rt, presence);
        };
        let alloc = self.settings.alloc;
        let line = Line::new(alloc, Live::new(client));
        let mut presence = presence;
        self.begin_account(&mut presence, &line, Some(address));
        let visit = Visit::new(presence, line);
        let then = self.as_guest(Linked::new(alloc), visit, hole);
        self.go(then);
        self.go_on();
    }
}
