//! The thread that ends windows after a time.

use crate::ringing::Ringing;
use crate::shared::Shared;
use locked_book::DeskName;
use run_gate::SocketGate;
use std::net::{Net, TcpListener, TcpStream};
use std::sync::Wait;
use std::sync::ledger::Ledger;
use std::time::{Clock, Duration};

impl<N: DeskName + Ledger> Shared<'_, N> {
    // Waits this number of milliseconds, or until the proxy has ended. Says whether it has.
    fn is_over_after<R: Wait + Clock>(&self, rt: &R, millis: u64) -> bool {
        let period = Duration::from_millis(millis);
        let over = self.ended_all.lock(rt);
        let (over, _) = self
            .bell
            .wait_timeout_while(rt, over, period, |over| !*over);
        *over
    }
}

/// Ends a window each time this number of milliseconds has passed, until the proxy has ended.
pub fn run_windows<
    'a,
    R: Net<Listener = TcpListener, Stream = TcpStream> + Clock + Print + Wait,
    N: DeskName + Ledger,
>(rt: &'a R, shared: &'a Shared<'a, N>, millis: u64) {
    let Ok(gate) = SocketGate::new(shared.proxy.alloc, rt, shared.front) else {
        shared.give_up(rt);
        return;
    };
    let mut gate = Ringing { rt, shared, gate };
    for _ in rt.forever() {
        if shared.is_over_after(rt, millis) {
            return;
        }
        let _ = shared.proxy.end_window(rt, &mut gate);
    }
}
