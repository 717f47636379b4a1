//! The thread that checks the servers, and how threads that aren't loops report places.

use crate::owed_looks::OwedLooks;
use crate::shared::Shared;
use dispatch_reports::EndedWindow;
use due_key::Moment;
use grant_board::RelaySeat;
use locked_book::DeskName;
use relay_workers::{Gate, Slot, StopView, checker};
use run_gate::{Checked, HandedOver, Pauses, SocketGate};
use shared_desk::Changed;
use std::net::{Net, TcpListener, TcpStream};
use std::sync::Wait;
use std::sync::ledger::Ledger;
use std::time::Clock;

/// The thread that checks the servers looks whether a check is due each time this number of
/// milliseconds has passed, as long as the proxy runs.
const CHECK_PAUSE: u64 = 10;

const CHECK_PAUSES: u64 = 1 << 62;

/// The gate of a thread that isn't a loop: it reports places to the loops.
#[derive(Drop)]
pub(crate) struct Ringing<'a, N: DeskName + Ledger, R> {
    pub(crate) rt: &'a R,
    pub(crate) shared: &'a Shared<'a, N>,
    pub(crate) gate: SocketGate<'a, R>,
}

impl<
    'a,
    N: DeskName + Ledger,
    R: Net<Listener = TcpListener, Stream = TcpStream> + Clock + Print + Wait,
> Gate for Ringing<'a, N, R> {
    type Client = TcpStream;

    type Server = TcpStream;

    type Check = Checked;

    type Receipt = HandedOver;

    fn next(&mut self) -> Option<TcpStream> {
        None
    }

    fn release(&mut self, client: TcpStream) {
        self.gate.release(client);
    }

    fn connect<M: DeskName>(&mut self, slot: &Slot<'_, M>) -> Option<TcpStream> {
        self.gate.connect(slot)
    }

    fn disconnect(&mut self, server: TcpStream) {
        self.gate.disconnect(server);
    }

    fn posted(&mut self, seat: &RelaySeat) {
        self.gate.posted(seat);
    }

    fn probe(&mut self, server: usize) -> Option<Checked> {
        self.gate.probe(server)
    }

    fn gone(&mut self, client: &mut TcpStream) -> bool {
        self.gate.gone(client)
    }

    fn moment(&mut self) -> Moment {
        self.gate.moment()
    }

    fn window<M: DeskName>(&mut self, window: EndedWindow, changed: Changed<M>) -> HandedOver {
        self.gate.window(window, changed)
    }

    fn wake<M: DeskName>(&mut self, changed: Changed<M>) {
        let places = changed.take(self.shared.front.wakes);
        self.shared.send_places(self.rt, OwedLooks::of(places));
    }
}

/// Checks the servers until it is told to stop.
pub fn run_checks<
    'a,
    R: Net<Listener = TcpListener, Stream = TcpStream> + Clock + Print + Wait,
    N: DeskName + Ledger,
>(rt: &'a R, shared: &'a Shared<'a, N>, stop: StopView<'_>) {
    let Ok(gate) = SocketGate::new(shared.proxy.alloc, rt, shared.front) else {
        shared.give_up(rt);
        return;
    };
    let mut gate = Ringing { rt, shared, gate };
    let mut pauses = Pauses::new(rt, CHECK_PAUSE, CHECK_PAUSES);
    checker(rt, shared.proxy, &mut gate, &mut pauses, &stop);
}
