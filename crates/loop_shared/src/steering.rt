//! The commands that a proxy takes while it serves.

use crate::ringing::Ringing;
use crate::shared::Shared;
use config_setup::configured_limits_of;
use due_key::Moment;
use late_cert::Reports;
use locked_book::DeskName;
use log_entries::{Intake, Queue, Refusal};
use log_texts::Names;
use relay_workers::Gate;
use run_control::{CommandExecutor, Standing, Steered, attend};
use run_gate::SocketGate;
use std::alloc::AllocError;
use std::net::{Net, TcpListener, TcpStream};
use std::sync::Wait;
use std::sync::ledger::Ledger;
use std::time::Clock;

/// A proxy that is steered, with a gate that reports places to the loops.
#[derive(Drop)]
struct Steering<'a, N: DeskName + Ledger, R> {
    rt: &'a R,
    shared: &'a Shared<'a, N>,
    gate: Ringing<'a, N, R>,
}

impl<
    'a,
    N: DeskName + Ledger,
    R: Net<Listener = TcpListener, Stream = TcpStream> + Clock + Print + Wait,
> Steered for Steering<'a, N, R> {
    fn names(&self) -> &Names {
        self.shared.front.windows.names()
    }

    fn standing(&self, server: usize) -> Standing {
        let looking = self.shared.proxy.desk.look(self.rt);
        let book = looking.book();
        Standing {
            up: book.up(server),
            served: book.served(server),
            waiting: book.queued(Queue::Server(server)),
        }
    }

    fn waiting(&self) -> usize {
        let desk = &self.shared.proxy.desk;
        let inside = desk.look(self.rt).book().queued(Queue::Backend);
        let outside = self.shared.outsiders() as usize;
        inside.saturating_add(outside)
    }

    fn places(&self) -> usize {
        self.shared.places()
    }

    fn clients(&self) -> u64 {
        self.shared.clients()
    }

    fn reports(&self) -> Result<Reports, AllocError> {
        let proxy = self.shared.proxy;
        proxy.desk.look(self.rt).book().report(proxy.alloc)
    }

    fn limit(&mut self, server: usize, intake: Intake) -> Result<(), Refusal> {
        self.shared
            .proxy
            .limit(self.rt, &mut self.gate, server, intake)
    }

    fn reopen(&self) -> bool {
        match self.shared.front.log {
            Some(log) => log.reopen(self.rt),
            None => false,
        }
    }

    fn moment(&mut self) -> Moment {
        self.gate.moment()
    }

    fn stop(&mut self) {
        self.shared.stop();
    }

    fn is_empty(&self) -> bool {
        self.shared.clients() == 0
    }

    fn refuse(&mut self) {
        self.shared.refuse_all();
    }

    fn close(&mut self) {
        self.shared.close(self.rt);
    }

    fn is_over(&self) -> bool {
        self.shared.seen_over().is_some()
    }
}

/// Attends to the controls of a proxy until it has ended.
pub fn run_controls<
    'a,
    R: Net<Listener = TcpListener, Stream = TcpStream> + Clock + Print + Wait,
    N: DeskName + Ledger,
>(rt: &'a R, shared: &'a Shared<'a, N>) {
    if attend_to(rt, shared).is_err() {
        shared.give_up(rt);
    }
}

fn attend_to<
    'a,
    R: Net<Listener = TcpListener, Stream = TcpStream> + Clock + Print + Wait,
    N: DeskName + Ledger,
>(rt: &'a R, shared: &'a Shared<'a, N>) -> Result<(), AllocError> {
    let Some(controls) = shared.front.controls else {
        return Ok(());
    };
    let alloc = shared.proxy.alloc;
    let limits = configured_limits_of(alloc, &shared.proxy.config)?;
    let gate = SocketGate::new(alloc, rt, shared.front)?;
    let gate = Ringing { rt, shared, gate };
    let mut helm = CommandExecutor::new(alloc, Steering { rt, shared, gate }, limits.as_slice())?;
    attend(rt, controls, &mut helm)
}
