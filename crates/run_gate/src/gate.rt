ghost use Rattle.std.specs.Prelude.{◌≡◌, ◌*◌, ◌≤◌, ◌<◌, ◌⊎◌, ◌↔◌, ℕ, List, length, replicate, slice_get, slice_set, is_none, IfOk, IfErr, IfSome, IfNone, IsSomeAnd, IsTrue, None, Some, Ok};
ghost use Rattle.std.specs.Bool.{OnTrue, OnFalse};
ghost use Rattle.std.specs.Duration.{as_nanos};
ghost use Rattle.base_places.specs.Sets.{Has};
ghost use Rattle.base_verdict.specs.declared.Verdict.TheVariants.{Serve};
ghost use Rattle.relay_workers.specs.Windows.{WindowHasEnded};
ghost use Rattle.relay_workers.specs.Carrying.{IsUntouched};
ghost use Rattle.relay_workers.specs.Gates.{noted};
ghost use Rattle.relay_workers.specs.Gates.Notice.{Came, NoMore, IsThere, HasLeft, Released, Connected, Missing, Disconnected, Posted, Found, NotYet, Now, Told, Ended};
ghost use Rattle.run_gate.specs.Notes.{no_bytes, no_notes};
ghost use Rattle.run_gate.specs.Numbers.{IsAddressOf};
ghost use Rattle.run_gate.specs.Probes.{IsCheckOf, RunsOn, running_at};
ghost use Rattle.run_gate.specs.Waits.{left, turnaround};

use crate::dialing::dial;
use crate::front::{GateShared, within};
use crate::leaving::told_of;
use crate::probing::{Checked, Probe};
use crate::waits::{duration, left, moment_of, patience, turnaround};
use base_places::PlaceSet;
use dispatch_reports::EndedWindow;
use due_key::Moment;
use grant_board::RelaySeat;
use locked_book::DeskName;
use relay_workers::{Gate, Slot};
use run_windows::HandedOver;
use shared_desk::Changed;
use std::alloc::{AllocError, Global};
use std::net::{Net, SocketAddr, TcpListener, TcpStream};
use std::os::fd::AsRawFd;
use std::sync::Wait;
use std::time::{Clock, Duration};
use std::{mem, thread};

/// A connect that failed.
#[derive(Clone, Copy)]
struct Failure {
    ticket: u64,
    server: usize,
    at: Moment,
}

impl Failure {
    // Says whether it is of this request and this server.
    fn is_of(&self, ticket: u64, server: usize) -> bool
        ensures { IsTrue result ↔ ((self.now.ticket ≡ ticket) × (self.now.server ≡ server)) }
    {
        self.ticket == ticket && self.server == server
    }

    // Returns how long its request waits from a moment on, by `timeout connect`.
    fn rest(&self, connect: Option<u64>, now: Moment) -> Duration
        ensures { as_nanos result ≡ left self.now.at (turnaround connect) now * 1_000_000 }
    {
        Duration::from_millis(left(self.at, turnaround(connect), now))
    }
}

/// A thread's gate.
#[derive(Drop)]
pub struct SocketGate<'a, R> {
    rt: &'a R,
    front: &'a GateShared<'a>,
    /// The last moment that it returned.
    last: Moment,
    /// The last connect that failed.
    failure: Option<Failure>,
    /// The running checks, by server.
    probes: Vec<Option<Probe>>,
    /// The places that it was told of since the last call of `take_woken`.
    woken: PlaceSet,
}

impl<'a, R: Net<Listener = TcpListener, Stream = TcpStream> + Clock> SocketGate<'a, R> {
    /// Makes a gate. It allocates for a check of each server.
    pub fn new(
        alloc: Global,
        rt: &'a R,
        front: &'a GateShared<'a>,
    ) -> Result<SocketGate<'a, R>, AllocError>
        ensures shared { IfOk result (λ gate. gate.front.now ≡ front.now) }
        ensures idle { IfOk result (λ gate. gate.probes.items ≡ replicate (length front.now.config.now.servers) None) }
        ensures fresh { IfOk result (λ gate. (gate.last ≡ 0) × (gate.failure ≡ None) × ((place : ℕ) → Has gate.woken place → ⊥)) }
    {
        let servers = front.config.servers.len();
        let mut probes = Vec::with_capacity(alloc, servers)?;
        for _ in 0..servers {
            probes.push(None)?;
        }
        Ok(SocketGate {
            rt,
            front,
            last: Moment::zero(),
            failure: None,
            probes,
            woken: PlaceSet::new(),
        })
    }

    /// Takes the places that it was told of since the last call.
    pub fn take_woken(&mut self) -> PlaceSet
        ensures taken { result ≡ self.old.woken }
        ensures none { (place : ℕ) → Has self.new.woken place → ⊥ }
        ensures same { self.new ≡ record self.old { woken = self.new.woken } }
    {
        mem::replace(&mut self.woken, PlaceSet::new())
    }

    /// Adds places to those that `take_woken` takes.
    pub fn add_woken(&mut self, places: &PlaceSet)
        ensures woken { (place : ℕ) → Has self.new.woken place ↔ (Has self.old.woken place ⊎ Has places.now place) }
        ensures same { self.new ≡ record self.old { woken = self.new.woken } }
    {
        add_all(&mut self.woken, places);
    }

    /// Notes a failed connect of another thread: some time passes before the same request tries the
    /// same server again.
    pub fn note_failure(&mut self, ticket: u64, server: usize)
        ensures noted { self.new.failure ≡ Some (record { ticket = ticket; server = server; at = self.new.last }) }
        ensures later { self.old.last ≤ self.new.last }
        ensures same { self.new ≡ record self.old { last = self.new.last; failure = self.new.failure } }
    {
        self.failure = Some(Failure {
            ticket,
            server,
            at: self.now(),
        });
    }

    // Returns the present moment. It is never before an earlier one, even where the clock can't be read.
    fn now(&mut self) -> Moment
        ensures last { result ≡ self.new.last }
        ensures later { self.old.last ≤ self.new.last }
        ensures same { self.new ≡ record self.old { last = self.new.last } }
    {
        let passed = self.front.start.elapsed(self.rt);
        if let Some(now) = passed.ok().and_then(moment_of) {
            if self.last < now {
                self.last = now;
            }
        }
        self.last
    }

    // Waits some time before a request tries the server again that has just failed it.
    fn hold_back(&mut self, ticket: u64, server: usize)
        ensures { self.new ≡ record self.old { last = self.new.last } }
    {
        let Some(failure) = self.failure else {
            return;
        };
        if failure.is_of(ticket, server) {
            let rest = failure.rest(self.front.config.connect_timeout, self.now());
            thread::sleep(self.rt, rest);
        }
    }
}

impl<'a, R: Net<Listener = TcpListener, Stream = TcpStream> + Clock + Wait> SocketGate<'a, R> {
    // Takes the running check of a server, or begins one.
    fn take_probe(&mut self, server: usize, now: Moment) -> Result<Probe, Checked>
        ensures taken { IfOk result (IsCheckOf self.old.front.now.config.now server now (running_at self.old.probes.items server)) }
        ensures failed { IfErr result (λ _. running_at self.old.probes.items server ≡ None) }
        ensures out { self.new.probes.items ≡ slice_set self.old.probes.items server None }
        ensures same { self.new ≡ record self.old { probes = self.new.probes } }
    {
        if let Some(place) = self.probes.get_mut(server) {
            if let Some(probe) = place.take() {
                return Ok(probe);
            }
        }
        let config = self.front.config;
        let Some(it) = config.servers.as_slice().get(server) else {
            return Probe::begin(self.rt, None, now, None);
        };
        let patience = patience(config.connect_timeout, it.check);
        Probe::begin(self.rt, self.address_of(server), now, patience)
    }

    // Reports a check to the event log, where it failed. Returns it.
    fn report(&self, server: usize, checked: Checked) -> Checked
        ensures { result ≡ checked }
    {
        if let (Some(failure), Some(log)) = (checked.failure(), self.front.log) {
            log.note_failure(self.rt, server, failure);
        }
        checked
    }

    // Returns a server's address by the last look-up of its name, and asks for another look-up, for
    // the next check.
    fn address_of(&self, server: usize) -> Option<SocketAddr>
        ensures numbers { IfSome (slice_get self.now.front.now.config.now.servers server) (λ it. IsAddressOf it.address result) }
        ensures nobody { slice_get self.now.front.now.config.now.servers server ≡ None → result ≡ None }
    {
        let addresses = self.front.addresses;
        let address = addresses.of(self.rt, self.front.config, server);
        addresses.look_again(self.rt, server);
        address
    }
}

impl<'a, R: Net<Listener = TcpListener, Stream = TcpStream> + Clock + Wait> Gate
    for SocketGate<'a, R> {
    type Client = TcpStream;

    type Server = TcpStream;

    type Check = Checked;

    type Receipt = HandedOver;

    ghost notes = { λ _. no_notes };

    ghost owes = { λ gate place. Has gate.woken place };

    fn next(&mut self) -> Option<TcpStream>
        ensures some { IfSome result (λ client. no_notes ≡ noted (Came client) no_notes) }
        ensures none { IfNone result (no_notes ≡ noted NoMore no_notes) }
        ensures kept { (place : ℕ) → Has self.old.woken place → Has self.new.woken place }
        ensures same { self.new ≡ self.old }
    {
        self.front.next(self.rt)
    }

    fn release(&mut self, client: TcpStream)
        ensures told { no_notes ≡ noted (Released client) no_notes }
        ensures kept { (place : ℕ) → Has self.old.woken place → Has self.new.woken place }
        ensures same { self.new ≡ self.old }
    {
        drop(client);
    }

    fn connect<N: DeskName>(&mut self, slot: &Slot<'_, N>) -> Option<TcpStream>
        ensures some { IfSome result (λ server. no_notes ≡ noted (Connected slot.now.pass.now server) no_notes) }
        ensures none { IfNone result (no_notes ≡ noted (Missing slot.now.pass.now) no_notes) }
        ensures kept { (place : ℕ) → Has self.old.woken place → Has self.new.woken place }
        ensures failed { (server : ℕ) → slot.now.pass.now.verdict ≡ Serve server → server < length self.old.front.now.config.now.servers → IfNone result (self.new.failure ≡ Some (record { ticket = slot.now.pass.now.ticket; server = server; at = self.new.last })) }
        ensures same { self.new ≡ record self.old { last = self.new.last; failure = self.new.failure } }
        ensures connected { IfSome result (λ _. self.new.failure ≡ self.old.failure) }
    {
        let number = slot.server();
        self.hold_back(slot.ticket(), number);
        let config = self.front.config;
        let server = config.servers.as_slice().get(number)?;
        let dialed = dial(self.rt, &server.address, duration(config.connect_timeout));
        match dialed {
            Some(stream) => Some(within(stream, config.server_timeout)),
            None => {
                self.note_failure(slot.ticket(), number);
                None
            }
        }
    }

    fn disconnect(&mut self, server: TcpStream)
        ensures told { no_notes ≡ noted (Disconnected server) no_notes }
        ensures kept { (place : ℕ) → Has self.old.woken place → Has self.new.woken place }
        ensures same { self.new ≡ self.old }
    {
        drop(server);
    }

    fn posted(&mut self, _seat: &RelaySeat)
        ensures told { no_notes ≡ noted (Posted _seat.now.view) no_notes }
        ensures kept { (place : ℕ) → Has self.old.woken place → Has self.new.woken place }
        ensures same { self.new ≡ self.old }
    {}

    fn probe(&mut self, server: usize) -> Option<Checked>
        ensures found { IfSome result (λ it. no_notes ≡ noted (Found server (is_none it.failure)) no_notes) }
        ensures none { IfNone result (no_notes ≡ noted (NotYet server) no_notes) }
        ensures kept { (place : ℕ) → Has self.old.woken place → Has self.new.woken place }
        ensures over { IfSome result (λ _. self.new.probes.items ≡ slice_set self.old.probes.items server None) }
        ensures same { self.new ≡ record self.old { last = self.new.last; probes = self.new.probes } }
        ensures running { IfNone result (RunsOn self.old.front.now.config.now self.new.last server self.old.probes.items self.new.probes.items) }
    {
        let now = self.now();
        let probe = match self.take_probe(server, now) {
            Ok(probe) => probe,
            Err(checked) => return Some(self.report(server, checked)),
        };
        let told = probe.told();
        match probe.ended(told, now) {
            Some(checked) => Some(self.report(server, checked)),
            None => {
                if let Some(place) = self.probes.get_mut(server) {
                    *place = Some(probe);
                }
                None
            }
        }
    }

    fn gone(&mut self, client: &mut TcpStream) -> bool
        ensures left { OnTrue result (no_notes ≡ noted HasLeft no_notes) }
        ensures there { OnFalse result (no_notes ≡ noted IsThere no_notes) }
        ensures untouched { IsUntouched no_bytes no_bytes client.old client.new }
        ensures kept { (place : ℕ) → Has self.old.woken place → Has self.new.woken place }
        ensures same { self.new ≡ self.old }
    {
        told_of(client.as_raw_fd()).is_end(self.front.config)
    }

    fn moment(&mut self) -> Moment
        ensures told { no_notes ≡ noted (Now result) no_notes }
        ensures kept { (place : ℕ) → Has self.old.woken place → Has self.new.woken place }
        ensures last { result ≡ self.new.last }
        ensures later { self.old.last ≤ self.new.last }
        ensures same { self.new ≡ record self.old { last = self.new.last } }
    {
        self.now()
    }

    fn window<N: DeskName>(&mut self, window: EndedWindow, changed: Changed<N>) -> HandedOver
        ensures handed { (result.window.value ≡ window) × (result.ended ≡ self.new.last) }
        ensures told { no_notes ≡ noted (Ended window changed) no_notes }
        ensures kept { (place : ℕ) → Has self.old.woken place → Has self.new.woken place }
        ensures same { self.new ≡ record self.old { last = self.new.last } }
    {
        let _ = changed.take(self.front.wakes);
        let ended = self.now();
        self.front.windows.hand_over(self.rt, window, ended)
    }

    fn wake<N: DeskName>(&mut self, changed: Changed<N>)
        ensures told { no_notes ≡ noted (Told changed) no_notes }
        ensures owed { (place : ℕ) → Has changed.places place → Has self.new.woken place }
        ensures kept { (place : ℕ) → Has self.old.woken place → Has self.new.woken place }
        ensures same { self.new ≡ record self.old { woken = self.new.woken } }
    {
        let places = changed.take(self.front.wakes);
        self.add_woken(&places);
    }
}

// Adds all places of one set to another.
fn add_all(set: &mut PlaceSet, places: &PlaceSet)
    ensures { (place : ℕ) → Has set.new place ↔ (Has set.old place ⊎ Has places.now place) }
{
    let mut from = 0;
    while let Some(place) = places.next(from) {
        set.insert(place);
        from = place + 1;
    }
}
