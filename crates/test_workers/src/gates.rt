ghost use Rattle.std.specs.Prelude.{◌≡◌, [], ◌∷◌, true};
ghost use Rattle.grant_board.specs.RelayCalls.{new_relay};
ghost use Rattle.locked_book.specs.Books.{terms_for};
ghost use Rattle.proxy_config.specs.Sound.{IsSoundConfig};
ghost use Rattle.relay_workers.specs.Admissions.{IsRequestAt};

use crate::workers::{Opened, open, start};
use base_verdict::{Ending, Verdict};
use board_seats::Idle;
use dispatch_state::Ticketed;
use grant_board::{Board, Pass, RelaySeat, Taking};
use locked_book::DeskName;
use log_texts::Names;
use proxy_config::{Config, read};
use relay_workers::{EndedCheck, Gate, Proxy, Slot, arrive};
use req_view::{View, Viewed, view};
use run_gate::{Addresses, Clients, GateShared, SocketGate, told_of};
use run_windows::WindowPrinter;
use std::alloc::Global;
use std::io::{Read, Write};
use std::marker::Brand;
use std::net::{Net, SocketAddr, TcpListener, TcpStream};
use std::os::fd::AsRawFd;
use std::process::Abort;
use std::sync::Wait;
use std::thread;
use std::thread::Threads;
use std::time::{Clock, Duration, Instant};

#[test]
fn so_many_clients_come(rt: HostRuntime) {
    let clients = Clients::new(1);
    assert!(rt; clients.take());
    assert!(rt; !clients.take());
    assert!(rt; Clients::new(0).take());
}

fn listening<R: Abort + Net<Listener = TcpListener, Stream = TcpStream>>(rt: &R) -> TcpListener {
    TcpListener::bind(rt, "127.0.0.1:0").expect(rt, "a listener")
}

fn address(rt: &impl Abort, listener: &TcpListener) -> SocketAddr {
    listener.local_addr().expect(rt, "an address")
}

#[test]
fn an_end_is_seen_behind_unread_bytes(rt: HostRuntime) {
    let listener = listening(&rt);
    let mut client = TcpStream::connect(&rt, address(&rt, &listener)).expect(&rt, "a connection");
    let (accepted, _) = listener.accept().expect(&rt, "a client");
    client.write_all(b"x").expect(&rt, "a byte written");
    let connection = accepted.as_raw_fd();
    let alloc = rt.alloc();
    let counts = config_of(&rt, alloc, " option abortonclose\n", 1);
    let does_not = config_of(&rt, alloc, "", 1);
    assert!(rt; !told_of(connection).is_end(&counts));
    drop(client);
    thread::sleep(&rt, Duration::from_millis(20));
    assert!(rt; told_of(connection).is_end(&counts));
    assert!(rt; !told_of(connection).is_end(&does_not));
}

// A configuration with one server, at a port of this machine.
fn config_of(rt: &impl Abort, alloc: Global, settings: &str, port: u16) -> Config
    ensures { IsSoundConfig result }
{
    let text = format!(in alloc;
        "listen w\n bind :1\n{settings} server it 127.0.0.1:{port} check inter 1s\n"
    ).expect(rt, "memory");
    read(alloc, text.as_bytes()).expect(rt, "a configuration")
}

// Returns the result of a check of the gate's server, within a second.
fn checked<G: Gate>(clock: &impl Clock, gate: &mut G) -> Option<bool> {
    for _ in 0..1000 {
        if let Some(check) = gate.probe(0) {
            return Some(check.has_passed());
        }
        thread::sleep(clock, Duration::from_millis(1));
    }
    None
}

// Returns a connection to the server of a pass, where it is for a slot.
fn connect_by<N: DeskName, G: Gate>(
    gate: &mut G,
    relay: &RelaySeat,
    pass: &Pass,
    head: &View,
    at: Ticketed,
) -> Option<G::Server>
    requires named { (relay.now.board ≡ N.board) × (relay.now.view.terms ≡ N.terms) }
    requires held { relay.now.view.passes ≡ pass.now ∷ [] }
    requires its_own { (pass.now.place ≡ at.place) × (pass.now.ticket ≡ at.ticket) }
    requires arrived { IsRequestAt N.terms N.setup head.now at }
{
    match pass.verdict() {
        Verdict::Serve(server) => gate.connect(&Slot::<N>::new(relay, pass, head, at, server)),
        Verdict::Told(_) => None,
    }
}

// Posts that the exchange of a pass is over.
fn give_back(board: &Board, relay: &mut RelaySeat, pass: Pass)
    requires named { relay.old.board ≡ board.now }
    requires held { relay.old.view.passes ≡ pass ∷ [] }
{
    relay.post(board, pass, Ending::Done);
}

// A request arrives and gets its slot, and the gate connects to the slot's server.
fn connects<N: DeskName, R: Abort + Wait, G: Gate>(
    rt: &R,
    proxy: &Proxy<N>,
    idle: Idle<N>,
    gate: &mut G,
    far: &TcpListener,
)
    requires fresh { idle.seat.view ≡ new_relay N.terms true }
{
    let text = b"GET / HTTP/1.1\r\nHost: h\r\n\r\n";
    let Viewed::Whole(head, _) = view(proxy.alloc, text) else {
        panic!(rt; "no head");
    };
    let at = arrive(rt, proxy, gate, &head).expect(rt, "a place");
    let mut relay = idle.seat();
    let taken = relay.try_take(proxy.desk.board(), at.place, at.ticket);
    let server = match taken {
        Taking::Taken(pass) => {
            let server = connect_by::<N, G>(gate, &relay, &pass, &head, at);
            give_back(proxy.desk.board(), &mut relay, pass);
            server
        }
        Taking::NotYet => None,
    };
    let mut server = server.expect(rt, "a connection");
    server.write_all(b"x").expect(rt, "a byte written");
    let (mut accepted, _) = far.accept().expect(rt, "a connection");
    let mut byte = [0u8; 1];
    accepted.read_exact(&mut byte).expect(rt, "a byte read");
    assert_eq!(rt; byte, *b"x");
    gate.disconnect(server);
}

// A gate takes a client, connects to a server, and checks it until it is gone.
fn asks<
    'a,
    N: DeskName,
    R: Abort + Net<Listener = TcpListener, Stream = TcpStream> + Clock + Print + Threads + Wait,
>(rt: &'a R, front: &'a GateShared<'a>, proxy: &Proxy<N>, idle: Idle<N>, far: TcpListener)
    requires fresh { idle.seat.view ≡ new_relay N.terms true }
{
    let mut gate = SocketGate::new(front.alloc, rt, front).expect(rt, "a gate");
    let mut accepted = gate.next().expect(rt, "a client");
    assert!(rt; gate.next().is_none());
    assert!(rt; !gate.gone(&mut accepted));
    connects(rt, proxy, idle, &mut gate, &far);
    assert_eq!(rt; checked(rt, &mut gate), Some(true));
    drop(far);
    assert_eq!(rt; checked(rt, &mut gate), Some(false));
}

// The same with the gate of a fresh proxy, whose clients come to `near` and whose server is `far`.
fn asks_anew<
    N: DeskName,
    R: Abort + Net<Listener = TcpListener, Stream = TcpStream> + Clock + Print + Threads + Wait,
>(rt: &R, alloc: Global, opened: Opened, near: TcpListener, far: TcpListener)
    requires named { opened.board ≡ N.board }
    requires terms { N.terms ≡ terms_for opened.core.setup }
    requires setup { N.setup ≡ opened.core.setup }
    requires sound { IsSoundConfig opened.config }
{
    let (proxy, keys, idle) = start::<N, _>(rt, alloc, opened);
    let names = Names::new(Vec::new(alloc));
    let windows = WindowPrinter::new(alloc, names, 1).expect(rt, "memory");
    let addresses = Addresses::new(alloc, &proxy.config).expect(rt, "memory");
    let front = GateShared {
        alloc,
        config: &proxy.config,
        listener: near,
        clients: Clients::new(1),
        start: Instant::now(rt).expect(rt, "the time"),
        addresses: &addresses,
        wakes: &keys.wake,
        windows: &windows,
        controls: None,
        log: None,
        admin: None,
        keeping: None,
        reusing: None,
        window: None,
        forwarded_for: false,
    };
    asks(rt, &front, &proxy, idle, far);
}

#[test]
fn a_gate_takes_clients_and_checks_servers(rt: HostRuntime) {
    let alloc = rt.alloc();
    let far = listening(&rt);
    let near = listening(&rt);
    let client = TcpStream::connect(&rt, address(&rt, &near)).expect(&rt, "a connection");
    let config = config_of(&rt, alloc, "", address(&rt, &far).port());
    let opened = open(&rt, alloc, config, 4096);
    asks_anew::<Brand, _>(&rt, alloc, opened, near, far);
    drop(client);
}
