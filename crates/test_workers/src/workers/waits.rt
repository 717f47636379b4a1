// Tests of clients that wait.
ghost use Rattle.std.specs.Prelude.{◌≡◌, ◌<◌, []};
ghost use Rattle.locked_book.specs.Books.{terms_for};
ghost use Rattle.proxy_config.specs.Sound.{IsSoundConfig};
ghost use Rattle.shared_desk.specs.Seats.{IsSameSeat};

use super::fakes::{Fake, Few, Scene, Seen};
use super::scenes::plain;
use super::*;
use base_verdict::Ending;
use dispatch_state::Ticketed;
use grant_board::Taking;
use relay_workers::arrive;
use req_view::{Viewed, view};
use std::thread::Threads;

// A request that has a slot before any client comes.
fn come_first<N: DeskName, R: Abort + Wait>(
    rt: &R,
    proxy: &Proxy<N>,
    gate: &mut Fake<'_>,
) -> Ticketed
    ensures { result.place < N.terms.places }
{
    let Viewed::Whole(head, _) = view(proxy.alloc, b"GET / HTTP/1.1\r\nHost: h\r\n\r\n") else {
        panic!(rt; "no head");
    };
    arrive(rt, proxy, gate, &head).expect(rt, "a place")
}

// Ends its exchange. Says whether it had its slot, and its return was collected.
fn go_last<N: DeskName, R: Wait>(
    rt: &R,
    proxy: &Proxy<N>,
    gate: &mut Fake<'_>,
    relay: &mut RelaySeat,
    it: Ticketed,
) -> bool
    requires named { relay.old.board ≡ N.board }
    requires idle { relay.old.view.passes ≡ [] }
    requires in_range { it.place < relay.old.view.terms.places }
    ensures idle { relay.new.view.passes ≡ [] }
    ensures same { IsSameSeat relay.old relay.new }
{
    match relay.try_take(proxy.desk.board(), it.place, it.ticket) {
        Taking::Taken(pass) => {
            relay.post(proxy.desk.board(), pass, Ending::Done);
            proxy.turn(rt, gate).is_ok()
        }
        Taking::NotYet => false,
    }
}

// Clients come while the only slot is taken, which another thread's gate knows of.
fn come_behind<N: DeskName, R: Abort + Wait>(
    rt: &R,
    proxy: &Proxy<N>,
    idle: &mut Idle<N>,
    gate: Fake<'_>,
    other: Fake<'_>,
) -> Result<Tally, Stopped>
    ensures { IsSameSeat idle.old.seat idle.new.seat }
{
    let mut other = other;
    let first = come_first(rt, proxy, &mut other);
    let tally = work_with(rt, proxy, idle, gate, Few::new(3));
    assert!(rt; go_last(rt, proxy, &mut other, &mut idle.seat, first));
    tally
}

fn work_behind<N: DeskName, R: Abort + Threads + Wait>(
    rt: &R,
    alloc: Global,
    opened: Opened,
    scene: Scene,
) -> Found
    requires named { opened.board ≡ N.board }
    requires terms { N.terms ≡ terms_for opened.core.setup }
    requires setup { N.setup ≡ opened.core.setup }
    requires sound { IsSoundConfig opened.config }
{
    let (proxy, keys, mut idle) = start::<N, _>(rt, alloc, opened);
    let seen = Seen::new(keys.wake);
    let gates = (Fake::new(scene, &seen), Fake::new(scene, &seen));
    let tally = come_behind(rt, &proxy, &mut idle, gates.0, gates.1);
    let closing = close(proxy, idle);
    Found {
        tally,
        seen,
        closing,
    }
}

// Checks that six clients that leave after this number of looks get nothing, each is asked that
// often, and nothing is left on the board.
fn expect<R: Abort + Threads + Wait>(rt: &R, alloc: Global, patience: u32) {
    let opened = open_text(rt, alloc, ONE_SLOT, 4096);
    let scene = Scene {
        patience,
        ..plain()
    };
    let found = work_behind::<Brand, _>(rt, alloc, opened, scene);
    let nobody = Tally {
        clients: 6,
        ..Tally::zero()
    };
    assert_eq!(rt; found.tally, Ok(nobody));
    assert_eq!(rt; found.seen.right.load(Ordering::SeqCst), 0);
    assert_eq!(rt; found.closing, Closing { left: 0 });
}

#[test]
fn clients_are_gone_while_they_wait(rt: HostRuntime) {
    expect(&rt, rt.alloc(), 1);
}

#[test]
fn pauses_are_spent(rt: HostRuntime) {
    expect(&rt, rt.alloc(), u32::MAX);
}
