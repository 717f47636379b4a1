// Tests of clients one after the other, with a row for the outcome of each. There are fewer places
// than rows, so each row shows that its place is free again.
ghost use Rattle.std.specs.Prelude.{◌≡◌, ◌<◌, ◌≤◌};
ghost use Rattle.locked_book.specs.Books.{terms_for};
ghost use Rattle.proxy_config.specs.Sound.{IsSoundConfig};

use super::fakes::{Fake, Few, Scene, Seen};
use super::scenes::{ANSWERED, BAD_GATEWAY, BAD_REQUEST, FORWARDED, UNAVAILABLE, plain};
use super::*;
use std::thread::Threads;

// One worker serves all clients of a scene; then the board is closed.
fn work<N: DeskName, R: Threads + Wait>(
    rt: &R,
    alloc: Global,
    opened: Opened,
    scene: Scene,
) -> Found
    requires named { opened.board ≡ N.board }
    requires terms { N.terms ≡ terms_for opened.core.setup }
    requires setup { N.setup ≡ opened.core.setup }
    requires sound { IsSoundConfig opened.config }
{
    let (proxy, keys, mut idle) = start::<N, _>(rt, alloc, opened);
    let seen = Seen::new(keys.wake);
    let gate = Fake::new(scene, &seen);
    let tally = work_with(rt, &proxy, &mut idle, gate, Few::new(100));
    Found {
        tally,
        seen,
        closing: close(proxy, idle),
    }
}

// Returns the outcome of a scene, with a log of this length.
fn play<R: Abort + Threads + Wait>(rt: &R, alloc: Global, log: usize, scene: Scene) -> Found
    requires log { (0 < log) × (log ≤ 262144) }
{
    let opened = open_text(rt, alloc, TWO_SLOTS, log);
    work::<Brand, _>(rt, alloc, opened, scene)
}

// Checks that a scene has this tally, its peers are sent this number of expected bytes and no
// others, and nothing is left on the board.
fn expect<R: Abort + Threads + Wait>(
    rt: &R,
    alloc: Global,
    scene: Scene,
    told: usize,
    tally: Tally,
) {
    let found = play(rt, alloc, 4096, scene);
    assert_eq!(rt; found.tally, Ok(tally));
    assert_eq!(rt; found.seen.right.load(Ordering::SeqCst), told as u64);
    assert_eq!(rt; found.seen.wrong.load(Ordering::SeqCst), 0);
    assert_eq!(rt; found.closing, Closing { left: 0 });
}

// Six clients, none of which got a whole answer.
const NOBODY: Tally = Tally {
    clients: 6,
    answered: 0,
    bad_requests: 0,
    bad_gateways: 0,
    unavailable: 0,
};

// Six clients, all of which were answered.
const EVERYBODY: Tally = Tally {
    answered: 6,
    ..NOBODY
};

#[test]
fn clients_are_answered(rt: HostRuntime) {
    let told = 6 * (FORWARDED.len() + ANSWERED.len());
    expect(&rt, rt.alloc(), plain(), told, EVERYBODY);
}

#[test]
fn a_bad_head_is_refused(rt: HostRuntime) {
    let scene = Scene {
        request: b"POST /a HTTP/1.1\r\nHost: h\r\nContent-Length: 3\r\nContent-Length: 4\r\n\r\nabcd",
        to_client: BAD_REQUEST,
        ..plain()
    };
    let tally = Tally {
        bad_requests: 6,
        ..NOBODY
    };
    expect(&rt, rt.alloc(), scene, 6 * BAD_REQUEST.len(), tally);
}

#[test]
fn a_server_fails_twice(rt: HostRuntime) {
    let scene = Scene {
        failing: 2,
        ..plain()
    };
    let told = 6 * (FORWARDED.len() + ANSWERED.len());
    expect(&rt, rt.alloc(), scene, told, EVERYBODY);
}

#[test]
fn a_server_is_never_there(rt: HostRuntime) {
    let scene = Scene {
        failing: 24,
        to_client: UNAVAILABLE,
        ..plain()
    };
    let tally = Tally {
        unavailable: 6,
        ..NOBODY
    };
    expect(&rt, rt.alloc(), scene, 6 * UNAVAILABLE.len(), tally);
}

#[test]
fn a_server_closes_before_a_head(rt: HostRuntime) {
    let scene = Scene {
        answer: b"HTTP/1.1 2",
        to_client: BAD_GATEWAY,
        ..plain()
    };
    let tally = Tally {
        bad_gateways: 6,
        ..NOBODY
    };
    let told = 6 * (FORWARDED.len() + BAD_GATEWAY.len());
    expect(&rt, rt.alloc(), scene, told, tally);
}

#[test]
fn a_server_closes_inside_a_body(rt: HostRuntime) {
    let scene = Scene {
        answer: b"HTTP/1.1 200 OK\r\nContent-Length: 2\r\n\r\na",
        ..plain()
    };
    let told = 6 * (FORWARDED.len() + ANSWERED.len() - 1);
    expect(&rt, rt.alloc(), scene, told, NOBODY);
}

#[test]
fn a_client_closes_inside_its_head(rt: HostRuntime) {
    let scene = Scene {
        request: b"GET / HTTP/1.1\r\nHost",
        ..plain()
    };
    expect(&rt, rt.alloc(), scene, 0, NOBODY);
}

#[test]
fn a_client_is_gone_while_served(rt: HostRuntime) {
    let scene = Scene {
        taken: 0,
        ..plain()
    };
    expect(&rt, rt.alloc(), scene, 6 * FORWARDED.len(), NOBODY);
}

// No client is asked whether it has left before its slot is offered.
#[test]
fn a_client_is_gone_once_its_slot_is_offered(rt: HostRuntime) {
    let scene = Scene {
        patience: 0,
        taken: 0,
        ..plain()
    };
    expect(&rt, rt.alloc(), scene, 6 * FORWARDED.len(), NOBODY);
}

#[test]
fn a_client_is_gone_once_it_is_told(rt: HostRuntime) {
    let scene = Scene {
        failing: 24,
        taken: 0,
        ..plain()
    };
    let tally = Tally {
        unavailable: 6,
        ..NOBODY
    };
    expect(&rt, rt.alloc(), scene, 0, tally);
}

#[test]
fn a_client_is_gone_after_a_byte(rt: HostRuntime) {
    let scene = Scene {
        taken: 1,
        ..plain()
    };
    expect(&rt, rt.alloc(), scene, 6 * (FORWARDED.len() + 1), NOBODY);
}

#[test]
fn windows_go_to_the_gate(rt: HostRuntime) {
    // Such a log has room for one event.
    let found = play(&rt, rt.alloc(), 16, plain());
    assert_eq!(rt; found.tally, Ok(EVERYBODY));
    // Each client after the first one begins a window when it comes, and each when it leaves.
    assert_eq!(rt; found.seen.windows.load(Ordering::SeqCst), 11);
    assert_eq!(rt; found.closing, Closing { left: 0 });
}
