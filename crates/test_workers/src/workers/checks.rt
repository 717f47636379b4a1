// Tests of servers' checks.
ghost use Rattle.std.specs.Prelude.{◌≡◌};
ghost use Rattle.locked_book.specs.Books.{terms_for};
ghost use Rattle.proxy_config.specs.Sound.{IsSoundConfig};

use super::fakes::{Fake, Few, Scene, Seen};
use super::scenes::plain;
use super::*;
use std::thread::Threads;

// The result of a checker: how often it looked, and whether the server is up afterwards.
type Checked = (u64, bool);

// The checker's pauses are spent, or it was told to stop before.
fn check_thrice<N: DeskName, R: Abort + Wait>(
    rt: &R,
    proxy: &Proxy<N>,
    seen: &Seen,
    up: bool,
    stopped: bool,
) -> Checked {
    let before = seen.probes.load(Ordering::SeqCst);
    let mut gate = Fake::new(Scene { up, ..plain() }, seen);
    let stop = Stop::new();
    if stopped {
        stop.tell();
    }
    checker(rt, proxy, &mut gate, &mut Few::new(3), &stop.view());
    let read = proxy.desk.look(rt).book().servers(proxy.alloc);
    let lines = read.expect(rt, "memory");
    let is_up = lines.iter().all(|line| line.up);
    let probes = seen.probes.load(Ordering::SeqCst).saturating_sub(before);
    (probes, is_up)
}

// A server fails its checks, isn't checked by a checker that was told to stop, and then passes.
fn down_and_up<N: DeskName, R: Abort + Threads + Wait>(
    rt: &R,
    alloc: Global,
    opened: Opened,
) -> [Checked; 3]
    requires named { opened.board ≡ N.board }
    requires terms { N.terms ≡ terms_for opened.core.setup }
    requires setup { N.setup ≡ opened.core.setup }
    requires sound { IsSoundConfig opened.config }
{
    let (proxy, keys, idle) = start::<N, _>(rt, alloc, opened);
    let seen = Seen::new(keys.wake);
    let found = [
        check_thrice(rt, &proxy, &seen, false, false),
        check_thrice(rt, &proxy, &seen, true, true),
        check_thrice(rt, &proxy, &seen, true, false),
    ];
    close(proxy, idle);
    found
}

// Each call of the gate's clock is a millisecond later.
fn check_with<R: Abort + Threads + Wait>(rt: &R, alloc: Global, text: &[u8]) -> [Checked; 3] {
    let opened = open_text(rt, alloc, text, 4096);
    down_and_up::<Brand, _>(rt, alloc, opened)
}

#[test]
fn a_server_is_seen_down_and_up_again(rt: HostRuntime) {
    assert_eq!(rt;
        check_with(&rt, rt.alloc(), TWO_SLOTS),
        [(1, false), (0, false), (1, true)]
    );
}

#[test]
fn checks_come_again_after_their_interval(rt: HostRuntime) {
    let text =
        b"listen w\n    bind :80\n    server a 127.0.0.1:9001 maxconn 2 check inter 1ms rise 1 fall 1\n";
    assert_eq!(rt;
        check_with(&rt, rt.alloc(), text),
        [(4, false), (0, false), (4, true)]
    );
}
