// Tests of workers side by side.
ghost use Rattle.std.specs.Prelude.{◌≡◌};
ghost use Rattle.locked_book.specs.Books.{terms_for};
ghost use Rattle.proxy_config.specs.Sound.{IsSoundConfig};

use super::fakes::{Fake, Few, Scene, Seen};
use super::scenes::{ANSWERED, FORWARDED, plain};
use super::*;
use relay_workers::serve;
use std::thread::Threads;

// Two workers serve one client each; the first one's server answers only once the second one's has.
fn serve_two<N: DeskName + Send + Sync, R: Abort + Threads + Wait + Sync>(
    rt: &R,
    alloc: Global,
    opened: Opened,
) -> Found
    requires named { opened.board ≡ N.board }
    requires terms { N.terms ≡ terms_for opened.core.setup }
    requires setup { N.setup ≡ opened.core.setup }
    requires sound { IsSoundConfig opened.config }
{
    let (proxy, keys, idle) = start::<N, _>(rt, alloc, opened);
    let seen = Seen::new(keys.wake);
    let one = Scene {
        clients: 1,
        ..plain()
    };
    let waits = Scene {
        answers_after: 1,
        ..one
    };
    let crew = vec![in alloc;
        (Fake::new(waits, &seen), Few::new(10_000)),
        (Fake::new(one, &seen), Few::new(10_000)),
    ]
    .expect(rt, "memory");
    let checks = (Fake::new(one, &seen), Few::new(0));
    let (relay, tally, _) = serve(rt, &proxy, idle.seat(), crew, checks);
    let turned = proxy.turn(rt, &mut Fake::new(one, &seen)).is_ok();
    assert!(rt; turned);
    Found {
        tally,
        seen,
        closing: close(proxy, Idle::new(relay)),
    }
}

#[test]
fn an_answer_waits_for_another_workers(rt: HostRuntime) {
    let alloc = rt.alloc();
    let opened = open_text(&rt, alloc, TWO_SLOTS, 4096);
    let found = serve_two::<Brand, _>(&rt, alloc, opened);
    let both = Tally {
        clients: 2,
        answered: 2,
        ..Tally::zero()
    };
    assert_eq!(rt; found.tally, Ok(both));
    let told = 2 * (FORWARDED.len() + ANSWERED.len());
    assert_eq!(rt; found.seen.right.load(Ordering::SeqCst), told as u64);
    assert_eq!(rt; found.seen.wrong.load(Ordering::SeqCst), 0);
    assert_eq!(rt; found.closing, Closing { left: 0 });
}
