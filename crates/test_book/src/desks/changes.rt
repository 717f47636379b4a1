ghost use Rattle.std.specs.Prelude.{◌≡◌};
ghost use Rattle.shared_desk.specs.Seats.{IsSameSeat};
ghost use Rattle.locked_book.specs.Books.{terms_for};

use super::*;
use crate::assertions::{holds, same};
use std::thread::Threads;

// Sets the server's limit, and returns the first place that was woken.
fn limit<N: DeskName, R: Abort + Wait>(
    rt: &R,
    desk: (&Desk<N>, &DeskKeys<N>),
    moment: u64,
    limit: u32,
) -> Option<usize> {
    let (answer, changed) = desk
        .0
        .open(&desk.1.desk)
        .limit(rt, at(moment), 0, Intake::Open(limit));
    answer.expect(rt, "a limit");
    changed.take(&desk.1.wake).next(0)
}

// Of four requests two are served. The limit falls to one, so that the end of the first one frees
// no slot; then the limit is lifted.
fn lower_and_lift<N: DeskName, R: Abort + Wait>(
    rt: &R,
    alloc: Global,
    desk: (&Desk<N>, &DeskKeys<N>),
    relay: &mut RelaySeat,
) -> Reports
    requires named { relay.old.board ≡ N.board }
    requires terms { relay.old.view.terms ≡ N.terms }
    ensures { IsSameSeat relay.old relay.new }
{
    let first = arrive(rt, alloc, desk, 0, offset(0));
    let second = arrive(rt, alloc, desk, 0, offset(0));
    let third = arrive(rt, alloc, desk, 1, offset(0));
    let fourth = arrive(rt, alloc, desk, 2, offset(0));
    let lowered = limit(rt, desk, 3, 1);
    serve(desk.0.board(), relay, first);
    let ended = turn(rt, desk, 4);
    serve(desk.0.board(), relay, second);
    let ended_too = turn(rt, desk, 5);
    let lifted = limit(rt, desk, 6, 0);
    same(rt, (lowered, ended), (None, None));
    same(
        rt,
        (ended_too, lifted),
        (Some(third.place), Some(fourth.place)),
    );
    reports(rt, alloc, desk)
}

fn change_limits<N: DeskName, R: Abort + Threads + Wait>(
    rt: &R,
    alloc: Global,
    opened: Opened,
) -> (Reports, Closing)
    requires named { opened.board ≡ N.board }
    requires terms { N.terms ≡ terms_for opened.core.setup }
    requires setup { N.setup ≡ opened.core.setup }
{
    let (desk, keys, mut relay) = start::<N, _>(rt, opened);
    let told = lower_and_lift(rt, alloc, (&desk, &keys), &mut relay);
    let (closing, _) = desk.close(relay);
    (told, closing)
}

#[test]
fn a_limit_falls_and_is_lifted(rt: HostRuntime) {
    let alloc = rt.alloc();
    let opened = one_server(&rt, alloc, 8, 4096, 2);
    let (told, closing) = change_limits::<Brand, _>(&rt, alloc, opened);
    let critical = [stay(3, 6, 16, 1, 0)];
    holds(
        &rt,
        is_report(&told, (2, 4, 1), (0, 16), critical.as_slice()),
    );
    same(&rt, closing, Closing { left: 2 });
}
