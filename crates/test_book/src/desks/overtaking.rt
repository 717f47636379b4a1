ghost use Rattle.std.specs.Prelude.{◌≡◌};
ghost use Rattle.shared_desk.specs.Seats.{IsSameSeat};
ghost use Rattle.locked_book.specs.Books.{terms_for};

use super::*;
use crate::assertions::{holds, same};
use std::thread::Threads;

// Of two waiting requests the later one is due earlier: it is woken and served first.
fn overtake<N: DeskName, R: Abort + Wait>(
    rt: &R,
    alloc: Global,
    desk: (&Desk<N>, &DeskKeys<N>),
    relay: &mut RelaySeat,
)
    requires named { relay.old.board ≡ N.board }
    requires terms { relay.old.view.terms ≡ N.terms }
    ensures { IsSameSeat relay.old relay.new }
{
    let first = arrive(rt, alloc, desk, 0, offset(0));
    let second = arrive(rt, alloc, desk, 1, offset(0));
    let third = arrive(rt, alloc, desk, 2, offset(-5));
    let told = serve(desk.0.board(), relay, first);
    let woken = turn(rt, desk, 10);
    let early = serve(desk.0.board(), relay, second);
    let overtaking = serve(desk.0.board(), relay, third);
    let woken_later = turn(rt, desk, 20);
    let last = serve(desk.0.board(), relay, second);
    let slot = Some(Verdict::Serve(0));
    same(
        rt,
        (told, early, overtaking, last),
        (slot, None, slot, slot),
    );
    same(
        rt,
        (woken, woken_later),
        (Some(third.place), Some(second.place)),
    );
}

// What a desk tells of its window, for class 0 and class 1.
#[derive(Drop)]
struct Told {
    reports: Reports,
    servers: Vec<ServerLine>,
    worst: (Option<i64>, Option<i64>),
    is_full: bool,
}

fn tell<N: DeskName, R: Abort + Wait>(
    rt: &R,
    alloc: Global,
    desk: (&Desk<N>, &DeskKeys<N>),
) -> Told {
    let servers = desk.0.look(rt).book().servers(alloc);
    Told {
        reports: reports(rt, alloc, desk),
        servers: servers.expect(rt, "memory"),
        worst: (worst(rt, desk, 0), worst(rt, desk, 1)),
        is_full: has_ended(ask_room(rt, alloc, desk).expect(rt, "memory")),
    }
}

fn overtake_and_tell<N: DeskName, R: Abort + Wait>(
    rt: &R,
    alloc: Global,
    desk: (&Desk<N>, &DeskKeys<N>),
    relay: &mut RelaySeat,
) -> Told
    requires named { relay.old.board ≡ N.board }
    requires terms { relay.old.view.terms ≡ N.terms }
    ensures { IsSameSeat relay.old relay.new }
{
    overtake(rt, alloc, desk, relay);
    let told = tell(rt, alloc, desk);
    turn(rt, desk, 30);
    told
}

fn overtake_once<N: DeskName, R: Abort + Threads + Wait>(
    rt: &R,
    alloc: Global,
    opened: Opened,
) -> (Told, Closing)
    requires named { opened.board ≡ N.board }
    requires terms { N.terms ≡ terms_for opened.core.setup }
    requires setup { N.setup ≡ opened.core.setup }
{
    let (desk, keys, mut relay) = start::<N, _>(rt, opened);
    let told = overtake_and_tell(rt, alloc, (&desk, &keys), &mut relay);
    let (closing, _) = desk.close(relay);
    (told, closing)
}

#[test]
fn overtaking_through_a_desk(rt: HostRuntime) {
    let alloc = rt.alloc();
    let opened = one_server(&rt, alloc, 8, 4096, 1);
    let (told, closing) = overtake_once::<Brand, _>(&rt, alloc, opened);
    let critical = [stay(3, 6, 10, 2, -5), stay(2, 4, 14, 1, 0)];
    holds(
        &rt,
        is_report(&told.reports, (2, 19, 1), (0, 14), critical.as_slice()),
    );
    let line = ServerLine {
        up: true,
        direct: 1,
        granted: 2,
    };
    holds(&rt, told.servers.as_slice() == [line].as_slice());
    same(&rt, told.worst, (Some(19), None));
    holds(&rt, !told.is_full);
    same(&rt, closing, Closing { left: 0 });
}
