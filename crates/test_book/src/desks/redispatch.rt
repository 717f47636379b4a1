ghost use Rattle.std.specs.Prelude.{◌≡◌};
ghost use Rattle.locked_book.specs.Books.{terms_for};

use super::*;
use crate::assertions::{holds, same};
use std::thread::Threads;

// Three servers with one slot each; three failed checks in a row take the first one down.
fn three_servers(rt: &(impl Abort + Threads), alloc: Global) -> Opened {
    let checked = ServerSet {
        limit: 1,
        maxqueue: 0,
        weight: 1,
        rise_fall: Some((2, 3)),
    };
    let servers = vec![in alloc; checked, server(1), server(1)].expect(rt, "memory");
    let setup = Setup {
        servers: Servers::from_vec(servers),
        places: 8,
        log: 4096,
        retries: 3,
        redispatch: true,
        queue_timeout: 10,
    };
    open(rt, alloc, setup, &[1, 1, 1])
}

// A request that is pinned to the first server.
fn pinned(millis: i64) -> Wanted {
    Wanted {
        pin: Some(0),
        ..offset(millis)
    }
}

// Four requests are pinned to the first server. When it falls, two of those that wait are given the other servers.
fn take_down<N: DeskName, R: Abort + Wait>(
    rt: &R,
    alloc: Global,
    desk: (&Desk<N>, &DeskKeys<N>),
) -> (Option<i64>, Reports) {
    arrive(rt, alloc, desk, 0, pinned(0));
    arrive(rt, alloc, desk, 1, pinned(0));
    arrive(rt, alloc, desk, 2, pinned(0));
    arrive(rt, alloc, desk, 3, pinned(-3));
    check(rt, desk, 4, 0, false);
    check(rt, desk, 5, 0, false);
    check(rt, desk, 6, 0, false);
    (worst(rt, desk, 0), reports(rt, alloc, desk))
}

fn fall_once<N: DeskName, R: Abort + Threads + Wait>(
    rt: &R,
    alloc: Global,
    opened: Opened,
) -> (Option<i64>, Reports)
    requires named { opened.board ≡ N.board }
    requires terms { N.terms ≡ terms_for opened.core.setup }
    requires setup { N.setup ≡ opened.core.setup }
{
    let (desk, keys, _) = start::<N, _>(rt, opened);
    let told = take_down(rt, alloc, (&desk, &keys));
    drop(desk);
    told
}

#[test]
fn the_worst_is_not_the_last(rt: HostRuntime) {
    let alloc = rt.alloc();
    let opened = three_servers(&rt, alloc);
    let (worst, told) = fall_once::<Brand, _>(&rt, alloc, opened);
    same(&rt, worst, Some(6));
    let critical = [stay(4, 13, 16, 3, -3)];
    holds(
        &rt,
        is_report(&told, (2, 6, 0), (0, 16), critical.as_slice()),
    );
}
