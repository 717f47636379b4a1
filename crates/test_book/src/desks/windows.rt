ghost use Rattle.std.specs.Prelude.{◌≡◌};
ghost use Rattle.shared_desk.specs.Seats.{IsSameSeat};
ghost use Rattle.locked_book.specs.Books.{terms_for};

use super::*;
use crate::assertions::{holds, same};
use std::thread::Threads;

// Two requests wait when the next window begins, and are served in it.
fn wait_over_a_roll<N: DeskName, R: Abort + Wait>(
    rt: &R,
    alloc: Global,
    desk: (&Desk<N>, &DeskKeys<N>),
    relay: &mut RelaySeat,
) -> Reports
    requires named { relay.old.board ≡ N.board }
    requires terms { relay.old.view.terms ≡ N.terms }
{
    let first = arrive(rt, alloc, desk, 0, offset(0));
    arrive(rt, alloc, desk, 1, offset(0));
    let third = arrive(rt, alloc, desk, 2, offset(-5));
    let (ended, changed) = desk.0.open(&desk.1.desk).roll(rt, alloc);
    changed.take(&desk.1.wake);
    let EndedWindow {
        reports: told,
        servers,
    } = ended.expect(rt, "memory");
    holds(rt, told.is_empty());
    same(rt, servers.len(), 1);
    serve(desk.0.board(), relay, first);
    turn(rt, desk, 10);
    serve(desk.0.board(), relay, third);
    turn(rt, desk, 20);
    reports(rt, alloc, desk)
}

fn roll_once<N: DeskName, R: Abort + Threads + Wait>(
    rt: &R,
    alloc: Global,
    opened: Opened,
) -> Reports
    requires named { opened.board ≡ N.board }
    requires terms { N.terms ≡ terms_for opened.core.setup }
    requires setup { N.setup ≡ opened.core.setup }
{
    let (desk, keys, mut relay) = start::<N, _>(rt, opened);
    let told = wait_over_a_roll(rt, alloc, (&desk, &keys), &mut relay);
    drop(desk);
    told
}

#[test]
fn who_waits_joined_at_the_base(rt: HostRuntime) {
    let alloc = rt.alloc();
    let opened = one_server(&rt, alloc, 8, 4096, 1);
    let told = roll_once::<Brand, _>(&rt, alloc, opened);
    let critical = [stay(3, 0, 4, 2, -5), stay(2, 0, 8, 1, 0)];
    holds(
        &rt,
        is_report(&told, (2, 19, 1), (0, 8), critical.as_slice()),
    );
}

// A return finds no room in the log, and stays on the board until there is room.
fn make_room<N: DeskName, R: Abort + Wait>(
    rt: &R,
    alloc: Global,
    desk: (&Desk<N>, &DeskKeys<N>),
    relay: &mut RelaySeat,
) -> EndedWindow
    requires named { relay.old.board ≡ N.board }
    requires terms { relay.old.view.terms ≡ N.terms }
    ensures { IsSameSeat relay.old relay.new }
{
    let it = arrive(rt, alloc, desk, 0, offset(0));
    serve(desk.0.board(), relay, it);
    same(rt, turned(rt, desk, 1), Err(Refusal::LogFull));
    let made = ask_room(rt, alloc, desk).expect(rt, "memory");
    let window = made.expect(rt, "a window");
    turn(rt, desk, 1);
    window
}

fn fill<N: DeskName, R: Abort + Threads + Wait>(
    rt: &R,
    alloc: Global,
    opened: Opened,
) -> (EndedWindow, Closing)
    requires named { opened.board ≡ N.board }
    requires terms { N.terms ≡ terms_for opened.core.setup }
    requires setup { N.setup ≡ opened.core.setup }
{
    let (desk, keys, mut relay) = start::<N, _>(rt, opened);
    let window = make_room(rt, alloc, (&desk, &keys), &mut relay);
    let (closing, _) = desk.close(relay);
    (window, closing)
}

// The answer of a turn.
fn turned<N: DeskName, R: Wait>(
    rt: &R,
    desk: (&Desk<N>, &DeskKeys<N>),
    moment: u64,
) -> Result<(), Refusal> {
    let (answer, changed) = desk.0.open(&desk.1.desk).turn(rt, at(moment));
    changed.take(&desk.1.wake);
    answer
}

#[test]
fn a_full_log_makes_room(rt: HostRuntime) {
    let alloc = rt.alloc();
    let opened = one_server(&rt, alloc, 1, 10, 1);
    let (window, closing) = fill::<Brand, _>(&rt, alloc, opened);
    let EndedWindow { reports, servers } = window;
    same(&rt, reports.len(), 0);
    let line = ServerLine {
        up: true,
        direct: 1,
        granted: 0,
    };
    holds(&rt, servers.as_slice() == [line].as_slice());
    same(&rt, closing, Closing { left: 0 });
}

// A full log refuses the turn, and what was posted stays on the board.
fn leave<N: DeskName, R: Abort + Wait>(
    rt: &R,
    alloc: Global,
    desk: (&Desk<N>, &DeskKeys<N>),
    relay: &mut RelaySeat,
) -> Result<(), Refusal>
    requires named { relay.old.board ≡ N.board }
    requires terms { relay.old.view.terms ≡ N.terms }
    ensures { IsSameSeat relay.old relay.new }
{
    let it = arrive(rt, alloc, desk, 0, offset(0));
    serve(desk.0.board(), relay, it);
    turned(rt, desk, 1)
}

fn leave_one<N: DeskName, R: Abort + Threads + Wait>(
    rt: &R,
    alloc: Global,
    opened: Opened,
) -> (Result<(), Refusal>, Closing)
    requires named { opened.board ≡ N.board }
    requires terms { N.terms ≡ terms_for opened.core.setup }
    requires setup { N.setup ≡ opened.core.setup }
{
    let (desk, keys, mut relay) = start::<N, _>(rt, opened);
    let refused = leave(rt, alloc, (&desk, &keys), &mut relay);
    let (closing, _) = desk.close(relay);
    (refused, closing)
}

#[test]
fn a_return_stays_on_the_board_while_the_log_is_full(rt: HostRuntime) {
    let opened = one_server(&rt, rt.alloc(), 1, 10, 1);
    let (refused, closing) = leave_one::<Brand, _>(&rt, rt.alloc(), opened);
    same(&rt, refused, Err(Refusal::LogFull));
    same(&rt, closing, Closing { left: 1 });
}
