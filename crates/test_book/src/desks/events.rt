ghost use Rattle.std.specs.Prelude.{◌≡◌, ◌<◌};
ghost use Rattle.shared_desk.specs.Seats.{IsSameSeat};
ghost use Rattle.locked_book.specs.Books.{terms_for};

use super::*;
use crate::assertions::same;
use std::thread::Threads;

// Four requests: one is served, one is aborted, one waits too long, and one finds no server.
#[derive(Clone, Copy)]
struct Four {
    served: Ticketed,
    aborted: Ticketed,
    late: Ticketed,
    lost: Ticketed,
}

// The third one isn't told before its timeout.
fn come<N: DeskName, R: Abort + Wait>(
    rt: &R,
    alloc: Global,
    desk: (&Desk<N>, &DeskKeys<N>),
    relay: &mut RelaySeat,
) -> Four
    requires named { relay.old.board ≡ N.board }
    requires terms { relay.old.view.terms ≡ N.terms }
    ensures places { (result.served.place < N.terms.places) × (result.aborted.place < N.terms.places) × (result.late.place < N.terms.places) × (result.lost.place < N.terms.places) }
    ensures seat { IsSameSeat relay.old relay.new }
{
    let served = arrive(rt, alloc, desk, 0, offset(0));
    let aborted = arrive(rt, alloc, desk, 5, offset(0));
    let late = arrive(rt, alloc, desk, 5, offset(0));
    abort(rt, desk, 6, aborted.ticket);
    turn(rt, desk, 14);
    same(rt, serve(desk.0.board(), relay, late), None);
    turn(rt, desk, 15);
    check(rt, desk, 16, 0, false);
    let lost = arrive(rt, alloc, desk, 17, offset(0));
    Four {
        served,
        aborted,
        late,
        lost,
    }
}

fn abort<N: DeskName, R: Abort + Wait>(
    rt: &R,
    desk: (&Desk<N>, &DeskKeys<N>),
    moment: u64,
    ticket: u64,
) {
    let (answer, changed) = desk.0.open(&desk.1.desk).abort(rt, at(moment), ticket);
    changed.take(&desk.1.wake);
    answer.expect(rt, "an abort");
}

// Returns what each of the four was told.
fn tell_each<N: DeskName, R: Abort + Wait>(
    rt: &R,
    alloc: Global,
    desk: (&Desk<N>, &DeskKeys<N>),
    relay: &mut RelaySeat,
) -> [Option<Verdict>; 4]
    requires named { relay.old.board ≡ N.board }
    requires terms { relay.old.view.terms ≡ N.terms }
    ensures { IsSameSeat relay.old relay.new }
{
    let four = come(rt, alloc, desk, relay);
    let verdicts = [
        serve(desk.0.board(), relay, four.served),
        serve(desk.0.board(), relay, four.aborted),
        serve(desk.0.board(), relay, four.late),
        serve(desk.0.board(), relay, four.lost),
    ];
    turn(rt, desk, 18);
    verdicts
}

fn each_event<N: DeskName, R: Abort + Threads + Wait>(
    rt: &R,
    alloc: Global,
    opened: Opened,
) -> ([Option<Verdict>; 4], Closing)
    requires named { opened.board ≡ N.board }
    requires terms { N.terms ≡ terms_for opened.core.setup }
    requires setup { N.setup ≡ opened.core.setup }
{
    let (desk, keys, mut relay) = start::<N, _>(rt, opened);
    let told = tell_each(rt, alloc, (&desk, &keys), &mut relay);
    let (closing, _) = desk.close(relay);
    (told, closing)
}

#[test]
fn each_is_told(rt: HostRuntime) {
    let alloc = rt.alloc();
    let opened = one_server(&rt, alloc, 8, 4096, 1);
    let (told, closing) = each_event::<Brand, _>(&rt, alloc, opened);
    let verdicts = [
        Some(Verdict::Serve(0)),
        Some(Verdict::Told(Cause::Aborted)),
        Some(Verdict::Told(Cause::Timeout)),
        Some(Verdict::Told(Cause::NoServer)),
    ];
    same(&rt, told, verdicts);
    same(&rt, closing, Closing { left: 0 });
}

// Returns the number of passes that the seat has between its take and its post, and after it.
fn vouch<N: DeskName, R: Abort + Wait>(
    rt: &R,
    desk: (&Desk<N>, &DeskKeys<N>),
    relay: RelaySeat,
    it: Ticketed,
) -> (u64, u64)
    requires named { relay.board ≡ N.board }
    requires in_range { it.place < relay.view.terms.places }
{
    let mut relay = relay;
    let pass = match relay.try_take(desk.0.board(), it.place, it.ticket) {
        Taking::Taken(pass) => pass,
        Taking::NotYet => panic!(rt; "not offered"),
    };
    let ((mut relay, taken), changed) = desk.0.open(&desk.1.desk).vouch(rt, relay);
    changed.take(&desk.1.wake);
    relay.post(desk.0.board(), pass, Ending::Done);
    let ((_, posted), changed) = desk.0.open(&desk.1.desk).vouch(rt, relay);
    changed.take(&desk.1.wake);
    (taken, posted)
}

// Returns the ticket that comes back from a place.
fn collect<N: DeskName, R: Abort + Wait>(
    rt: &R,
    desk: (&Desk<N>, &DeskKeys<N>),
    moment: u64,
    place: usize,
) -> Option<u64>
    requires { place < N.terms.places }
{
    let (answer, changed) = desk.0.open(&desk.1.desk).collect_at(rt, at(moment), place);
    changed.take(&desk.1.wake);
    let found = answer.expect(rt, "a collection");
    found.map(|back| back.ticket)
}

// Says whether a tick at this moment would tell a timeout, before the tick and after it.
fn tick<N: DeskName, R: Abort + Wait>(
    rt: &R,
    desk: (&Desk<N>, &DeskKeys<N>),
    moment: u64,
) -> (bool, bool) {
    let before = desk.0.look(rt).book().expired(at(moment));
    let (answer, changed) = desk.0.open(&desk.1.desk).tick(rt, at(moment));
    changed.take(&desk.1.wake);
    answer.expect(rt, "a tick");
    let after = desk.0.look(rt).book().expired(at(moment));
    (before, after)
}

// Of three requests for one slot, one is over and one has waited too long.
fn ask_on<N: DeskName, R: Abort + Wait>(
    rt: &R,
    alloc: Global,
    desk: (&Desk<N>, &DeskKeys<N>),
    relay: RelaySeat,
)
    requires named { relay.board ≡ N.board }
    requires terms { relay.view.terms ≡ N.terms }
{
    let first = arrive(rt, alloc, desk, 0, offset(0));
    arrive(rt, alloc, desk, 1, offset(0));
    arrive(rt, alloc, desk, 2, offset(0));
    same(rt, vouch(rt, desk, relay, first), (1, 0));
    same(rt, collect(rt, desk, 3, first.place), Some(first.ticket));
    same(rt, tick(rt, desk, 11), (false, false));
    same(rt, tick(rt, desk, 12), (true, false));
}

fn ask<N: DeskName, R: Abort + Threads + Wait>(rt: &R, alloc: Global, opened: Opened)
    requires named { opened.board ≡ N.board }
    requires terms { N.terms ≡ terms_for opened.core.setup }
    requires setup { N.setup ≡ opened.core.setup }
{
    let (desk, keys, relay) = start::<N, _>(rt, opened);
    ask_on(rt, alloc, (&desk, &keys), relay);
    drop(desk);
}

#[test]
fn what_came_back_is_found(rt: HostRuntime) {
    let alloc = rt.alloc();
    let opened = one_server(&rt, alloc, 8, 4096, 1);
    ask::<Brand, _>(&rt, alloc, opened);
}
