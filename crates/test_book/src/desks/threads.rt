ghost use Rattle.std.specs.Prelude.{◌≡◌, ◌+◌, ◌<◌, IfSome, true};
ghost use Rattle.shared_desk.specs.Seats.{IsSameSeat};
ghost use Rattle.locked_book.specs.Books.{terms_for};

use super::*;
use crate::assertions::same;
use std::thread::{Threads, join};

// What a thread did, and the sums of the windows that it was handed.
#[derive(Clone, Copy, Debug, PartialEq, Eq)]
struct Sums {
    /// The number of its requests that were served.
    served: usize,
    /// The number of requests that the windows' servers were given, at once and after a wait.
    given: usize,
    granted: usize,
    /// The number of requests that the windows' reports cover.
    reported: usize,
}

impl Sums {
    fn zero() -> Sums {
        Sums {
            served: 0,
            given: 0,
            granted: 0,
            reported: 0,
        }
    }

    fn plus(self, other: Sums) -> Sums {
        Sums {
            served: self.served.saturating_add(other.served),
            given: self.given.saturating_add(other.given),
            granted: self.granted.saturating_add(other.granted),
            reported: self.reported.saturating_add(other.reported),
        }
    }

    fn add_lines(&mut self, lines: &[ServerLine]) {
        for line in lines {
            let given = line.direct.saturating_add(line.granted);
            self.given = self.given.saturating_add(given);
            self.granted = self.granted.saturating_add(line.granted);
        }
    }

    fn add_reports(&mut self, reports: &Reports) {
        for report in reports.as_slice() {
            self.reported = self.reported.saturating_add(report.granted);
        }
    }
}

// Hands over the window where the log is full.
fn make_room<N: DeskName, R: Wait>(
    rt: &R,
    alloc: Global,
    desk: (&Desk<N>, &DeskKeys<N>),
    sums: &mut Sums,
) {
    match ask_room(rt, alloc, desk) {
        Ok(Some(window)) => {
            let EndedWindow { reports, servers } = window;
            sums.add_lines(servers.as_slice());
            sums.add_reports(&reports);
        }
        Ok(None) | Err(_) => {}
    }
}

// Lets a request arrive, once the log has room. `None` where it is refused for another reason.
fn admit<N: DeskName, R: Wait>(
    rt: &R,
    alloc: Global,
    desk: (&Desk<N>, &DeskKeys<N>),
    sums: &mut Sums,
) -> Option<Ticketed>
    ensures { IfSome result (λ it. it.place < N.terms.places) }
{
    for _ in rt.forever() {
        let (answer, changed) = desk
            .0
            .open(&desk.1.desk)
            .arrive(rt, alloc, Moment::zero(), offset(0));
        changed.take(&desk.1.wake);
        match answer {
            Ok(it) => return Some(it),
            Err(Refusal::LogFull) => make_room(rt, alloc, desk, sums),
            Err(_) => return None,
        }
    }
    unreachable!()
}

fn turn_round<N: DeskName, R: Wait>(
    rt: &R,
    alloc: Global,
    desk: (&Desk<N>, &DeskKeys<N>),
    sums: &mut Sums,
) {
    let (answer, changed) = desk.0.open(&desk.1.desk).turn(rt, Moment::zero());
    changed.take(&desk.1.wake);
    if answer.is_err() {
        make_room(rt, alloc, desk, sums);
    }
}

// A request arrives, and is over once it was offered.
fn come<N: DeskName, R: Wait>(
    rt: &R,
    alloc: Global,
    desk: (&Desk<N>, &DeskKeys<N>),
    relay: &mut RelaySeat,
    sums: &mut Sums,
)
    requires named { relay.old.board ≡ N.board }
    requires terms { relay.old.view.terms ≡ N.terms }
    ensures { IsSameSeat relay.old relay.new }
{
    let Some(it) = admit(rt, alloc, desk, sums) else {
        return;
    };
    for _ in rt.forever() {
        if serve(desk.0.board(), relay, it).is_some() {
            sums.served = sums.served.saturating_add(1);
            return;
        }
        turn_round(rt, alloc, desk, sums);
    }
}

// Changes the server's limit now and then.
fn change<N: DeskName, R: Wait>(rt: &R, desk: (&Desk<N>, &DeskKeys<N>), number: u32) {
    if number % 64 == 63 {
        let intake = Intake::Open(1 + number / 64 % 4);
        let (_, changed) = desk
            .0
            .open(&desk.1.desk)
            .limit(rt, Moment::zero(), 0, intake);
        changed.take(&desk.1.wake);
    }
}

// Serves this number of requests, each once the one before is over.
fn come_and_go<N: DeskName, R: Wait>(
    rt: &R,
    alloc: Global,
    desk: (&Desk<N>, &DeskKeys<N>),
    relay: RelaySeat,
    requests: u32,
) -> (RelaySeat, Sums)
    requires named { relay.board ≡ N.board }
    requires terms { relay.view.terms ≡ N.terms }
    ensures { IsSameSeat relay result.0 }
{
    let mut relay = relay;
    let mut sums = Sums::zero();
    for number in 0..requests {
        change(rt, desk, number);
        come(rt, alloc, desk, &mut relay, &mut sums);
    }
    (relay, sums)
}

// Two threads, each with a seat and its number of requests.
fn pair<N: DeskName + Send + Sync, R: Threads + Wait + Sync>(
    rt: &R,
    alloc: Global,
    desk: (&Desk<N>, &DeskKeys<N>),
    seats: (RelaySeat, RelaySeat),
    requests: u32,
) -> (RelaySeat, RelaySeat, Sums)
    requires boards { (seats.0.board ≡ N.board) × (seats.1.board ≡ N.board) }
    requires terms { (seats.0.view.terms ≡ N.terms) × (seats.1.view.terms ≡ N.terms) }
    ensures { IsSameSeat seats.0 result.0 × IsSameSeat seats.1 result.1 }
{
    let (first, second) = seats;
    let ((first, some), (second, others)) = join(
        rt,
        || -> (RelaySeat, Sums)
            requires { (first.board ≡ N.board) × (first.view.terms ≡ N.terms) }
            ensures { IsSameSeat first result.0 }
        { come_and_go(rt, alloc, desk, first, requests) },
        || -> (RelaySeat, Sums)
            requires { (second.board ≡ N.board) × (second.view.terms ≡ N.terms) }
            ensures { IsSameSeat second result.0 }
        { come_and_go(rt, alloc, desk, second, requests) },
    );
    (first, second, some.plus(others))
}

// Makes the last turn, and adds the numbers of the last window.
fn finish<N: DeskName, R: Abort + Wait>(
    rt: &R,
    alloc: Global,
    desk: (&Desk<N>, &DeskKeys<N>),
    sums: Sums,
) -> Sums {
    turn(rt, desk, 1);
    let mut sums = sums;
    let lines = desk.0.look(rt).book().servers(alloc);
    sums.add_lines(lines.expect(rt, "memory").as_slice());
    sums.add_reports(&reports(rt, alloc, desk));
    sums
}

fn two_come<N: DeskName + Send + Sync, R: Abort + Threads + Wait + Sync>(
    rt: &R,
    alloc: Global,
    opened: Opened,
) -> (Sums, Closing)
    requires named { opened.board ≡ N.board }
    requires terms { N.terms ≡ terms_for opened.core.setup }
    requires setup { N.setup ≡ opened.core.setup }
{
    let (desk, keys, mut first) = start::<N, _>(rt, opened);
    let second = first.split(desk.board());
    let (mut first, second, sums) = pair(rt, alloc, (&desk, &keys), (first, second), 100);
    let sums = finish(rt, alloc, (&desk, &keys), sums);
    first.join(desk.board(), second);
    let (closing, _) = desk.close(first);
    (sums, closing)
}

#[test]
fn two_threads_of_requests(rt: HostRuntime) {
    let alloc = rt.alloc();
    let opened = one_server(&rt, alloc, 8, 4096, 3);
    let (sums, closing) = two_come::<Brand, _>(&rt, alloc, opened);
    same(&rt, (sums.served, sums.given), (200, 200));
    same(&rt, sums.granted, sums.reported);
    same(&rt, closing, Closing { left: 0 });
}

// The seats of four threads, in two pairs.
#[derive(Drop)]
struct Seats {
    some: (RelaySeat, RelaySeat),
    others: (RelaySeat, RelaySeat),
}

// Two pairs of threads, with this number of requests each.
fn crowd<N: DeskName + Send + Sync, R: Threads + Wait + Sync>(
    rt: &R,
    alloc: Global,
    desk: (&Desk<N>, &DeskKeys<N>),
    seats: Seats,
    requests: u32,
) -> (Seats, Sums)
    requires some_boards { (seats.some.0.board ≡ N.board) × (seats.some.1.board ≡ N.board) }
    requires some_terms { (seats.some.0.view.terms ≡ N.terms) × (seats.some.1.view.terms ≡ N.terms) }
    requires other_boards { (seats.others.0.board ≡ N.board) × (seats.others.1.board ≡ N.board) }
    requires other_terms { (seats.others.0.view.terms ≡ N.terms) × (seats.others.1.view.terms ≡ N.terms) }
    ensures some { IsSameSeat seats.some.0 result.0.some.0 × IsSameSeat seats.some.1 result.0.some.1 }
    ensures others { IsSameSeat seats.others.0 result.0.others.0 × IsSameSeat seats.others.1 result.0.others.1 }
{
    let Seats { some, others } = seats;
    let ((one, two, sums), (three, four, more)) = join(
        rt,
        || -> (RelaySeat, RelaySeat, Sums)
            requires { (some.0.board ≡ N.board) × (some.1.board ≡ N.board) × (some.0.view.terms ≡ N.terms) × (some.1.view.terms ≡ N.terms) }
            ensures { IsSameSeat some.0 result.0 × IsSameSeat some.1 result.1 }
        { pair(rt, alloc, desk, some, requests) },
        || -> (RelaySeat, RelaySeat, Sums)
            requires { (others.0.board ≡ N.board) × (others.1.board ≡ N.board) × (others.0.view.terms ≡ N.terms) × (others.1.view.terms ≡ N.terms) }
            ensures { IsSameSeat others.0 result.0 × IsSameSeat others.1 result.1 }
        { pair(rt, alloc, desk, others, requests) },
    );
    let seats = Seats {
        some: (one, two),
        others: (three, four),
    };
    (seats, sums.plus(more))
}

fn four_come<N: DeskName + Send + Sync, R: Abort + Threads + Wait + Sync>(
    rt: &R,
    alloc: Global,
    opened: Opened,
) -> (Sums, Closing)
    requires named { opened.board ≡ N.board }
    requires terms { N.terms ≡ terms_for opened.core.setup }
    requires setup { N.setup ≡ opened.core.setup }
{
    let (desk, keys, mut first) = start::<N, _>(rt, opened);
    let second = first.split(desk.board());
    let third = first.split(desk.board());
    let fourth = first.split(desk.board());
    let seats = Seats {
        some: (first, second),
        others: (third, fourth),
    };
    let (seats, sums) = crowd(rt, alloc, (&desk, &keys), seats, 5_000);
    let sums = finish(rt, alloc, (&desk, &keys), sums);
    let first = gather(desk.board(), seats);
    let (closing, _) = desk.close(first);
    (sums, closing)
}

// Returns the first seat, once the others are joined into it.
fn gather(board: &Board, seats: Seats) -> RelaySeat
    requires some { (seats.some.0.board ≡ board.now) × (seats.some.1.board ≡ board.now) }
    requires others { (seats.others.0.board ≡ board.now) × (seats.others.1.board ≡ board.now) }
    requires first { seats.some.0.view.first ≡ true }
    ensures board { result.board ≡ board.now }
    ensures first { result.view.first ≡ true }
    ensures split { result.view.split ≡ seats.some.0.view.split }
    ensures joined { result.view.joined ≡ seats.some.0.view.joined + 3 }
{
    let Seats { some, others } = seats;
    let (mut first, second) = some;
    let (third, fourth) = others;
    first.join(board, second);
    first.join(board, third);
    first.join(board, fourth);
    first
}

#[test]
fn a_crowd_of_requests(rt: HostRuntime) {
    let alloc = rt.alloc();
    let opened = one_server(&rt, alloc, 8, 4096, 3);
    let (sums, closing) = four_come::<Brand, _>(&rt, alloc, opened);
    same(&rt, (sums.served, sums.given), (20_000, 20_000));
    same(&rt, sums.granted, sums.reported);
    same(&rt, closing, Closing { left: 0 });
}
