ghost use Rattle.std.specs.Prelude.{◌≡◌, ◌<◌, ◌≤◌, []};

use crate::assertions::{holds, same};
use base_verdict::{Ending, Verdict};
use board_seats::*;
use grant_board::{Board, BoardName, RelaySeat, Return};
use std::alloc::Global;
use std::collections::VecDeque;
use std::marker::Brand;
use std::process::Abort;
use std::sync::{Mutex, Wait};
use std::thread::{Threads, join};

const TICKET: u64 = 7;

const SERVE: Verdict = Verdict::Serve(0);

type Mail<N> = Mutex<VecDeque<Held<N>>>;

/// The parts of a pass that a thread posted.
type Seen = (usize, u64, Verdict);

const OF_THE_FIRST: Seen = (0, TICKET, SERVE);

const OF_THE_SECOND: Seen = (1, TICKET, SERVE);

// A seat takes a pass and is sent through the mail with it. Returns a seat without a pass.
fn take_into<R: Wait, N: BoardName>(
    rt: &R,
    board: &Board,
    mail: &Mail<N>,
    idle: Idle<N>,
    place: usize,
) -> Option<Idle<N>>
    requires { (board.now ≡ N.board) × (place < N.terms.places) }
{
    match idle.take(board, place, TICKET) {
        TakeResult::Held(held) => {
            let pushed = mail.lock(rt).push_back(held);
            match pushed {
                Ok(()) => None,
                Err(refused) => Some(refused.value.post(board, Ending::Done)),
            }
        }
        TakeResult::NotYet(idle) => Some(idle),
    }
}

// Takes a seat with its pass from the mail, and posts the pass.
fn post_from<R: Wait, N: BoardName>(
    rt: &R,
    board: &Board,
    mail: &Mail<N>,
) -> Option<(Idle<N>, Seen)>
    requires { board.now ≡ N.board }
{
    let taken = mail.lock(rt).pop_front();
    match taken {
        None => None,
        Some(held) => {
            let seen = (held.place(), held.ticket(), held.pass().verdict());
            Some((held.post(board, Ending::Done), seen))
        }
    }
}

// Two threads take a pass each, and then two others post them. `None` where a seat didn't get its pass.
fn exchange_passes<R: Threads + Wait + Sync, N: BoardName + Send + Sync>(
    rt: &R,
    board: &Board,
    mail: &Mail<N>,
    one: Idle<N>,
    two: Idle<N>,
) -> (Option<(Idle<N>, Seen)>, Option<(Idle<N>, Seen)>)
    requires { (board.now ≡ N.board) × (2 ≤ N.terms.places) }
{
    join(
        rt,
        || -> Option<Idle<N>>
            requires { (board.now ≡ N.board) × (2 ≤ N.terms.places) }
        { take_into(rt, board, mail, one, 0) },
        || -> Option<Idle<N>>
            requires { (board.now ≡ N.board) × (2 ≤ N.terms.places) }
        { take_into(rt, board, mail, two, 1) },
    );
    join(
        rt,
        || -> Option<(Idle<N>, Seen)>
            requires { board.now ≡ N.board }
        { post_from(rt, board, mail) },
        || -> Option<(Idle<N>, Seen)>
            requires { board.now ≡ N.board }
        { post_from(rt, board, mail) },
    )
}

// Posts the passes that are left in the mail.
fn post_rest<N: BoardName>(board: &Board, held: VecDeque<Held<N>>)
    requires { board.now ≡ N.board }
{
    let mut held = held;
    while let Some(one) = held.pop_front() {
        one.post(board, Ending::Done);
    }
    held.destroy_empty();
}

// Returns the passes that the two threads posted.
fn posted<R: Abort + Threads + Wait + Sync, N: BoardName + Send + Sync>(
    rt: &R,
    alloc: Global,
    board: &Board,
    first: RelaySeat,
    second: RelaySeat,
) -> (RelaySeat, RelaySeat, (Seen, Seen))
    requires board { (board.now ≡ N.board) × (2 ≤ N.terms.places) }
    requires first { (first.board ≡ N.board) × (first.view.terms ≡ N.terms) × (first.view.passes ≡ []) }
    requires second { (second.board ≡ N.board) × (second.view.terms ≡ N.terms) × (second.view.passes ≡ []) }
    ensures { (result.0.board ≡ N.board) × (result.1.board ≡ N.board) }
{
    let mail = Mutex::new(VecDeque::new(alloc));
    let (one, two) = exchange_passes::<R, N>(rt, board, &mail, Idle::new(first), Idle::new(second));
    post_rest(board, mail.into_inner());
    let Some((one, first)) = one else {
        panic!(rt; "no first pass");
    };
    let Some((two, second)) = two else {
        panic!(rt; "no second pass");
    };
    (one.seat(), two.seat(), (first, second))
}

#[test]
fn passes_are_posted_by_other_threads(rt: HostRuntime) {
    let (board, mut keeper, mut first) = Board::open(&rt, rt.alloc(), 2, &[2]).expect(
        &rt, "memory",
    );
    keeper.offer(&board, 0, TICKET, SERVE);
    keeper.offer(&board, 1, TICKET, SERVE);
    let second = first.split(&board);
    let (one, two, seen) = posted::<HostRuntime, Brand>(&rt, rt.alloc(), &board, first, second);
    holds(&rt, one.first() != two.first());
    holds(
        &rt,
        seen == (OF_THE_FIRST, OF_THE_SECOND) || seen == (OF_THE_SECOND, OF_THE_FIRST),
    );
    same(&rt, keeper.collect(&board, 0), Some(done_at(0)));
    same(&rt, keeper.collect(&board, 1), Some(done_at(1)));
    drop(board);
    drop(keeper);
    drop(one);
    drop(two);
}

fn done_at(place: usize) -> Return {
    Return {
        place,
        ticket: TICKET,
        ending: Ending::Done,
    }
}
