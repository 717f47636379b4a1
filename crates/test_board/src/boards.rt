ghost use Rattle.std.specs.Prelude.{◌≡◌, ◌<◌};

use crate::assertions::{holds, same};
use base_verdict::{Cause, Ending, Verdict};
use grant_board::laws::{Word, decode, decode_encode, encode};
use grant_board::*;
use std::marker::Brand;

mod meetings;
mod threads;

const SERVE: Verdict = Verdict::Serve(0);

static WORDS: [(Word, u64); 5] = [
    (Word::Offered(7, SERVE), 7169),
    (Word::Taken(7, SERVE), 7170),
    (Word::Posted(7, SERVE, Ending::Done), 7171),
    (Word::Posted(7, SERVE, Ending::Failed), 7683),
    (Word::Empty, 0),
];

#[test]
fn numbers_of_words(rt: HostRuntime) {
    for (word, number) in &WORDS {
        assert_eq!(rt; decode(*number), Some(*word), "at {number}");
    }
    same(&rt, encode(Word::Taken(7, SERVE)), 7170);
    same(&rt, decode(4), None);
    same(&rt, decode(513), None);
    let last = Word::Posted((1 << 40) - 1, Verdict::Told(Cause::NoServer), Ending::Done);
    same(&rt, decode_encode(last), Some(last));
}

// Takes the ticket where it is offered, and posts that its exchange is over.
fn serve_one(board: &Board, seat: &mut RelaySeat, place: usize, ticket: u64) -> bool
    requires same_board { seat.old.board ≡ board.now }
    requires in_range { place < seat.old.view.terms.places }
    ensures board { seat.new.board ≡ seat.old.board }
    ensures terms { seat.new.view.terms ≡ seat.old.view.terms }
    ensures first { seat.new.view.first ≡ seat.old.view.first }
    ensures counts { (seat.new.view.split ≡ seat.old.view.split) × (seat.new.view.joined ≡ seat.old.view.joined) }
{
    match seat.try_take(board, place, ticket) {
        Taking::Taken(pass) => {
            seat.post(board, pass, Ending::Done);
            true
        }
        Taking::NotYet => false,
    }
}

// The same for a board that is known only by its name.
fn serve_named<N: BoardName>(board: &Board, seat: &mut RelaySeat, place: usize, ticket: u64) -> bool
    requires named { (board.now ≡ N.board) × (seat.old.board ≡ N.board) × (seat.old.view.terms ≡ N.terms) }
    requires in_range { place < N.terms.places }
    ensures { (seat.new.board ≡ N.board) × (seat.new.view.terms ≡ N.terms) }
{
    serve_one(board, seat, place, ticket)
}

#[test]
fn one_place(rt: HostRuntime) {
    let (board, mut keeper, mut seat) = Board::open(&rt, rt.alloc(), 2, &[1]).expect(&rt, "memory");
    keeper.offer(&board, 0, 7, SERVE);
    holds(&rt, !serve_named::<Brand>(&board, &mut seat, 0, 6));
    let pass = match seat.try_take(&board, 0, 7) {
        Taking::Taken(pass) => pass,
        Taking::NotYet => panic!(rt; "not offered"),
    };
    holds(&rt, seat.first() && pass.place() == 0 && pass.ticket() == 7);
    same(&rt, pass.verdict(), SERVE);
    same(&rt, keeper.collect(&board, 0), None);
    seat.post(&board, pass, Ending::Done);
    let back = Return {
        place: 0,
        ticket: 7,
        ending: Ending::Done,
    };
    same(&rt, keeper.collect(&board, 0), Some(back));
    same(&rt, keeper.collect(&board, 0), None);
    drop(board);
    drop(keeper);
    drop(seat);
}
