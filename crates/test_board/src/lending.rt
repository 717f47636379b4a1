ghost use Rattle.std.specs.Prelude.{◌≡◌, ◌<◌, ◌≤◌, []};

use base_verdict::{Ending, Verdict};
use board_seats::{Idle, Seats};
use grant_board::{Board, BoardName, RelaySeat};
use std::alloc::{AllocError, Global};
use std::marker::Brand;
use std::sync::ledger::{Blank, Ledger};
use std::test::Fail;

const TICKET: u64 = 7;

const SEATS: u64 = 8;

// Two seats are lent, and one takes a pass and posts it. Says whether no third seat was free, the
// pass was found, and all seats came back.
fn lend_two<N: BoardName + Ledger>(
    alloc: Global,
    board: &Board,
    seats: (RelaySeat, RelaySeat),
    blank: Blank,
) -> Result<(bool, bool, bool), AllocError>
    requires board { (board.now ≡ N.board) × (2 ≤ N.terms.places) }
    requires first { (seats.0.board ≡ N.board) × (seats.0.view.terms ≡ N.terms) × (seats.0.view.passes ≡ []) }
    requires second { (seats.1.board ≡ N.board) × (seats.1.view.terms ≡ N.terms) × (seats.1.view.passes ≡ []) }
    requires blank { (blank.name ≡ N.name) × (blank.parts ≡ N.parts) × (2 < blank.parts) }
{
    let mut idle = Vec::new(alloc);
    idle.push(Idle::<N>::new(seats.0))?;
    idle.push(Idle::<N>::new(seats.1))?;
    let mut seats = Seats::open(idle, blank);
    let mut found = false;
    let mut none = false;
    if let Some(one) = seats.lend() {
        if let Some(two) = seats.lend() {
            match seats.lend() {
                None => none = true,
                Some(three) => seats.give_back(three),
            }
            seats.give_back(two);
        }
        match one.take(board, 0, TICKET) {
            Err(one) => seats.give_back(one),
            Ok(taken) => {
                found = taken.verdict() == Verdict::Serve(0);
                seats.give_back(taken.post(board, Ending::Done));
            }
        }
    }
    let idle = seats.end();
    Ok((none, found, idle.len() == 2))
}

#[test]
fn seats_come_back(rt: HostRuntime) -> Result<(), Fail> {
    let (board, mut keeper, mut first) = Board::open(&rt, rt.alloc(), 2, &[2])?;
    keeper.offer(&board, 0, TICKET, Verdict::Serve(0));
    let second = first.split(&board);
    let blank = Blank::new(SEATS);
    let found = lend_two::<Brand>(rt.alloc(), &board, (first, second), blank)?;
    assert_eq!(rt; found, (true, true, true));
    Ok(())
}
