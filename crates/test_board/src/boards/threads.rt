ghost use Rattle.std.specs.Prelude.{◌≡◌, ◌<◌, ◌≤◌, true, [], ◌∷◌};
ghost use Rattle.grant_board.specs.Views.{terms, count_of};

use super::meetings::BOTH;
use super::*;
use std::process::Abort;
use std::sync::Wait;
use std::thread::{Threads, join};

// Each seat takes a pass of the server, and the counts are read.
fn holds_one_each<R: Abort>(
    rt: &R,
    board: &Board,
    keeper: &mut KeeperSeat,
    first: &mut RelaySeat,
    second: RelaySeat,
) -> RelaySeat
    requires keeper_board { keeper.old.board ≡ board.now }
    requires first_board { first.old.board ≡ board.now }
    requires second_board { second.board ≡ board.now }
    requires terms { (first.old.view.terms ≡ terms 4 (2 ∷ 0 ∷ [])) × (second.view.terms ≡ terms 4 (2 ∷ 0 ∷ [])) }
    requires first { first.old.view.first ≡ true }
    ensures keeper { (keeper.new.board ≡ keeper.old.board) × (keeper.new.view.terms ≡ keeper.old.view.terms) × (keeper.new.view.out ≡ keeper.old.view.out) }
    ensures first { (first.new.board ≡ first.old.board) × (first.new.view.terms ≡ first.old.view.terms) × (first.new.view.first ≡ true) × (first.new.view.split ≡ first.old.view.split) × (first.new.view.joined ≡ first.old.view.joined) }
    ensures second { (result.board ≡ second.board) × (result.view.terms ≡ second.view.terms) }
{
    let mut second = second;
    let taking = second.try_take(board, 1, 2);
    match first.try_take(board, 0, 1) {
        Taking::Taken(pass) => {
            let (back, met) = first.meet(board, second, 0);
            same(rt, met, BOTH);
            let (back, held) = keeper.vouch(board, back);
            same(rt, held, 1);
            second = back;
            first.post(board, pass, Ending::Done);
        }
        Taking::NotYet => assert!(rt; false, "offered"),
    }
    match taking {
        Taking::Taken(pass) => second.post(board, pass, Ending::Done),
        Taking::NotYet => assert!(rt; false, "offered"),
    }
    let (second, held) = keeper.vouch(board, second);
    same(rt, held, 0);
    second
}

// Serves the last two places once.
fn serve_all(board: &Board, seat: RelaySeat) -> RelaySeat
    requires same_board { seat.board ≡ board.now }
    requires in_range { seat.view.terms.places ≡ 4 }
    ensures { result.board ≡ seat.board }
{
    let mut seat = seat;
    serve_one(board, &mut seat, 2, 3);
    serve_one(board, &mut seat, 3, 4);
    seat
}

fn serve_both<R: Threads + Sync>(
    rt: &R,
    board: &Board,
    one: RelaySeat,
    two: RelaySeat,
) -> (RelaySeat, RelaySeat)
    requires same_board { (one.board ≡ board.now) × (two.board ≡ board.now) }
    requires in_range { (one.view.terms.places ≡ 4) × (two.view.terms.places ≡ 4) }
    ensures { (result.0.board ≡ board.now) × (result.1.board ≡ board.now) }
{
    join(
        rt,
        || -> RelaySeat
            requires { (one.board ≡ board.now) × (one.view.terms.places ≡ 4) }
            ensures { result.board ≡ board.entry.now }
        { serve_all(board, one) },
        || -> RelaySeat
            requires { (two.board ≡ board.now) × (two.view.terms.places ≡ 4) }
            ensures { result.board ≡ board.entry.now }
        { serve_all(board, two) },
    )
}

// Collects until all four are back. Before each look the bound of server 0 changes between 2 and none.
fn collect_all<R: Wait>(rt: &R, board: &Board, keeper: KeeperSeat) -> KeeperSeat
    requires same_board { keeper.board ≡ board.now }
    requires in_range { keeper.view.terms ≡ terms 4 (2 ∷ 0 ∷ []) }
    requires two_at_most { count_of 0 keeper.view.out ≤ 2 }
    ensures { result.board ≡ keeper.board }
{
    let mut keeper = keeper;
    let mut out = 4u64;
    let mut place = 0;
    for _ in rt.forever() {
        if out == 0 {
            break;
        }
        keeper.limit(board, 0, if place == 2 { 3 } else { 0 });
        match keeper.collect(board, place) {
            Some(_) => out -= 1,
            None => {}
        }
        place = (place + 1) % 4;
    }
    keeper
}

#[test]
fn several_threads(rt: HostRuntime) {
    let (board, mut keeper, mut first) = Board::open(&rt, rt.alloc(), 4, &[2, 0]).expect(
        &rt, "memory",
    );
    keeper.offer(&board, 0, 1, Verdict::Serve(0));
    keeper.offer(&board, 1, 2, Verdict::Serve(0));
    keeper.offer(&board, 2, 3, Verdict::Serve(1));
    keeper.offer(&board, 3, 4, Verdict::Told(Cause::Timeout));
    let second = first.split(&board);
    let second = holds_one_each(&rt, &board, &mut keeper, &mut first, second);
    let third = first.split(&board);
    // Where no thread can be started, the first closure runs last, so that it finds what it waits for.
    let (keeper, (second, third)) = join(
        &rt,
        || -> KeeperSeat
            requires { (keeper.board ≡ board) × (keeper.view.terms ≡ terms 4 (2 ∷ 0 ∷ [])) × (count_of 0 keeper.view.out ≤ 2) }
            ensures { result.board ≡ board }
        { collect_all(&rt, &board, keeper) },
        || -> (RelaySeat, RelaySeat)
            requires { (second.board ≡ board) × (second.view.terms.places ≡ 4) × (third.board ≡ board) × (third.view.terms.places ≡ 4) }
            ensures { (result.0.board ≡ board) × (result.1.board ≡ board) }
        { serve_both(&rt, &board, second, third) },
    );
    first.join(&board, second);
    first.join(&board, third);
    same(&rt, board.close(keeper, first), Closing { left: 0 });
}

// The seat tries once to take the ticket at place 0. Says whether it did.
fn try_once(board: &Board, seat: RelaySeat, ticket: u64) -> (RelaySeat, bool)
    requires same_board { seat.board ≡ board.now }
    requires in_range { 0 < seat.view.terms.places }
    ensures board { result.0.board ≡ seat.board }
    ensures terms { result.0.view.terms ≡ seat.view.terms }
    ensures first { result.0.view.first ≡ seat.view.first }
    ensures counts { (result.0.view.split ≡ seat.view.split) × (result.0.view.joined ≡ seat.view.joined) }
{
    let mut seat = seat;
    let took = serve_one(board, &mut seat, 0, ticket);
    (seat, took)
}

// Two threads try once each to take the ticket.
fn race<R: Threads + Sync>(
    rt: &R,
    board: &Board,
    one: RelaySeat,
    two: RelaySeat,
    ticket: u64,
) -> ((RelaySeat, bool), (RelaySeat, bool))
    requires same_board { (one.board ≡ board.now) × (two.board ≡ board.now) }
    requires in_range { (0 < one.view.terms.places) × (0 < two.view.terms.places) }
    ensures one { (result.0.0.board ≡ one.board) × (result.0.0.view.terms ≡ one.view.terms) × (result.0.0.view.first ≡ one.view.first) × (result.0.0.view.split ≡ one.view.split) × (result.0.0.view.joined ≡ one.view.joined) }
    ensures two { (result.1.0.board ≡ two.board) × (result.1.0.view.terms ≡ two.view.terms) }
{
    join(
        rt,
        || -> (RelaySeat, bool)
            requires { (one.board ≡ board.now) × (0 < one.view.terms.places) }
            ensures { (result.0.board ≡ one.board) × (result.0.view.terms ≡ one.view.terms) × (result.0.view.first ≡ one.view.first) × (result.0.view.split ≡ one.view.split) × (result.0.view.joined ≡ one.view.joined) }
        { try_once(board, one, ticket) },
        || -> (RelaySeat, bool)
            requires { (two.board ≡ board.now) × (0 < two.view.terms.places) }
            ensures { (result.0.board ≡ two.board) × (result.0.view.terms ≡ two.view.terms) }
        { try_once(board, two, ticket) },
    )
}

#[test]
fn two_threads_on_one_place(rt: HostRuntime) {
    let (board, mut keeper, mut first) = Board::open(&rt, rt.alloc(), 1, &[1]).expect(
        &rt, "memory",
    );
    let mut second = first.split(&board);
    for ticket in 0..1000 {
        keeper.offer(&board, 0, ticket, Verdict::Told(Cause::Timeout));
        let ((one, one_took), (two, two_took)) = race(&rt, &board, first, second, ticket);
        first = one;
        second = two;
        assert!(rt; one_took != two_took, "one of them took {ticket}");
        match keeper.collect(&board, 0) {
            Some(back) => same(&rt, back.ticket, ticket),
            None => panic!(rt; "not posted"),
        }
    }
    first.join(&board, second);
    same(&rt, board.close(keeper, first), Closing { left: 0 });
}
