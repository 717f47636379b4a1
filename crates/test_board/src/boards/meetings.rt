ghost use Rattle.std.specs.Prelude.{◌≡◌, [], ◌∷◌};
ghost use Rattle.base_verdict.specs.declared.Verdict.TheVariants.{Serve};
ghost use Rattle.grant_board.specs.Views.{terms, grant};

use super::*;
use std::process::Abort;

pub const BOTH: Met = Met {
    passes: 2,
    bound: 3,
};

const ONE: Met = Met {
    passes: 1,
    bound: 2,
};

// Two seats take a pass each and meet. One pass is posted, the bound falls to 1, and they meet again.
fn meet_twice<R: Abort>(
    rt: &R,
    board: &Board,
    keeper: &mut KeeperSeat,
    first: &mut RelaySeat,
    second: RelaySeat,
) -> RelaySeat
    requires keeper_board { keeper.old.board ≡ board.now }
    requires first_board { first.old.board ≡ board.now }
    requires second_board { second.board ≡ board.now }
    requires terms { (keeper.old.view.terms ≡ terms 2 (2 ∷ [])) × (first.old.view.terms ≡ terms 2 (2 ∷ [])) × (second.view.terms ≡ terms 2 (2 ∷ [])) }
    requires two_out { keeper.old.view.out ≡ grant 0 7 (Serve 0) ∷ grant 1 8 (Serve 0) ∷ [] }
    ensures keeper { keeper.new.board ≡ keeper.old.board }
    ensures first { (first.new.board ≡ first.old.board) × (first.new.view.first ≡ first.old.view.first) × (first.new.view.split ≡ first.old.view.split) × (first.new.view.joined ≡ first.old.view.joined) }
    ensures second { result.board ≡ second.board }
{
    let mut second = second;
    let taking = second.try_take(board, 1, 8);
    match first.try_take(board, 0, 7) {
        Taking::Taken(pass) => {
            let (back, met) = first.meet(board, second, 0);
            same(rt, met, BOTH);
            first.post(board, pass, Ending::Done);
            match keeper.collect(board, 0) {
                Some(_) => keeper.limit(board, 0, 2),
                None => assert!(rt; false, "posted"),
            }
            let (back, met) = first.meet(board, back, 0);
            same(rt, met, ONE);
            second = back;
        }
        Taking::NotYet => assert!(rt; false, "offered"),
    }
    match taking {
        Taking::Taken(pass) => second.post(board, pass, Ending::Done),
        Taking::NotYet => assert!(rt; false, "offered"),
    }
    second
}

#[test]
fn a_bound_falls(rt: HostRuntime) {
    let (board, mut keeper, mut first) = Board::open(&rt, rt.alloc(), 2, &[2]).expect(
        &rt, "memory",
    );
    keeper.offer(&board, 0, 7, Verdict::Serve(0));
    keeper.offer(&board, 1, 8, Verdict::Serve(0));
    let second = first.split(&board);
    let second = meet_twice(&rt, &board, &mut keeper, &mut first, second);
    first.join(&board, second);
    same(&rt, board.close(keeper, first), Closing { left: 1 });
}
