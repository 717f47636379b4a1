//! A pass without a dispatcher: that of a board with one place, at which a server is given.
ghost use Rattle.std.specs.Prelude.{◌≡◌, [], ◌∷◌, true};
ghost use Rattle.grant_board.specs.Views.{grant};
ghost use Rattle.base_verdict.specs.declared.Verdict.TheVariants.{Serve};

use base_verdict::{Ending, Verdict};
use grant_board::{Board, Pass, RelaySeat, Taking};
use std::alloc::Global;
use std::process::Abort;
use std::thread::Threads;

/// The board and the seat for the pass's return.
#[derive(Drop)]
pub(crate) struct Till {
    board: Board,
    seat: RelaySeat,
    held: bool,
    ghost named: { seat.board ≡ board },
    ghost holds: { held ≡ true → seat.view.passes ≡ grant 0 1 (Serve 0) ∷ [] },
}

impl Till {
    /// Makes a pass, and the till for its return.
    pub(crate) fn open(rt: &(impl Abort + Threads), alloc: Global) -> (Till, Pass) {
        let Ok((board, mut keeper, mut seat)) = Board::open(rt, alloc, 1, &[1]) else {
            panic!(rt; "no memory for a board")
        };
        keeper.offer(&board, 0, 1, Verdict::Serve(0));
        match seat.try_take(&board, 0, 1) {
            Taking::Taken(pass) => {
                assert!(rt; is_first(&pass));
                let held = true;
                (Till { board, seat, held }, pass)
            }
            Taking::NotYet => panic!(rt; "no pass is there"),
        }
    }

    /// Posts the pass, once.
    pub(crate) fn post(&mut self, rt: &(impl Abort + Threads), pass: Pass, ending: Ending) {
        assert!(rt; self.held && is_first(&pass));
        self.held = false;
        self.seat.post(&self.board, pass, ending);
    }
}

fn is_first(pass: &Pass) -> bool
    ensures { result ≡ true → pass.now ≡ grant 0 1 (Serve 0) }
{
    pass.place() == 0 && pass.ticket() == 1 && pass.verdict() == Verdict::Serve(0)
}
