//! A pass without a dispatcher: that of a board with one place, at which a server is given.
ghost use Rattle.std.specs.Prelude.{◌≡◌, [], ◌∷◌, IfOk};
ghost use Rattle.relay_http.specs.States.{Serves};

use base_verdict::{Ending, Verdict};
use grant_board::{Board, Pass, RelaySeat, Taking};
use relay_http::Fault;
use std::alloc::Global;
use std::process::Abort;
use std::thread::Threads;

/// The pass, and the board and the seat for its return. It has no `Drop`, since the pass has none.
pub(crate) struct Held {
    board: Board,
    seat: RelaySeat,
    pub(crate) pass: Pass,
    ghost named: { seat.board ≡ board },
    ghost held: { seat.view.passes ≡ pass ∷ [] },
}

impl Held {
    pub(crate) fn take(rt: &(impl Abort + Threads), alloc: Global) -> Result<Held, Fault>
        ensures { IfOk result (λ held. Serves held.pass.verdict) }
    {
        let Ok((board, mut keeper, mut seat)) = Board::open(rt, alloc, 1, &[1]) else {
            return Err(Fault::NoMemory);
        };
        keeper.offer(&board, 0, 1, Verdict::Serve(0));
        match seat.try_take(&board, 0, 1) {
            Taking::Taken(pass) => Held::of(board, seat, pass),
            Taking::NotYet => Err(Fault::Closed),
        }
    }

    fn of(board: Board, mut seat: RelaySeat, pass: Pass) -> Result<Held, Fault>
        requires named { seat.board ≡ board }
        requires held { seat.view.passes ≡ pass ∷ [] }
        ensures { IfOk result (λ held. Serves held.pass.verdict) }
    {
        match pass.verdict() {
            Verdict::Serve(_) => Ok(Held { board, seat, pass }),
            Verdict::Told(_) => {
                seat.post(&board, pass, Ending::Done);
                Err(Fault::Closed)
            }
        }
    }

    pub(crate) fn post(self) {
        let Held {
            board,
            mut seat,
            pass,
        } = self;
        seat.post(&board, pass, Ending::Done);
    }
}
