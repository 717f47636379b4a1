//! The first seat of a board, and those that it lends to threads.

ghost use Rattle.std.specs.Prelude.{◌≡◌, ◌+◌, ◌++◌, true, All, reverse, vec_len};
ghost use Rattle.std.specs.Bool.{OnTrue};
ghost use Rattle.std.specs.List.{flat_map};
ghost use Rattle.relay_workers.specs.Seats.{IsLent, IsUnused};

use crate::proxy::Proxy;
use board_seats::Idle;
use grant_board::RelaySeat;
use locked_book::DeskName;

/// Splits off this number of seats. False where there is no memory for one.
pub fn split_off<N: DeskName>(
    proxy: &Proxy<N>,
    first: &mut RelaySeat,
    seats: &mut Vec<Idle<N>>,
    count: usize,
) -> bool
    requires named { (first.old.board ≡ N.board) × (first.old.view.terms ≡ N.terms) }
    requires first { first.old.view.first ≡ true }
    ensures lent { IsLent first.old first.new (vec_len seats.old) (vec_len seats.new) }
    ensures all { OnTrue result (first.new.view.split ≡ first.old.view.split + count) }
    ensures more { OnTrue result (vec_len seats.new ≡ vec_len seats.old + count) }
    ensures front { (more : _) × (seats.new.items ≡ seats.old.items ++ more) × All (λ idle. IsUnused N.terms idle.seat) more }
    ensures takes { first.new.view.takes ≡ first.old.view.takes }
    ensures posts { first.new.view.posts ≡ first.old.view.posts }
{
    for _ in 0..count {
        let seat = Idle::new(first.split(proxy.desk.board()));
        if let Err(refused) = seats.push(seat) {
            first.join(proxy.desk.board(), refused.value.seat());
            return false;
        }
    }
    true
}

/// Joins all seats again, the last one first.
pub fn join_all<N: DeskName>(proxy: &Proxy<N>, first: &mut RelaySeat, seats: Vec<Idle<N>>)
    requires named { (first.old.board ≡ N.board) × (first.old.view.terms ≡ N.terms) }
    requires first { first.old.view.first ≡ true }
    ensures lent { IsLent first.old first.new (vec_len seats) 0 }
    ensures split { first.new.view.split ≡ first.old.view.split }
    ensures takes { first.new.view.takes ≡ first.old.view.takes ++ flat_map (λ idle. idle.seat.view.takes) (reverse seats.items) }
    ensures posts { first.new.view.posts ≡ first.old.view.posts ++ flat_map (λ idle. idle.seat.view.posts) (reverse seats.items) }
{
    let mut seats = seats;
    while let Some(idle) = seats.pop() {
        first.join(proxy.desk.board(), idle.seat());
    }
    seats.destroy_empty();
}
