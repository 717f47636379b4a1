// The opening and the closing of a board.
ghost use Rattle.std.specs.Prelude.{◌≡◌, ◌<◌, ◌≤◌, ◌++◌, true, length, map, take, replicate, IfOk};
ghost use Rattle.std.specs.Mem.Slots.{slots_items, slots_len, IsFull};
ghost use Rattle.base_lists.specs.Weights.{total};
ghost use Rattle.grant_board.specs.BoardWords.{nonzero};
ghost use Rattle.grant_board.specs.Views.{first_mark, terms};
ghost use Rattle.grant_board.specs.Rule.{terms_of};
ghost use Rattle.grant_board.specs.KeeperCalls.{new_keeper, IsClosed};
ghost use Rattle.grant_board.specs.RelayCalls.{new_relay};

use crate::board::Board;
use crate::keeper::KeeperSeat;
use crate::plays::Beside;
use crate::relay::RelaySeat;
use crate::relaying::Relaying;
use crate::tally::Tally;
use crate::view::Plan;
use atomic_table::{Closed, Table};
use std::alloc::{AllocError, Global};
use std::thread::Threads;

/// What a board held when it was closed.
#[derive(Clone, Copy, Debug, PartialEq, Eq)]
pub struct Closing {
    /// The number of places whose words weren't empty.
    pub left: u64,
}

impl Board {
    /// Opens a board whose places are empty, with the keeper's seat and the first relay's. The
    /// limits are the servers' first bounds, by number; 0 is without limit. It allocates a word for
    /// each place and each server. Only code that may start threads opens a board, so code
    /// that is lent a board can't make passes of another.
    pub fn open<R: Threads>(
        _rt: &R,
        alloc: Global,
        places: usize,
        limits: &[u32],
    ) -> Result<(Board, KeeperSeat, RelaySeat), AllocError>
        requires some_places { (0 < places) × (places ≤ 4096) }
        requires some_servers { (0 < length limits.now) × (length limits.now ≤ 64) }
        ensures keeper { IfOk result (λ made. made.1 ≡ record { board = made.0; view = new_keeper (terms places limits.now) }) }
        ensures relay { IfOk result (λ made. made.2 ≡ record { board = made.0; view = new_relay (terms places limits.now) true }) }
    {
        let words = first_words(alloc, places, limits)?;
        let plan = plan(places, limits);
        let (table, mut seat) = Table::of_words(alloc, &words, &plan)?;
        let first = table.shared.split_seat::<Beside>(&mut seat);
        let relay = RelaySeat {
            relaying: Relaying {
                seat: first,
                places,
            },
            first: true,
            tally: Tally::none(),
        };
        Ok((Board { table }, KeeperSeat { seat, places }, relay))
    }

    /// Closes the board, once all its seats are joined, and frees its memory.
    pub fn close(self, keeper: KeeperSeat, relay: RelaySeat) -> Closing
        requires keeper_board { keeper.board ≡ self }
        requires relay_board { relay.board ≡ self }
        requires first { relay.view.first ≡ true }
        requires settled { relay.view.split ≡ relay.view.joined }
        ensures { IsClosed keeper.view relay.view result.left }
    {
        let Board { table } = self;
        let KeeperSeat { mut seat, places } = keeper;
        let RelaySeat {
            relaying,
            first: _,
            tally: _,
        } = relay;
        let Relaying {
            seat: other,
            places: _,
        } = relaying;
        table.shared.join_seat::<Beside>(&mut seat, other);
        let closed = table.close_with(seat);
        let left = left_over(&closed, places);
        closed.free();
        Closing { left }
    }
}

// Returns an empty word for each place, and after them the servers' marks.
fn first_words(alloc: Global, places: usize, limits: &[u32]) -> Result<Vec<u64>, AllocError>
    requires places_fit { places ≤ 4096 }
    requires servers_fit { length limits.now ≤ 64 }
    ensures { IfOk result (λ words. words.items ≡ replicate places 0 ++ map first_mark limits.now) }
{
    let mut words = Vec::with_capacity(alloc, places + limits.len())?;
    words.resize(places, 0)?;
    for limit in limits {
        words.push(first_mark(*limit))?;
    }
    Ok(words)
}

// Returns the first mark of a server with this limit.
fn first_mark(limit: u32) -> u64
    ensures { result ≡ first_mark limit }
{
    if limit == 0 { 0 } else { u64::from(limit) + 1 }
}

// Returns what the table is told of the limits.
fn plan(places: usize, limits: &[u32]) -> Plan
    requires { length limits.now ≤ 64 }
    ensures { terms_of result ≡ terms places limits.now }
{
    let servers = limits.len();
    let mut row = [0; 64];
    row[..servers].copy_from_slice(limits);
    Plan {
        places,
        servers,
        limits: row,
    }
}

// Returns the number of places whose words aren't empty.
fn left_over(closed: &Closed<(), Global>, places: usize) -> u64
    requires full { IsFull closed.now.words }
    requires places_fit { places ≤ slots_len closed.now.words }
    ensures { result ≡ total nonzero (take places (slots_items closed.now.words)) }
{
    let mut left = 0;
    for i in 0..places {
        if closed.word(i) != 0 {
            left += 1;
        }
    }
    left
}
