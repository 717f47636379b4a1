ghost use Rattle.std.specs.Prelude.{◌≡◌, ◌<◌, ◌^◌, [], length, true, None, Some, IfOk, vec_capacity};
ghost use Rattle.std.specs.Sync.Mutex.{mutex_guard_value};
ghost use Rattle.log_entries.specs.Histories.{first_window};
ghost use Rattle.grant_board.specs.KeeperCalls.{new_keeper, IsClosed};
ghost use Rattle.shared_desk.specs.Replies.{IsHeld};
ghost use Rattle.shared_desk.specs.Tails.{nothing_waits, ReadsNew};
ghost use Rattle.dispatch_reports.specs.Reporting.{IsNew};
ghost use Rattle.locked_book.specs.Books.{terms_for};

use crate::changed::{LogRead, TailChanged};
use crate::followed::Followed;
use crate::keys::DeskKeys;
use crate::locked::{Held, Locked, Looking};
use crate::unread::Unread;
use binom_queue::BinomQueue;
use dispatch_core::Core;
use due_key::Key;
use grant_board::{Board, Closing, KeeperSeat, RelaySeat};
use late_cert::Running;
use locked_book::{Book, DeskName};
use log_reading::Batch;
use std::alloc::{AllocError, Global};
use std::sync::Wait;
use std::thread::Threads;

/// The queues of a desk's dispatcher.
pub type DeskQueue = BinomQueue<Key, usize>;

/// The book of a desk.
pub type DeskBook<N> = Book<DeskQueue, N>;

/// A dispatcher that threads share: its book behind a lock, of the setup that N names, and the board
/// that N names, which no lock guards.
///
/// Calls wait for the lock and make the book's call of the same name. `look` lends the book while
/// the lock is held. Calls that change what the lock holds are those of an `OpenDesk`, for which
/// `open` asks for the desk's key; each of them returns what the lock held before it and after it.
#[derive(Drop)]
pub struct Desk<N: DeskName> {
    book: Locked<DeskBook<N>>,
    board: Board,
    /// The part of the log that waits to be read.
    tail: Followed,
    ghost named: { board ≡ N.board },
}

impl<N: DeskName> Desk<N> {
    /// Makes a desk of a fresh dispatcher of the setup that N names and a fresh keeper's seat,
    /// where the board was opened for the dispatcher's places and limits, and of an empty running
    /// worst for the dispatcher's servers. Returns its keys, too. Only who may start threads makes
    /// a desk: code that is lent one can't make another, for the keys of that.
    pub fn new<R: Threads>(
        _rt: &R,
        core: Core<DeskQueue>,
        board: Board,
        seat: KeeperSeat,
        running: Running,
    ) -> (Desk<N>, DeskKeys<N>)
        requires first { core ≡ first_window core.setup [] }
        requires board { (board ≡ N.board) × (seat.board ≡ N.board) }
        requires terms { N.terms ≡ terms_for core.setup }
        requires setup { N.setup ≡ core.setup }
        requires seat { seat.view ≡ new_keeper N.terms }
        requires running { IsNew running (length core.setup.servers) }
        // What its lock holds at first.
        ensures first { result.0.book.first.value ≡ record { history = core; view = seat.view } }
        // Nobody follows its log at first.
        ensures unread { result.0.tail.unread.first.value.tail ≡ None }
    {
        let (book, unread) = Unread::of(Book::new(core, seat, running));
        let (book, keys) = DeskKeys::of(Locked::new(book));
        let desk = Desk {
            book,
            board,
            tail: Followed::new(unread),
        };
        (desk, keys)
    }

    /// Returns the board, for the seats of threads.
    pub fn board(&self) -> &Board
        ensures { result.now ≡ N.board }
    {
        &self.board
    }

    /// Takes the lock to look at the book. A thread that takes the lock again before it drops what
    /// this returns waits for ever.
    pub fn look<R: Wait>(&self, rt: &R) -> Looking<'_, DeskBook<N>>
        ensures { IsHeld N.terms N.setup (mutex_guard_value result.guard) }
    {
        let book = self.book.look(rt);
        // This call states the book's invariant.
        book.book().places();
        book
    }

    /// Keeps new entries of the log for `read_new` from now on, at most this number at a time. Only
    /// who has the `LogKey` can get rid of what it returns. Fails only where memory is refused.
    pub fn follow<R: Wait>(
        &self,
        rt: &R,
        alloc: Global,
        room: usize,
    ) -> Result<TailChanged, AllocError>
        requires { room < 2 ^ 32 }
        ensures { IfOk result (λ change. change.new ≡ Some (nothing_waits room)) }
    {
        self.tail.begin(rt, alloc, room)
    }

    /// Replaces the batch by the entries since the last read, window after window; by nothing,
    /// where none are kept, or where the batch has less room than `follow` was given. `O(n)` in the
    /// new entries while the lock is held, without allocating. Only who has the `LogKey` can get rid
    /// of what it returns.
    pub fn read_new<R: Wait>(&self, rt: &R, batch: &mut Batch) -> LogRead<N>
        ensures { ReadsNew N.terms N.setup (vec_capacity batch.old.entries) result.tail.old result.tail.new result.seen batch.new }
    {
        self.tail.read_new(rt, &self.book, batch)
    }

    /// Closes the board, once all its seats are joined. What the seats took and posted is what the
    /// book offered and collected, except for what is left. Returns what the lock held at last, too.
    pub fn close(self, relay: RelaySeat) -> (Closing, Held<DeskBook<N>>)
        requires named { relay.board ≡ N.board }
        requires first { relay.view.first ≡ true }
        requires settled { relay.view.split ≡ relay.view.joined }
        ensures first { result.1.first.value ≡ self.book.first.value }
        ensures held { IsHeld N.terms N.setup result.1.last.value }
        ensures closed { IsClosed result.1.last.value.view relay.view result.0.left }
    {
        let Desk {
            book,
            board,
            tail: _,
        } = self;
        let (book, last) = book.into_book();
        // This call states the book's invariant.
        book.places();
        (board.close(book.into_seat(), relay), last)
    }

    // Returns the lock of the book.
    pub(crate) fn locked(&self) -> &Locked<DeskBook<N>>
        ensures { result.now ≡ self.now.book }
    {
        &self.book
    }

    // Returns what waits to be read.
    pub(crate) fn followed(&self) -> &Followed {
        &self.tail
    }
}
