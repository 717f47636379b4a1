ghost use Rattle.std.specs.Prelude.{◌≡◌, ◌<◌, ◌∷◌, [], length};
ghost use Rattle.log_entries.specs.Histories.{first_window};
ghost use Rattle.grant_board.specs.KeeperCalls.{new_keeper};
ghost use Rattle.grant_board.specs.Views.{terms};
ghost use Rattle.locked_book.specs.Books.{terms_for};
ghost use Rattle.dispatch_reports.specs.Reporting.{IsNew};

use crate::assertions::{holds, same};
use base_places::PlaceSet;
use base_verdict::Ending;
use dispatch_core::Core;
use dispatch_state::Ticketed;
use due_key::{Class, Key, Moment, Offset};
use grant_board::{Board, KeeperSeat, RelaySeat, Taking};
use late_cert::Running;
use locked_book::{Book, DeskName, Wanted};
use log_entries::{Queue, ServerSet, Servers, Setup};
use pend_queue::ListQueue;
use std::alloc::Global;
use std::marker::Brand;
use std::process::Abort;

type Lists = ListQueue<Key, usize>;

// One server that serves one request at a time, and four places.
fn dispatcher(rt: &impl Abort, alloc: Global) -> Core<Lists>
    ensures first { result ≡ first_window result.setup [] }
    ensures terms { terms_for result.setup ≡ terms 4 (1 ∷ []) }
    ensures one_server { length result.setup.servers ≡ 1 }
{
    let server = ServerSet {
        limit: 1,
        maxqueue: 0,
        weight: 1,
        rise_fall: None,
    };
    let setup = Setup {
        servers: Servers::from_vec(vec![in alloc; server].expect(rt, "memory")),
        places: 4,
        log: 64,
        retries: 3,
        redispatch: false,
        queue_timeout: 0,
    };
    holds(rt, setup.sound());
    Core::new(alloc, setup).expect(rt, "memory")
}

// A request without a class, an offset and a pin arrives.
fn arrive<N: DeskName>(
    rt: &impl Abort,
    alloc: Global,
    board: &Board,
    book: &mut Book<Lists, N>,
) -> Ticketed
    requires { board.now ≡ N.board }
    ensures { result.place < N.terms.places }
{
    let wanted = Wanted {
        class: Class::clamp(0),
        offset: Offset::clamp(0),
        pin: None,
    };
    let mut woken = PlaceSet::new();
    let answer = book.arrive(alloc, board, Moment::zero(), wanted, &mut woken);
    answer.expect(rt, "an arrival")
}

// Makes a turn, and returns the first place that it wakes.
fn turn<N: DeskName>(rt: &impl Abort, board: &Board, book: &mut Book<Lists, N>) -> Option<usize>
    requires { board.now ≡ N.board }
{
    let mut woken = PlaceSet::new();
    let answer = book.turn(board, Moment::zero(), &mut woken);
    answer.expect(rt, "a turn");
    woken.next(0)
}

fn worst<N: DeskName>(book: &Book<Lists, N>) -> Option<i64> {
    book.worst(Queue::Backend, Class::clamp(0))
}

// Returns the number of passes that the seat has between its take and its post, and after it.
fn vouch<N: DeskName>(
    rt: &impl Abort,
    board: &Board,
    book: &mut Book<Lists, N>,
    relay: RelaySeat,
    it: Ticketed,
) -> (u64, u64)
    requires named { (board.now ≡ N.board) × (relay.board ≡ N.board) }
    requires in_range { it.place < relay.view.terms.places }
{
    let mut relay = relay;
    let pass = match relay.try_take(board, it.place, it.ticket) {
        Taking::Taken(pass) => pass,
        Taking::NotYet => panic!(rt; "not offered"),
    };
    let (mut relay, taken) = book.vouch(board, relay);
    relay.post(board, pass, Ending::Done);
    let (_, posted) = book.vouch(board, relay);
    (taken, posted)
}

// Two requests arrive; the second one is offered once the first one is over. Returns the passes,
// the place that was woken and the worst lateness.
fn serve_two<N: DeskName>(
    rt: &impl Abort,
    alloc: Global,
    board: &Board,
    book: &mut Book<Lists, N>,
    relay: RelaySeat,
) -> (u64, u64, Option<usize>, Option<i64>)
    requires named { (board.now ≡ N.board) × (relay.board ≡ N.board) }
    requires terms { relay.view.terms ≡ N.terms }
{
    let first = arrive(rt, alloc, board, book);
    arrive(rt, alloc, board, book);
    let (taken, posted) = vouch(rt, board, book, relay, first);
    let woken = turn(rt, board, book);
    (taken, posted, woken, worst(book))
}

fn keep_book<N: DeskName>(
    rt: &impl Abort,
    alloc: Global,
    core: Core<Lists>,
    running: Running,
    opened: (Board, KeeperSeat, RelaySeat),
) -> (u64, u64, Option<usize>, Option<i64>)
    requires first { core ≡ first_window core.setup [] }
    requires named { (opened.0 ≡ N.board) × (opened.1.board ≡ N.board) × (opened.2.board ≡ N.board) }
    requires terms { N.terms ≡ terms_for core.setup }
    requires setup { N.setup ≡ core.setup }
    requires seats { (opened.1.view ≡ new_keeper N.terms) × (opened.2.view.terms ≡ N.terms) }
    requires running { IsNew running (length core.setup.servers) }
{
    let (board, seat, relay) = opened;
    let mut book: Book<Lists, N> = Book::new(core, seat, running);
    let told = serve_two(rt, alloc, &board, &mut book, relay);
    drop(book);
    drop(board);
    told
}

#[test]
fn a_slot_is_handed_on(rt: HostRuntime) {
    let alloc = rt.alloc();
    let running = Running::new(alloc, 1).expect(&rt, "memory");
    let opened = Board::open(&rt, alloc, 4, &[1]).expect(&rt, "memory");
    let core = dispatcher(&rt, alloc);
    let told = keep_book::<Brand>(&rt, alloc, core, running, opened);
    same(&rt, told, (1, 0, Some(1), Some(0)));
}
