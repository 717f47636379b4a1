ghost use Rattle.std.specs.Prelude.{◌≡◌, ℕ, ◌+◌, ◌*◌, ◌<◌, ◌≤◌, ◌↔◌, List, [], length, drop, IfSome, IfNone, IfOk, IfErr, OnOk, OnErr, IsTrue, Some, pos, ◌+ℤ◌};
ghost use Rattle.log_entries.specs.declared.entry.Entry.TheVariants.{Arrive, Abort, Tick, Check, Limit};
ghost use Rattle.log_entries.specs.declared.refusal.Refusal.TheVariants.{LogFull};
ghost use Rattle.queue_outside.specs.Admission.{due_at};
ghost use Rattle.log_entries.specs.Rows.{served, queued};
ghost use Rattle.log_entries.specs.Scenes.{is_up};
ghost use Rattle.base_lists.specs.Weights.{AreIn};
ghost use Rattle.locked_book.specs.Outstanding.{outstanding};
ghost use Rattle.locked_book.specs.Turns.{StopsInBlock, Halts, WalksBlock, Turns};
ghost use Rattle.dispatch_core.specs.Occurrences.{refuses, entry_of};
ghost use Rattle.locked_book.specs.Ends.{neither_ends_nor_limits, IsAcceptable};
ghost use Rattle.log_entries.specs.Histories.{first_window, next_window, state_of, effective, refuses_arrival, refuses_abort, refuses_tick, refuses_check, refuses_limit, SomeExpires, RefusedOrNoMemory};
ghost use Rattle.log_entries.specs.Legal.{AddsEvent, IsLegal};
ghost use Rattle.dispatch_state.specs.Histories.{scene_of, HasEntryRoom};
ghost use Rattle.late_cert.specs.Certificates.{IsCertified};
ghost use Rattle.late_cert.specs.Running.{IsWorstIn};
ghost use Rattle.log_reading.specs.Windows.{window_in};
ghost use Rattle.dispatch_reports.specs.Lines.{AreLines};
ghost use Rattle.dispatch_reports.specs.Reporting.{IsNew};
ghost use Rattle.grant_board.specs.KeeperCalls.{new_keeper, FindsUnposted, Vouches};
ghost use Rattle.locked_book.specs.Books.{terms_for, mark_by, IsBook};
ghost use Rattle.locked_book.specs.Calls.{event_of, CarriesOut, TakesBack, SetsBound};

use crate::keeping::Keeping;
use crate::name::DeskName;
use crate::offering::offer_from;
use base_places::PlaceSet;
use base_verdict::Ending;
use dispatch_core::{Core, Event};
use dispatch_reports::{EndedWindow, ReportingCore, ServerLine};
use dispatch_state::Ticketed;
use due_key::{Class, Due, Key, Moment, Offset};
use grant_board::{Board, KeeperSeat, RelaySeat, Return};
use late_cert::{Reports, Running};
use log_entries::{Entry, Intake, Queue, Refusal};
use pend_queue::PendQueue;
use queue_outside::remaining;
use std::alloc::{AllocError, Global};
use std::marker::{Model, PhantomData};

/// A dispatcher of the setup that N names, beside the keeper's seat of the board that N names.
/// Each call makes the dispatcher's event and then offers the verdicts that followed, so that
/// between calls the verdicts that are out at the board are those that are outstanding in the log.
/// The places of a call's offers are added to the caller's set, so that it can wake whoever waits
/// there.
#[derive(Drop)]
pub struct Book<Q: PendQueue<Key, usize>, N: DeskName> {
    core: ReportingCore<Q>,
    keeping: Keeping,
    of: PhantomData<N>,
}

impl<Q: PendQueue<Key, usize>, N: DeskName> Model for Book<Q, N> {
    ghost use Rattle.locked_book.specs.Calls.{Booked};
    ghost use Rattle.locked_book.specs.KeptBooks.{IsKeptBook};

    ghost Value = { Booked };

    ghost view = { λ book. record { history = book.core; view = book.keeping.view } };

    ghost invariant = { λ book. IsKeptBook N.board N.terms N.setup book.core book.keeping };
}

/// The wish of an arrival: its class and offset, and the server that it is pinned to.
#[derive(Clone, Copy, Debug)]
pub struct Wanted {
    pub class: Class,
    pub offset: Offset,
    pub pin: Option<usize>,
}

/// The wish of an arrival that waited elsewhere before: its class, its due date, and the server
/// that it is pinned to.
#[derive(Clone, Copy, Debug)]
pub struct Deferred {
    pub class: Class,
    pub due: Due,
    pub pin: Option<usize>,
}

impl<Q: PendQueue<Key, usize>, N: DeskName> Book<Q, N> {
    /// Makes a book of a fresh dispatcher of the setup that N names and a fresh keeper's seat,
    /// where the board was opened for the dispatcher's places and limits, and of an empty running
    /// worst for the dispatcher's servers.
    pub fn new(core: Core<Q>, seat: KeeperSeat, running: Running) -> Book<Q, N>
        requires first { core ≡ first_window core.setup [] }
        requires board { seat.board ≡ N.board }
        requires terms { N.terms ≡ terms_for core.setup }
        requires setup { N.setup ≡ core.setup }
        requires seat { seat.view ≡ new_keeper N.terms }
        requires running { IsNew running (length core.setup.servers) }
        ensures { result ≡ record { history = core; view = seat.view } }
    {
        let places = core.places();
        Book {
            core: ReportingCore::new(core, running),
            keeping: Keeping::new(seat, places),
            of: PhantomData,
        }
    }

    /// A request arrives. Refused as the dispatcher's `arrive` is.
    pub fn arrive(
        &mut self,
        alloc: Global,
        board: &Board,
        moment: Moment,
        wanted: Wanted,
        woken: &mut PlaceSet,
    ) -> Result<Ticketed, Refusal>
        requires { board.now ≡ N.board }
        ensures ok { IfOk result (λ it. AddsEvent self.old.history self.new.history (Arrive (effective self.old.history moment) (record { ticket = it.ticket; class = wanted.class; due = pos (effective self.old.history moment) +ℤ wanted.offset; pin = wanted.pin; place = it.place }))) }
        ensures place { IfOk result (λ it. it.place < N.terms.places) }
        ensures err { IfErr result (RefusedOrNoMemory (refuses_arrival self.old.history wanted.pin)) }
        ensures carried { OnOk result (CarriesOut self.old self.new woken.old woken.new) }
        ensures unchanged { OnErr result ((self.new ≡ self.old) × (woken.new ≡ woken.old)) }
    {
        let from = self.core.log().len();
        let it = self
            .core
            .arrive(alloc, moment, wanted.class, wanted.offset, wanted.pin)?;
        offer_from(&self.core, &mut self.keeping, board, from, woken);
        Ok(it)
    }

    /// A request that waited elsewhere arrives: it keeps its due date, or gets the earliest one
    /// that an arrival at this moment may have. Refused as `arrive` is.
    pub fn arrive_due(
        &mut self,
        alloc: Global,
        board: &Board,
        moment: Moment,
        deferred: Deferred,
        woken: &mut PlaceSet,
    ) -> Result<Ticketed, Refusal>
        requires { board.now ≡ N.board }
        ensures ok { IfOk result (λ it. AddsEvent self.old.history self.new.history (Arrive (effective self.old.history moment) (record { ticket = it.ticket; class = deferred.class; due = due_at deferred.due (effective self.old.history moment); pin = deferred.pin; place = it.place }))) }
        ensures place { IfOk result (λ it. it.place < N.terms.places) }
        ensures err { IfErr result (RefusedOrNoMemory (refuses_arrival self.old.history deferred.pin)) }
        ensures carried { OnOk result (CarriesOut self.old self.new woken.old woken.new) }
        ensures unchanged { OnErr result ((self.new ≡ self.old) × (woken.new ≡ woken.old)) }
    {
        let now = self.core.moment_at(moment);
        let wanted = Wanted {
            class: deferred.class,
            offset: remaining(deferred.due, now),
            pin: deferred.pin,
        };
        self.arrive(alloc, board, moment, wanted, woken)
    }

    /// A request that waits is given up. Refused as the dispatcher's `abort` is.
    pub fn abort(
        &mut self,
        board: &Board,
        moment: Moment,
        ticket: u64,
        woken: &mut PlaceSet,
    ) -> Result<(), Refusal>
        requires { board.now ≡ N.board }
        ensures ok { OnOk result (AddsEvent self.old.history self.new.history (Abort (effective self.old.history moment) ticket)) }
        ensures err { IfErr result (λ refusal. refuses_abort self.old.history ticket ≡ Some refusal) }
        ensures carried { OnOk result (CarriesOut self.old self.new woken.old woken.new) }
        ensures unchanged { OnErr result ((self.new ≡ self.old) × (woken.new ≡ woken.old)) }
    {
        self.apply(board, Event::Abort { moment, ticket }, woken)
    }

    /// Each request that has waited as long as it may is told so. Refused as the dispatcher's `tick` is.
    pub fn tick(
        &mut self,
        board: &Board,
        moment: Moment,
        woken: &mut PlaceSet,
    ) -> Result<(), Refusal>
        requires { board.now ≡ N.board }
        ensures ok { OnOk result (AddsEvent self.old.history self.new.history (Tick (effective self.old.history moment))) }
        ensures err { IfErr result (λ refusal. refuses_tick self.old.history ≡ Some refusal) }
        ensures carried { OnOk result (CarriesOut self.old self.new woken.old woken.new) }
        ensures unchanged { OnErr result ((self.new ≡ self.old) × (woken.new ≡ woken.old)) }
    {
        self.apply(board, Event::Tick { moment }, woken)
    }

    /// A check of a server ended. Refused as the dispatcher's `check` is.
    pub fn check(
        &mut self,
        board: &Board,
        moment: Moment,
        server: usize,
        ok: bool,
        woken: &mut PlaceSet,
    ) -> Result<(), Refusal>
        requires { board.now ≡ N.board }
        ensures ok { OnOk result (AddsEvent self.old.history self.new.history (Check (effective self.old.history moment) server ok)) }
        ensures err { IfErr result (λ refusal. refuses_check self.old.history server ≡ Some refusal) }
        ensures carried { OnOk result (CarriesOut self.old self.new woken.old woken.new) }
        ensures unchanged { OnErr result ((self.new ≡ self.old) × (woken.new ≡ woken.old)) }
    {
        let checked = Event::Check {
            moment,
            server,
            answered: ok,
        };
        self.apply(board, checked, woken)
    }

    // An event that ends no request and sets no limit.
    fn apply(&mut self, board: &Board, event: Event, woken: &mut PlaceSet) -> Result<(), Refusal>
        requires board { board.now ≡ N.board }
        requires plain { IsTrue (neither_ends_nor_limits event) }
        ensures ok { OnOk result (AddsEvent self.old.history self.new.history (entry_of self.old.history event)) }
        ensures err { IfErr result (λ refusal. refuses self.old.history event ≡ Some refusal) }
        ensures carried { OnOk result (CarriesOut self.old self.new woken.old woken.new) }
        ensures unchanged { OnErr result ((self.new ≡ self.old) × (woken.new ≡ woken.old)) }
    {
        let from = self.core.log().len();
        self.core.apply(event)?;
        offer_from(&self.core, &mut self.keeping, board, from, woken);
        Ok(())
    }

    /// Collects what was posted at a place, which becomes the dispatcher's event. `None` where
    /// nothing is posted there. Refused where the log is full, which is asked first: the return
    /// then stays on the board.
    pub fn collect_at(
        &mut self,
        board: &Board,
        moment: Moment,
        place: usize,
        woken: &mut PlaceSet,
    ) -> Result<Option<Return>, Refusal>
        requires board { board.now ≡ N.board }
        requires in_range { place < N.terms.places }
        ensures some { IfOk result (λ found. IfSome found (λ back. TakesBack self.old self.new place (effective self.old.history moment) back woken.old woken.new)) }
        ensures none { IfOk result (λ found. IfNone found ((self.new.history ≡ self.old.history) × FindsUnposted self.old.view self.new.view place × (woken.new ≡ woken.old))) }
        ensures err { IfErr result (λ refusal. (refusal ≡ LogFull) × (refuses_tick self.old.history ≡ Some LogFull)) }
        ensures unchanged { OnErr result ((self.new ≡ self.old) × (woken.new ≡ woken.old)) }
    {
        if !self.core.has_room() {
            return Err(Refusal::LogFull);
        }
        Ok(self.take_at(board, moment, place, woken))
    }

    // The same where the log has room.
    fn take_at(
        &mut self,
        board: &Board,
        moment: Moment,
        place: usize,
        woken: &mut PlaceSet,
    ) -> Option<Return>
        requires board { board.now ≡ N.board }
        requires in_range { place < N.terms.places }
        requires room { HasEntryRoom self.old.history }
        ensures some { IfSome result (λ back. TakesBack self.old self.new place (effective self.old.history moment) back woken.old woken.new) }
        ensures none { IfNone result ((self.new.history ≡ self.old.history) × FindsUnposted self.old.view self.new.view place × (woken.new ≡ woken.old)) }
    {
        let back = self.keeping.collect(board, place)?;
        let from = self.core.log().len();
        note_end(&mut self.core, moment, back);
        offer_from(&self.core, &mut self.keeping, board, from, woken);
        Some(back)
    }

    /// Sets a server's limit: the event, then the server's mark at the board, then the offers. No
    /// request that is out is called back. Refused as the dispatcher's `limit` is.
    pub fn limit(
        &mut self,
        board: &Board,
        moment: Moment,
        server: usize,
        limit: Intake,
        woken: &mut PlaceSet,
    ) -> Result<(), Refusal>
        requires { board.now ≡ N.board }
        ensures ok { OnOk result (AddsEvent self.old.history self.new.history (Limit (effective self.old.history moment) server limit)) }
        ensures err { IfErr result (λ refusal. refuses_limit self.old.history server ≡ Some refusal) }
        ensures bound { OnOk result (SetsBound self.old self.new server (mark_by (record { limit = limit; served = served server (state_of self.old.history).rows })) woken.old woken.new) }
        ensures unchanged { OnErr result ((self.new ≡ self.old) × (woken.new ≡ woken.old)) }
    {
        let from = self.core.log().len();
        // No more requests are served than there are places.
        let served = self.core.served(server).min(self.core.places());
        self.core.limit(moment, server, limit)?;
        self.keeping.limit(board, server, mark_by(limit, served));
        offer_from(&self.core, &mut self.keeping, board, from, woken);
        Ok(())
    }

    /// Returns the reports of the present window. `O(n log n)` in its grants; fails only where memory is refused.
    pub fn report(&self, alloc: Global) -> Result<Reports, AllocError>
        ensures { IfOk result (IsCertified self.now.history) }
    {
        self.core.report(alloc)
    }

    /// Returns a line for each server in file order, of the present window. `O(s n)` in the servers
    /// and entries; fails only where memory is refused.
    pub fn servers(&self, alloc: Global) -> Result<Vec<ServerLine>, AllocError>
        ensures { IfOk result (λ lines. AreLines self.now.history lines.items) }
    {
        self.core.servers(alloc)
    }

    /// Returns the entries of the present window after the first `count`. `O(1)` for each; fails
    /// only where memory is refused.
    pub fn entries_after(&self, alloc: Global, count: usize) -> Result<Vec<Entry>, AllocError>
        ensures { IfOk result (λ entries. entries.items ≡ drop count self.now.history.log) }
    {
        let entries = self.core.log().entries();
        let count = count.min(entries.len());
        Vec::from_slice(alloc, &entries[count..])
    }

    /// Returns the entries of the present window.
    pub fn entries(&self) -> &[Entry]
        ensures { result.now ≡ self.now.history.log }
    {
        self.core.log().entries()
    }

    /// Returns the greatest lateness of a queue and class in the present window, in milliseconds;
    /// `None` only where none of its requests was granted a slot. `O(1)`, without allocating.
    pub fn worst(&self, queue: Queue, class: Class) -> Option<i64>
        ensures { IsWorstIn (window_in self.now.history) queue class result }
    {
        self.core.worst(queue, class)
    }

    /// Begins the next window where the log has no room for an event, and returns what is told of
    /// the one that ended; `None` where it has room. Where memory is refused nothing changes, and
    /// the board never does.
    pub fn make_room(&mut self, alloc: Global) -> Result<Option<EndedWindow>, AllocError>
        ensures none { IfOk result (λ found. IfNone found (HasEntryRoom self.old.history × (self.new ≡ self.old))) }
        ensures some { IfOk result (λ found. IfSome found (λ window. (HasEntryRoom self.old.history → ⊥) × IsCertified self.old.history window.reports × AreLines self.old.history window.servers.items × (self.new ≡ record self.old { history = next_window self.old.history }))) }
        ensures err { OnErr result (self.new ≡ self.old) }
    {
        self.core.make_room(alloc)
    }

    /// Begins the next window of the log. The board doesn't change.
    pub fn roll(&mut self)
        ensures { self.new ≡ record self.old { history = next_window self.old.history } }
    {
        self.core.roll();
    }

    /// Returns the relay's seat unchanged, and the number of its passes, each of which is outstanding.
    pub fn vouch(&mut self, board: &Board, relay: RelaySeat) -> (RelaySeat, u64)
        requires board { board.now ≡ N.board }
        requires relay_board { relay.board ≡ board.now }
        ensures back { result.0 ≡ relay }
        ensures count { result.1 ≡ length relay.view.passes }
        ensures outstanding { AreIn relay.view.passes (outstanding (state_of self.new.history).rows) }
        ensures history { self.new.history ≡ self.old.history }
        ensures vouched { Vouches self.old.view self.new.view relay.view.passes }
    {
        self.keeping.vouch(board, relay)
    }

    /// Walks the blocks of 64 places by rising number: looks at each place that is out when the
    /// walk comes to its block, and collects what was posted there; then makes a tick, where a
    /// request has waited too long. Refused where the log is full, even if no place is out: the
    /// returns that were collected before are kept. `O(1)` for each place that is out, beside the
    /// events.
    pub fn turn(
        &mut self,
        board: &Board,
        moment: Moment,
        woken: &mut PlaceSet,
    ) -> Result<(), Refusal>
        requires { board.now ≡ N.board }
        ensures ok { OnOk result (Turns moment self.old woken.old self.new woken.new) }
        ensures err { IfErr result (λ refusal. (refusal ≡ LogFull) × (refuses_tick self.new.history ≡ Some LogFull)) }
        ensures stopped { OnErr result (Halts moment self.old woken.old self.new woken.new) }
    {
        if !self.core.has_room() {
            return Err(Refusal::LogFull);
        }
        for number in 0..self.keeping.blocks() {
            self.turn_block(board, moment, number, woken)?;
        }
        if self.core.expired(moment) {
            self.tick(board, moment, woken)?;
        }
        Ok(())
    }

    // Makes the part of a turn for a block's places. Those that were out before it are read at
    // once, so that each look costs little more than a load.
    fn turn_block(
        &mut self,
        board: &Board,
        moment: Moment,
        number: usize,
        woken: &mut PlaceSet,
    ) -> Result<(), Refusal>
        requires board { board.now ≡ N.board }
        requires in_range { number < 64 }
        ensures ok { OnOk result (WalksBlock moment number self.old woken.old self.new woken.new) }
        ensures err { IfErr result (λ refusal. (refusal ≡ LogFull) × (refuses_tick self.new.history ≡ Some LogFull)) }
        ensures stopped { OnErr result (StopsInBlock moment number self.old woken.old self.new woken.new) }
    {
        let mut ahead = self.keeping.block(number);
        let mut room = self.core.has_room();
        while let Some(place) = ahead.take_first() {
            if !room {
                return Err(Refusal::LogFull);
            }
            if self.take_at(board, moment, place, woken).is_some() {
                room = self.core.has_room();
            }
        }
        Ok(())
    }

    /// Returns the number of requests that a server serves. `O(1)`.
    pub fn served(&self, server: usize) -> usize
        ensures { result ≡ served server (state_of self.now.history).rows }
    {
        self.core.served(server)
    }

    /// Returns the number of requests that wait in a queue. `O(1)`.
    pub fn queued(&self, queue: Queue) -> usize
        ensures { result ≡ queued queue (state_of self.now.history).rows }
    {
        self.core.queued(queue)
    }

    /// Says whether a server is up. `O(1)`.
    pub fn up(&self, server: usize) -> bool
        ensures { result ≡ is_up (scene_of self.now.history) server }
    {
        self.core.up(server)
    }

    /// Says whether a tick at this moment would tell a timeout. `O(1)`.
    pub fn expired(&self, moment: Moment) -> bool
        ensures { IsTrue result ↔ SomeExpires self.now.history moment }
    {
        self.core.expired(moment)
    }

    /// Returns the most live requests. Its contract states every book's invariant: the log is
    /// legal and of the setup that N names, and the verdicts that are out at the board are those
    /// that are outstanding in it. `O(1)`.
    pub fn places(&self) -> usize
        ensures places { result ≡ N.terms.places }
        ensures of_terms { self.now.view.terms ≡ N.terms }
        ensures of_setup { self.now.history.setup ≡ N.setup }
        ensures legal { IsLegal self.now.history }
        ensures book { IsBook self.now.history self.now.view }
    {
        self.core.log();
        self.core.places()
    }

    /// Returns the keeper's seat, once nothing more is decided.
    pub fn into_seat(self) -> KeeperSeat
        ensures board { result.board ≡ N.board }
        ensures view { result.view ≡ self.view }
    {
        self.keeping.into_seat()
    }
}

// Returns the mark of a server that serves this number of requests when its limit is set.
fn mark_by(limit: Intake, served: usize) -> u64
    requires { served ≤ 4096 }
    ensures { result ≡ mark_by (record { limit = limit; served = served }) }
{
    match limit {
        Intake::Open(0) => 0,
        Intake::Open(limit) => u64::from(limit).max(served as u64) + 1,
        Intake::Closed => served as u64 + 1,
    }
}

// Makes the event of a return.
fn note_end<Q: PendQueue<Key, usize>>(core: &mut ReportingCore<Q>, moment: Moment, back: Return)
    requires { IsAcceptable core.old back }
    ensures { AddsEvent core.old core.new (event_of (effective core.old moment) back) }
{
    let noted = match back.ending {
        Ending::Done => core.done(moment, back.ticket),
        Ending::Failed => core.failed(moment, back.ticket),
    };
    let Ok(()) = noted else { unreachable!() };
}
