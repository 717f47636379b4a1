ghost use Rattle.std.specs.Prelude.{◌≡◌, ◌<◌, None, length, pos, ◌+ℤ◌};
ghost use Rattle.std.specs.Sync.Mutex.{mutex_guard_value};
ghost use Rattle.base_lists.specs.Weights.{AreIn};
ghost use Rattle.grant_board.specs.KeeperCalls.{Vouches};
ghost use Rattle.locked_book.specs.Outstanding.{outstanding};
ghost use Rattle.log_entries.specs.declared.entry.Entry.TheVariants.{Arrive};
ghost use Rattle.log_entries.specs.Histories.{state_of};
ghost use Rattle.queue_outside.specs.Admission.{due_at};
ghost use Rattle.shared_desk.specs.Answers.{AnswersAbort, AnswersArrival, AnswersCheck, AnswersCollect, AnswersLimit, AnswersRoll, AnswersTick, AnswersTurn, KeepsFullWindow, KeepsWindow, MakesRoom};
ghost use Rattle.shared_desk.specs.Changes.{AreNone};
ghost use Rattle.shared_desk.specs.Replies.{IsHeld};

use crate::changed::Changed;
use crate::desk::{Desk, DeskBook};
use crate::keys::DeskKey;
use crate::locked::Changing;
use base_places::PlaceSet;
use dispatch_reports::EndedWindow;
use dispatch_state::Ticketed;
use due_key::Moment;
use grant_board::{RelaySeat, Return};
use locked_book::{Deferred, DeskName, Wanted};
use log_entries::{Intake, Refusal};
use std::alloc::{AllocError, Global};
use std::sync::Wait;

/// A desk that is open for calls that change what its lock holds. Each call waits for the lock, and
/// returns what it changed beside its answer.
#[derive(Drop)]
pub struct OpenDesk<'a, N: DeskName> {
    desk: &'a Desk<N>,
}

impl<N: DeskName> Desk<N> {
    /// Opens the desk for calls that change what its lock holds. It takes no lock.
    pub fn open(&self, _key: &DeskKey<N>) -> OpenDesk<'_, N> {
        OpenDesk { desk: self }
    }
}

impl<N: DeskName> OpenDesk<'_, N> {
    /// A request arrives. Refused as the dispatcher's `arrive` is.
    pub fn arrive<R: Wait>(
        &self,
        rt: &R,
        alloc: Global,
        moment: Moment,
        wanted: Wanted,
    ) -> (Result<Ticketed, Refusal>, Changed<N>)
        ensures answer { AnswersArrival N.terms N.setup (λ it at. Arrive at (record { ticket = it.ticket; class = wanted.class; due = pos at +ℤ wanted.offset; pin = wanted.pin; place = it.place })) wanted.pin moment result.0 result.1 }
        ensures tail { result.1.tail ≡ None }
    {
        let mut book = self.enter(rt);
        let mut places = PlaceSet::new();
        let board = self.desk.board();
        let arrived = book.guard.arrive(alloc, board, moment, wanted, &mut places);
        (arrived, Changed::of(book.end(), places))
    }

    /// A request that waited elsewhere arrives: it keeps its due date, or gets the earliest one
    /// that an arrival at this moment may have. Refused as `arrive` is.
    pub fn arrive_due<R: Wait>(
        &self,
        rt: &R,
        alloc: Global,
        moment: Moment,
        deferred: Deferred,
    ) -> (Result<Ticketed, Refusal>, Changed<N>)
        ensures answer { AnswersArrival N.terms N.setup (λ it at. Arrive at (record { ticket = it.ticket; class = deferred.class; due = due_at deferred.due at; pin = deferred.pin; place = it.place })) deferred.pin moment result.0 result.1 }
        ensures tail { result.1.tail ≡ None }
    {
        let mut book = self.enter(rt);
        let mut places = PlaceSet::new();
        let board = self.desk.board();
        let arrived = book
            .guard
            .arrive_due(alloc, board, moment, deferred, &mut places);
        (arrived, Changed::of(book.end(), places))
    }

    /// A request that waits is given up. Refused as the dispatcher's `abort` is.
    pub fn abort<R: Wait>(
        &self,
        rt: &R,
        moment: Moment,
        ticket: u64,
    ) -> (Result<(), Refusal>, Changed<N>)
        ensures answer { AnswersAbort N.terms N.setup ticket moment result.0 result.1 }
        ensures tail { result.1.tail ≡ None }
    {
        let mut book = self.enter(rt);
        let mut places = PlaceSet::new();
        let board = self.desk.board();
        let given_up = book.guard.abort(board, moment, ticket, &mut places);
        (given_up, Changed::of(book.end(), places))
    }

    /// Each request that has waited as long as it may is told so. Refused as the dispatcher's `tick` is.
    pub fn tick<R: Wait>(&self, rt: &R, moment: Moment) -> (Result<(), Refusal>, Changed<N>)
        ensures answer { AnswersTick N.terms N.setup moment result.0 result.1 }
        ensures tail { result.1.tail ≡ None }
    {
        let mut book = self.enter(rt);
        let mut places = PlaceSet::new();
        let ticked = book.guard.tick(self.desk.board(), moment, &mut places);
        (ticked, Changed::of(book.end(), places))
    }

    /// A check of a server ended. Refused as the dispatcher's `check` is.
    pub fn check<R: Wait>(
        &self,
        rt: &R,
        moment: Moment,
        server: usize,
        ok: bool,
    ) -> (Result<(), Refusal>, Changed<N>)
        ensures answer { AnswersCheck N.terms N.setup server ok moment result.0 result.1 }
        ensures tail { result.1.tail ≡ None }
    {
        let mut book = self.enter(rt);
        let mut places = PlaceSet::new();
        let board = self.desk.board();
        let noted = book.guard.check(board, moment, server, ok, &mut places);
        (noted, Changed::of(book.end(), places))
    }

    /// Sets a server's limit: the event, then the server's mark at the board, then the offers.
    /// Refused as the dispatcher's `limit` is.
    pub fn limit<R: Wait>(
        &self,
        rt: &R,
        moment: Moment,
        server: usize,
        limit: Intake,
    ) -> (Result<(), Refusal>, Changed<N>)
        ensures answer { AnswersLimit N.terms N.setup server limit moment result.0 result.1 }
        ensures tail { result.1.tail ≡ None }
    {
        let mut book = self.enter(rt);
        let mut places = PlaceSet::new();
        let board = self.desk.board();
        let set = book.guard.limit(board, moment, server, limit, &mut places);
        (set, Changed::of(book.end(), places))
    }

    /// Collects what was posted at a place, which becomes the dispatcher's event. `None` where
    /// nothing is posted there. Refused where the log is full: the return then stays on the board.
    pub fn collect_at<R: Wait>(
        &self,
        rt: &R,
        moment: Moment,
        place: usize,
    ) -> (Result<Option<Return>, Refusal>, Changed<N>)
        requires in_range { place < N.terms.places }
        ensures answer { AnswersCollect N.terms N.setup place moment result.0 result.1 }
        ensures tail { result.1.tail ≡ None }
    {
        let mut book = self.enter(rt);
        let mut places = PlaceSet::new();
        let board = self.desk.board();
        let found = book.guard.collect_at(board, moment, place, &mut places);
        (found, Changed::of(book.end(), places))
    }

    /// Looks at each place that is out, by rising number, and collects what was posted there; then
    /// makes a tick, where a request has waited too long. Refused where the log is full, even if no
    /// place is out: the returns that were collected before are kept, and their places are in the
    /// set. `O(1)` for each place that is out, beside the events.
    pub fn turn<R: Wait>(&self, rt: &R, moment: Moment) -> (Result<(), Refusal>, Changed<N>)
        ensures answer { AnswersTurn N.terms N.setup moment result.0 result.1 }
        ensures tail { result.1.tail ≡ None }
    {
        let mut book = self.enter(rt);
        let mut places = PlaceSet::new();
        let turned = book.guard.turn(self.desk.board(), moment, &mut places);
        (turned, Changed::of(book.end(), places))
    }

    /// Begins the next window of the log, and returns what is told of the one that ended. Where
    /// memory is refused nothing changes.
    pub fn roll<R: Wait>(
        &self,
        rt: &R,
        alloc: Global,
    ) -> (Result<EndedWindow, AllocError>, Changed<N>)
        ensures answer { AnswersRoll N.terms N.setup result.0 result.1 }
        ensures tail { KeepsWindow result.0 result.1 }
    {
        self.desk
            .followed()
            .end_window(rt, self.desk.locked(), alloc)
    }

    /// Begins the next window where the log has no room for an event, and returns what is told of
    /// the one that ended; `None` where it has room. Where memory is refused nothing changes.
    pub fn make_room<R: Wait>(
        &self,
        rt: &R,
        alloc: Global,
    ) -> (Result<Option<EndedWindow>, AllocError>, Changed<N>)
        ensures answer { MakesRoom N.terms N.setup result.0 result.1 }
        ensures tail { KeepsFullWindow result.0 result.1 }
    {
        self.desk
            .followed()
            .make_room(rt, self.desk.locked(), alloc)
    }

    /// Returns the relay's seat unchanged, and the number of its passes, each of which is outstanding.
    pub fn vouch<R: Wait>(&self, rt: &R, relay: RelaySeat) -> ((RelaySeat, u64), Changed<N>)
        requires named { relay.board ≡ N.board }
        ensures held { IsHeld N.terms N.setup result.1.old }
        ensures back { result.0.0 ≡ relay }
        ensures count { result.0.1 ≡ length relay.view.passes }
        ensures outstanding { AreIn relay.view.passes (outstanding (state_of result.1.old.history).rows) }
        ensures tail { result.1.tail ≡ None }
        ensures vouched { (result.1.new.history ≡ result.1.old.history) × Vouches result.1.old.view result.1.new.view relay.view.passes × AreNone result.1.places }
    {
        let mut book = self.enter(rt);
        let vouched = book.guard.vouch(self.desk.board(), relay);
        (vouched, Changed::of(book.end(), PlaceSet::new()))
    }

    // Takes the lock to change the book.
    fn enter<R: Wait>(&self, rt: &R) -> Changing<'_, DeskBook<N>>
        ensures held { IsHeld N.terms N.setup (mutex_guard_value result.guard) }
        ensures found { result.found.value ≡ mutex_guard_value result.guard }
    {
        let book = self.desk.locked().change(rt);
        // This call states the book's invariant.
        book.guard.places();
        book
    }
}
