ghost use Rattle.std.specs.Prelude.{◌≡◌, ◌<◌, ◌^◌, [], vec_capacity, IfSome, OnSome, IfNone, IfOk, OnOk, OnErr, None, Some};
ghost use Rattle.dispatch_reports.specs.Lines.{AreLines};
ghost use Rattle.dispatch_state.specs.Histories.{HasEntryRoom};
ghost use Rattle.late_cert.specs.Certificates.{IsCertified};
ghost use Rattle.log_entries.specs.Histories.{next_window};
ghost use Rattle.log_reading.specs.Tails.{Waiting};
ghost use Rattle.shared_desk.specs.Answers.{AnswersRoll, KeepsFullWindow, KeepsWindow, MakesRoom};
ghost use Rattle.shared_desk.specs.Tails.{nothing_waits, ReadsNew, HasCaughtUp, HasNotedEnd, HasKept, WhereFollowed, IsTakenFrom};

use crate::changed::{Changed, LogRead, TailChanged};
use crate::desk::DeskBook;
use crate::locked::Locked;
use crate::unread::Unread;
use dispatch_reports::EndedWindow;
use locked_book::DeskName;
use log_entries::Entry;
use log_reading::{Batch, Tail};
use std::alloc::{AllocError, Global};
use std::snapshot::Snapshot;
use std::sync::Wait;

/// The part of a desk's log that waits to be read, where a reader follows it, behind a lock of its
/// own. Only these calls reach it. A thread that takes both locks takes this one first.
#[derive(Drop)]
pub(crate) struct Followed {
    unread: Locked<Unread>,
}

impl Followed {
    /// Makes the lock of these.
    pub(crate) fn new(unread: Unread) -> Followed
        ensures { result.unread.first.value ≡ unread }
    {
        Followed {
            unread: Locked::new(unread),
        }
    }

    /// Makes the call `Desk::follow`.
    pub(crate) fn begin<R: Wait>(
        &self,
        rt: &R,
        alloc: Global,
        room: usize,
    ) -> Result<TailChanged, AllocError>
        requires { room < 2 ^ 32 }
        ensures { IfOk result (λ change. change.new ≡ Some (nothing_waits room)) }
    {
        let made = Tail::with_room(alloc, room)?;
        let mut tail = self.unread.change(rt);
        tail.guard.tail = Some(made);
        Ok(TailChanged::of(tail.end()))
    }

    /// Makes the call `Desk::read_new`.
    pub(crate) fn read_new<R: Wait, N: DeskName>(
        &self,
        rt: &R,
        book: &Locked<DeskBook<N>>,
        batch: &mut Batch,
    ) -> LogRead<N>
        ensures { ReadsNew N.terms N.setup (vec_capacity batch.old.entries) result.tail.old result.tail.new result.seen batch.new }
    {
        batch.clear();
        let mut tail = self.unread.change(rt);
        let mut seen = None;
        if let Some(tail) = &mut tail.guard.tail {
            let book = book.look(rt);
            // This call states the book's invariant.
            book.book().places();
            take_new(tail, book.book().entries(), batch);
            seen = Some(Snapshot::of(book.book()));
        }
        LogRead::of(tail.end(), seen)
    }

    /// Makes the call `OpenDesk::roll`.
    pub(crate) fn end_window<R: Wait, N: DeskName>(
        &self,
        rt: &R,
        book: &Locked<DeskBook<N>>,
        alloc: Global,
    ) -> (Result<EndedWindow, AllocError>, Changed<N>)
        ensures answer { AnswersRoll N.terms N.setup result.0 result.1 }
        ensures tail { KeepsWindow result.0 result.1 }
    {
        let mut tail = self.unread.change(rt);
        let mut book = book.change(rt);
        // This call states the book's invariant.
        book.guard.places();
        let ended = end_window(&mut tail.guard.tail, &mut book.guard, alloc);
        (ended, Changed::with_tail(book.end(), tail.end()))
    }

    /// Makes the call `OpenDesk::make_room`.
    pub(crate) fn make_room<R: Wait, N: DeskName>(
        &self,
        rt: &R,
        book: &Locked<DeskBook<N>>,
        alloc: Global,
    ) -> (Result<Option<EndedWindow>, AllocError>, Changed<N>)
        ensures answer { MakesRoom N.terms N.setup result.0 result.1 }
        ensures tail { KeepsFullWindow result.0 result.1 }
    {
        let mut tail = self.unread.change(rt);
        let mut book = book.change(rt);
        // This call states the book's invariant.
        book.guard.places();
        let made = make_room(&mut tail.guard.tail, &mut book.guard, alloc);
        (made, Changed::with_tail(book.end(), tail.end()))
    }
}

// Ends the window, all of which is kept to be read before. Where memory is refused the window goes on.
fn end_window<N: DeskName>(
    tail: &mut Option<Tail>,
    book: &mut DeskBook<N>,
    alloc: Global,
) -> Result<EndedWindow, AllocError>
    ensures ok { IfOk result (λ window. IsCertified book.old.history window.reports × AreLines book.old.history window.servers.items × (book.new ≡ record book.old { history = next_window book.old.history })) }
    ensures kept { OnOk result (WhereFollowed (HasKept book.old.history.log) tail.old tail.new) }
    ensures err { OnErr result ((book.new ≡ book.old) × WhereFollowed (HasCaughtUp book.old.history.log) tail.old tail.new) }
{
    catch_up(tail, book.entries());
    let reports = book.report(alloc)?;
    let servers = book.servers(alloc)?;
    book.roll();
    note_end(tail);
    Ok(EndedWindow { reports, servers })
}

// Ends the window where the log has no room for an event.
fn make_room<N: DeskName>(
    tail: &mut Option<Tail>,
    book: &mut DeskBook<N>,
    alloc: Global,
) -> Result<Option<EndedWindow>, AllocError>
    ensures none { IfOk result (λ found. IfNone found (HasEntryRoom book.old.history × (book.new ≡ book.old))) }
    ensures some { IfOk result (λ found. IfSome found (λ window. (HasEntryRoom book.old.history → ⊥) × IsCertified book.old.history window.reports × AreLines book.old.history window.servers.items × (book.new ≡ record book.old { history = next_window book.old.history }))) }
    ensures kept { IfOk result (λ found. OnSome found (WhereFollowed (HasKept book.old.history.log) tail.old tail.new)) }
    ensures caught_up { IfOk result (λ found. IfNone found (WhereFollowed (HasCaughtUp book.old.history.log) tail.old tail.new)) }
    ensures err { OnErr result ((book.new ≡ book.old) × WhereFollowed (HasCaughtUp book.old.history.log) tail.old tail.new) }
{
    catch_up(tail, book.entries());
    let made = book.make_room(alloc)?;
    if made.is_some() {
        note_end(tail);
    }
    Ok(made)
}

// Moves the entries that wait, with those of this log that weren't taken yet, into an empty batch,
// if that has room for as many as may wait.
fn take_new(tail: &mut Tail, entries: &[Entry], batch: &mut Batch)
    requires empty { (batch.old.entries.items ≡ []) × (batch.old.end ≡ None) × (batch.old.lost ≡ None) }
    ensures { (waiting : Waiting) × HasCaughtUp entries.now tail.old waiting × IsTakenFrom waiting (vec_capacity batch.old.entries) tail.new batch.new }
{
    tail.catch_up(entries);
    if tail.room() <= batch.entries.capacity() {
        tail.take(batch);
    }
}

// Keeps the entries of the present window to be read.
fn catch_up(tail: &mut Option<Tail>, entries: &[Entry])
    ensures { WhereFollowed (HasCaughtUp entries.now) tail.old tail.new }
{
    if let Some(tail) = tail {
        tail.catch_up(entries);
    }
}

// Keeps the fact that the window ended.
fn note_end(tail: &mut Option<Tail>)
    ensures { WhereFollowed HasNotedEnd tail.old tail.new }
{
    if let Some(tail) = tail {
        tail.turn();
    }
}
