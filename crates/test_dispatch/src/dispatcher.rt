mod calls;
mod facts;
mod memory;
mod setups;
mod steps;

use self::calls::{Call, arrive, moment, pinned};
use self::facts::Fact;
use self::setups::Plan;
use self::steps::{Step, play};
use base_verdict::Cause;
use dispatch_core::{Phase, Queue, Refusal};
use due_key::{Class, Due, Offset};
use log_entries::{Arrival, Entry, Intake};

// The entry of an arrival of class 0 without a pin.
fn arrived(at: u64, ticket: u64, offset: i64, place: u16) -> Entry {
    let arrival = Arrival {
        ticket,
        class: Class::clamp(0),
        due: Due::of(moment(at), Offset::clamp(offset)),
        pin: None,
        place,
    };
    Entry::Arrive(moment(at), arrival)
}

#[test]
fn overtaking_by_offset(rt: HostRuntime) {
    let steps = [
        Step::Call(0, arrive(0, 0)),
        Step::Call(1, arrive(0, 0)),
        Step::Call(2, arrive(0, -5)),
        Step::Call(10, Call::Done(1)),
        Step::Entry(0, arrived(0, 1, 0, 0)),
        Step::Entry(1, Entry::Direct(1, 0)),
        Step::Entry(2, arrived(1, 2, 0, 1)),
        Step::Entry(3, Entry::Joined(2, Queue::Backend)),
        Step::Entry(4, arrived(2, 3, -5, 2)),
        Step::Entry(5, Entry::Joined(3, Queue::Backend)),
        Step::Entry(6, Entry::Done(moment(10), 1)),
        Step::Entry(7, Entry::Freed(1, 0)),
        Step::Entry(8, Entry::Ended(1)),
        Step::Entry(9, Entry::Granted(3, Queue::Backend, 0)),
        Step::Tells(Fact::Entries(10)),
    ];
    play(&rt, rt.alloc(), Plan::Alone, &steps);
}

#[test]
fn a_grant_is_noted(rt: HostRuntime) {
    let steps = [
        Step::Call(0, arrive(0, 0)),
        Step::Call(1, arrive(0, 0)),
        Step::Call(10, Call::Done(1)),
        Step::Tells(Fact::FirstGrant(Some((Class::clamp(0), moment(10))))),
        Step::Tells(Fact::FirstStay(Some((4, 8)))),
    ];
    play(&rt, rt.alloc(), Plan::Alone, &steps);
}

#[test]
fn ties_go_by_ticket(rt: HostRuntime) {
    let steps = [
        Step::Call(0, arrive(0, 0)),
        Step::Call(1, arrive(0, 4)),
        Step::Call(5, arrive(0, 0)),
        Step::Call(6, Call::Done(1)),
        Step::LastEntry(Entry::Granted(2, Queue::Backend, 0)),
    ];
    play(&rt, rt.alloc(), Plan::Alone, &steps);
}

#[test]
fn a_class_goes_before_a_due_date(rt: HostRuntime) {
    let steps = [
        Step::Call(0, arrive(0, 0)),
        Step::Call(1, arrive(0, -1)),
        Step::Call(2, arrive(-1, 9)),
        Step::Call(3, Call::Done(1)),
        Step::LastEntry(Entry::Granted(3, Queue::Backend, 0)),
    ];
    play(&rt, rt.alloc(), Plan::Alone, &steps);
}

#[test]
fn an_earlier_moment_counts_as_the_last(rt: HostRuntime) {
    let steps = [
        Step::Call(7, arrive(0, 0)),
        Step::Call(3, arrive(0, 1)),
        Step::Entry(2, arrived(7, 2, 1, 1)),
        Step::Entry(3, Entry::Joined(2, Queue::Backend)),
        Step::Tells(Fact::Entries(4)),
    ];
    play(&rt, rt.alloc(), Plan::Alone, &steps);
}

#[test]
fn tells_where_requests_stand(rt: HostRuntime) {
    let steps = [
        Step::Call(0, arrive(0, 0)),
        Step::Call(3, arrive(0, 0)),
        Step::Tells(Fact::Phase(1, Some(Phase::Serving(0)))),
        Step::Tells(Fact::Phase(2, Some(Phase::Waiting(Queue::Backend, moment(3))))),
        Step::Tells(Fact::Phase(3, None)),
        Step::Tells(Fact::Served(0, 1)),
        Step::Tells(Fact::Queued(Queue::Backend, 1)),
        Step::Tells(Fact::Queued(Queue::Server(0), 0)),
        Step::Tells(Fact::HasRoom(true)),
    ];
    play(&rt, rt.alloc(), Plan::Alone, &steps);
}

#[test]
fn tells_the_places_of_live_requests(rt: HostRuntime) {
    let steps = [
        Step::Call(0, arrive(0, 0)),
        Step::Call(0, arrive(0, 0)),
        Step::Call(0, arrive(0, 0)),
        Step::Tells(Fact::Places(8)),
        Step::Tells(Fact::Place(1, Some(0))),
        Step::Tells(Fact::Place(2, Some(1))),
        Step::Tells(Fact::Place(3, Some(2))),
        Step::Tells(Fact::Place(4, None)),
        Step::Call(1, Call::Done(1)),
        Step::Tells(Fact::Place(1, None)),
        Step::Tells(Fact::Place(2, Some(1))),
    ];
    play(&rt, rt.alloc(), Plan::Alone, &steps);
}

#[test]
fn tells_which_servers_are_up(rt: HostRuntime) {
    let steps = [
        Step::Call(0, Call::Check(0, false)),
        Step::Tells(Fact::Servers(2)),
        Step::Tells(Fact::Up(0, false)),
        Step::Tells(Fact::Up(1, true)),
        Step::Tells(Fact::Up(2, false)),
    ];
    play(&rt, rt.alloc(), Plan::Checked, &steps);
}

#[test]
fn refusals_come_in_order(rt: HostRuntime) {
    let steps = [
        Step::Call(0, arrive(0, 0)),
        Step::Call(0, arrive(0, 0)),
        Step::Refused(0, arrive(0, 0), Refusal::PlacesFull),
        Step::Refused(0, Call::Done(2), Refusal::WrongPhase),
        Step::Refused(0, Call::Done(9), Refusal::NoSuchTicket),
        Step::Call(0, Call::Done(1)),
        Step::Tells(Fact::HasRoom(false)),
        Step::Refused(0, Call::Done(9), Refusal::LogFull),
        Step::Refused(0, arrive(0, 0), Refusal::LogFull),
    ];
    play(&rt, rt.alloc(), Plan::Cramped, &steps);
}

#[test]
fn a_new_core_serves_nothing(rt: HostRuntime) {
    let steps = [
        Step::Tells(Fact::Served(0, 0)),
        Step::Tells(Fact::LogIsEmpty(true)),
    ];
    play(&rt, rt.alloc(), Plan::Alone, &steps);
}

#[test]
fn idle_servers_are_picked_in_turn(rt: HostRuntime) {
    let steps = [
        Step::Call(0, arrive(0, 0)),
        Step::LastEntry(Entry::Direct(1, 0)),
        Step::Call(0, arrive(0, 0)),
        Step::LastEntry(Entry::Direct(2, 1)),
        Step::Call(0, pinned(0, 1)),
        Step::LastEntry(Entry::Direct(3, 1)),
    ];
    play(&rt, rt.alloc(), Plan::TwoWide, &steps);
}

#[test]
fn a_request_that_no_server_takes_is_told_so(rt: HostRuntime) {
    let steps = [
        Step::Call(0, arrive(0, 0)),
        Step::LastEntry(Entry::Left(1, Cause::NoServer)),
        Step::Tells(Fact::Phase(1, Some(Phase::Told(Cause::NoServer)))),
        Step::Call(1, Call::Done(1)),
        Step::LastEntry(Entry::Ended(1)),
    ];
    play(&rt, rt.alloc(), Plan::Weightless, &steps);
}

#[test]
fn a_pin_to_no_server_is_refused(rt: HostRuntime) {
    let steps = [
        Step::Refused(0, pinned(0, 1), Refusal::NoSuchServer),
        Step::Call(0, pinned(0, 0)),
        Step::Tells(Fact::Entries(2)),
    ];
    play(&rt, rt.alloc(), Plan::Alone, &steps);
}

#[test]
fn aborts(rt: HostRuntime) {
    let steps = [
        Step::Call(0, arrive(0, 0)),
        Step::Call(0, arrive(0, 0)),
        Step::Call(1, Call::Abort(2)),
        Step::Entry(4, Entry::Abort(moment(1), 2)),
        Step::Entry(5, Entry::Left(2, Cause::Aborted)),
        Step::Tells(Fact::Entries(6)),
        Step::Tells(Fact::Queued(Queue::Backend, 0)),
        Step::Refused(2, Call::Abort(2), Refusal::WrongPhase),
        Step::Call(2, Call::Done(2)),
        Step::LastEntry(Entry::Ended(2)),
        Step::Refused(3, Call::Abort(1), Refusal::WrongPhase),
        Step::Refused(4, Call::Abort(2), Refusal::NoSuchTicket),
    ];
    play(&rt, rt.alloc(), Plan::Alone, &steps);
}

#[test]
fn a_stay_ends_at_the_first_tick_after_its_timeout(rt: HostRuntime) {
    let steps = [
        Step::Call(0, arrive(0, 0)),
        Step::Call(5, arrive(0, 0)),
        Step::Call(14, Call::Tick),
        Step::LastEntry(Entry::Tick(moment(14))),
        Step::Tells(Fact::Expired(14, false)),
        Step::Tells(Fact::Expired(15, true)),
        Step::Call(15, Call::Tick),
        Step::Entry(5, Entry::Tick(moment(15))),
        Step::Entry(6, Entry::Left(2, Cause::Timeout)),
        Step::Tells(Fact::Entries(7)),
        Step::Tells(Fact::Expired(99, false)),
    ];
    play(&rt, rt.alloc(), Plan::Patient, &steps);
}

#[test]
fn timeouts_are_told_by_ticket(rt: HostRuntime) {
    let steps = [
        Step::Call(0, arrive(0, 0)),
        Step::Call(0, arrive(0, 3)),
        Step::Call(0, arrive(0, 2)),
        Step::Call(0, arrive(0, 1)),
        Step::Call(4, arrive(0, 0)),
        Step::Call(10, Call::Tick),
        Step::Entry(10, Entry::Tick(moment(10))),
        Step::Entry(11, Entry::Left(2, Cause::Timeout)),
        Step::Entry(12, Entry::Left(3, Cause::Timeout)),
        Step::Entry(13, Entry::Left(4, Cause::Timeout)),
        Step::Tells(Fact::Entries(14)),
        Step::Tells(Fact::Queued(Queue::Backend, 1)),
    ];
    play(&rt, rt.alloc(), Plan::Patient, &steps);
}

#[test]
fn failures_are_retried_until_they_are_spent(rt: HostRuntime) {
    let steps = [
        Step::Call(0, arrive(0, 0)),
        Step::Call(0, arrive(0, 0)),
        Step::Refused(0, Call::Fail(2), Refusal::WrongPhase),
        Step::Call(0, Call::Fail(1)),
        Step::LastEntry(Entry::Retried(1, 0, 1)),
        Step::Call(0, Call::Fail(1)),
        Step::LastEntry(Entry::Retried(1, 0, 2)),
        Step::Call(0, Call::Fail(1)),
        Step::LastEntry(Entry::Retried(1, 0, 3)),
        Step::Call(1, Call::Fail(1)),
        Step::Entry(10, Entry::Fail(moment(1), 1)),
        Step::Entry(11, Entry::Freed(1, 0)),
        Step::Entry(12, Entry::Left(1, Cause::Retries)),
        Step::Entry(13, Entry::Granted(2, Queue::Backend, 0)),
        Step::Tells(Fact::Entries(14)),
        Step::Refused(1, Call::Fail(1), Refusal::WrongPhase),
        Step::Refused(1, Call::Fail(9), Refusal::NoSuchTicket),
    ];
    play(&rt, rt.alloc(), Plan::Alone, &steps);
}

#[test]
fn the_last_retry_goes_to_another_server(rt: HostRuntime) {
    let steps = [
        Step::Call(0, pinned(0, 0)),
        Step::Call(0, pinned(0, 0)),
        Step::Call(1, Call::Fail(1)),
        Step::Entry(4, Entry::Fail(moment(1), 1)),
        Step::Entry(5, Entry::Freed(1, 0)),
        Step::Entry(6, Entry::Granted(2, Queue::Server(0), 0)),
        Step::Entry(7, Entry::Direct(1, 1)),
        Step::Tells(Fact::Entries(8)),
    ];
    play(&rt, rt.alloc(), Plan::Checked, &steps);
}

#[test]
fn a_fall_moves_a_queue_and_a_rise_grants(rt: HostRuntime) {
    let steps = [
        Step::Call(0, pinned(0, 0)),
        Step::Call(0, pinned(2, 0)),
        Step::Call(0, pinned(1, 0)),
        Step::Call(1, Call::Check(0, false)),
        Step::Entry(6, Entry::Check(moment(1), 0, false)),
        Step::Entry(7, Entry::Health(0, false)),
        Step::Entry(8, Entry::Moved(3, 0)),
        Step::Entry(9, Entry::Moved(2, 0)),
        Step::Entry(10, Entry::Granted(3, Queue::Backend, 1)),
        Step::Tells(Fact::Entries(11)),
        Step::Call(2, Call::Done(1)),
        Step::Call(3, Call::Check(0, true)),
        Step::Entry(14, Entry::Check(moment(3), 0, true)),
        Step::Entry(15, Entry::Health(0, true)),
        Step::Entry(16, Entry::Granted(2, Queue::Backend, 0)),
        Step::Tells(Fact::Entries(17)),
        Step::Refused(3, Call::Check(2, true), Refusal::NoSuchServer),
    ];
    play(&rt, rt.alloc(), Plan::Checked, &steps);
}

#[test]
fn a_server_without_checks_has_no_results(rt: HostRuntime) {
    let steps = [Step::Refused(0, Call::Check(0, true), Refusal::WrongPhase)];
    play(&rt, rt.alloc(), Plan::Alone, &steps);
}

#[test]
fn a_risen_limit_grants(rt: HostRuntime) {
    let steps = [
        Step::Call(0, arrive(0, 0)),
        Step::Call(1, arrive(0, 0)),
        Step::Call(2, arrive(0, -5)),
        Step::Call(3, Call::Limit(0, Intake::Open(2))),
        Step::Entry(6, Entry::Limit(moment(3), 0, Intake::Open(2))),
        Step::Entry(7, Entry::Granted(3, Queue::Backend, 0)),
        Step::Tells(Fact::Entries(8)),
        Step::Call(4, Call::Limit(0, Intake::Open(0))),
        Step::Entry(8, Entry::Limit(moment(4), 0, Intake::Open(0))),
        Step::Entry(9, Entry::Granted(2, Queue::Backend, 0)),
        Step::Tells(Fact::Entries(10)),
        Step::Refused(5, Call::Limit(1, Intake::Open(1)), Refusal::NoSuchServer),
    ];
    play(&rt, rt.alloc(), Plan::Alone, &steps);
}

#[test]
fn a_lowered_limit_stops_nobody(rt: HostRuntime) {
    let steps = [
        Step::Call(0, arrive(0, 0)),
        Step::Call(0, arrive(0, 0)),
        Step::Call(1, Call::Limit(0, Intake::Open(1))),
        Step::Call(2, arrive(0, 0)),
        Step::Call(3, Call::Done(1)),
        Step::Entry(4, Entry::Limit(moment(1), 0, Intake::Open(1))),
        Step::Entry(5, arrived(2, 3, 0, 2)),
        Step::Entry(6, Entry::Joined(3, Queue::Backend)),
        Step::Entry(7, Entry::Done(moment(3), 1)),
        Step::Entry(8, Entry::Freed(1, 0)),
        Step::Entry(9, Entry::Ended(1)),
        Step::Tells(Fact::Entries(10)),
        Step::Tells(Fact::Served(0, 1)),
        Step::Call(4, Call::Done(2)),
        Step::LastEntry(Entry::Granted(3, Queue::Backend, 0)),
    ];
    play(&rt, rt.alloc(), Plan::Wide, &steps);
}

#[test]
fn a_roll_keeps_who_waits_and_is_served(rt: HostRuntime) {
    let steps = [
        Step::Call(0, arrive(0, 0)),
        Step::Call(1, arrive(0, 0)),
        Step::Call(2, arrive(0, -5)),
        Step::Roll,
        Step::Tells(Fact::LogIsEmpty(true)),
        Step::Tells(Fact::Served(0, 1)),
        Step::Tells(Fact::Queued(Queue::Backend, 2)),
        Step::Call(10, Call::Done(1)),
        Step::Entry(0, Entry::Done(moment(10), 1)),
        Step::Entry(1, Entry::Freed(1, 0)),
        Step::Entry(2, Entry::Ended(1)),
        Step::Entry(3, Entry::Granted(3, Queue::Backend, 0)),
        Step::Tells(Fact::Entries(4)),
        Step::Tells(Fact::FirstStay(Some((0, 4)))),
    ];
    play(&rt, rt.alloc(), Plan::Alone, &steps);
}

#[test]
fn a_full_log_has_room_after_a_roll(rt: HostRuntime) {
    let steps = [
        Step::Call(0, arrive(0, 0)),
        Step::Call(0, arrive(0, 0)),
        Step::Call(0, Call::Done(1)),
        Step::Refused(0, Call::Tick, Refusal::LogFull),
        Step::Roll,
        Step::Tells(Fact::HasRoom(true)),
        Step::Call(0, Call::Tick),
        Step::Tells(Fact::BaseRows(1)),
    ];
    play(&rt, rt.alloc(), Plan::Cramped, &steps);
}

#[test]
fn a_closed_server_serves_on_and_takes_nobody(rt: HostRuntime) {
    let steps = [
        Step::Call(0, arrive(0, 0)),
        Step::Call(1, Call::Limit(0, Intake::Closed)),
        Step::Call(2, pinned(0, 0)),
        Step::Entry(2, Entry::Limit(moment(1), 0, Intake::Closed)),
        Step::Entry(4, Entry::Joined(2, Queue::Backend)),
        Step::Call(3, Call::Done(1)),
        Step::LastEntry(Entry::Ended(1)),
        Step::Tells(Fact::Served(0, 0)),
        Step::Call(4, Call::Limit(0, Intake::Open(1))),
        Step::LastEntry(Entry::Granted(2, Queue::Backend, 0)),
    ];
    play(&rt, rt.alloc(), Plan::Alone, &steps);
}
