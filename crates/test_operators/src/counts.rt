//! Tests of a proxy's counters, as Prometheus and the page of the state get them.

use base_verdict::Cause;
use due_key::{Class, Due, Moment, Offset};
use log_entries::{Arrival, Entry, Queue};
use log_lines::{
    Account, During, EndedBy, Follower, Proportions, ProxyNumbers, push_metrics, state_of,
};
use log_texts::Names;
use std::alloc::Global;
use std::process::Abort;

const BACKEND: Queue = Queue::Backend;

fn moment(rt: &impl Abort, number: u64) -> Moment {
    Moment::new(number).expect(rt, "a moment")
}

// A request of a class that arrives at a moment and is due at another.
fn arrive(rt: &impl Abort, ticket: u64, class: i64, times: (u64, i64)) -> Entry {
    let (at, due) = times;
    let arrival = Arrival {
        ticket,
        due: Due::of(Moment::zero(), Offset::clamp(due)),
        class: Class::clamp(class),
        place: 0,
        pin: None,
    };
    Entry::Arrive(moment(rt, at), arrival)
}

fn names(rt: &impl Abort, alloc: Global) -> Names {
    let mut list = Vec::new(alloc);
    for name in ["a\"1", "b"] {
        let name = String::from_str(alloc, name).expect(rt, "memory");
        list.push(name).expect(rt, "memory");
    }
    Names::new(list)
}

fn counted(rt: &impl Abort, alloc: Global, entries: &[Entry]) -> (ProxyNumbers, Follower) {
    let proportions = Proportions {
        places: 16,
        entries: 100,
    };
    let mut numbers = ProxyNumbers::new(alloc, &[1, 2], proportions).expect(rt, "memory");
    let mut follower = Follower::new(alloc);
    for entry in entries {
        numbers.note(&follower, entry);
        follower.follow(*entry).expect(rt, "memory");
    }
    (numbers, follower)
}

fn metrics(rt: &impl Abort, alloc: Global, numbers: &ProxyNumbers) -> String {
    let mut text = String::new(alloc);
    push_metrics(&mut text, &names(rt, alloc), numbers).expect(rt, "memory");
    text
}

#[test]
fn requests_are_counted_by_server_and_status(rt: HostRuntime) {
    let (mut numbers, follower) = counted(&rt, rt.alloc(), &[]);
    for (server, status) in [
        (Some(0), Some(200)),
        (Some(0), Some(200)),
        (Some(1), Some(404)),
        (None, None),
    ] {
        let mut account = Account::new(None, moment(&rt, 5));
        account.server = server;
        account.status = status;
        numbers.end(&follower, &account);
    }
    let text = metrics(&rt, rt.alloc(), &numbers);
    for line in [
        "dueproxy_requests_total{server=\"a\\\"1\",status=\"200\"} 2\n",
        "dueproxy_requests_total{server=\"b\",status=\"404\"} 1\n",
        "dueproxy_requests_total{server=\"<NOSRV>\",status=\"none\"} 1\n",
    ] {
        assert!(rt; text.as_str().contains(line), "{}", line);
    }
}

#[test]
fn who_waits_and_how_late_slots_are_is_counted(rt: HostRuntime) {
    let entries = [
        arrive(&rt, 1, 0, (0, 0)),
        Entry::Direct(1, 0),
        arrive(&rt, 2, 0, (3, 1_500)),
        Entry::Joined(2, BACKEND),
        arrive(&rt, 3, 1, (5, 9)),
        Entry::Joined(3, BACKEND),
        Entry::Done(moment(&rt, 266), 1),
        Entry::Freed(1, 0),
        Entry::Ended(1),
        Entry::Granted(3, BACKEND, 0),
    ];
    let (numbers, _) = counted(&rt, rt.alloc(), &entries);
    let text = metrics(&rt, rt.alloc(), &numbers);
    for line in [
        "dueproxy_slots_total{server=\"a\\\"1\",way=\"direct\"} 1\n",
        "dueproxy_slots_total{server=\"a\\\"1\",way=\"granted\"} 1\n",
        "dueproxy_queue_waiting{queue=\"*\",class=\"0\"} 1\n",
        "dueproxy_queue_waiting{queue=\"*\",class=\"1\"} 0\n",
        "dueproxy_lateness_seconds_sum{class=\"1\"} 0.257\n",
        "dueproxy_lateness_seconds_count{class=\"1\"} 1\n",
    ] {
        assert!(rt; text.as_str().contains(line), "{}", line);
    }
}

#[test]
fn who_was_aborted_since_its_time_was_over_timed_out(rt: HostRuntime) {
    let entries = [
        arrive(&rt, 1, 0, (0, 0)),
        Entry::Joined(1, BACKEND),
        arrive(&rt, 2, 0, (0, 0)),
        Entry::Joined(2, BACKEND),
        Entry::Abort(moment(&rt, 9), 1),
        Entry::Left(1, Cause::Aborted),
        Entry::Abort(moment(&rt, 9), 2),
        Entry::Left(2, Cause::Aborted),
    ];
    let (mut numbers, follower) = counted(&rt, rt.alloc(), &entries);
    for (ticket, by) in [(1, EndedBy::Client), (2, EndedBy::ServerTime)] {
        let mut account = Account::new(None, moment(&rt, 0));
        account.ticket = Some(ticket);
        account.end_by(by, During::Queue);
        numbers.end(&follower, &account);
    }
    numbers.note_outside(3);
    let text = metrics(&rt, rt.alloc(), &numbers);
    for line in [
        "dueproxy_refusals_total{cause=\"aborted\"} 1\n",
        "dueproxy_refusals_total{cause=\"timeout\"} 1\n",
        "dueproxy_outside_waiting 3\n",
    ] {
        assert!(rt; text.as_str().contains(line), "{}", line);
    }
}

#[test]
fn who_moved_waits_in_the_backends_queue(rt: HostRuntime) {
    let entries = [
        arrive(&rt, 1, 0, (0, 0)),
        Entry::Joined(1, Queue::Server(1)),
        Entry::Moved(1, 1),
    ];
    let (numbers, _) = counted(&rt, rt.alloc(), &entries);
    let text = metrics(&rt, rt.alloc(), &numbers);
    for line in [
        "dueproxy_queue_waiting{queue=\"*\",class=\"0\"} 1\n",
        "dueproxy_queue_waiting{queue=\"b\",class=\"0\"} 0\n",
    ] {
        assert!(rt; text.as_str().contains(line), "{}", line);
    }
}

#[test]
fn a_slot_is_shown_for_sixty_seconds(rt: HostRuntime) {
    let alloc = rt.alloc();
    let entries = [arrive(&rt, 1, 0, (999, 0)), Entry::Direct(1, 0)];
    let (numbers, _) = counted(&rt, alloc, &entries);
    let names = names(&rt, alloc);
    for (now, minute) in [
        (
            59_999,
            "\"minute\":[{\"class\":0,\"slots\":1,\"late\":1,\"worst\":999}]",
        ),
        (
            60_000,
            "\"minute\":[{\"class\":0,\"slots\":0,\"late\":0,\"worst\":null}]",
        ),
    ] {
        let state = state_of(alloc, &names, &numbers, moment(&rt, now)).expect(&rt, "memory");
        assert!(rt; state.as_str().contains(minute), "{}", state.as_str());
    }
}

#[test]
fn after_lost_entries_nobody_is_known_to_wait_or_to_be_served(rt: HostRuntime) {
    let entries = [
        arrive(&rt, 1, 0, (0, 0)),
        Entry::Direct(1, 0),
        arrive(&rt, 2, 0, (0, 0)),
        Entry::Joined(2, BACKEND),
        arrive(&rt, 3, 0, (0, 0)),
        Entry::Joined(3, Queue::Server(1)),
    ];
    let (mut numbers, _) = counted(&rt, rt.alloc(), &entries);
    numbers.roll();
    let before = [
        "dueproxy_places_in_use 3\n",
        "dueproxy_server_served{server=\"a\\\"1\"} 1\n",
        "dueproxy_queue_waiting{queue=\"*\",class=\"0\"} 1\n",
        "dueproxy_queue_waiting{queue=\"b\",class=\"0\"} 1\n",
        "dueproxy_windows_total 1\n",
        "dueproxy_left_out_total{what=\"gaps\"} 0\n",
    ];
    let after = [
        "dueproxy_places_in_use 0\n",
        "dueproxy_server_served{server=\"a\\\"1\"} 0\n",
        "dueproxy_windows_total 3\n",
        "dueproxy_left_out_total{what=\"gaps\"} 1\n",
    ];
    let text = metrics(&rt, rt.alloc(), &numbers);
    for line in before {
        assert!(rt; text.as_str().contains(line), "{}", text.as_str());
    }
    numbers.skip(2);
    let text = metrics(&rt, rt.alloc(), &numbers);
    for line in after {
        assert!(rt; text.as_str().contains(line), "{}", text.as_str());
    }
    assert!(rt; !text.as_str().contains("dueproxy_queue_waiting{"));
}
