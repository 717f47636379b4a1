use base_verdict::Cause;
use due_key::{Class, Due, Moment, Offset};
use log_entries::{Arrival, Entry, Queue};
use log_lines::{Follower, Numbers};
use std::process::Abort;

pub(crate) fn moment(rt: &impl Abort, number: u64) -> Moment {
    Moment::new(number).expect(rt, "a moment")
}

// A request of class 0 that arrives at a moment and is due at another.
pub(crate) fn arrive(rt: &impl Abort, ticket: u64, at: u64, due: i64) -> Entry {
    let arrival = Arrival {
        ticket,
        due: Due::of(Moment::zero(), Offset::clamp(due)),
        class: Class::clamp(0),
        place: 0,
        pin: None,
    };
    Entry::Arrive(moment(rt, at), arrival)
}

fn told(rt: &impl Abort, follower: &Follower, ticket: u64) -> Numbers {
    follower.numbers(ticket).expect(rt, "numbers")
}

#[test]
fn a_request_that_waited_is_told_who_went_before_it(rt: HostRuntime) {
    let mut follower = Follower::new(rt.alloc());
    let backend = Queue::Backend;
    let entries = [
        arrive(&rt, 1, 0, 0),
        Entry::Direct(1, 0),
        arrive(&rt, 2, 3, 50),
        Entry::Joined(2, backend),
        arrive(&rt, 3, 5, 9),
        Entry::Joined(3, backend),
        Entry::Done(moment(&rt, 20), 1),
        Entry::Freed(1, 0),
        Entry::Ended(1),
        Entry::Granted(3, backend, 0),
        Entry::Done(moment(&rt, 60), 3),
        Entry::Freed(3, 0),
        Entry::Ended(3),
        Entry::Granted(2, backend, 0),
    ];
    for entry in &entries {
        follower.follow(*entry).expect(&rt, "memory");
    }
    let first = told(&rt, &follower, 1);
    assert_eq!(rt; first.waited(), Some(0));
    assert!(rt; first.slot.expect(&rt, "a slot").stay.is_none());
    let second = told(&rt, &follower, 2);
    assert_eq!(rt; second.waited(), Some(57));
    assert_eq!(rt; second.lateness(), Some(10));
    let slot = second.slot.expect(&rt, "a slot");
    assert_eq!(rt; (slot.ahead, slot.overtakers), (1, 1));
    assert!(rt; !slot.is_over_an_end());
    let third = follower.take(3).expect(&rt, "numbers");
    assert_eq!(rt; third.lateness(), Some(11));
    assert_eq!(rt; third.slot.expect(&rt, "a slot").overtakers, 0);
    assert!(rt; follower.numbers(3).is_none());
}

#[test]
fn a_stay_over_the_end_of_a_window_says_so(rt: HostRuntime) {
    let mut follower = Follower::new(rt.alloc());
    let backend = Queue::Backend;
    for entry in [arrive(&rt, 1, 0, 0), Entry::Joined(1, backend)] {
        follower.follow(entry).expect(&rt, "memory");
    }
    follower.roll();
    for entry in [
        Entry::Tick(moment(&rt, 8)),
        Entry::Granted(1, backend, 1),
        Entry::Fail(moment(&rt, 9), 1),
        Entry::Freed(1, 1),
    ] {
        follower.follow(entry).expect(&rt, "memory");
    }
    let first = told(&rt, &follower, 1);
    let slot = first.slot.expect(&rt, "a slot");
    assert!(rt; slot.is_over_an_end());
    assert_eq!(rt; (slot.window, first.failures, first.slots), (2, 1, 1));
    follower
        .follow(Entry::Left(1, Cause::Retries))
        .expect(&rt, "memory");
    assert_eq!(rt; told(&rt, &follower, 1).cause, Some(Cause::Retries));
    assert_eq!(rt; follower.len(), 1);
    follower.forget_first();
    assert_eq!(rt; follower.len(), 0);
}
