use base_verdict::Cause;
use demo::{Looks, Teller};
use due_key::{Class, Due, Moment, Offset};
use log_entries::{Arrival, Entry, Queue};
use log_texts::Names;
use std::alloc::Global;
use std::process::Abort;

fn at(rt: &impl Abort, millis: u64) -> Moment {
    Moment::new(millis).expect(rt, "a moment")
}

// The entry of a request that comes at a moment, and is due this number of milliseconds later.
fn arrive(rt: &impl Abort, millis: u64, ticket: u64, class: i64, offset: i64) -> Entry {
    let moment = at(rt, millis);
    let arrival = Arrival {
        ticket,
        due: Due::of(moment, Offset::clamp(offset)),
        class: Class::clamp(class),
        place: 0,
        pin: None,
    };
    Entry::Arrive(moment, arrival)
}

fn names(rt: &impl Abort, alloc: Global) -> Names {
    let mut names = Vec::new(alloc);
    for name in ["a", "b"] {
        let name = String::from_str(alloc, name).expect(rt, "memory");
        names.push(name).expect(rt, "memory");
    }
    Names::new(names)
}

// Returns what is told of these entries.
fn told(rt: &impl Abort, alloc: Global, entries: &[Entry], looks: Looks) -> String {
    let mut teller = Teller::new(alloc, names(rt, alloc), looks);
    let mut text = String::new(alloc);
    for entry in entries {
        teller.push_line(&mut text, *entry).expect(rt, "memory");
    }
    text
}

#[test]
fn each_decision_has_its_line(rt: HostRuntime) {
    let entries = [
        arrive(&rt, 0, 1, 0, 600),
        Entry::Direct(1, 0),
        arrive(&rt, 100, 2, 0, 1500),
        Entry::Joined(2, Queue::Backend),
        arrive(&rt, 150, 3, 1, 5),
        Entry::Joined(3, Queue::Server(1)),
        arrive(&rt, 200, 4, 0, -300),
        Entry::Joined(4, Queue::Backend),
        Entry::Done(at(&rt, 300), 1),
        Entry::Freed(1, 0),
        Entry::Ended(1),
        Entry::Granted(4, Queue::Backend, 0),
        arrive(&rt, 400, 5, -1, 0),
        Entry::Joined(5, Queue::Backend),
        arrive(&rt, 500, 6, 0, 1100),
        Entry::Joined(6, Queue::Backend),
        Entry::Granted(5, Queue::Backend, 0),
        Entry::Granted(2, Queue::Backend, 0),
        Entry::Done(at(&rt, 12_345), 4),
        Entry::Granted(6, Queue::Backend, 0),
        Entry::Granted(3, Queue::Server(1), 1),
        Entry::Left(3, Cause::Timeout),
    ];
    let text = told(&rt, rt.alloc(), &entries, Looks::Plain);
    assert_eq!(rt;
        text.as_str(),
        "  0.000 s  request 1 (class 0, due in 0.600 s) comes: a is free and takes it
  0.100 s  request 2 (class 0, due in 1.500 s) waits in *: it is next
  0.150 s  request 3 (class 1, due in 0.005 s) waits for b: it is next
  0.200 s  request 4 (class 0, due 0.300 s before it came) waits in *: it is next
  0.300 s  a is free: request 4 goes next, due 1.700 s before request 2
  0.400 s  request 5 (class -1, due in 0.000 s) waits in *: it is next
  0.500 s  request 6 (class 0, due in 1.100 s) waits in *: 2 go before it
  0.500 s  a is free: request 5 goes next, class -1 goes before class 0 of request 2
  0.500 s  a is free: request 2 goes next, due with request 6, and came before it
 12.345 s  a is free: request 6 goes next, nobody else waits there
 12.345 s  b is free: request 3 goes next, nobody else waits there
 12.345 s  request 3 is told that it isn't served: timeout
"
    );
}

#[test]
fn colours_stand_round_what_happened(rt: HostRuntime) {
    let entries = [arrive(&rt, 0, 1, 0, 600), Entry::Direct(1, 1)];
    let text = told(&rt, rt.alloc(), &entries, Looks::Coloured);
    assert_eq!(rt;
        text.as_str(),
        "  0.000 s  \x1b[32mrequest 1 (class 0, due in 0.600 s) comes: b is free and takes it\x1b[0m\n"
    );
}
