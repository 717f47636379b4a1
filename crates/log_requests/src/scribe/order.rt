//! A test of the order in which the records of several loops are taken.

use crate::log::{Access, Extent, Logs, RecordSink, RequestLog};
use due_key::Moment;
use log_lines::{Account, Format};
use log_sink::{Sink, Way};
use std::alloc::Global;
use std::process::Abort;
use std::sync::Arc;
use std::time::Instant;

// Makes the log of a proxy with two loops.
fn log_of_two(rt: &impl Abort, alloc: Global, start: Instant) -> RequestLog {
    let sink = Sink::new(alloc, &Way::Output).expect(rt, "memory");
    let access = Access {
        sink: Arc::new(alloc, sink).expect(rt, "memory"),
        format: Format::Text,
        has_windows: false,
    };
    let logs = Logs {
        access: Some(access),
        events: None,
        numbers: None,
    };
    let extent = Extent {
        servers: 1,
        loops: 2,
        start,
        base: 0,
    };
    RequestLog::new(alloc, logs, extent)
        .expect(rt, "memory")
        .expect(rt, "a log")
}

// Hands on the record of an exchange that began at this moment.
fn hand_on(rt: &impl Abort, alloc: Global, ring: &mut RecordSink<'_>, began: u64) {
    let began = Moment::new(began).expect(rt, "a moment");
    ring.account_for(Box::new(alloc, Account::new(None, began)).expect(rt, "memory"));
}

#[test]
fn records_are_taken_in_the_order_in_which_loops_hand_them_on(rt: HostRuntime) {
    let alloc = rt.alloc();
    let start = Instant::now(&rt).expect(&rt, "a clock");
    let log = log_of_two(&rt, alloc, start);
    let mut one = log.teller(&rt).expect(&rt, "a ring");
    let mut other = log.teller(&rt).expect(&rt, "a ring");
    hand_on(&rt, alloc, &mut one, 0);
    hand_on(&rt, alloc, &mut other, 1);
    hand_on(&rt, alloc, &mut other, 2);
    hand_on(&rt, alloc, &mut one, 3);
    let mut scribe = log.take_scribe(&rt).expect(&rt, "a scribe");
    assert!(rt; !scribe.gather(log.told()));
    let mut taken = Vec::new(alloc);
    for account in scribe.accounts.iter() {
        taken
            .push(account.moments.began.get())
            .expect(&rt, "memory");
    }
    assert_eq!(rt; taken.as_slice(), [0, 1, 2, 3].as_slice());
}
