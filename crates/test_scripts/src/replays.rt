mod broken_streams;
mod closings;
mod failures;
mod faults;
mod health;
mod limits;
mod long_queues;
mod reports;
mod servers;
mod waiting;
mod windows;
mod worked;

use crate::assertions::same;
use due_key::Key;
use pend_queue::ListQueue;
use replay::{replay, trace_of};
use std::alloc::Global;
use std::process::Abort;

/// A script, the name of the example, and its trace.
struct Replay {
    name: &'static str,
    script: &'static str,
    trace: &'static str,
}

// Checks that each script has its trace.
fn play(rt: &impl Abort, alloc: Global, rows: &[Replay]) {
    for row in rows {
        expect(rt, alloc, row.name, row.script, row.trace);
    }
}

// Checks the trace of a script, over both kinds of queues.
fn expect(rt: &impl Abort, alloc: Global, name: &str, script: &str, expected: &str) {
    let mut reader = script.as_bytes();
    let mut trace = Vec::new(alloc);
    replay(alloc, &mut reader, &mut trace).expect(rt, name);
    same(rt, (name, trace.as_slice()), (name, expected.as_bytes()));
    let listed = trace_of::<ListQueue<Key, usize>>(alloc, script.as_bytes()).expect(rt, name);
    same(rt, (name, listed.as_str()), (name, expected));
}
