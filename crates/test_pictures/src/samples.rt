//! Traces, what is read from them and what is made of them.
use log_texts::push_entries;
use std::alloc::Global;
use std::process::Abort;
use view_drawing::{Subject, push_drawing};
use view_traces::{Trace, read_trace};

/// Returns the trace that replaying a script writes.
pub fn trace_of(rt: &impl Abort, alloc: Global, script: &str) -> Vec<u8> {
    let mut rest = script.as_bytes();
    let mut trace = Vec::new(alloc);
    replay::replay(alloc, &mut rest, &mut trace).expect(rt, "a trace");
    trace
}

/// Reads a trace.
pub fn told(rt: &impl Abort, alloc: Global, trace: &[u8]) -> Trace {
    read_trace(alloc, Vec::new(alloc), trace).expect(rt, "a trace")
}

/// Returns the lines of the entries of a trace, written again.
pub fn written_again(rt: &impl Abort, alloc: Global, trace: &Trace) -> String {
    let mut text = String::new(alloc);
    push_entries(&mut text, &trace.names, trace.entries.as_slice()).expect(rt, "memory");
    text
}

/// Returns the picture of a trace.
pub fn picture_of(rt: &impl Abort, alloc: Global, trace: &Trace) -> String {
    let mut text = String::new(alloc);
    let subject = Subject {
        names: &trace.names,
        entries: trace.entries.as_slice(),
        rolls: trace.rolls.as_slice(),
        reports: trace.reports.as_slice(),
        only: None,
    };
    push_drawing(alloc, &mut text, &subject).expect(rt, "memory");
    text
}
