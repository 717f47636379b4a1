//! Tests of the texts of faults.

use crate::assertions::same;
use http_bodies::Fault as BodyFault;
use relay_http::Fault;
use std::alloc::Global;
use std::fmt::Display;
use std::process::Abort;

static OF_BODIES: [(BodyFault, &str); 4] = [
    (BodyFault::Framing, "bad framing"),
    (BodyFault::Read, "read fault"),
    (BodyFault::Write, "write fault"),
    (BodyFault::Turns, "turns spent"),
];

static OF_MESSAGES: [(Fault, &str); 7] = [
    (Fault::NoMemory, "no memory"),
    (Fault::Head, "not a head"),
    (Fault::Framing, "bad framing"),
    (Fault::Read, "read fault"),
    (Fault::Write, "write fault"),
    (Fault::Turns, "turns spent"),
    (Fault::Closed, "closed"),
];

// Checks the text of each.
fn say<T: Display>(rt: &impl Abort, alloc: Global, rows: &[(T, &str)], of: &str) {
    for (it, text) in rows {
        let said = it.to_string(alloc).expect(rt, "memory");
        same(rt, said.as_str(), text, of);
    }
}

#[test]
fn each_fault_says_what_it_is(rt: HostRuntime) {
    say(&rt, rt.alloc(), &OF_BODIES, "a body's fault");
    say(&rt, rt.alloc(), &OF_MESSAGES, "a message's fault");
}
