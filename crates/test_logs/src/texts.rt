//! Tests of the texts of causes, refusals and faults.

use crate::assertions::same;
use base_verdict::Cause;
use log_entries::Refusal;
use log_reading::Unreadable;
use std::alloc::Global;
use std::fmt::Display;
use std::process::Abort;

static CAUSES: [(Cause, &str); 4] = [
    (Cause::Aborted, "aborted"),
    (Cause::Timeout, "timeout"),
    (Cause::Retries, "retries"),
    (Cause::NoServer, "noserver"),
];

static REFUSALS: [(Refusal, &str); 7] = [
    (Refusal::NoMemory, "no memory"),
    (Refusal::PlacesFull, "all places are taken"),
    (Refusal::LogFull, "the log is full"),
    (Refusal::NoSuchTicket, "no live request has this ticket"),
    (
        Refusal::WrongPhase,
        "the request is not in the phase that this call needs",
    ),
    (Refusal::NoSuchServer, "no such server"),
    (Refusal::TicketsSpent, "the tickets are spent"),
];

static UNREADABLE: [(Unreadable, &str); 2] = [
    (Unreadable::NoMemory, "no memory"),
    (Unreadable::NotReadable, "not a readable log"),
];

// Checks the text of each.
fn say<T: Display>(rt: &impl Abort, alloc: Global, rows: &[(T, &str)]) {
    for (it, text) in rows {
        let said = it.to_string(alloc).expect(rt, "memory");
        same(rt, said.as_str(), text);
    }
}

#[test]
fn each_says_what_it_is(rt: HostRuntime) {
    say(&rt, rt.alloc(), &CAUSES);
    say(&rt, rt.alloc(), &REFUSALS);
    say(&rt, rt.alloc(), &UNREADABLE);
}
