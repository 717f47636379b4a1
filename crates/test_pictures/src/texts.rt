//! Tests of the texts of faults.

use crate::assertions::same;
use std::alloc::Global;
use std::fmt::Display;
use std::process::Abort;
use view_files::{DrawFault, InputFault, StoryFault};
use view_traces::{TraceCause, TraceError};

static CAUSES: [(TraceCause, &str); 5] = [
    (TraceCause::Form, "no line of a trace"),
    (TraceCause::Moment, "a moment before the last event's"),
    (TraceCause::Place, "no event stands before it"),
    (TraceCause::Servers, "a 65th server"),
    (TraceCause::Length, "more than 67108864 bytes"),
];

static OF_TRACES: [(TraceError, &str); 3] = [
    (TraceError::NoMemory, "no memory"),
    (
        TraceError::Fault {
            line: 0,
            cause: TraceCause::Length,
        },
        "trace line 0: more than 67108864 bytes",
    ),
    (
        TraceError::Fault {
            line: 12,
            cause: TraceCause::Form,
        },
        "trace line 12: no line of a trace",
    ),
];

static OF_INPUTS: [(InputFault, &str); 5] = [
    (InputFault::NoMemory, "no memory"),
    (InputFault::Unread, "read fault"),
    (InputFault::Unwritten, "write fault"),
    (InputFault::Script { line: 12 }, "script line 12"),
    (
        InputFault::Trace {
            line: 7,
            cause: TraceCause::Servers,
        },
        "trace line 7: a 65th server",
    ),
];

static OF_PICTURES: [(DrawFault, &str); 4] = [
    (
        DrawFault::Input(InputFault::Script { line: 0 }),
        "script line 0",
    ),
    (
        DrawFault::Input(InputFault::Trace {
            line: 2,
            cause: TraceCause::Moment,
        }),
        "trace line 2: a moment before the last event's",
    ),
    (DrawFault::NoQueue, "there is no such queue"),
    (
        DrawFault::NoClass,
        "no request of this class waits in this queue",
    ),
];

static OF_STORIES: [(StoryFault, &str); 3] = [
    (StoryFault::Input(InputFault::Unread), "read fault"),
    (
        StoryFault::Input(InputFault::Trace {
            line: 1,
            cause: TraceCause::Place,
        }),
        "trace line 1: no event stands before it",
    ),
    (StoryFault::NoTicket, "no request has this ticket"),
];

// Checks the text of each.
fn say<T: Display>(rt: &impl Abort, alloc: Global, rows: &[(T, &str)]) {
    for (it, text) in rows {
        let said = it.to_string(alloc).expect(rt, "memory");
        same(rt, said.as_str(), text);
    }
}

#[test]
fn each_fault_says_what_it_is(rt: HostRuntime) {
    say(&rt, rt.alloc(), &CAUSES);
    say(&rt, rt.alloc(), &OF_TRACES);
    say(&rt, rt.alloc(), &OF_INPUTS);
    say(&rt, rt.alloc(), &OF_PICTURES);
    say(&rt, rt.alloc(), &OF_STORIES);
}
