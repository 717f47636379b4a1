//! Tests of the texts of faults.

use crate::assertions::same;
use log_texts::ScriptError;
use replay::Fault;
use std::alloc::Global;
use std::fmt::Display;
use std::process::Abort;

static OF_SCRIPTS: [(ScriptError, &str); 3] = [
    (ScriptError::NoMemory, "no memory"),
    (ScriptError::Fault { line: 0 }, "script line 0"),
    (ScriptError::Fault { line: 12 }, "script line 12"),
];

static OF_REPLAYS: [(Fault, &str); 5] = [
    (Fault::NoMemory, "no memory"),
    (Fault::Script { line: 0 }, "script line 0"),
    (Fault::Script { line: 12 }, "script line 12"),
    (Fault::Read, "read fault"),
    (Fault::Write, "write fault"),
];

// Checks the text of each.
fn say<T: Display>(rt: &impl Abort, alloc: Global, rows: &[(T, &str)]) {
    for (it, text) in rows {
        let said = it.to_string(alloc).expect(rt, "memory");
        same(rt, said.as_str(), text);
    }
}

#[test]
fn each_fault_says_what_it_is(rt: HostRuntime) {
    say(&rt, rt.alloc(), &OF_SCRIPTS);
    say(&rt, rt.alloc(), &OF_REPLAYS);
}
