//! Tests of the texts of workers' and window printers' faults.

use relay_workers::Stopped;
use run_windows::PrintFault;
use std::alloc::Global;
use std::fmt::Display;
use std::process::Abort;

static OF_WORKERS: [(Stopped, &str); 2] = [
    (Stopped::NoMemory, "no memory"),
    (Stopped::PausesSpent, "turns spent"),
];

static OF_WINDOWS: [(PrintFault, &str); 2] = [
    (PrintFault::NoMemory, "no memory"),
    (PrintFault::Write, "write fault"),
];

// Checks the text of each.
fn say<T: Display>(rt: &impl Abort, alloc: Global, rows: &[(T, &str)]) {
    for (it, text) in rows {
        let said = it.to_string(alloc).expect(rt, "memory");
        assert_eq!(rt; said.as_str(), *text);
    }
}

#[test]
fn each_fault_says_what_it_is(rt: HostRuntime) {
    say(&rt, rt.alloc(), &OF_WORKERS);
    say(&rt, rt.alloc(), &OF_WINDOWS);
}
