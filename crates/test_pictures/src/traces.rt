use crate::assertions::same;
use crate::overtaking::ENTRIES;
use due_key::{Class, Due, Moment, Offset};
use late_cert::{Report, Stays};
use log_entries::{Entry, Queue};
use log_reading::Stay;
use log_texts::Names;
use std::alloc::Global;
use view_traces::{MOST_BYTES, TraceCause, TraceError, is_trace, read_trace, trace_of_window};

static TEXTS: [(&str, bool); 4] = [
    (ENTRIES, true),
    ("0 arrive 0 0\n", false),
    ("# 1\nlog 5\n", false),
    ("0 arrive 1 0 5\n  direct 1 a", true),
];

#[test]
fn a_script_is_no_trace(rt: HostRuntime) {
    for &(text, answer) in &TEXTS {
        same(&rt, (text, is_trace(text.as_bytes())), (text, answer));
    }
}

// The name of a text, the text, and its first faulty line and what is wrong with that.
static FAULTS: [(&str, &str, Option<(usize, TraceCause)>); 26] = [
    ("nothing", "", None),
    ("lines that are skipped", "# 1\n\n \t\r\n", None),
    (
        "a script's arrival",
        "0 tick\n\n0 arrive 0 0\n",
        Some((3, TraceCause::Form)),
    ),
    (
        "an end without its ticket",
        "0 done\n",
        Some((1, TraceCause::Form)),
    ),
    (
        "a word behind a tick",
        "0 tick 1\n",
        Some((1, TraceCause::Form)),
    ),
    (
        "an event that is none",
        "0 ticks 1\n",
        Some((1, TraceCause::Form)),
    ),
    (
        "a decision that is none",
        "0 tick\n  ended 1 a\n",
        Some((2, TraceCause::Form)),
    ),
    (
        "a moment of 19 digits",
        "1000000000000000000 tick\n",
        Some((1, TraceCause::Form)),
    ),
    (
        "a class that no request has",
        "0 arrive 1 2048 0\n",
        Some((1, TraceCause::Form)),
    ),
    (
        "a due date that no request has",
        "0 arrive 1 0 -524288\n",
        Some((1, TraceCause::Form)),
    ),
    (
        "a name that is none",
        "0 tick\n  direct 1 a/b\n",
        Some((2, TraceCause::Form)),
    ),
    (
        "a cause that is none",
        "0 tick\n  left 1 late\n",
        Some((2, TraceCause::Form)),
    ),
    (
        "neither up nor down",
        "0 check a left\n",
        Some((1, TraceCause::Form)),
    ),
    ("a refusal before any event", "refused 2\n", None),
    (
        "a refusal without its number",
        "refused\n",
        Some((1, TraceCause::Form)),
    ),
    ("a roll before any event", "roll\n", None),
    (
        "a word behind a roll",
        "roll 1\n",
        Some((1, TraceCause::Form)),
    ),
    (
        "a report without its set",
        "0 tick\nqueue * class 0 granted 1 worst 0 due 0 after 0 to 1\n",
        Some((2, TraceCause::Form)),
    ),
    ("moments that stay", "5 tick\n5 tick\n", None),
    (
        "moments that fall",
        "5 tick\n4 tick\n",
        Some((2, TraceCause::Moment)),
    ),
    (
        "moments that fall behind a decision",
        "5 arrive 1 0 5\n  direct 1 a\n4 done 1\n",
        Some((3, TraceCause::Moment)),
    ),
    (
        "a decision before any event",
        "# 1\n  end 1\n",
        Some((2, TraceCause::Place)),
    ),
    (
        "a decision behind a roll alone",
        "roll\n  free 1 a\n",
        Some((2, TraceCause::Place)),
    ),
    (
        "a report before any event",
        "queue * class 0 granted 1 worst 0 due 0 after 0 to 1 critical 1\n",
        Some((1, TraceCause::Place)),
    ),
    (
        "a decision before any event that isn't one",
        "  ended 1 a\n",
        Some((1, TraceCause::Form)),
    ),
    (
        "two faults",
        "5 tick\n4 tick\n0 done\n",
        Some((2, TraceCause::Moment)),
    ),
];

fn fault_in(alloc: Global, text: &[u8]) -> Option<TraceError> {
    read_trace(alloc, Vec::new(alloc), text).err()
}

fn fault(found: Option<(usize, TraceCause)>) -> Option<TraceError> {
    found.map(|(line, cause)| TraceError::Fault { line, cause })
}

#[test]
fn the_first_faulty_line_is_named_with_its_cause(rt: HostRuntime) {
    for &(name, text, expected) in &FAULTS {
        let found = fault_in(rt.alloc(), text.as_bytes());
        same(&rt, (name, found), (name, fault(expected)));
    }
}

#[test]
fn a_trace_has_64_servers_at_most(rt: HostRuntime) {
    let mut text = String::new(rt.alloc());
    text.push_str("0 tick\n").expect(&rt, "memory");
    for server in 0..64u64 {
        writeln!(text, "  direct 1 s{server}").expect(&rt, "memory");
    }
    same(&rt, fault_in(rt.alloc(), text.as_bytes()), None);
    text.push_str("  direct 1 more\n").expect(&rt, "memory");
    let found = fault_in(rt.alloc(), text.as_bytes());
    same(&rt, found, fault(Some((66, TraceCause::Servers))));
}

// The first line has a fault, so that no other is read.
#[test]
fn a_trace_has_64_mebibytes_at_most(rt: HostRuntime) {
    let mut text = Vec::new(rt.alloc());
    text.extend_from_slice(b"tick\n").expect(&rt, "memory");
    text.resize(MOST_BYTES, b'#').expect(&rt, "memory");
    let found = fault_in(rt.alloc(), &text);
    same(&rt, found, fault(Some((1, TraceCause::Form))));
    text.push(b'#').expect(&rt, "memory");
    let found = fault_in(rt.alloc(), &text);
    same(&rt, found, fault(Some((0, TraceCause::Length))));
}

#[test]
fn a_window_is_told_as_it_is(rt: HostRuntime) {
    let alloc = rt.alloc();
    let due = Due::of(Moment::zero(), Offset::clamp(0));
    let stay = Stay {
        ticket: 7,
        joined: 2,
        slot: 3,
        due,
    };
    let report = Report {
        queue: Queue::Backend,
        class: Class::clamp(0),
        granted: 1,
        worst: 0,
        due,
        after: 0,
        to: 3,
        critical: Stays::copied(alloc, &[stay]).expect(&rt, "memory"),
    };
    let entries = [Entry::Tick(Moment::zero())];
    let names = Names::new(Vec::new(alloc));
    let told = trace_of_window(alloc, names, &entries, &[report]).expect(&rt, "memory");
    same(&rt, told.entries.as_slice(), entries.as_slice());
    same(&rt, told.reports[0].critical.as_slice(), [7].as_slice());
}
