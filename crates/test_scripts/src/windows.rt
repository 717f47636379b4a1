use crate::assertions::same;
use crate::samples::{moment, named};
use dispatch_reports::ServerLine;
use due_key::{Class, Due, Offset};
use late_cert::{Report, Stay, Stays};
use log_entries::Queue;
use run_windows::{Sums, end_text, push_servers, push_window};

// The lines of two servers in two windows.
static WINDOWS: [[ServerLine; 2]; 2] = [
    [
        ServerLine {
            up: true,
            direct: 3,
            granted: 4,
        },
        ServerLine {
            up: false,
            direct: 0,
            granted: 1,
        },
    ],
    [
        ServerLine {
            up: false,
            direct: 1,
            granted: 0,
        },
        ServerLine {
            up: true,
            direct: 2,
            granted: usize::MAX,
        },
    ],
];

#[test]
fn two_windows_are_told_and_summed(rt: HostRuntime) {
    let names = named(&rt, rt.alloc(), &["a", "b"]);
    let mut sums = Sums::new(rt.alloc(), 2).expect(&rt, "memory");
    for window in &WINDOWS {
        sums.add(window);
    }
    let mut text = String::new(rt.alloc());
    push_window(&mut text, &names, 2, "", &[]).expect(&rt, "memory");
    push_window(&mut text, &names, 3, " from 0 to 9", &[]).expect(&rt, "memory");
    push_servers(&mut text, &names, sums.lines()).expect(&rt, "memory");
    let expected = "window 2
window 3 from 0 to 9
server a down direct 4 granted 4
server b up direct 2 granted 18446744073709551615
";
    same(&rt, text.as_str(), expected);
}

#[test]
fn the_servers_lines_stand_before_the_reports_at_the_end(rt: HostRuntime) {
    let due = Due::of(moment(100), Offset::clamp(0));
    let stay = Stay {
        ticket: 2,
        joined: 4,
        slot: 8,
        due,
    };
    let report = Report {
        queue: Queue::Backend,
        class: Class::clamp(0),
        granted: 1,
        worst: -90,
        due,
        after: 0,
        to: 8,
        critical: Stays::copied(rt.alloc(), &[stay]).expect(&rt, "memory"),
    };
    let names = named(&rt, rt.alloc(), &["a"]);
    let sums = Sums::new(rt.alloc(), 1).expect(&rt, "memory");
    let text = end_text(rt.alloc(), &names, &sums, &[report]).expect(&rt, "memory");
    let expected = "server a up direct 0 granted 0
queue * class 0 granted 1 worst -90 due 100 after 0 to 8 critical 2
";
    same(&rt, text.as_str(), expected);
}
