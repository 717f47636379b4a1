use crate::assertions::same;
use crate::samples::{moment, named};
use due_key::{Class, Due, Offset};
use late_cert::{Report, Stay, Stays};
use log_entries::Queue;
use log_texts::{push_reports, push_roll};

fn stay(ticket: u64, slot: usize, due: Due) -> Stay {
    Stay {
        ticket,
        joined: 4,
        slot,
        due,
    }
}

#[test]
fn reports_are_written_line_by_line(rt: HostRuntime) {
    let due = Due::of(moment(5), Offset::clamp(-7));
    let two = Stays::copied(rt.alloc(), &[stay(12, 10, due), stay(3, 14, due)]);
    let one = Stays::copied(rt.alloc(), &[stay(9, 14, due)]);
    let reports = [
        Report {
            queue: Queue::Backend,
            class: Class::clamp(0),
            granted: 3,
            worst: 19,
            due,
            after: 8,
            to: 14,
            critical: two.expect(&rt, "memory"),
        },
        Report {
            queue: Queue::Server(0),
            class: Class::clamp(-3),
            granted: 3,
            worst: -4,
            due,
            after: 8,
            to: 14,
            critical: one.expect(&rt, "memory"),
        },
    ];
    let names = named(&rt, rt.alloc(), &["a"]);
    let mut text = String::new(rt.alloc());
    push_reports(&mut text, &names, &reports).expect(&rt, "memory");
    let expected = "\
queue * class 0 granted 3 worst 19 due -2 after 8 to 14 critical 12 3
queue a class -3 granted 3 worst -4 due -2 after 8 to 14 critical 9
";
    same(&rt, text.as_str(), expected);
}

#[test]
fn a_roll_has_its_line_before_the_reports(rt: HostRuntime) {
    let due = Due::of(moment(100), Offset::clamp(0));
    let critical = Stays::copied(rt.alloc(), &[stay(2, 8, due)]);
    let report = Report {
        queue: Queue::Backend,
        class: Class::clamp(0),
        granted: 1,
        worst: -90,
        due,
        after: 0,
        to: 8,
        critical: critical.expect(&rt, "memory"),
    };
    let names = named(&rt, rt.alloc(), &[]);
    let mut text = String::new(rt.alloc());
    push_roll(&mut text, &names, &[report]).expect(&rt, "memory");
    push_roll(&mut text, &names, &[]).expect(&rt, "memory");
    let expected = "\
roll
queue * class 0 granted 1 worst -90 due 100 after 0 to 8 critical 2
roll
";
    same(&rt, text.as_str(), expected);
}
