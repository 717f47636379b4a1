use crate::assertions::same;
use crate::samples::{moment, named};
use base_verdict::Cause;
use due_key::{Class, Due, Offset};
use log_entries::{Arrival, Entry, Intake, Queue, Refusal};
use log_texts::{push_entries, push_refusal};
use std::alloc::Global;
use std::process::Abort;

// Returns the lines of these entries.
fn text_of(rt: &impl Abort, alloc: Global, entries: &[Entry]) -> String {
    let mut text = String::new(alloc);
    push_entries(&mut text, &named(rt, alloc, &["a", "b"]), entries).expect(rt, "memory");
    text
}

#[test]
fn entries_are_written_line_by_line(rt: HostRuntime) {
    let due = Due::of(moment(7), Offset::clamp(-600_000));
    let arrival = Arrival {
        ticket: 1,
        class: Class::clamp(-3),
        due,
        pin: None,
        place: 9,
    };
    let pinned = Arrival {
        ticket: 2,
        class: Class::clamp(3),
        due,
        pin: Some(1),
        place: 0,
    };
    let entries = [
        Entry::Arrive(moment(7), arrival),
        Entry::Direct(1, 1),
        Entry::Arrive(moment(8), pinned),
        Entry::Joined(2, Queue::Backend),
        Entry::Joined(3, Queue::Server(0)),
        Entry::Done(moment(9), 1),
        Entry::Freed(1, 1),
        Entry::Left(4, Cause::NoServer),
        Entry::Ended(1),
        Entry::Granted(2, Queue::Backend, 1),
        Entry::Granted(3, Queue::Server(0), 0),
    ];
    let mut text = text_of(&rt, rt.alloc(), &entries);
    push_refusal(&mut text, Refusal::TicketsSpent).expect(&rt, "memory");
    let expected =
        "7 arrive 1 -3 -524280\n  direct 1 b\n8 arrive 2 3 -524280 b\n  join 2 *\n  join 3 a\n9 done 1\n  free 1 b\n  left 4 noserver\n  end 1\n  grant 2 * b\n  grant 3 a a\nrefused 14\n";
    same(&rt, text.as_str(), expected);
}

#[test]
fn failures_ticks_checks_and_limits_are_written_line_by_line(rt: HostRuntime) {
    let entries = [
        Entry::Fail(moment(3), 1),
        Entry::Retried(1, 0, 2),
        Entry::Abort(moment(4), 2),
        Entry::Left(2, Cause::Aborted),
        Entry::Tick(moment(15)),
        Entry::Left(3, Cause::Timeout),
        Entry::Check(moment(16), 1, true),
        Entry::Health(1, true),
        Entry::Check(moment(17), 0, false),
        Entry::Health(0, false),
        Entry::Moved(4, 0),
        Entry::Left(1, Cause::Retries),
        Entry::Limit(moment(18), 1, Intake::Open(7)),
        Entry::Limit(moment(19), 0, Intake::Open(0)),
        Entry::Limit(moment(20), 1, Intake::Closed),
    ];
    let text = text_of(&rt, rt.alloc(), &entries);
    let expected = "\
3 fail 1
  retry 1 a 2
4 abort 2
  left 2 aborted
15 tick
  left 3 timeout
16 check b up
  health b up
17 check a down
  health a down
  move 4 a
  left 1 retries
18 limit b 7
19 limit a 0
20 limit b closed
";
    same(&rt, text.as_str(), expected);
}
