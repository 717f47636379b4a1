use crate::assertions::same;
use due_key::Moment;
use log_entries::{Entry, Queue};
use log_stretches::{Course, Lane, Stretch, stretches_of};

static STRETCHES: [Stretch; 2] = [
    Stretch {
        ticket: 7,
        lane: Lane::Queue(Queue::Backend),
        from: 2,
        to: Some(3),
    },
    Stretch {
        ticket: 7,
        lane: Lane::Server(0),
        from: 3,
        to: None,
    },
];

#[test]
fn a_stay_ends_where_its_service_begins(rt: HostRuntime) {
    let now = Moment::zero();
    let entries = [
        Entry::Tick(now),
        Entry::Joined(7, Queue::Backend),
        Entry::Granted(7, Queue::Backend, 0),
    ];
    let stretches = stretches_of(rt.alloc(), &entries).expect(&rt, "memory");
    same(&rt, stretches.as_slice(), STRETCHES.as_slice());
    let course = Course::new(rt.alloc(), &entries).expect(&rt, "memory");
    same(&rt, course.stretches(), STRETCHES.as_slice());
    same(&rt, course.moments(), [now, now, now].as_slice());
    same(&rt, course.arrival(7), None);
    same(&rt, course.entries(), entries.as_slice());
}
