use super::{Stayed, are_in_order};
use due_key::{Class, Due, Key, Moment, Offset};
use log_entries::Queue;

// Class, due date and ticket, the queue, and the positions at which the request joined and left the queue.
type Stay = (i64, i64, u64, Queue, usize, usize);

const HERE: Queue = Queue::Backend;

const THERE: Queue = Queue::Server(0);

static ROWS: [(&str, Stay, Stay, bool); 8] = [
    (
        "due earlier, left earlier",
        (0, 9, 1, HERE, 1, 6),
        (0, 5, 2, HERE, 2, 5),
        true,
    ),
    (
        "due earlier, left later",
        (0, 9, 1, HERE, 1, 5),
        (0, 5, 2, HERE, 2, 6),
        false,
    ),
    (
        "of a lower class, left later",
        (1, 5, 1, HERE, 1, 5),
        (0, 9, 2, HERE, 2, 6),
        false,
    ),
    (
        "of a higher class, left later",
        (0, 9, 1, HERE, 1, 5),
        (1, 5, 2, HERE, 2, 6),
        true,
    ),
    (
        "due together, the first one left later",
        (0, 5, 1, HERE, 1, 6),
        (0, 5, 2, HERE, 2, 5),
        false,
    ),
    (
        "one left as the other joined",
        (0, 9, 1, HERE, 1, 4),
        (0, 5, 2, HERE, 4, 6),
        true,
    ),
    (
        "they overlap by an entry",
        (0, 9, 1, HERE, 1, 5),
        (0, 5, 2, HERE, 4, 6),
        false,
    ),
    (
        "in two queues",
        (0, 9, 1, HERE, 1, 5),
        (0, 5, 2, THERE, 2, 6),
        true,
    ),
];

fn stayed(stay: Stay) -> Stayed {
    let (class, due, ticket, queue, joined, left) = stay;
    let key = Key {
        class: Class::clamp(class),
        due: Due::of(Moment::zero(), Offset::clamp(due)),
        ticket,
    };
    Stayed {
        key,
        queue,
        joined,
        left,
    }
}

#[test]
fn of_two_that_wait_together_the_smaller_key_leaves_first(rt: HostRuntime) {
    for &(name, one, other, answer) in &ROWS {
        let stays = [stayed(one), stayed(other)];
        assert_eq!(rt; are_in_order(&stays), answer, "{name}");
    }
    assert!(rt; are_in_order(&[]));
}
