mod reopening;

use crate::tallies::Tallies;
use due_key::Moment;
use log_entries::{Entry, Queue};
use log_lines::Follower;

#[test]
fn queues_are_told_of_seldom(rt: HostRuntime) {
    let mut tallies = Tallies::new(rt.alloc(), 1).expect(&rt, "memory");
    let follower = Follower::new(rt.alloc());
    let queue = Queue::Server(0);
    tallies.note(&follower, &Entry::Joined(1, queue));
    assert_eq!(rt; tallies.take_change(2000), Some((queue, true)));
    tallies.note(&follower, &Entry::Granted(1, queue, 0));
    assert_eq!(rt; tallies.served(Some(0)), 1);
    assert_eq!(rt; tallies.take_change(2500), None);
    assert_eq!(rt; tallies.take_change(3000), Some((queue, false)));
    for _ in 0..3 {
        tallies.note(&follower, &Entry::Check(Moment::zero(), 0, false));
    }
    assert_eq!(rt; tallies.checks(0), 3);
}
