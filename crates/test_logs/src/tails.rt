use log_entries::Entry;
use log_reading::{Batch, Tail};
use std::process::Abort;

fn read<R: Abort>(rt: &R, tail: &mut Tail, batch: &mut Batch) {
    batch.entries.clear();
    assert!(rt; tail.room() <= batch.entries.capacity());
    tail.take(batch);
}

#[test]
fn what_is_new_is_read_once_and_a_slow_reader_is_told(rt: HostRuntime) {
    let mut tail = Tail::with_room(rt.alloc(), 4).expect(&rt, "memory");
    let mut batch = Batch::with_room(rt.alloc(), 4).expect(&rt, "memory");
    let entries = [Entry::Ended(1), Entry::Ended(2), Entry::Ended(3)];
    tail.catch_up(&entries[..2]);
    read(&rt, &mut tail, &mut batch);
    assert_eq!(rt; batch.entries.len(), 2);
    tail.catch_up(&entries);
    tail.turn();
    tail.catch_up(&entries[..1]);
    read(&rt, &mut tail, &mut batch);
    let wanted = [Entry::Ended(3), Entry::Ended(1)];
    assert_eq!(rt; batch.entries.as_slice(), wanted.as_slice());
    assert_eq!(rt; (batch.end, batch.lost), (Some(1), None));
    tail.catch_up(&entries);
    tail.turn();
    tail.catch_up(&entries);
    tail.turn();
    read(&rt, &mut tail, &mut batch);
    assert_eq!(rt; batch.entries.len(), 2);
    assert_eq!(rt; (batch.end, batch.lost), (Some(2), Some(1)));
}
