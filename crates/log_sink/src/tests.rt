use crate::Pending;
use crate::pending::{LostNotice, Next, lost_of};

#[test]
fn what_finds_no_room_is_left_out(rt: HostRuntime) {
    let mut pending = Pending::with_room(rt.alloc(), 8).expect(&rt, "memory");
    assert!(rt; pending.rests());
    assert!(rt; pending.add("one\n", 1));
    assert!(rt; !pending.add("three\n", 1));
    assert!(rt; pending.add("two\n", 1));
    assert!(rt; !pending.rests());
    assert_eq!(rt; pending.unwritten(), 2);
    let mut text = String::new(rt.alloc());
    assert_eq!(rt; pending.next(&mut text), Next::Writes(None));
    assert_eq!(rt; text.as_str(), "one\ntwo\n");
    assert!(rt; pending.note_written(2));
    assert!(rt; pending.is_failing());
    assert_eq!(rt;
        (
            pending.unwritten(),
            pending.take_lost(),
            pending.take_lost()
        ),
        (2, 2, 0)
    );
}

#[test]
fn a_count_that_is_lost_counts_again(rt: HostRuntime) {
    let mut pending = Pending::with_room(rt.alloc(), 64).expect(&rt, "memory");
    assert!(rt; pending.add("one\n", 1));
    assert!(rt; pending.add_tally("lost 7\n", 7));
    assert!(rt; !pending.add_tally("lost 1\n", 1));
    assert!(rt; pending.add("two\n", 1));
    assert_eq!(rt; pending.unwritten(), 9);
    let mut text = String::new(rt.alloc());
    let tally = Some(LostNotice { at: 4, lost: 7 });
    assert_eq!(rt; pending.next(&mut text), Next::Writes(tally));
    assert_eq!(rt; lost_of(text.as_str(), 4, tally), 8);
    assert_eq!(rt; lost_of(text.as_str(), 11, tally), 1);
    assert_eq!(rt; lost_of(text.as_str(), 15, tally), 0);
}
