use crate::assertions::{holds, same};
use due_key::{Class, Due, Key, Moment, Offset};
use pend_queue::ListQueue;
use queue_outside::{OutsideOrder, RoomFault, remaining};
use std::alloc::Global;

type Room = OutsideOrder<ListQueue<Key, usize>>;

fn at(millis: u64) -> Moment {
    Moment::new(millis).unwrap_or(Moment::zero())
}

// Adds a guest with this number, class and offset.
fn come(
    room: &mut Room,
    alloc: Global,
    wish: (i64, i64),
    millis: u64,
    guest: usize,
) -> Result<Key, RoomFault> {
    let (class, offset) = (Class::clamp(wish.0), Offset::clamp(wish.1));
    room.come(alloc, class, offset, at(millis), guest)
}

#[test]
fn guests_leave_by_class_and_due_date(rt: HostRuntime) {
    let alloc = rt.alloc();
    let mut room = Room::with_room(alloc, 3).expect(&rt, "memory");
    let late = come(&mut room, alloc, (0, 0), 10, 7);
    let urgent = come(&mut room, alloc, (0, -50), 20, 8);
    let behind = come(&mut room, alloc, (1, -90), 30, 9);
    holds(&rt, late.is_ok() && behind.is_ok());
    same(
        &rt,
        come(&mut room, alloc, (0, 0), 40, 6),
        Err(RoomFault::Full),
    );
    let first = room.first().map(|it| it.1);
    same(&rt, first, Some(8));
    same(&rt, room.leave(urgent.expect(&rt, "a key")), Some(8));
    let next = (room.next().map(|it| it.1), room.next().map(|it| it.1));
    same(&rt, next, (Some(7), Some(9)));
    same(&rt, (room.len(), room.next().is_none()), (0, true));
}

#[test]
fn a_due_date_stays_as_long_as_an_offset_can_say_it(rt: HostRuntime) {
    let due = Due::of(at(1000), Offset::clamp(-20));
    same(&rt, remaining(due, at(1500)).get(), -520);
    same(&rt, remaining(due, at(900_000)).get(), -524_287);
}
