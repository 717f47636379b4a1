use crate::assertions::{holds, same};
use base_places::PlaceSet;

#[test]
fn places_come_by_rising_number(rt: HostRuntime) {
    let mut set = PlaceSet::new();
    same(&rt, set.next(0), None);
    set.insert(70);
    set.insert(3);
    set.insert(4095);
    same(&rt, set.next(0), Some(3));
    same(&rt, set.next(3), Some(3));
    same(&rt, set.next(4), Some(70));
    same(&rt, set.next(71), Some(4095));
    same(&rt, set.next(4096), None);
    holds(
        &rt,
        set.contains(70) && !set.contains(71) && !set.contains(4096),
    );
    set.remove(70);
    same(&rt, set.next(4), Some(4095));
}

#[test]
fn a_block_is_walked_by_rising_number(rt: HostRuntime) {
    let mut set = PlaceSet::new();
    set.insert(63);
    set.insert(64);
    set.insert(70);
    set.insert(127);
    set.insert(128);
    let mut block = set.block(1);
    same(&rt, block.take_first(), Some(64));
    same(&rt, block.take_first(), Some(70));
    same(&rt, block.take_first(), Some(127));
    same(&rt, block.take_first(), None);
}
