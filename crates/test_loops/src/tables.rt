use crate::assertions::{holds, same};
use due_key::Moment;
use loop_table::{Overdue, Timers, TokenTable};

fn at(millis: u64) -> Moment {
    Moment::new(millis).unwrap_or(Moment::zero())
}

// Returns the key of an expired timeout.
fn over(limits: &mut Timers) -> Option<usize> {
    match limits.take_overdue() {
        None => None,
        Some(overdue) => {
            let Overdue { keyword: _, cell } = overdue;
            Some(cell)
        }
    }
}

#[test]
fn a_token_names_one_value(rt: HostRuntime) {
    let mut slots = TokenTable::<u64>::with_room(rt.alloc(), 1).expect(&rt, "memory");
    let first = slots.put(11).expect(&rt, "a slot");
    same(&rt, slots.get(first).copied(), Some(11));
    holds(&rt, slots.is_full() && slots.is_held(first));
    match slots.lend(first) {
        Some((_, hole)) => slots.close(hole),
        None => {}
    }
    let second = slots.put(12).expect(&rt, "a slot");
    holds(&rt, second.index() == first.index());
    same(
        &rt,
        (slots.get(first).copied(), slots.get(second).copied()),
        (None, Some(12)),
    );
    let values = slots.into_values();
    same(&rt, values.len(), 1);
}

#[test]
fn who_began_first_is_over_first(rt: HostRuntime) {
    let mut limits = Timers::new(rt.alloc());
    let keyword = limits.add(rt.alloc(), 10, 4).expect(&rt, "memory");
    limits.begin(keyword, 1);
    limits.look_at_clock(at(5));
    limits.begin(keyword, 2);
    limits.look_at_clock(at(9));
    same(&rt, (limits.patience(), over(&mut limits)), (Some(1), None));
    limits.look_at_clock(at(15));
    same(
        &rt,
        (over(&mut limits), over(&mut limits), over(&mut limits)),
        (Some(1), Some(2), None),
    );
    same(&rt, limits.patience(), None);
}
