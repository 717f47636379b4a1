use crate::assertions::{holds, same};
use due_key::{Class, Due, Key, Moment, Offset};

// Makes a moment. A number out of range, which no test has, would give 0, so this can't fail.
fn moment(number: u64) -> Moment {
    Moment::new(number).unwrap_or(Moment::zero())
}

#[test]
fn classes_and_offsets_end_at_their_limits(rt: HostRuntime) {
    same(&rt, Class::clamp(-2048).get(), -2047);
    same(&rt, Class::clamp(5).get(), 5);
    same(&rt, Class::clamp(i64::MAX).get(), 2047);
    same(&rt, Offset::clamp(i64::MIN).get(), -524_287);
    same(&rt, Offset::clamp(-1).get(), -1);
    same(&rt, Offset::clamp(600_000).get(), 524_287);
}

#[test]
fn moments_end_below_two_to_the_62(rt: HostRuntime) {
    same(&rt, moment((1 << 62) - 1).get(), (1 << 62) - 1);
    same(&rt, Moment::new(1 << 62), None);
    same(&rt, Moment::zero().get(), 0);
    same(&rt, moment(3).later(moment(7)).get(), 7);
}

#[test]
fn due_dates_are_exact_sums(rt: HostRuntime) {
    let earliest = Due::of(Moment::zero(), Offset::clamp(-600_000));
    let last = moment((1 << 62) - 1);
    let latest = Due::of(last, Offset::clamp(600_000));
    same(&rt, earliest.get(), -524_287);
    same(&rt, latest.get(), (1 << 62) - 1 + 524_287);
    same(&rt, earliest.lateness(last), (1 << 62) - 1 + 524_287);
    same(
        &rt,
        latest.lateness(Moment::zero()),
        -((1 << 62) - 1 + 524_287),
    );
}

#[test]
fn keys_go_by_class_then_due_date_then_ticket(rt: HostRuntime) {
    let key = |class: i64, offset: i64, ticket: u64| Key {
        class: Class::clamp(class),
        due: Due::of(Moment::zero(), Offset::clamp(offset)),
        ticket,
    };
    holds(&rt, key(-1, 9, 9) < key(0, -9, 1));
    holds(&rt, key(0, -9, 9) < key(0, 9, 1));
    holds(&rt, key(0, 9, 1) < key(0, 9, 2));
    same(&rt, key(0, 9, 2), key(0, 9, 2));
}

#[test]
fn numbers_print_in_decimal(rt: HostRuntime) {
    let due = Due::of(moment(12), Offset::clamp(-15));
    let text = format!(in rt.alloc();
        "{} {} {} {}",
        Class::clamp(-7),
        Offset::clamp(7),
        moment(12),
        due
    )
    .expect(&rt, "memory");
    same(&rt, text.as_str(), "-7 7 12 -3");
}
