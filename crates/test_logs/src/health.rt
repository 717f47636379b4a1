use crate::assertions::{holds, same};
use check_state::{Change, Health};

#[test]
fn two_successes_raise_and_three_failures_drop(rt: HostRuntime) {
    let mut health = Health::new(2, 3);
    holds(&rt, health.up());
    let rows = [
        (false, Change::Stay),
        (false, Change::Stay),
        (true, Change::Stay),
        (false, Change::Stay),
        (false, Change::Stay),
        (false, Change::WentDown),
        (false, Change::Stay),
        (true, Change::Stay),
        (false, Change::Stay),
        (true, Change::Stay),
        (true, Change::WentUp),
        (true, Change::Stay),
        (false, Change::Stay),
        (false, Change::Stay),
        (false, Change::WentDown),
    ];
    for (ok, change) in rows {
        let told = health.result(ok);
        same(&rt, told, change);
    }
    holds(&rt, !health.up());
}

#[test]
fn with_limits_of_one_each_result_decides(rt: HostRuntime) {
    let mut health = Health::new(1, 1);
    let told = health.result(true);
    same(&rt, told, Change::Stay);
    let told = health.result(false);
    same(&rt, told, Change::WentDown);
    holds(&rt, !health.up());
    let told = health.result(false);
    same(&rt, told, Change::Stay);
    let told = health.result(true);
    same(&rt, told, Change::WentUp);
    holds(&rt, health.up());
}
