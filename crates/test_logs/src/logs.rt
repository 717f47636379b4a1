use crate::assertions::{holds, same};
use due_key::{Class, Due, Key, Moment, Offset};
use log_entries::{Allowance, Arrival, Intake, Phase, Queue, Refusal, ServerSet, Servers, Setup};
use std::alloc::Global;
use std::process::Abort;

fn server_of(limit: u32) -> ServerSet {
    ServerSet {
        limit,
        maxqueue: 0,
        weight: 1,
        rise_fall: None,
    }
}

fn setup_of(rt: &impl Abort, alloc: Global, servers: &[ServerSet], retries: u32) -> Setup {
    Setup {
        servers: Servers::from_vec(Vec::from_slice(alloc, servers).expect(rt, "memory")),
        places: 2,
        log: 64,
        retries,
        redispatch: false,
        queue_timeout: 0,
    }
}

#[test]
fn servers_stand_in_file_order(rt: HostRuntime) {
    let server = server_of(7);
    let servers = Servers::from_vec(vec![in rt.alloc(); server].expect(&rt, "memory"));
    same(&rt, servers.len(), 1);
    holds(&rt, !servers.is_empty());
    same(&rt, servers.as_slice().first().copied(), Some(server));
}

#[test]
fn slots_and_refusals_are_told(rt: HostRuntime) {
    same(&rt, Phase::Serving(3).server(), Some(3));
    same(&rt, Phase::Loose.server(), None);
    same(&rt, Refusal::LogFull.number(), 3);
    same(&rt, Refusal::TicketsSpent.number(), 14);
}

#[test]
fn arrivals_have_keys_and_waits_have_queues(rt: HostRuntime) {
    let class = Class::clamp(-2);
    let due = Due::of(Moment::zero(), Offset::clamp(7));
    let arrival = Arrival {
        ticket: 5,
        class,
        due,
        pin: Some(1),
        place: 3,
    };
    let key = Key {
        class,
        due,
        ticket: 5,
    };
    same(&rt, arrival.key(), key);
    let waits = Phase::Waiting(Queue::Server(2), Moment::zero());
    same(&rt, waits.queue(), Some(Queue::Server(2)));
    same(&rt, Phase::Serving(2).queue(), None);
}

#[test]
fn limits_are_the_setups_at_first(rt: HostRuntime) {
    let servers = [server_of(7), server_of(0)];
    let setup = setup_of(&rt, rt.alloc(), servers.as_slice(), 999_999_999);
    holds(&rt, setup.sound());
    let limits = setup.opening_limits(rt.alloc()).expect(&rt, "memory");
    let expected = [7, 0].map(|limit| Allowance {
        limit: Intake::Open(limit),
        served: 0,
    });
    same(&rt, limits.as_slice(), expected.as_slice());
}

#[test]
fn retries_have_nine_digits_at_most(rt: HostRuntime) {
    let servers = [server_of(1)];
    let setup = setup_of(&rt, rt.alloc(), servers.as_slice(), 1_000_000_000);
    holds(&rt, !setup.sound());
}
