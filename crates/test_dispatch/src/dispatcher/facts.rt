use super::calls::moment;
use dispatch_core::{Core, Phase, Queue};
use due_key::{Class, Key, Moment};
use pend_queue::PendQueue;
use std::fmt::Debug;
use std::process::Abort;

/// A fact that a dispatcher tells of itself.
#[derive(Clone, Copy)]
pub enum Fact {
    /// The phase of the request with this ticket.
    Phase(u64, Option<Phase>),
    /// The place of the request with this ticket.
    Place(u64, Option<usize>),
    Places(usize),
    Servers(usize),
    /// This server is up.
    Up(usize, bool),
    /// The number of requests that this server serves.
    Served(usize, usize),
    /// The number of requests that wait in this queue.
    Queued(Queue, usize),
    HasRoom(bool),
    /// A tick at this moment would tell a timeout.
    Expired(u64, bool),
    LogIsEmpty(bool),
    /// The number of entries in the window.
    Entries(usize),
    /// The number of requests in the window's base.
    BaseRows(usize),
    /// The class and the moment of the window's first grant.
    FirstGrant(Option<(Class, Moment)>),
    /// The positions in the log where the stay of the window's first grant begins and where it gets its slot.
    FirstStay(Option<(usize, usize)>),
}

/// Fails the test at this step, counted from 0, where the dispatcher tells something else.
pub fn tells<Q: PendQueue<Key, usize>>(
    rt: &impl Abort,
    core: &Core<Q>,
    number: usize,
    fact: &Fact,
) {
    match fact {
        Fact::Phase(ticket, phase) => same_at(rt, number, core.phase(*ticket), *phase),
        Fact::Place(ticket, place) => same_at(rt, number, core.place(*ticket), *place),
        Fact::Places(count) => same_at(rt, number, core.places(), *count),
        Fact::Servers(count) => same_at(rt, number, core.servers(), *count),
        Fact::Up(server, up) => same_at(rt, number, core.up(*server), *up),
        Fact::Served(server, count) => same_at(rt, number, core.served(*server), *count),
        Fact::Queued(queue, count) => same_at(rt, number, core.queued(*queue), *count),
        Fact::HasRoom(so) => same_at(rt, number, core.has_room(), *so),
        Fact::Expired(at, so) => same_at(rt, number, core.expired(moment(*at)), *so),
        Fact::LogIsEmpty(so) => same_at(rt, number, core.log().is_empty(), *so),
        Fact::Entries(count) => same_at(rt, number, core.log().len(), *count),
        Fact::BaseRows(count) => same_at(rt, number, core.log().base().len(), *count),
        Fact::FirstGrant(grant) => same_at(rt, number, first_grant(core), *grant),
        Fact::FirstStay(stay) => same_at(rt, number, first_stay(core), *stay),
    }
}

/// Fails the test at this step, counted from 0, where the two differ, and prints both.
pub fn same_at<T: PartialEq + Debug + Drop>(rt: &impl Abort, number: usize, found: T, expected: T) {
    assert_eq!(rt; found, expected, "step {number}");
}

fn first_grant<Q: PendQueue<Key, usize>>(core: &Core<Q>) -> Option<(Class, Moment)> {
    match core.log().grants().first() {
        Some(grant) => Some((grant.class, grant.moment)),
        None => None,
    }
}

fn first_stay<Q: PendQueue<Key, usize>>(core: &Core<Q>) -> Option<(usize, usize)> {
    match core.log().grants().first() {
        Some(grant) => Some((grant.stay.joined, grant.stay.slot)),
        None => None,
    }
}
