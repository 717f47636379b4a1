use super::calls::moment;
use super::setups::{of_servers, server};
use crate::assertions::same;
use binom_queue::BinomQueue;
use dispatch_core::{Core, Queue, Refusal};
use due_key::{Class, Key, Offset};
use pend_queue::{ListQueue, PendQueue};
use std::alloc::{AllocError, Global};
use std::process::Abort;

// The test succeeds whichever single allocation is refused.

// A dispatcher of one server that takes one request at a time; `None` where its setup isn't sound.
fn made<Q: PendQueue<Key, usize>>(alloc: Global) -> Result<Option<Core<Q>>, AllocError> {
    let setup = of_servers(alloc, &[server(1, 1)])?;
    if !setup.sound() {
        return Ok(None);
    }
    Ok(Some(Core::new(alloc, setup)?))
}

fn made_in_the_end<Q: PendQueue<Key, usize>>(alloc: Global) -> Result<Option<Core<Q>>, AllocError> {
    match made(alloc) {
        Ok(core) => Ok(core),
        Err(_) => made(alloc),
    }
}

fn arrive<Q: PendQueue<Key, usize>>(alloc: Global, core: &mut Core<Q>) -> Result<u64, Refusal> {
    let it = core.arrive(alloc, moment(0), Class::clamp(0), Offset::clamp(0), None)?;
    Ok(it.ticket)
}

// Where memory was refused, the log is unchanged, and the same call is made again.
fn arrive_in_the_end<Q: PendQueue<Key, usize>>(
    rt: &impl Abort,
    alloc: Global,
    core: &mut Core<Q>,
) -> Result<u64, Refusal> {
    let before = core.log().len();
    let answer = arrive(alloc, core);
    if answer != Err(Refusal::NoMemory) {
        return answer;
    }
    same(rt, core.log().len(), before);
    arrive(alloc, core)
}

fn come<Q: PendQueue<Key, usize>>(rt: &impl Abort, alloc: Global, core: &mut Core<Q>) {
    for ticket in 1..4u64 {
        same(rt, arrive_in_the_end(rt, alloc, core), Ok(ticket));
    }
    same(rt, (core.served(0), core.queued(Queue::Backend)), (1, 2));
}

fn come_to<Q: PendQueue<Key, usize>>(rt: &impl Abort, alloc: Global) {
    let made = made_in_the_end::<Q>(alloc).expect(rt, "memory");
    let mut core = made.expect(rt, "a sound setup");
    come(rt, alloc, &mut core);
    drop(core);
}

#[test]
fn a_refused_growth_changes_no_dispatcher(rt: HostRuntime) {
    come_to::<ListQueue<Key, usize>>(&rt, rt.alloc());
    come_to::<BinomQueue<Key, usize>>(&rt, rt.alloc());
}
