use crate::assertions::holds;
use dispatch_core::{Core, Refusal, Setup};
use due_key::{Class, Key, Moment, Offset};
use log_entries::Intake;
use pend_queue::PendQueue;
use std::alloc::Global;
use std::process::Abort;

/// A call of a dispatcher.
#[derive(Clone, Copy)]
pub enum Call {
    Arrive(Class, Offset, Option<usize>),
    Done(u64),
    Fail(u64),
    Abort(u64),
    Tick,
    Check(usize, bool),
    Limit(usize, Intake),
}

/// Makes a call, and returns the place of an arrival.
pub fn ask<Q: PendQueue<Key, usize>>(
    alloc: Global,
    core: &mut Core<Q>,
    moment: Moment,
    call: Call,
) -> Result<usize, Refusal> {
    let answer = match call {
        Call::Arrive(class, offset, pin) => {
            let arrival = core.arrive(alloc, moment, class, offset, pin)?;
            return Ok(arrival.place);
        }
        Call::Done(ticket) => core.done(moment, ticket),
        Call::Fail(ticket) => core.failed(moment, ticket),
        Call::Abort(ticket) => core.abort(moment, ticket),
        Call::Tick => core.tick(moment),
        Call::Check(server, ok) => core.check(moment, server, ok),
        Call::Limit(server, limit) => core.limit(moment, server, limit),
    };
    answer?;
    Ok(0)
}

/// Makes a dispatcher without a request.
pub fn made<Q: PendQueue<Key, usize>>(rt: &impl Abort, alloc: Global, setup: Setup) -> Core<Q> {
    holds(rt, setup.sound());
    Core::new(alloc, setup).expect(rt, "memory")
}
