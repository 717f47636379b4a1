use super::setups::{Plan, setup_of};
use crate::assertions::{holds, same};
use binom_queue::BinomQueue;
use dispatch_core::{Core, Event, Refusal};
use due_key::{Class, Key, Moment, Offset};
use log_entries::Intake;
use pend_queue::{ListQueue, PendQueue};
use std::alloc::Global;
use std::process::Abort;

pub type OfLists = Core<ListQueue<Key, usize>>;

pub type OfTrees = Core<BinomQueue<Key, usize>>;

/// What is asked of a dispatcher.
#[derive(Clone, Copy)]
pub enum Call {
    Arrive(Class, Offset, Option<usize>),
    Done(u64),
    Fail(u64),
    Abort(u64),
    Tick,
    Check(usize, bool),
    Limit(usize, Intake),
}

/// An arrival without a pin.
pub fn arrive(class: i64, offset: i64) -> Call {
    Call::Arrive(Class::clamp(class), Offset::clamp(offset), None)
}

/// An arrival of class 0 that is bound to a server.
pub fn pinned(offset: i64, server: usize) -> Call {
    Call::Arrive(Class::clamp(0), Offset::clamp(offset), Some(server))
}

/// A moment; 0 for a number that is none.
pub fn moment(number: u64) -> Moment {
    Moment::new(number).unwrap_or(Moment::zero())
}

/// Asks a call of a dispatcher, and tells the place of an arrival.
fn ask_one<Q: PendQueue<Key, usize>>(
    alloc: Global,
    core: &mut Core<Q>,
    moment: Moment,
    call: Call,
) -> Result<usize, Refusal> {
    let answer = match call {
        Call::Arrive(class, offset, pin) => {
            let arrival = core.arrive(alloc, moment, class, offset, pin);
            return arrival.map(|it| it.place);
        }
        Call::Done(ticket) => core.done(moment, ticket),
        Call::Fail(ticket) => core.failed(moment, ticket),
        Call::Abort(ticket) => core.abort(moment, ticket),
        Call::Tick => core.tick(moment),
        Call::Check(server, ok) => core.check(moment, server, ok),
        Call::Limit(server, limit) => core.limit(moment, server, limit),
    };
    answer.map(|()| 0)
}

/// The event that a call is; none of an arrival.
fn event_of(moment: Moment, call: &Call) -> Option<Event> {
    match call {
        Call::Arrive(_, _, _) => None,
        Call::Done(ticket) => Some(Event::Done {
            moment,
            ticket: *ticket,
        }),
        Call::Fail(ticket) => Some(Event::Fail {
            moment,
            ticket: *ticket,
        }),
        Call::Abort(ticket) => Some(Event::Abort {
            moment,
            ticket: *ticket,
        }),
        Call::Tick => Some(Event::Tick { moment }),
        Call::Check(server, answered) => Some(Event::Check {
            moment,
            server: *server,
            answered: *answered,
        }),
        Call::Limit(server, limit) => Some(Event::Limit {
            moment,
            server: *server,
            limit: *limit,
        }),
    }
}

/// The same as `ask_one`, by the event that the call is.
fn apply_one<Q: PendQueue<Key, usize>>(
    alloc: Global,
    core: &mut Core<Q>,
    moment: Moment,
    call: &Call,
) -> Result<usize, Refusal> {
    match event_of(moment, call) {
        None => ask_one(alloc, core, moment, *call),
        Some(event) => core.apply(event).map(|()| 0),
    }
}

/// Asks a call of two dispatchers, of the second one by its event: their answers and logs are the same. Tells why it was refused.
pub fn ask(
    rt: &impl Abort,
    alloc: Global,
    lists: &mut OfLists,
    trees: &mut OfTrees,
    at: u64,
    call: &Call,
) -> Option<Refusal> {
    let answer = ask_one(alloc, lists, moment(at), *call);
    let other = apply_one(alloc, trees, moment(at), call);
    same(rt, other, answer);
    same(rt, trees.log().entries(), lists.log().entries());
    answer.err()
}

/// A dispatcher of a plan, without a request.
pub fn made<Q: PendQueue<Key, usize>>(rt: &impl Abort, alloc: Global, plan: Plan) -> Core<Q> {
    let setup = setup_of(rt, alloc, plan);
    holds(rt, setup.sound());
    Core::new(alloc, setup).expect(rt, "memory")
}
