ghost use Rattle.std.specs.Prelude.{◌≡◌, ◌<◌, length, None};
ghost use Rattle.log_entries.specs.declared.entry.Entry.{Entry};
ghost use Rattle.log_entries.specs.Histories.{state_of};
ghost use Rattle.log_entries.specs.Legal.{IsLegal};
ghost use Rattle.log_entries.specs.Judgement.{granting};
ghost use Rattle.log_entries.specs.Rows.{pin_of};
ghost use Rattle.dispatch_state.specs.Histories.{with_entry, stage_of, IsTicketAt, MayPut};

use crate::assertions::{holds, same};
use dispatch_state::{DispatchState, Ticketed};
use due_key::{Class, Key, Moment, Offset};
use log_entries::{Queue, Refusal, ServerSet, Servers, Setup};
use pend_queue::ListQueue;
use server_pick::Placement;
use std::alloc::Global;
use std::process::Abort;

type OfLists = DispatchState<ListQueue<Key, usize>>;

// Makes a trace of one server that takes one request at a time, with four places and room for this
// number of entries.
fn made(rt: &impl Abort, alloc: Global, log: usize) -> OfLists
    ensures { IsLegal result }
{
    let server = ServerSet {
        limit: 1,
        maxqueue: 0,
        weight: 1,
        rise_fall: None,
    };
    let setup = Setup {
        servers: Servers::from_vec(vec![in alloc; server].expect(rt, "memory")),
        places: 4,
        log,
        retries: 2,
        redispatch: true,
        queue_timeout: 0,
    };
    holds(rt, setup.sound());
    DispatchState::new(alloc, setup).expect(rt, "memory")
}

// Puts the new request on the server or into the backend's queue.
fn put(rt: &impl Abort, trace: &mut OfLists, it: Ticketed)
    requires at { IsTicketAt (state_of trace.old).rows it }
    requires may_put { MayPut trace.old None None it.ticket }
    requires pin { pin_of it.ticket (state_of trace.old).rows ≡ None }
    requires room { length trace.old.log < trace.old.setup.log }
    ensures { (entry : Entry) × (trace.new ≡ with_entry trace.old entry) × (stage_of trace.new ≡ granting) }
{
    let (placement, cursor) = trace.placement(None, None);
    match placement {
        Placement::Slot(server) => trace.direct(it, server, cursor),
        Placement::BackendQueue => trace.join(it, Queue::Backend, cursor),
        Placement::OwnQueue(_) | Placement::Nowhere => panic!(rt; "put elsewhere"),
    }
}

// A request of class 0 without a pin arrives, and is put on the server or into the backend's queue.
fn arrive(rt: &impl Abort, alloc: Global, trace: &mut OfLists) -> Ticketed
    requires { IsLegal trace.old }
    ensures { IsLegal trace.new }
{
    holds(rt, trace.refuses_arrival(None).is_none());
    let answer = trace.arrive(
        alloc,
        Moment::zero(),
        Class::clamp(0),
        Offset::clamp(0),
        None,
    );
    let it = answer.expect(rt, "memory");
    put(rt, trace, it);
    // No request that waits could be granted a slot.
    holds(rt, !trace.grant());
    it
}

#[test]
fn an_arrival_takes_a_free_slot_and_the_next_one_waits(rt: HostRuntime) {
    let mut trace = made(&rt, rt.alloc(), 32);
    arrive_twice(&rt, rt.alloc(), &mut trace);
    drop(trace);
}

fn arrive_twice(rt: &impl Abort, alloc: Global, trace: &mut OfLists)
    requires { IsLegal trace.old }
{
    let first = arrive(rt, alloc, trace);
    same(rt, (first.ticket, trace.served(0)), (1, 1));
    arrive(rt, alloc, trace);
    same(
        rt,
        (trace.queued(Queue::Backend), trace.log().len()),
        (1, 4),
    );
}

// A call that is refused.
enum Call {
    Arrive(Option<usize>),
    Done(u64),
    Fail(u64),
    Abort(u64),
    Check(usize),
    Limit(usize),
}

// A log of 16 entries has room for one arrival: the answer of a call before it, and after it.
struct Refused {
    name: &'static str,
    call: Call,
    before: Option<Refusal>,
    behind: Option<Refusal>,
}

static REFUSED: [Refused; 7] = [
    Refused {
        name: "an arrival",
        call: Call::Arrive(None),
        before: None,
        behind: Some(Refusal::LogFull),
    },
    Refused {
        name: "an arrival with a pin to no server",
        call: Call::Arrive(Some(1)),
        before: Some(Refusal::NoSuchServer),
        behind: Some(Refusal::LogFull),
    },
    Refused {
        name: "an end",
        call: Call::Done(1),
        before: Some(Refusal::NoSuchTicket),
        behind: Some(Refusal::LogFull),
    },
    Refused {
        name: "a failure",
        call: Call::Fail(1),
        before: Some(Refusal::NoSuchTicket),
        behind: Some(Refusal::LogFull),
    },
    Refused {
        name: "an abort",
        call: Call::Abort(1),
        before: Some(Refusal::NoSuchTicket),
        behind: Some(Refusal::LogFull),
    },
    Refused {
        name: "a check of a server that isn't checked",
        call: Call::Check(0),
        before: Some(Refusal::WrongPhase),
        behind: Some(Refusal::LogFull),
    },
    Refused {
        name: "a limit of no server",
        call: Call::Limit(1),
        before: Some(Refusal::NoSuchServer),
        behind: Some(Refusal::LogFull),
    },
];

fn refusal(trace: &OfLists, call: &Call) -> Option<Refusal> {
    match *call {
        Call::Arrive(pin) => trace.refuses_arrival(pin),
        Call::Done(ticket) => trace.accept_done(ticket).err(),
        Call::Fail(ticket) => trace.accept_failure(ticket).err(),
        Call::Abort(ticket) => trace.accept_abort(ticket).err(),
        Call::Check(server) => trace.refuses_check(server),
        Call::Limit(server) => trace.refuses_limit(server),
    }
}

fn are_refused(rt: &impl Abort, trace: &OfLists, roomy: bool) {
    for row in &REFUSED {
        let answer = if roomy { row.before } else { row.behind };
        same(
            rt,
            (row.name, refusal(trace, &row.call)),
            (row.name, answer),
        );
    }
}

#[test]
fn a_full_log_refuses_all_calls(rt: HostRuntime) {
    let mut trace = made(&rt, rt.alloc(), 16);
    fill(&rt, rt.alloc(), &mut trace);
    drop(trace);
}

fn fill(rt: &impl Abort, alloc: Global, trace: &mut OfLists)
    requires { IsLegal trace.old }
{
    are_refused(rt, trace, true);
    arrive(rt, alloc, trace);
    holds(rt, !trace.has_room());
    are_refused(rt, trace, false);
}
