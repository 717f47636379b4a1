use crate::assertions::{holds, same};
use dispatch_core::{Core, ServerSet, Servers, Setup};
use due_key::{Class, Key, Moment, Offset};
use pend_queue::ListQueue;
use replay::reports_of;
use std::alloc::Global;
use std::process::Abort;

type OfLists = Core<ListQueue<Key, usize>>;

// One server that takes one request at a time.
fn alone(rt: &impl Abort, alloc: Global) -> OfLists {
    let server = ServerSet {
        limit: 1,
        maxqueue: 0,
        weight: 1,
        rise_fall: None,
    };
    let setup = Setup {
        servers: Servers::from_vec(vec![in alloc; server].expect(rt, "memory")),
        places: 4,
        log: 64,
        retries: 3,
        redispatch: false,
        queue_timeout: 0,
    };
    holds(rt, setup.sound());
    Core::new(alloc, setup).expect(rt, "memory")
}

fn arrive(rt: &impl Abort, alloc: Global, core: &mut OfLists, offset: i64) {
    let (class, offset) = (Class::clamp(2), Offset::clamp(offset));
    let arrived = core.arrive(alloc, Moment::zero(), class, offset, None);
    let _ = arrived.expect(rt, "an arrival");
}

// Checks that the reports are of these classes, with these numbers of grants and worst latenesses.
fn are_reported(rt: &impl Abort, alloc: Global, core: &OfLists, expected: &[(i64, usize, i64)]) {
    let reports = reports_of(alloc, core).expect(rt, "memory");
    same(rt, reports.as_slice().len(), expected.len());
    for (report, line) in reports.as_slice().iter().zip(expected) {
        let told = (report.class.get(), report.granted, report.worst);
        same(rt, told, *line);
    }
}

// The second of two requests is reported once the first is over.
fn the_second_is_reported(rt: &impl Abort, alloc: Global, core: &mut OfLists) {
    arrive(rt, alloc, core, 0);
    arrive(rt, alloc, core, 5);
    are_reported(rt, alloc, core, &[]);
    let at = Moment::new(9).expect(rt, "a moment");
    same(rt, core.done(at, 1), Ok(()));
    are_reported(rt, alloc, core, &[(2, 1, 4)]);
}

#[test]
fn a_dispatcher_is_reported_on_as_it_goes(rt: HostRuntime) {
    let mut core = alone(&rt, rt.alloc());
    the_second_is_reported(&rt, rt.alloc(), &mut core);
}
