use dispatch_core::{ServerSet, Servers, Setup};
use std::alloc::{AllocError, Global};
use std::process::Abort;

/// The servers of a test and their rules.
#[derive(Clone, Copy)]
pub enum Plan {
    /// One server that takes one request at a time.
    Alone,
    /// The same with two places, and a log that is full after two arrivals and an end.
    Cramped,
    /// One server that takes one request at a time; requests wait 10 milliseconds at most.
    Patient,
    /// One server that takes two requests at a time.
    Wide,
    /// Two servers that take two requests at a time.
    TwoWide,
    /// One server that balancing never picks.
    Weightless,
    /// Two servers that take one request at a time and go down or up at one result, with `option
    /// redispatch` and one retry.
    Checked,
}

// A server without checks.
pub(super) fn server(limit: u32, weight: u32) -> ServerSet {
    ServerSet {
        limit,
        maxqueue: 0,
        weight,
        rise_fall: None,
    }
}

// Makes a setup of these servers, with 8 places and room for 64 entries.
pub(super) fn of_servers(alloc: Global, list: &[ServerSet]) -> Result<Setup, AllocError> {
    let mut servers = Vec::new(alloc);
    servers.extend_from_slice(list)?;
    Ok(Setup {
        servers: Servers::from_vec(servers),
        places: 8,
        log: 64,
        retries: 3,
        redispatch: false,
        queue_timeout: 0,
    })
}

// The same, where there is memory.
fn plain(rt: &impl Abort, alloc: Global, list: &[ServerSet]) -> Setup {
    of_servers(alloc, list).expect(rt, "memory")
}

/// The setup of a plan.
pub fn setup_of(rt: &impl Abort, alloc: Global, plan: Plan) -> Setup {
    match plan {
        Plan::Alone => plain(rt, alloc, &[server(1, 1)]),
        Plan::Cramped => cramped(rt, alloc),
        Plan::Patient => patient(rt, alloc),
        Plan::Wide => plain(rt, alloc, &[server(2, 1)]),
        Plan::TwoWide => plain(rt, alloc, &[server(2, 1), server(2, 1)]),
        Plan::Weightless => plain(rt, alloc, &[server(1, 0)]),
        Plan::Checked => checked(rt, alloc),
    }
}

fn cramped(rt: &impl Abort, alloc: Global) -> Setup {
    let mut setup = plain(rt, alloc, &[server(1, 1)]);
    (setup.places, setup.log) = (2, 16);
    setup
}

fn patient(rt: &impl Abort, alloc: Global) -> Setup {
    let mut setup = plain(rt, alloc, &[server(1, 1)]);
    setup.queue_timeout = 10;
    setup
}

fn checked(rt: &impl Abort, alloc: Global) -> Setup {
    let mut one = server(1, 1);
    one.rise_fall = Some((1, 1));
    let mut setup = plain(rt, alloc, &[one, one]);
    setup.retries = 1;
    setup.redispatch = true;
    setup
}
