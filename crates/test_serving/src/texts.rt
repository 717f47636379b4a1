//! Tests of the texts of `run`'s faults.

use proxy_config::{ConfigFault, FaultCause};
use run_service::{RunFault, ServeFault};
use std::alloc::Global;
use std::fmt::Display;
use std::net::{Ipv4Addr, SocketAddrV4};
use std::process::Abort;

static OF_SERVING: [(ServeFault, &str); 4] = [
    (ServeFault::NoMemory, "no memory"),
    (ServeFault::Read, "read fault"),
    (ServeFault::Write, "write fault"),
    (ServeFault::SeatsLost, "a seat was lost"),
];

static OF_RUNS: [(RunFault, &str); 3] = [
    (
        RunFault::Config(ConfigFault {
            line: 28,
            cause: FaultCause::Keyword,
        }),
        "config line 28: keyword",
    ),
    (
        RunFault::Config(ConfigFault {
            line: 0,
            cause: FaultCause::Missing,
        }),
        "config line 0: missing",
    ),
    (RunFault::Serve(ServeFault::Read), "read fault"),
];

// Checks the text of each.
fn say<T: Display>(rt: &impl Abort, alloc: Global, rows: &[(T, &str)]) {
    for (it, text) in rows {
        let said = it.to_string(alloc).expect(rt, "memory");
        assert_eq!(rt; said.as_str(), *text);
    }
}

#[test]
fn each_fault_says_what_it_is(rt: HostRuntime) {
    say(&rt, rt.alloc(), &OF_SERVING);
    say(&rt, rt.alloc(), &OF_RUNS);
    let unheard = ServeFault::Listen {
        address: SocketAddrV4::new(Ipv4Addr::LOCALHOST, 80),
        code: Some(13),
    };
    say(&rt, rt.alloc(), &[(unheard, "read fault")]);
}
