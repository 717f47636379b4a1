//! Tests of a request that waits at a closed server: its story, and the server's lane.
use crate::assertions::{holds, same};
use crate::samples::{picture_of, told, trace_of};
use view_stories::{Telling, push_story};

const SCRIPT: &str = "redispatch
server a 1 0 1
server b 1 0 1
0 arrive 0 0 a
1 arrive 0 0 a
2 limit a closed
3 arrive 0 0 a
4 done 1
5 done 2
6 limit a 1
7 arrive 0 0 a
";

const STORY: &str = "Ticket 2 of class 0 comes at 1 ms and is due at 1 ms, bound to a
1 ms: it waits in a
2 ms: a is closed, so it moves to *
2 ms: it waits in *
2 ms: it gets a slot of b, 1 ms late
5 ms: its slot of b is free again
It stands in the critical set of * class 0: 2 requests had 2 slots up to 5 ms, so one of them is 2 ms late at least
";

#[test]
fn a_request_moves_since_its_server_is_closed(rt: HostRuntime) {
    let trace = told(
        &rt,
        rt.alloc(),
        trace_of(&rt, rt.alloc(), SCRIPT).as_slice(),
    );
    let telling = Telling {
        names: &trace.names,
        entries: trace.entries.as_slice(),
        reports: trace.reports.as_slice(),
    };
    let mut text = String::new(rt.alloc());
    same(
        &rt,
        push_story(rt.alloc(), &mut text, &telling, 2),
        Ok(true),
    );
    same(&rt, text.as_str(), STORY);
}

#[test]
fn a_closed_server_is_hatched(rt: HostRuntime) {
    let trace = told(
        &rt,
        rt.alloc(),
        trace_of(&rt, rt.alloc(), SCRIPT).as_slice(),
    );
    let picture = picture_of(&rt, rt.alloc(), &trace);
    // From 2 to 6 of 8 milliseconds, each 150 pixels wide.
    holds(
        &rt,
        picture
            .as_str()
            .contains("<rect class=\"j\" x=\"450\" y=\""),
    );
    holds(&rt, picture.as_str().contains("\" width=\"600\" height=\""));
}
