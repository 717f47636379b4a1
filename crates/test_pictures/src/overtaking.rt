//! Tests of a request that a later one overtakes: its trace, its picture and its story.
use crate::assertions::{holds, same};
use crate::samples::{picture_of, told, written_again};
use view_stories::{Telling, push_story};

/// The lines of its entries.
pub const ENTRIES: &str = "0 arrive 1 0 0
  direct 1 s1
1 arrive 2 0 1
  join 2 *
2 arrive 3 0 -3
  join 3 *
10 done 1
  free 1 s1
  end 1
  grant 3 * s1
20 done 3
  free 3 s1
  end 3
  grant 2 * s1
";

// The same with the line of the report after them.
const REPORTED: &str = "0 arrive 1 0 0
  direct 1 s1
1 arrive 2 0 1
  join 2 *
2 arrive 3 0 -3
  join 3 *
10 done 1
  free 1 s1
  end 1
  grant 3 * s1
20 done 3
  free 3 s1
  end 3
  grant 2 * s1
queue * class 0 granted 2 worst 19 due 1 after 0 to 14 critical 3 2
";

const STORY: &str = "Ticket 2 of class 0 comes at 1 ms and is due at 1 ms
1 ms: it waits in *
  10 ms: ticket 3 goes first, from * to s1: due earlier, at -3 ms
20 ms: it gets a slot of s1, 19 ms late
It is served by s1 at the end
It stands in the critical set of * class 0: 2 requests had 2 slots up to 20 ms, so one of them is 19 ms late at least
";

#[test]
fn entries_are_read_as_they_are_written(rt: HostRuntime) {
    let trace = told(&rt, rt.alloc(), ENTRIES.as_bytes());
    let again = written_again(&rt, rt.alloc(), &trace);
    same(&rt, again.as_str(), ENTRIES);
}

#[test]
fn a_picture_is_made(rt: HostRuntime) {
    let trace = told(&rt, rt.alloc(), REPORTED.as_bytes());
    let picture = picture_of(&rt, rt.alloc(), &trace);
    holds(&rt, picture.as_str().starts_with("<svg "));
}

#[test]
fn the_overtaken_request_has_its_story(rt: HostRuntime) {
    let trace = told(&rt, rt.alloc(), REPORTED.as_bytes());
    let telling = Telling {
        names: &trace.names,
        entries: trace.entries.as_slice(),
        reports: trace.reports.as_slice(),
    };
    let mut text = String::new(rt.alloc());
    same(
        &rt,
        push_story(rt.alloc(), &mut text, &telling, 2),
        Ok(true),
    );
    same(&rt, text.as_str(), STORY);
    same(
        &rt,
        push_story(rt.alloc(), &mut text, &telling, 4),
        Ok(false),
    );
}
