//! Tests of a script with two windows, in each of which a slot is given: its lanes, and the window
//! that a report is on.

use crate::assertions::{holds, same};
use std::alloc::Global;
use std::process::Abort;
use std::str;
use view_files::{draw, write_story};

// The last server is named first, and nothing goes to the middle one.
const SCRIPT: &str = "server a 1 0 1
server b 1 0 1
server c 1 0 1
0 arrive 0 0 c
1 arrive 0 0 c
4 done 1
roll
6 arrive 0 0 a
7 arrive 0 0 a
20 done 3
";

const LANES: [&str; 5] = [
    "queue of a",
    "server a",
    "server b",
    "queue of c",
    "server c",
];

// Returns the names of a picture's lanes, from the top.
fn lanes_in<'a>(rt: &impl Abort, alloc: Global, picture: &'a [u8]) -> Vec<&'a str> {
    let text = str::from_utf8(picture).unwrap_or_default();
    let mut lanes = Vec::new(alloc);
    for line in text.lines() {
        let lane = line
            .strip_prefix("<text class=\"r\" ")
            .and_then(|rest| rest.split_once('>'))
            .and_then(|(_, name)| name.strip_suffix("</text>"));
        if let Some(lane) = lane {
            lanes.push(lane).expect(rt, "memory");
        }
    }
    lanes
}

#[test]
fn each_server_of_a_script_has_its_lane_in_their_order(rt: HostRuntime) {
    let mut rest = SCRIPT.as_bytes();
    let mut picture = Vec::new(rt.alloc());
    draw(rt.alloc(), &mut rest, &mut picture, &None).expect(&rt, "a picture");
    let lanes = lanes_in(&rt, rt.alloc(), picture.as_slice());
    same(&rt, lanes.as_slice(), LANES.as_slice());
}

#[test]
fn a_report_behind_a_roll_is_on_the_window_that_ends_there(rt: HostRuntime) {
    let mut rest = SCRIPT.as_bytes();
    let mut story = Vec::new(rt.alloc());
    write_story(rt.alloc(), &mut rest, &mut story, 2).expect(&rt, "a story");
    let text = str::from_utf8(story.as_slice()).unwrap_or_default();
    holds(
        &rt,
        text.ends_with(" slots up to 4 ms, so one of them is 3 ms late at least\n"),
    );
}
