use super::chance::Chance;
use crate::assertions::{holds, same};
use crate::samples::{told, trace_of};
use std::alloc::Global;
use std::process::Abort;
use view_stories::{MOST_LINES, Telling, push_story};

#[test]
fn each_arrival_has_a_short_story(rt: HostRuntime) {
    let mut chance = Chance { state: 13 };
    for _ in 0..50 {
        let script = chance.script(rt.alloc(), 40).expect(&rt, "memory");
        have_short_stories(&rt, rt.alloc(), script.as_str());
    }
}

// The first tickets of a script.
fn have_short_stories(rt: &impl Abort, alloc: Global, script: &str) {
    let trace = trace_of(rt, alloc, script);
    let trace = told(rt, alloc, trace.as_slice());
    let telling = Telling {
        names: &trace.names,
        entries: trace.entries.as_slice(),
        reports: trace.reports.as_slice(),
    };
    for ticket in 1..=4 {
        let mut story = String::new(alloc);
        let is_told = push_story(alloc, &mut story, &telling, ticket);
        same(rt, is_told, Ok(!story.is_empty()));
        holds(rt, story.as_str().lines().count() <= MOST_LINES);
    }
}
