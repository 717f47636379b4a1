//! Tests of the story of a request that many later ones overtake.

use crate::assertions::same;
use std::alloc::Global;
use std::process::Abort;
use std::str;
use view_files::write_story;

// Returns the story of a request that waits while this number of later ones are served.
fn overtaken(rt: &impl Abort, alloc: Global, times: u64) -> Vec<u8> {
    let mut script = String::from_str(alloc, "0 arrive 0 0\n0 arrive 0 100\n").expect(rt, "memory");
    let mut served = 1;
    for number in 0..times {
        writeln!(script, "1 arrive 0 0\n1 done {served}").expect(rt, "memory");
        served = number.saturating_add(3);
    }
    let mut rest = script.as_bytes();
    let mut story = Vec::new(alloc);
    write_story(alloc, &mut rest, &mut story, 2).expect(rt, "a story");
    story
}

#[test]
fn all_who_overtake_are_told_or_counted(rt: HostRuntime) {
    for (times, told, counted) in [
        (7, 7, None),
        (8, 8, None),
        (9, 8, Some("  and 1 more go first")),
        (11, 8, Some("  and 3 more go first")),
    ] {
        let story = overtaken(&rt, rt.alloc(), times);
        let text = str::from_utf8(story.as_slice()).unwrap_or_default();
        let named = text
            .lines()
            .filter(|line| line.contains(" goes first, "))
            .count();
        let others = text.lines().find(|line| line.contains(" more go first"));
        same(&rt, (named, others), (told, counted));
    }
}
