use super::chance::Chance;
use super::markup::{Seen, bars_in, is_well_formed};
use crate::assertions::{holds, same};
use crate::samples::{picture_of, told, trace_of, written_again};
use log_entries::Entry;
use log_stretches::{Lane, stretches_of};
use proxy_words::Lines;
use std::alloc::Global;
use std::process::Abort;

const SCRIPTS: usize = 200;

const EVENTS: usize = 40;

#[test]
fn a_picture_shows_the_stretches_and_no_other_bar(rt: HostRuntime) {
    let mut chance = Chance { state: 11 };
    let mut bars = 0usize;
    for _ in 0..SCRIPTS {
        let script = chance.script(rt.alloc(), EVENTS).expect(&rt, "memory");
        bars = bars.saturating_add(bars_of(&rt, rt.alloc(), script.as_str()));
    }
    holds(&rt, SCRIPTS * 10 < bars);
}

// Returns the number of bars of a script's picture, which must be the expected ones.
fn bars_of(rt: &impl Abort, alloc: Global, script: &str) -> usize {
    let trace = told(rt, alloc, trace_of(rt, alloc, script).as_slice());
    let picture = picture_of(rt, alloc, &trace);
    holds(rt, is_well_formed(rt, alloc, picture.as_str()));
    let bars = bars_in(rt, alloc, picture.as_str());
    are_the_stretches(rt, alloc, bars.as_slice(), trace.entries.as_slice());
    bars.len()
}

// The bars are the stretches of a log over its moments, which the test computes for itself.
fn are_the_stretches(rt: &impl Abort, alloc: Global, bars: &[Seen], entries: &[Entry]) {
    let stretches = stretches_of(alloc, entries).expect(rt, "memory");
    same(rt, bars.len(), stretches.len());
    let first = moment_at(entries, 1);
    let last = moment_at(entries, entries.len());
    let lasting = last.saturating_sub(first);
    let end = last.saturating_add((lasting / 40).max(1));
    for (bar, stretch) in bars.iter().zip(stretches.as_slice()) {
        let from = moment_at(entries, stretch.from);
        let to = match stretch.to {
            Some(position) => moment_at(entries, position),
            None => end,
        };
        same(
            rt,
            (bar.ticket, bar.waits, bar.from, bar.lasts),
            (
                stretch.ticket,
                matches!(stretch.lane, Lane::Queue(_)),
                from.saturating_sub(first),
                to.saturating_sub(from),
            ),
        );
    }
}

// Returns the moment of the last event up to a position.
fn moment_at(entries: &[Entry], position: usize) -> u64 {
    let mut moment = 0;
    for entry in entries.iter().take(position) {
        moment = match entry {
            Entry::Arrive(at, _)
            | Entry::Done(at, _)
            | Entry::Fail(at, _)
            | Entry::Abort(at, _)
            | Entry::Tick(at)
            | Entry::Check(at, _, _)
            | Entry::Limit(at, _, _) => at.get(),
            _ => moment,
        };
    }
    moment
}

#[test]
fn a_trace_is_read_as_it_is_written(rt: HostRuntime) {
    let mut chance = Chance { state: 12 };
    for _ in 0..SCRIPTS {
        let script = chance.script(rt.alloc(), EVENTS).expect(&rt, "memory");
        let trace = trace_of(&rt, rt.alloc(), script.as_str());
        let told = told(&rt, rt.alloc(), trace.as_slice());
        let again = written_again(&rt, rt.alloc(), &told);
        let lines = entry_lines(&rt, rt.alloc(), trace.as_slice());
        same(&rt, again.as_bytes(), lines.as_slice());
    }
}

// Returns the lines of a trace that are entries: no refusal, no roll and no report.
fn entry_lines(rt: &impl Abort, alloc: Global, trace: &[u8]) -> Vec<u8> {
    let mut lines = Vec::new(alloc);
    for line in Lines::new(trace) {
        if !matches!(line, [b'r' | b'q', ..]) {
            lines.extend_from_slice(line).expect(rt, "memory");
            lines.push(b'\n').expect(rt, "memory");
        }
    }
    lines
}
