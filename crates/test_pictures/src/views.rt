use crate::assertions::{holds, same};
use crate::samples::trace_of;
use config_command::DrawnQueue;
use due_key::Class;
use std::alloc::Global;
use std::io::{Read, Write};
use std::process::Abort;
use std::{io, str};
use view_files::{DrawFault, InputFault, StoryFault, draw, waits_in, write_story};
use view_traces::TraceCause;

const SCRIPT: &str = "0 arrive 0 0\n1 arrive 0 0\n2 arrive 0 -5\n10 done 1\n20 done 3\n";

const ROLLED: &str = "0 arrive 0 0\n1 arrive 0 0\nroll\n10 done 1\n20 done 2\n";

fn drawn(rt: &impl Abort, alloc: Global, input: &[u8]) -> Vec<u8> {
    let mut rest = input;
    let mut picture = Vec::new(alloc);
    draw(alloc, &mut rest, &mut picture, &None).expect(rt, "a picture");
    picture
}

#[test]
fn a_script_and_its_trace_have_one_picture(rt: HostRuntime) {
    for script in [SCRIPT, ROLLED] {
        let of_script = drawn(&rt, rt.alloc(), script.as_bytes());
        let trace = trace_of(&rt, rt.alloc(), script);
        let of_trace = drawn(&rt, rt.alloc(), trace.as_slice());
        same(&rt, of_script.as_slice(), of_trace.as_slice());
    }
}

// A reader that returns a text, and then its end or a failure.
#[derive(Drop)]
struct Source<'a> {
    rest: &'a [u8],
    fails: bool,
}

impl<'a> Read for Source<'a> {
    fn read(&mut self, buf: &mut [u8]) -> io::Result<usize> {
        if self.fails && self.rest.is_empty() {
            return Err(io::Error::from(io::ErrorKind::BrokenPipe));
        }
        self.rest.read(buf)
    }
}

// A writer that takes this number of bytes, and then none.
#[derive(Drop)]
struct Sink {
    taken: Vec<u8>,
    room: usize,
}

impl Write for Sink {
    fn write(&mut self, buf: &[u8]) -> io::Result<usize> {
        let count = self.room.min(buf.len());
        self.taken.extend_from_slice(&buf[..count])?;
        self.room -= count;
        Ok(count)
    }

    fn flush(&mut self) -> io::Result<()> {
        Ok(())
    }
}

const ROOM: usize = 65_536;

/// What is asked for of a text, whether reading it fails at the end, and the writer's room; and why
/// it isn't drawn.
struct Undrawn {
    name: &'static str,
    input: &'static str,
    fails: bool,
    room: usize,
    queue: Option<&'static str>,
    fault: DrawFault,
}

static UNDRAWN: [Undrawn; 10] = [
    Undrawn {
        name: "a faulty script",
        input: "0 arrive 0 0\n0 arrive 0\n",
        fails: false,
        room: ROOM,
        queue: None,
        fault: DrawFault::Input(InputFault::Script { line: 2 }),
    },
    Undrawn {
        name: "a faulty script with a roll",
        input: "0 arrive 0 0\nroll\nlog 5\n",
        fails: false,
        room: ROOM,
        queue: None,
        fault: DrawFault::Input(InputFault::Script { line: 3 }),
    },
    Undrawn {
        name: "a trace whose moments fall",
        input: "5 tick\n4 tick\n  end 1\n",
        fails: false,
        room: ROOM,
        queue: None,
        fault: DrawFault::Input(InputFault::Trace {
            line: 2,
            cause: TraceCause::Moment,
        }),
    },
    Undrawn {
        name: "a trace with a script's line",
        input: "refused 2\n0 arrive 0 0\n",
        fails: false,
        room: ROOM,
        queue: None,
        fault: DrawFault::Input(InputFault::Trace {
            line: 2,
            cause: TraceCause::Form,
        }),
    },
    Undrawn {
        name: "a trace without an event",
        input: "  end 1\n",
        fails: false,
        room: ROOM,
        queue: None,
        fault: DrawFault::Input(InputFault::Trace {
            line: 1,
            cause: TraceCause::Place,
        }),
    },
    Undrawn {
        name: "a queue that isn't there",
        input: SCRIPT,
        fails: false,
        room: ROOM,
        queue: Some("zz"),
        fault: DrawFault::NoQueue,
    },
    Undrawn {
        name: "a queue in which nobody waits",
        input: SCRIPT,
        fails: false,
        room: ROOM,
        queue: Some("s1"),
        fault: DrawFault::NoClass,
    },
    Undrawn {
        name: "a read that fails at once",
        input: "",
        fails: true,
        room: ROOM,
        queue: None,
        fault: DrawFault::Input(InputFault::Unread),
    },
    Undrawn {
        name: "a read that fails behind a script",
        input: SCRIPT,
        fails: true,
        room: ROOM,
        queue: None,
        fault: DrawFault::Input(InputFault::Unread),
    },
    Undrawn {
        name: "a write that takes nothing",
        input: SCRIPT,
        fails: false,
        room: 0,
        queue: None,
        fault: DrawFault::Input(InputFault::Unwritten),
    },
];

fn asked(rt: &impl Abort, alloc: Global, queue: Option<&str>) -> Option<DrawnQueue> {
    match queue {
        None => None,
        Some(name) => Some(DrawnQueue {
            queue: String::from_str(alloc, name).expect(rt, "memory"),
            class: Class::clamp(0),
        }),
    }
}

// Returns why it isn't drawn. Nothing is written.
fn fault_of(rt: &impl Abort, alloc: Global, row: &Undrawn) -> Option<DrawFault> {
    let mut source = Source {
        rest: row.input.as_bytes(),
        fails: row.fails,
    };
    let mut sink = Sink {
        taken: Vec::new(alloc),
        room: row.room,
    };
    let only = asked(rt, alloc, row.queue);
    let drawn = draw(alloc, &mut source, &mut sink, &only);
    holds(rt, sink.taken.is_empty());
    drawn.err()
}

#[test]
fn what_cannot_be_drawn_is_named(rt: HostRuntime) {
    for row in &UNDRAWN {
        let found = fault_of(&rt, rt.alloc(), row);
        same(&rt, (row.name, found), (row.name, Some(row.fault)));
    }
}

/// A ticket, whether reading the script fails at the end, and the writer's room; how the telling
/// ends, and how the output begins, which is all of it where the telling fails.
struct Tale {
    name: &'static str,
    ticket: u64,
    fails: bool,
    room: usize,
    end: Result<(), StoryFault>,
    beginning: &'static [u8],
}

static TALES: [Tale; 4] = [
    Tale {
        name: "a ticket that came",
        ticket: 2,
        fails: false,
        room: ROOM,
        end: Ok(()),
        beginning: b"Ticket 2 of class 0",
    },
    Tale {
        name: "a ticket that didn't come",
        ticket: 9,
        fails: false,
        room: ROOM,
        end: Err(StoryFault::NoTicket),
        beginning: b"",
    },
    Tale {
        name: "a write that takes nothing behind 8 bytes",
        ticket: 2,
        fails: false,
        room: 8,
        end: Err(StoryFault::Input(InputFault::Unwritten)),
        beginning: b"Ticket 2",
    },
    Tale {
        name: "a read that fails",
        ticket: 2,
        fails: true,
        room: ROOM,
        end: Err(StoryFault::Input(InputFault::Unread)),
        beginning: b"",
    },
];

fn plays(rt: &impl Abort, alloc: Global, row: &Tale) {
    let mut source = Source {
        rest: SCRIPT.as_bytes(),
        fails: row.fails,
    };
    let mut sink = Sink {
        taken: Vec::new(alloc),
        room: row.room,
    };
    let found = write_story(alloc, &mut source, &mut sink, row.ticket);
    same(rt, (row.name, found), (row.name, row.end));
    holds(rt, sink.taken.as_slice().starts_with(row.beginning));
    holds(
        rt,
        row.end.is_ok() || sink.taken.len() == row.beginning.len(),
    );
}

#[test]
fn a_story_is_of_a_ticket_that_came(rt: HostRuntime) {
    for row in &TALES {
        plays(&rt, rt.alloc(), row);
    }
}

/// A script, and the queues and classes in which requests wait.
static WAITS: [(&str, &str); 3] = [
    ("0 arrive 0 0\n", ""),
    (SCRIPT, "* 0"),
    (
        "server a 1 0 1\n0 arrive 0 0\n1 arrive 5 0\n2 arrive -3 0 a\n3 arrive 5 0\n",
        "* 5, a -3",
    ),
];

#[test]
fn the_queues_and_classes_are_named_in_which_requests_wait(rt: HostRuntime) {
    for (script, wanted) in &WAITS {
        let mut rest = script.as_bytes();
        let waits = waits_in(rt.alloc(), &mut rest).expect(&rt, "what waits");
        same(&rt, waits.as_str(), wanted);
    }
}

const EARLY: &str = "0 arrive 0 0\n1 arrive 0 100\n5 done 1\n";

fn told(rt: &impl Abort, alloc: Global, ticket: u64) -> Vec<u8> {
    let mut rest = EARLY.as_bytes();
    let mut story = Vec::new(alloc);
    write_story(alloc, &mut rest, &mut story, ticket).expect(rt, "a story");
    story
}

fn has(rt: &impl Abort, text: &[u8], part: &str) {
    let text = str::from_utf8(text).unwrap_or_default();
    holds(rt, text.contains(part));
}

#[test]
fn who_is_early_is_not_late_below_nothing(rt: HostRuntime) {
    let picture = drawn(&rt, rt.alloc(), EARLY.as_bytes());
    has(
        &rt,
        &picture,
        "class 0: worst 96 ms early: 2 needed one slot",
    );
    let story = told(&rt, rt.alloc(), 2);
    has(&rt, &story, "5 ms: it gets a slot of s1, 96 ms early\n");
    has(&rt, &story, "so one of them is 96 ms early at most\n");
}

#[test]
fn the_worst_slot_of_a_later_window_is_marked_at_its_moment(rt: HostRuntime) {
    let picture = drawn(&rt, rt.alloc(), ROLLED.as_bytes());
    // The slot is given at 10 of 21 ms, which are 1200 pixels from the 150th on: the arrow's point
    // is at 721, and its left end 5 before that.
    has(&rt, picture.as_slice(), "<path class=\"t\" d=\"M716 ");
}
