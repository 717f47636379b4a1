use crate::assertions::{holds, same};
use crate::fakes::{Feed, Log};
use crate::repeats::{Repeated, bytes_of};
use base_streams::Counted;
use http_bodies::{Fault, Framing, INBOX_BYTES, Pipe, SIZE_LINE_BYTES, TRAILER_BYTES};
use std::alloc::Global;
use std::process::Abort;

const TURNS: u64 = 1_000_000;

/// A pipe, and the sink of the body that it hands on.
#[derive(Drop)]
struct Passage {
    pipe: Pipe,
    output: Log,
}

impl Passage {
    fn new(rt: &impl Abort, alloc: Global, turns: u64) -> Passage {
        Passage {
            pipe: Pipe::new(alloc, turns).expect(rt, "memory"),
            output: Log::new(alloc),
        }
    }

    fn pass(&mut self, input: &mut Feed<'_>, framing: Framing, framed: bool) -> Result<(), Fault> {
        // This read tells the proof how many there can be.
        let _turns = self.pipe.turns();
        let mut source = Counted::new(input);
        let mut sink = Counted::new(&mut self.output);
        self.pipe
            .forward_body(&mut source, &mut sink, framing, framed)
    }

    fn flush(&mut self) -> Result<(), Fault> {
        let _turns = self.pipe.turns();
        self.pipe.flush(&mut Counted::new(&mut self.output))
    }

    fn hand_on(
        &mut self,
        input: &mut Feed<'_>,
        framing: Framing,
        framed: bool,
    ) -> Result<(), Fault> {
        self.pass(input, framing, framed)?;
        self.flush()
    }
}

/// A body, its framing and whether that is written, the output, and the rest after it or the fault.
struct Body {
    bytes: &'static [u8],
    framing: Framing,
    framed: bool,
    text: &'static [u8],
    left: Result<&'static [u8], Fault>,
}

const CHUNKED: &[u8] = b"3;x=1\r\nabc\r\n0\r\nT: 1\r\n\r\n";

const CHUNKED_TEXT: &[u8] = b"3\r\nabc\r\n0\r\n\r\n";

static HANDED_ON: [Body; 6] = [
    Body {
        bytes: b"abc",
        framing: Framing::Empty,
        framed: true,
        text: b"",
        left: Ok(b""),
    },
    Body {
        bytes: b"abcd",
        framing: Framing::Length(3),
        framed: true,
        text: b"abc",
        left: Ok(b"d"),
    },
    Body {
        bytes: b"",
        framing: Framing::Length(0),
        framed: true,
        text: b"",
        left: Ok(b""),
    },
    Body {
        bytes: b"abc",
        framing: Framing::ToEnd,
        framed: true,
        text: b"abc",
        left: Ok(b""),
    },
    Body {
        bytes: CHUNKED,
        framing: Framing::Chunked,
        framed: true,
        text: CHUNKED_TEXT,
        left: Ok(b""),
    },
    Body {
        bytes: b"00B \r\nhello world\r\n0\r\n\nmore",
        framing: Framing::Chunked,
        framed: false,
        text: b"hello world",
        left: Ok(b"more"),
    },
];

static BROKEN: [Body; 14] = [
    Body {
        bytes: b"ab",
        framing: Framing::Length(3),
        framed: true,
        text: b"ab",
        left: Err(Fault::Read),
    },
    Body {
        bytes: b"",
        framing: Framing::Chunked,
        framed: true,
        text: b"",
        left: Err(Fault::Read),
    },
    Body {
        bytes: b"3\r\nab",
        framing: Framing::Chunked,
        framed: true,
        text: b"3\r\nab",
        left: Err(Fault::Read),
    },
    Body {
        bytes: b"3\r\nabc\n0\r\n\r\n",
        framing: Framing::Chunked,
        framed: true,
        text: b"",
        left: Err(Fault::Framing),
    },
    Body {
        bytes: b"3\r\nabcd\r\n0\r\n\r\n",
        framing: Framing::Chunked,
        framed: true,
        text: b"",
        left: Err(Fault::Framing),
    },
    Body {
        bytes: b"0x3\r\nabc\r\n",
        framing: Framing::Chunked,
        framed: true,
        text: b"",
        left: Err(Fault::Framing),
    },
    Body {
        bytes: b" 3\r\nabc\r\n",
        framing: Framing::Chunked,
        framed: true,
        text: b"",
        left: Err(Fault::Framing),
    },
    Body {
        bytes: b"+3\r\nabc\r\n",
        framing: Framing::Chunked,
        framed: true,
        text: b"",
        left: Err(Fault::Framing),
    },
    Body {
        bytes: b"-1\r\nabc\r\n",
        framing: Framing::Chunked,
        framed: true,
        text: b"",
        left: Err(Fault::Framing),
    },
    Body {
        bytes: b"\r\nabc\r\n",
        framing: Framing::Chunked,
        framed: true,
        text: b"",
        left: Err(Fault::Framing),
    },
    Body {
        bytes: b"3\nabc\r\n",
        framing: Framing::Chunked,
        framed: true,
        text: b"",
        left: Err(Fault::Framing),
    },
    Body {
        bytes: b"10000000000000000\r\n",
        framing: Framing::Chunked,
        framed: true,
        text: b"",
        left: Err(Fault::Framing),
    },
    Body {
        bytes: b"0\r\n",
        framing: Framing::Chunked,
        framed: true,
        text: b"",
        left: Err(Fault::Read),
    },
    Body {
        bytes: b"0\r\nT: 1\r\n",
        framing: Framing::Chunked,
        framed: true,
        text: b"",
        left: Err(Fault::Read),
    },
];

fn becomes(rt: &impl Abort, alloc: Global, number: usize, body: &Body) {
    let mut passage = Passage::new(rt, alloc, TURNS);
    let mut input = Feed::of(body.bytes);
    let result = passage.hand_on(&mut input, body.framing, body.framed);
    match body.left {
        Ok(left) => {
            same(rt, (number, result), (number, Ok(())), "a row");
            same(rt, (number, passage.pipe.held()), (number, left), "a row");
        }
        Err(fault) => same(rt, (number, result), (number, Err(fault)), "a row"),
    }
    let written = passage.output.bytes.as_slice();
    same(rt, (number, written), (number, body.text), "a row");
}

#[test]
fn bodies_are_handed_on(rt: HostRuntime) {
    for (number, body) in HANDED_ON.iter().enumerate() {
        becomes(&rt, rt.alloc(), number, body);
    }
}

#[test]
fn broken_bodies_are_refused(rt: HostRuntime) {
    for (number, body) in BROKEN.iter().enumerate() {
        becomes(&rt, rt.alloc(), number, body);
    }
}

/// The way to stop a chunked body at a step.
enum Stop {
    /// The input ends after this number of bytes.
    Cut,
    /// The read of this number fails; each read is of one byte.
    Read,
    /// The write of this number fails; each write is of one byte.
    Write,
    /// There is only this number of turns, and a read takes one for each byte.
    Turns,
}

/// How a chunked body is stopped, and up to which step.
struct Steps {
    stop: Stop,
    fault: Fault,
    first: usize,
    whole: usize,
    last: usize,
}

static STEPS: [Steps; 4] = [
    Steps {
        stop: Stop::Cut,
        fault: Fault::Read,
        first: 0,
        whole: CHUNKED.len(),
        last: CHUNKED.len(),
    },
    Steps {
        stop: Stop::Read,
        fault: Fault::Read,
        first: 1,
        whole: CHUNKED.len() + 1,
        last: CHUNKED.len() + 1,
    },
    Steps {
        stop: Stop::Write,
        fault: Fault::Write,
        first: 1,
        whole: CHUNKED_TEXT.len() + 1,
        last: CHUNKED_TEXT.len() + 1,
    },
    Steps {
        stop: Stop::Turns,
        fault: Fault::Turns,
        first: 0,
        whole: CHUNKED.len(),
        last: CHUNKED.len() - 1,
    },
];

fn input_at(steps: &Steps, step: usize) -> Feed<'static> {
    let len = match steps.stop {
        Stop::Cut => step.min(CHUNKED.len()),
        _ => CHUNKED.len(),
    };
    let mut input = Feed::of(&CHUNKED[..len]);
    match steps.stop {
        Stop::Read => {
            input.most = 1;
            input.fails_at = step;
        }
        Stop::Turns => input.most = 1,
        _ => {}
    }
    input
}

fn passage_at(rt: &impl Abort, alloc: Global, steps: &Steps, step: usize) -> Passage {
    let turns = match steps.stop {
        Stop::Turns => step as u64,
        _ => TURNS,
    };
    let mut passage = Passage::new(rt, alloc, turns);
    if let Stop::Write = steps.stop {
        passage.output.most = 1;
        passage.output.fails_at = step;
    }
    passage
}

fn is_handed_on_to(rt: &impl Abort, alloc: Global, steps: &Steps, step: usize) {
    let mut passage = passage_at(rt, alloc, steps, step);
    let mut input = input_at(steps, step);
    let result = passage.hand_on(&mut input, Framing::Chunked, true);
    let written = passage.output.bytes.as_slice();
    holds(rt, CHUNKED_TEXT.starts_with(written), "a part of it");
    if steps.whole <= step {
        same(rt, (step, result), (step, Ok(())), "all steps");
        same(rt, written, CHUNKED_TEXT, "all steps");
    } else {
        same(rt, (step, result), (step, Err(steps.fault)), "a step");
        if matches!(steps.stop, Stop::Write) {
            same(rt, written.len().saturating_add(1), step, "a write");
        }
    }
}

fn is_handed_on_step_by_step(rt: &impl Abort, alloc: Global, steps: &Steps) {
    for step in steps.first..=steps.last {
        is_handed_on_to(rt, alloc, steps, step);
    }
}

#[test]
fn a_body_is_stopped_at_each_of_its_steps(rt: HostRuntime) {
    for steps in &STEPS {
        is_handed_on_step_by_step(&rt, rt.alloc(), steps);
    }
}

/// A body of many bytes, and how it ends.
struct Long {
    what: &'static str,
    bytes: Repeated,
    framing: Framing,
    result: Result<(), Fault>,
}

static LONG: [Long; 5] = [
    Long {
        what: "the longest size line",
        bytes: Repeated {
            start: b"1;",
            unit: b"x",
            count: SIZE_LINE_BYTES - 4,
            end: b"\r\na\r\n0\r\n\r\n",
        },
        framing: Framing::Chunked,
        result: Ok(()),
    },
    Long {
        what: "a size line too long",
        bytes: Repeated {
            start: b"1;",
            unit: b"x",
            count: SIZE_LINE_BYTES + 1 - 4,
            end: b"\r\na\r\n0\r\n\r\n",
        },
        framing: Framing::Chunked,
        result: Err(Fault::Framing),
    },
    Long {
        what: "the longest trailers",
        bytes: Repeated {
            start: b"0\r\n",
            unit: b"x",
            count: TRAILER_BYTES - 3,
            end: b"\n\r\n",
        },
        framing: Framing::Chunked,
        result: Ok(()),
    },
    Long {
        what: "trailers too long",
        bytes: Repeated {
            start: b"0\r\n",
            unit: b"x",
            count: TRAILER_BYTES + 1 - 3,
            end: b"\n\r\n",
        },
        framing: Framing::Chunked,
        result: Err(Fault::Framing),
    },
    Long {
        what: "a body to the end",
        bytes: Repeated {
            start: b"",
            unit: b"x",
            count: 3 * INBOX_BYTES,
            end: b"",
        },
        framing: Framing::ToEnd,
        result: Ok(()),
    },
];

fn is_long(rt: &impl Abort, alloc: Global, long: &Long) {
    let bytes = bytes_of(rt, alloc, &long.bytes);
    let mut passage = Passage::new(rt, alloc, TURNS);
    let mut input = Feed::of(bytes.as_slice());
    let result = passage.hand_on(&mut input, long.framing, true);
    same(rt, result, long.result, long.what);
    if let Framing::ToEnd = long.framing {
        let written = passage.output.bytes.as_slice();
        same(rt, written, bytes.as_slice(), long.what);
    }
}

#[test]
fn long_bodies(rt: HostRuntime) {
    for long in &LONG {
        is_long(&rt, rt.alloc(), long);
    }
}

#[test]
fn a_pipe_is_used_again(rt: HostRuntime) {
    let mut passage = Passage::new(&rt, rt.alloc(), 5);
    passage.pipe.hold(b"abcdef");
    same(&rt, passage.pipe.held(), b"abcdef".as_slice(), "held");
    let result = passage.pass(&mut Feed::of(b""), Framing::Length(3), true);
    same(&rt, result, Ok(()), "a body that is held");
    same(
        &rt,
        passage.pipe.held(),
        b"def".as_slice(),
        "held behind it",
    );
    same(&rt, passage.output.writes, 0, "before it is flushed");
    passage.pipe.forget_waiting();
    passage.pipe.renew(7);
    same(&rt, passage.pipe.held(), b"".as_slice(), "held anew");
    let result = passage.flush();
    same(&rt, result, Ok(()), "nothing to write");
    same(
        &rt,
        passage.output.bytes.as_slice(),
        b"".as_slice(),
        "nothing",
    );
}

#[test]
fn a_read_leaves_what_waits(rt: HostRuntime) {
    let mut pipe = Pipe::new(rt.alloc(), 2).expect(&rt, "memory");
    let mut output = Log::new(rt.alloc());
    pipe.renew(2);
    let emitted = pipe.emit(&mut Counted::new(&mut output), b"x");
    same(&rt, emitted, Ok(()), "a byte that waits");
    let filled = pipe.fill(&mut Counted::new(&mut Feed::of(b"ab")));
    same(&rt, filled, Ok(2), "a read");
    same(&rt, pipe.held(), b"ab".as_slice(), "what was read");
    same(&rt, pipe.turns(), 1, "the turns left");
    same(&rt, output.bytes.as_slice(), b"".as_slice(), "written");
}
