//! Tests of the texts about faulty lines: the nearest known word, the mark below a line, the cause in a script.

use crate::assertions::holds;
use crate::texts::reads;
use base_advice::{
    Kept, Span, explain_script_line, explain_trace_line, nearest, push_marked_line, push_printable,
    span_of,
};
use std::alloc::Global;
use std::io;
use std::io::Read;
use std::process::Abort;

/// A word, and the known one that it may be a slip of.
type SlipRow = (&'static str, Option<&'static str>);

static SLIPS: [SlipRow; 6] = [
    ("serverr", Some("server")),
    ("sevrer", Some("server")),
    ("listne", Some("listen")),
    ("bin", Some("bind")),
    ("bi", None),
    ("frobnicate", None),
];

#[test]
fn the_nearest_known_word_is_found(rt: HostRuntime) {
    for (word, wanted) in &SLIPS {
        let found = nearest(rt.alloc(), word, &["listen", "server", "bind"]).expect(&rt, "memory");
        holds(&rt, found == *wanted, "slips", word);
    }
}

#[test]
fn a_word_of_a_line_is_marked(rt: HostRuntime) {
    let line = b" a\tbc\x07";
    let span = span_of(line, 1);
    holds(&rt, span == Some(Span { start: 3, end: 6 }), "span", "bc");
    let mut text = String::new(rt.alloc());
    push_marked_line(&mut text, 12, line, span).expect(&rt, "memory");
    push_marked_line(&mut text, 3, b"x", None).expect(&rt, "memory");
    push_printable(&mut text, b"\xff.").expect(&rt, "memory");
    reads(
        &rt,
        text,
        "marked",
        "line 12:  a bc?\n            ^^^\nline 3: x\n         ^\n?.",
    );
}

/// A script, the number of its faulty line, and the text below the line and its mark.
struct ScriptRow {
    script: &'static str,
    number: usize,
    text: &'static str,
}

static SCRIPTS: [ScriptRow; 11] = [
    ScriptRow {
        script: "placs 3",
        number: 1,
        text: "\
line 1: placs 3
        ^^^^^
  No line begins so: an event begins with its moment.
  Did you mean places?
",
    },
    ScriptRow {
        script: "0 tick\n1 arive 0 0",
        number: 2,
        text: "\
line 2: 1 arive 0 0
          ^^^^^
  No event has this name.
  Did you mean arrive?
",
    },
    ScriptRow {
        script: "arrive 0 0",
        number: 1,
        text: "\
line 1: arrive 0 0
        ^^^^^^
  An event begins with its moment, in milliseconds.
",
    },
    ScriptRow {
        script: "server a 1 0 257",
        number: 1,
        text: "\
line 1: server a 1 0 257
                     ^^^
  A weight is a number from 0 to 256. The line is server NAME MAXCONN MAXQUEUE WEIGHT [RISE FALL].
",
    },
    ScriptRow {
        script: "0 done",
        number: 1,
        text: "\
line 1: 0 done
              ^
  The line is M done TICKET.
",
    },
    ScriptRow {
        script: "0 tick 1",
        number: 1,
        text: "\
line 1: 0 tick 1
               ^
  The line is M tick.
",
    },
    ScriptRow {
        script: "0 tick\nroll 0 1",
        number: 2,
        text: "\
line 2: roll 0 1
             ^
  The line is roll.
",
    },
    ScriptRow {
        script: "rol",
        number: 1,
        text: "\
line 1: rol
        ^^^
  No line begins so: an event begins with its moment.
  Did you mean roll?
",
    },
    ScriptRow {
        script: "0 tick\nlog 5",
        number: 2,
        text: "\
line 2: log 5
        ^^^
  Header lines stand before the first event.
",
    },
    ScriptRow {
        script: "server a 1 0 1\nserver a 2 0 1",
        number: 2,
        text: "\
line 2: server a 2 0 1
               ^
  A server of this name stands in an earlier line.
",
    },
    ScriptRow {
        script: "",
        number: 0,
        text: "  A script has at most 4194304 bytes.\n",
    },
];

#[test]
fn a_faulty_line_of_a_script_has_its_cause(rt: HostRuntime) {
    for row in &SCRIPTS {
        let text = explain_script_line(rt.alloc(), row.script.as_bytes(), row.number).expect(
            &rt, "memory",
        );
        reads(&rt, text, "scripts", row.text);
    }
}

#[test]
fn a_faulty_line_of_a_trace_is_shown(rt: HostRuntime) {
    let trace = b"5 tick\n  end x\n";
    let text = explain_trace_line(rt.alloc(), trace, 2).expect(&rt, "memory");
    reads(&rt, text, "traces", "line 2:   end x\n          ^^^\n");
    let text = explain_trace_line(rt.alloc(), trace, 0).expect(&rt, "memory");
    reads(&rt, text, "traces", "");
}

// A reader that returns a text, and then fails.
#[derive(Drop)]
struct Failing<'a> {
    rest: &'a [u8],
}

impl<'a> Read for Failing<'a> {
    fn read(&mut self, buf: &mut [u8]) -> io::Result<usize> {
        if self.rest.is_empty() {
            return Err(io::Error::from(io::ErrorKind::BrokenPipe));
        }
        self.rest.read(buf)
    }
}

fn read_all(rt: &impl Abort, alloc: Global, kept: &mut Kept<'_, Failing<'_>>) {
    let mut bytes = Vec::new(alloc);
    let failed = kept.read_to_end(&mut bytes).is_err();
    holds(rt, failed, "kept", "fails");
    let so = bytes.as_slice() == b"0 tick".as_slice();
    holds(rt, so, "kept", "gives");
}

#[test]
fn what_was_read_is_kept_with_why_reading_failed(rt: HostRuntime) {
    let mut failing = Failing { rest: b"0 tick" };
    let mut kept = Kept::new(rt.alloc(), &mut failing);
    read_all(&rt, rt.alloc(), &mut kept);
    let seen = kept.seen() == Some(b"0 tick".as_slice());
    holds(&rt, seen, "kept", "seen");
    let kind = kept.failure().map(|error| error.kind());
    holds(&rt, kind == Some(io::ErrorKind::BrokenPipe), "kept", "why");
}
