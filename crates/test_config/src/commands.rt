//! Tests of the command line: what its words ask for.

use crate::assertions::holds;
use config_command::{AdminFault, Input, RunNumbers, Sections, Subcommand, admin_address, parse};
use due_key::Class;
use std::alloc::Global;
use std::process::Abort;

/// What is asked for, with static texts.
enum Expected {
    Run(&'static str, RunNumbers),
    Replay(From),
    Demo(bool),
    Check(&'static str),
    Explain(&'static str),
    DrawAll(From),
    DrawOnly(From, &'static str, i64),
    Tell(From, u64),
    Convert(&'static str, Option<&'static str>, Option<&'static str>),
    Nothing(u8),
}

/// The input of a command.
#[derive(Clone, Copy)]
enum From {
    Unnamed,
    Standard,
    File(&'static str),
}

/// The words of a command line with a blank between each two, and what they ask for.
type CommandRow = (&'static str, Expected);

const SIZES: RunNumbers = RunNumbers {
    workers: Some(7),
    loops: None,
    waiting: None,
    places: 1024,
    requests: 0,
    keeping: None,
    reusing: None,
    window: None,
    forwarded_for: false,
};

const STAYING: RunNumbers = RunNumbers {
    workers: None,
    loops: None,
    waiting: None,
    places: 1024,
    requests: 0,
    keeping: Some(10_000),
    reusing: Some(32),
    window: Some(60_000),
    forwarded_for: true,
};

// The shortest times, and the most unused connections.
const SHORTEST: RunNumbers = RunNumbers {
    workers: None,
    loops: None,
    waiting: None,
    places: 1024,
    requests: 0,
    keeping: Some(1),
    reusing: Some(4096),
    window: Some(100),
    forwarded_for: false,
};

static COMMANDS: [CommandRow; 38] = [
    // `run` has its sizes.
    (
        "dueproxy run file --workers 7",
        Expected::Run("file", SIZES),
    ),
    (
        "dueproxy run file --keep-alive --reuse --window 60000 --forwarded-for",
        Expected::Run("file", STAYING),
    ),
    (
        "dueproxy run file --keep-alive --keep-alive-timeout 1 --reuse --reuse-idle 4096 --window 100",
        Expected::Run("file", SHORTEST),
    ),
    (
        "dueproxy run file --keep-alive-timeout 0",
        Expected::Nothing(2),
    ),
    (
        "dueproxy run file --keep-alive --keep-alive-timeout 0",
        Expected::Nothing(2),
    ),
    ("dueproxy run file --reuse-idle 0", Expected::Nothing(2)),
    ("dueproxy run file --reuse-idle 4097", Expected::Nothing(2)),
    ("dueproxy run file --window 99", Expected::Nothing(2)),
    ("dueproxy run file --window 0", Expected::Nothing(2)),
    ("dueproxy run file --workers +5", Expected::Nothing(2)),
    ("dueproxy run file --workers 7x", Expected::Nothing(2)),
    // `draw` draws all, or one queue and class.
    ("dueproxy draw", Expected::DrawAll(From::Unnamed)),
    ("dueproxy draw -", Expected::DrawAll(From::Standard)),
    ("dueproxy draw s", Expected::DrawAll(From::File("s"))),
    (
        "dueproxy draw --of * -1",
        Expected::DrawOnly(From::Unnamed, "*", -1),
    ),
    (
        "dueproxy draw --of * -1 s",
        Expected::DrawOnly(From::File("s"), "*", -1),
    ),
    (
        "dueproxy draw s --of * -1",
        Expected::DrawOnly(From::File("s"), "*", -1),
    ),
    ("dueproxy draw --of *", Expected::Nothing(2)),
    ("dueproxy draw --of * x", Expected::Nothing(2)),
    // `demo` ends, or goes on.
    ("dueproxy demo", Expected::Demo(false)),
    ("dueproxy demo --keep", Expected::Demo(true)),
    ("dueproxy demo more", Expected::Nothing(2)),
    // The subcommands are distinguished.
    ("dueproxy replay", Expected::Replay(From::Unnamed)),
    ("dueproxy replay -", Expected::Replay(From::Standard)),
    ("dueproxy replay file", Expected::Replay(From::File("file"))),
    ("dueproxy check file", Expected::Check("file")),
    ("dueproxy check --explain file", Expected::Explain("file")),
    ("dueproxy check", Expected::Nothing(2)),
    ("dueproxy explain 7", Expected::Tell(From::Unnamed, 7)),
    ("dueproxy explain 7 s", Expected::Tell(From::File("s"), 7)),
    ("dueproxy explain 7 -", Expected::Tell(From::Standard, 7)),
    ("dueproxy explain x", Expected::Nothing(2)),
    ("dueproxy --help", Expected::Nothing(0)),
    ("dueproxy", Expected::Nothing(2)),
    ("dueproxy replay file more", Expected::Nothing(2)),
    // `convert` may name sections.
    (
        "dueproxy convert file",
        Expected::Convert("file", None, None),
    ),
    (
        "dueproxy convert file --frontend f --backend b",
        Expected::Convert("file", Some("f"), Some("b")),
    ),
    ("dueproxy convert", Expected::Nothing(2)),
];

fn words_of(rt: &impl Abort, alloc: Global, line: &str) -> Vec<String> {
    let mut words = Vec::new(alloc);
    for word in line.split(' ') {
        let word = String::from_str(alloc, word).expect(rt, "memory");
        words.push(word).expect(rt, "memory");
    }
    words
}

fn is_asked(asked: &Subcommand, expected: &Expected) -> bool {
    match expected {
        Expected::Run(name, numbers) => is_run(asked, name, numbers),
        Expected::Replay(from) =>
            matches!(asked, Subcommand::Replay(input) if is_from(input, *from)),
        Expected::Demo(goes_on) => matches!(asked, Subcommand::Demo(keep) if keep == goes_on),
        Expected::Check(name) => is_check(asked, name),
        Expected::Explain(name) => is_explain(asked, name),
        Expected::DrawAll(from) =>
            matches!(asked, Subcommand::Draw(input, None) if is_from(input, *from)),
        Expected::DrawOnly(from, queue, class) => is_draw_only(asked, *from, queue, *class),
        Expected::Tell(from, number) => {
            matches!(asked, Subcommand::Tell(input, ticket) if ticket == number && is_from(input, *from))
        }
        Expected::Convert(file, frontend, backend) => is_convert(asked, file, *frontend, *backend),
        Expected::Nothing(number) => {
            matches!(asked, Subcommand::Nothing(status) if status == number)
        }
    }
}

#[test]
fn an_admin_address_is_one_of_this_machine(rt: HostRuntime) {
    for word in ["127.0.0.1:8404", "127.9.9.9:1", "[::1]:8404"] {
        assert!(rt; admin_address(word, false).is_ok());
    }
    for word in ["0.0.0.0:8404", "192.0.2.1:8404", "[::]:8404"] {
        let fault = admin_address(word, false).err();
        assert_eq!(rt; fault, Some(AdminFault::Reached));
        assert!(rt; admin_address(word, true).is_ok());
    }
    for word in ["8404", "localhost:8404", "127.0.0.1"] {
        let fault = admin_address(word, true).err();
        assert_eq!(rt; fault, Some(AdminFault::NoAddress));
    }
}

fn is_run(asked: &Subcommand, name: &str, numbers: &RunNumbers) -> bool {
    match asked {
        Subcommand::Run(file, sizes, _) => file.as_str() == name && sizes == numbers,
        _ => false,
    }
}

fn is_check(asked: &Subcommand, name: &str) -> bool {
    match asked {
        Subcommand::Check(file) => file.as_str() == name,
        _ => false,
    }
}

fn is_explain(asked: &Subcommand, name: &str) -> bool {
    match asked {
        Subcommand::Explain(file) => file.as_str() == name,
        _ => false,
    }
}

fn is_draw_only(asked: &Subcommand, from: From, queue: &str, class: i64) -> bool {
    match asked {
        Subcommand::Draw(input, Some(only)) => {
            is_from(input, from)
                && only.queue.as_str() == queue
                && only.class == Class::clamp(class)
        }
        _ => false,
    }
}

fn is_from(input: &Input, from: From) -> bool {
    match (input, from) {
        (Input::Unnamed, From::Unnamed) | (Input::Standard, From::Standard) => true,
        (Input::File(name), From::File(other)) => name.as_str() == other,
        _ => false,
    }
}

fn is_convert(
    asked: &Subcommand,
    name: &str,
    frontend: Option<&str>,
    backend: Option<&str>,
) -> bool {
    match asked {
        Subcommand::Convert(sections) => {
            let Sections {
                file,
                frontend: front,
                backend: back,
            } = sections;
            file.as_str() == name && is_name(front, frontend) && is_name(back, backend)
        }
        _ => false,
    }
}

fn is_name(name: &Option<String>, expected: Option<&str>) -> bool {
    match (name, expected) {
        (Some(name), Some(expected)) => name.as_str() == expected,
        (None, None) => true,
        _ => false,
    }
}

#[test]
fn words_ask_for_what_they_say(rt: HostRuntime) {
    for (line, expected) in &COMMANDS {
        let words = words_of(&rt, rt.alloc(), line);
        let asked = parse(&rt, &words);
        drop(words);
        let so = is_asked(&asked, expected);
        drop(asked);
        holds(&rt, so, "words", line);
    }
}
