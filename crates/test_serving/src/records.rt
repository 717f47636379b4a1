//! What a proxy writes to its logs, and what it prints at its end.

use crate::faked::Faked;
use crate::peers::Step;
use crate::runs::{Keeping, doors_of, serve_doors, serve_text};
use crate::stories::{address, clients_of, listening, tell};
use log_lines::Format;
use log_requests::{Access, Logs};
use log_sink::{Sink, Way};
use std::fs::Files;
use std::net::{Net, TcpListener, TcpStream};
use std::process::Abort;
use std::sync::{Arc, Wait};
use std::thread::Threads;
use std::time::Clock;
use std::{fs, thread};

const GET: &[u8] = b"GET / HTTP/1.1\r\nHost: h\r\n\r\n";

const LINE: &[u8] = b"GET / HTTP/1.1\r\n";

const HI: &[u8] = b"HTTP/1.1 200 OK\r\nContent-Length: 2\r\n\r\nhi";

const HI_TOLD: &[u8] = b"HTTP/1.1 200 OK\r\nContent-Length: 2\r\nConnection: close\r\n\r\nhi";

const ONE: &[Step] = &[
    Step::Comes(GET),
    Step::Takes(LINE),
    Step::Answers(0, HI),
    Step::Ends(0, HI_TOLD),
];

// Clients stay, and each of their requests has a server's connection of its own.
const STAYS: Keeping = Keeping {
    clients: Some(10_000),
    servers: None,
    loops: 1,
};

// Returns how often these words are in a text.
fn count(text: &str, words: &str) -> usize {
    text.matches(words).count()
}

// The logs of a run, one of which goes to a sink.
#[derive(Clone, Copy)]
enum Record {
    Access,
    Events,
}

fn logs_to(record: Record, sink: Arc<Sink>) -> Logs {
    match record {
        Record::Access => Logs {
            access: Some(Access {
                sink,
                format: Format::Text,
                has_windows: false,
            }),
            events: None,
            numbers: None,
        },
        Record::Events => Logs {
            access: None,
            events: Some(sink),
            numbers: None,
        },
    }
}

// Tells a story to a proxy of one server with these words in its line, and returns what it wrote to
// a log in a file with this name.
fn written<
    R: Net<Listener = TcpListener, Stream = TcpStream>
        + Clock
        + Print
        + Eprint
        + AllocGlobal
        + Files
        + Threads
        + Wait
        + Abort
        + Sync
        + Copy
        + Send
        + 'static,
>(rt: &R, record: Record, name: &str, words: &str, steps: &'static [Step]) -> String {
    let alloc = rt.alloc();
    let far = listening(rt);
    far.set_nonblocking(true)
        .expect(rt, "a listener that doesn't wait");
    let server = address(rt, &far);
    let text = format!(in alloc;
        "listen w\n bind :1\n server it {server} maxconn 1 {words}\n"
    ).expect(rt, "memory");
    let path = String::from_str(alloc, name).expect(rt, "memory");
    assert!(rt; is_told(rt, record, path, text.as_str(), (&far, steps)));
    let log = fs::read_to_string(rt, name).expect(rt, "a log");
    fs::remove_file(rt, name).expect(rt, "a log removed");
    log
}

// Says whether a story was told to its end, whose proxy has one place. Its log is written to this
// file when it has ended.
fn is_told<
    R: Net<Listener = TcpListener, Stream = TcpStream>
        + Clock
        + Print
        + Eprint
        + AllocGlobal
        + Files
        + Threads
        + Wait
        + Abort
        + Sync
        + Copy
        + Send
        + 'static,
>(
    rt: &R,
    record: Record,
    path: String,
    text: &str,
    story: (&TcpListener, &'static [Step]),
) -> bool {
    let alloc = rt.alloc();
    let (far, steps) = story;
    let near = listening(rt);
    let proxy = address(rt, &near);
    let way = Way::File(path);
    let sink = Arc::new(alloc, Sink::new(alloc, &way).expect(rt, "memory")).expect(rt, "memory");
    let own = Arc::try_clone(&sink).expect(rt, "memory");
    let told = thread::scope(thread::scope_env(), rt, |scope| {
        let telling = scope.spawn(move || tell(rt, alloc, proxy, far, steps)).ok();
        let doors = doors_of(near, STAYS, logs_to(record, sink));
        let served = serve_doors(rt, text, doors, (clients_of(steps), 1), STAYS.loops);
        match telling {
            Some(telling) => telling.join(rt).is_none() && served,
            None => false,
        }
    });
    own.write_to(rt, rt, way, Sink::room(alloc).expect(rt, "memory"));
    told
}

// Says whether a run of one request ends well where these words have to be in each printed text.
fn ends_well<
    R: Net<Listener = TcpListener, Stream = TcpStream>
        + Clock
        + Print
        + Eprint
        + AllocGlobal
        + Threads
        + Wait
        + Abort
        + Sync
        + Copy
        + Send
        + 'static,
>(rt: &R, words: &'static str) -> bool {
    let alloc = rt.alloc();
    let picky = &Faked::picky(*rt, words);
    let far = &listening(rt);
    far.set_nonblocking(true)
        .expect(rt, "a listener that doesn't wait");
    let near = listening(rt);
    let proxy = address(rt, &near);
    let server = address(rt, far);
    let text = format!(in alloc; "listen w\n bind :1\n server it {server} maxconn 1\n").expect(
        &rt, "memory",
    );
    thread::scope(thread::scope_env(), rt, |scope| {
        let telling = scope.spawn(move || tell(rt, alloc, proxy, far, ONE)).ok();
        let ended = serve_text(picky, text.as_str(), near, 1, 8);
        match telling {
            Some(telling) => telling.join(rt).is_none() && ended,
            None => false,
        }
    })
}

#[test]
fn each_request_of_a_connection_has_a_line_with_its_clients_address(rt: HostRuntime) {
    let log = written(
        &rt,
        Record::Access,
        "connection.log",
        "",
        &[
            Step::Comes(GET),
            Step::Takes(LINE),
            Step::Answers(0, HI),
            Step::Gets(0, HI),
            Step::Says(0, GET),
            Step::Takes(LINE),
            Step::Answers(1, HI),
            Step::Gets(0, HI),
            Step::Finishes(0),
            Step::Ends(0, b""),
        ],
    );
    assert_eq!(rt; count(log.as_str(), "request 127.0.0.1:"), 2);
    assert_eq!(rt; count(log.as_str(), " request "), 2);
}

#[test]
fn who_waited_beyond_the_places_has_a_line_with_its_ticket(rt: HostRuntime) {
    let log = written(
        &rt,
        Record::Access,
        "beyond.log",
        "",
        &[
            Step::Comes(GET),
            Step::Takes(LINE),
            Step::Comes(GET),
            Step::Passes(50),
            Step::Answers(0, HI),
            Step::Gets(0, HI),
            Step::Finishes(0),
            Step::Ends(0, b""),
            Step::Takes(LINE),
            Step::Answers(1, HI),
            Step::Gets(1, HI),
            Step::Finishes(1),
            Step::Ends(1, b""),
        ],
    );
    assert_eq!(rt; count(log.as_str(), " ticket=1 "), 1);
    assert_eq!(rt; count(log.as_str(), " ticket=2 "), 1);
}

#[test]
fn a_check_that_fails_is_an_event_with_its_reason(rt: HostRuntime) {
    let log = written(
        &rt,
        Record::Events,
        "checks.log",
        "check inter 50\n server off 127.0.0.1:1 weight 0 check inter 50 fall 1",
        &[
            Step::Comes(GET),
            Step::Takes(LINE),
            Step::IsChecked,
            Step::IsChecked,
            Step::IsChecked,
            Step::IsChecked,
            Step::Answers(0, HI),
            Step::Gets(0, HI),
            Step::Finishes(0),
            Step::Ends(0, b""),
        ],
    );
    let down = "server off down: 1 checks failed in a row, the last: connection refused";
    assert_eq!(rt; count(log.as_str(), down), 1);
}

#[test]
fn a_run_tells_its_start_and_its_end(rt: HostRuntime) {
    let log = written(
        &rt,
        Record::Events,
        "run.log",
        "",
        &[
            Step::Comes(GET),
            Step::Takes(LINE),
            Step::Answers(0, HI),
            Step::Gets(0, HI),
            Step::Finishes(0),
            Step::Ends(0, b""),
        ],
    );
    assert_eq!(rt; count(log.as_str(), " started\n"), 1);
    assert!(rt; log.as_str().ends_with(" stopped\n"));
}

#[test]
fn what_was_served_is_told_at_the_end(rt: HostRuntime) {
    assert!(rt; ends_well(&rt, "server it up direct 1 granted 0\n"));
}

#[test]
fn an_end_that_cannot_be_told_is_a_fault(rt: HostRuntime) {
    assert!(rt; !ends_well(&rt, "server it up direct 2 granted 0\n"));
}
