//! What operators are told of a proxy that works.

use crate::peers::{Peers, Step};
use crate::runs::{ONCE, no_logs, serve_doors};
use crate::stories::{address, listening};
use run_admin::Admin;
use run_control::{Controls, bound_at};
use run_service::{Doors, RunOptions};
use std::alloc::Global;
use std::io::{Read, Write};
use std::net::{Net, Shutdown, SocketAddr, TcpListener, TcpStream};
use std::os::unix::net::UnixStream;
use std::process::Abort;
use std::rt::Files;
use std::sync::Wait;
use std::thread::Threads;
use std::time::{Clock, Duration};
use std::{fs, thread};

const GET: &[u8] = b"GET / HTTP/1.1\r\nHost: h\r\n\r\n";

const LATE: &[u8] = b"GET /late HTTP/1.1\r\nHost: h\r\n\r\n";

const SOON: &[u8] = b"GET /soon HTTP/1.1\r\nHost: h\r\n\r\n";

const LINE: &[u8] = b"GET / HTTP/1.1\r\n";

const LATE_LINE: &[u8] = b"GET /late HTTP/1.1\r\n";

const SOON_LINE: &[u8] = b"GET /soon HTTP/1.1\r\n";

const HI: &[u8] = b"HTTP/1.1 200 OK\r\nContent-Length: 2\r\n\r\nhi";

const HI_TOLD: &[u8] = b"HTTP/1.1 200 OK\r\nContent-Length: 2\r\nConnection: close\r\n\r\nhi";

const HEALTH: &[u8] = b"GET /health HTTP/1.1\r\nHost: h\r\nConnection: close\r\n\r\n";

const METRICS: &[u8] = b"GET /metrics HTTP/1.1\r\nHost: h\r\nConnection: close\r\n\r\n";

/// The longest wait for an answer, in milliseconds.
const PATIENCE: u64 = 20_000;

const MOST_PIECES: u32 = 1 << 10;

/// How often an operator asks, ten milliseconds apart, until the answer is the right one.
const QUESTIONS: u32 = 1000;

// An act of a client or of the server, or a question of an operator, whose answer is the right one
// within some time.
#[derive(Clone, Copy)]
enum Act {
    Does(Step),
    Asks(Question),
}

#[derive(Clone, Copy)]
enum Question {
    // Does the control socket's answer to this line have these words in it?
    Control(&'static [u8], &'static str),
    // Does the admin address's answer to this request have these words in it?
    Admin(&'static [u8], &'static str),
}

// The ways of an operator to a proxy.
#[derive(Clone, Copy)]
struct Ways {
    path: &'static str,
    admin: SocketAddr,
}

// A proxy before a server that takes one request at a time.
#[derive(Clone, Copy)]
struct Scene {
    settings: &'static str,
    places: u32,
    clients: u32,
    acts: &'static [Act],
}

// Says whether the control socket's answer to one line has these words in it.
fn is_commanded<R: Net>(
    rt: &R,
    alloc: Global,
    path: &str,
    line: &[u8],
    words: &str,
) -> Option<bool> {
    let mut stream = UnixStream::connect(rt, path).ok()?;
    stream
        .set_read_timeout(Some(Duration::from_millis(PATIENCE)))
        .ok()?;
    stream.write_all(line).ok()?;
    stream.shutdown(Shutdown::Write).ok()?;
    has_come(alloc, &mut stream, words)
}

// Says whether the admin address's answer to a request has these words in it.
fn is_looked_up<R: Net<Stream = TcpStream>>(
    rt: &R,
    alloc: Global,
    asked: (SocketAddr, &[u8]),
    words: &str,
) -> Option<bool> {
    let (admin, request) = asked;
    let mut stream = TcpStream::connect(rt, admin).ok()?;
    stream
        .set_read_timeout(Some(Duration::from_millis(PATIENCE)))
        .ok()?;
    stream.write_all(request).ok()?;
    has_come(alloc, &mut stream, words)
}

// Reads until these words have come, or no more does. The answer to `stop` ends with the proxy.
fn has_come(alloc: Global, stream: &mut impl Read, words: &str) -> Option<bool> {
    let mut answer = Vec::new(alloc);
    let mut piece = [0u8; 512];
    for _ in 0..MOST_PIECES {
        let count = stream.read(&mut piece).ok()?;
        if count == 0 {
            return Some(false);
        }
        answer.extend_from_slice(piece.get(..count)?).ok()?;
        if str::from_utf8(answer.as_slice()).is_ok_and(|text| text.contains(words)) {
            return Some(true);
        }
    }
    None
}

// Says whether the answer to a question is the right one.
fn is_right<R: Net<Stream = TcpStream>>(
    rt: &R,
    alloc: Global,
    ways: Ways,
    question: Question,
) -> Option<bool> {
    match question {
        Question::Control(line, words) => is_commanded(rt, alloc, ways.path, line, words),
        Question::Admin(request, words) => { is_looked_up(rt, alloc, (ways.admin, request), words) }
    }
}

// Asks until the answer is the right one.
fn ask<R: Net<Stream = TcpStream> + Clock>(
    rt: &R,
    alloc: Global,
    ways: Ways,
    question: Question,
) -> Option<()> {
    for _ in 0..QUESTIONS {
        if is_right(rt, alloc, ways, question)? {
            return Some(());
        }
        thread::sleep(rt, Duration::from_millis(10));
    }
    None
}

fn make<R: Net<Stream = TcpStream> + Clock>(
    rt: &R,
    alloc: Global,
    peers: &mut Peers<'_>,
    ways: Ways,
    act: Act,
) -> Option<()> {
    match act {
        Act::Does(step) => peers.step(rt, step),
        Act::Asks(question) => ask(rt, alloc, ways, question),
    }
}

// Returns the number of the first act that failed. A command then stops the proxy.
fn first_wrong<R: Net<Stream = TcpStream> + Clock>(
    rt: &R,
    alloc: Global,
    mut peers: Peers<'_>,
    ways: Ways,
    acts: &[Act],
) -> Option<usize> {
    for (number, it) in acts.iter().enumerate() {
        if make(rt, alloc, &mut peers, ways, *it).is_none() {
            let _ = is_commanded(rt, alloc, ways.path, b"stop --within 1\n", "ok");
            return Some(number);
        }
    }
    None
}

// The doors of a proxy that operators reach.
fn steered_doors<R: Files + Net<Listener = TcpListener, Stream = TcpStream> + Abort>(
    rt: &R,
    alloc: Global,
    listeners: (TcpListener, TcpListener),
    path: &str,
) -> Doors {
    let (near, admin) = listeners;
    let _ = fs::remove_file(rt, path);
    let bound = bound_at(rt, alloc, path).expect(rt, "a control socket");
    let options = RunOptions {
        keeping: None,
        reusing: None,
        window: None,
        forwarded_for: false,
        controls: Controls::new(rt, alloc, Some(bound), false),
        logs: no_logs(),
        admin: Admin::new(rt, alloc, admin),
    };
    Doors {
        listener: near,
        options,
    }
}

fn play<
    R: Net<Listener = TcpListener, Stream = TcpStream>
        + Clock
        + Print
        + Eprint
        + AllocGlobal
        + Files
        + Threads
        + Wait
        + Abort
        + Sync
        + Copy
        + Send
        + 'static,
>(rt: &R, path: &'static str, scene: Scene) {
    let alloc = rt.alloc();
    let far = &listening(rt);
    far.set_nonblocking(true)
        .expect(rt, "a listener that doesn't wait");
    let (near, admin) = (listening(rt), listening(rt));
    let (proxy, server) = (address(rt, &near), address(rt, far));
    let ways = Ways {
        path,
        admin: address(rt, &admin),
    };
    let settings = scene.settings;
    let text = format!(in alloc;
        "listen w\n bind :1\n{settings} server it {server} maxconn 1\n"
    ).expect(rt, "memory");
    let doors = steered_doors(rt, alloc, (near, admin), path);
    let wrong = thread::scope(thread::scope_env(), rt, |scope| {
        let peers = Peers::new(alloc, proxy, far);
        let acting = scope
            .spawn(move || first_wrong(rt, alloc, peers, ways, scene.acts))
            .ok();
        let sizes = (scene.clients, scene.places);
        let ended = serve_doors(rt, text.as_str(), doors, sizes, ONCE.loops);
        match acting {
            Some(handle) => (handle.join(rt), ended),
            None => (None, false),
        }
    });
    let _ = fs::remove_file(rt, path);
    assert_eq!(rt; wrong, (None, true));
}

static WAITING: [Act; 19] = [
    Act::Does(Step::Comes(GET)),
    Act::Does(Step::Takes(LINE)),
    Act::Does(Step::Comes(SOON)),
    Act::Asks(Question::Control(
        b"state\n",
        "server it up limit 1 served 1 waiting 1\nproxy serving waiting 0 ",
    )),
    Act::Does(Step::Comes(LATE)),
    Act::Asks(Question::Control(
        b"state\n",
        " waiting 1\nproxy serving waiting 1 places 3 clients 3\n",
    )),
    Act::Does(Step::Comes(LATE)),
    Act::Asks(Question::Control(
        b"state\n",
        " waiting 1\nproxy serving waiting 2 places 3 clients 4\n",
    )),
    Act::Does(Step::Answers(0, HI)),
    Act::Does(Step::Ends(0, HI_TOLD)),
    Act::Does(Step::Takes(SOON_LINE)),
    Act::Does(Step::Answers(1, HI)),
    Act::Does(Step::Ends(1, HI_TOLD)),
    Act::Does(Step::Takes(LATE_LINE)),
    Act::Does(Step::Answers(2, HI)),
    Act::Does(Step::Ends(2, HI_TOLD)),
    Act::Does(Step::Takes(LATE_LINE)),
    Act::Does(Step::Answers(3, HI)),
    Act::Does(Step::Ends(3, HI_TOLD)),
];

#[test]
fn who_waits_is_told_where_it_waits(rt: HostRuntime) {
    let scene = Scene {
        settings: " acl pinned path /soon\n use-server it if pinned\n",
        places: 3,
        clients: 4,
        acts: WAITING.as_slice(),
    };
    play(&rt, "operators_waiting_test.sock", scene);
}

static STOPPING: [Act; 7] = [
    Act::Does(Step::Comes(GET)),
    Act::Does(Step::Takes(LINE)),
    Act::Asks(Question::Admin(HEALTH, "ok\n")),
    Act::Asks(Question::Control(b"stop --within 60000\n", "ok stopping clients 1\n")),
    Act::Asks(Question::Admin(HEALTH, "stopping\n")),
    Act::Does(Step::Answers(0, HI)),
    Act::Does(Step::Ends(0, HI_TOLD)),
];

#[test]
fn a_proxy_that_stops_is_not_healthy(rt: HostRuntime) {
    let scene = Scene {
        settings: "",
        places: 3,
        clients: 2,
        acts: STOPPING.as_slice(),
    };
    play(&rt, "operators_health_test.sock", scene);
}

static LEAVING: [Act; 8] = [
    Act::Does(Step::Comes(GET)),
    Act::Does(Step::Takes(LINE)),
    Act::Does(Step::Comes(LATE)),
    Act::Asks(Question::Admin(
        METRICS,
        "\ndueproxy_queue_waiting{queue=\"*\",class=\"0\"} 1\n",
    )),
    Act::Does(Step::Goes(1)),
    Act::Asks(Question::Admin(
        METRICS,
        "\ndueproxy_queue_waiting{queue=\"*\",class=\"0\"} 0\n",
    )),
    Act::Does(Step::Answers(0, HI)),
    Act::Does(Step::Ends(0, HI_TOLD)),
];

#[test]
fn who_leaves_a_queue_is_counted_there_no_more(rt: HostRuntime) {
    let scene = Scene {
        settings: " option abortonclose\n",
        places: 3,
        clients: 2,
        acts: LEAVING.as_slice(),
    };
    play(&rt, "operators_leaving_test.sock", scene);
}
