//! Stories of clients, a proxy and a server, one step after the other.

use crate::faked::Faked;
use crate::peers::{Peers, Step};
use crate::runs::{Keeping, ONCE, serve_keeping};
use std::alloc::Global;
use std::net::{Net, SocketAddr, TcpListener, TcpStream};
use std::process::Abort;
use std::sync::Wait;
use std::thread;
use std::thread::Threads;
use std::time::Clock;

const GET: &[u8] = b"GET / HTTP/1.1\r\nHost: h\r\n\r\n";

const LATE: &[u8] = b"GET /late HTTP/1.1\r\nHost: h\r\n\r\n";

const SOON: &[u8] = b"GET /soon HTTP/1.1\r\nHost: h\r\n\r\n";

const LINE: &[u8] = b"GET / HTTP/1.1\r\n";

const LATE_LINE: &[u8] = b"GET /late HTTP/1.1\r\n";

const SOON_LINE: &[u8] = b"GET /soon HTTP/1.1\r\n";

const HI: &[u8] = b"HTTP/1.1 200 OK\r\nContent-Length: 2\r\n\r\nhi";

const HI_TOLD: &[u8] = b"HTTP/1.1 200 OK\r\nContent-Length: 2\r\nConnection: close\r\n\r\nhi";

// An answer of 100 bytes, of which one has come.
const STREAM: &[u8] = b"HTTP/1.1 200 OK\r\nContent-Length: 100\r\n\r\na";

const STREAM_TOLD: &[u8] = b"HTTP/1.1 200 OK\r\nContent-Length: 100\r\nConnection: close\r\n\r\na";

const GATEWAY: &[u8] =
    b"HTTP/1.1 502 Bad Gateway\r\nContent-Length: 0\r\nConnection: close\r\n\r\n";

const UNAVAILABLE: &[u8] =
    b"HTTP/1.1 503 Service Unavailable\r\nContent-Length: 0\r\nConnection: close\r\n\r\n";

const MANY: &[u8] = &[b'a'; 60_000];

const LONG: &[u8] = &[b'a'; 15_000];

// A proxy before a server with a limit, and what happens there.
#[derive(Clone, Copy)]
pub(crate) struct Story {
    pub(crate) settings: &'static str,
    pub(crate) limit: u32,
    pub(crate) places: u32,
    pub(crate) steps: &'static [Step],
}

// Makes one step after the other. Returns `None` where each succeeded; otherwise the number of the
// one that failed, and the missing clients then connect and leave.
pub(crate) fn tell<R: Net<Stream = TcpStream> + Clock>(
    rt: &R,
    alloc: Global,
    proxy: SocketAddr,
    listener: &TcpListener,
    steps: &[Step],
) -> Option<usize> {
    let mut peers = Peers::new(alloc, proxy, listener);
    let mut wrong = None;
    for (number, step) in steps.iter().enumerate() {
        if wrong.is_none() && peers.step(rt, *step).is_none() {
            wrong = Some(number);
        } else if wrong.is_some() && matches!(step, Step::Comes(_)) {
            let _ = TcpStream::connect(rt, proxy);
        }
    }
    wrong
}

pub(crate) fn clients_of(steps: &[Step]) -> u32 {
    let mut clients = 0u32;
    for step in steps {
        if matches!(step, Step::Comes(_)) {
            clients = clients.saturating_add(1);
        }
    }
    clients
}

pub(crate) fn listening<R: Net<Listener = TcpListener, Stream = TcpStream> + Abort>(
    rt: &R,
) -> TcpListener {
    TcpListener::bind(rt, ("127.0.0.1", 0)).expect(rt, "a listener")
}

pub(crate) fn address(rt: &impl Abort, listener: &TcpListener) -> SocketAddr {
    listener.local_addr().expect(rt, "an address")
}

fn play<
    R: Net<Listener = TcpListener, Stream = TcpStream>
        + Clock
        + Print
        + Eprint
        + AllocGlobal
        + Threads
        + Wait
        + Abort
        + Sync
        + Copy
        + Send
        + 'static,
>(rt: &R, story: Story) {
    play_keeping(rt, story, ONCE);
}

// The same where connections are kept open.
pub(crate) fn play_keeping<
    R: Net<Listener = TcpListener, Stream = TcpStream>
        + Clock
        + Print
        + Eprint
        + AllocGlobal
        + Threads
        + Wait
        + Abort
        + Sync
        + Copy
        + Send
        + 'static,
>(rt: &R, story: Story, keeping: Keeping) {
    play_with(rt, story, keeping, "");
}

// The same with these words at the end of the server's line.
fn play_with<
    R: Net<Listener = TcpListener, Stream = TcpStream>
        + Clock
        + Print
        + Eprint
        + AllocGlobal
        + Threads
        + Wait
        + Abort
        + Sync
        + Copy
        + Send
        + 'static,
>(rt: &R, story: Story, keeping: Keeping, words: &str) {
    let alloc = rt.alloc();
    let far = listening(rt);
    far.set_nonblocking(true)
        .expect(rt, "a listener that doesn't wait");
    let near = listening(rt);
    let proxy = address(rt, &near);
    let server = address(rt, &far);
    let (settings, limit, steps) = (story.settings, story.limit, story.steps);
    let text = format!(in alloc;
        "listen w\n bind :1\n{settings} server it {server} maxconn {limit} {words}\n"
    ).expect(rt, "memory");
    let wrong = thread::scope(thread::scope_env(), rt, |scope| {
        let server = &far;
        let telling = scope
            .spawn(move || tell(rt, alloc, proxy, server, steps))
            .ok();
        let sizes = (clients_of(steps), story.places);
        let ended = serve_keeping(rt, text.as_str(), near, sizes, keeping);
        match telling {
            Some(handle) => (handle.join(rt), ended),
            None => (None, false),
        }
    });
    assert_eq!(rt; wrong, (None, true));
}

#[test]
fn each_piece_of_an_answer_is_handed_on_at_once(rt: HostRuntime) {
    let story = Story {
        settings: "",
        limit: 1,
        places: 8,
        steps: &[
            Step::Comes(GET),
            Step::Takes(LINE),
            Step::Answers(0, STREAM),
            Step::Gets(0, STREAM_TOLD),
            Step::Answers(0, b"b"),
            Step::Gets(0, b"b"),
            Step::Answers(0, b"c"),
            Step::Gets(0, b"c"),
            Step::Goes(0),
        ],
    };
    play(&rt, story);
}

#[test]
fn each_piece_of_a_request_is_handed_on_at_once(rt: HostRuntime) {
    let story = Story {
        settings: "",
        limit: 1,
        places: 8,
        steps: &[
            Step::Comes(b"PUT / HTTP/1.1\r\nHost: h\r\nContent-Length: 3\r\n\r\na"),
            Step::Takes(b"PUT / HTTP/1.1\r\n"),
            Step::Hears(0, b"a"),
            Step::Says(0, b"b"),
            Step::Hears(0, b"b"),
            Step::Says(0, b"c"),
            Step::Hears(0, b"c"),
            Step::Answers(0, HI),
            Step::Ends(0, HI_TOLD),
        ],
    };
    play(&rt, story);
}

#[test]
fn bytes_behind_a_request_cut_no_long_answer(rt: HostRuntime) {
    let story = Story {
        settings: "",
        limit: 1,
        places: 8,
        steps: &[
            Step::Comes(b"GET / HTTP/1.1\r\nHost: h\r\n\r\n\r\nGET / HTTP/1.1\r\nHost: h\r\n\r\n"),
            Step::Takes(LINE),
            Step::Answers(0, b"HTTP/1.1 200 OK\r\nContent-Length: 60000\r\n\r\n"),
            Step::Answers(0, MANY),
            Step::Gets(
                0,
                b"HTTP/1.1 200 OK\r\nContent-Length: 60000\r\nConnection: close\r\n\r\n",
            ),
            Step::Ends(0, MANY),
        ],
    };
    play(&rt, story);
}

#[test]
fn a_long_head_in_pairs_of_bytes_is_answered(rt: HostRuntime) {
    let story = Story {
        settings: "",
        limit: 1,
        places: 8,
        steps: &[
            Step::Comes(b"GET / HTTP/1.1\r\nHost: h\r\nX: "),
            Step::SaysInPairs(0, LONG),
            Step::SaysInPairs(0, b"\r\n\r\n"),
            Step::Takes(LINE),
            Step::Answers(0, HI),
            Step::Ends(0, HI_TOLD),
        ],
    };
    play(&rt, story);
}

#[test]
fn a_client_that_resets_gives_its_slot_back(rt: HostRuntime) {
    let story = Story {
        settings: "",
        limit: 1,
        places: 8,
        steps: &[
            Step::Comes(GET),
            Step::Takes(LINE),
            Step::Comes(SOON),
            Step::Answers(0, STREAM),
            Step::Gets(0, b"HTTP"),
            Step::Goes(0),
            Step::Takes(SOON_LINE),
            Step::Answers(1, HI),
            Step::Ends(1, HI_TOLD),
        ],
    };
    play(&rt, story);
}

#[test]
fn a_client_that_ends_gives_its_slot_back_with_abortonclose(rt: HostRuntime) {
    let story = Story {
        settings: " option abortonclose\n",
        limit: 1,
        places: 8,
        steps: &[
            Step::Comes(GET),
            Step::Takes(LINE),
            Step::Comes(SOON),
            Step::Goes(0),
            Step::Takes(SOON_LINE),
            Step::Answers(1, HI),
            Step::Ends(1, HI_TOLD),
        ],
    };
    play(&rt, story);
}

#[test]
fn a_client_that_sends_no_more_gets_its_answer(rt: HostRuntime) {
    let story = Story {
        settings: "",
        limit: 1,
        places: 8,
        steps: &[
            Step::Comes(GET),
            Step::Finishes(0),
            Step::Takes(LINE),
            Step::Answers(0, HI),
            Step::Ends(0, HI_TOLD),
        ],
    };
    play(&rt, story);
}

#[test]
fn who_waits_beyond_the_places_is_refused_after_timeout_queue(rt: HostRuntime) {
    let story = Story {
        settings: " timeout queue 100ms\n",
        limit: 1,
        places: 1,
        steps: &[
            Step::Comes(GET),
            Step::Takes(LINE),
            Step::Comes(LATE),
            Step::Ends(1, UNAVAILABLE),
            Step::Answers(0, HI),
            Step::Ends(0, HI_TOLD),
        ],
    };
    play(&rt, story);
}

#[test]
fn who_waits_beyond_the_places_goes_by_class(rt: HostRuntime) {
    let story = Story {
        settings: " http-request set-priority-class int(-1) if { path /soon }\n",
        limit: 1,
        places: 1,
        steps: &[
            Step::Comes(GET),
            Step::Takes(LINE),
            Step::Comes(LATE),
            Step::Passes(50),
            Step::Comes(SOON),
            Step::Passes(50),
            Step::Answers(0, HI),
            Step::Ends(0, HI_TOLD),
            Step::Takes(SOON_LINE),
            Step::Answers(1, HI),
            Step::Ends(2, HI_TOLD),
            Step::Takes(LATE_LINE),
            Step::Answers(2, HI),
            Step::Ends(1, HI_TOLD),
        ],
    };
    play(&rt, story);
}

#[test]
fn who_leaves_beyond_the_places_is_not_served(rt: HostRuntime) {
    let story = Story {
        settings: " option abortonclose\n",
        limit: 1,
        places: 1,
        steps: &[
            Step::Comes(GET),
            Step::Takes(LINE),
            Step::Comes(SOON),
            Step::Passes(50),
            Step::Comes(LATE),
            Step::Passes(50),
            Step::Goes(1),
            Step::Passes(50),
            Step::Answers(0, HI),
            Step::Ends(0, HI_TOLD),
            Step::Takes(LATE_LINE),
            Step::Answers(1, HI),
            Step::Ends(2, HI_TOLD),
        ],
    };
    play(&rt, story);
}

#[test]
fn streams_hold_up_nobody_else(rt: HostRuntime) {
    let story = Story {
        settings: "",
        limit: 8,
        places: 8,
        steps: &[
            Step::Comes(GET),
            Step::Takes(LINE),
            Step::Answers(0, STREAM),
            Step::Comes(GET),
            Step::Takes(LINE),
            Step::Answers(1, STREAM),
            Step::Comes(GET),
            Step::Takes(LINE),
            Step::Answers(2, STREAM),
            Step::Gets(0, STREAM_TOLD),
            Step::Gets(1, STREAM_TOLD),
            Step::Gets(2, STREAM_TOLD),
            Step::Comes(b"PUT /soon HTTP/1.1\r\nHost: h\r\nContent-Length: 60000\r\n\r\n"),
            Step::Says(3, MANY),
            Step::Takes(b"PUT /soon HTTP/1.1\r\n"),
            Step::Hears(3, MANY),
            Step::Answers(3, b"HTTP/1.1 200 OK\r\nContent-Length: 60000\r\n\r\n"),
            Step::Answers(3, MANY),
            Step::Gets(
                3,
                b"HTTP/1.1 200 OK\r\nContent-Length: 60000\r\nConnection: close\r\n\r\n",
            ),
            Step::Ends(3, MANY),
            Step::Goes(0),
            Step::Goes(1),
            Step::Goes(2),
        ],
    };
    play(&rt, story);
}

#[test]
fn a_silent_server_is_over_beside_an_answer_that_streams(rt: HostRuntime) {
    let story = Story {
        settings: " timeout server 250ms\n",
        limit: 8,
        places: 8,
        steps: &[
            Step::Comes(GET),
            Step::Takes(LINE),
            Step::Comes(LATE),
            Step::Takes(LATE_LINE),
            Step::Answers(0, STREAM),
            Step::Passes(100),
            Step::Answers(0, b"b"),
            Step::Passes(100),
            Step::Answers(0, b"c"),
            Step::Passes(100),
            Step::Answers(0, b"d"),
            Step::Passes(100),
            Step::Answers(0, b"e"),
            Step::EndsAlready(1, GATEWAY),
            Step::Gets(0, STREAM_TOLD),
            Step::Gets(0, b"bcde"),
            Step::Goes(0),
        ],
    };
    play(&rt, story);
}

#[test]
fn a_dead_server_holds_up_nobody_else(rt: HostRuntime) {
    let story = Story {
        settings: " retries 1\n timeout connect 500ms\n use-server dead if { path /late }\n server dead 127.0.0.1:1 weight 0\n",
        limit: 1,
        places: 8,
        steps: &[
            Step::Comes(LATE),
            Step::Passes(50),
            Step::Comes(GET),
            Step::Takes(LINE),
            Step::Answers(0, HI),
            Step::Ends(1, HI_TOLD),
            Step::IsSilent(0),
            Step::Ends(0, UNAVAILABLE),
        ],
    };
    play(&rt, story);
}

#[test]
fn a_request_that_is_put_back_waits_no_longer_than_timeout_queue(rt: HostRuntime) {
    let story = Story {
        settings: " timeout queue 100ms\n retries 1\n option redispatch\n use-server dead if { path /late }\n server dead 127.0.0.1:1 weight 0\n",
        limit: 1,
        places: 8,
        steps: &[
            Step::Comes(GET),
            Step::Takes(LINE),
            Step::Comes(LATE),
            Step::Ends(1, UNAVAILABLE),
            Step::Answers(0, HI),
            Step::Ends(0, HI_TOLD),
        ],
    };
    play(&rt, story);
}

#[test]
fn a_request_that_is_put_back_is_gone_with_its_client(rt: HostRuntime) {
    let story = Story {
        settings: " option abortonclose\n retries 1\n option redispatch\n use-server dead if { path /late }\n server dead 127.0.0.1:1 weight 0\n",
        limit: 1,
        places: 8,
        steps: &[
            Step::Comes(GET),
            Step::Takes(LINE),
            Step::Comes(LATE),
            Step::Passes(100),
            Step::Comes(SOON),
            Step::Goes(1),
            Step::Passes(50),
            Step::Answers(0, HI),
            Step::Ends(0, HI_TOLD),
            Step::Takes(SOON_LINE),
            Step::Answers(1, HI),
            Step::Ends(2, HI_TOLD),
        ],
    };
    play(&rt, story);
}

#[test]
fn a_look_up_that_hangs_holds_up_no_check(rt: HostRuntime) {
    let story = Story {
        settings: " server far a.name:80 weight 0 check inter 100ms\n",
        limit: 1,
        places: 8,
        steps: &[
            Step::IsChecked,
            Step::IsChecked,
            Step::IsChecked,
            Step::Comes(GET),
            Step::Takes(LINE),
            Step::Answers(0, HI),
            Step::Ends(0, HI_TOLD),
        ],
    };
    play_with(
        &Faked::hanging(rt),
        story,
        ONCE,
        "check inter 100ms fall 10",
    );
}
