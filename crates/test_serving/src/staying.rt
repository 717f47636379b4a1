//! Tests of connections that stay open: a client that asks again, and a server that is asked again.

use crate::peers::Step;
use crate::runs::Keeping;
use crate::stories::{Story, play_keeping};

const GET: &[u8] = b"GET / HTTP/1.1\r\nHost: h\r\n\r\n";

const SOON: &[u8] = b"GET /soon HTTP/1.1\r\nHost: h\r\n\r\n";

const POST: &[u8] = b"POST /soon HTTP/1.1\r\nHost: h\r\nContent-Length: 0\r\n\r\n";

const LINE: &[u8] = b"GET / HTTP/1.1\r\n";

const SOON_LINE: &[u8] = b"GET /soon HTTP/1.1\r\n";

const POST_LINE: &[u8] = b"POST /soon HTTP/1.1\r\n";

const HI: &[u8] = b"HTTP/1.1 200 OK\r\nContent-Length: 2\r\n\r\nhi";

const HI_TOLD: &[u8] = b"HTTP/1.1 200 OK\r\nContent-Length: 2\r\nConnection: close\r\n\r\nhi";

// A request with a body that looks like another request.
const WITH_BODY: &[u8] = b"GET / HTTP/1.1\r\nHost: h\r\nContent-Length: 15\r\n\r\nGET /evil HTTP/";

// Two answers, of which only one was asked for.
const TWICE: &[u8] =
    b"HTTP/1.1 200 OK\r\nContent-Length: 2\r\n\r\nhiHTTP/1.1 200 OK\r\nContent-Length: 2\r\n\r\nno";

// One loop, with at most two unused connections of each server.
const SERVERS: Keeping = Keeping {
    clients: None,
    servers: Some(2),
    loops: 1,
};

const BOTH: Keeping = Keeping {
    clients: Some(10_000),
    servers: Some(2),
    loops: 1,
};

fn told(steps: &'static [Step]) -> Story {
    Story {
        settings: "",
        limit: 1,
        places: 8,
        steps,
    }
}

#[test]
fn a_server_is_asked_again_on_its_connection(rt: HostRuntime) {
    let story = told(&[
        Step::Comes(GET),
        Step::Takes(LINE),
        Step::Answers(0, HI),
        Step::Ends(0, HI_TOLD),
        Step::Comes(SOON),
        Step::Hears(0, SOON),
        Step::Answers(0, HI),
        Step::Ends(1, HI_TOLD),
    ]);
    play_keeping(&rt, story, SERVERS);
}

#[test]
fn a_client_that_stays_is_answered_by_a_server_that_stays(rt: HostRuntime) {
    let story = told(&[
        Step::Comes(GET),
        Step::Takes(LINE),
        Step::Answers(0, HI),
        Step::Gets(0, HI),
        Step::Says(0, SOON),
        Step::Hears(0, SOON),
        Step::Answers(0, HI),
        Step::Gets(0, HI),
        Step::Goes(0),
    ]);
    play_keeping(&rt, story, BOTH);
}

#[test]
fn a_used_connection_that_breaks_is_followed_by_another(rt: HostRuntime) {
    let story = told(&[
        Step::Comes(GET),
        Step::Takes(LINE),
        Step::Answers(0, HI),
        Step::Ends(0, HI_TOLD),
        Step::Comes(SOON),
        Step::Hears(0, SOON),
        Step::Leaves(0),
        Step::Takes(SOON_LINE),
        Step::Answers(1, HI),
        Step::Ends(1, HI_TOLD),
    ]);
    play_keeping(&rt, story, SERVERS);
}

#[test]
fn a_request_that_may_not_be_repeated_has_its_own_connection(rt: HostRuntime) {
    let story = told(&[
        Step::Comes(GET),
        Step::Takes(LINE),
        Step::Answers(0, HI),
        Step::Ends(0, HI_TOLD),
        Step::Comes(POST),
        Step::Takes(POST_LINE),
        Step::Answers(1, HI),
        Step::Ends(1, HI_TOLD),
        Step::Comes(SOON),
        Step::Hears(1, SOON),
        Step::Answers(1, HI),
        Step::Ends(2, HI_TOLD),
    ]);
    play_keeping(&rt, story, SERVERS);
}

#[test]
fn an_answer_that_nobody_asked_for_reaches_nobody(rt: HostRuntime) {
    let story = told(&[
        Step::Comes(GET),
        Step::Takes(LINE),
        Step::Answers(0, TWICE),
        Step::Ends(0, HI_TOLD),
        Step::Comes(SOON),
        Step::Takes(SOON_LINE),
        Step::Answers(1, HI),
        Step::Ends(1, HI_TOLD),
    ]);
    play_keeping(&rt, story, SERVERS);
}

#[test]
fn a_body_that_its_server_leaves_unread_is_no_request(rt: HostRuntime) {
    let story = told(&[
        Step::Comes(WITH_BODY),
        Step::Takes(LINE),
        Step::Answers(0, HI),
        Step::Ends(0, HI_TOLD),
        Step::Comes(SOON),
        Step::Takes(SOON_LINE),
        Step::Answers(1, HI),
        Step::Ends(1, HI_TOLD),
    ]);
    play_keeping(&rt, story, SERVERS);
}
