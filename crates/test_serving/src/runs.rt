use crate::faked::Faked;
use proxy_config::read;
use run_parts::RunLimits;
use run_service::{Doors, Logs, RunOptions, serve_at};
use std::alloc::Global;
use std::io::{Read, Write};
use std::net::{Net, SocketAddr, TcpListener, TcpStream};
use std::process::Abort;
use std::sync::Wait;
use std::thread;
use std::thread::Threads;
use std::time::Clock;

const REQUEST: &[u8] = b"GET / HTTP/1.1\r\nHost: h\r\n\r\n";

const ANSWER: &[u8] = b"HTTP/1.1 200 OK\r\nContent-Length: 2\r\nConnection: close\r\n\r\nhi";

// Clients before a proxy, and a server behind it.
#[derive(Drop)]
struct Row {
    settings: &'static str,
    // The server's host.
    host: &'static str,
    clients: u32,
    // The bytes that each client sends, and those that it gets.
    says: &'static [u8],
    gets: &'static [u8],
    // The server sends this answer this number of times.
    answer: &'static [u8],
    answers: u32,
    order: Order,
    places: u32,
}

// The order in which a server answers.
#[derive(Clone, Copy)]
enum Order {
    // Once as many clients are there as it answers, the last one first.
    Together,
    // Each client before the next one comes.
    InTurn,
}

const NUMBERS: &str = "127.0.0.1";

const WHOLE: &[u8] = b"HTTP/1.1 200 OK\r\nContent-Length: 2\r\n\r\nhi";

// Then it waits until the proxy closes the connection.
fn answer(mut client: TcpStream, text: &[u8]) -> bool {
    let mut head = [0u8; 1024];
    let is_answered = client.read(&mut head).is_ok() && client.write_all(text).is_ok();
    // Amid a message the close is a reset.
    let _ = client.read(&mut head);
    is_answered
}

fn answer_all(listener: &TcpListener, count: u32, text: &[u8]) -> bool {
    if count == 0 {
        return true;
    }
    let Ok((client, _)) = listener.accept() else {
        return false;
    };
    answer_all(listener, count - 1, text) && answer(client, text)
}

pub(crate) fn answer_each(listener: &TcpListener, count: u32, text: &[u8]) -> bool {
    for _ in 0..count {
        let is_answered = match listener.accept() {
            Ok((client, _)) => answer(client, text),
            Err(_) => false,
        };
        if !is_answered {
            return false;
        }
    }
    true
}

fn answer_in(order: Order, listener: &TcpListener, count: u32, text: &[u8]) -> bool {
    match order {
        Order::Together => answer_all(listener, count, text),
        Order::InTurn => answer_each(listener, count, text),
    }
}

fn come<R: Abort + Net<Stream = TcpStream>>(
    rt: &R,
    alloc: Global,
    proxy: SocketAddr,
    row: &Row,
) -> Vec<TcpStream> {
    let mut clients = Vec::new(alloc);
    for _ in 0..row.clients {
        let mut client = TcpStream::connect(rt, proxy).expect(rt, "a connection");
        client.write_all(row.says).expect(rt, "a request written");
        clients.push(client).expect(rt, "memory");
    }
    clients
}

// How long a client may stay, the most unused connections of a server, and the number of loops.
#[derive(Clone, Copy)]
pub(crate) struct Keeping {
    pub(crate) clients: Option<u64>,
    pub(crate) servers: Option<u64>,
    pub(crate) loops: u32,
}

// Each connection has one request.
pub(crate) const ONCE: Keeping = Keeping {
    clients: None,
    servers: None,
    loops: 2,
};

// Serves as a configuration text says.
pub(crate) fn serve_text<
    R: Net<Listener = TcpListener, Stream = TcpStream>
        + Clock
        + Print
        + Eprint
        + AllocGlobal
        + Threads
        + Wait
        + Sync
        + Copy
        + Send
        + 'static,
>(rt: &R, text: &str, listener: TcpListener, clients: u32, places: u32) -> bool {
    serve_keeping(rt, text, listener, (clients, places), ONCE)
}

// Serves this number of clients at this number of places, with these rules for connections.
pub(crate) fn serve_keeping<
    R: Net<Listener = TcpListener, Stream = TcpStream>
        + Clock
        + Print
        + Eprint
        + AllocGlobal
        + Threads
        + Wait
        + Sync
        + Copy
        + Send
        + 'static,
>(rt: &R, text: &str, listener: TcpListener, sizes: (u32, u32), keeping: Keeping) -> bool {
    let doors = doors_of(listener, keeping, no_logs());
    serve_doors(rt, text, doors, sizes, keeping.loops)
}

pub(crate) fn no_logs() -> Logs {
    Logs {
        access: None,
        events: None,
        numbers: None,
    }
}

// The options of a run with these rules for connections and these logs.
pub(crate) fn doors_of(listener: TcpListener, keeping: Keeping, logs: Logs) -> Doors {
    Doors {
        listener,
        options: RunOptions {
            keeping: keeping.clients,
            reusing: keeping.servers,
            window: None,
            forwarded_for: false,
            controls: None,
            logs,
            admin: None,
        },
    }
}

// Serves this number of clients at this number of places, with this number of loops.
pub(crate) fn serve_doors<
    R: Net<Listener = TcpListener, Stream = TcpStream>
        + Clock
        + Print
        + Eprint
        + AllocGlobal
        + Threads
        + Wait
        + Sync
        + Copy
        + Send
        + 'static,
>(rt: &R, text: &str, doors: Doors, sizes: (u32, u32), loops: u32) -> bool {
    let (clients, places) = sizes;
    let Ok(config) = read(rt.alloc(), text.as_bytes()) else {
        return false;
    };
    match RunLimits::new(Some(clients), Some(loops), None, places, clients) {
        Some(sizes) => serve_at(rt, config, doors, sizes).is_ok(),
        None => false,
    }
}

// Says whether both ended well.
fn serve_between<
    R: Net<Listener = TcpListener, Stream = TcpStream>
        + Clock
        + Print
        + Eprint
        + AllocGlobal
        + Threads
        + Wait
        + Sync
        + Copy
        + Send
        + 'static,
>(rt: &R, text: &str, near: TcpListener, far: &TcpListener, row: &Row) -> bool {
    let (answers, answer, order) = (row.answers, row.answer, row.order);
    let (clients, places) = (row.clients, row.places);
    thread::scope(thread::scope_env(), rt, |scope| {
        let answering = scope
            .spawn(move || answer_in(order, far, answers, answer))
            .ok();
        let ended = serve_text(rt, text, near, clients, places);
        match answering {
            Some(handle) => handle.join(rt) && ended,
            None => false,
        }
    })
}

fn play<
    R: Net<Listener = TcpListener, Stream = TcpStream>
        + Clock
        + Print
        + Eprint
        + AllocGlobal
        + Threads
        + Wait
        + Abort
        + Sync
        + Copy
        + Send
        + 'static,
>(rt: &R, row: &Row) {
    let alloc = rt.alloc();
    let host = row.host;
    let far = listening(rt, host);
    let near = listening(rt, NUMBERS);
    let port = port_of(rt, &far);
    let settings = row.settings;
    let text = format!(in alloc;
        "listen w\n bind :1\n{settings} server none 127.0.0.1:1 weight 0\n server it {host}:{port} maxconn 2\n"
    ).expect(rt, "memory");
    let proxy = near.local_addr().expect(rt, "the proxy's address");
    let mut clients = come(rt, alloc, proxy, row);
    assert!(rt; serve_between(rt, text.as_str(), near, &far, row));
    for client in clients.iter_mut() {
        gets(rt, alloc, client, row.gets);
    }
}

fn listening<R: Net<Listener = TcpListener, Stream = TcpStream> + Abort>(
    rt: &R,
    host: &str,
) -> TcpListener {
    TcpListener::bind(rt, (host, 0)).expect(rt, "a listener")
}

fn port_of(rt: &impl Abort, listener: &TcpListener) -> u16 {
    listener.local_addr().expect(rt, "an address").port()
}

// Checks that the client gets this, and then the end.
fn gets(rt: &impl Abort, alloc: Global, client: &mut TcpStream, expected: &[u8]) {
    let mut got = Vec::new(alloc);
    client.read_to_end(&mut got).expect(rt, "an end");
    assert_eq!(rt; got.as_slice(), expected);
}

#[test]
fn one_request(rt: HostRuntime) {
    let row = Row {
        settings: "",
        host: NUMBERS,
        clients: 1,
        says: REQUEST,
        gets: ANSWER,
        answer: WHOLE,
        answers: 1,
        order: Order::Together,
        places: 8,
    };
    play(&rt, &row);
}

#[test]
fn two_at_once(rt: HostRuntime) {
    let row = Row {
        settings: " timeout server 5s\n",
        host: NUMBERS,
        clients: 2,
        says: REQUEST,
        gets: ANSWER,
        answer: WHOLE,
        answers: 2,
        order: Order::Together,
        places: 8,
    };
    play(&rt, &row);
}

#[test]
fn a_silent_server_is_a_bad_gateway(rt: HostRuntime) {
    let row = Row {
        settings: " timeout server 50ms\n",
        host: NUMBERS,
        clients: 1,
        says: REQUEST,
        gets: b"HTTP/1.1 502 Bad Gateway\r\nContent-Length: 0\r\nConnection: close\r\n\r\n",
        answer: WHOLE,
        answers: 0,
        order: Order::Together,
        places: 8,
    };
    play(&rt, &row);
}

#[test]
fn a_part_of_an_answer_is_handed_on_while_its_server_pauses(rt: HostRuntime) {
    let row = Row {
        settings: " timeout server 500ms\n",
        host: NUMBERS,
        clients: 1,
        says: REQUEST,
        gets: b"HTTP/1.1 200 OK\r\nContent-Length: 2\r\nConnection: close\r\n\r\nh",
        answer: b"HTTP/1.1 200 OK\r\nContent-Length: 2\r\n\r\nh",
        answers: 1,
        order: Order::Together,
        places: 8,
    };
    play(&rt, &row);
}

#[test]
fn a_silent_client_gets_nothing(rt: HostRuntime) {
    let row = Row {
        settings: " timeout client 50ms\n",
        host: NUMBERS,
        clients: 1,
        says: b"",
        gets: b"",
        answer: WHOLE,
        answers: 0,
        order: Order::Together,
        places: 8,
    };
    play(&rt, &row);
}

#[test]
fn two_clients_share_one_place(rt: HostRuntime) {
    let row = Row {
        settings: "",
        host: NUMBERS,
        clients: 2,
        says: REQUEST,
        gets: ANSWER,
        answer: WHOLE,
        answers: 2,
        order: Order::InTurn,
        places: 1,
    };
    play(&rt, &row);
}

#[test]
fn leave_is_given_where_the_body_came_with_its_head(rt: HostRuntime) {
    let row = Row {
        settings: "",
        host: NUMBERS,
        clients: 1,
        says: b"PUT / HTTP/1.1\r\nHost: h\r\nExpect: 100-continue\r\nContent-Length: 2\r\n\r\nab",
        gets: b"HTTP/1.1 100 Continue\r\n\r\nHTTP/1.1 200 OK\r\nContent-Length: 2\r\nConnection: close\r\n\r\nhi",
        answer: WHOLE,
        answers: 1,
        order: Order::InTurn,
        places: 8,
    };
    play(&rt, &row);
}

#[test]
fn a_head_that_stays_a_part_is_a_bad_request(rt: HostRuntime) {
    let row = Row {
        settings: " timeout client 50ms\n",
        host: NUMBERS,
        clients: 1,
        says: b"GET / HTTP/1.1\r\n",
        gets: b"HTTP/1.1 400 Bad Request\r\nContent-Length: 0\r\nConnection: close\r\n\r\n",
        answer: WHOLE,
        answers: 0,
        order: Order::Together,
        places: 8,
    };
    play(&rt, &row);
}

#[test]
fn an_answer_before_the_body_is_whole_is_handed_on(rt: HostRuntime) {
    let row = Row {
        settings: "",
        host: NUMBERS,
        clients: 2,
        says: b"PUT / HTTP/1.1\r\nHost: h\r\nContent-Length: 100\r\n\r\nab",
        gets: ANSWER,
        answer: WHOLE,
        answers: 2,
        order: Order::InTurn,
        places: 8,
    };
    play(&rt, &row);
}

#[test]
fn a_second_request_behind_the_first_cuts_no_answer(rt: HostRuntime) {
    let row = Row {
        settings: "",
        host: NUMBERS,
        clients: 1,
        says: b"GET / HTTP/1.1\r\nHost: h\r\n\r\nGET / HTTP/1.1\r\nHost: h\r\n\r\n",
        gets: ANSWER,
        answer: WHOLE,
        answers: 1,
        order: Order::InTurn,
        places: 8,
    };
    play(&rt, &row);
}

#[test]
fn a_server_has_a_name(rt: HostRuntime) {
    let row = Row {
        settings: "",
        host: "localhost",
        clients: 2,
        says: REQUEST,
        gets: ANSWER,
        answer: WHOLE,
        answers: 2,
        order: Order::InTurn,
        places: 8,
    };
    play(&rt, &row);
}

#[test]
fn a_look_up_that_hangs_holds_up_neither_start_nor_end(rt: HostRuntime) {
    let row = Row {
        settings: " server far a.name:80 weight 0\n",
        host: NUMBERS,
        clients: 1,
        says: REQUEST,
        gets: ANSWER,
        answer: WHOLE,
        answers: 1,
        order: Order::InTurn,
        places: 8,
    };
    play(&Faked::hanging(rt), &row);
}
