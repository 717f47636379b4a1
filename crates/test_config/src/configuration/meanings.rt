use super::*;

/// A server's address: an IPv4 address or a name.
enum HostRow {
    Ip([u8; 4]),
    Name(&'static [u8]),
}

struct ServerRow {
    name: &'static [u8],
    host: HostRow,
    port: u16,
    maxconn: u32,
    maxqueue: u32,
    weight: u32,
    check: Option<Checks>,
}

/// A file with one server, and the settings that it describes.
struct SettingsRow {
    name: &'static str,
    file: &'static [u8],
    bind: Bind,
    retries: u32,
    redispatch: bool,
    abortonclose: bool,
    /// The timeouts of the queue, of a connect, of a client and of a server.
    timeouts: [Option<u64>; 4],
    server: ServerRow,
}

static SETTINGS: [SettingsRow; 6] = [
    SettingsRow {
        name: "a time is rounded up and the rest is built in",
        file: b"global\n\
\x20 daemon \"x\"\n\
defaults\n\
\x20 timeout queue 1500us\n\
listen web\n\
\x20 bind 127.0.0.1:8080\n\
\x20 server a 127.0.0.1:9001 maxconn 1 check\n",
        bind: Bind {
            ip: Some([127, 0, 0, 1]),
            port: 8080,
        },
        retries: 3,
        redispatch: false,
        abortonclose: false,
        timeouts: [Some(2), None, None, None],
        server: ServerRow {
            name: b"a",
            host: HostRow::Ip([127, 0, 0, 1]),
            port: 9001,
            maxconn: 1,
            maxqueue: 0,
            weight: 1,
            check: Some(Checks {
                inter: 2000,
                rise: 2,
                fall: 3,
            }),
        },
    },
    SettingsRow {
        name: "of a repeated setting the last stands",
        file: b"listen w\n\
bind :80\n\
server a h:80 maxconn 2 maxconn 3 # x",
        bind: Bind { ip: None, port: 80 },
        retries: 3,
        redispatch: false,
        abortonclose: false,
        timeouts: [None, None, None, None],
        server: ServerRow {
            name: b"a",
            host: HostRow::Name(b"h"),
            port: 80,
            maxconn: 3,
            maxqueue: 0,
            weight: 1,
            check: None,
        },
    },
    SettingsRow {
        name: "settings stand in any order",
        file: b"listen w\r\n\
bind *:1\r\n\
server a 01.2.3.004:00080 fall 9 rise 8 inter 1us check maxqueue 7 weight 256\r\n",
        bind: Bind { ip: None, port: 1 },
        retries: 3,
        redispatch: false,
        abortonclose: false,
        timeouts: [None, None, None, None],
        server: ServerRow {
            name: b"a",
            host: HostRow::Ip([1, 2, 3, 4]),
            port: 80,
            maxconn: 0,
            maxqueue: 7,
            weight: 256,
            check: Some(Checks {
                inter: 1,
                rise: 8,
                fall: 9,
            }),
        },
    },
    SettingsRow {
        name: "listen takes the values of defaults",
        file: b"defaults\n\
retries 9\n\
option abortonclose\n\
defaults x\n\
retries 5\n\
option redispatch\n\
timeout connect 4s\n\
timeout queue 3\n\
listen w\n\
timeout queue 0\n\
bind :80\n\
server a h:80\n\
defaults\n\
retries 1\n",
        bind: Bind { ip: None, port: 80 },
        retries: 5,
        redispatch: true,
        abortonclose: false,
        timeouts: [Some(4000), Some(4000), None, None],
        server: ServerRow {
            name: b"a",
            host: HostRow::Name(b"h"),
            port: 80,
            maxconn: 0,
            maxqueue: 0,
            weight: 1,
            check: None,
        },
    },
    SettingsRow {
        name: "each timeout is kept",
        file: b"defaults\n\
timeout connect 4s\n\
timeout client 5s\n\
listen w\n\
bind :80\n\
server a h:80\n\
timeout server 6s\n",
        bind: Bind { ip: None, port: 80 },
        retries: 3,
        redispatch: false,
        abortonclose: false,
        timeouts: [Some(4000), Some(4000), Some(5000), Some(6000)],
        server: ServerRow {
            name: b"a",
            host: HostRow::Name(b"h"),
            port: 80,
            maxconn: 0,
            maxqueue: 0,
            weight: 1,
            check: None,
        },
    },
    SettingsRow {
        name: "no timeout is no limit",
        file: b"listen w\n\
bind :80\n\
server a h:80\n\
timeout queue 0\n\
timeout connect 0\n",
        bind: Bind { ip: None, port: 80 },
        retries: 3,
        redispatch: false,
        abortonclose: false,
        timeouts: [None, None, None, None],
        server: ServerRow {
            name: b"a",
            host: HostRow::Name(b"h"),
            port: 80,
            maxconn: 0,
            maxqueue: 0,
            weight: 1,
            check: None,
        },
    },
];

fn has_settings(rt: &impl Abort, config: &Config, row: &SettingsRow) {
    holds(rt, config.bind == row.bind, row.name, "bind");
    holds(rt, config.retries == row.retries, row.name, "retries");
    let redispatch = config.redispatch == row.redispatch;
    holds(rt, redispatch, row.name, "redispatch");
    let abortonclose = config.abortonclose == row.abortonclose;
    holds(rt, abortonclose, row.name, "abortonclose");
    let timeouts = [
        config.queue_timeout,
        config.connect_timeout,
        config.client_timeout,
        config.server_timeout,
    ];
    holds(rt, timeouts == row.timeouts, row.name, "timeouts");
}

fn is_host(host: &Host, row: &HostRow) -> bool {
    match (host, row) {
        (Host::Ip(ip), HostRow::Ip(expected)) => ip == expected,
        (Host::Name(host), HostRow::Name(expected)) => host.as_slice() == *expected,
        _ => false,
    }
}

fn is_server(rt: &impl Abort, server: &Server, row: &ServerRow, name: &str) {
    let host = is_host(&server.address.host, &row.host);
    holds(rt, host && server.address.port == row.port, name, "address");
    holds(rt, server.name.as_slice() == row.name, name, "name");
    let limits = server.maxconn == row.maxconn && server.maxqueue == row.maxqueue;
    holds(rt, limits && server.weight == row.weight, name, "numbers");
    holds(rt, server.check == row.check, name, "checks");
}

fn has_server(rt: &impl Abort, servers: &[Server], row: &SettingsRow) {
    let [server] = servers else {
        panic!(rt; "not one server: {}", row.name);
    };
    is_server(rt, server, &row.server, row.name);
}

fn means_what_it_says(rt: &impl Abort, alloc: Global, row: &SettingsRow) {
    let config = read(alloc, row.file).expect(rt, row.name);
    has_settings(rt, &config, row);
    has_server(rt, config.servers.as_slice(), row);
    drop(config);
}

#[test]
fn settings_mean_what_they_say(rt: HostRuntime) {
    for row in &SETTINGS {
        means_what_it_says(&rt, rt.alloc(), row);
    }
}
