//! Tests of conversions from HAProxy's configurations to this proxy's.

use crate::assertions::holds;
use crate::texts::reads;
use config_convert::{Conversion, Unconverted, convert, push_note, status_of};
use std::alloc::Global;
use std::process::Abort;

/// A configuration of HAProxy with the named sections, the exit status, and the output and its
/// notes, or the reason why there is none.
struct Row {
    file: &'static str,
    frontend: Option<&'static str>,
    backend: Option<&'static str>,
    status: u8,
    text: &'static str,
    notes: &'static str,
}

const PAIR: &str = "\
defaults
  mode http
  timeout connect 2s
frontend f
  bind 127.0.0.1:80
  option forwardfor
  default_backend b
backend b
  balance leastconn
  server a h:1
";

static ROWS: [Row; 7] = [
    Row {
        file: "listen w\n mode http\n balance leastconn\n bind :80\n server a h:1 maxconn 3\n",
        frontend: None,
        backend: None,
        status: 0,
        text: "\
listen w
    mode http
    balance leastconn
    bind *:80
    server a h:1 maxconn 3
",
        notes: "",
    },
    Row {
        file: "listen w\n mode http\n balance leastconn\n bind :80\n default-server backup\n server a h:1\n server b h:2\n server c h:3 disabled\n",
        frontend: None,
        backend: None,
        status: 6,
        text: "\
listen w
    mode http
    balance leastconn
    bind *:80
    server a h:1
    server b h:2
    # server c h:3 disabled
    #   It would have been in maintenance from the start.
",
        notes: "line 7: server .. backup: It would have served where those before it are down: here all of them serve.\n",
    },
    Row {
        file: "defaults one\n mode http\n timeout queue 3s\ndefaults two from one\n timeout connect 2s\nlisten w from two\n balance leastconn\n bind :80\n server a h:1\n",
        frontend: None,
        backend: None,
        status: 0,
        text: "\
listen w
    mode http
    balance leastconn
    timeout queue 3s
    timeout connect 2s
    bind *:80
    server a h:1
",
        notes: "",
    },
    Row {
        file: PAIR,
        frontend: None,
        backend: None,
        status: 6,
        text: "\
listen f
    mode http
    balance leastconn
    timeout connect 2s
    bind 127.0.0.1:80
    # option forwardfor
    #   Each request would have had a field that names its client: run --forwarded-for adds X-Forwarded-For, always and under this name.
    # default_backend b
    #   Its servers stand below.
    server a h:1
",
        notes: "line 6: option forwardfor: Each request would have had a field that names its client: run --forwarded-for adds X-Forwarded-For, always and under this name.\n",
    },
    Row {
        file: PAIR,
        frontend: Some("zz"),
        backend: None,
        status: 3,
        text: "",
        notes: "no listen comes of it: no frontend or listen is named zz; there are: f",
    },
    Row {
        file: PAIR,
        frontend: None,
        backend: Some("zz"),
        status: 3,
        text: "",
        notes: "no listen comes of it: no backend is named zz; there are: b",
    },
    Row {
        file: "",
        frontend: None,
        backend: None,
        status: 3,
        text: "",
        notes: "no listen comes of it: no frontend of HTTP has a default_backend, and no listen a server; there are: none",
    },
];

fn notes_of(rt: &impl Abort, alloc: Global, made: &Conversion) -> String {
    let mut text = String::new(alloc);
    for note in &made.notes {
        push_note(&mut text, note).expect(rt, "memory");
    }
    text
}

fn is_converted(rt: &impl Abort, alloc: Global, row: &Row) {
    let converted = convert(alloc, row.file.as_bytes(), row.frontend, row.backend);
    holds(rt, status_of(&converted) == row.status, "status", row.notes);
    match converted {
        Ok(made) => {
            let so = made.text.as_slice() == row.text.as_bytes();
            holds(rt, so, "text", row.text);
            reads(rt, notes_of(rt, alloc, &made), "notes", row.notes);
        }
        Err(why) => is_told(rt, alloc, &why, row.notes),
    }
}

fn is_told(rt: &impl Abort, alloc: Global, why: &Unconverted, text: &str) {
    let said = format!(in alloc; "{why}").expect(rt, "memory");
    reads(rt, said, "why", text);
}

#[test]
fn a_configuration_of_haproxys_is_converted_or_refused(rt: HostRuntime) {
    for row in &ROWS {
        is_converted(&rt, rt.alloc(), row);
    }
}

static QUEUE: Row = Row {
    file: "\
frontend f
  mode http
  bind :80
  timeout client 4s
  timeout queue 9s
  default_backend b
backend b
  mode http
  balance leastconn
  timeout queue 3s
  timeout client 8s
  server a h:1
",
    frontend: None,
    backend: None,
    status: 0,
    text: "\
listen f
    mode http
    balance leastconn
    bind *:80
    timeout client 4s
    # default_backend b
    #   Its servers stand below.
    timeout queue 3s
    server a h:1
",
    notes: "",
};

#[test]
fn a_queue_timeout_is_a_backends(rt: HostRuntime) {
    is_converted(&rt, rt.alloc(), &QUEUE);
}

static DEFAULTS: Row = Row {
    file: "\
defaults
  mode http
  timeout connect 2s
defaults
  mode http
  timeout connect 7s
listen w
  balance leastconn
  bind :80
  server a h:1
defaults
  mode http
  timeout connect 9s
",
    frontend: None,
    backend: None,
    status: 0,
    text: "\
listen w
    mode http
    balance leastconn
    timeout connect 7s
    bind *:80
    server a h:1
",
    notes: "",
};

#[test]
fn a_section_inherits_from_the_last_defaults_before_it(rt: HostRuntime) {
    is_converted(&rt, rt.alloc(), &DEFAULTS);
}

static SERVERS_DEFAULTS: Row = Row {
    file: "\
listen w
  mode http
  balance leastconn
  bind :80
  default-server maxconn 10 weight 7
  server a h:1 maxconn 3
  server b h:2
  default-server maxconn 20
  server c h:3 weight 9
",
    frontend: None,
    backend: None,
    status: 0,
    text: "\
listen w
    mode http
    balance leastconn
    bind *:80
    server a h:1 weight 7 maxconn 3
    server b h:2 weight 7 maxconn 10
    server c h:3 weight 9 maxconn 20
",
    notes: "",
};

#[test]
fn a_servers_own_words_hold_before_those_of_default_server(rt: HostRuntime) {
    is_converted(&rt, rt.alloc(), &SERVERS_DEFAULTS);
}

static METHODS: Row = Row {
    file: "\
listen w
  mode http
  balance leastconn
  bind :80
  acl m method -i GET POST
  acl n method -i get
  acl p path -i /A
  http-request set-priority-class int(1) if m
  http-request set-priority-class int(3) if p
  server a h:1
",
    frontend: None,
    backend: None,
    status: 0,
    text: "\
listen w
    mode http
    balance leastconn
    bind *:80
    acl m method GET POST
    # acl n method -i get
    #   Its test isn't there, so rules that name it are left out too.
    acl p path -i /A
    http-request set-priority-class int(1) if m
    http-request set-priority-class int(3) if p
    server a h:1
",
    notes: "",
};

#[test]
fn a_method_is_compared_with_its_case(rt: HostRuntime) {
    is_converted(&rt, rt.alloc(), &METHODS);
}

const TWO_BACKENDS: &str = "\
frontend f
  mode http
  bind :80
  acl x path /x
  use_backend b if x
  default_backend c
backend b
  balance leastconn
  mode http
  server a h:1
backend c
  mode http
  server d h:2
";

static CHOSEN: [Row; 2] = [
    Row {
        file: TWO_BACKENDS,
        frontend: None,
        backend: Some("b"),
        status: 6,
        text: "\
listen f
    mode http
    balance leastconn
    bind *:80
    acl x path /x
    # use_backend b if x
    #   Requests for which its condition doesn't hold would not have come to these servers: here they do.
    # default_backend c
    #   Its requests would have gone to another backend's servers: here they go to those below.
    server a h:1
",
        notes: "\
line 5: use_backend b: Requests for which its condition doesn't hold would not have come to these servers: here they do.
line 6: default_backend c: Its requests would have gone to another backend's servers: here they go to those below.
",
    },
    Row {
        file: "frontend f\n mode http\n bind :80\n acl x path /x\n use_backend b if x\n default_backend b\nbackend b\n balance leastconn\n mode http\n server a h:1\n",
        frontend: None,
        backend: None,
        status: 0,
        text: "\
listen f
    mode http
    balance leastconn
    bind *:80
    acl x path /x
    # use_backend b if x
    #   Its servers stand below.
    # default_backend b
    #   Its servers stand below.
    server a h:1
",
        notes: "",
    },
];

#[test]
fn a_condition_counts_where_other_requests_have_another_backend(rt: HostRuntime) {
    for row in &CHOSEN {
        is_converted(&rt, rt.alloc(), row);
    }
}
