use crate::assertions::holds;
use crate::texts::reads;
use config_advice::{explain, idle_lines};
use config_files::{Checked, status_of};
use proxy_config::{ConfigFault, FaultCause};
use std::alloc::Global;
use std::process::Abort;

/// How a check ended, its line and its exit status.
type EndRow = (Checked, &'static str, u8);

static ENDS: [EndRow; 4] = [
    (Checked::Good(3), "ok servers 3", 0),
    (
        Checked::Faulty(ConfigFault {
            line: 7,
            cause: FaultCause::Keyword,
        }),
        "config line 7: keyword",
        3,
    ),
    (Checked::NoMemory, "no memory", 1),
    (Checked::Unread, "read fault", 1),
];

fn has_line_and_status(rt: &impl Abort, alloc: Global, row: &EndRow) {
    let (checked, line, status) = row;
    let text = format!(in alloc; "{checked}").expect(rt, "memory");
    reads(rt, text, "line", line);
    holds(rt, status_of(*checked) == *status, "status", line);
}

#[test]
fn each_end_has_its_line_and_status(rt: HostRuntime) {
    for row in &ENDS {
        has_line_and_status(&rt, rt.alloc(), row);
    }
}

/// A file, the number of lines that would have to change, whether it has no fault, and the explanation.
struct AdviceRow {
    name: &'static str,
    file: &'static str,
    faulty: usize,
    whole: bool,
    text: &'static str,
}

static ADVICE: [AdviceRow; 9] = [
    AdviceRow {
        name: "each faulty line has its mark and its advice",
        file: "defaults\n\
\x20 errorfile 400 /x\n\
frontend f\n\
\x20 bind :443 ssl\n\
\x20 timeout client 1x\n\
backend b\n\
\x20 server a h:80 cookie c\n\
\x20 mode\n",
        faulty: 7,
        whole: false,
        text: "\
line 2:   errorfile 400 /x
          ^^^^^^^^^
  keyword: This word isn't one that can stand here.
  instead: Leave it out: what the proxy says itself has no body.

line 3: frontend f
        ^^^^^^^^
  section: Of sections there are global, defaults and one listen.
  instead: Put what stands in frontend and backend into one listen, bind and server lines together.

line 4:   bind :443 ssl
                    ^^^
  words: The line has too few words, or one too many.
  instead: Of a bind only the address is there: TLS ends before the proxy, and ssl, crt and other words go.

line 5:   timeout client 1x
                         ^^
  number: This isn't a number or a time, or it is out of range.

line 6: backend b
        ^^^^^^^
  section: Of sections there are global, defaults and one listen.
  instead: Put what stands in frontend and backend into one listen, bind and server lines together.

line 7:   server a h:80 cookie c
                        ^^^^^^
  keyword: This word isn't one that can stand here.
  instead: Of settings there are weight, maxconn, maxqueue, check, inter, rise and fall.

line 8:   mode
              ^
  words: The line has too few words, or one too many.
  instead: http is the only one.

",
    },
    AdviceRow {
        name: "what HAProxy has and the profile leaves out",
        file: "listen w\n\
\x20 bind :80\n\
\x20 option forwardfor\n\
\x20 option httpclose\n\
\x20 default-server inter 3s\n\
\x20 stats enable\n\
\x20 maxconn 2000\n\
\x20 cookie SRV insert\n\
\x20 http-request set-header a \"b\"\n\
\x20 server a h:80\n",
        faulty: 7,
        whole: false,
        text: "\
line 3:   option forwardfor
                 ^^^^^^^^^^
  keyword: This word isn't one that can stand here.
  instead: Leave it out: run --forwarded-for adds the field that names the client.

line 4:   option httpclose
                 ^^^^^^^^^
  keyword: This word isn't one that can stand here.
  instead: Leave it out: it is so, unless run has --keep-alive.

line 5:   default-server inter 3s
          ^^^^^^^^^^^^^^
  keyword: This word isn't one that can stand here.
  instead: Write these settings on each server line.

line 6:   stats enable
          ^^^^^
  keyword: This word isn't one that can stand here.
  instead: Leave it out: there are no pages of statistics.

line 7:   maxconn 2000
          ^^^^^^^
  keyword: This word isn't one that can stand here.
  instead: Leave it out: maxconn stands on server lines, and --places bounds the live requests.

line 8:   cookie SRV insert
          ^^^^^^
  keyword: This word isn't one that can stand here.
  instead: Leave it out, or bind requests to a server by use-server and an acl.

line 9:   http-request set-header a \"b\"
                                    ^^^
  quoting: Quotes and backslashes have no meaning here, and can't stand before a comment.
  instead: Leave it out: heads are handed on as they came.

",
    },
    AdviceRow {
        name: "lines of other sections are read as the listen's, or passed over",
        file: "listen w :80\n\
\x20 bind :80\n\
cache c\n\
\x20 max-age 60\n\
defaults d\n\
\x20 retries 2\n\
backend b\n\
\x20 balance source\n\
\x20 bind :81\n\
\x20 server a h\n",
        faulty: 6,
        whole: false,
        text: "\
line 1: listen w :80
                 ^^^
  words: The line has too few words, or one too many.
  instead: Behind its name nothing stands: the address goes into a bind line.

line 3: cache c
        ^^^^^
  section: Of sections there are global, defaults and one listen.
  instead: Leave it out with all its lines: no answer is kept.

line 7: backend b
        ^^^^^^^
  section: Of sections there are global, defaults and one listen.
  instead: Put what stands in frontend and backend into one listen, bind and server lines together.

line 8:   balance source
                  ^^^^^^
  keyword: This word isn't one that can stand here.
  instead: leastconn is the only one: the least load by weight.

line 9:   bind :81
          ^^^^
  twice: This stands there already.
  instead: Leave it out, or run one proxy for each address: there is one bind.

line 10:   server a h
                    ^
  address: This isn't an address: HOST:PORT or four numbers and a PORT.
  instead: A server's address has its port behind it.

Then the listen lacks a bind or a server.

",
    },
    AdviceRow {
        name: "other causes have their sentences",
        file: "retries 1\n\
frontend f\n\
\x20 bind :80\n\
\x20 server a/b h:80\n\
\x20 acl x src 1.2.3.4\n\
\x20 http-request set-priority-class int(1) if y\n\
\x20 server a h:80\n\
listen w\n",
        faulty: 6,
        whole: false,
        text: "\
line 1: retries 1
        ^^^^^^^
  place: This line can't stand in this section.

line 2: frontend f
        ^^^^^^^^
  section: Of sections there are global, defaults and one listen.
  instead: Put what stands in frontend and backend into one listen, bind and server lines together.

line 4:   server a/b h:80
                 ^^^
  name: This isn't a name: 1 to 32 letters, digits, -, _, . and :.

line 5:   acl x src 1.2.3.4
                ^^^
  condition: This isn't a condition, a test or an expression of the profile.
  instead: Of tests there are path, path_beg, path_end, method and hdr(FIELD).

line 6:   http-request set-priority-class int(1) if y
                                                    ^
  unknown: No ACL or no server of this name is declared.

line 8: listen w
        ^^^^^^
  section: Of sections there are global, defaults and one listen.
  instead: Put both into one listen, or run one proxy for each.

",
    },
    AdviceRow {
        name: "a carriage return that is a word's stays one",
        file: "listen w\r\n bind :80\r\r\nserver a h:80\r",
        faulty: 2,
        whole: false,
        text: "\
line 2:  bind :80?
              ^^^^
  address: This isn't an address to listen at: *:PORT, :PORT or four numbers and a PORT.
  instead: Write the host in numbers: bind 127.0.0.1:8080 for this machine alone, bind *:8080 for every address of it.

line 3: server a h:80?
                 ^^^^^
  address: This isn't an address: HOST:PORT or four numbers and a PORT.
  instead: A server's address has its port behind it.

Then the listen lacks a bind or a server.

",
    },
    AdviceRow {
        name: "the nearest known word is named where HAProxy knows it neither",
        file: "listen w\n\
\x20 bind localhost:80\n\
\x20 serverr a h:80\n\
\x20 timeout qeue 1s\n\
\x20 option tcplog\n\
\x20 server a h:80 maxcon 4\n",
        faulty: 5,
        whole: false,
        text: "\
line 2:   bind localhost:80
               ^^^^^^^^^^^^
  address: This isn't an address to listen at: *:PORT, :PORT or four numbers and a PORT.
  instead: Write the host in numbers: bind 127.0.0.1:8080 for this machine alone, bind *:8080 for every address of it.

line 3:   serverr a h:80
          ^^^^^^^
  keyword: This word isn't one that can stand here.
  Did you mean server?

line 4:   timeout qeue 1s
                  ^^^^
  keyword: This word isn't one that can stand here.
  Did you mean queue?
  instead: Of times there are queue, connect, client and server.

line 5:   option tcplog
                 ^^^^^^
  keyword: This word isn't one that can stand here.
  instead: Leave it out: run --access-log has a format of its own.

line 6:   server a h:80 maxcon 4
                        ^^^^^^
  keyword: This word isn't one that can stand here.
  Did you mean maxconn?
  instead: Of settings there are weight, maxconn, maxqueue, check, inter, rise and fall.

Then the listen lacks a bind or a server.

",
    },
    AdviceRow {
        name: "what is missing is said last: a listen",
        file: "",
        faulty: 0,
        whole: false,
        text: "Then there is no listen.\n\n",
    },
    AdviceRow {
        name: "what is missing is said last: a server",
        file: "listen w\nbind :80\n",
        faulty: 0,
        whole: false,
        text: "Then the listen lacks a bind or a server.\n\n",
    },
    AdviceRow {
        name: "nothing is said of a good file",
        file: "listen w\nbind :80\nserver a h:80\n",
        faulty: 0,
        whole: true,
        text: "",
    },
];

fn is_explained(rt: &impl Abort, alloc: Global, row: &AdviceRow) {
    let explained = explain(alloc, row.file.as_bytes()).expect(rt, "memory");
    holds(rt, explained.faulty == row.faulty, row.name, "how many");
    holds(rt, explained.whole == row.whole, row.name, "whether");
    holds(rt, explained.text.as_str() == row.text, row.name, "text");
}

#[test]
fn a_configuration_is_explained_line_by_line(rt: HostRuntime) {
    for row in &ADVICE {
        is_explained(&rt, rt.alloc(), row);
    }
}

/// A file, and the text about its lines without effect.
type IdleRow = (&'static str, &'static str);

static IDLE: [IdleRow; 3] = [
    (
        "global\n daemon\n daemon # again\n foo\ndefaults\n log global\n option httplog\n option redispatch\nlisten w\n log x\n",
        "\
warning: line 2: daemon in global has no effect: the program stays in the foreground
warning: line 4: foo in global has no effect: nothing in global has one
warning: line 6: log has no effect: no log is sent to a log server
warning: line 7: option httplog has no effect: no log is sent to a log server
",
    ),
    ("defaults\n daemon\n maxconn 4\n", ""),
    (
        "global\n\n # maxconn 3\n maxconn 4",
        "warning: line 4: maxconn in global has no effect: --places of run bounds the live requests\n",
    ),
];

#[test]
fn lines_without_effect_are_named_once(rt: HostRuntime) {
    for (file, text) in &IDLE {
        let said = idle_lines(rt.alloc(), file.as_bytes()).expect(&rt, "memory");
        reads(&rt, said, file, text);
    }
}
