use crate::assertions::same;
use log_entries::ServerSet;
use log_texts::{Line, Name, read, step_in};

/// A script, the number of its header lines, and their settings without the servers.
struct Said {
    script: &'static str,
    lines: usize,
    places: Option<usize>,
    log: Option<usize>,
    retries: Option<u32>,
    redispatch: bool,
    queue_timeout: Option<u64>,
}

const WITH_SERVERS: &str =
    "server b 2 3 4\nplaces 7\nplaces 8\nserver a 0 0 0 2 3\n\n0 arrive 0 0 a\n";

static SAID: [Said; 3] = [
    Said {
        script: WITH_SERVERS,
        lines: 5,
        places: Some(8),
        log: None,
        retries: None,
        redispatch: false,
        queue_timeout: None,
    },
    // Where a word is repeated its last line counts.
    Said {
        script: "retries 5\nqueue-timeout 10\nredispatch\nretries 0\nredispatch\nqueue-timeout 07\nlog 9\n",
        lines: 7,
        places: None,
        log: Some(9),
        retries: Some(0),
        redispatch: true,
        queue_timeout: Some(7),
    },
    // A word without a line isn't set.
    Said {
        script: "places 8\n0 tick\n",
        lines: 1,
        places: Some(8),
        log: None,
        retries: None,
        redispatch: false,
        queue_timeout: None,
    },
];

#[test]
fn a_header_says_what_its_lines_say(rt: HostRuntime) {
    for said in &SAID {
        let script = said.script;
        let (header, lines) = read(rt.alloc(), script.as_bytes()).expect(&rt, script);
        same(
            &rt,
            (script, lines, header.places(), header.log()),
            (script, said.lines, said.places, said.log),
        );
        same(
            &rt,
            (
                script,
                header.retries(),
                header.redispatch(),
                header.queue_timeout(),
            ),
            (script, said.retries, said.redispatch, said.queue_timeout),
        );
    }
}

static SERVERS: [ServerSet; 2] = [
    ServerSet {
        limit: 2,
        maxqueue: 3,
        weight: 4,
        rise_fall: None,
    },
    ServerSet {
        limit: 0,
        maxqueue: 0,
        weight: 0,
        rise_fall: Some((2, 3)),
    },
];

#[test]
fn a_header_has_the_servers_of_its_lines(rt: HostRuntime) {
    let (header, _) = read(rt.alloc(), WITH_SERVERS.as_bytes()).expect(&rt, "a header");
    let (names, servers) = header.into_servers();
    same(&rt, servers.as_slice(), SERVERS.as_slice());
    same(&rt, (names.len(), names.of(1)), (2, "a"));
    let name = Name::new(b"a").expect(&rt, "a name");
    let other = Name::new(b"c").expect(&rt, "a name");
    same(
        &rt,
        (names.find(&name), names.find(&other)),
        (Some(1), None),
    );
    same(&rt, (names.number(&other), other.as_str()), (2, "c"));
}

fn kind(line: &Option<Line>) -> &'static str {
    match line {
        Some(Line::Setting(_)) => "setting",
        Some(Line::Step(_)) => "step",
        Some(Line::Skipped) => "skipped",
        None => "none",
    }
}

static KINDS: [(&str, &str); 10] = [
    ("places 3", "setting"),
    (" redispatch\t", "setting"),
    ("0 tick", "step"),
    ("roll", "step"),
    ("", "skipped"),
    (" \t", "skipped"),
    ("# roll", "skipped"),
    (" # roll", "none"),
    ("places", "none"),
    ("tick", "none"),
];

#[test]
fn a_line_is_a_setting_a_step_or_skipped(rt: HostRuntime) {
    for &(line, answer) in &KINDS {
        let found = Line::of(line.as_bytes());
        same(&rt, (line, kind(&found)), (line, answer));
        let is_step = step_in(found).is_some();
        same(&rt, (line, is_step), (line, answer == "step"));
    }
}
