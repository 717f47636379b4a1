//! Explanations of faulty lines: the cause in a sentence, and the replacement for HAProxy's
//! keywords that the profile leaves out.

use proxy_config::FaultCause;

/// Returns the sentence for a cause, of a line that begins with this word.
pub(crate) fn sentence(cause: FaultCause, first: &[u8]) -> &'static str {
    match cause {
        FaultCause::Quoting =>
            "Quotes and backslashes have no meaning here, and can't stand before a comment.",
        FaultCause::Section => "Of sections there are global, defaults and one listen.",
        FaultCause::Keyword => "This word isn't one that can stand here.",
        FaultCause::Place => "This line can't stand in this section.",
        FaultCause::Words => "The line has too few words, or one too many.",
        FaultCause::Number => "This isn't a number or a time, or it is out of range.",
        FaultCause::Address if is(first, "bind") =>
            "This isn't an address to listen at: *:PORT, :PORT or four numbers and a PORT.",
        FaultCause::Address => "This isn't an address: HOST:PORT or four numbers and a PORT.",
        FaultCause::Name => "This isn't a name: 1 to 32 letters, digits, -, _, . and :.",
        FaultCause::Twice => "This stands there already.",
        FaultCause::Unknown => "No ACL or no server of this name is declared.",
        FaultCause::Condition => "This isn't a condition, a test or an expression of the profile.",
        FaultCause::Missing => "The listen lacks a bind or a server, or there is no listen.",
        FaultCause::Limit =>
            "This is one server, ACL line or rule too many, or the file is too long.",
    }
}

/// HAProxy's keywords that the profile leaves out, and their replacements.
const KEYWORDS: [(&str, &str); 34] = [
    (
        "errorfile",
        "Leave it out: what the proxy says itself has no body.",
    ),
    (
        "errorloc",
        "Leave it out: what the proxy says itself has no body.",
    ),
    (
        "frontend",
        "Put what stands in frontend and backend into one listen, bind and server lines together.",
    ),
    (
        "backend",
        "Put what stands in frontend and backend into one listen, bind and server lines together.",
    ),
    (
        "cache",
        "Leave it out with all its lines: no answer is kept.",
    ),
    (
        "peers",
        "Leave it out with all its lines: proxies share nothing.",
    ),
    (
        "resolvers",
        "Leave it out with all its lines: names are looked up as the system does.",
    ),
    (
        "userlist",
        "Leave it out with all its lines: nobody is asked for a password.",
    ),
    (
        "program",
        "Leave it out with all its lines: no other program is started.",
    ),
    (
        "default_backend",
        "Leave it out: all servers stand in the one listen.",
    ),
    (
        "use_backend",
        "Leave it out, or bind requests to a server by use-server and an acl.",
    ),
    (
        "default-server",
        "Write these settings on each server line.",
    ),
    (
        "maxconn",
        "Leave it out: maxconn stands on server lines, and --places bounds the live requests.",
    ),
    (
        "fullconn",
        "Leave it out: a server's maxconn is its limit, however many wait.",
    ),
    (
        "cookie",
        "Leave it out, or bind requests to a server by use-server and an acl.",
    ),
    (
        "stick-table",
        "Leave it out: no request is bound to a server by those before it.",
    ),
    (
        "stick",
        "Leave it out: no request is bound to a server by those before it.",
    ),
    ("stats", "Leave it out: there are no pages of statistics."),
    (
        "monitor-uri",
        "Leave it out: there is no page that monitors ask for.",
    ),
    ("dispatch", "Write it as a server."),
    ("redirect", "Leave it out, or let the server answer so."),
    ("reqadd", "Leave it out: heads are handed on as they came."),
    ("rspadd", "Leave it out: heads are handed on as they came."),
    (
        "http-response",
        "Leave it out: heads are handed on as they came.",
    ),
    (
        "http-after-response",
        "Leave it out: heads are handed on as they came.",
    ),
    (
        "tcp-request",
        "Leave it out: only http-request is there, for the class and the offset.",
    ),
    (
        "http-check",
        "Leave it out: a check is a connection that is taken.",
    ),
    (
        "capture",
        "Leave it out: run --access-log has a format of its own.",
    ),
    (
        "log-format",
        "Leave it out: run --access-log has a format of its own.",
    ),
    (
        "compression",
        "Leave it out: bodies are handed on as they came.",
    ),
    ("filter", "Leave it out: bodies are handed on as they came."),
    ("hash-type", "Leave it out: balance is leastconn."),
    (
        "source",
        "Leave it out: connections begin at the address that the system chooses.",
    ),
    (
        "backlog",
        "Leave it out: it is as long as the system allows.",
    ),
];

/// The same for the words after `option`.
const OPTIONS: [(&str, &str); 11] = [
    (
        "forwardfor",
        "Leave it out: run --forwarded-for adds the field that names the client.",
    ),
    (
        "httpclose",
        "Leave it out: it is so, unless run has --keep-alive.",
    ),
    (
        "http-server-close",
        "Leave it out: run --keep-alive keeps connections of clients.",
    ),
    (
        "forceclose",
        "Leave it out: it is so, unless run has --keep-alive.",
    ),
    (
        "http-keep-alive",
        "Leave it out: run --keep-alive keeps connections of clients.",
    ),
    (
        "httpchk",
        "Leave it out: a check is a connection that is taken.",
    ),
    (
        "tcplog",
        "Leave it out: run --access-log has a format of its own.",
    ),
    (
        "log-health-checks",
        "Leave it out: run --event-log tells which server is down.",
    ),
    (
        "persist",
        "Leave it out: a server that is down takes no request.",
    ),
    (
        "allbackups",
        "Leave it out: there are no backup servers, but weight 0 takes pinned requests alone.",
    ),
    (
        "transparent",
        "Leave it out: requests go to the servers that are declared.",
    ),
];

/// The same for the words after `http-request`.
const ACTIONS: [(&str, &str); 6] = [
    (
        "deny",
        "No rule refuses requests: that has to be done before the proxy or by the servers.",
    ),
    (
        "auth",
        "No rule refuses requests: that has to be done before the proxy or by the servers.",
    ),
    ("redirect", "Leave it out, or let the server answer so."),
    (
        "set-header",
        "Leave it out: heads are handed on as they came.",
    ),
    (
        "add-header",
        "Leave it out: heads are handed on as they came.",
    ),
    (
        "del-header",
        "Leave it out: heads are handed on as they came.",
    ),
];

/// Lines that may stand only once or need a name of their own.
const REPEATED: [(&str, &str); 3] = [
    (
        "listen",
        "Put both into one listen, or run one proxy for each.",
    ),
    (
        "bind",
        "Leave it out, or run one proxy for each address: there is one bind.",
    ),
    (
        "server",
        "Give it another name: each server has one of its own.",
    ),
];

/// The tests, conditions and expressions that the profile has.
const TESTS: [(&str, &str); 3] = [
    (
        "acl",
        "Of tests there are path, path_beg, path_end, method and hdr(FIELD).",
    ),
    (
        "http-request",
        "Of expressions there are int(N) and req.hdr_val(FIELD); behind if or unless stand ACLs and tests in braces.",
    ),
    (
        "use-server",
        "Behind if or unless stand ACLs and tests in braces.",
    ),
];

/// Words that are one of several in HAProxy, and those of them that the profile has.
const CHOICES: [(&str, &str); 7] = [
    (
        "option",
        "Of options there are redispatch, abortonclose, httplog and dontlognull.",
    ),
    (
        "timeout",
        "Of times there are queue, connect, client and server.",
    ),
    (
        "balance",
        "leastconn is the only one: the least load by weight.",
    ),
    ("mode", "http is the only one."),
    (
        "listen",
        "Behind its name nothing stands: the address goes into a bind line.",
    ),
    (
        "server",
        "Of settings there are weight, maxconn, maxqueue, check, inter, rise and fall.",
    ),
    (
        "http-request",
        "Of actions there are set-priority-class and set-priority-offset.",
    ),
];

/// Returns the replacement for a line that begins with these words, or what the profile has where there is none.
pub(crate) fn advice(
    cause: FaultCause,
    first: &[u8],
    second: &[u8],
    at_fault: &[u8],
) -> Option<&'static str> {
    let special = advice_behind(first, second);
    if special.is_some() {
        return special;
    }
    if is(first, "bind") && cause == FaultCause::Address {
        return Some(
            "Write the host in numbers: bind 127.0.0.1:8080 for this machine alone, bind *:8080 for every address of it.",
        );
    }
    if is(first, "bind") && !is(at_fault, "bind") {
        return Some(
            "Of a bind only the address is there: TLS ends before the proxy, and ssl, crt and other words go.",
        );
    }
    if let Some(advice) = found(&KEYWORDS, first) {
        return Some(advice);
    }
    match cause {
        FaultCause::Keyword | FaultCause::Words => found(&CHOICES, first),
        FaultCause::Section | FaultCause::Twice => found(&REPEATED, first),
        FaultCause::Condition => found(&TESTS, first),
        FaultCause::Address if is(first, "server") => Some(
            "A server's address has its port behind it.",
        ),
        _ => None,
    }
}

/// Says whether a line that begins so is one of HAProxy's that the profile leaves out.
pub(crate) fn has_own_advice(first: &[u8], second: &[u8]) -> bool {
    advice_behind(first, second).is_some() || found(&KEYWORDS, first).is_some()
}

// Returns the replacement for an option or an action.
fn advice_behind(first: &[u8], second: &[u8]) -> Option<&'static str> {
    if is(first, "option") {
        found(&OPTIONS, second)
    } else if is(first, "http-request") {
        found(&ACTIONS, second)
    } else {
        None
    }
}

fn found(rows: &[(&'static str, &'static str)], word: &[u8]) -> Option<&'static str> {
    for (name, advice) in rows {
        if is(word, name) {
            return Some(*advice);
        }
    }
    None
}

fn is(word: &[u8], name: &str) -> bool {
    word == name.as_bytes()
}
