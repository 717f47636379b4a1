//! The effects of HAProxy's keywords that the profile leaves out.

use crate::notes::Weight;

/// How much the lack of a word changes, and what the word would have done.
#[derive(Clone, Copy, Debug)]
pub(crate) struct Fate {
    /// `None` where nothing changes for clients or servers.
    pub(crate) weight: Option<Weight>,
    pub(crate) reason: &'static str,
}

/// Words with the same effect.
struct Row {
    words: &'static [&'static str],
    fate: Fate,
}

/// Settings of a server with this number of words after them.
struct SettingRow {
    words: &'static [&'static str],
    arguments: usize,
    fate: Fate,
}

/// Lines, by their first word.
static KEYWORDS: [Row; 24] = [
    Row {
        words: &[
            "errorfile",
            "errorfiles",
            "errorloc",
            "errorloc302",
            "errorloc303",
            "http-error",
        ],
        fate: Fate {
            weight: Some(Weight::Slight),
            reason: "The proxy's own answers would have had this body: here they have none.",
        },
    },
    Row {
        words: &["cookie"],
        fate: Fate {
            weight: Some(Weight::Marked),
            reason: "Clients would have come back to their server by a cookie: here each request goes where there is room.",
        },
    },
    Row {
        words: &["stick-table", "stick", "appsession", "persist"],
        fate: Fate {
            weight: Some(Weight::Marked),
            reason: "Clients would have come back to their server by a table: here each request goes where there is room.",
        },
    },
    Row {
        words: &["maxconn"],
        fate: Fate {
            weight: Some(Weight::Slight),
            reason: "It would have bounded the clients that are taken: here --places bounds the requests that are served or wait.",
        },
    },
    Row {
        words: &["fullconn"],
        fate: Fate {
            weight: None,
            reason: "It speaks of servers with minconn alone.",
        },
    },
    Row {
        words: &["stats"],
        fate: Fate {
            weight: Some(Weight::Marked),
            reason: "There would have been a page of statistics: here its requests go to the servers.",
        },
    },
    Row {
        words: &["monitor-uri", "monitor-net", "monitor"],
        fate: Fate {
            weight: Some(Weight::Marked),
            reason: "The proxy itself would have answered monitors: here their requests go to the servers.",
        },
    },
    Row {
        words: &["redirect"],
        fate: Fate {
            weight: Some(Weight::Grave),
            reason: "Requests would have been redirected: here they go to the servers.",
        },
    },
    Row {
        words: &["block"],
        fate: Fate {
            weight: Some(Weight::Grave),
            reason: "Requests would have been refused: here they go to the servers.",
        },
    },
    Row {
        words: &["http-response", "http-after-response", "rspadd", "reqadd"],
        fate: Fate {
            weight: Some(Weight::Marked),
            reason: "Heads would have been changed: here they are handed on as they came.",
        },
    },
    Row {
        words: &["tcp-request", "rate-limit"],
        fate: Fate {
            weight: Some(Weight::Grave),
            reason: "Connections would have been looked at, and refused or not, before any request: here all are taken.",
        },
    },
    Row {
        words: &["tcp-response"],
        fate: Fate {
            weight: Some(Weight::Marked),
            reason: "Answers would have been looked at: here they are handed on as they came.",
        },
    },
    Row {
        words: &["http-check", "tcp-check", "external-check"],
        fate: Fate {
            weight: Some(Weight::Marked),
            reason: "Checks would have talked to the servers: here a check is a connection that is taken.",
        },
    },
    Row {
        words: &["dispatch", "use-fcgi-app"],
        fate: Fate {
            weight: Some(Weight::Grave),
            reason: "Requests would have gone there: here they go to the servers.",
        },
    },
    Row {
        words: &["server-template"],
        fate: Fate {
            weight: Some(Weight::Grave),
            reason: "There would have been servers by a name's addresses: write each as a server.",
        },
    },
    Row {
        words: &["unique-id-header", "http-send-name-header"],
        fate: Fate {
            weight: Some(Weight::Marked),
            reason: "Heads would have been changed: here they are handed on as they came.",
        },
    },
    Row {
        words: &["compression", "filter"],
        fate: Fate {
            weight: Some(Weight::Marked),
            reason: "Bodies would have been changed: here they are handed on as they came.",
        },
    },
    Row {
        words: &["source"],
        fate: Fate {
            weight: Some(Weight::Marked),
            reason: "Connections to the servers would have come from this address: here the system chooses one.",
        },
    },
    Row {
        words: &["retry-on"],
        fate: Fate {
            weight: Some(Weight::Slight),
            reason: "It would have chosen after which failures a request is tried again: here, where no byte of it reached the server.",
        },
    },
    Row {
        words: &["email-alert"],
        fate: Fate {
            weight: Some(Weight::Slight),
            reason: "Mail would have told of servers that go up or down.",
        },
    },
    Row {
        words: &[
            "capture",
            "log-format",
            "log-format-sd",
            "log-tag",
            "unique-id-format",
            "error-log-format",
        ],
        fate: Fate {
            weight: None,
            reason: "It speaks of logs alone.",
        },
    },
    Row {
        words: &[
            "id",
            "description",
            "enabled",
            "grace",
            "backlog",
            "bind-process",
            "hash-type",
            "hash-balance-factor",
            "http-reuse",
            "load-server-state-from-file",
            "server-state-file-name",
            "max-keep-alive-queue",
            "max-session-srv-conns",
            "ignore-persist",
            "force-persist",
            "declare",
            "clitcpka-cnt",
            "clitcpka-idle",
            "clitcpka-intvl",
            "srvtcpka-cnt",
            "srvtcpka-idle",
            "srvtcpka-intvl",
        ],
        fate: Fate {
            weight: None,
            reason: "It tunes sockets or memory, and changes no answer.",
        },
    },
    Row {
        words: &["disabled"],
        fate: Fate {
            weight: Some(Weight::Grave),
            reason: "The section would have been switched off: here its servers serve.",
        },
    },
    Row {
        words: &["default_backend"],
        fate: Fate {
            weight: None,
            reason: "Its servers stand below.",
        },
    },
];

/// Lines of `option`, by their second word.
static OPTIONS: [Row; 13] = [
    Row {
        words: &["forwardfor"],
        fate: Fate {
            weight: Some(Weight::Marked),
            reason: "Each request would have had a field that names its client: run --forwarded-for adds X-Forwarded-For, always and under this name.",
        },
    },
    Row {
        words: &["originalto"],
        fate: Fate {
            weight: Some(Weight::Marked),
            reason: "Each request would have had a field that names the address where its client came: here none is added.",
        },
    },
    Row {
        words: &[
            "httpchk",
            "tcp-check",
            "ssl-hello-chk",
            "mysql-check",
            "pgsql-check",
            "ldap-check",
            "redis-check",
            "smtpchk",
            "spop-check",
            "external-check",
        ],
        fate: Fate {
            weight: Some(Weight::Marked),
            reason: "Checks would have talked to the servers: here a check is a connection that is taken.",
        },
    },
    Row {
        words: &["httpclose", "forceclose"],
        fate: Fate {
            weight: None,
            reason: "Each connection carries one request, unless run has --keep-alive.",
        },
    },
    Row {
        words: &[
            "http-server-close",
            "http-keep-alive",
            "http-tunnel",
            "prefer-last-server",
        ],
        fate: Fate {
            weight: Some(Weight::Slight),
            reason: "Clients or servers would have kept their connections: here run --keep-alive keeps those of clients.",
        },
    },
    Row {
        words: &["transparent", "http_proxy"],
        fate: Fate {
            weight: Some(Weight::Grave),
            reason: "Requests would have gone to their own destinations: here they go to the servers.",
        },
    },
    Row {
        words: &["allbackups"],
        fate: Fate {
            weight: None,
            reason: "It speaks of backup servers alone.",
        },
    },
    Row {
        words: &["persist"],
        fate: Fate {
            weight: Some(Weight::Slight),
            reason: "Clients would have gone to their server though it is down: here a server that is down takes none.",
        },
    },
    Row {
        words: &["checkcache"],
        fate: Fate {
            weight: Some(Weight::Marked),
            reason: "Some answers would have been refused: here they are handed on as they came.",
        },
    },
    Row {
        words: &[
            "accept-invalid-http-request",
            "accept-invalid-http-response",
        ],
        fate: Fate {
            weight: Some(Weight::Slight),
            reason: "Heads that break rules would have been taken: here they are refused.",
        },
    },
    Row {
        words: &[
            "tcplog",
            "httpslog",
            "logasap",
            "log-separate-errors",
            "log-health-checks",
            "dontlog-normal",
            "socket-stats",
            "contstats",
            "http-ignore-probes",
        ],
        fate: Fate {
            weight: None,
            reason: "It speaks of logs alone.",
        },
    },
    Row {
        words: &[
            "tcpka",
            "clitcpka",
            "srvtcpka",
            "splice-auto",
            "splice-request",
            "splice-response",
            "tcp-smart-accept",
            "tcp-smart-connect",
            "nolinger",
            "http-no-delay",
            "independent-streams",
            "idle-close-on-response",
            "http-buffer-request",
            "http-pretend-keepalive",
            "http-use-htx",
            "disable-h2-upgrade",
            "h1-case-adjust-bogus-client",
            "h1-case-adjust-bogus-server",
            "http-use-proxy-header",
        ],
        fate: Fate {
            weight: None,
            reason: "It tunes sockets or memory, and changes no answer.",
        },
    },
    Row {
        words: &["http-restrict-req-hdr-names"],
        fate: Fate {
            weight: Some(Weight::Marked),
            reason: "Fields with other names than of letters, digits and - would have been dropped, or their requests refused, unless it says preserve: here they are handed on.",
        },
    },
];

/// Lines of `http-request`, by their second word.
static ACTIONS: [Row; 5] = [
    Row {
        words: &[
            "deny",
            "tarpit",
            "reject",
            "auth",
            "return",
            "redirect",
            "silent-drop",
            "wait-for-body",
            "wait-for-handshake",
            "use-service",
        ],
        fate: Fate {
            weight: Some(Weight::Grave),
            reason: "Requests would have been refused or answered by it: here they go to the servers.",
        },
    },
    Row {
        words: &[
            "set-header",
            "add-header",
            "del-header",
            "replace-header",
            "replace-value",
            "set-path",
            "set-pathq",
            "set-uri",
            "set-query",
            "set-method",
            "replace-path",
            "replace-pathq",
            "replace-uri",
            "normalize-uri",
            "early-hint",
        ],
        fate: Fate {
            weight: Some(Weight::Marked),
            reason: "Heads would have been changed: here they are handed on as they came.",
        },
    },
    Row {
        words: &["set-dst", "set-dst-port", "do-resolve"],
        fate: Fate {
            weight: Some(Weight::Grave),
            reason: "Requests would have gone to another address: here they go to the servers.",
        },
    },
    Row {
        words: &["set-src", "set-src-port"],
        fate: Fate {
            weight: Some(Weight::Marked),
            reason: "Another address of the client would have been taken: here it is the connection's.",
        },
    },
    Row {
        words: &[
            "set-var",
            "set-var-fmt",
            "unset-var",
            "capture",
            "set-log-level",
            "set-nice",
            "set-tos",
            "set-mark",
            "cache-use",
            "track-sc0",
            "track-sc1",
            "track-sc2",
            "sc-inc-gpc0",
            "sc-inc-gpc1",
            "sc-set-gpt0",
            "set-map",
            "add-acl",
            "del-acl",
            "del-map",
            "send-spoe-group",
            "disable-l7-retry",
            "strict-mode",
            "allow",
            "set-timeout",
            "lua",
            "set-bandwidth-limit",
        ],
        fate: Fate {
            weight: Some(Weight::Slight),
            reason: "It changes what other rules see, logs or keeps.",
        },
    },
];

/// Lines of `timeout`, by their second word.
static TIMES: [Row; 5] = [
    Row {
        words: &["http-request"],
        fate: Fate {
            weight: Some(Weight::Slight),
            reason: "The head of a request would have had this long: here a client that is silent for timeout client is gone.",
        },
    },
    Row {
        words: &["http-keep-alive"],
        fate: Fate {
            weight: None,
            reason: "run --keep-alive-timeout says how long a client may stay between two requests.",
        },
    },
    Row {
        words: &["check"],
        fate: Fate {
            weight: Some(Weight::Slight),
            reason: "A check would have had this long for its answer: here it is a connection that is taken.",
        },
    },
    Row {
        words: &["tunnel"],
        fate: Fate {
            weight: Some(Weight::Slight),
            reason: "Tunnels would have had this long: here timeout client and timeout server hold.",
        },
    },
    Row {
        words: &["client-fin", "server-fin", "tarpit"],
        fate: Fate {
            weight: None,
            reason: "It speaks of what isn't there.",
        },
    },
];

/// Settings of a server.
static SETTINGS: [SettingRow; 13] = [
    SettingRow {
        words: &["cookie"],
        arguments: 1,
        fate: Fate {
            weight: Some(Weight::Marked),
            reason: "Clients would have come back to this server by a cookie: here each request goes where there is room.",
        },
    },
    SettingRow {
        words: &["minconn"],
        arguments: 1,
        fate: Fate {
            weight: Some(Weight::Slight),
            reason: "Its limit would have risen with the load up to maxconn: here it is maxconn.",
        },
    },
    SettingRow {
        words: &["slowstart"],
        arguments: 1,
        fate: Fate {
            weight: Some(Weight::Slight),
            reason: "It would have had fewer requests after its return: here it has its limit at once.",
        },
    },
    SettingRow {
        words: &[
            "observe",
            "on-error",
            "error-limit",
            "on-marked-down",
            "on-marked-up",
        ],
        arguments: 1,
        fate: Fate {
            weight: Some(Weight::Slight),
            reason: "Failures of requests would have counted as checks do, or ended sessions.",
        },
    },
    SettingRow {
        words: &["downinter", "fastinter"],
        arguments: 1,
        fate: Fate {
            weight: Some(Weight::Slight),
            reason: "Checks would have come at another pace after a failure: here inter holds.",
        },
    },
    SettingRow {
        words: &[
            "addr",
            "port",
            "track",
            "check-proto",
            "check-sni",
            "check-alpn",
        ],
        arguments: 1,
        fate: Fate {
            weight: Some(Weight::Marked),
            reason: "Its health would have been asked elsewhere or otherwise: here a check is a connection to its address.",
        },
    },
    SettingRow {
        words: &["agent-port", "agent-inter", "agent-addr", "agent-send"],
        arguments: 1,
        fate: Fate {
            weight: None,
            reason: "It speaks of agents.",
        },
    },
    SettingRow {
        words: &["agent-check"],
        arguments: 0,
        fate: Fate {
            weight: Some(Weight::Marked),
            reason: "An agent would have told its weight and health: here its own checks do.",
        },
    },
    SettingRow {
        words: &["check-ssl", "check-send-proxy", "check-via-socks4"],
        arguments: 0,
        fate: Fate {
            weight: Some(Weight::Marked),
            reason: "Its health would have been asked otherwise: here a check is a connection to its address.",
        },
    },
    SettingRow {
        words: &["source", "usesrc", "interface"],
        arguments: 1,
        fate: Fate {
            weight: Some(Weight::Marked),
            reason: "Connections to it would have come from this address: here the system chooses one.",
        },
    },
    SettingRow {
        words: &[
            "id",
            "init-addr",
            "resolve-prefer",
            "resolve-net",
            "resolve-opts",
            "tcp-ut",
            "pool-max-conn",
            "pool-purge-delay",
            "pool-low-conn",
            "max-reuse",
            "ws",
            "shard",
            "log-proto",
            "verify",
            "verifyhost",
            "ca-file",
            "ca-verify-file",
            "crt",
            "crl-file",
            "sni",
            "alpn",
            "ciphers",
            "ciphersuites",
            "npn",
            "ssl-min-ver",
            "ssl-max-ver",
        ],
        arguments: 1,
        fate: Fate {
            weight: None,
            reason: "",
        },
    },
    SettingRow {
        words: &["resolvers"],
        arguments: 1,
        fate: Fate {
            weight: Some(Weight::Slight),
            reason: "Its name would have been looked up anew: here that is done as the program starts, by each check and after a failed connect.",
        },
    },
    SettingRow {
        words: &[
            "tfo",
            "stick",
            "non-stick",
            "no-sslv3",
            "no-tlsv10",
            "no-tlsv11",
            "no-tlsv12",
            "no-tlsv13",
            "allow-0rtt",
            "force-sslv3",
            "force-tlsv10",
            "force-tlsv11",
            "force-tlsv12",
            "force-tlsv13",
            "tls-tickets",
            "no-tls-tickets",
            "ssl-reuse",
            "no-ssl-reuse",
            "no-verifyhost",
            "no-check-ssl",
            "no-send-proxy",
            "no-send-proxy-v2",
            "no-send-proxy-v2-ssl",
            "no-send-proxy-v2-ssl-cn",
            "no-tfo",
            "no-agent-check",
            "no-ssl",
        ],
        arguments: 0,
        fate: Fate {
            weight: None,
            reason: "",
        },
    },
];

/// The effect of words that HAProxy doesn't have, or of a later version.
const STRANGE: Fate = Fate {
    weight: Some(Weight::Marked),
    reason: "dueproxy convert doesn't know it.",
};

/// Returns the effect of a line that begins with these two words.
pub(crate) fn fate_of(first: &[u8], second: &[u8]) -> Fate {
    let found = match first {
        b"option" => found(&OPTIONS, second),
        b"http-request" => found(&ACTIONS, second),
        b"timeout" => found(&TIMES, second),
        _ => found(&KEYWORDS, first),
    };
    found.unwrap_or(STRANGE)
}

fn found(rows: &'static [Row], word: &[u8]) -> Option<Fate> {
    rows.iter()
        .find(|row| is_among(row.words, word))
        .map(|row| row.fate)
}

fn is_among(words: &[&'static str], word: &[u8]) -> bool {
    words.iter().any(|name| word == name.as_bytes())
}

/// Returns how many words stand after a setting of a server, and its effect; `None` where it isn't known.
pub(crate) fn setting_fate(word: &[u8]) -> Option<(usize, Fate)> {
    SETTINGS
        .iter()
        .find(|row| is_among(row.words, word))
        .map(|row| (row.arguments, row.fate))
}
