use super::*;
use crate::texts::push_often;

/// A piece of text that is repeated this many times.
struct Piece {
    text: &'static str,
    times: usize,
}

/// A file of these pieces, its number of bytes, and what is read: this number of pins, or that a
/// line is past a limit.
struct LargeFile {
    name: &'static str,
    pieces: &'static [Piece],
    bytes: usize,
    pins: usize,
    too_much: Option<u64>,
}

const LISTEN: &str = "listen w\nbind :80\n";

const SERVER: &str = "server s0 h:80\n";

/// The most servers that there may be.
const SERVERS: &str = "\
server s0 h:80\nserver s1 h:80\nserver s2 h:80\nserver s3 h:80\nserver s4 h:80\n\
server s5 h:80\nserver s6 h:80\nserver s7 h:80\nserver s8 h:80\nserver s9 h:80\n\
server s10 h:80\nserver s11 h:80\nserver s12 h:80\nserver s13 h:80\nserver s14 h:80\n\
server s15 h:80\nserver s16 h:80\nserver s17 h:80\nserver s18 h:80\nserver s19 h:80\n\
server s20 h:80\nserver s21 h:80\nserver s22 h:80\nserver s23 h:80\nserver s24 h:80\n\
server s25 h:80\nserver s26 h:80\nserver s27 h:80\nserver s28 h:80\nserver s29 h:80\n\
server s30 h:80\nserver s31 h:80\nserver s32 h:80\nserver s33 h:80\nserver s34 h:80\n\
server s35 h:80\nserver s36 h:80\nserver s37 h:80\nserver s38 h:80\nserver s39 h:80\n\
server s40 h:80\nserver s41 h:80\nserver s42 h:80\nserver s43 h:80\nserver s44 h:80\n\
server s45 h:80\nserver s46 h:80\nserver s47 h:80\nserver s48 h:80\nserver s49 h:80\n\
server s50 h:80\nserver s51 h:80\nserver s52 h:80\nserver s53 h:80\nserver s54 h:80\n\
server s55 h:80\nserver s56 h:80\nserver s57 h:80\nserver s58 h:80\nserver s59 h:80\n\
server s60 h:80\nserver s61 h:80\nserver s62 h:80\nserver s63 h:80\n";

const ACL: &str = "acl x path /\n";

const RULE: &str = "http-request set-priority-class int(1)\n";

const PIN: &str = "use-server a if x\n";

static LARGE_FILES: [LargeFile; 9] = [
    LargeFile {
        name: "64 servers, 256 tests and 256 rules",
        pieces: &[
            Piece {
                text: LISTEN,
                times: 1,
            },
            Piece {
                text: SERVERS,
                times: 1,
            },
            Piece {
                text: ACL,
                times: 256,
            },
            Piece {
                text: RULE,
                times: 256,
            },
        ],
        bytes: 14344,
        pins: 0,
        too_much: None,
    },
    LargeFile {
        name: "65 servers",
        pieces: &[
            Piece {
                text: LISTEN,
                times: 1,
            },
            Piece {
                text: SERVERS,
                times: 1,
            },
            Piece {
                text: "server s64 h:80\n",
                times: 1,
            },
        ],
        bytes: 1048,
        pins: 0,
        too_much: Some(67),
    },
    LargeFile {
        name: "257 tests",
        pieces: &[
            Piece {
                text: LISTEN,
                times: 1,
            },
            Piece {
                text: SERVER,
                times: 1,
            },
            Piece {
                text: ACL,
                times: 257,
            },
        ],
        bytes: 3374,
        pins: 0,
        too_much: Some(260),
    },
    LargeFile {
        name: "257 rules",
        pieces: &[
            Piece {
                text: LISTEN,
                times: 1,
            },
            Piece {
                text: SERVER,
                times: 1,
            },
            Piece {
                text: RULE,
                times: 257,
            },
        ],
        bytes: 10056,
        pins: 0,
        too_much: Some(260),
    },
    LargeFile {
        name: "256 pins, which count as rules",
        pieces: &[
            Piece {
                text: LISTEN,
                times: 1,
            },
            Piece {
                text: ACL,
                times: 1,
            },
            Piece {
                text: PIN,
                times: 256,
            },
            Piece {
                text: "server a h:80\n",
                times: 1,
            },
        ],
        bytes: 4653,
        pins: 256,
        too_much: None,
    },
    LargeFile {
        name: "256 pins and a rule",
        pieces: &[
            Piece {
                text: LISTEN,
                times: 1,
            },
            Piece {
                text: ACL,
                times: 1,
            },
            Piece {
                text: PIN,
                times: 256,
            },
            Piece {
                text: RULE,
                times: 1,
            },
            Piece {
                text: "server a h:80\n",
                times: 1,
            },
        ],
        bytes: 4692,
        pins: 0,
        too_much: Some(260),
    },
    LargeFile {
        name: "a byte less than the most",
        pieces: &[
            Piece {
                text: LISTEN,
                times: 1,
            },
            Piece {
                text: SERVER,
                times: 1,
            },
            Piece {
                text: "#",
                times: MOST_BYTES - 35,
            },
            Piece {
                text: "\n",
                times: 1,
            },
        ],
        bytes: MOST_BYTES - 1,
        pins: 0,
        too_much: None,
    },
    LargeFile {
        name: "the most bytes",
        pieces: &[
            Piece {
                text: LISTEN,
                times: 1,
            },
            Piece {
                text: SERVER,
                times: 1,
            },
            Piece {
                text: "#",
                times: MOST_BYTES - 35,
            },
            Piece {
                text: "\n\n",
                times: 1,
            },
        ],
        bytes: MOST_BYTES,
        pins: 0,
        too_much: None,
    },
    // The byte past the limit is a line feed, and stands in line 6.
    LargeFile {
        name: "more bytes",
        pieces: &[
            Piece {
                text: LISTEN,
                times: 1,
            },
            Piece {
                text: SERVER,
                times: 1,
            },
            Piece {
                text: "#",
                times: MOST_BYTES - 35,
            },
            Piece {
                text: "\n\n\n\"",
                times: 1,
            },
        ],
        bytes: MOST_BYTES + 2,
        pins: 0,
        too_much: Some(6),
    },
];

fn text_of(rt: &impl Abort, alloc: Global, file: &LargeFile) -> Vec<u8> {
    let mut text = Vec::new(alloc);
    for piece in file.pieces {
        push_often(rt, &mut text, piece.text, piece.times);
    }
    holds(rt, text.len() == file.bytes, file.name, "its bytes");
    text
}

fn is_read_up_to_its_limit(rt: &impl Abort, alloc: Global, file: &LargeFile) {
    let text = text_of(rt, alloc, file);
    let found = read(alloc, &text);
    drop(text);
    let so = match (&found, file.too_much) {
        (Ok(config), None) => config.pins.len() == file.pins,
        (Err(error), Some(line)) => {
            let cause = FaultCause::Limit;
            *error == ReadError::Fault(ConfigFault { line, cause })
        }
        _ => false,
    };
    drop(found);
    holds(rt, so, file.name, "what is read");
}

#[test]
fn of_lines_and_of_bytes(rt: HostRuntime) {
    for file in &LARGE_FILES {
        is_read_up_to_its_limit(&rt, rt.alloc(), file);
    }
}
