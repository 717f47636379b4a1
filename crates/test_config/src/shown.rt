//! Tests of the texts of causes, faults and refusals.

use crate::texts::reads;
use proxy_config::{ConfigFault, FaultCause, ReadError};
use req_view::HeadRefusal;
use std::alloc::Global;
use std::process::Abort;

/// A cause with its text, and a line with the text of its fault.
type CauseRow = (FaultCause, &'static str, u64, &'static str);

static CAUSES: [CauseRow; 13] = [
    (FaultCause::Quoting, "quoting", 1, "line 1: quoting"),
    (FaultCause::Section, "section", 2, "line 2: section"),
    (FaultCause::Keyword, "keyword", 28, "line 28: keyword"),
    (FaultCause::Place, "place", 4, "line 4: place"),
    (FaultCause::Words, "words", 5, "line 5: words"),
    (FaultCause::Number, "number", 6, "line 6: number"),
    (FaultCause::Address, "address", 7, "line 7: address"),
    (FaultCause::Name, "name", 8, "line 8: name"),
    (FaultCause::Twice, "twice", 9, "line 9: twice"),
    (FaultCause::Unknown, "unknown", 10, "line 10: unknown"),
    (FaultCause::Condition, "condition", 11, "line 11: condition"),
    (FaultCause::Missing, "missing", 0, "line 0: missing"),
    (FaultCause::Limit, "limit", 1048577, "line 1048577: limit"),
];

fn is_cause_shown(rt: &impl Abort, alloc: Global, row: &CauseRow) {
    let (cause, text, line, whole) = *row;
    let fault = ConfigFault { line, cause };
    let alone = format!(in alloc; "{cause}").expect(rt, "memory");
    reads(rt, alone, "cause", text);
    let with_line = format!(in alloc; "{fault}").expect(rt, "memory");
    reads(rt, with_line, "fault", whole);
}

#[test]
fn each_cause_reads_as_documented_alone_and_with_its_line(rt: HostRuntime) {
    for row in &CAUSES {
        is_cause_shown(&rt, rt.alloc(), row);
    }
}

/// Why a configuration or a head wasn't read.
enum Refused {
    Read(ReadError),
    Head(HeadRefusal),
}

static REFUSALS: [(Refused, &str); 4] = [
    (Refused::Read(ReadError::NoMemory), "no memory"),
    (
        Refused::Read(ReadError::Fault(ConfigFault {
            line: 7,
            cause: FaultCause::Keyword,
        })),
        "line 7: keyword",
    ),
    (Refused::Head(HeadRefusal::NoMemory), "no memory"),
    (Refused::Head(HeadRefusal::HeadFault), "not a head"),
];

fn text_of(rt: &impl Abort, alloc: Global, refused: &Refused) -> String {
    match refused {
        Refused::Read(error) => format!(in alloc; "{error}").expect(rt, "memory"),
        Refused::Head(refusal) => format!(in alloc; "{refusal}").expect(rt, "memory"),
    }
}

#[test]
fn each_refusal_to_read_has_its_text(rt: HostRuntime) {
    for (refused, text) in &REFUSALS {
        let shown = text_of(&rt, rt.alloc(), refused);
        reads(&rt, shown, "refusal", text);
    }
}
