//! How much of a proxy's resources is in use, and what was left uncounted.

use crate::exposition::{Family, Kind, Label, Value, push_count, push_family};
use crate::totals::ProxyNumbers;
use std::alloc::AllocError;

static RECEIVED: Family = Family {
    name: "dueproxy_received_bytes_total",
    kind: Kind::Counter,
    help: "Bytes read of clients, of requests that ended.",
};

static SENT: Family = Family {
    name: "dueproxy_sent_bytes_total",
    kind: Kind::Counter,
    help: "Bytes written to clients, of requests that ended.",
};

static PLACES: Family = Family {
    name: "dueproxy_places",
    kind: Kind::Gauge,
    help: "Requests that may be served or wait in queues at once.",
};

static PLACES_IN_USE: Family = Family {
    name: "dueproxy_places_in_use",
    kind: Kind::Gauge,
    help: "Requests that are served or wait in queues.",
};

static OUTSIDE: Family = Family {
    name: "dueproxy_outside_waiting",
    kind: Kind::Gauge,
    help: "Requests that wait outside for a place, and so in no queue.",
};

static ENTRIES: Family = Family {
    name: "dueproxy_log_entries",
    kind: Kind::Gauge,
    help: "Entries of the dispatcher's log in the present window.",
};

static ENTRIES_MOST: Family = Family {
    name: "dueproxy_log_entries_most",
    kind: Kind::Gauge,
    help: "Entries after which a window of the dispatcher's log ends.",
};

static WINDOWS: Family = Family {
    name: "dueproxy_windows_total",
    kind: Kind::Counter,
    help: "Windows of the dispatcher's log that ended.",
};

static STOPPING: Family = Family {
    name: "dueproxy_stopping",
    kind: Kind::Gauge,
    help: "Whether no more clients are taken.",
};

static LEFT_OUT: Family = Family {
    name: "dueproxy_left_out_total",
    kind: Kind::Counter,
    help: "What wasn't written or counted: lines of the access log and of the event log, requests, entries of the dispatcher's log, and gaps in it.",
};

/// Writes how much is in use.
pub(crate) fn push_sizes(text: &mut String, numbers: &ProxyNumbers) -> Result<(), AllocError> {
    push_alone(text, &RECEIVED, numbers.received)?;
    push_alone(text, &SENT, numbers.sent)?;
    push_alone(text, &PLACES, numbers.proportions.places as u64)?;
    push_alone(text, &PLACES_IN_USE, numbers.live)?;
    push_alone(text, &OUTSIDE, numbers.outside)?;
    push_alone(text, &ENTRIES, numbers.entries)?;
    push_alone(text, &ENTRIES_MOST, numbers.proportions.entries as u64)?;
    push_alone(text, &WINDOWS, numbers.windows)?;
    push_alone(text, &STOPPING, u64::from(numbers.stopping))
}

/// Writes what was left uncounted.
pub(crate) fn push_left_out(text: &mut String, numbers: &ProxyNumbers) -> Result<(), AllocError> {
    let lost = numbers.lost;
    let counts = [
        ("access_lines", lost.lines),
        ("event_lines", lost.events),
        ("requests", lost.exchanges),
        ("entries", lost.entries),
        ("gaps", lost.gaps),
    ];
    push_family(text, &LEFT_OUT)?;
    for (what, count) in counts {
        let labels = [Label {
            name: "what",
            value: Value::Text(what),
        }];
        push_count(text, (LEFT_OUT.name, ""), &labels, count)?;
    }
    Ok(())
}

// Writes a family with one sample.
fn push_alone(text: &mut String, family: &Family, count: u64) -> Result<(), AllocError> {
    push_family(text, family)?;
    push_count(text, (family.name, ""), &[], count)
}
