//! The metrics for Prometheus, family by family.

use crate::delays::push_delays;
use crate::exposition::{Family, Kind, Label, Value, push_count, push_endless, push_family};
use crate::server::ServerNumbers;
use crate::sizes::{push_left_out, push_sizes};
use crate::tally::Tally;
use crate::totals::ProxyNumbers;
use log_entries::Intake;
use log_texts::Names;
use std::alloc::AllocError;

/// The value of the label `server` where no server had a request, as in the access log.
const NO_SERVER: &str = "<NOSRV>";

/// The value of the label `queue` of the backend's queue, as in the access log.
pub(crate) const BACKEND: &str = "*";

static REQUESTS: Family = Family {
    name: "dueproxy_requests_total",
    kind: Kind::Counter,
    help: "Requests that ended, by the server that had them last and the status that their clients were told.",
};

static SLOTS: Family = Family {
    name: "dueproxy_slots_total",
    kind: Kind::Counter,
    help: "Slots of servers given to requests, as they came (direct) or after a wait (granted).",
};

static FAILURES: Family = Family {
    name: "dueproxy_connection_failures_total",
    kind: Kind::Counter,
    help: "Connections to servers that failed.",
};

static RETRIES: Family = Family {
    name: "dueproxy_retries_total",
    kind: Kind::Counter,
    help: "Failed connections after which the request tried the same server again.",
};

static REFUSALS: Family = Family {
    name: "dueproxy_refusals_total",
    kind: Kind::Counter,
    help: "Requests that weren't served, by why.",
};

static SERVED: Family = Family {
    name: "dueproxy_server_served",
    kind: Kind::Gauge,
    help: "Requests that a server serves.",
};

static LIMITS: Family = Family {
    name: "dueproxy_server_limit",
    kind: Kind::Gauge,
    help: "Requests that a server may serve at once: +Inf without a limit, 0 where it takes nobody.",
};

static UP: Family = Family {
    name: "dueproxy_server_up",
    kind: Kind::Gauge,
    help: "Whether a server is up, by the results of its checks.",
};

static WAITING: Family = Family {
    name: "dueproxy_queue_waiting",
    kind: Kind::Gauge,
    help: "Requests that wait in a queue, of each class that ever waited there; * is the backend's queue.",
};

/// Writes all metrics of a proxy with servers of these names. After an `Err` a part of them may stand there.
pub fn push_metrics(
    text: &mut String,
    names: &Names,
    numbers: &ProxyNumbers,
) -> Result<(), AllocError> {
    push_requests(text, names, numbers)?;
    push_slots(text, names, numbers)?;
    push_of_servers(text, names, numbers)?;
    push_refusals(text, numbers)?;
    push_waiting(text, names, numbers)?;
    push_delays(text, numbers)?;
    push_sizes(text, numbers)?;
    push_left_out(text, numbers)
}

// A number of a server.
#[derive(Clone, Copy)]
enum ServerGauge {
    Served,
    Up,
    Failures,
    Retries,
}

impl ServerGauge {
    fn of(self, server: &ServerNumbers) -> u64 {
        match self {
            ServerGauge::Served => server.served,
            ServerGauge::Up => u64::from(server.up),
            ServerGauge::Failures => server.failures,
            ServerGauge::Retries => server.retries,
        }
    }
}

fn push_of_servers(
    text: &mut String,
    names: &Names,
    numbers: &ProxyNumbers,
) -> Result<(), AllocError> {
    push_of_each(text, names, numbers, (&FAILURES, ServerGauge::Failures))?;
    push_of_each(text, names, numbers, (&RETRIES, ServerGauge::Retries))?;
    push_of_each(text, names, numbers, (&SERVED, ServerGauge::Served))?;
    push_of_each(text, names, numbers, (&UP, ServerGauge::Up))?;
    push_limits(text, names, numbers)
}

fn push_of_each(
    text: &mut String,
    names: &Names,
    numbers: &ProxyNumbers,
    of: (&Family, ServerGauge),
) -> Result<(), AllocError> {
    let (family, told) = of;
    push_family(text, family)?;
    for (number, server) in numbers.servers.iter().enumerate() {
        let labels = [server_label(names.of(number))];
        push_count(text, (family.name, ""), &labels, told.of(server))?;
    }
    Ok(())
}

fn push_limits(text: &mut String, names: &Names, numbers: &ProxyNumbers) -> Result<(), AllocError> {
    push_family(text, &LIMITS)?;
    for (number, server) in numbers.servers.iter().enumerate() {
        let labels = [server_label(names.of(number))];
        match server.intake {
            Intake::Open(0) => push_endless(text, (LIMITS.name, ""), &labels)?,
            Intake::Open(limit) => {
                push_count(text, (LIMITS.name, ""), &labels, u64::from(limit))?;
            }
            Intake::Closed => push_count(text, (LIMITS.name, ""), &labels, 0)?,
        }
    }
    Ok(())
}

fn push_requests(
    text: &mut String,
    names: &Names,
    numbers: &ProxyNumbers,
) -> Result<(), AllocError> {
    push_family(text, &REQUESTS)?;
    for (number, server) in numbers.servers.iter().enumerate() {
        push_statuses(text, names.of(number), &server.statuses)?;
    }
    push_statuses(text, NO_SERVER, &numbers.unserved)
}

fn push_statuses(text: &mut String, server: &str, statuses: &Tally) -> Result<(), AllocError> {
    for (status, times) in statuses.counts() {
        let status = if *status < 0 {
            Value::Text("none")
        } else {
            Value::Number(*status)
        };
        let labels = [
            server_label(server),
            Label {
                name: "status",
                value: status,
            },
        ];
        push_count(text, (REQUESTS.name, ""), &labels, *times)?;
    }
    Ok(())
}

fn push_slots(text: &mut String, names: &Names, numbers: &ProxyNumbers) -> Result<(), AllocError> {
    push_family(text, &SLOTS)?;
    for (number, server) in numbers.servers.iter().enumerate() {
        let name = names.of(number);
        push_slots_of(text, name, "direct", server.direct)?;
        push_slots_of(text, name, "granted", server.granted)?;
    }
    Ok(())
}

fn push_slots_of(text: &mut String, server: &str, way: &str, slots: u64) -> Result<(), AllocError> {
    let labels = [server_label(server), text_label("way", way)];
    push_count(text, (SLOTS.name, ""), &labels, slots)
}

fn push_refusals(text: &mut String, numbers: &ProxyNumbers) -> Result<(), AllocError> {
    let refused = numbers.refused;
    let counts = [
        ("aborted", refused.aborted),
        ("timeout", refused.timeout),
        ("retries", refused.retries),
        ("noserver", refused.no_server),
        ("unplaced", refused.unplaced),
        ("nohead", refused.no_head),
    ];
    push_family(text, &REFUSALS)?;
    for (cause, count) in counts {
        let labels = [text_label("cause", cause)];
        push_count(text, (REFUSALS.name, ""), &labels, count)?;
    }
    Ok(())
}

fn push_waiting(
    text: &mut String,
    names: &Names,
    numbers: &ProxyNumbers,
) -> Result<(), AllocError> {
    push_family(text, &WAITING)?;
    for (number, queue) in numbers.queues.iter().enumerate() {
        push_waiting_in(text, queue_name(names, number), queue.classes())?;
    }
    Ok(())
}

fn push_waiting_in(text: &mut String, queue: &str, classes: &Tally) -> Result<(), AllocError> {
    for (class, times) in classes.counts() {
        let labels = [
            text_label("queue", queue),
            Label {
                name: "class",
                value: Value::Number(*class),
            },
        ];
        push_count(text, (WAITING.name, ""), &labels, *times)?;
    }
    Ok(())
}

/// Returns the name of the queue at this position: the backend's first, then those of the servers.
pub(crate) fn queue_name(names: &Names, number: usize) -> &str {
    match number.checked_sub(1) {
        None => BACKEND,
        Some(server) => names.of(server),
    }
}

fn server_label(name: &str) -> Label<'_> {
    text_label("server", name)
}

fn text_label<'a>(name: &'a str, value: &'a str) -> Label<'a> {
    Label {
        name,
        value: Value::Text(value),
    }
}
