//! The numbers as one JSON value, for a page that shows them.

use crate::families::queue_name;
use crate::minute::Second;
use crate::queued::QueueKeys;
use crate::server::ServerNumbers;
use crate::totals::{ClassNumbers, ProxyNumbers};
use due_key::Moment;
use log_entries::Intake;
use log_texts::Names;
use serde::Serialize;
use std::alloc::{AllocError, Global};

/// The most waiting requests of a queue that are shown.
const MOST_SHOWN: usize = 50;

/// A server. `None` as the limit: it is closed; 0: no limit.
#[derive(Drop, Serialize)]
struct ServerObject<'a> {
    name: &'a str,
    up: bool,
    limit: Option<u32>,
    served: u64,
    direct: u64,
    granted: u64,
}

/// A waiting request.
#[derive(Drop, Serialize)]
struct Waiter {
    ticket: u64,
    class: i64,
    due: i64,
}

#[derive(Drop, Serialize)]
struct QueueObject<'a> {
    name: &'a str,
    waiting: usize,
    next: Vec<Waiter>,
}

/// The slots of a class in the last minute.
#[derive(Drop, Serialize)]
struct ClassObject {
    class: i64,
    slots: u64,
    late: u64,
    worst: Option<i64>,
}

#[derive(Drop, Serialize)]
struct State<'a> {
    moment: u64,
    phase: &'a str,
    places: usize,
    live: u64,
    outside: u64,
    entries: u64,
    most_entries: usize,
    windows: u64,
    servers: Vec<ServerObject<'a>>,
    queues: Vec<QueueObject<'a>>,
    minute: Vec<ClassObject>,
}

/// Returns the numbers at this moment as one JSON value, on one line. It has the first fifty
/// requests of each queue at most.
pub fn state_of(
    alloc: Global,
    names: &Names,
    numbers: &ProxyNumbers,
    moment: Moment,
) -> Result<String, AllocError> {
    let value = State {
        moment: moment.get(),
        phase: if numbers.stopping {
            "stopping"
        } else {
            "serving"
        },
        places: numbers.proportions.places,
        live: numbers.live,
        outside: numbers.outside,
        entries: numbers.entries,
        most_entries: numbers.proportions.entries,
        windows: numbers.windows,
        servers: servers_of(alloc, names, numbers)?,
        queues: queues_of(alloc, names, numbers)?,
        minute: minute_of(alloc, numbers, moment)?,
    };
    match serde_json::to_string(alloc, &value) {
        Ok(text) => Ok(text),
        Err(_) => Err(AllocError),
    }
}

fn servers_of<'a>(
    alloc: Global,
    names: &'a Names,
    numbers: &ProxyNumbers,
) -> Result<Vec<ServerObject<'a>>, AllocError> {
    let mut servers = Vec::with_capacity(alloc, numbers.servers.len())?;
    for (number, server) in numbers.servers.iter().enumerate() {
        servers.push(server_of(names.of(number), server))?;
    }
    Ok(servers)
}

fn server_of<'a>(name: &'a str, server: &ServerNumbers) -> ServerObject<'a> {
    ServerObject {
        name,
        up: server.up,
        limit: match server.intake {
            Intake::Open(limit) => Some(limit),
            Intake::Closed => None,
        },
        served: server.served,
        direct: server.direct,
        granted: server.granted,
    }
}

fn queues_of<'a>(
    alloc: Global,
    names: &'a Names,
    numbers: &ProxyNumbers,
) -> Result<Vec<QueueObject<'a>>, AllocError> {
    let mut queues = Vec::with_capacity(alloc, numbers.queues.len())?;
    for (number, queue) in numbers.queues.iter().enumerate() {
        queues.push(QueueObject {
            name: queue_name(names, number),
            waiting: queue.keys().len(),
            next: next_of(alloc, queue)?,
        })?;
    }
    Ok(queues)
}

fn next_of(alloc: Global, queue: &QueueKeys) -> Result<Vec<Waiter>, AllocError> {
    let mut next = Vec::new(alloc);
    for key in queue.keys().iter().take(MOST_SHOWN) {
        next.push(Waiter {
            ticket: key.ticket,
            class: key.class.get(),
            due: key.due.get(),
        })?;
    }
    Ok(next)
}

fn minute_of(
    alloc: Global,
    numbers: &ProxyNumbers,
    moment: Moment,
) -> Result<Vec<ClassObject>, AllocError> {
    let mut classes = Vec::new(alloc);
    for (class, told) in numbers.classes.iter() {
        classes.push(class_of(*class, told, moment))?;
    }
    Ok(classes)
}

fn class_of(class: i64, told: &ClassNumbers, moment: Moment) -> ClassObject {
    let Second {
        slots,
        late,
        worst,
        ..
    } = told.minute.sum(moment.get());
    ClassObject {
        class,
        slots,
        late,
        worst,
    }
}
